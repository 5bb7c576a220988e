// The line of a case, for the programs that run a stream of cases: its index, the call's number, the answer, and a hash of each buffer,
// 32-bit FNV-1a.
#![tactic(auto)]

use case_stream::{Call, Element};
use printing::{Shown, line};
use rules::Answer;
use std::fmt;

/// How many cases a run looks at; no stream has so many.
pub const MOST_CASES: usize = 4294967295;

// What the hash is of no byte, and what it is multiplied by for each byte.
const START: u32 = 2166136261;

const FACTOR: u32 = 16777619;

/// A case: how many stood before it in the stream, and its call.
#[derive(Clone, Copy)]
pub struct Case {
    pub index: usize,
    pub call: Call,
}

// The index and the call's number, with which every line begins.
impl fmt::Display for Case {
    fn fmt<W: fmt::Write>(&self, f: &mut fmt::Formatter<W>) -> fmt::Result {
        write!(f, "{} {}", self.index, self.call as u8)
    }
}

impl Case {
    /// The line of a case whose answer comes with one buffer.
    pub fn write<T: Hashed>(self, given: Answer, out: &[T]) {
        line(format_args!("{self} {} {:08x}", Shown(given), hash(out)));
    }
}

/// An element of a buffer that is hashed.
pub trait Hashed: Copy {
    /// The hash with the bytes of this element more, the least significant first.
    fn behind(self, hash: u32) -> u32;
}

impl Hashed for u8 {
    fn behind(self, hash: u32) -> u32 {
        (hash ^ u32::from(self)).wrapping_mul(FACTOR)
    }
}

impl Hashed for u16 {
    fn behind(self, hash: u32) -> u32 {
        let [low, high] = self.to_le_bytes();
        high.behind(low.behind(hash))
    }
}

/// The hash of a buffer.
pub fn hash<T: Hashed>(xs: &[T]) -> u32 {
    xs.iter().fold(START, |hash, x| x.behind(hash))
}

/// The case of a call that makes one list of another: it is made with the very buffers that the case lends, and its line is
/// written. None where a part of the case is not whole.
pub fn make<S: Element, T: Element + Hashed, F: FnOnce(&[S], &mut [T]) -> Answer>(
    case: Case,
    given: &mut [S],
    made: &mut [T],
    call: F,
) -> Option<()>
    requires { F.IsAlwaysCallable call }
{
    let input = case_stream::list(given)?;
    let out = case_stream::lent(made)?;
    case.write(call(input, out), out);
    Some(())
}
