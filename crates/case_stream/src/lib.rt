// The parts of a case, read from standard input into lent buffers. Numbers stand least significant byte first. A part is None where
// the input ends before it does, and where there is no room for it.
#![tactic(auto)]

ghost use Rattle.std.specs.Prelude.{◌≤◌, length, IfSome};

// How much more each number of a lent buffer is than the one before it.
const STEP: u16 = 31;

/// The calls that have cases, each with its number in the stream and on the line of a case.
#[derive(Clone, Copy)]
pub enum Call {
    Check = 1,
    ToTable = 2,
    FromTable = 3,
    ToNewick = 4,
    FromNewick = 5,
    Pack = 6,
    Unpack = 7,
    Shuffle = 8,
    Relabel = 9,
    WriteArchive = 10,
    ReadTree = 11,
    View = 12,
}

const CALLS: [Call; 12] = [
    Call::Check,
    Call::ToTable,
    Call::FromTable,
    Call::ToNewick,
    Call::FromNewick,
    Call::Pack,
    Call::Unpack,
    Call::Shuffle,
    Call::Relabel,
    Call::WriteArchive,
    Call::ReadTree,
    Call::View,
];

/// An element of a list in a stream: one byte, or a number of two.
pub trait Element: Copy {
    /// Fills xs, where the input has so many elements.
    fn read(xs: &mut [Self]) -> Option<()>;

    /// The number x as an element: where that is a byte, the less significant one of x.
    fn of(x: u16) -> Self;
}

impl Element for u8 {
    fn read(xs: &mut [u8]) -> Option<()> {
        (io::read_full(0, xs) == xs.len()).then_some(())
    }

    fn of(x: u16) -> u8 {
        x.to_le_bytes()[0]
    }
}

impl Element for u16 {
    fn read(xs: &mut [u16]) -> Option<()> {
        // Two bytes for each of 8,192 numbers, the most that a list of a case has.
        let mut pairs = [0u8; 16384];
        let bytes = pairs.get_mut(..2 * xs.len())?;
        u8::read(bytes)?;
        for (x, pair) in xs.iter_mut().zip(bytes.chunks_exact(2)) {
            *x = u16::from_le_bytes([pair[0], pair[1]]);
        }
        Some(())
    }

    fn of(x: u16) -> u16 {
        x
    }
}

/// The call of the next case, where the input has one.
pub fn next_call() -> Option<Call> {
    let mut one = [0u8; 1];
    u8::read(&mut one)?;
    let number = one[0];
    CALLS.iter().copied().find(|call| *call as u8 == number)
}

/// A leaf count, or the number of a tree. Where the input ends in it, it is the number of the bytes that there are, and not None, since the
/// line of a view is written all the same; what follows is not whole.
pub fn long_number() -> usize {
    let mut eight = [0u8; 8];
    io::read_full(0, &mut eight);
    usize::from_le_bytes(eight)
}

// The room for a list at the start of xs, of the length that the input has.
fn room<T>(xs: &mut [T]) -> Option<&mut [T]>
    ensures { IfSome result (λ part. length part.now ≤ length xs.old) }
{
    let mut four = [0u8; 4];
    u8::read(&mut four)?;
    let n = u32::from_le_bytes(four) as usize;
    xs.get_mut(..n)
}

/// A list that is given: a vector, rows, a permutation, a text or a record, at the start of what is lent for it.
pub fn list<T: Element>(xs: &mut [T]) -> Option<&mut [T]>
    ensures { IfSome result (λ given. length given.now ≤ length xs.old) }
{
    let given = room(xs)?;
    T::read(given)?;
    Some(given)
}

/// A buffer to lend, at the start of what is lent for it: its numbers rise by steps from the first, which is given.
pub fn lent<T: Element>(xs: &mut [T]) -> Option<&mut [T]>
    ensures { IfSome result (λ out. length out.now ≤ length xs.old) }
{
    let out = room(xs)?;
    let mut two = [0u8; 2];
    u8::read(&mut two)?;
    let mut x = u16::from_le_bytes(two);
    for place in out.iter_mut() {
        *place = T::of(x);
        x = x.wrapping_add(STEP);
    }
    Some(out)
}
