// The public call about a vector alone: whether it is one.
#![tactic(auto)]

ghost use Rattle.rules.specs.Promise.{Keeps};
ghost use Rattle.rules.specs.CallCheck.{check_call};

use answering::refuse;
use rules::{Answer, Kind};

/// Whether v is a vector: 1, 4.
pub fn check(v: &[u16]) -> Answer
    ensures { Keeps (check_call v.now) tt result tt }
{
    let n = v.len();
    if n == 0 {
        return refuse(Kind::LeafCount, 0);
    }
    if 1024 < n {
        return refuse(Kind::LeafCount, 0);
    }
    if let Some(i) = vector::first_fault(v) {
        return refuse(Kind::Entry, i);
    }
    Answer::Done(0)
}
