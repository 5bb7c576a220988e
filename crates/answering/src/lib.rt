// The shared answer, as the public calls make it: a refusal, and the end of a call that has its numbers in an array.
//
// `Answer` has the shape of a Result, and stays an enum of its own: the rules name it, and each promise is over it (rules specs/Promise).
#![tactic(auto)]

ghost use Rattle.std.specs.Prelude.{◌≡◌, ◌≤◌, length, take};
ghost use Rattle.rules.specs.Answer.{made, refused, number_of, reads};
ghost use Rattle.rules.specs.Promise.{list, makes, Keeps};

use rules::{Answer, Kind, Refusal};

/// The refusal of a kind at a place.
#[tactic(auto, unfolding(rules::specs::Answer::reads, rules::specs::Answer::number_of))]
pub fn refuse(kind: Kind, place: usize) -> Answer
    ensures { reads result ≡ refused (number_of kind) place }
{
    Answer::Refused(Refusal { kind, place })
}

/// 3 where out has no room for the first n numbers; else they are copied out, and the call is done.
pub fn hand_out(numbers: &[u16], n: usize, out: &mut [u16]) -> Answer
    requires { n ≤ length numbers.now }
    ensures { Keeps (makes list (made (take n numbers.now))) out.old result out.new }
{
    if out.len() < n {
        return refuse(Kind::Room, n);
    }
    lists::copy(numbers, n, out);
    Answer::Done(n)
}
