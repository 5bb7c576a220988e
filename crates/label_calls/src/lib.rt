// The public calls that give the leaves other labels.
#![tactic(auto)]

ghost use Rattle.rules.specs.Promise.{Keeps};
ghost use Rattle.rules.specs.CallShuffle.{shuffle_call};
ghost use Rattle.rules.specs.CallRelabel.{relabel_call};

use answering::refuse;
use rules::{Answer, Kind};
use vector_calls::check;

/// Queue Shuffle: the permutation and the vector of the relabelled tree: 1, 4, 3. The room is that of the shorter buffer.
pub fn shuffle(v: &[u16], new: &mut [u16], out: &mut [u16]) -> Answer
    ensures { Keeps (shuffle_call v.now) (new.old, out.old) result (new.new, out.new) }
{
    match check(v) {
        Answer::Refused(why) => Answer::Refused(why),
        Answer::Done(_) => {
            let n = v.len();
            if new.len() < n {
                return refuse(Kind::Room, n);
            }
            if out.len() < n {
                return refuse(Kind::Room, n);
            }
            shuffling::shuffled(v, new, out);
            Answer::Done(n)
        }
    }
}

/// The vector of the tree with leaf x relabelled p(x): 1, 4, 2, 11, 3.
pub fn relabel(v: &[u16], p: &[u16], out: &mut [u16]) -> Answer
    ensures { Keeps (relabel_call v.now p.now) out.old result out.new }
{
    match check(v) {
        Answer::Refused(why) => Answer::Refused(why),
        Answer::Done(_) => {
            let n = v.len();
            if p.len() != n {
                return refuse(Kind::InputLength, n);
            }
            if let Some(i) = permutation::permutation_fault(p, n) {
                return refuse(Kind::Permutation, i);
            }
            if out.len() < n {
                return refuse(Kind::Room, n);
            }
            renaming::renamed_vector(v, p, out);
            Answer::Done(n)
        }
    }
}
