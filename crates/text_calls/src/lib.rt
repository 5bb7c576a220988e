// The public calls between a vector and a Newick text.
#![tactic(auto)]

ghost use Rattle.rules.specs.Promise.{Keeps};
ghost use Rattle.rules.specs.CallToNewick.{to_newick_call};
ghost use Rattle.rules.specs.CallFromNewick.{from_newick_call};

use answering::{hand_out, refuse};
use label_faults::LabelFault;
use rules::{Answer, Kind};
use text_vector::TextFault;
use vector_calls::check;

/// Vector to Newick: 1, 4, 3.
pub fn to_newick(v: &[u16], out: &mut [u8]) -> Answer
    ensures { Keeps (to_newick_call v.now) out.old result out.new }
{
    match check(v) {
        Answer::Refused(why) => Answer::Refused(why),
        Answer::Done(_) => {
            let signs = tree_text::text_length(v.len());
            if out.len() < signs {
                return refuse(Kind::Room, signs);
            }
            tree_text::write_tree(v, out);
            Answer::Done(signs)
        }
    }
}

/// Newick to vector: 2 (above 65,536 bytes, then above 6,056 signs), 8, 1, then 9 and 13 label by label, 3.
pub fn from_newick(text: &[u8], out: &mut [u16]) -> Answer
    ensures { Keeps (from_newick_call text.now) out.old result out.new }
{
    if 65536 < text.len() {
        return refuse(Kind::InputLength, 65536);
    }
    let mut vector = [0u16; 1024];
    match text_vector::read_vector(text, &mut vector) {
        Ok(n) => hand_out(&vector, n, out),
        Err(TextFault::TooManySigns) => refuse(Kind::InputLength, 6056),
        Err(TextFault::Breaks(place)) => refuse(Kind::Grammar, place),
        Err(TextFault::TooManyLeaves) => refuse(Kind::LeafCount, 0),
        Err(TextFault::Label(fault)) => match fault {
            LabelFault::Stray(place) => refuse(Kind::StrayLabel, place),
            LabelFault::Double(place) => refuse(Kind::DoubleLabel, place),
        },
    }
}
