// The line of a vector in the listing: its front, the text, a line end.
#![tactic(auto)]

ghost use Rattle.std.specs.Prelude.{◌+◌, ◌≤◌, length};
ghost use Rattle.rules.specs.Vector.{Vector};
ghost use Rattle.rules.specs.Tree.{tree_of};
ghost use Rattle.rules.specs.Newick.{text_of};
ghost use Rattle.rules.specs.Listing.{line_of};
ghost use Rattle.digits.specs.Wrote.{Wrote};

use rules::Answer;

/// Writes the line of a valid vector to the front of `out`, and answers its length. A line has at most 10,624 bytes.
#[tactic(auto, using(crate::proofs::Parts::text_room))]
pub fn write_line(v: &[u16], out: &mut [u8]) -> usize
    requires { Vector v.now × (10624 ≤ length out.old) }
    ensures { Wrote (line_of v.now) 0 out.old out.new result }
{
    let at = listing_front::write_front(v, out);
    let end = write_text(v, out, at);
    out[end] = 10;
    end + 1
}

// The text, at a place.
fn write_text(v: &[u16], out: &mut [u8], at: usize) -> usize
    requires { Vector v.now × (at + 6056 ≤ length out.old) }
    ensures { Wrote (text_of (tree_of v.now)) at out.old out.new result }
{
    let Answer::Done(k) = trees::to_newick(v, &mut out[at..]) else {
        return at;
    };
    at + k
}
