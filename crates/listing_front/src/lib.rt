// The front of a line of the listing: n, a space, the vector with commas, a space. The text follows it.
#![tactic(auto)]

ghost use Rattle.std.specs.Prelude.{◌+◌, ◌*◌, ◌≤◌, length};
ghost use Rattle.rules.specs.Vector.{Vector};
ghost use Rattle.rules.specs.Listing.{commaed};
ghost use Rattle.digits.specs.Wrote.{Wrote};
ghost use Rattle.listing_front.specs.Front.{front_of};

/// Writes the front of a line to the front of `out`, and answers where the text begins: n, a space, the vector with commas, a space.
#[tactic(auto, using(crate::proofs::Parts::entries_room, digits::specs::Count::digits_at_most))]
pub fn write_front(v: &[u16], out: &mut [u8]) -> usize
    requires accepted { Vector v.now }
    requires room { 6 + 5 * length v.now ≤ length out.old }
    ensures { Wrote (front_of v.now) 0 out.old out.new result }
{
    let x = digits::write_label(v.len(), out, 0);
    out[x] = 32;
    let y = write_entries(v, out, x + 1);
    out[y] = 32;
    y + 1
}

// The vector with commas, at a place.
#[tactic(auto, using(crate::proofs::Commas::entry_small, crate::proofs::Commas::first_entry, crate::proofs::Commas::entry_room, digits::specs::Count::digits_at_most))]
fn write_entries(v: &[u16], out: &mut [u8], at: usize) -> usize
    requires accepted { Vector v.now }
    requires room { at + 5 * length v.now ≤ length out.old }
    ensures { Wrote (commaed v.now) at out.old out.new result }
{
    let mut x = digits::write_label(usize::from(v[0]), out, at);
    for entry in &v[1..] {
        out[x] = 44;
        x = digits::write_label(usize::from(*entry), out, x + 1);
    }
    x
}
