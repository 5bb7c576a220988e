// The listing program: packed records back to back on standard input, one at a time; a line for each on standard output.
// The first refusal ends the run with the line `refused`, number, place. A read that fails counts as the end of the input, and a
// write that fails ends the run.
#![tactic(auto)]

ghost use Rattle.std.specs.Prelude.{◌≡◌, ◌≤◌, take};
ghost use Rattle.io.specs.Counts.{IsPrefixLen};
ghost use Rattle.rules.specs.Listing.{most_records};
ghost use Rattle.holding.specs.Wanted.{bytes_wanted};

use printing::Shown;
use rules::Answer;

fn main() {
    let mut held = [0u8; 1280];
    let mut vector = [0u16; 1024];
    let mut out = [0u8; 10624];
    list(&mut held, &mut vector, &mut out);
}

// Of what is lent to every record, held is for its bytes, vector for its entries and out for its line.
fn list(held: &mut [u8; 1280], vector: &mut [u16; 1024], out: &mut [u8; 10624]) {
    for _ in 0..most_records() {
        let k = read_record(held);
        if k == 0 {
            return;
        }
        let given = trees::unpack(&held[..k], vector);
        let Answer::Done(n) = given else {
            printing::line(Shown(given));
            return;
        };
        let end = listing_line::write_line(&vector[..n], out);
        if !io::write_all(1, &out[..end]) {
            return;
        }
    }
}

// It looks no further than so many records.
fn most_records() -> u32
    ensures { result ≡ most_records }
{
    4294967295
}

// Reads the next record and nothing behind it, and answers how many bytes of it there are: none where the input ends before it, and
// fewer than are wanted where the input ends inside it. The kit's crate io reads and writes here, since the second clause is of its words.
#[tactic(auto, using(holding::proofs::Wanted::wanted_within))]
fn read_record(held: &mut [u8; 1280]) -> usize
    ensures { IsPrefixLen result held.new × (result ≤ bytes_wanted (take result held.new)) }
{
    let got = io::read_full(0, &mut held[..2]);
    let wanted = holding::bytes_wanted(&held[..got]);
    if wanted == 2 {
        return got;
    }
    2 + io::read_full(0, &mut held[2..wanted])
}
