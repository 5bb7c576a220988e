// Entries read from their fields by a reading position: one by one, or four by four.
#![tactic(auto)]

ghost use Rattle.std.specs.Prelude.{◌<◌, length};
ghost use Rattle.runs.specs.Runs.{Fours, Run};
ghost use Rattle.entry_reader.specs.Reading.{Left, Read};

use bit_reader::Reader;

/// Reads the entries from i to end one by one, and gives the position moved on behind them.
pub fn read_singles<'a>(r: Reader<'a>, i: usize, end: usize, out: &mut [u16]) -> Reader<'a>
    requires { Left r.bytes.now r.at i end 0 (length out.old) }
    ensures { Read r.entry i end out.old result out.new }
{
    let mut q = r;
    for k in i..end {
        q = bit_reader::next_field(q, runs::field_width(k), out, k);
    }
    q
}

// The same for entries of one width, four by four. The 48 bits behind the entries let the last four lie in a word, too.
fn read_run<'a>(r: Reader<'a>, i: usize, end: usize, out: &mut [u16]) -> Reader<'a>
    requires { Left r.bytes.now r.at i end 48 (length out.old) × Run i end }
    ensures { Read r.entry i end out.old result out.new }
{
    let w = runs::field_width(i);
    let mut q = r;
    for k in (i..end).step_by(4) {
        q = bit_reader::next_four(q, w, out, k);
    }
    q
}

/// The same for entries of any width, run by run.
pub fn read_fours<'a>(r: Reader<'a>, i: usize, end: usize, out: &mut [u16]) -> Reader<'a>
    requires { Left r.bytes.now r.at i end 48 (length out.old) × (i < end → Fours i end) }
    ensures { Read r.entry i end out.old result out.new }
{
    // No range: the next run starts where this one ends.
    let mut q = r;
    let mut k = i;
    while k < end {
        let e = runs::run_end(k, end);
        q = read_run(q, k, e, out);
        k = e;
    }
    q
}
