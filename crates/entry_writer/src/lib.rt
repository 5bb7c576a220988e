// The fields of entries, put behind the bits that are held: one by one, or four by four.
#![tactic(auto)]

ghost use Rattle.std.specs.Prelude.{◌<◌};
ghost use Rattle.runs.specs.Runs.{Fours, Run};
ghost use Rattle.entry_writer.specs.Entries.{PutEntries, Due};

use bit_writer::Writer;

/// Appends the fields of the entries from i to end one by one.
pub fn put_singles<'a>(v: &[u16], i: usize, end: usize, w: Writer<'a>) -> Writer<'a>
    requires { Due v.now i end w }
    ensures { PutEntries v.now i end w.entry result }
{
    let mut q = w;
    for k in i..end {
        q = bit_writer::put_field(q, runs::field_width(k), u64::from(v[k]));
    }
    q
}

// The same for entries of one width, four by four.
fn put_run<'a>(v: &[u16], i: usize, end: usize, w: Writer<'a>) -> Writer<'a>
    requires { Due v.now i end w × Run i end }
    ensures { PutEntries v.now i end w.entry result }
{
    let width = runs::field_width(i);
    let mut q = w;
    for k in (i..end).step_by(4) {
        q = bit_writer::put_bits(q, 4 * width, four_entries::four_from(v, k, width));
    }
    q
}

/// The same for entries of any width, run by run.
pub fn put_fours<'a>(v: &[u16], i: usize, end: usize, w: Writer<'a>) -> Writer<'a>
    requires { Due v.now i end w × (i < end → Fours i end) }
    ensures { PutEntries v.now i end w.entry result }
{
    // No range: the next run starts where this one ends.
    let mut q = w;
    let mut k = i;
    while k < end {
        let e = runs::run_end(k, end);
        q = put_run(v, k, e, q);
        k = e;
    }
    q
}
