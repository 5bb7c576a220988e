// The record of a vector, with its n in front or without it.
#![tactic(auto)]

ghost use Rattle.std.specs.Prelude.{◌≡◌, ◌++◌, ◌≤◌, length, drop};
ghost use Rattle.rules.specs.Vector.{Vector};
ghost use Rattle.rules.specs.Record.{record_length, record_of};
ghost use Rattle.rules.specs.Archive.{bare_length, bare_record};
ghost use Rattle.entry_writer.specs.Entries.{PutEntries, Due};
ghost use Rattle.packing.specs.Behind.{bytes_behind, packed_behind, Fits};

use bit_writer::Writer;

// The bytes in which a record is built: those of the longest, and a word behind them.
const BUILT: usize = 1288;

// Appends the fields of the entries to the bits that are held. Room for a word behind them is wanted.
fn put_entries<'a>(v: &[u16], w: Writer<'a>) -> Writer<'a>
    requires { Due v.now 1 (length v.now) w }
    ensures { PutEntries v.now 1 (length v.now) w.entry result }
{
    let n = v.len();
    let first = runs::FIRST_FOUR.min(n);
    let last = runs::fours_end(first, 0, n);
    let fours = entry_writer::put_singles(v, 1, first, w);
    let rest = entry_writer::put_fours(v, first, last, fours);
    entry_writer::put_singles(v, last, n, rest)
}

// Writes so many bits of x, and behind them the fields of a valid vector, to the front of `out`. They are built in an array of their own,
// since a word is stored at a time.
fn pack_behind(v: &[u16], width: u32, x: u64, out: &mut [u8])
    requires { Fits width x v.now (length out.old) }
    ensures { out.new ≡ packed_behind width x v.now ++ drop (bytes_behind width (length v.now)) out.old }
{
    let mut built = [0u8; BUILT];
    let none = bit_writer::begin(&mut built);
    let front = bit_writer::put_field(none, width, x);
    let p = put_entries(v, front);
    let bytes = (p.bits + 7) / 8;
    // Read through the writer: once it is gone, a proof knows no more of the array than its length.
    let done = p.out;
    lists::copy(done, bytes, out);
}

/// Writes the record of a valid vector to the front of `out`.
pub fn pack_into(v: &[u16], out: &mut [u8])
    requires { Vector v.now × (record_length (length v.now) ≤ length out.old) }
    ensures { out.new ≡ record_of v.now ++ drop (record_length (length v.now)) out.old }
{
    pack_behind(v, lengths::COUNT_BITS, v.len() as u64, out);
}

/// The same without the n that a record begins with: a record of an archive.
pub fn pack_bare(v: &[u16], out: &mut [u8])
    requires { Vector v.now × (bare_length (length v.now) ≤ length out.old) }
    ensures { out.new ≡ bare_record v.now ++ drop (bare_length (length v.now)) out.old }
{
    pack_behind(v, 0, 0, out);
}
