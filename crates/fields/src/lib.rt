// The fields of entries and the padding behind them, read by one reading position from the first bit to the last.
#![tactic(auto)]

ghost use Rattle.std.specs.Prelude.{◌≡◌, ◌+◌, length, take, get_or};
ghost use Rattle.rules.specs.Archive.{field_bits};
ghost use Rattle.record_laws.specs.Window.{value_at};
ghost use Rattle.record_laws.specs.Fields.{entries_from};
ghost use Rattle.bits.specs.Fields.{FieldInside};
ghost use Rattle.entry_reader.specs.Reading.{Left, Read, Reading};
ghost use Rattle.fields.specs.Parts.{Parts};

use bit_reader::Reader;

// Reads the entries from 1 to n: one by one to `first`, by fours to `last`, and one by one again.
fn read_entries<'a>(
    r: Reader<'a>,
    first: usize,
    last: usize,
    n: usize,
    out: &mut [u16],
) -> Reader<'a>
    requires { Left r.bytes.now r.at 1 n 0 (length out.old) × Parts first last n }
    ensures { Read r.entry 1 n out.old result out.new }
{
    let fours = entry_reader::read_singles(r, 1, first, out);
    let rest = entry_reader::read_fours(fours, first, last, out);
    entry_reader::read_singles(rest, last, n, out)
}

/// Reads the fields that start at a bit by one reading position, and the padding behind them into place 0 of `other`. The contract says
/// nothing of the position, so who calls it needs no walk by hand.
pub fn read_fields(
    s: &[u8],
    start: usize,
    first: usize,
    last: usize,
    n: usize,
    padding: u32,
    out: &mut [u16],
    other: &mut [u16],
)
    requires { (Left s.now start 1 n 0 (length out.old) × Parts first last n × Reading s.now start start 1 out.old) × FieldInside s.now (start + field_bits n) padding (length other.old) 0 }
    ensures { (take n out.new ≡ entries_from start n s.now) × (get_or other.new 0 0 ≡ value_at s.now (start + field_bits n) padding) }
{
    let rest = read_entries(bit_reader::reading(s, start), first, last, n, out);
    bit_reader::next_field(rest, padding, other, 0);
}
