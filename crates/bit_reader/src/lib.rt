// A reading position over bytes that it was lent. Each read takes the position, and gives it back moved on.
#![tactic(auto)]

ghost use Rattle.std.specs.Prelude.{◌≡◌, ◌*◌, length};
ghost use Rattle.bits.specs.Fields.{field_read, four_read, FieldInside, FourInside};
ghost use Rattle.bit_reader.specs.Moving.{at_bit, moved_on};

/// A reading position over the bytes that it was lent: the next bit is bit `at`.
#[derive(Drop)]
pub struct Reader<'a> {
    pub bytes: &'a [u8],
    pub at: usize,
}

/// A reading position at bit `at`.
pub fn reading<'a>(bytes: &'a [u8], at: usize) -> Reader<'a>
    ensures { result ≡ at_bit at bytes.entry }
{
    Reader { bytes, at }
}

/// Reads a field into place i, and gives the position moved on behind it.
pub fn next_field<'a>(r: Reader<'a>, width: u32, out: &mut [u16], i: usize) -> Reader<'a>
    requires { FieldInside r.bytes.now r.at width (length out.old) i }
    ensures { (result ≡ moved_on width r.entry) × (out.new ≡ field_read r.entry.bytes.now r.entry.at width out.old i) }
{
    let at = bits::read_field(r.bytes, r.at, width, out, i);
    Reader { bytes: r.bytes, at }
}

/// The same for four fields of one width, into four places from i on.
pub fn next_four<'a>(r: Reader<'a>, width: u32, out: &mut [u16], i: usize) -> Reader<'a>
    requires { FourInside r.bytes.now r.at width (length out.old) i }
    ensures { (result ≡ moved_on (4 * width) r.entry) × (out.new ≡ four_read r.entry.bytes.now r.entry.at width out.old i) }
{
    let at = bits::read_four(r.bytes, r.at, width, out, i);
    Reader { bytes: r.bytes, at }
}

/// Reads the first field into place 0. Its contract says nothing of a reading position, so who calls it needs no walk by hand.
pub fn first_field(s: &[u8], width: u32, out: &mut [u16])
    requires { FieldInside s.now 0 width (length out.old) 0 }
    ensures { out.new ≡ field_read s.now 0 width out.old 0 }
{
    next_field(reading(s, 0), width, out, 0);
}
