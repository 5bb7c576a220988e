// Fields of any width, most significant bit first, read from bytes by a word of four or eight bytes.
#![tactic(auto)]

ghost use Rattle.std.specs.Prelude.{◌≡◌, ◌+◌, ◌*◌, ◌≤◌, length};
ghost use Rattle.record_laws.specs.Window.{value_at};
ghost use Rattle.bits.specs.Fields.{field_read, four_read, FieldInside, FourInside};

// The number of `width` bits from bit `at` on.
fn field_at(s: &[u8], at: usize, width: u32) -> u16
    requires { (width ≤ 16) × (at + width ≤ 8 * length s.now) }
    ensures { result ≡ value_at s.now at width }
{
    let o = (at % 8) as u32;
    words::low_bits(words::four_at(s, at / 8) >> (32 - o - width), width)
}

/// Reads a field from bit `at` on into place i, and returns the bit behind it.
pub fn read_field(s: &[u8], at: usize, width: u32, out: &mut [u16], i: usize) -> usize
    requires { FieldInside s.now at width (length out.old) i }
    ensures { (result ≡ at + width) × (out.new ≡ field_read s.now at width out.old i) }
{
    out[i] = field_at(s, at, width);
    at + width as usize
}

/// Reads four fields of one width into four places from i on, by one word, the last field first, and returns the bit behind them.
pub fn read_four(s: &[u8], at: usize, width: u32, out: &mut [u16], i: usize) -> usize
    requires { FourInside s.now at width (length out.old) i }
    ensures { (result ≡ at + 4 * width) × (out.new ≡ four_read s.now at width out.old i) }
{
    let o = (at % 8) as u32;
    let d = words::eight_inside(s, at / 8) >> (64 - o - 4 * width);
    let c = d >> width;
    let b = c >> width;
    let a = b >> width;
    out[i] = words::low_bits(a, width);
    out[i + 1] = words::low_bits(b, width);
    out[i + 2] = words::low_bits(c, width);
    out[i + 3] = words::low_bits(d, width);
    at + 4 * (width as usize)
}
