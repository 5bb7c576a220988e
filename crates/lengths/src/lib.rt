// What a record says of itself before its entries are read: its leaf count, and from that its length, in bits before padding and in bytes.
#![tactic(auto)]

ghost use Rattle.std.specs.Prelude.{◌≡◌, ◌≤◌, length};
ghost use Rattle.rules.specs.Record.{total, record_length, leaf_count};
ghost use Rattle.rules.specs.Archive.{field_bits};

pub mod totals;

/// The bits of the leaf count, with which a record begins.
pub const COUNT_BITS: u32 = 11;

/// L(n).
pub fn bits_before(n: usize) -> usize
    requires { (1 ≤ n) × (n ≤ 1024) }
    ensures { result ≡ total n }
{
    usize::from(totals::TOTALS[n - 1])
}

/// The bits of the fields of n entries: L(n) without those of the leaf count.
pub fn field_bits(n: usize) -> usize
    requires { (1 ≤ n) × (n ≤ 1024) }
    ensures { result ≡ field_bits n }
{
    bits_before(n) - COUNT_BITS as usize
}

/// The bytes of a record of n leaves.
pub fn record_length(n: usize) -> usize
    requires { (1 ≤ n) × (n ≤ 1024) }
    ensures { result ≡ record_length n }
{
    (bits_before(n) + 7) / 8
}

/// The leaf count that a record begins with.
pub fn leaf_count(s: &[u8]) -> usize
    requires { 2 ≤ length s.now }
    ensures { result ≡ leaf_count s.now }
{
    let mut count = [0u16; 1];
    bit_reader::first_field(s, COUNT_BITS, &mut count);
    usize::from(count[0])
}
