// Bytes as words, the first byte the most significant, and the low bits of a word.
#![tactic(auto)]

ghost use Rattle.std.specs.Prelude.{◌≡◌, ◌+◌, ◌%◌, ◌≤◌, ◌<◌, ◌^◌, length, get_or};
ghost use Rattle.record_laws.specs.Window.{word_at};

// The byte at q, or 0 past the end.
fn byte_at(s: &[u8], q: usize) -> u8
    ensures { result ≡ get_or s.now q 0 }
{
    if q < s.len() { s[q] } else { 0 }
}

/// Four bytes from q on as one number, 0 past the end.
#[tactic(auto, using(record_laws::proofs::Window::word_four))]
pub fn four_at(s: &[u8], q: usize) -> u64
    requires { q < 2 ^ 61 }
    ensures { result ≡ word_at 4 s.now q }
{
    // The bytes are joined in 64 bits: where they were joined in 32, each field read took an instruction more.
    if q + 4 <= s.len() {
        return u64::from_be_bytes([0, 0, 0, 0, s[q], s[q + 1], s[q + 2], s[q + 3]]);
    }
    u64::from_be_bytes([
        0,
        0,
        0,
        0,
        byte_at(s, q),
        byte_at(s, q + 1),
        byte_at(s, q + 2),
        byte_at(s, q + 3),
    ])
}

/// Eight bytes from q on as one number.
#[tactic(auto, unfolding(record_laws::specs::Window::word_at))]
pub fn eight_inside(s: &[u8], q: usize) -> u64
    requires { q + 8 ≤ length s.now }
    ensures { result ≡ word_at 8 s.now q }
{
    u64::from_be_bytes([
        s[q],
        s[q + 1],
        s[q + 2],
        s[q + 3],
        s[q + 4],
        s[q + 5],
        s[q + 6],
        s[q + 7],
    ])
}

/// The low `width` bits of a word.
pub fn low_bits(word: u64, width: u32) -> u16
    requires { width ≤ 16 }
    ensures { result ≡ word % 2 ^ width }
{
    (word & ((1u64 << width) - 1)) as u16
}
