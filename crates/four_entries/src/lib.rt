// Four entries of one width as one number.
#![tactic(auto)]

ghost use Rattle.std.specs.Prelude.{◌≡◌, ℕ, ◌+◌, ◌*◌, ◌≤◌, ◌<◌, ◌^◌, length, get_or};
ghost use Rattle.four_entries.specs.Four.{four_of};

// The bits of a, and then the `width` bits of b.
fn followed(a: u64, width: u32, b: u64) -> u64
    requires { (width ≤ 16) × (a < 2 ^ 48) × (b < 2 ^ width) }
    ensures { result ≡ a * 2 ^ width + b }
{
    (a << width) | b
}

/// Four numbers of `width` bits from place i on, as one.
pub fn four_from(v: &[u16], i: usize, width: u32) -> u64
    requires { (width ≤ 14) × (i + 4 ≤ length v.now) × ((j : ℕ) → i ≤ j → j < i + 4 → get_or v.now j 0 < 2 ^ width) }
    ensures { (result ≡ four_of v.now i width) × (result < 2 ^ (4 * width)) }
{
    let b = followed(u64::from(v[i]), width, u64::from(v[i + 1]));
    let c = followed(b, width, u64::from(v[i + 2]));
    followed(c, width, u64::from(v[i + 3]))
}
