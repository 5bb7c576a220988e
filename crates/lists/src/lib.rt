// Lent lists filled from their front: by the elements of another, by the leaves.
#![tactic(auto)]

ghost use Rattle.std.specs.Prelude.{◌≡◌, ◌++◌, ℕ, ◌<◌, ◌≤◌, length, take, drop, get_or};

/// The first n elements of src become those of out; the others stay. A count and no slices, so that one clause says what stands behind them.
pub fn copy<T: Copy>(src: &[T], n: usize, out: &mut [T])
    requires { (n ≤ length src.now) × (n ≤ length out.old) }
    ensures { out.new ≡ take n src.now ++ drop n out.old }
{
    out[..n].copy_from_slice(&src[..n]);
}

/// Each leaf is its own node, and its own name. A count and no slice, as above.
pub fn number_leaves(number: &mut [u16], n: usize)
    requires { (n ≤ length number.old) × (n ≤ 1024) }
    ensures { (c : ℕ) → c < n → get_or number.new c 0 ≡ c }
{
    for c in 0..n {
        number[c] = c as u16;
    }
}
