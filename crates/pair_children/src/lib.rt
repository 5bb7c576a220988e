// The children of the pairs that a text's readers recorded, by their numbers: a leaf as it stands, a pair behind the leaves.
#![tactic(auto)]

ghost use Rattle.std.specs.Prelude.{◌≡◌, ◌-◌, ◌≤◌, ◌<◌, ◌++◌, map, length, take, drop};
ghost use Rattle.grammar.specs.Closed.{child_number};
ghost use Rattle.text_laws.specs.Numbered.{first_number, second_number};

use text_cells::{CELLS, CHILD, PAIR, PAIRS};

// The number of a recorded child among n leaves: a leaf as it stands, a pair behind the leaves.
fn child_number(c: u32, n: usize) -> u16
    requires { (c < 65536) × (n ≤ 1024) }
    ensures { result ≡ child_number n c }
{
    if c < PAIR {
        return c as u16;
    }
    (n as u32 + (c - PAIR)) as u16
}

// The children of n-1 recorded pairs by their numbers.
fn numbered_children(pairs: &[u32], n: usize, left: &mut [u16], right: &mut [u16])
    requires { (n ≤ 1024) × (n - 1 ≤ length pairs.now) × (n - 1 ≤ length left.old) × (n - 1 ≤ length right.old) }
    ensures left_after { left.new ≡ map (first_number n) (take (n - 1) pairs.now) ++ drop (n - 1) left.old }
    ensures right_after { right.new ≡ map (second_number n) (take (n - 1) pairs.now) ++ drop (n - 1) right.old }
{
    for k in 0..n.saturating_sub(1) {
        let p = pairs[k];
        left[k] = child_number(p / CHILD, n);
        right[k] = child_number(p % CHILD, n);
    }
}

// The children of the n-1 pairs that a text's readers recorded, by their numbers.
pub fn children(m: &[u32; CELLS], n: usize, left: &mut [u16], right: &mut [u16])
    requires { (n ≤ 1024) × (n - 1 ≤ length left.old) × (n - 1 ≤ length right.old) }
    ensures left_after { left.new ≡ map (first_number n) (take (n - 1) (drop 1040 m.now)) ++ drop (n - 1) left.old }
    ensures right_after { right.new ≡ map (second_number n) (take (n - 1) (drop 1040 m.now)) ++ drop (n - 1) right.old }
{
    numbered_children(&m[PAIRS..], n, left, right);
}
