// The children of the rows of merges, which are numbered in their order.
#![tactic(auto)]

ghost use Rattle.std.specs.Prelude.{◌≡◌, ◌++◌, map, ◌-◌, ◌≤◌, length, drop};
ghost use Rattle.written_tables.specs.Rows.{first, second};
ghost use Rattle.numbering.specs.Numbered.{held_rows, BeforeRows};

use merges::Merges;

/// The children of the rows of n-1 merges; number has the node of each name.
pub fn children(merges: &Merges, n: usize, number: &mut [u16], left: &mut [u16], right: &mut [u16])
    requires { BeforeRows merges.now.list merges.now.small merges.now.start n number.old × (n - 1 ≤ length left.old) × (n - 1 ≤ length right.old) }
    ensures left_after { left.new ≡ map first (held_rows merges.now.list merges.now.small merges.now.start n) ++ drop (n - 1) left.old }
    ensures right_after { right.new ≡ map second (held_rows merges.now.list merges.now.small merges.now.start n) ++ drop (n - 1) right.old }
{
    for t in 0..n - 1 {
        let (a, b) = merges.pair(t);
        left[t] = number[a];
        right[t] = number[b];
        number[a] = (n + t) as u16;
    }
}
