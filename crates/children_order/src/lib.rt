// The vector of a tree whose rows are known, by their children.
#![tactic(auto)]

ghost use Rattle.std.specs.Prelude.{◌≡◌, List, ◌++◌, ◌-◌, ◌≤◌, length, drop};
ghost use Rattle.rules.specs.Order.{vector_of};
ghost use Rattle.rules.specs.Table.{Row, table_tree};
ghost use Rattle.children_order.specs.Children.{Children, Added};

use chains::Chains;

// Adds the rows of n leaves with these children, which are known to be accepted.
fn add_children(n: usize, left: &[u16], right: &[u16], chains: &mut Chains)
    requires le_n { 1 ≤ n }
    requires added { Added n left.now right.now 0 chains.old.names chains.old.lows chains.old.small chains.old.next chains.old.last }
    ensures { Added n left.now right.now (n - 1) chains.new.names chains.new.lows chains.new.small chains.new.next chains.new.last }
{
    for t in 0..n - 1 {
        let l = usize::from(left[t]);
        let r = usize::from(right[t]);
        let x = usize::from(chains.names[l]);
        let y = usize::from(chains.names[r]);
        chains.add_pair(n + t, l, r, x.min(y), x.max(y));
    }
}

/// The vector of the tree whose rows have these children, at the front of vector.
pub fn children_vector(n: usize, left: &[u16], right: &[u16], vector: &mut [u16])
    requires le_n { (1 ≤ n) × (n ≤ 1024) × (n - 1 ≤ length left.now) × (n - 1 ≤ length right.now) × (n ≤ length vector.old) }
    requires children { (rs : List Row) × Children n left.now right.now rs }
    ensures { (rs : List Row) → Children n left.now right.now rs → vector.new ≡ vector_of (table_tree n rs) ++ drop n vector.old }
{
    let mut chains = Chains::empty();
    chains.add_leaves(n);
    add_children(n, left, right, &mut chains);
    order::vector_of(n, &chains, vector);
}
