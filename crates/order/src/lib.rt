// The vector of a tree from its chains: the entries by falling key.
#![tactic(auto)]

ghost use Rattle.std.specs.Prelude.{◌≡◌, ◌++◌, ◌≤◌, length, drop};
ghost use Rattle.rules.specs.Order.{vector_of};
ghost use Rattle.rules.specs.Tree.{Tree};
ghost use Rattle.chains.specs.Drawn.{Drawn};

use chains::Chains;
use ranks::{MemberSteps, NameSet};

/// The vector of a tree from its chains: the first n elements of out; the rest stays.
pub fn vector_of(n: usize, chains: &Chains, out: &mut [u16])
    requires drawn { (t : Tree) × Drawn n t chains.now.small chains.now.next chains.now.last }
    requires n_in_bounds { n ≤ length out.old }
    ensures { (t : Tree) → Drawn n t chains.now.small chains.now.next chains.now.last → out.new ≡ vector_of t ++ drop n out.old }
{
    let steps = MemberSteps::filled();
    let mut set = NameSet::empty();
    let mut keys: usize = 0;
    for k in (1..n).rev() {
        keys = entries::enter_key(chains, &mut set, &steps, out, k, keys);
    }
    out[0] = 0;
}
