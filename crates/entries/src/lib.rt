// The entries of a vector from the chains of its tree, which are walked by falling key.
#![tactic(auto)]

ghost use Rattle.std.specs.Prelude.{◌+◌};
ghost use Rattle.read_tables.specs.Chains.{falling};
ghost use Rattle.chains.specs.Walk.{cell};
ghost use Rattle.entries.specs.Entered.{MadeFrom, Headed, Entered};
ghost use Rattle.entries.specs.Keyed.{Keyed};

use chains::Chains;
use ranks::{MemberSteps, NameSet};

// The entries of the names behind the key k in its chain. keys counts the keys from k on; out[j] has how many of them are above j.
// The merges before j of names below it are those of the keys between k and j, and those of the set, which are no keys. The loop goes from
// name to name until there is none, and counts nothing.
fn follow(
    next: &[u16],
    set: &mut NameSet,
    steps: &MemberSteps,
    out: &mut [u16],
    k: usize,
    keys: usize,
)
    requires { (g : MadeFrom) × Headed g k keys next.now set.old.blocks set.old.names out.old (cell next.now k) }
    ensures { (g : MadeFrom) → Headed g k keys next.now set.old.blocks set.old.names out.old (cell next.now k)
        → Entered g k keys (falling g.chains k) set.new.blocks set.new.names out.new }
{
    let mut j = usize::from(next[k]);
    while j != 0 {
        let s = keys + set.rank(j) - usize::from(out[j]);
        out[j] = (j - 1 + s) as u16;
        set.insert(steps, j);
        j = usize::from(next[j]);
    }
}

/// The entries of the chain of key k, where there is one: no merge before that of the key is of names below it. How many keys there are now.
pub fn enter_key(
    chains: &Chains,
    set: &mut NameSet,
    steps: &MemberSteps,
    out: &mut [u16],
    k: usize,
    keys: usize,
) -> usize
    requires { (g : MadeFrom) × Keyed g chains.now.small chains.now.next chains.now.last (k + 1) keys set.old.blocks set.old.names out.old }
    ensures { (g : MadeFrom) → Keyed g chains.now.small chains.now.next chains.now.last (k + 1) keys set.old.blocks set.old.names out.old
        → Keyed g chains.now.small chains.now.next chains.now.last k result set.new.blocks set.new.names out.new }
{
    if chains.last[k] == 0 {
        out[k] = keys as u16;
        return keys;
    }
    out[k] = chains.small[k];
    follow(&chains.next, set, steps, out, k, keys + 1);
    keys + 1
}
