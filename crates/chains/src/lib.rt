// The pairs of a tree by their chains.
//
// A pair is named by its larger name, and its key is the least larger name of the pairs in its subtree. Pairs merge by falling key, and
// those of one key from the bottom up: they are a chain, whose first name is the key. Arrays by larger name: small[i] is the smaller name
// of the pair, next[i] the next pair of its chain (0 at the end), last[k] the last pair of the chain of key k (0 where there is none). There is
// no heap, so a chain goes on by its place.
#![tactic(auto)]

ghost use Rattle.std.specs.Prelude.{◌≡◌, List, [], ◌∷◌, ◌++◌, ℕ, ◌≤◌, set};
ghost use Rattle.rules.specs.Table.{Row};
ghost use Rattle.chains.specs.Built.{Built, Adds};
ghost use Rattle.chains.specs.Leaves.{Keyless};

/// The key of a node without a pair: above every name.
pub const NO_KEY: u16 = 1024;

/// The chains of the pairs that were added so far. names and lows have the name and the key of each node; a leaf has no pair, and its key
/// is NO_KEY.
#[derive(Drop)]
pub struct Chains {
    pub names: [u16; 2048],
    pub lows: [u16; 2048],
    pub small: [u16; 1024],
    pub next: [u16; 1024],
    pub last: [u16; 1024],
}

impl Chains {
    /// No node and no pair. All are 0s, which are stored in place: what is stored later in a value that a function hands out is copied with it,
    /// at some thousand instructions. So the leaves are added apart.
    pub fn empty() -> Chains
        ensures { Keyless 0 result.lows result.small result.next result.last }
    {
        Chains {
            names: [0; 2048],
            lows: [0; 2048],
            small: [0; 1024],
            next: [0; 1024],
            last: [0; 1024],
        }
    }

    /// Adds n leaves to no node: each is a node of its own, and has no key. What fill stores in a part of a field is not known to the proof, so a
    /// loop stores the keys.
    pub fn add_leaves(&mut self, n: usize)
        requires few { n ≤ 1024 }
        requires fresh { Keyless 0 self.old.lows self.old.small self.old.next self.old.last }
        ensures { Built n [] self.new.names self.new.lows self.new.small self.new.next self.new.last }
    {
        for k in 0..n {
            self.lows[k] = NO_KEY;
        }
        lists::number_leaves(&mut self.names, n);
    }

    /// Adds the row of node p with the children l and r. a and i are the smaller and the larger of the children's names. The pair goes to the
    /// end of its key's chain, and next[i] is 0 from the start; next[0] belongs to no pair.
    pub fn add_pair(&mut self, p: usize, l: usize, r: usize, a: usize, i: usize)
        requires { (n : ℕ) × (rs : List Row) × Adds n rs p l r a i self.old.names self.old.lows self.old.small self.old.next self.old.last }
        ensures by_index { (n : ℕ) (rs : List Row) → Adds n rs p l r a i self.old.names self.old.lows self.old.small self.old.next self.old.last
            → Built n (rs ++ ((l, r, p) ∷ [])) self.new.names self.new.lows self.new.small self.new.next self.new.last }
        ensures names_after { self.new.names ≡ set self.old.names p a }
    {
        let k = i
            .min(usize::from(self.lows[l]))
            .min(usize::from(self.lows[r]));
        let j = usize::from(self.last[k]);
        self.small[i] = a as u16;
        self.next[j] = i as u16;
        self.last[k] = i as u16;
        self.names[p] = a as u16;
        self.lows[p] = k as u16;
    }
}
