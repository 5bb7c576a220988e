// A set of names below 1,024 that answers how many members are below a name by two loads and a sum.
//
// The names stand in sixteen blocks of 64. blocks[w] is how many members are below block w, names[x] how many of x's block are below x.
// A new member i adds 1 to each later block and to each later name of its block.
#![tactic(auto)]

ghost use Rattle.std.specs.Prelude.{◌≡◌, Bool, false, ℕ, ◌+◌, ◌<◌};
ghost use Rattle.read_tables.specs.Count.{count};
ghost use Rattle.steps.specs.Steps.{Steps};
ghost use Rattle.ranks.specs.Ranks.{Ranks, also};

#[derive(Drop)]
pub struct NameSet {
    pub blocks: [u16; 16],
    pub names: [u8; 1024],
}

/// What a new member adds to the counts of blocks and to those of names. It is no part of the set: the loops that add it would look each
/// time whether both overlap, at 5 instructions more for each of a tree's leaves.
#[derive(Drop)]
pub struct MemberSteps {
    pub blocks: [u16; 32],
    pub names: [u8; 128],
    ghost of_blocks: { Steps 16 blocks },
    ghost of_names: { Steps 64 names },
}

impl MemberSteps {
    /// The steps of any member, which are always the same.
    pub fn filled() -> MemberSteps {
        let mut blocks = [0u16; 32];
        let mut names = [0u8; 128];
        blocks[16..].fill(1);
        names[64..].fill(1);
        MemberSteps { blocks, names }
    }
}

impl NameSet {
    /// The set without members.
    pub fn empty() -> NameSet
        ensures { Ranks (λ y. false) result.blocks result.names }
    {
        NameSet {
            blocks: [0; 16],
            names: [0; 1024],
        }
    }

    /// How many members are below x.
    pub fn rank(&self, x: usize) -> usize
        requires by_index { (f : ℕ → Bool) × Ranks f self.now.blocks self.now.names }
        requires x_bound { x < 1024 }
        ensures { (f : ℕ → Bool) → Ranks f self.now.blocks self.now.names → result ≡ count f x }
    {
        usize::from(self.blocks[x / 64]) + usize::from(self.names[x])
    }

    /// Takes i into the set.
    pub fn insert(&mut self, steps: &MemberSteps, i: usize)
        requires by_index { (f : ℕ → Bool) × Ranks f self.old.blocks self.old.names × (f i ≡ false) }
        requires i_bound { i < 1024 }
        ensures { (f : ℕ → Bool) → Ranks f self.old.blocks self.old.names → f i ≡ false → Ranks (also f i) self.new.blocks self.new.names }
    {
        steps::add_to_blocks(&mut self.blocks, &steps.blocks, i / 64);
        steps::add_to_names(&mut self.names, &steps.names, i);
    }
}
