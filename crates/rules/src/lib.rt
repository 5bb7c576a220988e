// What the public calls hand back, by value: the answer, of which specs/Answer.antt gives each case the paper's number and values, and the
// part of a lent list that is viewed. And the entries of the clade table, which go into a lent list.
#![tactic(auto)]

/// Why an input is refused: one case for each number of the refusal table, in its order.
#[derive(Clone, Copy)]
pub enum Kind {
    LeafCount,
    InputLength,
    Room,
    Entry,
    Parent,
    Child,
    NamedBefore,
    Grammar,
    StrayLabel,
    Padding,
    Permutation,
    TreeNumber,
    DoubleLabel,
    CladeLeaves,
    CladeRoom,
    TreeCount,
}

/// A refusal: its kind and its place.
#[derive(Clone, Copy)]
pub struct Refusal {
    pub kind: Kind,
    pub place: usize,
}

/// What every public call answers: the number of elements written, or the refusal.
#[derive(Clone, Copy)]
pub enum Answer {
    Done(usize),
    Refused(Refusal),
}

/// A part of a lent list: the number of its first element, and how many it has.
#[derive(Clone, Copy)]
pub struct Part {
    pub start: usize,
    pub length: usize,
}

/// An entry of the clade table: the leaf set of a clade, leaf x as bit x; how many leaves it has; in how many trees it occurs.
#[repr(C)]
#[derive(Clone, Copy)]
pub struct Clade {
    pub leaves: u64,
    pub size: u32,
    pub count: u32,
}
