// The merges of a vector: their larger names in a list that grows at both ends, their smaller names by larger name.
#![tactic(auto)]

ghost use Rattle.std.specs.Prelude.{◌≡◌, ◌+◌, ◌<◌, ◌^◌, length, get_or};
ghost use Rattle.rules.specs.Vector.{Vector};
ghost use Rattle.merges.specs.Built.{NextLeaf, Put, MergesOf};

/// The length of the list of larger names.
pub const ROOM: usize = 2080;

// Where the list starts before the first merge.
const MIDDLE: usize = 1040;

/// The merges of a vector: their larger names in a list that grows at both ends and begins at `start`, and for each of them the smaller
/// name.
#[derive(Drop)]
pub struct Merges {
    pub list: [u16; ROOM],
    pub small: [u16; 1024],
    pub start: usize,
}

// Puts leaf i's merge, where its entry is x, among the i-1 merges before: its smaller name into small, its larger name into the
// list that starts at lo. The result is where the list starts then. An entry that names a leaf moves nothing, and so do half of
// all entries of a random tree: that case comes first. The difference is taken in 16 bits, so that the compiler does not carry
// four sums of it from leaf to leaf. Both cases store the smaller name last, which becomes one store for both.
// It takes two arrays and not Merges: as a method it was tried, and the proof of fill lost their lengths.
fn put(list: &mut [u16], small: &mut [u16], lo: usize, i: usize, x: u16) -> usize
    requires { NextLeaf list.old small.old lo i x }
    ensures { Put list.old small.old lo i x list.new small.new result }
{
    if usize::from(x) < i {
        let front = lo - 1;
        list[front] = i as u16;
        small[i] = x;
        return front;
    }
    let d = usize::from(x - i as u16);
    let start = insertion::insert(list, lo, i - 1, d + 1, i as u16);
    small[i] = small[usize::from(list[start + d])];
    start
}

impl Merges {
    /// Makes the merges of v, in the place of those that were there.
    pub fn fill(&mut self, v: &[u16])
        requires { Vector v.now }
        ensures { MergesOf v.now self.new.list self.new.small self.new.start }
    {
        let mut lo = MIDDLE;
        for i in 1..v.len() {
            lo = put(&mut self.list, &mut self.small, lo, i, v[i]);
        }
        self.start = lo;
    }

    /// The smaller and the larger name of merge t.
    pub fn pair(&self, t: usize) -> (usize, usize)
        requires in_list { self.now.start + t < length self.now.list }
        requires in_small { get_or self.now.list (self.now.start + t) 0 < length self.now.small }
        ensures smaller { result.0 ≡ get_or self.now.small result.1 0 }
        ensures larger { result.1 ≡ get_or self.now.list (self.now.start + t) 0 }
        ensures in_16_bits { (result.0 < 2 ^ 16) × (result.1 < 2 ^ 16) }
    {
        let larger = usize::from(self.list[self.start + t]);
        (usize::from(self.small[larger]), larger)
    }
}
