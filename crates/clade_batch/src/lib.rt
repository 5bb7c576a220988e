// A batch of clades in an array of words: leaf set and count in turn, in rising order of the leaf sets, and in the last word how many.
#![tactic(auto)]

ghost use Rattle.std.specs.Prelude.{◌≡◌, [], ◌∷◌, ◌<◌, ◌≤◌, cond, ltb, length, take, get_or};
ghost use Rattle.clade_passes.specs.Collected.{new_entry, add_entry, collected};
ghost use Rattle.clade_batch.specs.Held.{most, held_one, held_in, IsBatch};
ghost use Rattle.clade_batch.specs.Place.{Rises, Place, stands_at};
ghost use Rattle.clade_batch.specs.Moved.{Moved};
ghost use Rattle.clade_batch.specs.Added.{inserted, counted};
ghost use Rattle.clade_batch.specs.AddAll.{Roomy};

/// As many clades as a batch has.
pub const MOST: usize = 4096;

/// The words of a batch.
pub const WORDS: usize = 8193;

/// As many places as are guessed.
pub const GUESSES: usize = 8192;

// Which word has the number of clades.
const NUMBER: usize = 8192;

/// A batch, and the places at which its leaf sets are looked for first. A guess may be wrong, and may be left from another batch.
#[derive(Drop)]
pub struct Batch {
    pub words: [u64; WORDS],
    pub guesses: [u16; GUESSES],
}

// Which guess is that of a leaf set: what is left by a prime, so that sets of the same leaves further up have others.
fn guess_of(leaves: u64) -> usize
    ensures { result < 8192 }
{
    (leaves % 8179) as usize
}

impl Batch {
    /// A batch without clades.
    pub fn clear(&mut self)
        ensures { held_in self.new.words ≡ [] }
    {
        self.words[NUMBER] = 0;
    }

    /// A batch of one clade, with its leaf set and its count.
    pub fn hold_one(&mut self, leaves: u64, count: u64)
        ensures { held_in self.new.words ≡ held_one leaves count ∷ [] }
    {
        self.words[0] = leaves;
        self.words[1] = count;
        self.words[NUMBER] = 1;
    }

    /// How many clades it has.
    pub fn number_held(&self) -> usize
        ensures { result ≡ get_or self.now.words 8192 0 }
    {
        self.words[NUMBER] as usize
    }

    // The place of a leaf set among the first k, by halves. Leaf sets are every second word, so no part of the array is a sorted slice.
    fn search(&self, k: usize, leaves: u64) -> usize
        requires { Rises self.now.words k × (k ≤ most) }
        ensures { Place self.now.words k leaves result }
    {
        let mut lo: usize = 0;
        let mut hi: usize = k;
        while lo < hi {
            let mid = lo + (hi - lo) / 2;
            if self.words[2 * mid] < leaves {
                lo = mid + 1;
            } else {
                hi = mid;
            }
        }
        lo
    }

    // Whether a leaf set stands at a place of the first k.
    fn stands_at(&self, k: usize, place: usize, leaves: u64) -> bool
        requires { k ≤ most }
        ensures { result ≡ stands_at self.now.words k place leaves }
    {
        place < k && self.words[2 * place] == leaves
    }

    // Moves the clades from a place on, of the first n, up by one. The library's copy_within moves word by word: a seventh more instructions
    // for a table of random trees.
    fn make_room(&mut self, n: usize, place: usize)
        requires { (place ≤ n) × (n < most) }
        ensures { Moved self.old.words n place self.new.words }
    {
        for j in (place..n).rev() {
            self.words[2 * j + 2] = self.words[2 * j];
            self.words[2 * j + 3] = self.words[2 * j + 1];
        }
    }

    // A new clade at its place among the first k; where the batch is full the last one falls out.
    fn put(&mut self, k: usize, place: usize, leaves: u64)
        requires { (place ≤ k) × (k ≤ most) × (k ≡ get_or self.old.words 8192 0) }
        ensures { held_in self.new.words ≡ take most (inserted (held_in self.old.words) place (new_entry leaves)) }
    {
        if MOST <= place {
            return;
        }
        let n = k.min(MOST - 1);
        self.make_room(n, place);
        self.words[2 * place] = leaves;
        self.words[2 * place + 1] = 1;
        self.words[NUMBER] = (n + 1) as u64;
    }

    // One tree more that has the clade at a place.
    fn count_one(&mut self, place: usize)
        requires { IsBatch self.old.words × (place < get_or self.old.words 8192 0) }
        ensures { self.new.words ≡ counted self.old.words place }
    {
        self.words[2 * place + 1] += 1;
    }

    // The same of a clade by its place, which is guessed the next time; a new one is put in with the count 1.
    fn add_by_search(&mut self, at: usize, leaves: u64)
        requires { IsBatch self.old.words × (at < 8192) }
        ensures { held_in self.new.words ≡ take most (add_entry leaves (held_in self.old.words)) }
    {
        let k = self.words[NUMBER] as usize;
        let place = self.search(k, leaves);
        self.guesses[at] = place as u16;
        if self.stands_at(k, place, leaves) {
            self.count_one(place);
            return;
        }
        self.put(k, place, leaves)
    }

    // One tree more that has a clade. A guess is believed only where the leaf set stands there.
    fn add(&mut self, leaves: u64)
        requires { IsBatch self.old.words }
        ensures { held_in self.new.words ≡ take most (add_entry leaves (held_in self.old.words)) }
    {
        let at = guess_of(leaves);
        let guess = usize::from(self.guesses[at]);
        let k = self.words[NUMBER] as usize;
        if self.stands_at(k, guess, leaves) {
            self.count_one(guess);
            return;
        }
        self.add_by_search(at, leaves)
    }

    // The same of a clade whose leaf set is above a bound; others are passed over.
    fn add_above(&mut self, bound: u64, leaves: u64)
        requires { IsBatch self.old.words }
        ensures { held_in self.new.words ≡ cond (ltb bound leaves) (take most (add_entry leaves (held_in self.old.words))) (held_in self.old.words) }
    {
        if bound < leaves {
            self.add(leaves);
        }
    }

    /// Some leaf sets, those that are above a bound, one after another.
    pub fn add_all(&mut self, sets: &[u64], bound: u64)
        requires { Roomy self.old.words × (length sets.now ≤ 1024) }
        ensures { held_in self.new.words ≡ collected most bound (held_in self.old.words) sets.now }
    {
        for set in sets {
            self.add_above(bound, *set);
        }
    }
}
