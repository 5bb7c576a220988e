// The words of the leaves: for each label its signs in one number, so that the writer of a text stores a label at once.
//
// The word of a leaf is the signs of its label, the first one lowest; where there are fewer than four, the highest byte says how many.
// Most words are made from others: a label that continues another by one digit has its signs and one more.
#![tactic(auto)]

ghost use Rattle.std.specs.Prelude.{◌+◌, ◌≤◌, ◌≡◌, max};
ghost use Rattle.label_words.specs.Longer.{Longer};
ghost use Rattle.label_words.specs.Leaves.{word_places, LeafWords, Tens, TenMore};

// How many words there are: one for each node, of which there are at most 2,047, and behind them, at LEAVES, the number of leaves.
pub const WORDS: usize = 2048;

pub const LEAVES: usize = 2047;

// The second, third and fourth sign of a word stand at these values of its bytes; a count of signs stands where the fourth sign does.
pub const SECOND: u32 = 256;

pub const THIRD: u32 = 65536;

pub const FOURTH: u32 = 16777216;

// The words of ten labels that differ in their last digit, from the first of them.
fn ten_words(words: &mut [u32; WORDS], at: usize, first: u32, step: u32)
    requires room { at + 10 ≤ word_places }
    requires low { first ≤ 1000000000 }
    requires short { step ≤ 16777216 }
    ensures { TenMore words.old at first step words.new }
{
    for d in 0..10 {
        words[at + d] = first + d as u32 * step;
    }
}

// The words of the labels that continue those of from .. to by one digit: the first of ten has so much more, and each other a step more than
// the one before it. The result is the label that would be continued next.
#[tactic(auto, using(crate::proofs::Tens::small_word))]
fn longer_labels(words: &mut [u32; WORDS], from: usize, to: usize, more: u32, step: u32) -> usize
    requires some { 1 ≤ from }
    requires few { to ≤ 103 }
    requires low { more ≤ 900000000 }
    requires short { step ≤ 16777216 }
    requires stand { Tens from words.old }
    requires longer { Longer from to more step }
    ensures stand { Tens result words.new }
    ensures next { result ≡ max from to }
{
    for y in from..to {
        let first = words[y] + more;
        ten_words(words, 10 * y, first, step);
    }
    from.max(to)
}

// The words of n leaves: first the labels of one digit, then those of two, three and four, whose count makes room for a sign.
#[tactic(auto, using(crate::proofs::Tens::first_ten, crate::specs::Longer::word_two, crate::specs::Longer::word_three, crate::specs::Longer::word_four))]
pub fn leaf_words(words: &mut [u32; WORDS], n: usize)
    requires { n ≤ 1024 }
    ensures { LeafWords n words.new }
{
    ten_words(words, 0, FOURTH + 48, 1);
    let tens = (n + 9) / 10;
    let a = longer_labels(words, 1, tens.min(10), FOURTH + 48 * SECOND, SECOND);
    let b = longer_labels(words, a, tens.min(100), FOURTH + 48 * THIRD, THIRD);
    longer_labels(words, b, tens, 48 * FOURTH - 3 * FOURTH, FOURTH);
    words[LEAVES] = n as u32;
}
