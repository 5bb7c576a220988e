// The words of the nodes of a vector's tree: those of the leaves, and behind them, row by row, those of the pairs.
#![tactic(auto)]

ghost use Rattle.std.specs.Prelude.{◌≡◌, ◌+◌, ◌*◌, length};
ghost use Rattle.rules.specs.Vector.{Vector};
ghost use Rattle.numbering.specs.Numbered.{BeforeRows, held_rows};
ghost use Rattle.label_words.specs.Leaves.{LeafWords};
ghost use Rattle.written_tables.specs.Rows.{vector_rows};
ghost use Rattle.node_words.specs.Paired.{Paired};

use label_words::WORDS;
use merges::{Merges, ROOM};

// The word of a pair, by its two children.
fn pair_word(first: u16, second: u16) -> u32
    ensures { result ≡ first + second * 65536 }
{
    u32::from(first) + u32::from(second) * 65536
}

// The words of the rows of n-1 merges, behind those of n leaves; number has the node of each name.
fn pair_words(merges: &Merges, n: usize, number: &mut [u16], words: &mut [u32])
    requires { BeforeRows merges.now.list merges.now.small merges.now.start n number.old × LeafWords n words.old }
    ensures { Paired n (held_rows merges.now.list merges.now.small merges.now.start n) words.new }
{
    for t in 0..n - 1 {
        let (a, b) = merges.pair(t);
        words[n + t] = pair_word(number[a], number[b]);
        number[a] = (n + t) as u16;
    }
}

// The words of the nodes of v's tree.
pub fn tree_words(v: &[u16], words: &mut [u32; WORDS])
    requires { Vector v.now }
    ensures { Paired (length v.now) (vector_rows v.now) words.new }
{
    let mut merges = Merges {
        list: [0; ROOM],
        small: [0; 1024],
        start: 0,
    };
    let mut number = [0u16; 1024];
    lists::number_leaves(&mut number, v.len());
    merges.fill(v);
    label_words::leaf_words(words, v.len());
    pair_words(&merges, v.len(), &mut number, words);
}
