// The writer of a Newick text, from the words of a tree's nodes.
//
// A tree with n leaves is written from one array of words, one for each node, since each further array that a call passes on costs
// more than a label does. The word of a leaf is the signs of its label (crate label_words), the word of a pair its two children, the
// first one lowest.
#![tactic(auto)]

ghost use Rattle.std.specs.Prelude.{ℕ, ◌+◌, ◌≤◌, ◌≡◌, List, ◌++◌, take, drop};
ghost use Rattle.rules.specs.Newick.{node_text, text_of};
ghost use Rattle.written_tables.specs.Tied.{tree_at, whole_tree};
ghost use Rattle.text_writer.specs.Signs.{word_bytes, sign_count};
ghost use Rattle.text_writer.specs.Output.{sign_places, NodeRoom, TextRoom, Stands};

use label_words::{FOURTH, LEAVES, WORDS};

// How many bytes the array has that a text is written to: the longest text has 6,056, and a label's word may pass its end.
// text_cells has a constant of its own for the room to read a text from, which is as large by chance.
pub const SIGNS: usize = 6144;

// The four bytes of a word, the lowest first.
fn put_word(w: u32, text: &mut [u8; SIGNS], at: usize)
    requires { at + 4 ≤ sign_places }
    ensures { text.new ≡ take at text.old ++ word_bytes w ++ drop (at + 4) text.old }
{
    text[at..at + 4].copy_from_slice(&w.to_le_bytes());
}

// How many signs a label has, by its word.
#[tactic(auto, unfolding(crate::specs::Signs::sign_count))]
fn sign_count(w: u32) -> usize
    ensures { result ≡ sign_count w }
{
    (w / FOURTH).min(4) as usize
}

// The text of a node, leaf or pair. The bytes of a label's word that are no signs stand behind it until what follows overwrites them. A
// pair's word is read behind its bracket, so that a leaf saves no registers for it. Both clauses bind the rows, since a function that calls
// itself has no ghost values of its own.
fn write_node(words: &[u32; WORDS], node: usize, text: &mut [u8; SIGNS], at: usize) -> usize
    requires { (n : ℕ) × (left : List ℕ) × (right : List ℕ) × NodeRoom n left right words.now node at }
    ensures { (n : ℕ) (left right : List ℕ) → NodeRoom n left right words.now node at → Stands (node_text (tree_at n left right node)) at text.old text.new result }
{
    if node < words[LEAVES] as usize {
        let w = words[node];
        put_word(w, text, at);
        return at + sign_count(w);
    }
    text[at] = 40;
    let w = words[node];
    let x = write_node(words, (w % 65536) as usize, text, at + 1);
    text[x] = 44;
    let y = write_node(words, (w / 65536) as usize, text, x + 1);
    text[y] = 41;
    y + 1
}

// The text of the tree whose nodes have these words.
pub fn write_text(words: &[u32; WORDS], n: usize, text: &mut [u8; SIGNS]) -> usize
    requires { (left : List ℕ) × (right : List ℕ) × TextRoom n left right words.now }
    ensures { (left right : List ℕ) → TextRoom n left right words.now → Stands (text_of (whole_tree n left right)) 0 text.old text.new result }
{
    let root = n + (n - 1) - 1;
    let x = write_node(words, root, text, 0);
    text[x] = 59;
    x + 1
}
