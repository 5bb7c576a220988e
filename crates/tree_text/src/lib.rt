// The text of a vector's tree, and how long it is: what the public call does between its checks.
#![tactic(auto)]

ghost use Rattle.std.specs.Prelude.{◌≡◌, ◌++◌, ◌-◌, ◌≤◌, length, drop};
ghost use Rattle.rules.specs.Vector.{Vector};
ghost use Rattle.rules.specs.Tree.{tree_of};
ghost use Rattle.rules.specs.Newick.{text_of};
ghost use Rattle.grammar.specs.Length.{text_length};

use label_words::WORDS;
use text_writer::SIGNS;

// How many bytes the text of a tree with n leaves has: so many labels have two digits, three and four.
pub fn text_length(n: usize) -> usize
    requires { (1 ≤ n) × (n ≤ 1024) }
    ensures { result ≡ text_length n }
{
    let tens = n.saturating_sub(10);
    let hundreds = n.saturating_sub(100);
    let thousands = n.saturating_sub(1000);
    n + 3 * (n - 1) + 1 + tens + hundreds + thousands
}

// The text of v's tree.
pub fn write_tree(v: &[u16], out: &mut [u8])
    requires { Vector v.now × (text_length (length v.now) ≤ length out.old) }
    ensures { out.new ≡ text_of (tree_of v.now) ++ drop (text_length (length v.now)) out.old }
{
    let mut words = [0u32; WORDS];
    let mut text = [0u8; SIGNS];
    node_words::tree_words(v, &mut words);
    let count = text_writer::write_text(&words, v.len(), &mut text);
    lists::copy(&text, count, out);
}
