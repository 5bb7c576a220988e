// A node of a text: the node reader, which reads a label or a pair, and the pair reader call each other while the remaining signs fall.
// Where the signs break off they end at text_cells OFF, and give no Result: text_laws specs/Answers Broke says so of both.
#![tactic(auto)]

ghost use Rattle.std.specs.Prelude.{◌≡◌, ℕ, ◌-◌, List, get_or};
ghost use Rattle.grammar.specs.Reading.{node_read};
ghost use Rattle.text_laws.specs.Cells.{cell};
ghost use Rattle.text_laws.specs.Answers.{MayBegin, Answers};

use text_cells::{CELLS, DEPTH, LAST, SIGNS, broken, close, leaf};
use text_labels::{label, sign};

// The node at a place, a label or a pair: where it ends.
#[cycle(node_pair)]
pub fn node(s: &[u8; SIGNS], m: &mut [u32; CELLS], at: usize) -> usize
    requires { (t : List ℕ) × MayBegin s.now t at m.old }
    ensures { (t : List ℕ) → MayBegin s.now t at m.old → Answers (node_read (cell m.old 8 - 1)) t at m.old m.new result }
{
    let c = sign(s, at);
    if 48 < c {
        if 57 < c {
            return broken(m, at);
        }
        return label(s, m, at, c);
    }
    if c == 48 {
        return leaf(m, 0, at + 1);
    }
    if c != 40 {
        return broken(m, at);
    }
    pair(s, m, at)
}

// The pair whose bracket opens at a place.
#[cycle(node_pair)]
fn pair(s: &[u8; SIGNS], m: &mut [u32; CELLS], at: usize) -> usize
    requires { ((t : List ℕ) × MayBegin s.now t at m.old) × (get_or s.now at 0 ≡ 40) }
    ensures { (t : List ℕ) → MayBegin s.now t at m.old → Answers (node_read (cell m.old 8 - 1)) t at m.old m.new result }
{
    let depth = m[DEPTH] - 1;
    m[DEPTH] = depth;
    if depth == 0 {
        return broken(m, at);
    }
    let x = node(s, m, at + 1);
    if sign(s, x) != 44 {
        return broken(m, x);
    }
    let first = m[LAST];
    let y = node(s, m, x + 1);
    if sign(s, y) != 41 {
        return broken(m, y);
    }
    close(m, first);
    m[DEPTH] = m[DEPTH] + 1;
    y + 1
}
