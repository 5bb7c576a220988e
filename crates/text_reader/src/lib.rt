// The signs of a whole text, read as a node, the sign at its end, and nothing behind it.
#![tactic(auto)]

ghost use Rattle.std.specs.Prelude.{List, ℕ};
ghost use Rattle.text_reader.specs.Reading.{InFront, TextAnswers};

use text_cells::{BREAK, CELLS, DEPTH, NEXT, PAIR, SIGNS, broken};
use text_labels::sign;
use text_nodes::node;

// The sign that breaks the grammar, by its number.
#[derive(Clone, Copy, Debug, PartialEq, Eq)]
pub struct Broken {
    pub sign: usize,
}

// The whole text, of which count signs stand in front of zeros: how many leaves its tree has, or the sign that breaks the grammar.
pub fn read_text(signs: &[u8; SIGNS], count: usize, m: &mut [u32; CELLS]) -> Result<usize, Broken>
    requires { (t : List ℕ) × InFront t signs.now count }
    ensures { (t : List ℕ) → InFront t signs.now count → TextAnswers t m.old m.new result }
{
    m[NEXT] = PAIR;
    m[DEPTH] = 1024;
    let x = node(signs, m, 0);
    if sign(signs, x) != 59 {
        broken(m, x);
        let sign = m[BREAK] as usize;
        return Err(Broken { sign });
    }
    if x + 1 < count {
        return Err(Broken { sign: x + 1 });
    }
    Ok((m[NEXT] - PAIR) as usize + 1)
}
