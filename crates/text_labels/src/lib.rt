// A label of a text: the sign at a place, whether it is a digit, and the label that begins there.
#![tactic(auto)]

ghost use Rattle.std.specs.Prelude.{◌≡◌, ℕ, ◌+◌, ◌≤◌, ◌<◌, List, get_or};
ghost use Rattle.rules.specs.Newick.{is_digit};
ghost use Rattle.text_laws.specs.Answers.{Same, Labelled};

use text_cells::{CELLS, SIGNS, leaf};

// The sign at a place of a text that zeros follow, which are no signs.
pub fn sign(s: &[u8; SIGNS], at: usize) -> u8
    requires { at < 6144 }
    ensures { result ≡ get_or s.now at 0 }
{
    s[at]
}

#[tactic(auto, unfolding(rules::specs::Newick::is_digit))]
pub fn digit(c: u8) -> bool
    ensures { result ≡ is_digit c }
{
    c.is_ascii_digit()
}

// The label whose first sign is c, which is no 0. The signs are added up as they stand, and 48 for each digit taken off at the end; each
// number of digits has its own way out. Both save instructions for every label.
pub fn label(s: &[u8; SIGNS], m: &mut [u32; CELLS], at: usize, c: u8) -> usize
    requires { (at + 4 < 6144) × (c ≡ get_or s.now at 0) × (48 < c) × (c ≤ 57) }
    ensures { (t : List ℕ) → Same s.now t → Labelled t at m.old m.new result }
{
    let d = sign(s, at + 1);
    if !digit(d) {
        return leaf(m, c as u32 - 48, at + 1);
    }
    let x = 10 * c as u32 + d as u32;
    let e = sign(s, at + 2);
    if !digit(e) {
        return leaf(m, x - 48 * 11, at + 2);
    }
    let y = 10 * x + e as u32;
    let f = sign(s, at + 3);
    if !digit(f) {
        return leaf(m, y - 48 * 111, at + 3);
    }
    leaf(m, 10 * y + f as u32 - 48 * 1111, at + 4)
}
