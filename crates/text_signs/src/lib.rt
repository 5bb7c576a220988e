// The signs of a text as sent: a copy of those that are read, and where one of them stands.
#![tactic(auto)]

ghost use Rattle.std.specs.Prelude.{◌≡◌, ◌&&◌, ℕ, ◌+◌, ◌≤◌, ◌<◌, length, get_or, drop};
ghost use Rattle.rules.specs.Newick.{is_digit};
ghost use Rattle.rules.specs.Sent.{blank, signs};
ghost use Rattle.blanks.specs.Places.{place_of};
ghost use Rattle.text_laws.specs.Cells.{AllZero};
ghost use Rattle.text_signs.specs.Keeping.{KeptIn, kept_of};

use lists::copy;
use text_cells::SIGNS;
use text_labels::digit;

// How many signs a text may have.
const MOST: usize = 6056;

// A text has too many signs, so none are kept.
#[derive(Clone, Copy, Debug, PartialEq, Eq)]
pub struct TooManySigns;

// Four tests, and no `matches!`, which takes three instructions more for each sign of a text with blanks.
#[tactic(auto, unfolding(rules::specs::Sent::blank))]
fn is_blank(c: u8) -> bool
    ensures { result ≡ blank c }
{
    c == b' ' || c == b'\t' || c == b'\r' || c == b'\n'
}

// A byte that is not above any of a text. No branch leaves this loop, so it becomes vector code.
fn least_byte(s: &[u8]) -> u8
    ensures { (k : ℕ) → k < length s.now → result ≤ get_or s.now k 0 }
{
    let mut least = u8::MAX;
    for b in s {
        least = least.min(*b);
    }
    least
}

// How many signs a text has. A loop: by `filter` and `count` a long text with a parted label took a third more time. It stays a function of its own:
// inlined, it costs the copy of a text with blanks an instruction for each byte.
#[inline(never)]
fn count_signs(s: &[u8]) -> usize
    ensures { result ≡ length (signs s.now) }
{
    let mut count = 0;
    for c in s {
        if !is_blank(*c) {
            count += 1;
        }
    }
    count
}

// Whether a digit at a place parts a label: blanks stand before it, and before them the sign last.
fn parts_label(s: &[u8], at: usize, last: u8) -> bool
    ensures { result ≡ is_digit last && is_digit (get_or s.now at 0) }
{
    digit(last) && digit(s.get(at).copied().unwrap_or(0))
}

// What is kept where a label is parted: the q signs before a place. Those behind it count all the same.
fn kept_before(s: &[u8], at: usize, q: usize) -> Result<usize, TooManySigns>
    requires { (at ≤ length s.now) × (q ≤ 6056) }
    ensures { result ≡ kept_of q (q + length (signs (drop at s.now))) }
{
    if MOST - q < count_signs(&s[at..]) {
        return Err(TooManySigns);
    }
    Ok(q)
}

// The signs of a text in front of zeros, up to the first digit that follows a digit and blanks: there no label goes on, so the grammar is
// broken at that digit if it is not before.
fn squeeze(s: &[u8], signs: &mut [u8; SIGNS]) -> Result<usize, TooManySigns>
    requires { AllZero signs.old }
    ensures { KeptIn s.now signs.new result }
{
    let mut last: u8 = 0;
    let mut q: usize = 0;
    for (i, c) in s.iter().enumerate() {
        if is_blank(*c) {
            if parts_label(s, i + 1, last) {
                return kept_before(s, i, q);
            }
        } else {
            if q == MOST {
                return Err(TooManySigns);
            }
            signs[q] = *c;
            last = *c;
            q += 1;
        }
    }
    Ok(q)
}

// The signs of a text that are read, in front of zeros. No blank is above the space: where every byte is, the text is
// copied as it is.
pub fn keep(s: &[u8], signs: &mut [u8; SIGNS]) -> Result<usize, TooManySigns>
    requires { AllZero signs.old }
    ensures { KeptIn s.now signs.new result }
{
    if s.len() <= MOST {
        if b' ' < least_byte(s) {
            copy(s, s.len(), signs);
            return Ok(s.len());
        }
    }
    squeeze(s, signs)
}

// The place of sign number k in the text as sent, or its length where it has no more signs: a second look, which only a refusal needs.
pub fn place_of(s: &[u8], k: usize) -> usize
    ensures { result ≡ place_of s.now k }
{
    let mut left = k;
    for (i, c) in s.iter().enumerate() {
        if !is_blank(*c) {
            if left == 0 {
                return i;
            }
            left -= 1;
        }
    }
    s.len()
}
