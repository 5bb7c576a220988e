// Which label of a text is at fault, if one is, and how: the marks of the labels that were read, and the second look at the bytes.
#![tactic(auto)]

ghost use Rattle.std.specs.Prelude.{◌≡◌, Bool, ◌≤◌, ◌<◌, [], IfSome};
ghost use Rattle.std.proofs.Math.Option.{none, some};
ghost use Rattle.rules.specs.Names.{first_fault};
ghost use Rattle.rules.specs.Newick.{is_digit, with_digit, labels_of};
ghost use Rattle.label_faults.specs.Marks.{EachOnce};
ghost use Rattle.label_faults.specs.Fault.{fault_is};
ghost use Rattle.label_faults.specs.Looking.{placed, reading};

use text_cells::{CELLS, MARKS};
use text_labels::digit;

// A label at fault, by the place of its first byte: not below n, or used before.
#[derive(Clone, Copy, Debug, PartialEq, Eq)]
pub enum LabelFault {
    Stray(usize),
    Double(usize),
}

// A label that is being read: the place of its first byte, and its number so far.
#[derive(Clone, Copy)]
struct Label {
    start: usize,
    number: usize,
}

// 1 where a label has no mark, else 0.
fn absent(mark: u32) -> u32
    ensures { (result ≤ 1) × (result ≡ 0 → mark ≡ 0 → ⊥) × ((result ≡ 0 → ⊥) → mark ≡ 0) }
{
    u32::from(mark == 0)
}

// Whether each label below n was read: n labels then have no fault. No branch leaves this loop, so it becomes vector code.
pub fn each_once(m: &[u32; CELLS], n: usize) -> bool
    requires { n ≤ 1024 }
    ensures { EachOnce m.now n result }
{
    let mut missing: u32 = 0;
    for i in 0..n {
        missing += absent(m[MARKS + i]);
    }
    missing == 0
}

// The label that a digit at a place belongs to, up to that digit.
fn with_digit(label: Option<Label>, at: usize, c: u8) -> Label
    requires { (is_digit c ≡ Bool.true) × IfSome label (λ l. l.number < 1024) }
    ensures { some (placed result) ≡ with_digit at c (reading label) }
{
    let value = c as usize - 48;
    match label {
        Some(l) => Label {
            start: l.start,
            number: 10 * l.number + value,
        },
        None => Label {
            start: at,
            number: value,
        },
    }
}

// The first label at fault, where one is: the second look at a text, byte by byte, which only a refusal needs. A label that reaches n is
// stray whatever digits follow. Where no label before the bytes' end is at fault, the one that ends there is; it is below n, so it is double.
// The flags are numbers, as basics specs/Flagged has them.
pub fn first_fault(s: &[u8], n: usize) -> LabelFault
    requires { (n ≤ 1024) × (first_fault n [] (labels_of s.now) ≡ none → ⊥) }
    ensures { some (fault_is result) ≡ first_fault n [] (labels_of s.now) }
{
    let mut used = [0u8; 1024];
    let mut label: Option<Label> = None;
    for (at, c) in s.iter().enumerate() {
        if digit(*c) {
            let next = with_digit(label, at, *c);
            if n <= next.number {
                return LabelFault::Stray(next.start);
            }
            label = Some(next);
        } else if let Some(ended) = label {
            if used[ended.number] != 0 {
                return LabelFault::Double(ended.start);
            }
            used[ended.number] = 1;
            label = None;
        }
    }
    LabelFault::Double(label.unwrap().start)
}
