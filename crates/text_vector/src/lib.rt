// The vector of a text as sent: its signs are read, its labels are checked, and the pairs that were recorded make the vector.
#![tactic(auto)]

ghost use Rattle.std.specs.Prelude.{◌≡◌, ◌++◌, ◌≤◌, length, drop};
ghost use Rattle.rules.specs.Tree.{Tree};
ghost use Rattle.rules.specs.Order.{vector_of};
ghost use Rattle.text_laws.specs.Recorded.{TableOf, recorded_rows};
ghost use Rattle.text_signs.specs.Keeping.{SignsKept};
ghost use Rattle.text_vector.specs.Gives.{Gives};
ghost use Rattle.text_vector.specs.declared.TextFault.TheVariants.{TooManySigns as too_many};

use label_faults::LabelFault;
use text_cells::{CELLS, SIGNS};
use text_signs::TooManySigns;

// Why a text gives no vector: too many signs; or the place where it breaks the grammar; or too many leaves; or the first label at fault.
// Places are in the text as sent.
#[derive(Clone, Copy, Debug, PartialEq, Eq)]
pub enum TextFault {
    TooManySigns,
    Breaks(usize),
    TooManyLeaves,
    Label(LabelFault),
}

impl From<TooManySigns> for TextFault {
    ghost from_gives = { λ _ fault. fault ≡ too_many };

    fn from(_many: TooManySigns) -> TextFault {
        TextFault::TooManySigns
    }
}

// The vector of the tree with n leaves whose pairs are recorded, at the front of vector. It stays a function of its own: inlined, its arrays
// would lie below the readers that call themselves, and a text would take a quarter more stack.
#[inline(never)]
fn pairs_vector(m: &[u32; CELLS], n: usize, vector: &mut [u16])
    requires le_n { (1 ≤ n) × (n ≤ 1024) × (n ≤ length vector.old) }
    requires table_of { (t : Tree) × TableOf n t (recorded_rows n (drop 1040 m.now)) }
    ensures { (t : Tree) → TableOf n t (recorded_rows n (drop 1040 m.now)) → vector.new ≡ vector_of t ++ drop n vector.old }
{
    let mut left = [0u16; 1024];
    let mut right = [0u16; 1024];
    pair_children::children(m, n, &mut left, &mut right);
    children_order::children_vector(n, &left, &right, vector);
}

// The vector of a text whose kept signs stand in front of zeros, at the front of vector: how many entries it has, or why there is none.
fn signs_vector(
    s: &[u8],
    signs: &[u8; SIGNS],
    count: usize,
    vector: &mut [u16; 1024],
) -> Result<usize, TextFault>
    requires { SignsKept s.now signs.now count × (length s.now ≤ 65536) }
    ensures { Gives s.now vector.new result }
{
    let mut m = [0u32; CELLS];
    // A match, since of what `map_err` and `?` give the proof does not know the sign that the closure looked up.
    let n = match text_reader::read_text(signs, count, &mut m) {
        Ok(leaves) => leaves,
        Err(broken) => return Err(TextFault::Breaks(text_signs::place_of(s, broken.sign))),
    };
    if 1024 < n {
        return Err(TextFault::TooManyLeaves);
    }
    if !label_faults::each_once(&m, n) {
        return Err(TextFault::Label(label_faults::first_fault(s, n)));
    }
    pairs_vector(&m, n, vector);
    Ok(n)
}

// Reads a text: its vector, at the front of vector, and how many entries it has, or why it gives none.
pub fn read_vector(s: &[u8], vector: &mut [u16; 1024]) -> Result<usize, TextFault>
    requires { length s.now ≤ 65536 }
    ensures { Gives s.now vector.new result }
{
    let mut signs = [0u8; SIGNS];
    let count = text_signs::keep(s, &mut signs)?;
    signs_vector(s, &signs, count, vector)
}
