// The array that a text is read to, and what is stored there: a label, a closed pair, the place where the signs break off.
//
// What is read goes to one array, since each further array that a call passes on costs more than a label does. The cells at its start stand
// apart from each other, else the compiler joins two of them to a vector of two. So they are no fields of a struct, which stand side by side; and
// text_laws says what the readers leave of such a list (specs/Cells cell, leaf_in, pair_in, broken_in; specs/Answers Took, Broke).
#![tactic(auto)]

ghost use Rattle.std.specs.Prelude.{◌≡◌, ◌<◌};
ghost use Rattle.text_laws.specs.Cells.{leaf_in, pair_in, broken_in, Closing};

// The node that was read last, as a child: a label, or PAIR and the number of a pair.
pub const LAST: usize = 0;

// The pair that closes next, as a child.
pub const NEXT: usize = 4;

// How many brackets may still open, and one.
pub const DEPTH: usize = 8;

// Where the signs break off, once they do.
pub const BREAK: usize = 12;

// From here on 1 for each label below 1,024 that was read.
pub const MARKS: usize = 16;

// From here on the two children of each pair, in the order in which they close. A text of 6,056 signs has at most 1,513 pairs.
pub const PAIRS: usize = 1040;

// How many cells there are.
pub const CELLS: usize = 2576;

// What a pair's number is added to: labels are below.
pub const PAIR: u32 = 16384;

// What the first of a pair's two children is multiplied with: children are below.
pub const CHILD: u32 = 65536;

// How many signs a text is read from, with the zeros behind it.
pub const SIGNS: usize = 6144;

// Where a node ends that breaks off: a zero that no text reaches, so that whoever looks for the next sign finds none. It is no Err: text_laws
// specs/Answers Broke says of the readers that they end here and have the place in a cell, and no test more stands between two signs.
const OFF: usize = 6143;

// The signs break off at a place, or broke off before.
pub fn broken(m: &mut [u32; CELLS], at: usize) -> usize
    requires { at < 6144 }
    ensures { (result ≡ 6143) × (m.new ≡ broken_in at m.old) }
{
    if at != OFF {
        m[BREAK] = at as u32;
    }
    OFF
}

// The label x is read, which ends at a place.
pub fn leaf(m: &mut [u32; CELLS], x: u32, end: usize) -> usize
    ensures { (result ≡ end) × (m.new ≡ leaf_in x m.old) }
{
    m[LAST] = x;
    if x < 1024 {
        m[MARKS + x as usize] = 1;
    }
    end
}

// The pair of a first child and the node that was read last is closed.
pub fn close(m: &mut [u32; CELLS], first: u32)
    requires { Closing first m.old }
    ensures { m.new ≡ pair_in first m.old }
{
    let pair = m[NEXT];
    m[PAIRS + pair as usize - PAIR as usize] = first * CHILD + m[LAST];
    m[LAST] = pair;
    m[NEXT] = pair + 1;
}
