// A packed record, read: its vector, or why it is refused.
#![tactic(auto)]

ghost use Rattle.record_laws.specs.FromRecord.{Headed};
ghost use Rattle.unpacking.specs.Unpacks.{Unpacks};

use lengths::COUNT_BITS;
use record_entries::{EntryFault, read_entries};

// The most leaves that a tree has.
const MOST_LEAVES: usize = 1024;

/// Why a record gives no vector: its length is wrong, with the one wanted; or its leaf count is; or the first entry above its bound; or a
/// padding bit is set, with the number of the last byte.
#[derive(Clone, Copy)]
pub enum RecordFault {
    Length(usize),
    LeafCount,
    Entry(usize),
    Padding(usize),
}

// Reads the entries of a record of n leaves into vector, and checks them and the padding: how many there are.
fn read_headed(s: &[u8], n: usize, vector: &mut [u16; 1024]) -> Result<usize, RecordFault>
    requires { Headed s.now n }
    ensures { Unpacks s.now vector.new result }
{
    // As in tree_reading, but for the faults and where the fields start: one function for both would take a conversion of faults.
    match read_entries(s, COUNT_BITS as usize, n, vector) {
        Ok(()) => Ok(n),
        Err(EntryFault::Entry(i)) => Err(RecordFault::Entry(i)),
        Err(EntryFault::Padding) => Err(RecordFault::Padding(s.len() - 1)),
    }
}

/// Reads a record: its vector, at the front of vector, and how many entries it has, or why it gives none.
pub fn read_vector(s: &[u8], vector: &mut [u16; 1024]) -> Result<usize, RecordFault>
    ensures { Unpacks s.now vector.new result }
{
    if s.len() < 2 {
        return Err(RecordFault::Length(2));
    }
    let n = lengths::leaf_count(s);
    if n == 0 || MOST_LEAVES < n {
        return Err(RecordFault::LeafCount);
    }
    let wanted = lengths::record_length(n);
    if s.len() != wanted {
        return Err(RecordFault::Length(wanted));
    }
    read_headed(s, n, vector)
}
