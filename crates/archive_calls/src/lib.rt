// The public calls about the archive of one run.
#![tactic(auto)]

ghost use Rattle.rules.specs.Promise.{Keeps};
ghost use Rattle.rules.specs.CallWriteArchive.{write_archive_call};
ghost use Rattle.rules.specs.CallReadTree.{read_tree_call};

use answering::{hand_out, refuse};
use archive::MOST_LEAVES;
use rules::{Answer, Kind};
use tree_reading::TreeFault;

// The view is a part and no answer: by its place, and as bytes.
pub use archive_view::{part, view};

// As many trees as an archive counts, in 21 bits.
const MOST_TREES: usize = 2097151;

/// Vectors of so many leaves, one after another in one list, to an archive: 1, 21, 2, 4, 3. All of them are checked before the first byte is
/// written.
pub fn write_archive(leaves: usize, entries: &[u16], out: &mut [u8]) -> Answer
    ensures { Keeps (write_archive_call leaves entries.now) out.old result out.new }
{
    if leaves == 0 || MOST_LEAVES < leaves {
        return refuse(Kind::LeafCount, 0);
    }
    let size = entries.len();
    if MOST_TREES * leaves < size {
        return refuse(Kind::TreeCount, MOST_TREES);
    }
    let trees = size / leaves;
    if trees * leaves != size {
        return refuse(Kind::InputLength, (trees + 1) * leaves);
    }
    if let Some(fault) = archive_faults::first_fault_in(entries, leaves) {
        return refuse(Kind::Entry, fault);
    }
    let bytes = archive::implied_length(leaves, trees);
    if out.len() < bytes {
        return refuse(Kind::Room, bytes);
    }
    archive_writing::write_archive(entries, leaves, archive::bare_length(leaves), out);
    Answer::Done(bytes)
}

/// A tree of an archive to its vector: 2 (under 4 bytes), 1, 2 (not the implied length), 12, 4, 10, 3.
pub fn read_tree(archive: &[u8], tree: usize, out: &mut [u16]) -> Answer
    ensures { Keeps (read_tree_call archive.now tree) out.old result out.new }
{
    let mut vector = [0u16; 1024];
    match tree_reading::read_tree(archive, tree, &mut vector) {
        Err(TreeFault::Length(wanted)) => refuse(Kind::InputLength, wanted),
        Err(TreeFault::LeafCount) => refuse(Kind::LeafCount, 0),
        Err(TreeFault::NoTree(number)) => refuse(Kind::TreeNumber, number),
        Err(TreeFault::Entry(i)) => refuse(Kind::Entry, i),
        Err(TreeFault::Padding(place)) => refuse(Kind::Padding, place),
        Ok(n) => hand_out(&vector, n, out),
    }
}
