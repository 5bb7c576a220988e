// A tree of an archive, read: its vector, or why it is refused.
#![tactic(auto)]

ghost use Rattle.std.specs.Prelude.{◌≡◌, ◌≤◌, length};
ghost use Rattle.rules.specs.Archive.{bare_length};
ghost use Rattle.rules.specs.CallReadTree.{read_tree};
ghost use Rattle.tree_reading.specs.Gives.{Gives, bare_made, tree_fault};

use archive::ArchiveFault;
use record_entries::{EntryFault, read_entries};

/// Why a tree gives no vector: its archive's length is wrong, with the one wanted; or its leaf count is; or it has no such tree; or the first
/// entry above its bound; or a padding bit is set, with the number of the record's last byte.
#[derive(Clone, Copy)]
pub enum TreeFault {
    Length(usize),
    LeafCount,
    NoTree(usize),
    Entry(usize),
    Padding(usize),
}

impl From<ArchiveFault> for TreeFault {
    ghost from_gives = { λ fault r. r ≡ tree_fault fault };

    fn from(fault: ArchiveFault) -> TreeFault {
        match fault {
            ArchiveFault::Length(wanted) => TreeFault::Length(wanted),
            ArchiveFault::LeafCount => TreeFault::LeafCount,
            ArchiveFault::NoTree(number) => TreeFault::NoTree(number),
        }
    }
}

// Reads the entries of a record without its n into vector, and checks them and the padding: how many there are.
fn read_bare(bytes: &[u8], n: usize, vector: &mut [u16; 1024]) -> Result<usize, TreeFault>
    requires { (1 ≤ n) × (n ≤ 1024) × (length bytes.now ≡ bare_length n) }
    ensures { Gives (bare_made n bytes.now) vector.new result }
{
    // As in unpacking, but for the faults and where the fields start: one function for both would take a conversion of faults.
    match read_entries(bytes, 0, n, vector) {
        Ok(()) => Ok(n),
        Err(EntryFault::Entry(i)) => Err(TreeFault::Entry(i)),
        Err(EntryFault::Padding) => Err(TreeFault::Padding(bytes.len() - 1)),
    }
}

/// Reads a tree of an archive: its vector, at the front of vector, and how many entries it has, or why there is none.
pub fn read_tree(s: &[u8], tree: usize, vector: &mut [u16; 1024]) -> Result<usize, TreeFault>
    ensures { Gives (read_tree s.now tree) vector.new result }
{
    let (n, part) = archive::find(s, tree)?;
    let start = part.start;
    let end = start + part.length;
    read_bare(&s[start..end], n, vector)
}
