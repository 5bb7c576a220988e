// What an archive says of itself before a record is read: its tree count, the length that this implies, and which part record r is.
#![tactic(auto)]

ghost use Rattle.std.specs.Prelude.{◌≡◌, ◌≤◌, ◌<◌, length};
ghost use Rattle.rules.specs.Archive.{trees_in, bare_length, implied_length};
ghost use Rattle.archive.specs.Finds.{IsPart, Finds};

use rules::Part;

/// The bytes before the first record: leaf count and tree count.
pub const HEADER_BYTES: usize = 4;

// One more than the most that the 21 bits of the tree count hold.
const COUNTS: u64 = 2097152;

/// The most leaves that a tree has.
pub const MOST_LEAVES: usize = 1024;

/// Why an archive has no tree: its length is wrong, with the one wanted; or its leaf count is; or it has no tree of that number.
#[derive(Clone, Copy)]
pub enum ArchiveFault {
    Length(usize),
    LeafCount,
    NoTree(usize),
}

/// The tree count of an archive.
pub fn tree_count(s: &[u8]) -> usize
    requires { 4 ≤ length s.now }
    ensures { result ≡ trees_in s.now }
{
    (words::four_at(s, 0) % COUNTS) as usize
}

/// The bytes of a record without its n.
pub fn bare_length(n: usize) -> usize
    requires { (1 ≤ n) × (n ≤ 1024) }
    ensures { result ≡ bare_length n }
{
    (lengths::field_bits(n) + 7) / 8
}

/// The bytes of an archive of so many trees of n leaves: there ends the last record, or starts the next one.
pub fn implied_length(n: usize, count: usize) -> usize
    requires { (1 ≤ n) × (n ≤ 1024) × (count < 2097152) }
    ensures { result ≡ implied_length n count }
{
    HEADER_BYTES + count * bare_length(n)
}

// The part that is record r.
fn record_part(n: usize, tree: usize) -> Part
    requires { (1 ≤ n) × (n ≤ 1024) × (tree < 2097152) }
    ensures { IsPart n tree result }
{
    Part {
        start: implied_length(n, tree),
        length: bare_length(n),
    }
}

/// The leaf count of an archive, and which part of it a tree's record is; or why there is none.
pub fn find(s: &[u8], tree: usize) -> Result<(usize, Part), ArchiveFault>
    ensures { Finds s.now tree result }
{
    if s.len() < HEADER_BYTES {
        return Err(ArchiveFault::Length(HEADER_BYTES));
    }
    let n = lengths::leaf_count(s);
    if n == 0 || MOST_LEAVES < n {
        return Err(ArchiveFault::LeafCount);
    }
    let count = tree_count(s);
    let wanted = implied_length(n, count);
    if s.len() != wanted {
        return Err(ArchiveFault::Length(wanted));
    }
    if count <= tree {
        return Err(ArchiveFault::NoTree(tree));
    }
    Ok((n, record_part(n, tree)))
}
