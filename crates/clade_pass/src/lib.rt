// One pass over an archive: the least clades above a bound, with the number of trees that have them.
#![tactic(auto)]

ghost use Rattle.std.specs.Prelude.{◌≡◌, ◌<◌, ◌≤◌, length, []};
ghost use Rattle.rules.specs.Archive.{bare_length};
ghost use Rattle.clade_pass.specs.Pass.{Given, Passed, pairs};
ghost use Rattle.clade_batch.specs.Held.{held_in};
ghost use Rattle.clade_batch.specs.AddAll.{Roomy};
ghost use Rattle.leaf_sets.specs.Bits.{Bits};
ghost use Rattle.clade_pass.specs.Tree.{TreeAdded};

use archive::HEADER_BYTES;
use clade_batch::Batch;
use merges::{Merges, ROOM};
use record_entries::{EntryFault, read_entries};

// As many leaves as a tree in a clade table has, and so many words.
const LEAVES: usize = 64;

// Below so many leaves a record has no bytes.
const BYTES_FROM: usize = 3;

// The leaf set of leaves 0 and 1.
const BOTH: u64 = 3;

/// The trees of an archive with a right header and its implied length: so many, of n leaves each.
#[derive(Drop)]
pub struct Trees<'a> {
    pub archive: &'a [u8],
    pub n: usize,
    pub count: usize,
    pub ghost given: { Given archive.now n count },
}

// What the leaf sets of a tree are made in: its vector, its merges, the clusters, and the sets.
#[derive(Drop)]
struct Room {
    vector: [u16; LEAVES],
    merges: Merges,
    clusters: [u64; LEAVES],
    sets: [u64; LEAVES],
}

// The clades of the tree of a record without its n are added to the batch, where its entries and its padding are those of a vector.
fn add_tree(
    bytes: &[u8],
    n: usize,
    bound: u64,
    bits: &[u64; LEAVES],
    room: &mut Room,
    batch: &mut Batch,
) -> Result<(), EntryFault>
    requires le_n { (1 ≤ n) × (n ≤ 64) × (length bytes.now ≡ bare_length n) × Bits 64 bits.now }
    requires roomy { Roomy batch.old.words }
    ensures { TreeAdded n bytes.now bound batch.old.words batch.new.words result }
{
    read_entries(bytes, 0, n, &mut room.vector)?;
    leaf_sets::sets_of(
        &room.vector[..n],
        bits,
        &mut room.merges,
        &mut room.clusters,
        &mut room.sets,
    );
    batch.add_all(&room.sets[..n - 1], bound);
    Ok(())
}

// The clades of the trees, one after another: the number of the first that is refused.
fn add_trees(trees: &Trees, bound: u64, batch: &mut Batch) -> Option<usize>
    requires { held_in batch.old.words ≡ [] }
    ensures { Passed trees.now.archive.now trees.now.n trees.now.count bound batch.new.words result }
{
    let mut bits = [0u64; LEAVES];
    leaf_sets::leaf_bits(&mut bits);
    let mut room = Room {
        vector: [0u16; LEAVES],
        merges: Merges {
            list: [0; ROOM],
            small: [0; 1024],
            start: 0,
        },
        clusters: [0u64; LEAVES],
        sets: [0u64; LEAVES],
    };
    let size = archive::bare_length(trees.n);
    let mut at: usize = HEADER_BYTES;
    for r in 0..trees.count {
        let next = at + size;
        if add_tree(
            &trees.archive[at..next],
            trees.n,
            bound,
            &bits,
            &mut room,
            batch,
        )
        .is_err()
        {
            return Some(r);
        }
        at = next;
    }
    None
}

// So many trees of two leaves have one clade.
fn add_pairs(count: usize, bound: u64, batch: &mut Batch)
    requires { (count < 2097152) × (held_in batch.old.words ≡ []) }
    ensures { held_in batch.new.words ≡ pairs count bound }
{
    if count == 0 {
        return;
    }
    if bound < BOTH {
        batch.hold_one(BOTH, count as u64);
    }
}

/// One pass: the least clades above a bound into a batch. The result is the number of the first tree that is refused.
/// Records without bytes are all alike, so one look tells all.
pub fn pass(trees: &Trees, bound: u64, batch: &mut Batch) -> Option<usize>
    ensures { Passed trees.now.archive.now trees.now.n trees.now.count bound batch.new.words result }
{
    batch.clear();
    if BYTES_FROM <= trees.n {
        return add_trees(trees, bound, batch);
    }
    if trees.n == 2 {
        add_pairs(trees.count, bound, batch);
    }
    None
}
