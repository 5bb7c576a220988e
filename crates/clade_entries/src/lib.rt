// The batches of an archive's clade table, one after another, and how many entries it has.
#![tactic(auto)]

ghost use Rattle.std.specs.Prelude.{◌≡◌, length};
ghost use Rattle.clade_passes.specs.Batches.{batch_at};
ghost use Rattle.clade_batch.specs.Held.{most, held_in};
ghost use Rattle.clade_entries.specs.Table.{Readable, table_of};
ghost use Rattle.clade_entries.specs.Next.{Follows};

use clade_batch::{Batch, MOST};
use clade_pass::Trees;

// Which word has the leaf set of the last clade of a full batch.
const LAST: usize = 8190;

/// The batch behind a full one: the least clades above its last.
pub fn load_next(trees: &Trees, batch: &mut Batch)
    ensures { Follows trees.now.archive.now trees.now.n trees.now.count batch.old.words batch.new.words }
{
    let bound = batch.words[LAST];
    clade_pass::pass(trees, bound, batch);
}

/// How many entries the table has, batch by batch from the first on, which is held.
pub fn count_entries(trees: &Trees, batch: &mut Batch) -> usize
    requires readable { Readable trees.now.archive.now trees.now.n trees.now.count }
    requires first { held_in batch.old.words ≡ batch_at most 0 (table_of trees.now.archive.now trees.now.n trees.now.count) }
    ensures { result ≡ length (table_of trees.now.archive.now trees.now.n trees.now.count) }
{
    let mut total = batch.number_held();
    let mut full: usize = MOST;
    while total == full {
        load_next(trees, batch);
        total += batch.number_held();
        full += MOST;
    }
    total
}
