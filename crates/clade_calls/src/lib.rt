// The public call about the clade table of an archive.
#![tactic(auto)]

ghost use Rattle.std.specs.Prelude.{◌≡◌};
ghost use Rattle.rules.specs.Answer.{reads};
ghost use Rattle.rules.specs.CallCladeTable.{clade_table_call};
ghost use Rattle.rules.specs.Promise.{Keeps};
ghost use Rattle.clade_calls.specs.Checked.{Headed, FirstBatch, Roomed, Checked};
ghost use Rattle.clade_calls.specs.Filling.{Ready, Loaded, Readied, held_entry, finished};

use answering::refuse;
use archive::{HEADER_BYTES, MOST_LEAVES};
use clade_batch::{Batch, GUESSES, MOST, WORDS};
use clade_pass::Trees;
use rules::{Answer, Clade, Kind};

// As many leaves as a leaf set has bits.
const TABLE_LEAVES: usize = 64;

// 15 where there is no room for so many entries. A refusal leaves no clade in held.
fn answer_room(needed: usize, room: usize, held: &mut Batch) -> Answer
    ensures { Roomed needed room held.old.words result held.new.words }
{
    if room < needed {
        held.clear();
        return refuse(Kind::CladeRoom, needed);
    }
    Answer::Done(needed)
}

// The same where there is more than one batch: the entries are counted first, and then the first batch is loaded again.
fn count_and_answer(trees: &Trees, room: usize, held: &mut Batch) -> Answer
    requires { FirstBatch trees.now.archive.now trees.now.n trees.now.count held.old.words }
    ensures { Checked trees.now.archive.now room result held.new.words }
{
    let needed = clade_entries::count_entries(trees, held);
    if room < needed {
        return answer_room(needed, room, held);
    }
    clade_pass::pass(trees, 0, held);
    Answer::Done(needed)
}

// What room there is for the table of an archive whose trees can all be read, and of which held has the first batch. A batch that is not full
// is all of it. Where the room is enough for the clades of so many trees, were they all different, they need not be counted.
fn check_room(trees: &Trees, room: usize, held: &mut Batch) -> Answer
    requires { FirstBatch trees.now.archive.now trees.now.n trees.now.count held.old.words }
    ensures { Checked trees.now.archive.now room result held.new.words }
{
    let first = held.number_held();
    if first < MOST {
        return answer_room(first, room, held);
    }
    if trees.count * (trees.n - 1) <= room {
        return Answer::Done(first);
    }
    count_and_answer(trees, room, held)
}

// The trees, one by one (4, 10), and then the room.
fn check_trees(trees: &Trees, room: usize, held: &mut Batch) -> Answer
    requires { Headed trees.now.archive.now trees.now.n trees.now.count }
    ensures { Checked trees.now.archive.now room result held.new.words }
{
    if let Some(first) = clade_pass::pass(trees, 0, held) {
        let mut spare = [0u16; 1];
        held.clear();
        return archive_calls::read_tree(trees.archive, first, &mut spare);
    }
    check_room(trees, room, held)
}

// Everything that is refused, and else the first batch in held.
fn checked(archive: &[u8], room: usize, held: &mut Batch) -> Answer
    ensures { Checked archive.now room result held.new.words }
{
    held.clear();
    if archive.len() < HEADER_BYTES {
        return refuse(Kind::InputLength, HEADER_BYTES);
    }
    let n = lengths::leaf_count(archive);
    if n == 0 {
        return refuse(Kind::LeafCount, 0);
    }
    if MOST_LEAVES < n {
        return refuse(Kind::LeafCount, 0);
    }
    if TABLE_LEAVES < n {
        return refuse(Kind::CladeLeaves, n);
    }
    let count = archive::tree_count(archive);
    let wanted = archive::implied_length(n, count);
    if archive.len() != wanted {
        return refuse(Kind::InputLength, wanted);
    }
    check_trees(&Trees { archive, n, count }, room, held)
}

// Loads the next batch behind one that is used up.
fn load_behind(archive: &[u8], held: &mut Batch, i: usize)
    requires { Ready archive.now i }
    ensures { Loaded archive.now i held.old.words held.new.words }
{
    if i == 0 {
        return;
    }
    if i % MOST == 0 {
        let n = lengths::leaf_count(archive);
        let count = archive::tree_count(archive);
        clade_entries::load_next(&Trees { archive, n, count }, held);
    }
}

// Whether there is an entry i; its batch is in held then.
fn ready(archive: &[u8], held: &mut Batch, i: usize) -> bool
    requires { Ready archive.now i }
    ensures { Readied archive.now i held.old.words result held.new.words }
{
    load_behind(archive, held, i);
    i % MOST < held.number_held()
}

// Entry i, where its batch is in held.
fn entry(held: &Batch, i: usize) -> Clade
    ensures { result ≡ held_entry held.now.words i }
{
    let at = 2 * (i % MOST);
    let leaves = held.words[at];
    Clade {
        leaves,
        size: leaves.count_ones(),
        count: (held.words[at + 1] % 4294967296) as u32,
    }
}

// What was refused stays so; else the call is done with so many entries.
fn finish(answer: Answer, i: usize) -> Answer
    ensures { reads result ≡ finished (reads answer) i }
{
    match answer {
        Answer::Done(_) => Answer::Done(i),
        Answer::Refused(why) => Answer::Refused(why),
    }
}

/// The clade table of an archive: 2 (under 4 bytes), 1, 14, 2 (not the implied length), then tree by tree 4 and 10, and last 15. Nothing is
/// written before all of this is known.
pub fn clade_table(archive: &[u8], out: &mut [Clade]) -> Answer
    ensures { Keeps (clade_table_call archive.now) out.old result out.new }
{
    let mut held = Batch {
        words: [0u64; WORDS],
        guesses: [0u16; GUESSES],
    };
    let answer = checked(archive, out.len(), &mut held);
    // How many entries there are is not known before the last batch is used up, so `ready` ends the loop, and not a range.
    let mut i = 0;
    while ready(archive, &mut held, i) {
        out[i] = entry(&held, i);
        i += 1;
    }
    finish(answer, i)
}
