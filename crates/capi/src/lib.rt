// The C interface: one function a call. capi_c exports each under its own name. include/blathersike.h documents each.
#![tactic(auto)]

ghost use Rattle.std.specs.Prelude.{[], ◌∷◌, ◌≡◌};
ghost use Rattle.rules.specs.Answer.{reads};
ghost use Rattle.rules.specs.CallCheck.{check_call};
ghost use Rattle.rules.specs.CallToTable.{to_table_call};
ghost use Rattle.rules.specs.CallFromTable.{from_table_call};
ghost use Rattle.rules.specs.CallToNewick.{to_newick_call};
ghost use Rattle.rules.specs.CallFromNewick.{from_newick_call};
ghost use Rattle.rules.specs.CallPack.{pack_call};
ghost use Rattle.rules.specs.CallUnpack.{unpack_call};
ghost use Rattle.rules.specs.CallShuffle.{shuffle_call};
ghost use Rattle.rules.specs.CallRelabel.{relabel_call};
ghost use Rattle.rules.specs.CallWriteArchive.{write_archive_call};
ghost use Rattle.rules.specs.CallReadTree.{read_tree_call};
ghost use Rattle.rules.specs.CallView.{part_of};
ghost use Rattle.rules.specs.CallCladeTable.{clade_table_call};
ghost use Rattle.rules.specs.Coded.{coded, Hands};

use rules::{Answer, Clade};

// The two numbers of an answer.
#[tactic(auto, unfolding(rules::specs::Coded::coded, rules::specs::Answer::reads))]
fn hand_back(given: Answer, back: &mut [u64; 2])
    ensures { back.new ≡ coded (reads given) }
{
    *back = match given {
        Answer::Done(count) => [0, count as u64],
        Answer::Refused(why) => [refusal_numbers::number_of(why.kind), why.place as u64],
    };
}

// Whether v is a vector.
pub fn blathersike_check(v: &[u16], back: &mut [u64; 2])
    ensures { Hands (check_call v.now) tt back.new tt }
{
    hand_back(trees::check(v), back);
}

// Vector to merge table.
pub fn blathersike_to_table(v: &[u16], out: &mut [u16], back: &mut [u64; 2])
    ensures { Hands (to_table_call v.now) out.old back.new out.new }
{
    hand_back(trees::to_table(v, out), back);
}

// Merge table to vector.
pub fn blathersike_from_table(leaves: usize, rows: &[u16], out: &mut [u16], back: &mut [u64; 2])
    ensures { Hands (from_table_call leaves rows.now) out.old back.new out.new }
{
    hand_back(trees::from_table(leaves, rows, out), back);
}

// Vector to Newick text.
pub fn blathersike_to_newick(v: &[u16], out: &mut [u8], back: &mut [u64; 2])
    ensures { Hands (to_newick_call v.now) out.old back.new out.new }
{
    hand_back(trees::to_newick(v, out), back);
}

// Newick text to vector.
pub fn blathersike_from_newick(text: &[u8], out: &mut [u16], back: &mut [u64; 2])
    ensures { Hands (from_newick_call text.now) out.old back.new out.new }
{
    hand_back(trees::from_newick(text, out), back);
}

// Vector to packed record.
pub fn blathersike_pack(v: &[u16], out: &mut [u8], back: &mut [u64; 2])
    ensures { Hands (pack_call v.now) out.old back.new out.new }
{
    hand_back(trees::pack(v, out), back);
}

// Packed record to vector.
pub fn blathersike_unpack(s: &[u8], out: &mut [u16], back: &mut [u64; 2])
    ensures { Hands (unpack_call s.now) out.old back.new out.new }
{
    hand_back(trees::unpack(s, out), back);
}

// Queue Shuffle.
pub fn blathersike_shuffle(v: &[u16], new: &mut [u16], out: &mut [u16], back: &mut [u64; 2])
    ensures { Hands (shuffle_call v.now) (new.old, out.old) back.new (new.new, out.new) }
{
    hand_back(trees::shuffle(v, new, out), back);
}

// The vector of the tree with leaf x relabelled p(x).
pub fn blathersike_relabel(v: &[u16], p: &[u16], out: &mut [u16], back: &mut [u64; 2])
    ensures { Hands (relabel_call v.now p.now) out.old back.new out.new }
{
    hand_back(trees::relabel(v, p, out), back);
}

// Vectors of one run to an archive.
pub fn blathersike_write_archive(
    leaves: usize,
    entries: &[u16],
    out: &mut [u8],
    back: &mut [u64; 2],
)
    ensures { Hands (write_archive_call leaves entries.now) out.old back.new out.new }
{
    hand_back(trees::write_archive(leaves, entries, out), back);
}

// A tree of an archive to its vector.
pub fn blathersike_read_tree(archive: &[u8], tree: usize, out: &mut [u16], back: &mut [u64; 2])
    ensures { Hands (read_tree_call archive.now tree) out.old back.new out.new }
{
    hand_back(trees::read_tree(archive, tree, out), back);
}

// The part of an archive that is the record of a tree: where it starts, and how many bytes it has.
pub fn blathersike_view(archive: &[u8], tree: usize, part: &mut [u64; 2])
    ensures { part.new ≡ (part_of archive.now tree).0 ∷ (part_of archive.now tree).1 ∷ [] }
{
    let found = trees::part(archive, tree);
    *part = [found.start as u64, found.length as u64];
}

// The clade table of an archive.
pub fn blathersike_clade_table(archive: &[u8], out: &mut [Clade], back: &mut [u64; 2])
    ensures { Hands (clade_table_call archive.now) out.old back.new out.new }
{
    hand_back(trees::clade_table(archive, out), back);
}
