// The C interface as a static library: an exported function a call, under the name that include/blathersike.h documents. Each is `capi`'s.
#![tactic(auto)]

ghost use Rattle.std.specs.Prelude.{[], ◌∷◌, ◌≡◌};
ghost use Rattle.rules.specs.CallCheck.{check_call};
ghost use Rattle.rules.specs.CallToTable.{to_table_call};
ghost use Rattle.rules.specs.CallFromTable.{from_table_call};
ghost use Rattle.rules.specs.CallToNewick.{to_newick_call};
ghost use Rattle.rules.specs.CallFromNewick.{from_newick_call};
ghost use Rattle.rules.specs.CallPack.{pack_call};
ghost use Rattle.rules.specs.CallUnpack.{unpack_call};
ghost use Rattle.rules.specs.CallShuffle.{shuffle_call};
ghost use Rattle.rules.specs.CallRelabel.{relabel_call};
ghost use Rattle.rules.specs.CallWriteArchive.{write_archive_call};
ghost use Rattle.rules.specs.CallReadTree.{read_tree_call};
ghost use Rattle.rules.specs.CallView.{part_of};
ghost use Rattle.rules.specs.CallCladeTable.{clade_table_call};
ghost use Rattle.rules.specs.Coded.{Hands};

use rules::Clade;

// Whether v is a vector.
#[unsafe(no_mangle)]
pub extern "C" fn blathersike_check(v: &[u16], back: &mut [u64; 2])
    ensures { Hands (check_call v.now) tt back.new tt }
{
    capi::blathersike_check(v, back);
}

// Vector to merge table.
#[unsafe(no_mangle)]
pub extern "C" fn blathersike_to_table(v: &[u16], out: &mut [u16], back: &mut [u64; 2])
    ensures { Hands (to_table_call v.now) out.old back.new out.new }
{
    capi::blathersike_to_table(v, out, back);
}

// Merge table to vector.
#[unsafe(no_mangle)]
pub extern "C" fn blathersike_from_table(
    leaves: usize,
    rows: &[u16],
    out: &mut [u16],
    back: &mut [u64; 2],
)
    ensures { Hands (from_table_call leaves rows.now) out.old back.new out.new }
{
    capi::blathersike_from_table(leaves, rows, out, back);
}

// Vector to Newick text.
#[unsafe(no_mangle)]
pub extern "C" fn blathersike_to_newick(v: &[u16], out: &mut [u8], back: &mut [u64; 2])
    ensures { Hands (to_newick_call v.now) out.old back.new out.new }
{
    capi::blathersike_to_newick(v, out, back);
}

// Newick text to vector.
#[unsafe(no_mangle)]
pub extern "C" fn blathersike_from_newick(text: &[u8], out: &mut [u16], back: &mut [u64; 2])
    ensures { Hands (from_newick_call text.now) out.old back.new out.new }
{
    capi::blathersike_from_newick(text, out, back);
}

// Vector to packed record.
#[unsafe(no_mangle)]
pub extern "C" fn blathersike_pack(v: &[u16], out: &mut [u8], back: &mut [u64; 2])
    ensures { Hands (pack_call v.now) out.old back.new out.new }
{
    capi::blathersike_pack(v, out, back);
}

// Packed record to vector.
#[unsafe(no_mangle)]
pub extern "C" fn blathersike_unpack(s: &[u8], out: &mut [u16], back: &mut [u64; 2])
    ensures { Hands (unpack_call s.now) out.old back.new out.new }
{
    capi::blathersike_unpack(s, out, back);
}

// Queue Shuffle.
#[unsafe(no_mangle)]
pub extern "C" fn blathersike_shuffle(
    v: &[u16],
    new: &mut [u16],
    out: &mut [u16],
    back: &mut [u64; 2],
)
    ensures { Hands (shuffle_call v.now) (new.old, out.old) back.new (new.new, out.new) }
{
    capi::blathersike_shuffle(v, new, out, back);
}

// The vector of the tree with leaf x relabelled p(x).
#[unsafe(no_mangle)]
pub extern "C" fn blathersike_relabel(v: &[u16], p: &[u16], out: &mut [u16], back: &mut [u64; 2])
    ensures { Hands (relabel_call v.now p.now) out.old back.new out.new }
{
    capi::blathersike_relabel(v, p, out, back);
}

// Vectors of one run to an archive.
#[unsafe(no_mangle)]
pub extern "C" fn blathersike_write_archive(
    leaves: usize,
    entries: &[u16],
    out: &mut [u8],
    back: &mut [u64; 2],
)
    ensures { Hands (write_archive_call leaves entries.now) out.old back.new out.new }
{
    capi::blathersike_write_archive(leaves, entries, out, back);
}

// A tree of an archive to its vector.
#[unsafe(no_mangle)]
pub extern "C" fn blathersike_read_tree(
    archive: &[u8],
    tree: usize,
    out: &mut [u16],
    back: &mut [u64; 2],
)
    ensures { Hands (read_tree_call archive.now tree) out.old back.new out.new }
{
    capi::blathersike_read_tree(archive, tree, out, back);
}

// The part of an archive that is the record of a tree: where it starts, and how many bytes it has.
#[unsafe(no_mangle)]
pub extern "C" fn blathersike_view(archive: &[u8], tree: usize, part: &mut [u64; 2])
    ensures { part.new ≡ (part_of archive.now tree).0 ∷ (part_of archive.now tree).1 ∷ [] }
{
    capi::blathersike_view(archive, tree, part);
}

// The clade table of an archive.
#[unsafe(no_mangle)]
pub extern "C" fn blathersike_clade_table(archive: &[u8], out: &mut [Clade], back: &mut [u64; 2])
    ensures { Hands (clade_table_call archive.now) out.old back.new out.new }
{
    capi::blathersike_clade_table(archive, out, back);
}
