// The tie between the demands and the functions: each public function, and each C function, under the promise that the theorems of
// `demands` are about. A function whose contract promises less leaves its line here unproved. There is no proof file: both say the same.
#![tactic(auto)]

ghost use Rattle.rules.specs.Coded.{Hands};
ghost use Rattle.std.specs.Prelude.{[], ◌∷◌, ◌≡◌};
ghost use Rattle.rules.specs.CallView.{part_of, view};
ghost use Rattle.demands.specs.Calls.{checks, call_to_table, call_from_table, to_newick, from_newick, packs, unpacks, shuffles, relabels, writes_archive, reads_tree, call_clade_table};
ghost use Rattle.demands.proofs.Calls.{the};
ghost use Rattle.demands.proofs.Keeping.{Kept};

use rules::{Answer, Clade, Part};

pub fn check(v: &[u16]) -> Answer
    ensures { Kept (checks v.now) tt result tt }
{
    trees::check(v)
}

pub fn to_table(v: &[u16], out: &mut [u16]) -> Answer
    ensures { Kept (call_to_table v.now) out.old result out.new }
{
    trees::to_table(v, out)
}

pub fn from_table(leaves: usize, rows: &[u16], out: &mut [u16]) -> Answer
    ensures { Kept (call_from_table leaves rows.now) out.old result out.new }
{
    trees::from_table(leaves, rows, out)
}

pub fn to_newick(v: &[u16], out: &mut [u8]) -> Answer
    ensures { Kept (to_newick v.now) out.old result out.new }
{
    trees::to_newick(v, out)
}

pub fn from_newick(text: &[u8], out: &mut [u16]) -> Answer
    ensures { Kept (from_newick text.now) out.old result out.new }
{
    trees::from_newick(text, out)
}

pub fn pack(v: &[u16], out: &mut [u8]) -> Answer
    ensures { Kept (packs v.now) out.old result out.new }
{
    trees::pack(v, out)
}

pub fn unpack(s: &[u8], out: &mut [u16]) -> Answer
    ensures { Kept (unpacks s.now) out.old result out.new }
{
    trees::unpack(s, out)
}

pub fn shuffle(v: &[u16], new: &mut [u16], out: &mut [u16]) -> Answer
    ensures { Kept (shuffles v.now) (new.old, out.old) result (new.new, out.new) }
{
    trees::shuffle(v, new, out)
}

pub fn relabel(v: &[u16], p: &[u16], out: &mut [u16]) -> Answer
    ensures { Kept (relabels v.now p.now) out.old result out.new }
{
    trees::relabel(v, p, out)
}

pub fn write_archive(leaves: usize, entries: &[u16], out: &mut [u8]) -> Answer
    ensures { Kept (writes_archive leaves entries.now) out.old result out.new }
{
    trees::write_archive(leaves, entries, out)
}

pub fn read_tree(archive: &[u8], tree: usize, out: &mut [u16]) -> Answer
    ensures { Kept (reads_tree archive.now tree) out.old result out.new }
{
    trees::read_tree(archive, tree, out)
}

pub fn clade_table(archive: &[u8], out: &mut [Clade]) -> Answer
    ensures { Kept (call_clade_table archive.now) out.old result out.new }
{
    trees::clade_table(archive, out)
}

pub fn view<'a>(archive: &'a [u8], tree: usize) -> &'a [u8]
    ensures { result.now ≡ view archive.now tree }
{
    trees::view(archive, tree)
}

pub fn part(archive: &[u8], tree: usize) -> Part
    ensures { (result.start ≡ (part_of archive.now tree).0) × (result.length ≡ (part_of archive.now tree).1) }
{
    trees::part(archive, tree)
}

pub fn c_check(v: &[u16], back: &mut [u64; 2])
    ensures { Hands (the (checks v.now)).call tt back.new tt }
{
    capi::blathersike_check(v, back);
}

pub fn c_to_table(v: &[u16], out: &mut [u16], back: &mut [u64; 2])
    ensures { Hands (the (call_to_table v.now)).call out.old back.new out.new }
{
    capi::blathersike_to_table(v, out, back);
}

pub fn c_from_table(leaves: usize, rows: &[u16], out: &mut [u16], back: &mut [u64; 2])
    ensures { Hands (the (call_from_table leaves rows.now)).call out.old back.new out.new }
{
    capi::blathersike_from_table(leaves, rows, out, back);
}

pub fn c_to_newick(v: &[u16], out: &mut [u8], back: &mut [u64; 2])
    ensures { Hands (the (to_newick v.now)).call out.old back.new out.new }
{
    capi::blathersike_to_newick(v, out, back);
}

pub fn c_from_newick(text: &[u8], out: &mut [u16], back: &mut [u64; 2])
    ensures { Hands (the (from_newick text.now)).call out.old back.new out.new }
{
    capi::blathersike_from_newick(text, out, back);
}

pub fn c_pack(v: &[u16], out: &mut [u8], back: &mut [u64; 2])
    ensures { Hands (the (packs v.now)).call out.old back.new out.new }
{
    capi::blathersike_pack(v, out, back);
}

pub fn c_unpack(s: &[u8], out: &mut [u16], back: &mut [u64; 2])
    ensures { Hands (the (unpacks s.now)).call out.old back.new out.new }
{
    capi::blathersike_unpack(s, out, back);
}

pub fn c_shuffle(v: &[u16], new: &mut [u16], out: &mut [u16], back: &mut [u64; 2])
    ensures { Hands (the (shuffles v.now)).call (new.old, out.old) back.new (new.new, out.new) }
{
    capi::blathersike_shuffle(v, new, out, back);
}

pub fn c_relabel(v: &[u16], p: &[u16], out: &mut [u16], back: &mut [u64; 2])
    ensures { Hands (the (relabels v.now p.now)).call out.old back.new out.new }
{
    capi::blathersike_relabel(v, p, out, back);
}

pub fn c_write_archive(leaves: usize, entries: &[u16], out: &mut [u8], back: &mut [u64; 2])
    ensures { Hands (the (writes_archive leaves entries.now)).call out.old back.new out.new }
{
    capi::blathersike_write_archive(leaves, entries, out, back);
}

pub fn c_read_tree(archive: &[u8], tree: usize, out: &mut [u16], back: &mut [u64; 2])
    ensures { Hands (the (reads_tree archive.now tree)).call out.old back.new out.new }
{
    capi::blathersike_read_tree(archive, tree, out, back);
}

pub fn c_clade_table(archive: &[u8], out: &mut [Clade], back: &mut [u64; 2])
    ensures { Hands (the (call_clade_table archive.now)).call out.old back.new out.new }
{
    capi::blathersike_clade_table(archive, out, back);
}

pub fn c_view(archive: &[u8], tree: usize, part: &mut [u64; 2])
    ensures { part.new ≡ (part_of archive.now tree).0 ∷ (part_of archive.now tree).1 ∷ [] }
{
    capi::blathersike_view(archive, tree, part);
}
