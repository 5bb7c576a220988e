// The lines of the programs `samples` and `every`: one a call, `CALL INPUTS : ANSWER : WRITTEN`, in the notation of the second
// program. A call that makes a table, a text or a record is lent its buffer, and what it wrote comes back, so that it can be read.
#![tactic(auto)]

ghost use Rattle.std.specs.Prelude.{◌≤◌, length};

use printing::{Hex, Listed, Shown, Text, begin, line};
use rules::Answer;

// What an answer says was written: nothing where it refuses or says more than there is room for.
fn written<T>(given: Answer, out: &[T]) -> &[T]
    ensures { length result.now ≤ length out.now }
{
    match given {
        Answer::Done(count) => out.get(..count).unwrap_or(&[]),
        Answer::Refused(_) => &[],
    }
}

pub fn check(v: &[u16]) {
    let given = trees::check(v);
    line(format_args!("check {} : {} : -", Listed(v), Shown(given)));
}

pub fn to_table<'a>(v: &[u16], out: &'a mut [u16]) -> &'a [u16]
    ensures { length result.now ≤ length out.old }
{
    let given = trees::to_table(v, out);
    let rows = written(given, out);
    line(format_args!(
        "to_table {} : {} : {}",
        Listed(v),
        Shown(given),
        Listed(rows)
    ));
    rows
}

pub fn from_table(leaves: usize, rows: &[u16]) {
    let mut out = [0u16; 1024];
    let given = trees::from_table(leaves, rows, &mut out);
    let v = written(given, &out);
    line(format_args!(
        "from_table {leaves} {} : {} : {}",
        Listed(rows),
        Shown(given),
        Listed(v)
    ));
}

pub fn to_newick<'a>(v: &[u16], out: &'a mut [u8]) -> &'a [u8]
    ensures { length result.now ≤ length out.old }
{
    let given = trees::to_newick(v, out);
    let text = written(given, out);
    line(format_args!(
        "to_newick {} : {} : {}",
        Listed(v),
        Shown(given),
        Text(text)
    ));
    text
}

pub fn from_newick(text: &[u8]) {
    let mut out = [0u16; 1024];
    let given = trees::from_newick(text, &mut out);
    let v = written(given, &out);
    begin("from_newick ");
    printing::raw(text);
    line(format_args!(" : {} : {}", Shown(given), Listed(v)));
}

pub fn pack<'a>(v: &[u16], out: &'a mut [u8]) -> &'a [u8]
    ensures { length result.now ≤ length out.old }
{
    let given = trees::pack(v, out);
    let record = written(given, out);
    line(format_args!("pack {} : {} : {}", Listed(v), Shown(given), Hex(record)));
    record
}

pub fn unpack(record: &[u8]) {
    let mut out = [0u16; 1024];
    let given = trees::unpack(record, &mut out);
    let v = written(given, &out);
    line(format_args!("unpack {} : {} : {}", Hex(record), Shown(given), Listed(v)));
}

// What a shuffle wrote is the permutation, a space and the vector. Where it is refused that is nothing.
pub fn shuffle(v: &[u16]) {
    let mut new = [0u16; 1024];
    let mut out = [0u16; 1024];
    let given = trees::shuffle(v, &mut new, &mut out);
    match given {
        Answer::Done(_) => {
            let permutation = written(given, &new);
            let shuffled = written(given, &out);
            line(format_args!(
                "shuffle {} : {} : {} {}",
                Listed(v),
                Shown(given),
                Listed(permutation),
                Listed(shuffled)
            ));
        }
        Answer::Refused(_) => line(format_args!("shuffle {} : {} : -", Listed(v), Shown(given))),
    }
}

pub fn relabel(v: &[u16], p: &[u16]) {
    let mut out = [0u16; 1024];
    let given = trees::relabel(v, p, &mut out);
    let relabelled = written(given, &out);
    line(format_args!(
        "relabel {} {} : {} : {}",
        Listed(v),
        Listed(p),
        Shown(given),
        Listed(relabelled)
    ));
}

pub fn write_archive<'a>(leaves: usize, entries: &[u16], out: &'a mut [u8]) -> &'a [u8]
    ensures { length result.now ≤ length out.old }
{
    let given = trees::write_archive(leaves, entries, out);
    let archive = written(given, out);
    line(format_args!(
        "write_archive {leaves} {} : {} : {}",
        Listed(entries),
        Shown(given),
        Hex(archive)
    ));
    archive
}

pub fn read_tree(archive: &[u8], tree: usize) {
    let mut out = [0u16; 1024];
    let given = trees::read_tree(archive, tree, &mut out);
    let v = written(given, &out);
    line(format_args!(
        "read_tree {} {tree} : {} : {}",
        Hex(archive),
        Shown(given),
        Listed(v)
    ));
}

// It has no answer, but a place and a length.
pub fn view(archive: &[u8], tree: usize) {
    let part = trees::part(archive, tree);
    let start = part.start;
    let length = part.length;
    let viewed = trees::view(archive, tree);
    line(format_args!(
        "view {} {tree} : part {start} {length} : {}",
        Hex(archive),
        Hex(viewed)
    ));
}

// A vector to each form and each form back to a vector.
pub fn there_and_back(v: &[u16]) {
    let mut rows = [0u16; 3069];
    let mut text = [0u8; 6056];
    let mut record = [0u8; 1280];
    from_table(v.len(), to_table(v, &mut rows));
    from_newick(to_newick(v, &mut text));
    unpack(pack(v, &mut record));
}

// A vector to the archive of this one tree, and its record and itself from there.
pub fn by_archive(v: &[u16]) {
    let mut buffer = [0u8; 1284];
    let archive = write_archive(v.len(), v, &mut buffer);
    read_tree(archive, 0);
    view(archive, 0);
}
