// The cases of the calls about an archive, one at a time, as `calls` runs those of the others. The run stops at the end of the stream, and
// where a part of a case is not whole.
#![tactic(auto)]

use case_lines::{Case, MOST_CASES, hash};
use case_stream::{Call, lent, list, long_number, next_call};
use printing::line;

fn main() {
    let mut numbers = [0u16; 8192];
    let mut archive = [0u8; 8192];
    let mut bytes = [0u8; 8192];
    for index in 0..MOST_CASES {
        if case(index, &mut numbers, &mut archive, &mut bytes).is_none() {
            return;
        }
    }
}

// The next case, where there is one. Of what is lent to every case, numbers is for entries that are given or made, archive for an archive that
// is given, bytes for one that is made.
fn case(index: usize, numbers: &mut [u16], archive: &mut [u8], bytes: &mut [u8]) -> Option<()> {
    let call = next_call()?;
    let case = Case { index, call };
    match call {
        Call::WriteArchive => write_archive(case, numbers, bytes),
        Call::ReadTree => read_tree(case, archive, numbers),
        Call::View => view(case, archive),
        _ => None,
    }
}

fn write_archive(case: Case, entries: &mut [u16], out: &mut [u8]) -> Option<()> {
    let leaves = long_number();
    let entries = list(entries)?;
    let out = lent(out)?;
    let given = trees::write_archive(leaves, entries, out);
    case.write(given, out);
    Some(())
}

fn read_tree(case: Case, archive: &mut [u8], out: &mut [u16]) -> Option<()> {
    let archive = list(archive)?;
    let tree = long_number();
    let out = lent(out)?;
    let given = trees::read_tree(archive, tree, out);
    case.write(given, out);
    Some(())
}

// Where the part stands, and a hash of its bytes. Where the input ends in the tree's number it is any number, and the next case is none.
fn view(case: Case, archive: &mut [u8]) -> Option<()> {
    let archive = list(archive)?;
    let tree = long_number();
    let part = trees::part(archive, tree);
    let start = part.start;
    let length = part.length;
    let viewed = trees::view(archive, tree);
    line(format_args!("{case} part {start} {length} {:08x}", hash(viewed)));
    Some(())
}
