// The cases of a stream, one at a time: each is read, its call is made with the buffers that it lends, and its line is written.
// The run stops at the end of the stream, and where a part of a case is not whole: the input ends in it, or it has more than
// 8,192 elements.
#![tactic(auto)]

use case_lines::{Case, MOST_CASES, hash, make};
use case_stream::{Call, lent, list, long_number, next_call};
use printing::{Shown, line};

fn main() {
    let mut v = [0u16; 8192];
    let mut p = [0u16; 8192];
    let mut out = [0u16; 8192];
    let mut bytes = [0u8; 8192];
    for index in 0..MOST_CASES {
        if case(index, &mut v, &mut p, &mut out, &mut bytes).is_none() {
            return;
        }
    }
}

// The next case, where there is one. Of what is lent to every case, v is for a vector or rows, p for a permutation that is given
// or made, out for other numbers made, bytes for a text or a record that is given or made.
fn case(
    index: usize,
    v: &mut [u16],
    p: &mut [u16],
    out: &mut [u16],
    bytes: &mut [u8],
) -> Option<()> {
    let call = next_call()?;
    let case = Case { index, call };
    match call {
        Call::Check => check(case, v),
        Call::ToTable => make(case, v, out, trees::to_table),
        Call::FromTable => from_table(case, v, out),
        Call::ToNewick => make(case, v, bytes, trees::to_newick),
        Call::FromNewick => make(case, bytes, out, trees::from_newick),
        Call::Pack => make(case, v, bytes, trees::pack),
        Call::Unpack => make(case, bytes, out, trees::unpack),
        Call::Shuffle => shuffle(case, v, p, out),
        Call::Relabel => relabel(case, v, p, out),
        _ => None,
    }
}

fn check(case: Case, v: &mut [u16]) -> Option<()> {
    let v = list(v)?;
    line(format_args!("{case} {}", Shown(trees::check(v))));
    Some(())
}

fn from_table(case: Case, rows: &mut [u16], out: &mut [u16]) -> Option<()> {
    let leaves = long_number();
    let rows = list(rows)?;
    let out = lent(out)?;
    let given = trees::from_table(leaves, rows, out);
    case.write(given, out);
    Some(())
}

fn shuffle(case: Case, v: &mut [u16], new: &mut [u16], out: &mut [u16]) -> Option<()> {
    let v = list(v)?;
    let new = lent(new)?;
    let out = lent(out)?;
    let given = trees::shuffle(v, new, out);
    line(format_args!(
        "{case} {} {:08x} {:08x}",
        Shown(given),
        hash(new),
        hash(out)
    ));
    Some(())
}

fn relabel(case: Case, v: &mut [u16], p: &mut [u16], out: &mut [u16]) -> Option<()> {
    let v = list(v)?;
    let p = list(p)?;
    let out = lent(out)?;
    let given = trees::relabel(v, p, out);
    case.write(given, out);
    Some(())
}
