// The cases of texts with blanks, one at a time, as `calls` runs those of all calls. The run stops at the end of the stream, and where a part
// of a case is not whole. A text that is given may have more bytes than any that is read.
#![tactic(auto)]

use case_lines::{Case, MOST_CASES, make};
use case_stream::{Call, next_call};

fn main() {
    let mut text = [0u8; 65600];
    let mut numbers = [0u16; 8192];
    for index in 0..MOST_CASES {
        if case(index, &mut text, &mut numbers).is_none() {
            return;
        }
    }
}

// The next case, where there is one.
fn case(index: usize, text: &mut [u8], numbers: &mut [u16]) -> Option<()> {
    let call = next_call()?;
    let case = Case { index, call };
    match call {
        Call::FromNewick => make(case, text, numbers, trees::from_newick),
        _ => None,
    }
}
