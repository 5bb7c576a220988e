// The public calls between a vector and a merge table.
#![tactic(auto)]

ghost use Rattle.rules.specs.Promise.{Keeps};
ghost use Rattle.rules.specs.CallToTable.{to_table_call};
ghost use Rattle.rules.specs.CallFromTable.{from_table_call};

use answering::{hand_out, refuse};
use row_checks::RowFault;
use rules::{Answer, Kind};
use vector_calls::check;

/// Vector to merge table: 1, 4, 3.
pub fn to_table(v: &[u16], out: &mut [u16]) -> Answer
    ensures { Keeps (to_table_call v.now) out.old result out.new }
{
    match check(v) {
        Answer::Refused(why) => Answer::Refused(why),
        Answer::Done(_) => {
            let needed = 3 * (v.len() - 1);
            if out.len() < needed {
                return refuse(Kind::Room, needed);
            }
            table::write_table(v, out);
            Answer::Done(needed)
        }
    }
}

/// Merge table to vector: 1, 2, then 5, 6 and 7 row by row, 3.
pub fn from_table(leaves: usize, rows: &[u16], out: &mut [u16]) -> Answer
    ensures { Keeps (from_table_call leaves rows.now) out.old result out.new }
{
    if leaves == 0 {
        return refuse(Kind::LeafCount, 0);
    }
    if 1024 < leaves {
        return refuse(Kind::LeafCount, 0);
    }
    let wanted = 3 * (leaves - 1);
    if rows.len() != wanted {
        return refuse(Kind::InputLength, wanted);
    }
    let mut vector = [0u16; 1024];
    match table_order::table_vector(leaves, rows, &mut vector) {
        Ok(()) => hand_out(&vector, leaves, out),
        Err(RowFault::Parent(t)) => refuse(Kind::Parent, t),
        Err(RowFault::Child(t)) => refuse(Kind::Child, t),
        Err(RowFault::NamedBefore(t)) => refuse(Kind::NamedBefore, t),
    }
}
