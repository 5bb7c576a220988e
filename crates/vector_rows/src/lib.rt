// The rows of a vector, by their children.
#![tactic(auto)]

ghost use Rattle.std.specs.Prelude.{◌≡◌, ◌++◌, map, ◌-◌, length, drop};
ghost use Rattle.rules.specs.Vector.{Vector};
ghost use Rattle.written_tables.specs.Rows.{first, second, vector_rows};
ghost use Rattle.numbering.specs.Numbered.{held_rows, BeforeRows};

use merges::{Merges, ROOM};

// The merges of v, and each leaf as its own node.
fn held_merges(v: &[u16], merges: &mut Merges, number: &mut [u16])
    requires { Vector v.now × (length number.old ≡ 1024) }
    ensures { BeforeRows merges.new.list merges.new.small merges.new.start (length v.now) number.new
        × (held_rows merges.new.list merges.new.small merges.new.start (length v.now) ≡ vector_rows v.now) }
{
    lists::number_leaves(number, v.len());
    merges.fill(v);
}

/// The children of the rows of v's table.
pub fn rows_of(v: &[u16], left: &mut [u16], right: &mut [u16])
    requires { Vector v.now × (length left.old ≡ 1024) × (length right.old ≡ 1024) }
    ensures left_after { left.new ≡ map first (vector_rows v.now) ++ drop (length v.now - 1) left.old }
    ensures right_after { right.new ≡ map second (vector_rows v.now) ++ drop (length v.now - 1) right.old }
{
    let mut merges = Merges {
        list: [0; ROOM],
        small: [0; 1024],
        start: 0,
    };
    let mut number = [0u16; 1024];
    held_merges(v, &mut merges, &mut number);
    numbering::children(&merges, v.len(), &mut number, left, right);
}
