// The table of a vector, written as rows.
#![tactic(auto)]

ghost use Rattle.std.specs.Prelude.{◌≡◌, ◌++◌, ◌-◌, ◌*◌, ◌≤◌, length, drop};
ghost use Rattle.rules.specs.Vector.{Vector};
ghost use Rattle.rules.specs.Table.{flat};
ghost use Rattle.written_tables.specs.Rows.{vector_rows};
ghost use Rattle.table.specs.Written.{child_rows};

// The rows with these children, three numbers each: the parent of row t is n+t. It is counted in 16 bits, as wide as the rows'
// numbers are, so that the loop becomes short vector code.
fn copy_rows(n: usize, left: &[u16], right: &[u16], out: &mut [u16])
    requires { (1 ≤ n) × (n ≤ 1024) × (n - 1 ≤ length left.now) × (n - 1 ≤ length right.now) × (3 * (n - 1) ≤ length out.old) }
    ensures { out.new ≡ flat (child_rows n left.now right.now) ++ drop (3 * (n - 1)) out.old }
{
    let mut parent = n as u16;
    for t in 0..n - 1 {
        out[3 * t] = left[t];
        out[3 * t + 1] = right[t];
        out[3 * t + 2] = parent;
        parent += 1;
    }
}

/// The table of v: the children of its rows are built in local arrays, and copied out as rows.
pub fn write_table(v: &[u16], out: &mut [u16])
    requires { Vector v.now × (3 * (length v.now - 1) ≤ length out.old) }
    ensures { out.new ≡ flat (vector_rows v.now) ++ drop (3 * (length v.now - 1)) out.old }
{
    let mut left = [0u16; 1024];
    let mut right = [0u16; 1024];
    vector_rows::rows_of(v, &mut left, &mut right);
    copy_rows(v.len(), &left, &right, out);
}
