// The vector of a table that is read.
#![tactic(auto)]

ghost use Rattle.std.specs.Prelude.{◌≡◌, ◌-◌, ◌*◌, ◌≤◌, length};
ghost use Rattle.table_order.specs.Told.{Told};

use chains::Chains;
use row_checks::RowFault;

/// Reads a table with n leaves: the first row that is refused, or none, and then vector begins with the vector of its tree.
pub fn table_vector(n: usize, rows: &[u16], vector: &mut [u16]) -> Result<(), RowFault>
    requires { (1 ≤ n) × (n ≤ 1024) × (length rows.now ≡ 3 * (n - 1)) × (n ≤ length vector.old) }
    ensures { Told n rows.now vector.old vector.new result }
{
    let mut chains = Chains::empty();
    chains.add_leaves(n);
    reading::read_rows(n, rows, &mut chains)?;
    order::vector_of(n, &chains, vector);
    Ok(())
}
