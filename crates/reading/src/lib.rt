// The rows of a table, checked and added to the chains one by one.
#![tactic(auto)]

ghost use Rattle.reading.specs.Reading.{Reads};
ghost use Rattle.reading.specs.Told.{HasRead};

use chains::Chains;
use row_checks::{MARK, RowFault};

/// Reads the rows of a table with n leaves: the first that is refused, or none, and then the chains hold the tree.
/// A sum of two names tells whether one is a mark, since the others are below 1024.
pub fn read_rows(n: usize, rows: &[u16], chains: &mut Chains) -> Result<(), RowFault>
    requires { Reads n rows.now 0 chains.old.names chains.old.lows chains.old.small chains.old.next chains.old.last }
    ensures { HasRead n rows.now chains.new.names chains.new.lows chains.new.small chains.new.next chains.new.last result }
{
    for t in 0..n - 1 {
        let p = n + t;
        let l = usize::from(rows[3 * t]);
        let r = usize::from(rows[3 * t + 1]);
        let parent = usize::from(rows[3 * t + 2]);
        row_checks::check_numbers(t, p, l, r, parent)?;
        let x = row_checks::take_name(&mut chains.names, l);
        let y = row_checks::take_name(&mut chains.names, r);
        let s = x + y;
        if usize::from(MARK) <= s {
            return Err(RowFault::NamedBefore(t));
        }
        let i = x.max(y);
        chains.add_pair(p, l, r, s - i, i);
    }
    Ok(())
}
