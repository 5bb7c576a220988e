// The entries of a record, one with its n or one of an archive, read and checked.
#![tactic(auto)]

ghost use Rattle.std.specs.Prelude.{◌≡◌, ◌≤◌, MatchOption, length, take};
ghost use Rattle.std.proofs.Math.Option.{none, some};
ghost use Rattle.rules.specs.Vector.{fault};
ghost use Rattle.record.specs.Filled.{Filled};
ghost use Rattle.record_entries.specs.Contains.{Contains};

/// What is wrong with fields or the padding behind them: the first entry above its bound; or that a padding bit is set.
#[derive(Clone, Copy)]
pub enum EntryFault {
    Entry(usize),
    Padding,
}

// The first of the first n entries above its bound.
fn first_fault_of(v: &[u16], n: usize) -> Option<usize>
    requires { (n ≤ 1024) × (n ≤ length v.now) }
    ensures { MatchOption result (fault 0 (take n v.now) ≡ none) (λ i. fault 0 (take n v.now) ≡ some i) }
{
    vector::first_fault(&v[..n])
}

/// Reads the n entries whose fields start at a bit into the front of vector, and checks them and the padding.
pub fn read_entries(s: &[u8], start: usize, n: usize, vector: &mut [u16]) -> Result<(), EntryFault>
    requires { Filled s.now start n × (n ≤ length vector.old) }
    ensures { Contains s.now start n vector.new result }
{
    let padded = record::read_record(s, start, n, vector);
    if let Some(i) = first_fault_of(vector, n) {
        return Err(EntryFault::Entry(i));
    }
    if padded {
        return Err(EntryFault::Padding);
    }
    Ok(())
}
