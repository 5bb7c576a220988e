// The check of vectors one after another in a list: the first entry above its bound.
#![tactic(auto)]

ghost use Rattle.std.specs.Prelude.{◌≡◌, ◌*◌, ◌/◌, ◌≤◌, MatchOption, length};
ghost use Rattle.std.proofs.Math.Option.{none, some};
ghost use Rattle.rules.specs.CallWriteArchive.{cut, fault_in};
ghost use Rattle.archive_faults.specs.FaultIn.{first_fault_in};

/// The index in the list of the first entry above its bound, or None where each is within its bound. Each vector has n entries.
pub fn first_fault_in(entries: &[u16], n: usize) -> Option<usize>
    requires { (1 ≤ n) × (n ≤ 1024) × (length entries.now ≡ length entries.now / n * n) }
    ensures fault { MatchOption result
        (fault_in 0 (cut n (length entries.now / n) entries.now) ≡ none)
        (λ i. fault_in 0 (cut n (length entries.now / n) entries.now) ≡ some i) }
    ensures number { MatchOption result (length entries.now ≡ first_fault_in n entries.now) (λ i. i ≡ first_fault_in n entries.now) }
{
    for at in (0..entries.len()).step_by(n) {
        if let Some(i) = vector::first_fault(&entries[at..at + n]) {
            return Some(at + i);
        }
    }
    None
}
