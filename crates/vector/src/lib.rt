// The check of a vector: its first entry above its bound.
#![tactic(auto)]

ghost use Rattle.std.specs.Prelude.{◌≡◌, ℕ, ◌-◌, ◌*◌, ◌<◌, ◌≤◌, MatchOption, length, get_or};
ghost use Rattle.std.proofs.Math.Option.{none, some};
ghost use Rattle.rules.specs.Vector.{fault};
ghost use Rattle.vector.specs.Fault.{first_fault};

// 1 where x is above its bound, else 0.
fn excess(x: u16, bound: u16) -> u16
    ensures { (result ≤ 1) × (result ≡ 0 → x ≤ bound) }
{
    u16::from(bound < x)
}

// How many of the entries behind the first are above their bounds. No branch leaves this loop, so it becomes vector code.
fn faults_behind_first(v: &[u16]) -> u16
    requires { (1 ≤ length v.now) × (length v.now ≤ 1024) }
    ensures { result ≡ 0 → (k : ℕ) → 1 ≤ k → k < length v.now → get_or v.now k 0 ≤ 2 * (k - 1) }
{
    let mut faults: u16 = 0;
    for i in 1..v.len() {
        faults += excess(v[i], (2 * (i - 1)) as u16);
    }
    faults
}

// The number of the first entry above its bound, or None where each is within its bound. It stays a function of its own: inlined into check's C
// function, the search would take a quarter more instructions.
#[inline(never)]
pub fn first_fault(v: &[u16]) -> Option<usize>
    requires { length v.now ≤ 1024 }
    ensures fault { MatchOption result (fault 0 v.now ≡ none) (λ i. fault 0 v.now ≡ some i) }
    ensures number { MatchOption result (length v.now ≡ first_fault v.now) (λ i. i ≡ first_fault v.now) }
{
    let n = v.len();
    if n == 0 {
        return None;
    }
    if 0 < v[0] {
        return Some(0);
    }
    if faults_behind_first(v) == 0 {
        return None;
    }
    // From 1 on, and by places: over the entries with their places a refused vector would take twice the instructions.
    for i in 1..n {
        if 2 * (i - 1) < usize::from(v[i]) {
            return Some(i);
        }
    }
    None
}
