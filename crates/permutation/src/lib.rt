// The first fault of a permutation: a value that is not below n, or was used before.
#![tactic(auto)]

ghost use Rattle.std.specs.Prelude.{◌≡◌, [], ◌≤◌, MatchOption, replicate};
ghost use Rattle.std.proofs.Math.Option.{none, some};
ghost use Rattle.rules.specs.Shuffle.{permutation_fault};
ghost use Rattle.permutation.specs.Marks.{Mark};

// Whether x is below n and has no flag yet. If so it gets one. Flags are the numbers 0 and 1, as basics' Flagged has them.
fn mark(flags: &mut [u8; 1024], x: u16, n: usize) -> bool
    requires { n ≤ 1024 }
    ensures { Mark n x flags.old result flags.new }
{
    let at = usize::from(x);
    if at >= n {
        return false;
    }
    if flags[at] != 0 {
        return false;
    }
    flags[at] = 1;
    true
}

// The first fault of p as a permutation of 0 to n-1, with flags that are all 0.
fn first_fault(p: &[u16], n: usize, flags: &mut [u8; 1024]) -> Option<usize>
    requires { (n ≤ 1024) × (flags.old ≡ replicate 1024 0) }
    ensures { MatchOption result (permutation_fault n 0 [] p.now ≡ none) (λ i. permutation_fault n 0 [] p.now ≡ some i) }
{
    for (i, x) in p.iter().enumerate() {
        if !mark(flags, *x, n) {
            return Some(i);
        }
    }
    None
}

// The first index of p whose value is not below n, or was used before.
pub fn permutation_fault(p: &[u16], n: usize) -> Option<usize>
    requires { n ≤ 1024 }
    ensures { MatchOption result (permutation_fault n 0 [] p.now ≡ none) (λ i. permutation_fault n 0 [] p.now ≡ some i) }
{
    let mut flags = [0u8; 1024];
    first_fault(p, n, &mut flags)
}
