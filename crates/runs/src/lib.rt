// The width of an entry's field, and where entries of one width end.
#![tactic(auto)]

ghost use Rattle.std.specs.Prelude.{◌≡◌, ◌+◌, ◌%◌, ◌≤◌, ◌<◌};
ghost use Rattle.rules.specs.Record.{width};
ghost use Rattle.runs.specs.Runs.{Fours, Run};

/// The first entry of the first four: from it on four entries at a time have one width.
pub const FIRST_FOUR: usize = 5;

/// As many bits as the number 2(i-1) needs.
pub fn field_width(i: usize) -> u32
    requires { (1 ≤ i) × (i ≤ 1024) }
    ensures { result ≡ width i }
{
    32 - u32::leading_zeros((2 * (i - 1)) as u32)
}

/// Where the entries of one width from i on end, or end where they end later.
pub fn run_end(i: usize, end: usize) -> usize
    requires { Fours i end × (i < end) × (end ≤ 1024) }
    ensures { (i < result) × (result ≤ end) × Run i result }
{
    ((1usize << (field_width(i) - 1)) + 1).min(end)
}

/// Where the fours from entry `first` on end, so that `behind` entries at least follow them.
pub fn fours_end(first: usize, behind: usize, n: usize) -> usize
    requires { (first ≤ n) × (n ≤ 1024) × (behind ≤ 1024) }
    ensures { (first ≤ result) × (result ≤ n) × (result % 4 ≡ first % 4) × (first < result → result + behind ≤ n) }
{
    first + n.saturating_sub(first + behind) / 4 * 4
}
