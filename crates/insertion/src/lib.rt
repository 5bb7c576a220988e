// A name goes into a list that grows at both ends: the shorter side moves.
#![tactic(auto)]

ghost use Rattle.std.specs.Prelude.{◌≡◌, ◌+◌, ◌-◌, ◌<◌, ◌≤◌, length, take, drop};
ghost use Rattle.insertion.specs.Moved.{ins, moved};

// The `count` names that end at `at` move down by one place, over the name before them, and w follows them.
fn move_down(list: &mut [u16], at: usize, count: usize, w: u16)
    requires { (count ≤ at) × (at < length list.old) }
    ensures { list.new ≡ moved (at - count) at w list.old }
{
    let e = at - count;
    for k in 0..count {
        list[e + k] = list[e + k + 1];
    }
    list[at] = w;
}

// The `count` names from `at` on move up by one place, over the name behind them, and w stands before them.
fn move_up(list: &mut [u16], at: usize, count: usize, w: u16)
    requires { at + count < length list.old }
    ensures { list.new ≡ moved (at + count) at w list.old }
{
    for k in (0..count).rev() {
        list[at + k + 1] = list[at + k];
    }
    list[at] = w;
}

// A count of sixteens that is enough for k: a loop of whole blocks has no rest to move one by one. So the loops above go over a count,
// and not from place to place, where the compiler no longer sees that it is one of sixteens: a third more instructions when this was tried.
// Nor is it copy_within that moves them: with it the rows of a vector took a twentieth more, for its test of the direction.
fn blocks(k: usize) -> usize
    requires { k ≤ 1024 }
    ensures { (k ≤ result) × (result ≤ k + 15) }
{
    (k + 15) / 16 * 16
}

/// Puts w before number s of the m names that start at lo, by moving the shorter side and some of what lies beyond it. The
/// result is where the names start then.
pub fn insert(list: &mut [u16], lo: usize, m: usize, s: usize, w: u16) -> usize
    requires { (16 ≤ lo) × (s ≤ m) × (m ≤ 1024) × (lo + m + 16 ≤ length list.old) }
    ensures { (result ≤ lo) × (lo ≤ result + 1) × (take (m + 1) (drop result list.new) ≡ ins s w (take m (drop lo list.old))) }
{
    if s < m - s {
        let at = lo - 1 + s;
        move_down(list, at, blocks(s), w);
        return lo - 1;
    }
    let at = lo + s;
    move_up(list, at, blocks(m - s), w);
    lo
}
