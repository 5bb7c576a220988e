// Every vector for n from 1 to 6, the vectors of one n in the order of their entries from the front.
#![tactic(auto)]

ghost use Rattle.std.specs.Prelude.{◌≤◌, length};

// Makes v the next vector, and answers true; or makes it the first, all zeros, where it was the last.
fn next(v: &mut [u16]) -> bool
    requires { length v.old ≤ 6 }
{
    for i in (1..v.len()).rev() {
        if usize::from(v[i]) < 2 * (i - 1) {
            v[i] += 1;
            return true;
        }
        v[i] = 0;
    }
    false
}

// The lines of every vector of N entries. No N has more than 945, which are those of 6.
fn vectors<const N: usize>()
    requires { N ≤ 6 }
{
    let mut v = [0u16; N];
    for _ in 0..945 {
        call_lines::there_and_back(&v);
        call_lines::by_archive(&v);
        call_lines::shuffle(&v);
        if !next(&mut v) {
            return;
        }
    }
}

fn main() {
    vectors::<1>();
    vectors::<2>();
    vectors::<3>();
    vectors::<4>();
    vectors::<5>();
    vectors::<6>();
}
