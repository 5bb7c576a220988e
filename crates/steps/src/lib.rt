// Adding 1 to every count above a place, without a test for each.
//
// Counts get 0s and then 1s added, from where the last 0 meets the place. No test stands in the loop, so that it becomes vector code.
#![tactic(auto)]

ghost use Rattle.std.specs.Prelude.{◌≡◌, ℕ, ◌+◌, ◌*◌, ◌/◌, ◌<◌, ◌≤◌, length, get_or};
ghost use Rattle.steps.specs.Steps.{Steps, Added};
ghost use Rattle.steps.specs.Summed.{Addable, Summed};

use std::ops::Add;

// Adds so many steps from one place on to the counts from another on.
fn add_steps<T: Add<T, Output = T> + Copy, const COUNT: usize>(
    counts: &mut [T],
    at: usize,
    steps: &[T],
    from: usize,
)
    requires counts_room { at + COUNT ≤ length counts.old }
    requires steps_room { from + COUNT ≤ length steps.now }
    requires addable { Addable T.can_add at counts.old from steps.now COUNT }
    ensures { Summed T.add_gives at counts.old from steps.now counts.new COUNT }
{
    for k in 0..COUNT {
        counts[at + k] = counts[at + k] + steps[from + k];
    }
}

/// One member more in block w.
pub fn add_to_blocks(blocks: &mut [u16], steps: &[u16], w: usize)
    requires blocks_len { (length blocks.old ≡ 16) × (w < 16) }
    requires by_index { (x : ℕ) → x < 16 → get_or blocks.old x 0 ≤ 1024 }
    requires steps { Steps 16 steps.now }
    ensures { Added w blocks.old blocks.new 16 }
{
    add_steps::<u16, 16>(blocks, 0, steps, 15 - w);
}

/// One member more, i, in the block of i.
pub fn add_to_names(names: &mut [u8], steps: &[u8], i: usize)
    requires names_len { (length names.old ≡ 1024) × (i < 1024) }
    requires by_index { (x : ℕ) → x < 1024 → get_or names.old x 0 ≤ 63 }
    requires steps { Steps 64 steps.now }
    ensures { Added i names.old names.new (64 * (i / 64) + 64) }
{
    add_steps::<u8, 64>(names, 64 * (i / 64), steps, 63 - i % 64);
}
