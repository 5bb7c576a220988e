// Queue Shuffle of a vector: the new labels, and the vector of the relabelled tree.
#![tactic(auto)]

ghost use Rattle.std.specs.Prelude.{◌≡◌, ◌++◌, ◌≤◌, length, drop};
ghost use Rattle.rules.specs.Vector.{Vector};
ghost use Rattle.rules.specs.Tree.{tree_of};
ghost use Rattle.rules.specs.Order.{vector_of};
ghost use Rattle.rules.specs.Shuffle.{renamed, new_of};

use queue::Queue;

// Queue Shuffle of v's tree: the new labels at the front of new, the vector of the relabelled tree at the front of vector.
pub fn shuffled(v: &[u16], new: &mut [u16], vector: &mut [u16])
    requires { Vector v.now × (length v.now ≤ length new.old) × (length v.now ≤ length vector.old) }
    ensures after { new.new ≡ new_of (tree_of v.now) ++ drop (length v.now) new.old }
    ensures vector_after { vector.new ≡ vector_of (renamed (new_of (tree_of v.now)) (tree_of v.now)) ++ drop (length v.now) vector.old }
{
    let n = v.len();
    let mut left = [0u16; 1024];
    let mut right = [0u16; 1024];
    vector_rows::rows_of(v, &mut left, &mut right);
    let mut queue = Queue::empty();
    queue.shuffle(n, &left, &right);
    let mut entries = [0u16; 1024];
    renaming::rename_rows(v, &queue.given[..n], &mut left, &mut right, &mut entries);
    lists::copy(&queue.given, n, new);
    lists::copy(&entries, n, vector);
}
