// The queue of Queue Shuffle, over the rows of a tree: a leaf gets its new label, an inner node waits with its label.
#![tactic(auto)]

ghost use Rattle.std.specs.Prelude.{◌≡◌, [], ◌++◌, ◌+◌, ◌-◌, ◌<◌, ◌≤◌, drop, replicate};
ghost use Rattle.rules.specs.Shuffle.{new_of};
ghost use Rattle.shuffle_laws.specs.Handed.{outcome};
ghost use Rattle.shuffle_laws.specs.Zipped.{zipped_nodes, zipped_tree, Tabled};
ghost use Rattle.queue.specs.Waits.{queue_at, Waits, Lent, CanTake, Placed};

/// The queue: the inner nodes that joined it, in order, and their labels. Beside it the new labels of the leaves that have
/// theirs (`new` is no name for a field: clauses read it as what a reference points to afterwards).
#[derive(Drop)]
pub struct Queue {
    pub nodes: [u16; 1024],
    pub labels: [u16; 1024],
    pub given: [u16; 1024],
}

impl Queue {
    /// No node has joined, and no label is given.
    pub fn empty() -> Queue
        ensures { (result.nodes ≡ replicate 1024 0) × (result.labels ≡ replicate 1024 0) × (result.given ≡ replicate 1024 0) }
    {
        Queue {
            nodes: [0; 1024],
            labels: [0; 1024],
            given: [0; 1024],
        }
    }

    // A leaf gets its label; another node goes to the back of the queue with it. The result is where the queue ends then: as a field it
    // takes two instructions more for each node of the queue.
    fn place(&mut self, n: usize, child: u16, label: u16, tail: usize) -> usize
        requires { (n ≤ 1024) × (tail < 1024) }
        ensures { Placed n child label tail self.old.nodes self.old.labels self.old.given result self.new.nodes self.new.labels self.new.given }
    {
        let at = usize::from(child);
        if at < n {
            self.given[at] = label;
            return tail;
        }
        self.nodes[tail] = child;
        self.labels[tail] = label;
        tail + 1
    }

    // Takes the front of the queue: its first child keeps the label, the second takes the next label, which is the number of nodes
    // taken by then. Both join the queue, the keeper first. The result is where the queue ends then.
    fn take_front(
        &mut self,
        n: usize,
        head: usize,
        tail: usize,
        left: &[u16],
        right: &[u16],
    ) -> usize
        requires { CanTake n (zipped_nodes n left.now right.now) left.now right.now self.old.nodes self.old.labels head tail }
        ensures { Waits n (zipped_nodes n left.now right.now) self.new.nodes self.new.labels (head + 1) result 0
            × (outcome (n - 1 - head) (head + 1) (queue_at (zipped_nodes n left.now right.now) self.old.nodes self.old.labels head tail) [] self.old.given
            ≡ outcome (n - 1 - (head + 1)) (head + 1 + 1) (queue_at (zipped_nodes n left.now right.now) self.new.nodes self.new.labels (head + 1) result) [] self.new.given) }
    {
        let row = usize::from(self.nodes[head]) - n;
        let label = self.labels[head];
        let next = (head + 1) as u16;
        let first = left[row];
        let second = right[row];
        let mid = self.place(n, first, label, tail);
        self.place(n, second, next, mid)
    }

    /// Queue Shuffle over the rows of a tree with n leaves: row t's children are left[t] and right[t], the child with the smaller least
    /// leaf first. The first n elements of given become the new labels. It begins with an empty queue, which gets inner nodes only: a
    /// leaf's label is known when its parent is taken.
    pub fn shuffle(&mut self, n: usize, left: &[u16], right: &[u16])
        requires { Lent n left.now right.now × Tabled n left.now right.now }
        ensures { self.new.given ≡ new_of (zipped_tree n left.now right.now) ++ drop n self.old.given }
    {
        let root = 2 * n - 2;
        let mut tail = self.place(n, root as u16, 0, 0);
        for head in 0..n - 1 {
            tail = self.take_front(n, head, tail, left, right);
        }
    }
}
