// Leaves renamed: in a row, in all rows of a vector, and the vector of the tree that these make.
#![tactic(auto)]

ghost use Rattle.std.specs.Prelude.{◌≡◌, [], ◌++◌, ◌≤◌, length, drop, map};
ghost use Rattle.std.proofs.Math.Option.{none};
ghost use Rattle.rules.specs.Vector.{Vector};
ghost use Rattle.rules.specs.Tree.{tree_of};
ghost use Rattle.rules.specs.Order.{vector_of};
ghost use Rattle.rules.specs.Shuffle.{renamed, permutation_fault};
ghost use Rattle.shuffle_laws.specs.Rows.{renamed_child};
ghost use Rattle.renaming.specs.VectorRows.{RowsOf};

// A child of a row with the leaves renamed by p: leaf x becomes p(x), and other nodes stay.
fn renamed_child(p: &[u16], child: u16) -> u16
    ensures { result ≡ renamed_child (length p.now) p.now child }
{
    let at = usize::from(child);
    if at < p.len() { p[at] } else { child }
}

// Renames all of these children.
fn rename(p: &[u16], children: &mut [u16])
    ensures { children.new ≡ map (renamed_child (length p.now) p.now) children.old }
{
    for child in children.iter_mut() {
        *child = renamed_child(p, *child);
    }
}

// The rows of v with their leaves renamed by p, and the vector of their tree at the front of vector.
pub fn rename_rows(v: &[u16], p: &[u16], left: &mut [u16], right: &mut [u16], vector: &mut [u16])
    requires rows_of { RowsOf v.now left.old right.old × (length v.now ≤ 1024) × (length v.now ≤ length vector.old) }
    requires p_len { (length p.now ≡ length v.now) × (permutation_fault (length v.now) 0 [] p.now ≡ none) }
    ensures { vector.new ≡ vector_of (renamed p.now (tree_of v.now)) ++ drop (length v.now) vector.old }
{
    let n = v.len();
    rename(p, &mut left[..n - 1]);
    rename(p, &mut right[..n - 1]);
    children_order::children_vector(n, left, right, vector);
}

// The vector of v's tree with leaf x renamed p(x), at the front of vector.
pub fn renamed_vector(v: &[u16], p: &[u16], vector: &mut [u16])
    requires vector { Vector v.now × (length v.now ≤ length vector.old) }
    requires p_len { (length p.now ≡ length v.now) × (permutation_fault (length v.now) 0 [] p.now ≡ none) }
    ensures { vector.new ≡ vector_of (renamed p.now (tree_of v.now)) ++ drop (length v.now) vector.old }
{
    let mut left = [0u16; 1024];
    let mut right = [0u16; 1024];
    vector_rows::rows_of(v, &mut left, &mut right);
    let mut entries = [0u16; 1024];
    rename_rows(v, p, &mut left, &mut right, &mut entries);
    lists::copy(&entries, v.len(), vector);
}
