// The leaf sets of the merges of a vector, leaf x as bit x: those of the clades of two leaves or more.
#![tactic(auto)]

ghost use Rattle.std.specs.Prelude.{◌≡◌, ◌++◌, ◌-◌, ◌≤◌, length, take, drop};
ghost use Rattle.rules.specs.Vector.{Vector};
ghost use Rattle.clade_passes.specs.Merged.{vector_sets};
ghost use Rattle.leaf_sets.specs.Bits.{Bits};
ghost use Rattle.leaf_sets.specs.Merging.{BeforeSets, held_sets};

use merges::Merges;

/// The leaf sets of single leaves.
pub fn leaf_bits(bits: &mut [u64])
    requires { length bits.old ≡ 64 }
    ensures { Bits 64 bits.new }
{
    for x in 0..64 {
        bits[x] = 1 << x;
    }
}

// The leaf set of each of n-1 merges: that of its two clusters, which are one from then on.
fn merged_sets(merges: &Merges, n: usize, clusters: &mut [u64], sets: &mut [u64])
    requires { BeforeSets merges.now.list merges.now.small merges.now.start n clusters.old × (n - 1 ≤ length sets.old) }
    ensures { sets.new ≡ held_sets merges.now.list merges.now.small merges.now.start n ++ drop (n - 1) sets.old }
{
    for t in 0..n - 1 {
        let (a, b) = merges.pair(t);
        let both = clusters[a] + clusters[b];
        clusters[a] = both;
        sets[t] = both;
    }
}

/// The leaf sets of the merges of v, in their order, at the front of sets. The merges and the clusters are room to work in.
pub fn sets_of(v: &[u16], bits: &[u64], merges: &mut Merges, clusters: &mut [u64], sets: &mut [u64])
    requires vector { Vector v.now × (length v.now ≤ 64) × (length bits.now ≡ 64) × Bits 64 bits.now }
    requires list_len { (length clusters.old ≡ 64) × (length sets.old ≡ 64) }
    ensures { take (length v.now - 1) sets.new ≡ vector_sets v.now }
{
    let n = v.len();
    lists::copy(bits, n, clusters);
    merges.fill(v);
    merged_sets(merges, n, clusters, sets);
}
