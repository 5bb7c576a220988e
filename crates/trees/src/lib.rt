// The public calls, under one name. Each keeps its promise for all inputs: its answer and every element of every lent buffer, as the
// crate `rules` says it (Promise), for the call that stands there in a file of its own. Each refusal is named by its number in the table
// of refusals; the order of the numbers is the order of the checks.
#![tactic(auto)]

// check(v): whether v is a vector: 1, 4.
pub use vector_calls::check;

// to_table(v, out): vector to merge table: 1, 4, 3.
pub use table_calls::to_table;

// from_table(leaves, rows, out): merge table to vector: 1, 2, then 5, 6 and 7 row by row, 3.
pub use table_calls::from_table;

// to_newick(v, out): vector to Newick: 1, 4, 3.
pub use text_calls::to_newick;

// from_newick(text, out): Newick to vector: 2 (above 6,056 bytes), 8, 1, then 9 and 13 label by label, 3.
pub use text_calls::from_newick;

// pack(v, out): vector to packed record: 1, 4, 3.
pub use record_calls::pack;

// unpack(s, out): packed record to vector: 2 (under 2 bytes), 1, 2 (not the record's length), 4, 10, 3.
pub use record_calls::unpack;

// shuffle(v, new, out): Queue Shuffle: the permutation and the vector of the relabelled tree: 1, 4, 3.
pub use label_calls::shuffle;

// relabel(v, p, out): the vector of the tree with leaf x relabelled p(x): 1, 4, 2, 11, 3.
pub use label_calls::relabel;

// write_archive(leaves, entries, out): the vectors of one run, one after another in one list, to an archive: 1, 21, 2, 4, 3.
pub use archive_calls::write_archive;

// read_tree(archive, tree, out): a tree of an archive to its vector: 2 (under 4 bytes), 1, 2 (not the implied length), 12, 4, 10, 3.
pub use archive_calls::read_tree;

// part(archive, tree), view(archive, tree): the part of an archive that is the record of a tree, by its place and as bytes; empty where
// read_tree gives 1, 2 or 12.
pub use archive_calls::{part, view};

// clade_table(archive, out): the clades of an archive's trees: 2 (under 4 bytes), 1, 14, 2 (not the implied length), then 4 and 10 tree by tree, 15.
pub use clade_calls::clade_table;
