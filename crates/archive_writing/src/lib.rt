// The archive of vectors: its header, and their records one after another.
#![tactic(auto)]

ghost use Rattle.std.specs.Prelude.{◌≡◌, ◌++◌, ◌/◌, ◌<◌, ◌≤◌, length, drop};
ghost use Rattle.rules.specs.Archive.{header, implied_length, archive_of};
ghost use Rattle.rules.specs.CallWriteArchive.{cut};
ghost use Rattle.archive_writing.specs.Writing.{Writes};

use archive::HEADER_BYTES;

// The bits of the tree count.
const TREE_COUNT_BITS: u32 = 21;

// The bytes in which the header is built: a word behind the first of them.
const BUILT: usize = 9;

// The first bytes of `out` become the header; the others stay.
fn write_header(n: usize, count: usize, out: &mut [u8])
    requires { (n < 2048) × (count < 2097152) × (4 ≤ length out.old) }
    ensures { out.new ≡ header n count ++ drop 4 out.old }
{
    let mut built = [0u8; BUILT];
    let none = bit_writer::begin(&mut built);
    let leaves = bit_writer::put_bits(none, lengths::COUNT_BITS, n as u64);
    let both = bit_writer::put_bits(leaves, TREE_COUNT_BITS, count as u64);
    // Read through the writer: once it is gone, a proof knows no more of the array than its length.
    let done = both.out;
    lists::copy(done, HEADER_BYTES, out);
}

/// Writes the archive of valid vectors of n entries, one after another in a list, to the front of `out`. Each record has so many bytes.
pub fn write_archive(entries: &[u16], n: usize, bytes: usize, out: &mut [u8])
    requires { Writes n entries.now bytes (length out.old) }
    ensures { out.new
        ≡ archive_of n (cut n (length entries.now / n) entries.now)
        ++ drop (implied_length n (length entries.now / n)) out.old }
{
    let trees = entries.len() / n;
    write_header(n, trees, out);
    for t in 0..trees {
        let from = t * n;
        let at = HEADER_BYTES + t * bytes;
        packing::pack_bare(&entries[from..from + n], &mut out[at..at + bytes]);
    }
}
