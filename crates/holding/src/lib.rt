// The bytes of a record as the listing program holds them: how many there are to be, decided by the first two.
#![tactic(auto)]

ghost use Rattle.std.specs.Prelude.{◌≡◌};
ghost use Rattle.holding.specs.Wanted.{bytes_wanted};

/// How many bytes belong to the record that begins with s: two where s has fewer, or where its leaf count is wrong, else the
/// record's length.
pub fn bytes_wanted(s: &[u8]) -> usize
    ensures { result ≡ bytes_wanted s.now }
{
    if s.len() < 2 {
        return 2;
    }
    let leaves = lengths::leaf_count(s);
    if leaves == 0 {
        return 2;
    }
    if 1024 < leaves {
        return 2;
    }
    lengths::record_length(leaves)
}
