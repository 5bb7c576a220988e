// Entries that are read from the fields in bytes, and the padding behind them.
#![tactic(auto)]

ghost use Rattle.std.specs.Prelude.{◌≡◌, ◌+◌, ◌≤◌, length, take, drop};
ghost use Rattle.rules.specs.Record.{bits_of, any_set};
ghost use Rattle.rules.specs.Archive.{field_bits};
ghost use Rattle.record_laws.specs.Fields.{entries_from};
ghost use Rattle.record.specs.Filled.{Filled};

// The entries behind the last four: their bits fill up its word.
const BEHIND: usize = 12;

/// Reads the n entries whose fields start at a bit into the front of `out`, and says whether a padding bit is set.
pub fn read_record(s: &[u8], start: usize, n: usize, out: &mut [u16]) -> bool
    requires { Filled s.now start n × (n ≤ length out.old) }
    ensures { (take n out.new ≡ entries_from start n s.now) × (result ≡ any_set (drop (start + field_bits n) (bits_of s.now))) }
{
    out[0] = 0;
    let first = runs::FIRST_FOUR.min(n);
    let last = runs::fours_end(first, BEHIND, n);
    let width = (8 * s.len() - start - lengths::field_bits(n)) as u32;
    let mut rest = [0u16; 1];
    fields::read_fields(s, start, first, last, n, width, out, &mut rest);
    rest[0] != 0
}
