// Bits put into bytes, most significant first, by a word of eight bytes.
#![tactic(auto)]

ghost use Rattle.std.specs.Prelude.{◌≡◌, ◌+◌, ◌≤◌, ◌<◌, ◌^◌, length};
ghost use Rattle.bit_writer.specs.Pending.{Begun, Room, Put, word_stored};

/// Bits on their way into bytes that are lent: how many there are. Those that begin a byte and do not fill it are the low bits of `acc`.
#[derive(Drop)]
pub struct Writer<'a> {
    pub out: &'a mut [u8],
    pub acc: u64,
    pub bits: usize,
}

/// No bits are held.
pub fn begin<'a>(out: &'a mut [u8]) -> Writer<'a>
    ensures { Begun out.entry result }
{
    Writer {
        out,
        acc: 0,
        bits: 0,
    }
}

// Stores the eight bytes of a word.
#[tactic(auto, unfolding(crate::specs::Pending::word_stored))]
fn store_word(out: &mut [u8], at: usize, word: u64)
    requires { at + 8 ≤ length out.old }
    ensures { out.new ≡ word_stored out.old at word }
{
    out[at..at + 8].copy_from_slice(&word.to_be_bytes());
}

/// Appends the `width` bits of x, one at least, by a word that ends in zero bits.
pub fn put_bits<'a>(w: Writer<'a>, width: u32, x: u64) -> Writer<'a>
    requires { (1 ≤ width) × (width ≤ 56) × (x < 2 ^ width) × Room w }
    ensures { Put w.entry width x result }
{
    let Writer { out, acc, bits } = w;
    let next = (acc << width) | x;
    let have = (bits % 8) as u32 + width;
    store_word(out, bits / 8, next << (64 - have));
    Writer {
        out,
        acc: next,
        bits: bits + width as usize,
    }
}

/// Appends the `width` bits of x, or nothing where it has none.
pub fn put_field<'a>(w: Writer<'a>, width: u32, x: u64) -> Writer<'a>
    requires { (width ≤ 56) × (x < 2 ^ width) × Room w }
    ensures { Put w.entry width x result }
{
    if width == 0 {
        return w;
    }
    put_bits(w, width, x)
}
