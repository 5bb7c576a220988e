// A number in decimal, written to lent bytes. It knows nothing of trees: what stands above the public calls may use it too.
#![tactic(auto)]

ghost use Rattle.std.specs.Prelude.{◌+◌, ◌≤◌, ◌<◌, ◌≡◌, length};
ghost use Rattle.std.proofs.lemmas.List.Edits.{sets};
ghost use Rattle.rules.specs.Newick.{digits};
ghost use Rattle.grammar.specs.Decimal.{two_digits};
ghost use Rattle.digits.specs.Wrote.{Wrote};

// The sign of a digit.
fn sign(d: u16) -> u8
    requires { d < 10 }
    ensures { result ≡ 48 + d }
{
    (48 + d) as u8
}

// The two digits of x, at a place.
fn write_two(x: u16, out: &mut [u8], at: usize)
    requires { (x < 100) × (at + 2 ≤ length out.old) }
    ensures { out.new ≡ sets out.old at (two_digits x) }
{
    let tens = x / 10;
    out[at] = sign(tens);
    out[at + 1] = sign(x - 10 * tens);
}

// x in decimal, at a place. Most labels have three digits, so those take two tests. Divisions of a u16 are shorter than those of
// a usize.
pub fn write_label(x: usize, out: &mut [u8], at: usize) -> usize
    requires { (x < 10000) × (at + length (digits 4 x) ≤ length out.old) }
    ensures { Wrote (digits 4 x) at out.old out.new result }
{
    let y = x as u16;
    if y < 100 {
        if y < 10 {
            out[at] = sign(y);
            return at + 1;
        }
        write_two(y, out, at);
        return at + 2;
    }
    let hundreds = y / 100;
    let rest = y - 100 * hundreds;
    if y < 1000 {
        out[at] = sign(hundreds);
        write_two(rest, out, at + 1);
        return at + 3;
    }
    write_two(hundreds, out, at);
    write_two(rest, out, at + 2);
    at + 4
}
