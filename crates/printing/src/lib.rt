// Answers, lists and bytes as they are printed on standard output, in the notation of the second program.
#![tactic(auto)]

use rules::Answer;
use std::fmt;
use std::fmt::Write;

// Standard output. A write that fails is passed over. std's own `print!` would call C's errno besides its read and write: one function more
// to be trusted.
#[derive(Drop)]
struct Output;

impl Write for Output {
    fn write_str(&mut self, s: &str) -> fmt::Result {
        io::write_all(1, s.as_bytes());
        Ok(())
    }
}

/// An answer: `done K` or `refused N P`.
#[derive(Clone, Copy)]
pub struct Shown(pub Answer);

impl fmt::Display for Shown {
    fn fmt<W: Write>(&self, f: &mut fmt::Formatter<W>) -> fmt::Result {
        match self.0 {
            Answer::Done(count) => write!(f, "done {count}"),
            Answer::Refused(why) => {
                let number = refusal_numbers::number_of(why.kind);
                write!(f, "refused {number} {}", why.place)
            }
        }
    }
}

/// Numbers with commas between them, or - where there are none, or # and how many there are where these are more than any vector has.
#[derive(Clone, Copy)]
pub struct Listed<'a>(pub &'a [u16]);

impl<'a> fmt::Display for Listed<'a> {
    fn fmt<W: Write>(&self, f: &mut fmt::Formatter<W>) -> fmt::Result {
        let count = self.0.len();
        if 1024 < count {
            return write!(f, "#{count}");
        }
        let Some((first, others)) = self.0.split_first() else {
            return write!(f, "-");
        };
        write!(f, "{first}")?;
        for x in others {
            write!(f, ",{x}")?;
        }
        Ok(())
    }
}

/// A text as it stands, or - where it is empty. Each byte is a sign of its own, as in ASCII.
#[derive(Clone, Copy)]
pub struct Text<'a>(pub &'a [u8]);

impl<'a> fmt::Display for Text<'a> {
    fn fmt<W: Write>(&self, f: &mut fmt::Formatter<W>) -> fmt::Result {
        if self.0.is_empty() {
            return write!(f, "-");
        }
        for b in self.0 {
            write!(f, "{}", char::from(*b))?;
        }
        Ok(())
    }
}

/// Bytes as two hexadecimal digits each, or - where there are none.
#[derive(Clone, Copy)]
pub struct Hex<'a>(pub &'a [u8]);

impl<'a> fmt::Display for Hex<'a> {
    fn fmt<W: Write>(&self, f: &mut fmt::Formatter<W>) -> fmt::Result {
        if self.0.is_empty() {
            return write!(f, "-");
        }
        for b in self.0 {
            write!(f, "{b:02X}")?;
        }
        Ok(())
    }
}

/// The beginning of a line on standard output.
pub fn begin<D: fmt::Display + Drop>(text: D) {
    let _ = write!(Output, "{text}");
}

/// Bytes on standard output as they stand, or - where there are none. They may be no signs at all, so they go past `Text`, which would
/// write one above 127 as two.
pub fn raw(s: &[u8]) {
    if s.is_empty() {
        begin("-");
    } else {
        io::write_all(1, s);
    }
}

/// A line on standard output.
pub fn line<D: fmt::Display + Drop>(text: D) {
    let _ = writeln!(Output, "{text}");
}
