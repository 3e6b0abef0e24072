// A word of a text, shown in ASCII.
use std::fmt;

/// Shows a long word by its beginning and its length.
#[derive(Drop)]
pub struct Shown<'a>(pub &'a [u8]);

const LONGEST: usize = 40;

impl fmt::Display for Shown<'_> {
    fn fmt<W: fmt::Write>(&self, f: &mut fmt::Formatter<W>) -> fmt::Result {
        let len = self.0.len();
        if len > LONGEST {
            let start = self.0[0..LONGEST].escape_ascii();
            write!(f, "{start}.. of {len} bytes")
        } else {
            let word = self.0.escape_ascii();
            write!(f, "{word}")
        }
    }
}
