// A refusal, with the place of what is wrong.
ghost use Rattle.std.specs.Prelude.{◌≡◌};

use crate::cause::Cause;
use std::fmt;

/// Lines and words count from 1; word 0 is the line as a whole.
#[derive(Clone, Copy, PartialEq, Eq, Debug)]
pub struct TextRefusal {
    pub cause: Cause,
    pub line: usize,
    pub word: usize,
}

/// Why a line is refused, and the word that is wrong, from 1.
#[derive(Clone, Copy, PartialEq, Eq, Debug)]
pub struct LineRefusal {
    pub cause: Cause,
    pub word: usize,
}

impl LineRefusal {
    /// The refusal of a text whose line of this number is refused.
    pub(crate) fn in_line(self, line: usize) -> TextRefusal
        ensures { result ≡ record { cause = self.cause; line = line; word = self.word } }
    {
        self.cause.at(line, self.word)
    }
}

impl Cause {
    /// The refusal of a line for this cause.
    pub(crate) fn at_word(self, word: usize) -> LineRefusal
        ensures { result ≡ record { cause = self; word = word } }
    {
        LineRefusal { cause: self, word }
    }

    /// The refusal of a text for this cause.
    pub(crate) fn at(self, line: usize, word: usize) -> TextRefusal
        ensures { result ≡ record { cause = self; line = line; word = word } }
    {
        TextRefusal {
            cause: self,
            line,
            word,
        }
    }
}

impl fmt::Display for TextRefusal {
    ghost use Rattle.std.specs.Prelude.{Some};
    ghost use Rattle.text.specs.Texts.{refusal_text};

    ghost output = { λ r. Some (refusal_text r) };

    fn fmt<W: fmt::Write>(&self, f: &mut fmt::Formatter<W>) -> fmt::Result {
        let number = self.cause.number();
        write!(f, "refused {number} line {} word {}", self.line, self.word)
    }
}
