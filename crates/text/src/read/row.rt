// Reads the words of a line in turn.

ghost use Rattle.std.specs.Prelude.{◌≡◌, ◌+◌, [], Some, MatchResult};
ghost use Rattle.std.specs.Fn.{FnOnceReturnsAt};
ghost use Rattle.text.specs.Cuts.{left};
ghost use Rattle.text.specs.Rows.{row_fault, word_fault};
ghost use Rattle.text.specs.RowReads.{NextRead, line_told};

use crate::cause::Cause;
use crate::read::parts::Parts;
use crate::refusal::LineRefusal;

impl<'a> Parts<'a> {
    /// Reads the next word by what is due in its place.
    pub(super) fn read<T, F: FnOnce(&[u8]) -> Result<T, Cause>>(
        &mut self,
        due: F,
    ) -> Result<T, LineRefusal>
        requires { F.IsAlwaysCallable due }
        ensures { NextRead (λ w r. FnOnceReturnsAt F.FnOnce due w r) self.old result self.new }
    {
        let Some(word) = self.next() else {
            return Err(Cause::IllFormed.at_word(self.number + 1));
        };
        due(word).map_err(|cause| cause.at_word(self.number))
    }

    /// Sees that no word is left over.
    pub(super) fn finish(&mut self) -> Result<(), LineRefusal>
        ensures { MatchResult result (λ _. left self.old ≡ []) (λ f. row_fault word_fault [] (self.old.number + 1) (left self.old) ≡ Some (line_told f)) }
    {
        match self.next() {
            Some(_) => Err(Cause::IllFormed.at_word(self.number)),
            None => Ok(()),
        }
    }
}
