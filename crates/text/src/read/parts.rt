// A text is cut into lines, and a line into words.
ghost use Rattle.std.specs.Prelude.{◌≡◌, ◌+◌, ◌<◌, ◌≤◌, ◌^◌, [], ◌∷◌, length, IfSome, MatchOption, ◌==◌};
ghost use Rattle.std.proofs.Props.{props};

use crate::read::cut::cut;

/// What is left of a text that is cut at each byte `sep`.
#[derive(Drop)]
pub struct Parts<'a> {
    // what stands behind the separators so far; none past the last part
    pub rest: Option<&'a [u8]>,
    pub sep: u8,
    // how many parts were given
    pub number: usize,
    // each separator was a byte of the text, so the number fits
    ghost counted: { number ≤ 2 ^ 63 },
    ghost ahead: { IfSome rest (λ r. number + length r.now < 2 ^ 63) } by { Prim.hlevel props },
}

impl<'a> Parts<'a> {
    ghost use Rattle.text.specs.Cuts.{parts, left};
    ghost use Rattle.text.specs.RowReads.{Gives};
    ghost use Rattle.text.specs.Texts.{nothing_left};

    pub(crate) fn new(text: &'a [u8], sep: u8) -> Parts<'a>
        ensures left { left result ≡ parts sep text.now }
        ensures number { result.number ≡ 0 }
    {
        Parts {
            rest: Some(text),
            sep,
            number: 0,
        }
    }

    /// The next part, if one is left.
    pub(crate) fn next(&mut self) -> Option<&'a [u8]>
        ensures { MatchOption result ((left self.old ≡ []) × (left self.new ≡ []) × (self.new.number ≡ self.old.number)) (λ w. Gives self.old w.now self.new) }
    {
        let (part, rest) = cut(self.rest?, self.sep);
        self.rest = rest;
        self.number += 1;
        Some(part)
    }

    /// Tells whether no part is left.
    pub(super) fn is_done(&self) -> bool
        ensures { result ≡ (length (left self.now) == 0) }
    {
        self.rest.is_none()
    }

    /// Tells whether nothing is left but the empty part after the last separator.
    pub(super) fn is_at_end(&self) -> bool
        ensures { result ≡ nothing_left (left self.now) }
    {
        self.rest.is_some_and(|rest| rest.is_empty())
    }
}
