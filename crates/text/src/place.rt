// Where a word of a text stands.

ghost use Rattle.std.specs.Prelude.{◌≡◌, ◌<◌, ◌≤◌, [], length, MatchOption, slice_index_or};
ghost use Rattle.text.specs.Cuts.{parts};
ghost use Rattle.text.specs.PlaceOf.{WordAt};

use crate::read::parts::Parts;

/// Part `n`, from 0, of a text that is cut at `sep`.
fn part(text: &[u8], sep: u8, n: usize) -> Option<&[u8]>
    ensures { MatchOption result (length (parts sep text.now) ≤ n) (λ w. (n < length (parts sep text.now)) × (w.now ≡ slice_index_or (parts sep text.now) n [])) }
{
    let mut parts = Parts::new(text, sep);
    for _ in 0..n {
        parts.next()?;
    }
    parts.next()
}

// The empty part stands for none, as a refusal's callers are promised a part of the text.
/// The word that a refusal is about, as a part of the text; an empty part at its start for word 0 or a missing word.
pub fn refused_word(text: &[u8], line: usize, word: usize) -> &[u8]
    ensures { WordAt text.now line word result.now }
{
    if line == 0 || word == 0 {
        return &text[..0];
    }
    let Some(line) = part(text, b'\n', line - 1) else {
        return &text[..0];
    };
    part(line, b' ', word - 1).unwrap_or(&text[..0])
}
