// Cuts a text in two.
ghost use Rattle.std.specs.Prelude.{◌≡◌, ◌<◌, ◌∷◌, length, IfSome};
ghost use Rattle.std.specs.Option.{option_copied};
ghost use Rattle.text.specs.Cuts.{parts, rest_parts};

/// The first part of a text, and what stands behind its separator.
pub(super) fn cut(text: &[u8], sep: u8) -> (&[u8], Option<&[u8]>)
    ensures parts { parts sep text.now ≡ result.0.now ∷ rest_parts sep (option_copied result.1) }
    ensures shorter { IfSome result.1 (λ r. length r.now < length text.now) }
{
    match text.iter().position(|b| *b == sep) {
        Some(end) => (&text[..end], Some(&text[end + 1..])),
        None => (text, None),
    }
}
