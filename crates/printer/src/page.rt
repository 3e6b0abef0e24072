// A page to write a text on.
use std::marker::Model;
use text::read::TEXT_LIMIT;

mod lines;
mod words;
mod write;

/// A text as it is written: the first `len` of its bytes. The library has no heap, so the room is fixed.
// Each function that writes requires room for its own text: the page cannot know what is still to be written.
#[derive(Drop)]
pub struct Page {
    bytes: [u8; TEXT_LIMIT],
    len: usize,
}

impl Model for Page {
    ghost use Rattle.std.specs.Prelude.{ℕ, ◌≤◌, List, take};
    ghost use Rattle.text.specs.Limits.{text_limit};

    ghost Value = { List ℕ };

    ghost view = { λ page. take page.len page.bytes };

    ghost invariant = { λ page. page.len ≤ text_limit };
}
