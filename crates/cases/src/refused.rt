// Texts that are refused, by cause.
mod labels;
mod lines;
mod numbers;
mod targets;
mod trailers;
mod words;

use crate::refused::labels::LABELS;
use crate::refused::lines::LINES;
use crate::refused::numbers::NUMBERS;
use crate::refused::targets::TARGETS;
use crate::refused::trailers::TRAILERS;
use crate::refused::words::WORDS;
use crate::texts::{show_held, try_text, try_texts};
use session::session::Session;
use std::io;

const KEPT: &[u8] = b"0: skip -> 1\n1: halt\nend 2 from 1\n";

/// Tries the texts on a session whose program they leave as it was.
pub(crate) fn try_refused(rt: &impl Print, session: &mut Session) -> io::Result<()> {
    try_text(rt, session, "kept", KEPT)?;
    try_texts(rt, session, &LINES)?;
    try_texts(rt, session, &WORDS)?;
    try_texts(rt, session, &NUMBERS)?;
    try_texts(rt, session, &LABELS)?;
    try_texts(rt, session, &TRAILERS)?;
    try_texts(rt, session, &TARGETS)?;
    show_held(rt, session, "after the refused texts", KEPT)
}
