// Tries texts, and prints what becomes of each.
use crate::case::Case;
use crate::shown::Shown;
use session::refusal::Refusal;
use session::session::Session;
use std::io;
use text::place::refused_word;
use text::read::TEXT_LIMIT;
use text::refusal::TextRefusal;

fn prints_as(session: &Session, text: &[u8]) -> bool {
    let mut out = [0u8; TEXT_LIMIT];
    session
        .print(&mut out)
        .is_ok_and(|len| out.get(..len) == Some(text))
}

/// Tells whether the session's program is printed as this text.
fn compared(session: &Session, text: &[u8]) -> &'static str {
    if prints_as(session, text) {
        "printed the same"
    } else {
        "printed otherwise"
    }
}

pub(crate) fn show_held(
    rt: &impl Print,
    session: &Session,
    name: &str,
    text: &[u8],
) -> io::Result<()> {
    let printed = compared(session, text);
    println!(rt; "{name}: {printed}")
}

fn show_refusal(rt: &impl Print, name: &str, text: &[u8], refusal: TextRefusal) -> io::Result<()> {
    let part = refused_word(text, refusal.line, refusal.word);
    if part.is_empty() {
        println!(rt; "{name}: {refusal}")
    } else {
        let part = Shown(part);
        println!(rt; "{name}: {refusal}: {part}")
    }
}

/// Reads the text into the session.
pub(crate) fn try_text(
    rt: &impl Print,
    session: &mut Session,
    name: &str,
    text: &[u8],
) -> io::Result<()> {
    match session.read(text) {
        Ok(nodes) => {
            let printed = compared(session, text);
            println!(rt; "{name}: read {nodes} nodes, {printed}")
        }
        Err(Refusal::Text(refusal)) => show_refusal(rt, name, text, refusal),
        Err(refusal) => {
            let number = refusal.number();
            println!(rt; "{name}: refused {number}")
        }
    }
}

pub(crate) fn try_texts(rt: &impl Print, session: &mut Session, cases: &[Case]) -> io::Result<()> {
    for case in cases {
        try_text(rt, session, case.name, case.text)?;
    }
    Ok(())
}
