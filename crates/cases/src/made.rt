// Texts that are made when they are tried.
use crate::texts::try_text;
use session::session::Session;
use std::alloc::{AllocError, Global};
use std::io;

pub(crate) trait Made {
    fn name(&self) -> &'static str;

    fn text(&self, heap: Global) -> Result<Vec<u8>, AllocError>;
}

pub(crate) fn try_made<M: Made>(
    rt: &(impl Print + AllocGlobal),
    session: &mut Session,
    cases: &[M],
) -> io::Result<()> {
    for case in cases {
        let text = case.text(rt.alloc())?;
        try_text(rt, session, case.name(), text.as_slice())?;
    }
    Ok(())
}
