// Tries texts, runs and prints, and prints what becomes of each.
#![tactic(auto)]

mod accepted;
mod case;
mod made;
mod numbered;
mod prints;
mod refused;
mod runs;
mod shown;
mod starred;
mod stretched;
mod texts;

use crate::accepted::ACCEPTED;
use crate::made::try_made;
use crate::numbered::NUMBERED;
use crate::prints::try_prints;
use crate::refused::try_refused;
use crate::runs::try_runs;
use crate::starred::starred_cases;
use crate::stretched::STRETCHED;
use crate::texts::try_texts;
use session::session::Session;
use std::io;

fn main(rt: HostRuntime) -> io::Result<()> {
    let mut session = Session::new();
    try_prints(&rt)?;
    try_refused(&rt, &mut session)?;
    try_texts(&rt, &mut session, &ACCEPTED)?;
    try_runs(&rt, &mut session)?;
    try_made(&rt, &mut session, &STRETCHED)?;
    try_made(&rt, &mut session, &NUMBERED)?;
    let nodes = session.close();
    starred_cases();
    println!(rt; "closed with {nodes} nodes")
}
