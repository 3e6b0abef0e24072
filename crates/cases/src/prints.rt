// Prints a program into buffers of several lengths.
use session::refusal::Refusal;
use session::session::Session;
use std::io;

/// One byte too short, just long enough, and others; the text has 21 bytes.
static ROOMS: [usize; 4] = [0, 20, 21, 24];

fn try_print(rt: &(impl Print + AllocGlobal), session: &Session, room: usize) -> io::Result<()> {
    let mut out = vec![in rt.alloc(); b'.'; room]?;
    let told = session.print(out.as_mut_slice());
    let bytes = out.as_slice().escape_ascii();
    match told {
        Ok(len) => println!(rt; "print into {room}: {len} bytes, buffer \"{bytes}\""),
        Err(refusal) => {
            let number = refusal.number();
            match refusal {
                Refusal::ShortBuffer { due } => {
                    println!(rt;
                        "print into {room}: refused {number}, {due} bytes due, buffer \"{bytes}\""
                    )
                }
                _ => println!(rt; "print into {room}: refused {number}"),
            }
        }
    }
}

/// Prints the program of a new session.
pub(crate) fn try_prints(rt: &(impl Print + AllocGlobal)) -> io::Result<()> {
    let session = Session::new();
    for room in &ROOMS {
        try_print(rt, &session, *room)?;
    }
    let nodes = session.close();
    println!(rt; "new session: closed with {nodes} nodes")
}
