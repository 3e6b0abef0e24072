// Tidying a program.
ghost use Rattle.std.specs.Prelude.{◌≡◌, ◌-◌, ◌≤◌, length, take};
ghost use Rattle.machine.specs.Equivalent.{Equivalent};
ghost use Rattle.machine.specs.Programs.{prog, program_of, IsProgram};
ghost use Rattle.tidying.specs.Reached.{reached_marks};
ghost use Rattle.tidying.specs.Skips.{skipless, SendsPast};
ghost use Rattle.tidying.specs.Tidy.{renumbered, tidied, Tidies};

use crate::past::find_past;
use crate::reach::reach;
use crate::renumber::{keep, number};
use crate::send::send;
use machine::node::{Entry, NODE_LIMIT, NodeNumber};
use machine::program::Program;

/// Sends all targets of a program's entries past skips, and tells where the first node is sent.
fn send_past(program: &Program, entries: &mut [Entry]) -> NodeNumber
    requires { entries.old ≡ (program_of program.now).entries }
    ensures entries { entries.new ≡ (skipless (program_of program.now)).entries }
    ensures first { result ≡ (skipless (program_of program.now)).first }
{
    // Fixed memory: room for the largest program.
    let mut room = [0; NODE_LIMIT];
    let sent = &mut room[0..entries.len()];
    find_past(program, sent);
    send(entries, sent);
    sent[program.first() as usize]
}

/// Moves the nodes that are reached to the front, renumbered, and tells how many they are and which is the first.
// The pair is passed on by `tidy_entries`, and taken apart by name where that is called.
fn drop_unreached(entries: &mut [Entry], first: NodeNumber) -> (usize, NodeNumber)
    requires { IsProgram (prog entries.old first) }
    ensures entries { take result.0 entries.new ≡ (renumbered (reached_marks (prog entries.old first)) (prog entries.old first)).entries }
    ensures count { result.0 ≤ length entries.old }
    ensures first { result.1 ≡ (renumbered (reached_marks (prog entries.old first)) (prog entries.old first)).first }
{
    let count = entries.len();
    // Fixed memory: room for the largest program.
    let mut mark_room = [false; NODE_LIMIT];
    let marks = &mut mark_room[0..count];
    reach(entries, first, marks);
    let mut number_room = [0; NODE_LIMIT];
    let numbers = &mut number_room[0..count];
    number(marks, numbers);
    let kept = keep(entries, marks);
    send(&mut entries[0..kept], numbers);
    (kept, numbers[first as usize])
}

/// Tidies the entries of a program, and tells how many are left in front and which is the first.
fn tidy_entries(program: &Program, entries: &mut [Entry]) -> (usize, NodeNumber)
    requires { entries.old ≡ (program_of program.now).entries }
    ensures entries { take result.0 entries.new ≡ (tidied (program_of program.now)).entries }
    ensures count { result.0 ≤ length entries.old }
    ensures first { result.1 ≡ (tidied (program_of program.now)).first }
{
    let first = send_past(program, entries);
    drop_unreached(entries, first)
}

/// Sends all targets past skips, drops the nodes that are then not reached from the first, renumbers the rest in order, and tells how many went.
pub fn tidy(program: &mut Program) -> usize
    ensures exact { program_of program.new ≡ tidied (program_of program.old) }
    ensures told { result ≡ length (program_of program.old).entries - length (tidied (program_of program.old)).entries }
    ensures tidies { Tidies (program_of program.old) (program_of program.new) }
    ensures past { SendsPast (program_of program.old) }
    ensures equivalent { Equivalent (program_of program.old) (program_of program.new) }
{
    let count = program.count() as usize;
    let mut table = program.table();
    let (kept, first) = tidy_entries(program, &mut table.entries[0..count]);
    *program = Program::from_table(table, kept as NodeNumber, first).unwrap();
    count - kept
}
