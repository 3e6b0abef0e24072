// Reads the lines of a text in turn.

ghost use Rattle.std.specs.Prelude.{◌≡◌, ◌+◌, ◌<◌, length, Some, MatchResult};
ghost use Rattle.machine.specs.Limits.{node_limit};
ghost use Rattle.text.specs.Cuts.{left};
ghost use Rattle.text.specs.LineReads.{LinesRead, NodesOk};
ghost use Rattle.text.specs.Texts.{is_trailer, lines_fault, refusal_told};

use crate::cause::Cause;
use crate::read::cut::cut;
use crate::read::entry::entry;
use crate::read::parts::Parts;
use crate::read::trailer::trailer;
use crate::refusal::TextRefusal;
use machine::node::{Entry, NodeNumber};

/// Tells whether the line's first word is `end`.
fn is_trailer(line: &[u8]) -> bool
    ensures { result ≡ is_trailer line.now }
{
    let (word, _) = cut(line, b' ');
    word == b"end".as_slice()
}

/// Reads the lines of the nodes, and answers how many there are, and the trailer's line.
fn nodes<'a>(
    lines: &mut Parts<'a>,
    entries: &mut [Entry],
) -> Result<(NodeNumber, &'a [u8]), TextRefusal>
    requires start { lines.old.number ≡ 0 }
    requires room { length entries.old ≡ node_limit }
    ensures { MatchResult result (λ x. NodesOk lines.old entries.new x.0 x.1.now lines.new) (λ f. lines_fault 0 (left lines.old) ≡ Some (refusal_told f)) }
{
    // The count is also the number of the node that is due.
    let mut count: NodeNumber = 0;
    loop {
        let line = lines
            .next()
            .ok_or(Cause::BadTrailer.at(lines.number + 1, 0))?;
        if lines.is_done() {
            let cause = if line.is_empty() {
                Cause::BadTrailer
            } else {
                Cause::IllFormed
            };
            return Err(cause.at(lines.number, 0));
        }
        if is_trailer(line) {
            return Ok((count, line));
        }
        let entry = entry(line, count).map_err(|refusal| refusal.in_line(lines.number))?;
        entries[count as usize] = entry;
        count += 1;
    }
}

// The pair is taken apart by name at its one call, as that of `trailer` is.
/// Reads the lines of a text, and answers how many nodes there are, and the first node.
pub(super) fn read_lines(
    text: &[u8],
    entries: &mut [Entry],
) -> Result<(NodeNumber, NodeNumber), TextRefusal>
    requires { length entries.old ≡ node_limit }
    ensures { LinesRead text.now entries.new result }
{
    let mut lines = Parts::new(text, b'\n');
    let (count, line) = nodes(&mut lines, entries)?;
    let (told, first) = trailer(line).map_err(|refusal| refusal.in_line(lines.number))?;
    if !lines.is_at_end() {
        return Err(Cause::BadTrailer.at(lines.number + 1, 0));
    }
    if count == 0 || told != count {
        return Err(Cause::BadTrailer.at(lines.number, 2));
    }
    Ok((count, first))
}
