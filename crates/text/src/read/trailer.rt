// Reads the trailer's line.

ghost use Rattle.text.specs.Cuts.{parts};
ghost use Rattle.text.specs.LineReads.{TrailerRead};

use crate::read::due;
use crate::read::parts::Parts;
use crate::refusal::LineRefusal;
use machine::node::NodeNumber;

/// The number of nodes that the trailer tells, and the first node.
pub(super) fn trailer(line: &[u8]) -> Result<(NodeNumber, NodeNumber), LineRefusal>
    ensures { TrailerRead (parts 32 line.now) result }
{
    let mut words = Parts::new(line, b' ');
    words.read(|word| due::exact(word, b"end"))?;
    let count = words.read(due::node_number)?;
    words.read(|word| due::exact(word, b"from"))?;
    let first = words.read(due::node_number)?;
    words.finish()?;
    Ok((count, first))
}
