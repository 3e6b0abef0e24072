// Reads the text of a program.
mod cut;
mod due;
mod entry;
mod lines;
mod numbers;
pub(crate) mod parts;
mod row;
mod targets;
mod trailer;
mod word;

ghost use Rattle.text.specs.Reads.{ReadAs};

use crate::cause::Cause;
use crate::read::lines::read_lines;
use crate::read::targets::bad_targets;
use crate::refusal::TextRefusal;
use machine::node::Table;
use machine::program::Program;

/// The most bytes of a text.
pub const TEXT_LIMIT: usize = 9216;

/// The program that a text spells, or the first fault of the text.
pub fn read(text: &[u8]) -> Result<Program, TextRefusal>
    ensures { ReadAs text.now result }
{
    if text.len() > TEXT_LIMIT {
        return Err(Cause::LongText.at(0, 0));
    }
    // The table becomes the program's own: a list that grows would need a heap, or be copied.
    let mut table = Table::halting();
    let (count, first) = read_lines(text, &mut table.entries)?;
    if let Some((line, word)) = bad_targets(&table.entries[0..count as usize], count) {
        return Err(Cause::NoSuchNode.at(line, word));
    }
    if first >= count {
        return Err(Cause::NoSuchNode.at(count as usize + 1, 4));
    }
    Ok(Program::from_table(table, count, first).unwrap())
}
