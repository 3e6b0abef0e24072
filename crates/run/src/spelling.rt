// How arguments are spelled.
ghost use Rattle.run.specs.Spelled.{WordRead, CellRead, BudgetRead, ArgumentRead};

use crate::arguments::{Argument, CellWord};
use machine::program::run::CELL_COUNT;

/// The word that decimal digits write: no sign, and at most 4294967295.
pub fn parse_word(text: &str) -> Option<u32>
    ensures { WordRead text.now result }
{
    if text.starts_with('+') {
        return None;
    }
    text.parse::<u32>().ok()
}

/// The cell and the word of `cK=WORD`.
pub fn parse_cell(text: &str) -> Option<CellWord>
    ensures { CellRead text.now result }
{
    let rest = text.strip_prefix('c')?;
    let (number, word) = rest.split_once('=')?;
    let cell = parse_word(number)? as usize;
    let word = parse_word(word)?;
    if cell >= CELL_COUNT {
        return None;
    }
    Some(CellWord { cell, word })
}

/// The number of `budget=N`.
pub fn parse_budget(text: &str) -> Option<u32>
    ensures { BudgetRead text.now result }
{
    let number = text.strip_prefix("budget=")?;
    parse_word(number)
}

/// What an argument after the file's name asks for.
pub fn parse_argument(text: &str) -> Option<Argument>
    ensures { ArgumentRead text.now result }
{
    if let Some(budget) = parse_budget(text) {
        return Some(Argument::Budget(budget));
    }
    if let Some(cell) = parse_cell(text) {
        return Some(Argument::Cell(cell));
    }
    parse_word(text).map(Argument::Input)
}
