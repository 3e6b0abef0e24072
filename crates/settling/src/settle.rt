// Kildall's procedure: visit the lowest waiting node while one waits.
ghost use Rattle.std.specs.Prelude.{◌≡◌, length};
ghost use Rattle.machine.specs.Programs.{program_of};
ghost use Rattle.settling.specs.Settling.{settled_facts, visits_told, Settles, SettleCall, numbered};

use crate::work::{begin, visit};
use analysis::analysis::Analysis;
use machine::program::Program;

/// The table is shorter than the nodes.
#[derive(Clone, Copy, PartialEq, Eq, Debug)]
pub struct ShortTable {
    pub nodes: usize,
}

/// Settles a program, with a fact for each node, and tells the visits, which stand still at the largest `u32`.
fn settle_nodes<P: Analysis>(pile: &P, program: &Program, facts: &mut [P::Fact]) -> u32
    requires { length facts.old ≡ length (program_of program.now).entries }
    ensures exact { facts.new ≡ settled_facts (P.Facts.facts pile.now) (P.Analysis.moves pile.now) (program_of program.now) }
    ensures visits { result ≡ visits_told (P.Facts.facts pile.now) (P.Analysis.moves pile.now) (program_of program.now) }
{
    let mut work = begin(pile, program.first(), facts);
    let mut visits: u32 = 0;
    while let Some(node) = work.take_lowest() {
        visits = visits.saturating_add(1);
        visit(pile, program, &mut work, node);
    }
    visits
}

/// Settles a program under a pile, with the facts in the front of the table, and tells the visits, which stand still at the largest `u32`.
pub fn settle<P: Analysis>(
    pile: &P,
    program: &Program,
    table: &mut [P::Fact],
) -> Result<u32, ShortTable>
    ensures exact { SettleCall (P.Facts.facts pile.now) (P.Analysis.moves pile.now) (program_of program.now) table.old (numbered result) table.new }
    ensures settles { Settles (P.Facts.facts pile.now) (P.Analysis.moves pile.now) (program_of program.now) }
{
    let count = program.count() as usize;
    if table.len() < count {
        return Err(ShortTable { nodes: count });
    }
    let visits = settle_nodes(pile, program, &mut table[0..count]);
    Ok(visits)
}
