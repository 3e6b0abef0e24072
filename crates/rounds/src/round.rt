// A round: settle, ask for a proposal at each node, and make what is proposed.
ghost use Rattle.std.specs.Prelude.{◌≡◌, ◌≤◌, true, length, IfSome};
ghost use Rattle.std.specs.Option.{option_map};
ghost use Rattle.machine.specs.Equivalent.{Equivalent};
ghost use Rattle.machine.specs.Programs.{program_of};
ghost use Rattle.machine.specs.WellFormed.{is_node};
ghost use Rattle.settling.specs.Settling.{settled_facts, Settles};
ghost use Rattle.rounds.specs.Changes.{replacement_of, in_form};
ghost use Rattle.rounds.specs.Rounds.{change_at, verdicts_by, verdicts, Judges, Makes, numbered, RoundCall};

use crate::change::{Change, Counts, RoundRefusal};
use crate::itself::is_itself;
use crate::lay::make;
use analysis::analysis::Analysis;
use machine::node::{NODE_LIMIT, Node, NodeNumber};
use machine::program::Program;
use settling::settle::settle;

/// The change that a pile proposes for a node where a fact holds: none where no run comes, and none by the node itself.
fn change_at<P: Analysis>(pile: &P, fact: &P::Fact, at: NodeNumber, node: Node) -> Option<Change>
    requires { is_node node ≡ true }
    ensures exact { option_map replacement_of result ≡ change_at (P.Facts.facts pile.now) (P.Analysis.moves pile.now) fact.now at node }
    ensures form { IfSome result (λ c. in_form c ≡ true) }
{
    if pile.is_nowhere(fact) {
        return None;
    }
    let proposal = pile.propose(fact, node)?;
    let nodes = proposal.row.as_slice();
    if is_itself(node, nodes) {
        return None;
    }
    Some(Change {
        at,
        node,
        row: proposal.row.to_array(),
        len: nodes.len(),
        way: proposal.way,
        set: proposal.set,
    })
}

// The pair is taken apart by name at its one call.
/// Asks for a change at each node in turn, makes and lists those for which there is room, and tells how many were made and how many were not.
fn change_nodes<P: Analysis>(
    pile: &P,
    facts: &[P::Fact],
    program: &mut Program,
    changes: &mut [Change],
) -> (usize, usize)
    requires each { length facts.now ≡ length (program_of program.old).entries }
    requires room { length (program_of program.old).entries ≤ length changes.old }
    ensures { Makes (verdicts_by (P.Facts.facts pile.now) (P.Analysis.moves pile.now) (program_of program.old) facts.now) (program_of program.old) changes.old result.0 result.1 (program_of program.new) changes.new }
{
    let mut made = 0;
    let mut short = 0;
    // The program grows as its old nodes are gone through, so an iterator cannot borrow it.
    for at in 0..program.count() {
        let node = program.entries()[at as usize].node;
        let Some(change) = change_at(pile, &facts[at as usize], at, node) else {
            continue;
        };
        if program.count() as usize + change.len - 1 > NODE_LIMIT {
            short += 1;
            continue;
        }
        make(program, &change);
        changes[made] = change;
        made += 1;
    }
    (made, short)
}

/// One round: settles the program under the pile, leaves the facts in the front of the table, makes of the program what the pile proposes, and lists it.
pub fn round<P: Analysis>(
    pile: &P,
    program: &mut Program,
    table: &mut [P::Fact],
    changes: &mut [Change],
) -> Result<Counts, RoundRefusal>
    ensures exact { RoundCall (P.Facts.facts pile.now) (P.Analysis.moves pile.now) (program_of program.old) table.old changes.old (numbered result) (program_of program.new) table.new changes.new }
    ensures equivalent { Equivalent (program_of program.old) (program_of program.new) }
    ensures settles { Settles (P.Facts.facts pile.now) (P.Analysis.moves pile.now) (program_of program.old) }
    ensures judges { Judges (P.Facts.facts pile.now) (P.Analysis.moves pile.now) (program_of program.old) (settled_facts (P.Facts.facts pile.now) (P.Analysis.moves pile.now) (program_of program.old)) (verdicts (P.Facts.facts pile.now) (P.Analysis.moves pile.now) (program_of program.old)) }
{
    let nodes = program.count() as usize;
    // A table that is short too is refused first, by `settle`.
    if changes.len() < nodes && table.len() >= nodes {
        return Err(RoundRefusal::ShortList { nodes });
    }
    let visits = settle(pile, program, table)?;
    let (made, short) = change_nodes(pile, &table[0..nodes], program, changes);
    Ok(Counts {
        made,
        short,
        visits,
    })
}
