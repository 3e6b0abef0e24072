// Settling and rounds with a table of their own, under any pile.
ghost use Rattle.std.specs.Prelude.{◌≡◌, ◌≤◌, length, IfOk, vec_len};
ghost use Rattle.machine.specs.Equivalent.{Equivalent};
ghost use Rattle.machine.specs.Limits.{node_limit};
ghost use Rattle.machine.specs.Programs.{program_of};
ghost use Rattle.settling.specs.Settling.{visits_told};
ghost use Rattle.rounds.specs.Rounds.{numbered};
ghost use Rattle.round_trials.specs.Driven.{told_of};

use analyses::constants::Known;
use analyses::copies::Copied;
use analyses::reach::Reach;
use analyses::standard::standard;
use analysis::analysis::{Analysis, Facts};
use analysis::deep::Deep;
use analysis::pair::{Pair, PairFact};
use machine::node::NODE_LIMIT;
use machine::program::Program;
use rounds::change::{Change, Counts, RoundRefusal};
use rounds::round::round;
use settling::settle::settle;
use std::alloc::{AllocError, Global};

/// What a round tells, unless there is no memory for its table.
pub type Told = Result<Result<Counts, RoundRefusal>, AllocError>;

/// A table with a place for the fact of every node that a program can have.
fn table_for<P: Analysis>(heap: Global, pile: &P) -> Result<Vec<P::Fact>, AllocError>
    ensures { IfOk result (λ table. node_limit ≤ vec_len table) }
{
    Ok(vec![in heap; pile.nowhere(); NODE_LIMIT]?)
}

/// The visits of settling a program, unless there is no memory for the table.
pub fn visits_of<P: Analysis>(heap: Global, pile: &P, program: &Program) -> Result<u32, AllocError>
    ensures { IfOk result (λ visits. visits ≡ visits_told (P.Facts.facts pile.now) (P.Analysis.moves pile.now) (program_of program.now)) }
{
    let mut table = table_for(heap, pile)?;
    Ok(settle(pile, program, &mut table).unwrap())
}

/// A round under a pile, which is declined only for a short change list, and after which the program does what it did.
pub fn round_with<P: Analysis>(
    heap: Global,
    pile: &P,
    program: &mut Program,
    changes: &mut [Change],
) -> Told
    ensures told { IfOk result (λ told. numbered told ≡ told_of (P.Facts.facts pile.now) (P.Analysis.moves pile.now) (program_of program.old) (length changes.old)) }
    ensures equivalent { Equivalent (program_of program.old) (program_of program.new) }
{
    let mut table = table_for(heap, pile)?;
    Ok(round(pile, program, &mut table, changes))
}

/// A round under two analyses side by side.
pub fn round_paired<A: Analysis + Drop, B: Analysis + Drop>(
    heap: Global,
    first: A,
    second: B,
    program: &mut Program,
    changes: &mut [Change],
) -> Told
    ensures { Equivalent (program_of program.old) (program_of program.new) }
{
    round_with(heap, &Pair::new(first, second), program, changes)
}

/// A round under two analyses side by side, followed deep.
pub fn round_deep<A: Analysis + Drop, B: Analysis + Drop>(
    heap: Global,
    first: A,
    second: B,
    program: &mut Program,
    changes: &mut [Change],
) -> Told
    ensures { Equivalent (program_of program.old) (program_of program.new) }
{
    round_with(heap, &Deep::new(Pair::new(first, second)), program, changes)
}

/// A fact of the standard pile.
pub type StandardFact = PairFact<Known, PairFact<Copied, PairFact<Reach, Reach>>>;

/// A round under the standard pile, in the caller's table.
pub fn round_standard(
    program: &mut Program,
    table: &mut [StandardFact],
    changes: &mut [Change],
) -> Result<Counts, RoundRefusal>
    ensures { Equivalent (program_of program.old) (program_of program.new) }
{
    round(&standard(), program, table, changes)
}
