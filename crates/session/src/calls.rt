// The calls of a session.
ghost use Rattle.std.specs.Prelude.{◌≡◌, ◌-◌, ◌≤◌, length};
ghost use Rattle.machine.specs.Equivalent.{Equivalent};
ghost use Rattle.machine.specs.Laws.{LimitedBegins, StaysValid};
ghost use Rattle.machine.specs.Programs.{halting};
ghost use Rattle.machine.specs.Runs.{answer, ran};
ghost use Rattle.text.specs.Limits.{text_limit};
ghost use Rattle.text.specs.Print.{printed};
ghost use Rattle.text.specs.Reads.{SpellsJust};
ghost use Rattle.settling.specs.Settling.{settled_facts, Settles};
ghost use Rattle.rounds.specs.Rounds.{verdicts, Judges, RoundCall};
ghost use Rattle.tidying.specs.Skips.{SendsPast};
ghost use Rattle.tidying.specs.Tidy.{tidied, Tidies};
ghost use Rattle.session.specs.Calls.{held, ReadCall, PrintCall, numbered};
ghost use Rattle.session.specs.Series as calls;
ghost use Rattle.session.specs.Series.{Lawful, pile_of, Did};

use crate::refusal::Refusal;
use crate::session::Session;
use analysis::analysis::Analysis;
use machine::outcome::Outcome;
use machine::program::Program;
use printer::print::print;
use rounds::change::{Change, Counts};
use rounds::round::round;
use text::read::read;
use tidying::tidy::tidy;

impl Session {
    /// A session that holds the program that halts at once.
    pub fn new() -> Session
        ensures { held result ≡ halting }
    {
        Session {
            program: Program::halt(),
        }
    }

    /// Holds the program that the text spells, and tells its nodes.
    pub fn read(&mut self, text: &[u8]) -> Result<usize, Refusal>
        ensures exact { ReadCall text.now (held self.old) result (held self.new) }
        ensures did { Did (calls.read text.now) (held self.old) (held self.new) }
    {
        let program = read(text)?;
        let nodes = program.count() as usize;
        self.program = program;
        Ok(nodes)
    }

    /// One round with a pile: settles the program, leaves the facts in the front of the table, makes what the pile proposes, and lists it.
    pub fn round<P: Analysis>(
        &mut self,
        pile: &P,
        table: &mut [P::Fact],
        changes: &mut [Change],
    ) -> Result<Counts, Refusal>
        ensures exact { RoundCall (P.Facts.facts pile.now) (P.Analysis.moves pile.now) (held self.old) table.old changes.old (numbered result) (held self.new) table.new changes.new }
        ensures did { (lawful : Lawful (pile_of (P.Facts.facts pile.now) (P.Analysis.moves pile.now))) → Did (calls.round (pile_of (P.Facts.facts pile.now) (P.Analysis.moves pile.now)) lawful (length table.old) (length changes.old)) (held self.old) (held self.new) }
        ensures equivalent { Equivalent (held self.old) (held self.new) }
        ensures settles { Settles (P.Facts.facts pile.now) (P.Analysis.moves pile.now) (held self.old) }
        ensures judges { Judges (P.Facts.facts pile.now) (P.Analysis.moves pile.now) (held self.old) (settled_facts (P.Facts.facts pile.now) (P.Analysis.moves pile.now) (held self.old)) (verdicts (P.Facts.facts pile.now) (P.Analysis.moves pile.now) (held self.old)) }
    {
        Ok(round(pile, &mut self.program, table, changes)?)
    }

    /// Sends targets past skips, drops the nodes that are then not reached, renumbers the rest in order, and tells how many went.
    pub fn tidy(&mut self) -> usize
        ensures exact { held self.new ≡ tidied (held self.old) }
        ensures did { Did calls.tidy (held self.old) (held self.new) }
        ensures told { result ≡ length (held self.old).entries - length (tidied (held self.old)).entries }
        ensures tidies { Tidies (held self.old) (held self.new) }
        ensures past { SendsPast (held self.old) }
        ensures equivalent { Equivalent (held self.old) (held self.new) }
    {
        tidy(&mut self.program)
    }

    /// Writes the program's text into the buffer, and tells its length.
    pub fn print(&self, out: &mut [u8]) -> Result<usize, Refusal>
        ensures exact { PrintCall (held self.now) out.old (numbered result) out.new }
        ensures fits { length (printed (held self.now)) ≤ text_limit }
        ensures back { SpellsJust (printed (held self.now)) (held self.now) }
    {
        Ok(print(&self.program, out)?)
    }

    /// Runs the program on 64 cells, for at most `budget` steps.
    pub fn run(
        &self,
        cells: &mut [u32],
        inputs: &[u32],
        output: &mut [u32],
        budget: u32,
    ) -> Result<Outcome, Refusal>
        ensures exact { answer (numbered result) cells.new output.new ≡ ran (held self.now) cells.old inputs.now output.old budget }
        ensures begins { LimitedBegins (held self.now) }
        ensures valid { StaysValid (held self.now) }
    {
        Ok(self.program.run(cells, inputs, output, budget)?)
    }

    /// Ends the session, and tells the nodes of its program.
    pub fn close(self) -> usize
        ensures { result ≡ length (held self).entries }
    {
        self.program.count() as usize
    }
}
