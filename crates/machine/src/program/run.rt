// Running a program under a budget of steps.
ghost use Rattle.std.specs.Prelude.{◌≡◌, length, Ok};
ghost use Rattle.machine.specs.Laws.{LimitedBegins, StaysValid};
ghost use Rattle.machine.specs.Programs.{program_of};
ghost use Rattle.machine.specs.Progress.{state_of, GoneOn};
ghost use Rattle.machine.specs.Runs.{report, limited, whole, completed, numbered, answer, ran};

use crate::outcome::{Outcome, RunRefusal, Stop};
use crate::program::Program;
use crate::progress::Progress;
use std::ops::ControlFlow;

/// The cells that a run works on.
pub const CELL_COUNT: usize = 64;

/// The largest budget of a run.
pub const BUDGET_LIMIT: u32 = 1_000_000;

impl Program {
    // The caller's buffers are three parameters, as in the session's call; inside they are one value.
    /// Runs the program on 64 cells, for at most `budget` steps.
    pub fn run(
        &self,
        cells: &mut [u32],
        inputs: &[u32],
        output: &mut [u32],
        budget: u32,
    ) -> Result<Outcome, RunRefusal>
        ensures exact { answer (numbered result) cells.new output.new ≡ ran (program_of self.now) cells.old inputs.now output.old budget }
        ensures begins { LimitedBegins (program_of self.now) }
        ensures valid { StaysValid (program_of self.now) }
    {
        if cells.len() != CELL_COUNT {
            return Err(RunRefusal::WrongCellCount);
        }
        if budget > BUDGET_LIMIT {
            return Err(RunRefusal::BudgetTooLarge);
        }
        Ok(self.run_within(cells, inputs, output, budget))
    }

    fn run_within(
        &self,
        cells: &mut [u32],
        inputs: &[u32],
        output: &mut [u32],
        budget: u32,
    ) -> Outcome
        requires { length cells.old ≡ 64 }
        ensures { answer (Ok result) cells.new output.new ≡ completed inputs.now output.old (whole (program_of self.now) cells.old inputs.now (length output.old) budget) }
    {
        let mut progress = Progress {
            registers: [0; 8],
            cells,
            inputs,
            output,
            written: 0,
        };
        let (stop, steps) = self.run_to_stop(&mut progress, budget);
        Outcome {
            stop,
            steps,
            written: progress.written,
            read: inputs.len() - progress.inputs.len(),
        }
    }

    /// Runs the program from its first node until it stops; says why, and after how many steps.
    fn run_to_stop(&self, progress: &mut Progress, budget: u32) -> (Stop, u32)
        ensures stops { report result.0 result.1 (state_of progress.new) ≡ limited (program_of self.now) (length progress.old.output.now) budget 0 self.now.first (state_of progress.old) }
        ensures goes_on { GoneOn progress.old progress.new }
    {
        let mut at = self.first;
        for steps in 0..budget {
            let entry = self.table.entries[at as usize];
            if progress.is_blocked(entry.node) {
                return (Stop::Full, steps);
            }
            match progress.perform(entry.node) {
                ControlFlow::Continue(exit) => at = entry.targets[exit],
                ControlFlow::Break(ending) => return (Stop::Ended(ending), steps + 1),
            }
        }
        (Stop::Spent, budget)
    }
}
