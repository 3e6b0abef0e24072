// How a run ends, and why one is refused.
use std::fmt;

/// How a node ends a run.
#[derive(Clone, Copy, PartialEq, Eq, Debug)]
pub enum Ending {
    Halted,
    Failed(u8),
    Divided,
    Dry,
}

/// Why a run stopped: a node ended it, the budget was used up, or the output buffer was full.
#[derive(Clone, Copy, PartialEq, Eq, Debug)]
pub enum Stop {
    Ended(Ending),
    Spent,
    Full,
}

#[derive(Clone, Copy, PartialEq, Eq, Debug)]
pub struct Outcome {
    pub stop: Stop,
    pub steps: u32,
    pub written: usize,
    pub read: usize,
}

/// Why a run is not begun.
#[derive(Clone, Copy, PartialEq, Eq, Debug)]
pub enum RunRefusal {
    WrongCellCount,
    BudgetTooLarge,
}

impl fmt::Display for Stop {
    fn fmt<W: fmt::Write>(&self, f: &mut fmt::Formatter<W>) -> fmt::Result {
        match *self {
            Stop::Ended(Ending::Halted) => f.write_str("halted"),
            Stop::Ended(Ending::Failed(fault)) => write!(f, "failed {fault}"),
            Stop::Ended(Ending::Divided) => f.write_str("divided"),
            Stop::Ended(Ending::Dry) => f.write_str("dry"),
            Stop::Spent => f.write_str("spent"),
            Stop::Full => f.write_str("full"),
        }
    }
}
