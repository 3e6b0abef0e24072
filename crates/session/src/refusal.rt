// Why a call declines.
ghost use Rattle.std.specs.Prelude.{◌≡◌};
ghost use Rattle.session.specs.declared.refusal.Refusal.TheVariants.{Text, Run, Round, ShortBuffer};
ghost use Rattle.session.specs.Refusals.{reason_of};

use machine::outcome::RunRefusal;
use printer::short_buffer::ShortBuffer;
use rounds::change::RoundRefusal;
use text::cause::Cause;
use text::refusal::TextRefusal;

#[derive(Clone, Copy, PartialEq, Eq, Debug)]
pub enum Refusal {
    /// The text is not that of a program.
    Text(TextRefusal),
    /// A run that is not begun.
    Run(RunRefusal),
    /// A round that is not begun.
    Round(RoundRefusal),
    /// The buffer is shorter than the bytes due.
    ShortBuffer { due: usize },
}

impl Refusal {
    // The variants hold refusals of their own, so their numbers cannot be discriminants.
    /// The number of the cause.
    pub fn number(self) -> u8
        ensures { result ≡ (reason_of self).number }
    {
        match self {
            Refusal::Text(refusal) => refusal.cause.number(),
            Refusal::Round(RoundRefusal::ShortTable { .. }) => 8,
            Refusal::Round(RoundRefusal::ShortList { .. }) => 9,
            Refusal::Run(RunRefusal::WrongCellCount) => 10,
            Refusal::Run(RunRefusal::BudgetTooLarge) => 11,
            Refusal::ShortBuffer { .. } => 12,
        }
    }
}

impl From<TextRefusal> for Refusal {
    ghost from_gives = { λ refusal e. e ≡ Text refusal };

    fn from(refusal: TextRefusal) -> Refusal {
        Refusal::Text(refusal)
    }
}

impl From<RunRefusal> for Refusal {
    ghost from_gives = { λ refusal e. e ≡ Run refusal };

    fn from(refusal: RunRefusal) -> Refusal {
        Refusal::Run(refusal)
    }
}

impl From<RoundRefusal> for Refusal {
    ghost from_gives = { λ refusal e. e ≡ Round refusal };

    fn from(refusal: RoundRefusal) -> Refusal {
        Refusal::Round(refusal)
    }
}

impl From<ShortBuffer> for Refusal {
    ghost from_gives = { λ short e. e ≡ ShortBuffer short.due };

    fn from(short: ShortBuffer) -> Refusal {
        Refusal::ShortBuffer { due: short.due }
    }
}
