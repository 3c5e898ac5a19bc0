ghost use Rattle.alg_build.specs.Answer.{Answer, Gives};
ghost use Rattle.alg_build.specs.Book.{Book};
ghost use Rattle.alg_steps.specs.Stepped.{with_note};
ghost use Rattle.alg_steps.specs.Giving.{GivesStep, IsOutcomeOf};

use crate::notes::Note;
use alg_build::{Outcome, TacFault};

/// What a procedure of a script made of its goal, and the note that is printed.
#[derive(Clone, Copy, Debug, Drop)]
pub struct Made {
    pub outcome: Outcome,
    pub note: Option<Note>,
}

/// Why a procedure of a script made nothing of its goal.
#[derive(Clone, Copy, Debug, Drop)]
pub enum StepFault {
    /// It has this fault.
    Fails(TacFault),
    /// The procedure, or what it does with this goal, is to come.
    NotBuilt,
}

/// The result of a procedure, with a note where it isn't a fault. It gives the answer that the procedure gives.
pub fn answered(outcome: Result<Outcome, TacFault>, note: Option<Note>) -> Result<Made, StepFault>
    ensures gives { (b : Book) → (a : Answer) → Gives b outcome a → GivesStep b result (with_note note a) }
    ensures outcome { IsOutcomeOf outcome result }
{
    match outcome {
        Ok(outcome) => Ok(Made { outcome, note }),
        Err(fault) => Err(StepFault::Fails(fault)),
    }
}
