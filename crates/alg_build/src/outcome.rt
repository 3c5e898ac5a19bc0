ghost use Rattle.std.specs.Prelude.{◌≡◌};

use alg_expr::{ExprId, Memory, Stmt};
use thiserror::Error;

/// What a procedure made of its goal.
#[derive(Clone, Copy, Debug, Drop)]
pub enum Outcome {
    /// The goal is proved by the line of this number.
    Closed { line: usize },
    /// This goal is left, and leads back to the other.
    Left { goal: Stmt, back: Back },
}

/// The lines by which a new goal with the sides l' and r' leads back to the old one with l and r.
#[derive(Clone, Copy, Debug, Drop)]
pub enum Back {
    /// They conclude `l = l'` and `r = r'`.
    Rewrite {
        left: usize,
        right: usize,
    },
    /// For an equation, and the tree m: they conclude `l * m = l'`, `r * m = r'`, `l * m * m⁻¹ = l` and
    /// `r * m * m⁻¹ = r`.
    Scale {
        by: ExprId,
        left: usize,
        right: usize,
        back_left: usize,
        back_right: usize,
    },
}

/// Why a procedure made nothing of its goal. The lines are then as they were.
#[derive(Clone, Copy, Debug, Drop, Error)]
pub enum TacFault {
    /// The sort lacks a class that the procedure needs.
    #[error("wrong structure")]
    WrongStructure,
    /// The goal is of another form than the procedure takes.
    #[error("not this goal")]
    NotThisGoal,
    /// A number is above 2^127 - 1, or a weight or degree too great.
    #[error("out of range")]
    OutOfRange,
    /// An intermediate result has too many terms.
    #[error("too large")]
    TooLarge,
    /// The sides have different normal forms.
    #[error("sides differ")]
    SidesDiffer,
    /// The goal is its own normal form.
    #[error("no change")]
    NoChange,
    /// The goal doesn't hold.
    #[error("goal is false")]
    GoalFalse,
    /// A sign that is needed isn't known.
    #[error("sign unknown")]
    SignUnknown,
    /// Want of memory.
    #[error("out of memory")]
    Memory,
}

impl From<Memory> for TacFault {
    ghost use Rattle.alg_build.specs.declared.outcome.TacFault.TheVariants as fault;

    ghost from_gives = { λ _ f. f ≡ fault.Memory };

    fn from(_: Memory) -> TacFault {
        TacFault::Memory
    }
}
