ghost use Rattle.std.specs.Prelude.{◌≡◌};
ghost use Rattle.alg_kernel.specs.Answers.{IsPassed};

use alg_expr::{Memory, Stmt};
use alg_law::Mark;
use alg_terms::BadCause;
use std::alloc::AllocFailed;
use thiserror::Error;

/// Why a list of lines is refused.
#[derive(Clone, Copy, Debug, PartialEq, Eq, Drop, Error)]
pub enum Refusal {
    /// The first bad line, counted from 1, and its first cause.
    #[error("line {line} is bad")]
    Bad { line: usize, cause: BadCause },
    /// All lines are good, and the last doesn't conclude the goal, or there is none.
    #[error("the last line is not the goal")]
    WrongEnd,
    /// Want of memory.
    #[error("out of memory")]
    Memory,
}

/// A goal that was checked. Only the kernel makes one.
#[derive(Debug, Drop)]
pub struct Checked {
    pub(crate) goal: Stmt,
}

impl Checked {
    /// The goal, over the arena that the lines were checked in.
    pub fn goal(&self) -> Stmt
        ensures { result ≡ self.now.goal }
    {
        self.goal
    }
}

/// Why a line has no conclusion.
#[derive(Clone, Copy)]
pub(crate) enum Fault {
    Bad(BadCause),
    Memory,
}

impl From<Memory> for Fault {
    ghost use Rattle.alg_kernel.specs.declared.answers.Fault.TheVariants as fault;

    ghost from_gives = { λ _ f. f ≡ fault.Memory };

    fn from(_: Memory) -> Fault {
        Fault::Memory
    }
}

impl<T: Drop> From<AllocFailed<T>> for Fault {
    ghost use Rattle.alg_kernel.specs.declared.answers.Fault.TheVariants as fault;

    ghost from_gives = { λ _ f. f ≡ fault.Memory };

    fn from(_: AllocFailed<T>) -> Fault {
        Fault::Memory
    }
}

/// Goes on where the mark is good, and else has its cause.
pub(crate) fn pass(mark: Mark) -> Result<(), Fault>
    ensures { IsPassed result mark }
{
    match mark {
        Mark::Good => Ok(()),
        Mark::NoInstance => Err(Fault::Bad(BadCause::NoInstance)),
        Mark::BadSort => Err(Fault::Bad(BadCause::Sort)),
        Mark::BadName => Err(Fault::Bad(BadCause::Name)),
    }
}
