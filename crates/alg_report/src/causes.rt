ghost use Rattle.std.specs.Prelude.{◌≡◌};
ghost use Rattle.alg_report.specs.Texts.{fault_text, fail_text, cause_text, note_text};
ghost use Rattle.alg_report.specs.Judged.{cause_of};

use alg_build::TacFault;
use alg_parse::Cause;
use alg_steps::{Note, StepFault};

/// Why a goal fails at a procedure of its script.
#[derive(Clone, Copy, Debug)]
pub enum FailCause {
    /// The goal was closed before.
    NoGoals,
    /// The procedure has this fault.
    Proc(TacFault),
    /// The procedure, or what it does with this goal, is to come.
    NotBuilt,
}

fn text_of_fault(fault: TacFault) -> &'static str
    ensures { result.now ≡ fault_text fault }
{
    match fault {
        TacFault::WrongStructure => "wrong structure",
        TacFault::NotThisGoal => "not a goal for this procedure",
        TacFault::OutOfRange => "out of range",
        TacFault::TooLarge => "too large",
        TacFault::SidesDiffer => "sides differ",
        TacFault::NoChange => "no change",
        TacFault::GoalFalse => "goal is false",
        TacFault::SignUnknown => "sign unknown",
        TacFault::Memory => "out of memory",
    }
}

impl FailCause {
    /// The cause of a fault of a procedure.
    pub fn of(fault: StepFault) -> FailCause
        ensures { result ≡ cause_of fault }
    {
        match fault {
            StepFault::Fails(fault) => FailCause::Proc(fault),
            StepFault::NotBuilt => FailCause::NotBuilt,
        }
    }

    /// The words of the report.
    pub fn text(self) -> &'static str
        ensures { result.now ≡ fail_text self }
    {
        match self {
            FailCause::NoGoals => "no goals",
            FailCause::Proc(fault) => text_of_fault(fault),
            FailCause::NotBuilt => "not built yet",
        }
    }
}

/// The words of the report for the first cause of a faulty command.
pub fn text_of_cause(cause: Cause) -> &'static str
    ensures { result.now ≡ cause_text cause }
{
    match cause {
        Cause::Syntax => "syntax",
        Cause::UnknownName => "unknown name",
        Cause::NameTaken => "name taken",
        Cause::SortMismatch => "sort mismatch",
        Cause::NoInstance => "no instance",
        Cause::UnknownProcedure => "unknown procedure",
        Cause::BadCombination => "bad combination",
        Cause::TooDeep => "too deep",
        Cause::BadChar => "bad character",
        Cause::OpenComment => "open comment",
        Cause::LiteralTooWide => "literal too wide",
    }
}

/// The procedure that a note names.
pub fn text_of_note(note: Note) -> &'static str
    ensures { result.now ≡ note_text note }
{
    match note {
        Note::RingNf => "ring_nf",
        Note::AbelNf => "abel_nf",
    }
}
