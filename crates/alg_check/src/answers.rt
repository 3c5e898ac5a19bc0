ghost use Rattle.std.specs.Prelude.{◌≡◌, IfOk, string_bytes};
ghost use Rattle.alg_check.specs.Findings.{accepts};
ghost use Rattle.alg_check.specs.Text.{cause_text, answer_text, no_goal_text, bad_text};

use alg_expr::Text;
use alg_terms::BadCause;
use std::alloc::{AllocError, Global};

/// What an entry comes to, over its goal.
#[derive(Drop)]
pub enum Answer {
    /// What it takes as given is no statement over the declarations of the goal, or too long.
    BadGiven,
    /// The first bad line, counted from 1, with its first cause.
    BadLine { line: usize, cause: BadCause },
    /// All lines are good, and the last isn't the goal, or there is none.
    WrongEnd,
    /// Its lines prove the goal from this statement.
    AcceptedFrom(Text),
    /// Its lines prove the goal.
    Accepted,
}

fn text_of_cause(cause: BadCause) -> &'static str
    ensures { result.now ≡ cause_text cause }
{
    match cause {
        BadCause::Reference => "bad reference",
        BadCause::Name => "bad name",
        BadCause::Sort => "bad sort",
        BadCause::NoInstance => "no instance",
        BadCause::Literal => "bad literal",
        BadCause::Shape => "bad shape",
    }
}

fn text_of_bad_line(
    alloc: Global,
    label: &str,
    line: usize,
    cause: BadCause,
) -> Result<String, AllocError>
    ensures { IfOk result (λ text. string_bytes text ≡ answer_text label.now (Answer.BadLine line cause)) }
{
    let why = text_of_cause(cause);
    format!(in alloc; "{label}: refused at line {line}: {why}\n")
}

impl Answer {
    pub(crate) fn accepts(&self) -> bool
        ensures { result ≡ accepts self.now }
    {
        matches!(self, Answer::AcceptedFrom(_) | Answer::Accepted)
    }

    /// The line of an entry for the goal with this label.
    pub(crate) fn text(&self, alloc: Global, label: &str) -> Result<String, AllocError>
        ensures { IfOk result (λ text. string_bytes text ≡ answer_text label.now self.now) }
    {
        match self {
            Answer::BadGiven => format!(in alloc; "{label}: refused: given is not a statement\n"),
            Answer::BadLine { line, cause } => text_of_bad_line(alloc, label, *line, *cause),
            Answer::WrongEnd => format!(in alloc; "{label}: refused: last line is not the goal\n"),
            Answer::AcceptedFrom(text) => {
                let given = text.as_str();
                format!(in alloc; "{label}: accepted from {given}\n")
            }
            Answer::Accepted => format!(in alloc; "{label}: accepted\n"),
        }
    }
}

/// The line of an entry whose number no goal has that may stand there.
pub(crate) fn text_of_no_goal(alloc: Global, number: u128) -> Result<String, AllocError>
    ensures { IfOk result (λ text. string_bytes text ≡ no_goal_text number) }
{
    format!(in alloc; "goal {number}: refused: no such goal\n")
}

/// The line of a place where no line begins.
pub(crate) fn text_of_fault(alloc: Global, offset: usize) -> Result<String, AllocError>
    ensures { IfOk result (λ text. string_bytes text ≡ bad_text offset) }
{
    format!(in alloc; "certificate: bad at byte {offset}\n")
}
