ghost use Rattle.std.specs.Prelude.{◌-◌, length, slice_get};
ghost use Rattle.alg_proof.specs.Valid.{ends_in};
ghost use Rattle.std.specs.Prelude.{◌≡◌, [], All, IfOk, OnOk, Option, option_map, true};
ghost use Rattle.alg_expr.specs.Ids.{statement_of, statements_of, IsStatementIn};
ghost use Rattle.alg_expr.specs.Arena.{Extends};
ghost use Rattle.alg_law.specs.Marks.{HasMarks};
ghost use Rattle.alg_law.specs.declared.marks.Mark.TheVariants.{Good};
ghost use Rattle.alg_proof.specs.Lines.{step_of, steps_of, IsLineIn};
ghost use Rattle.alg_proof.specs.LemmaRows.{rows_of};
ghost use Rattle.alg_proof.specs.Steps.{Theory, conclude, conclude_named, step_mark, compute_mark};
ghost use Rattle.alg_proof.specs.Valid.{verdict, verdict_from};
ghost use Rattle.alg_proof.specs.Admissible.{AllFine, IsTheory, Follows};
ghost use Rattle.alg_kernel.specs.Answers.{IsFed, GivesVerdict, IsAnswered};
ghost use Rattle.alg_kernel.specs.Claims.{HoldsWithoutGiven};
ghost use Rattle.alg_kernel.specs.Progress.{outcome};
ghost use Rattle.alg_kernel.specs.State.{theory_of, progress_of, IsGivenIn, IsSound, IsFresh, Answers, AnswersAll};
ghost use Rattle.alg_law.specs.Derivations.{Derivable};
ghost use Rattle.alg_kernel.specs.declared.answers.Refusal.TheVariants as refusal;

use crate::answers::{Checked, Fault, Refusal, pass};
use crate::grounds::Grounds;
use crate::judging::{first_look, judge};
use crate::rules::same_statement;
use alg_expr::{Arena, Memory, Stmt};
use alg_law::{Base, Mark};
use alg_proof::{Lemmas, Line};
use alg_terms::BadCause;
use std::alloc::Global;

/// The first bad line, counted from 1, with its first cause.
#[derive(Clone, Copy)]
pub(crate) struct BadLine {
    pub line: usize,
    pub cause: BadCause,
}

/// Checks proof lines one by one. The lines, the given statement and the goal are of one arena, which is handed in
/// at each call, keeps its trees between the calls, and grows by the trees that the lines conclude.
#[derive(Drop)]
pub struct Kernel<'a> {
    grounds: Grounds<'a>,
    // the marks of the first trees of the arena, so that each is looked at once
    marks: Vec<Mark>,
    // what each line concludes
    done: Vec<Stmt>,
    bad: Option<BadLine>,
}

impl<'a> Kernel<'a> {
    /// A kernel that has checked nothing.
    pub fn new(
        alloc: Global,
        lemmas: &'a Lemmas,
        base: &'a Base,
        given: Option<Stmt>,
    ) -> Result<Kernel<'a>, Memory>
        ensures { IfOk result (λ k. IsFresh (record { lemmas = lemmas.entry; base = base.entry; given = given }) k) }
    {
        let _rows = lemmas.len();
        let _declarations = base.len();
        Ok(Kernel {
            grounds: Grounds {
                lemmas,
                base,
                given,
            },
            marks: Vec::new(alloc),
            done: Vec::new(alloc),
            bad: None,
        })
    }

    /// Checks one more line. After a bad line each call answers that line again. After `Memory` the accepted lines
    /// are as before, and the line may be fed again.
    pub fn feed(&mut self, arena: &mut Arena, line: &Line) -> Result<(), Refusal>
        requires sound { IsSound arena.old self.old }
        requires line_in { IsLineIn arena.old line.now }
        ensures keeps { Extends arena.old arena.new }
        ensures grounds { self.new.grounds ≡ self.old.grounds }
        ensures answers { Answers (theory_of arena.old self.old.grounds) (progress_of arena.old self.old) (step_of arena.old line.now) (progress_of arena.new self.new) result }
        ensures sound { IsSound arena.new self.new }
    {
        if let Some(bad) = self.bad {
            return Err(refused(bad));
        }
        match self.add(arena, line) {
            Ok(()) => Ok(()),
            Err(Fault::Memory) => Err(Refusal::Memory),
            Err(Fault::Bad(cause)) => {
                let bad = BadLine {
                    line: self.done.len() + 1,
                    cause,
                };
                self.bad = Some(bad);
                Err(refused(bad))
            }
        }
    }

    // adds the conclusion of a good line
    fn add(&mut self, arena: &mut Arena, line: &Line) -> Result<(), Fault>
        requires sound { IsSound arena.old self.old }
        requires line_in { IsLineIn arena.old line.now }
        ensures keeps { Extends arena.old arena.new }
        ensures grounds { self.new.grounds ≡ self.old.grounds }
        ensures bad { self.new.bad ≡ self.old.bad }
        ensures fed { IsFed arena.new self.old.done.items self.new.done.items result (conclude (theory_of arena.old self.old.grounds) (statements_of arena.old self.old.done.items) (step_of arena.old line.now)) }
        ensures sound { IsSound arena.new self.new }
    {
        let mark = first_look(&mut self.marks, self.grounds.base, arena, line)?;
        pass(mark)?;
        let s = judge(&self.grounds, arena, &self.done, line)?;
        self.done.push(s)?;
        Ok(())
    }

    /// Whether the last line concludes the goal. After a bad line the answer is that line. It takes no memory, so `Memory`
    /// is never the answer.
    pub fn finish(self, arena: &Arena, goal: Stmt) -> Result<Checked, Refusal>
        requires sound { IsSound arena.now self }
        requires goal_in { IsStatementIn arena.now goal }
        ensures verdict { GivesVerdict result (outcome (progress_of arena.now self.entry) (statement_of arena.now goal)) }
        ensures answered { IsAnswered result }
        ensures derivable { OnOk result (Follows (theory_of arena.now self.entry.grounds) (statement_of arena.now goal)) }
        ensures holds { OnOk result (HoldsWithoutGiven self.entry.grounds.base.now (option_map (statement_of arena.now) self.entry.grounds.given) (statement_of arena.now goal)) }
        ensures goal { IfOk result (λ c. c.goal ≡ goal) }
    {
        self.end(arena, goal)
    }

    // what the lines come to
    fn end(&self, arena: &Arena, goal: Stmt) -> Result<Checked, Refusal>
        requires done_in { All (IsStatementIn arena.now) self.now.done.items }
        requires goal_in { IsStatementIn arena.now goal }
        ensures verdict { GivesVerdict result (outcome (progress_of arena.now self.now) (statement_of arena.now goal)) }
        ensures answered { IsAnswered result }
        ensures goal { IfOk result (λ c. c.goal ≡ goal) }
    {
        match self.bad {
            Some(bad) => Err(refused(bad)),
            None => last_is(arena, &self.done, goal),
        }
    }
}

// whether the last conclusion is the goal
fn last_is(arena: &Arena, done: &[Stmt], goal: Stmt) -> Result<Checked, Refusal>
    requires done_in { All (IsStatementIn arena.now) done.now }
    requires goal_in { IsStatementIn arena.now goal }
    ensures verdict { GivesVerdict result (ends_in (slice_get (statements_of arena.now done.now) (length (statements_of arena.now done.now) - 1)) (statement_of arena.now goal)) }
    ensures answered { IsAnswered result }
    ensures goal { IfOk result (λ c. c.goal ≡ goal) }
{
    match done.last() {
        Some(s) => if same_statement(arena, s, &goal) {
            Ok(Checked { goal })
        } else {
            Err(Refusal::WrongEnd)
        },
        None => Err(Refusal::WrongEnd),
    }
}

fn refused(bad: BadLine) -> Refusal
    ensures { result ≡ refusal.Bad bad.line bad.cause }
{
    Refusal::Bad {
        line: bad.line,
        cause: bad.cause,
    }
}

/// Checks that the lines prove the goal by the laws, the lemmas, the hypotheses of the base and the given statement,
/// if there is one. `Bad` names the first bad line, counted from 1, with its first cause; `WrongEnd` comes where all
/// lines are good and the last isn't the goal, or there is none. The arena keeps its trees and grows by those that
/// the lines conclude.
pub fn accept(
    alloc: Global,
    lemmas: &Lemmas,
    base: &Base,
    arena: &mut Arena,
    given: Option<Stmt>,
    goal: Stmt,
    lines: &[Line],
) -> Result<Checked, Refusal>
    requires given_in { IsGivenIn base.now arena.old given }
    requires goal_in { IsStatementIn arena.old goal }
    requires lines_in { All (IsLineIn arena.old) lines.now }
    ensures keeps { Extends arena.old arena.new }
    ensures verdict { GivesVerdict result (verdict (record { declarations = base.now; lemmas = rows_of lemmas.now; given = option_map (statement_of arena.old) given }) (steps_of arena.old lines.now) (statement_of arena.old goal)) }
    ensures derivable { OnOk result (Derivable base.now (option_map (statement_of arena.old) given) (statement_of arena.old goal)) }
    ensures holds { OnOk result (HoldsWithoutGiven base.now (option_map (statement_of arena.old) given) (statement_of arena.old goal)) }
    ensures goal { IfOk result (λ c. c.goal ≡ goal) }
{
    match Kernel::new(alloc, lemmas, base, given) {
        Err(Memory) => Err(Refusal::Memory),
        Ok(mut kernel) => {
            feed_all(&mut kernel, arena, lines)?;
            kernel.finish(arena, goal)
        }
    }
}

// checks these lines one after another, up to the first that isn't good
fn feed_all(kernel: &mut Kernel<'_>, arena: &mut Arena, lines: &[Line]) -> Result<(), Refusal>
    requires sound { IsSound arena.old kernel.old }
    requires lines_in { All (IsLineIn arena.old) lines.now }
    ensures keeps { Extends arena.old arena.new }
    ensures grounds { kernel.new.grounds ≡ kernel.old.grounds }
    ensures sound { IsSound arena.new kernel.new }
    ensures answers { AnswersAll (theory_of arena.old kernel.old.grounds) (progress_of arena.old kernel.old) (steps_of arena.old lines.now) (progress_of arena.new kernel.new) result }
{
    for line in lines {
        kernel.feed(arena, line)?;
    }
    Ok(())
}
