ghost use Rattle.std.specs.Prelude.{◌≡◌, ◌≢◌, ◌+◌, ◌<◌, [], ◌∷◌, ◌++◌, length, All, IfOk, OnOk, IsTrue, ◌↔◌, None, Some};
ghost use Rattle.alg_expr.specs.Ids.{statement_of, IsStatementIn};
ghost use Rattle.alg_law.specs.WellSorted.{IsStatement};
ghost use Rattle.alg_lemma.specs.Library.{HoldsLibrary};
ghost use Rattle.alg_parse.specs.Fitting.{CallFits};
ghost use Rattle.alg_terms.specs.Tree.{Statement};
ghost use Rattle.alg_exts.specs.Covers.{IsEven};
ghost use Rattle.alg_steps.specs.Calling.{cover_of, IsProcIn};
ghost use Rattle.alg_report.specs.Judged.{listed, judged_of, cause_of};
ghost use Rattle.alg_report.specs.Seen.{calls_in};
ghost use Rattle.alg_scripts.specs.Running.{Moves, Stands, IsKept, current, IsEndOf, Tells, ProvesEnd, Stays};

use crate::steps::step;
use alg_build::{Back, Builder, Outcome, TacFault};
use alg_expr::{Arena, Memory, Stmt};
use alg_exts::{Exts, NumExt, SignExt};
use alg_parse::Proc;
use alg_report::FailCause;
use alg_steps::{Note, Procedures, StepFault};

/// Where a script stands: the goal, and the number of the line that closes it, where it is closed.
#[derive(Clone, Copy, Debug)]
pub struct State {
    pub goal: Stmt,
    pub closed: Option<usize>,
}

/// How a script ended. The line concludes the first goal, where one is left from that one as the given statement.
#[derive(Clone, Copy, Debug)]
pub enum Ending {
    Closed { line: usize },
    Open { line: usize, goal: Stmt },
    Failed { step: u64, cause: FailCause },
}

/// What a script came to.
#[derive(Debug, Drop)]
pub struct Ran {
    pub notes: Vec<Note>,
    pub ending: Ending,
}

fn push_note(notes: &mut Vec<Note>, note: Note) -> Result<(), Memory>
    ensures { IfOk result (λ _. notes.new.items ≡ notes.old.items ++ note ∷ []) }
{
    match notes.push(note) {
        Ok(()) => Ok(()),
        Err(_) => Err(Memory),
    }
}

fn noted(notes: &mut Vec<Note>, note: Option<Note>) -> Result<(), Memory>
    ensures { IfOk result (λ _. notes.new.items ≡ notes.old.items ++ listed note) }
{
    match note {
        Some(note) => push_note(notes, note),
        None => Ok(()),
    }
}

fn push_back(backs: &mut Vec<Back>, back: Back) -> Result<(), Memory>
    ensures { IfOk result (λ _. backs.new.items ≡ backs.old.items ++ back ∷ []) }
{
    match backs.push(back) {
        Ok(()) => Ok(()),
        Err(_) => Err(Memory),
    }
}

// where the script stands after a step
fn moved(goal: Stmt, backs: &mut Vec<Back>, outcome: Outcome) -> Result<State, Memory>
    ensures { IfOk result (λ s. Moves goal outcome backs.old.items backs.new.items s) }
{
    match outcome {
        Outcome::Closed { line } => Ok(State {
            goal,
            closed: Some(line),
        }),
        Outcome::Left { goal, back } => {
            push_back(backs, back)?;
            Ok(State { goal, closed: None })
        }
    }
}

// the lines that lead from the last goal to the first
fn ended(cx: &mut Builder, state: State, backs: &[Back]) -> Result<Ending, Memory>
    requires here { IsStatementIn cx.old.trees state.goal }
    requires sorted { IsStatement cx.old.theory.declarations (statement_of cx.old.trees state.goal) }
    requires given { cx.old.theory.given ≡ None }
    requires stands { (s : Statement) × Stands cx.old state backs.now s }
    ensures tells { IfOk result (λ e. IsEndOf cx.new e (current cx.old state)) }
    ensures proves { IfOk result (λ e. (s : Statement) → Stands cx.old state backs.now s → IsKept cx.old state → ProvesEnd cx.new e s) }
    ensures stays { OnOk result (Stays cx.old cx.new) }
{
    match state.closed {
        Some(line) => {
            let line = cx.conclude(backs, line)?;
            Ok(Ending::Closed { line })
        }
        None => {
            let last = cx.rest(state.goal)?;
            let line = cx.conclude(backs, last)?;
            Ok(Ending::Open {
                line,
                goal: state.goal,
            })
        }
    }
}

fn is_memory(fault: StepFault) -> bool
    ensures { IsTrue result ↔ (fault ≡ StepFault.Fails TacFault.Memory) }
{
    matches!(fault, StepFault::Fails(TacFault::Memory))
}

// the end at a fault, unless memory is wanting
fn failed(notes: Vec<Note>, step: u64, fault: StepFault) -> Result<Ran, Memory>
    ensures cause { IfOk result (λ _. fault ≢ StepFault.Fails TacFault.Memory) }
    ensures ran { IfOk result (λ r. r ≡ record { notes = notes; ending = Ending.Failed step (cause_of fault) }) }
{
    if is_memory(fault) {
        return Err(Memory);
    }
    let cause = FailCause::of(fault);
    Ok(Ran {
        notes,
        ending: Ending::Failed { step, cause },
    })
}

/// Runs the procedures of a script one after another, and leads back to the first goal.
pub fn run_script<P: Procedures>(
    cx: &mut Builder,
    goal: Stmt,
    from: &Arena,
    script: &[Proc],
    exts: &Exts<'_>,
) -> Result<Ran, Memory>
    requires some { 0 < length script.now }
    requires here { IsStatementIn cx.old.trees goal }
    requires sorted { IsStatement cx.old.theory.declarations (statement_of cx.old.trees goal) }
    requires lemmas { HoldsLibrary cx.old.theory.lemmas }
    requires given { cx.old.theory.given ≡ None }
    requires procedures { All (IsProcIn from.now) script.now }
    requires fit { All (CallFits cx.old.theory.declarations goal.sort) (calls_in from.now script.now) }
    requires even { IsEven exts.now.num.now exts.now.num_on.now exts.now.sign.now exts.now.sign_on.now }
    ensures tells { IfOk result (λ r. Tells cx.new r (judged_of (P.step (cover_of (λ x f. (⟦<dyn NumExt as NumExt>⟧ x.vtable).covered x.value f) (λ x f. (⟦<dyn SignExt as SignExt>⟧ x.vtable).handled x.value f) exts.now.num.now exts.now.num_on.now exts.now.sign.now exts.now.sign_on.now)) cx.old.theory.declarations (statement_of cx.old.trees goal) (calls_in from.now script.now))) }
    ensures proves { IfOk result (λ r. ProvesEnd cx.new r.ending (statement_of cx.old.trees goal)) }
    ensures stays { OnOk result (Stays cx.old cx.new) }
{
    let mut notes: Vec<Note> = Vec::new(cx.alloc());
    let mut backs: Vec<Back> = Vec::new(cx.alloc());
    let mut state = State { goal, closed: None };
    let mut number: u64 = 0;
    for procedure in script {
        number += 1;
        if state.closed.is_some() {
            return Ok(Ran {
                notes,
                ending: Ending::Failed {
                    step: number,
                    cause: FailCause::NoGoals,
                },
            });
        }
        match step::<P>(cx, state.goal, from, procedure, exts) {
            Ok(made) => {
                noted(&mut notes, made.note)?;
                state = moved(state.goal, &mut backs, made.outcome)?;
            }
            Err(fault) => return failed(notes, number, fault),
        }
    }
    let ending = ended(cx, state, backs.as_slice())?;
    Ok(Ran { notes, ending })
}
