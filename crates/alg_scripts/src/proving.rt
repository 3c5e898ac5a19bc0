ghost use Rattle.std.specs.Prelude.{◌≡◌, ◌++◌, ◌<◌, length, take, All, IfOk};
ghost use Rattle.alg_expr.specs.Ids.{statement_of, IsStatementIn};
ghost use Rattle.alg_law.specs.Declarations.{declarations_of};
ghost use Rattle.alg_law.specs.WellSorted.{IsStatement};
ghost use Rattle.alg_proof.specs.LemmaRows.{rows_of};
ghost use Rattle.alg_lemma.specs.Lemmas.{lemma_table};
ghost use Rattle.alg_parse.specs.FileTrees.{IsGoalIn};
ghost use Rattle.alg_parse.specs.Fitting.{CallFits};
ghost use Rattle.alg_show.specs.ReadingBack.{AreDeclarable};
ghost use Rattle.alg_certificate_lines.specs.Arguments.{HaveArguments};
ghost use Rattle.alg_exts.specs.Covers.{IsEven};
ghost use Rattle.alg_steps.specs.Calling.{cover_of, IsProcIn};
ghost use Rattle.alg_report.specs.Judged.{judged_of};
ghost use Rattle.alg_report.specs.Seen.{calls_in};
ghost use Rattle.alg_scripts.specs.Fates.{MayNumber, IsFateOf, IsWithout};
ghost use Rattle.alg_scripts.specs.Posing.{IsPosed};

use crate::fates::{End, Fate};
use crate::finishing::finish;
use crate::running::{Ran, run_script};
use alg_build::Builder;
use alg_expr::{Arena, Memory, Stmt};
use alg_exts::{Exts, NumExt, SignExt};
use alg_law::{Base, Declared};
use alg_parse::{FileTree, Proc};
use alg_proof::Lemmas;
use alg_report::FailCause;
use alg_steps::Procedures;
use std::alloc::Global;
use std::rc::Rc;

// runs a script of one procedure at least over a builder that has no line yet
fn run_over<P: Procedures>(
    alloc: Global,
    mut cx: Builder,
    goal: Stmt,
    from: &Arena,
    script: &[Proc],
    exts: &Exts<'_>,
    number: Option<u128>,
) -> Result<Fate, Memory>
    requires some { 0 < length script.now }
    requires here { IsStatementIn cx.trees goal }
    requires sorted { IsStatement cx.theory.declarations (statement_of cx.trees goal) }
    requires lemmas { cx.theory.lemmas ≡ lemma_table }
    requires given { cx.theory.given ≡ None }
    requires arguments { HaveArguments cx.theory.declarations }
    requires procedures { All (IsProcIn from.now) script.now }
    requires fit { All (CallFits cx.theory.declarations goal.sort) (calls_in from.now script.now) }
    requires even { IsEven exts.now.num.now exts.now.num_on.now exts.now.sign.now exts.now.sign_on.now }
    requires number { MayNumber number }
    ensures { IfOk result (IsFateOf number cx.theory.declarations (statement_of cx.trees goal) (judged_of (P.step (cover_of (λ x f. (⟦<dyn NumExt as NumExt>⟧ x.vtable).covered x.value f) (λ x f. (⟦<dyn SignExt as SignExt>⟧ x.vtable).handled x.value f) exts.now.num.now exts.now.num_on.now exts.now.sign.now exts.now.sign_on.now)) cx.theory.declarations (statement_of cx.trees goal) (calls_in from.now script.now))) }
{
    let Ran { notes, ending } = run_script::<P>(&mut cx, goal, from, script, exts)?;
    let end = finish(alloc, cx, goal, ending, number)?;
    Ok(Fate { notes, end })
}

// A goal, in a builder that has no line yet.
#[derive(Drop)]
struct Posed {
    cx: Builder,
    goal: Stmt,
}

// a builder over the declarations of a goal, with a copy of the goal
fn pose(
    alloc: Global,
    lemmas: &Rc<Lemmas>,
    file: &FileTree,
    prefix: usize,
    local: &[Declared],
    stmt: Stmt,
) -> Result<Posed, Memory>
    requires goal { IsGoalIn file.now.arena file.now.shared prefix local.now stmt }
    requires lemmas { rows_of lemmas.now.value ≡ lemma_table }
    ensures { IfOk result (IsPosed (take prefix file.now.shared ++ declarations_of file.now.arena local.now) (statement_of file.now.arena stmt)) }
{
    let base = Base::joined(alloc, &file.shared, prefix, &file.arena, local)?;
    let lemmas = lemmas.clone()?;
    let mut cx = Builder::new(alloc, base, lemmas)?;
    let goal = cx.import(&file.arena, stmt)?;
    Ok(Posed { cx, goal })
}

// what becomes of a goal without a procedure; no script is without one
fn without_procedure(alloc: Global) -> Fate
    ensures { IsWithout result }
{
    Fate {
        notes: Vec::new(alloc),
        end: End::Failed {
            step: 1,
            cause: FailCause::NoGoals,
        },
    }
}

/// Runs the script of a goal of a file: proves the goal, or leaves a statement from which it is proved, and has the kernel
/// check the proof; or finds why it fails. Where a number is given, a proof comes with its entry in a certificate.
pub fn prove_goal<P: Procedures>(
    alloc: Global,
    lemmas: &Rc<Lemmas>,
    file: &FileTree,
    prefix: usize,
    local: &[Declared],
    stmt: Stmt,
    script: &[Proc],
    exts: &Exts<'_>,
    number: Option<u128>,
) -> Result<Fate, Memory>
    requires goal { IsGoalIn file.now.arena file.now.shared prefix local.now stmt }
    requires declarable { AreDeclarable (take prefix file.now.shared ++ declarations_of file.now.arena local.now) }
    requires lemmas { rows_of lemmas.now.value ≡ lemma_table }
    requires procedures { All (IsProcIn file.now.arena) script.now }
    requires fit { All (CallFits (take prefix file.now.shared ++ declarations_of file.now.arena local.now) stmt.sort) (calls_in file.now.arena script.now) }
    requires even { IsEven exts.now.num.now exts.now.num_on.now exts.now.sign.now exts.now.sign_on.now }
    requires number { MayNumber number }
    ensures { IfOk result (IsFateOf number (take prefix file.now.shared ++ declarations_of file.now.arena local.now) (statement_of file.now.arena stmt) (judged_of (P.step (cover_of (λ x f. (⟦<dyn NumExt as NumExt>⟧ x.vtable).covered x.value f) (λ x f. (⟦<dyn SignExt as SignExt>⟧ x.vtable).handled x.value f) exts.now.num.now exts.now.num_on.now exts.now.sign.now exts.now.sign_on.now)) (take prefix file.now.shared ++ declarations_of file.now.arena local.now) (statement_of file.now.arena stmt) (calls_in file.now.arena script.now))) }
{
    if script.is_empty() {
        return Ok(without_procedure(alloc));
    }
    let Posed { cx, goal } = pose(alloc, lemmas, file, prefix, local, stmt)?;
    run_over::<P>(alloc, cx, goal, &file.arena, script, exts, number)
}
