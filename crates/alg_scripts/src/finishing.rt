ghost use Rattle.std.specs.Prelude.{◌≡◌, All, IfOk, IfSome};
ghost use Rattle.std.specs.Option.{option_map};
ghost use Rattle.alg_expr.specs.Ids.{statement_of, IsStatementIn};
ghost use Rattle.alg_proof.specs.Lines.{steps_of, IsLineIn};
ghost use Rattle.alg_lemma.specs.Lemmas.{lemma_table};
ghost use Rattle.alg_certificate_lines.specs.Arguments.{HaveArguments};
ghost use Rattle.alg_build.specs.Book.{Concludes};
ghost use Rattle.alg_report.specs.Judged.{Closed, Open};
ghost use Rattle.alg_report.specs.Certificate.{MayBeGiven, claims};
ghost use Rattle.alg_scripts.specs.Fates.{MayNumber, IsWritten, IsProofOf, IsEnd};
ghost use Rattle.alg_scripts.specs.Running.{LeavesNone, LeavesOpen, ProvesEnd, verdict_of};

use crate::entries::{Proof, entry_of};
use crate::fates::End;
use crate::running::Ending;
use alg_build::{Builder, Parts};
use alg_expr::{Arena, Memory, Stmt};
use alg_kernel::{Proved, Refusal};
use alg_proof::Line;
use alg_show::show;
use std::alloc::Global;

// the entry of a certificate, where the number of one is given
fn entry_for(
    alloc: Global,
    number: Option<u128>,
    arena: &Arena,
    given: Option<Stmt>,
    lines: &[Line],
) -> Result<Option<Vec<u8>>, Memory>
    requires number { MayNumber number }
    requires given { IfSome given (IsStatementIn arena.now) }
    requires lines_in { All (IsLineIn arena.now) lines.now }
    ensures { IfOk result (IsWritten number (option_map (statement_of arena.now) given) (steps_of arena.now lines.now)) }
{
    match number {
        Some(number) => Ok(Some(entry_of(alloc, number, arena, given, lines)?)),
        None => Ok(None),
    }
}

/// Has the kernel check the lines up to the one that concludes the goal, from the given statement where there is one. It
/// never refuses them.
pub fn check(
    alloc: Global,
    mut cx: Builder,
    goal: Stmt,
    line: usize,
    number: Option<u128>,
) -> Result<Proof, Memory>
    requires here { IsStatementIn cx.trees goal }
    requires concludes { Concludes cx line (statement_of cx.trees goal) }
    requires lemmas { cx.theory.lemmas ≡ lemma_table }
    requires arguments { HaveArguments cx.theory.declarations }
    requires may { IfSome cx.theory.given (MayBeGiven cx.theory.declarations) }
    requires number { MayNumber number }
    ensures { IfOk result (IsProofOf number (claims cx.theory.declarations cx.theory.given (statement_of cx.trees goal))) }
{
    cx.back_to(line);
    let Parts {
        base,
        lemmas,
        mut arena,
        lines,
        given,
    } = cx.into_parts();
    // the clauses of `len` keep the numbers of hypotheses and lines within those of a certificate
    let _declarations = base.len();
    let _lines = lines.len();
    let entry = entry_for(alloc, number, &arena, given, &lines)?;
    match Proved::new(alloc, &lemmas, base, &mut arena, given, goal, &lines) {
        Ok(proved) => Ok(Proof { proved, entry }),
        Err(Refusal::Memory) => Err(Memory),
        Err(_) => unreachable!(),
    }
}

fn closed(
    alloc: Global,
    cx: Builder,
    goal: Stmt,
    line: usize,
    number: Option<u128>,
) -> Result<End, Memory>
    requires here { IsStatementIn cx.trees goal }
    requires lemmas { cx.theory.lemmas ≡ lemma_table }
    requires none { LeavesNone cx line (statement_of cx.trees goal) }
    requires arguments { HaveArguments cx.theory.declarations }
    requires number { MayNumber number }
    ensures { IfOk result (λ e. IsEnd number cx.theory.declarations (statement_of cx.trees goal) e Closed) }
{
    let proof = check(alloc, cx, goal, line, number)?;
    Ok(End::Closed(proof))
}

fn opened(
    alloc: Global,
    cx: Builder,
    goal: Stmt,
    line: usize,
    left: Stmt,
    number: Option<u128>,
) -> Result<End, Memory>
    requires here { IsStatementIn cx.trees goal }
    requires lemmas { cx.theory.lemmas ≡ lemma_table }
    requires open { LeavesOpen cx line left (statement_of cx.trees goal) }
    requires arguments { HaveArguments cx.theory.declarations }
    requires number { MayNumber number }
    ensures { IfOk result (λ e. IsEnd number cx.theory.declarations (statement_of cx.trees goal) e (Open (statement_of cx.trees left))) }
{
    let text = show(alloc, cx.base(), cx.arena(), left)?;
    let proof = check(alloc, cx, goal, line, number)?;
    Ok(End::Open { proof, text })
}

/// What became of the goal of a script that came to this end: its proof is checked, and what is left of it is shown.
pub fn finish(
    alloc: Global,
    cx: Builder,
    goal: Stmt,
    ending: Ending,
    number: Option<u128>,
) -> Result<End, Memory>
    requires here { IsStatementIn cx.trees goal }
    requires lemmas { cx.theory.lemmas ≡ lemma_table }
    requires proves { ProvesEnd cx ending (statement_of cx.trees goal) }
    requires arguments { HaveArguments cx.theory.declarations }
    requires number { MayNumber number }
    ensures { IfOk result (λ e. IsEnd number cx.theory.declarations (statement_of cx.trees goal) e (verdict_of cx ending)) }
{
    match ending {
        Ending::Closed { line } => closed(alloc, cx, goal, line, number),
        Ending::Open { line, goal: left } => opened(alloc, cx, goal, line, left, number),
        Ending::Failed { step, cause } => Ok(End::Failed { step, cause }),
    }
}
