ghost use Rattle.std.specs.Prelude.{IfOk};
ghost use Rattle.alg_expr.specs.Ids.{statement_of, IsStatementIn};
ghost use Rattle.alg_law.specs.WellSorted.{IsStatement};
ghost use Rattle.alg_lemma.specs.Library.{HoldsLibrary};
ghost use Rattle.alg_parse.specs.Fitting.{CallFits};
ghost use Rattle.alg_build.specs.Answer.{Leads};
ghost use Rattle.alg_build.specs.Book.{Grows};
ghost use Rattle.alg_exts.specs.Covers.{IsEven};
ghost use Rattle.alg_steps.specs.Calling.{cover_of, call_in, IsProcIn};
ghost use Rattle.alg_steps.specs.Giving.{GivesStep};

use crate::combinations::imported;
use alg_build::{Builder, TacFault};
use alg_expr::{Arena, Stmt};
use alg_exts::{Exts, NumExt, SignExt};
use alg_parse::Proc;
use alg_steps::{Made, Procedures, StepFault};

/// What a procedure of a script makes of the goal as it stands. Its expressions are of another arena.
pub fn step<P: Procedures>(
    cx: &mut Builder,
    goal: Stmt,
    from: &Arena,
    procedure: &Proc,
    exts: &Exts<'_>,
) -> Result<Made, StepFault>
    requires here { IsStatementIn cx.old.trees goal }
    requires sorted { IsStatement cx.old.theory.declarations (statement_of cx.old.trees goal) }
    requires lemmas { HoldsLibrary cx.old.theory.lemmas }
    requires procedure { IsProcIn from.now procedure.now }
    requires fits { CallFits cx.old.theory.declarations goal.sort (call_in from.now procedure.now) }
    requires even { IsEven exts.now.num.now exts.now.num_on.now exts.now.sign.now exts.now.sign_on.now }
    ensures answer { GivesStep cx.new result (P.step (cover_of (λ x f. (⟦<dyn NumExt as NumExt>⟧ x.vtable).covered x.value f) (λ x f. (⟦<dyn SignExt as SignExt>⟧ x.vtable).handled x.value f) exts.now.num.now exts.now.num_on.now exts.now.sign.now exts.now.sign_on.now) cx.old.theory.declarations (call_in from.now procedure.now) (statement_of cx.old.trees goal)) }
    ensures leads { IfOk result (λ m. Leads cx.new m.outcome (statement_of cx.old.trees goal)) }
    ensures grows { Grows cx.old cx.new }
{
    match imported(cx, from, procedure) {
        Ok(procedure) => P::call(cx, goal, &procedure, exts),
        Err(_) => Err(StepFault::Fails(TacFault::Memory)),
    }
}
