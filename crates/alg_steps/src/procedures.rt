use crate::answers::{Made, StepFault};
use alg_build::Builder;
use alg_expr::Stmt;
use alg_exts::{Exts, NumExt, SignExt};
use alg_parse::Proc;

/// A table of procedures.
pub trait Procedures {
    ghost use Rattle.std.specs.Prelude.{IfOk, OnErr};
    ghost use Rattle.alg_expr.specs.Ids.{statement_of, IsStatementIn};
    ghost use Rattle.alg_law.specs.WellSorted.{IsStatement};
    ghost use Rattle.alg_lemma.specs.Library.{HoldsLibrary};
    ghost use Rattle.alg_parse.specs.Fitting.{CallFits};
    ghost use Rattle.alg_build.specs.Answer.{Leads};
    ghost use Rattle.alg_build.specs.Book.{Grows, LeavesLines};
    ghost use Rattle.alg_exts.specs.Covers.{Cover, IsEven};
    ghost use Rattle.alg_steps.specs.Stepped.{Steps};
    ghost use Rattle.alg_steps.specs.Giving.{GivesStep};
    ghost use Rattle.alg_steps.specs.Calling.{cover_of, call_in, IsProcIn};

    /// What a procedure answers to a goal, by what the extensions cover and handle, the declarations in force, and the
    /// call that a script makes of it.
    ghost step: { Cover → Steps };

    /// Runs one procedure of a script on a goal that isn't closed. Of the extensions those are asked that are on.
    ///
    /// What is closed has a line, and what is left leads back to the goal. Lines, atoms and trees that were there stay;
    /// after a fault the lines are as before. `Memory` may come at any time.
    fn call(
        cx: &mut Builder,
        goal: Stmt,
        procedure: &Proc,
        exts: &Exts<'_>,
    ) -> Result<Made, StepFault>
        requires here { IsStatementIn cx.old.trees goal }
        requires sorted { IsStatement cx.old.theory.declarations (statement_of cx.old.trees goal) }
        requires lemmas { HoldsLibrary cx.old.theory.lemmas }
        // the expressions are of the builder's arena, and a combination is one of hypotheses in force, of the goal's sort
        requires procedure { IsProcIn cx.old.trees procedure.now }
        requires fits { CallFits cx.old.theory.declarations goal.sort (call_in cx.old.trees procedure.now) }
        requires even { IsEven exts.now.num.now exts.now.num_on.now exts.now.sign.now exts.now.sign_on.now }
        // what `step` answers under what the extensions that are on cover and handle
        ensures answer { GivesStep cx.new result (step (cover_of (λ x f. (⟦<dyn NumExt as NumExt>⟧ x.vtable).covered x.value f) (λ x f. (⟦<dyn SignExt as SignExt>⟧ x.vtable).handled x.value f) exts.now.num.now exts.now.num_on.now exts.now.sign.now exts.now.sign_on.now) cx.old.theory.declarations (call_in cx.old.trees procedure.now) (statement_of cx.old.trees goal)) }
        ensures leads { IfOk result (λ m. Leads cx.new m.outcome (statement_of cx.old.trees goal)) }
        ensures grows { Grows cx.old cx.new }
        ensures leaves { OnErr result (LeavesLines cx.old cx.new) };
}
