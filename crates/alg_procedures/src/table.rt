ghost use Rattle.std.specs.Prelude.{◌≡◌, IfOk, None, OnErr, length};
ghost use Rattle.alg_expr.specs.Ids.{statement_of, IsStatementIn};
ghost use Rattle.alg_law.specs.WellSorted.{IsStatement};
ghost use Rattle.alg_lemma.specs.Library.{HoldsLibrary};
ghost use Rattle.alg_build.specs.Answer.{Leads};
ghost use Rattle.alg_build.specs.Book.{Grows, LeavesLines};
ghost use Rattle.alg_exts.specs.Covers.{covered_by, IsEven};
ghost use Rattle.alg_normnum.specs.Answer.{norm_num_answer};
ghost use Rattle.alg_steps.specs.Calling.{cover_of};
ghost use Rattle.alg_steps.specs.Giving.{GivesStep};
ghost use Rattle.alg_steps.specs.Stepped.{with_note};
ghost use Rattle.alg_procedures.specs.Table.{named_step};

use alg_build::Builder;
use alg_expr::Stmt;
use alg_exts::{Exts, NumExt, SignExt};
use alg_normnum::norm_num;
use alg_parse::{Proc, Procedure};
use alg_steps::{Made, Procedures, StepFault, answered};

/// The procedures of the program.
pub struct Table;

fn call_norm_num(cx: &mut Builder, goal: Stmt, exts: &Exts<'_>) -> Result<Made, StepFault>
    requires here { IsStatementIn cx.old.trees goal }
    requires sorted { IsStatement cx.old.theory.declarations (statement_of cx.old.trees goal) }
    requires lemmas { HoldsLibrary cx.old.theory.lemmas }
    requires even { length exts.now.num_on.now ≡ length exts.now.num.now }
    ensures answer { GivesStep cx.new result (with_note None (norm_num_answer (covered_by (λ x f. (⟦<dyn NumExt as NumExt>⟧ x.vtable).covered x.value f) exts.now.num.now exts.now.num_on.now) cx.old.theory.declarations (statement_of cx.old.trees goal))) }
    ensures leads { IfOk result (λ m. Leads cx.new m.outcome (statement_of cx.old.trees goal)) }
    ensures grows { Grows cx.old cx.new }
    ensures leaves { OnErr result (LeavesLines cx.old cx.new) }
{
    answered(norm_num(cx, goal, exts), None)
}

fn call_named(
    cx: &mut Builder,
    goal: Stmt,
    procedure: Procedure,
    exts: &Exts<'_>,
) -> Result<Made, StepFault>
    requires here { IsStatementIn cx.old.trees goal }
    requires sorted { IsStatement cx.old.theory.declarations (statement_of cx.old.trees goal) }
    requires lemmas { HoldsLibrary cx.old.theory.lemmas }
    requires even { IsEven exts.now.num.now exts.now.num_on.now exts.now.sign.now exts.now.sign_on.now }
    ensures answer { GivesStep cx.new result (named_step (cover_of (λ x f. (⟦<dyn NumExt as NumExt>⟧ x.vtable).covered x.value f) (λ x f. (⟦<dyn SignExt as SignExt>⟧ x.vtable).handled x.value f) exts.now.num.now exts.now.num_on.now exts.now.sign.now exts.now.sign_on.now) cx.old.theory.declarations procedure (statement_of cx.old.trees goal)) }
    ensures leads { IfOk result (λ m. Leads cx.new m.outcome (statement_of cx.old.trees goal)) }
    ensures grows { Grows cx.old cx.new }
    ensures leaves { OnErr result (LeavesLines cx.old cx.new) }
{
    match procedure {
        Procedure::NormNum => call_norm_num(cx, goal, exts),
        _ => Err(StepFault::NotBuilt),
    }
}

impl Procedures for Table {
    ghost use Rattle.alg_procedures.specs.Table.{table_step};

    ghost step = { table_step };

    fn call(
        cx: &mut Builder,
        goal: Stmt,
        procedure: &Proc,
        exts: &Exts<'_>,
    ) -> Result<Made, StepFault> {
        match procedure {
            Proc::Named(named) => call_named(cx, goal, *named, exts),
            Proc::LinearCombination(_) => Err(StepFault::NotBuilt),
        }
    }
}
