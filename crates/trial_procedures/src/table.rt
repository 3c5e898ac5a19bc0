ghost use Rattle.std.specs.Prelude.{◌≡◌, IfOk, OnErr};
ghost use Rattle.alg_terms.specs.declared.sorts.Sort.TheVariants.{Nat};
ghost use Rattle.alg_terms.specs.Tree.{Lit, sum_tree};
ghost use Rattle.alg_expr.specs.Ids.{tree_of, statement_of, IsStatementIn};
ghost use Rattle.alg_law.specs.WellSorted.{IsStatement};
ghost use Rattle.alg_build.specs.Answer.{Gives, Leads};
ghost use Rattle.alg_build.specs.Book.{Grows, LeavesLines};
ghost use Rattle.alg_build.specs.Rewriting.{Stands, Turns};
ghost use Rattle.alg_ends.specs.CommonEnd.{common_end};
ghost use Rattle.alg_steps.specs.Giving.{GivesStep};
ghost use Rattle.trial_procedures.specs.Trial.{kept_answer, zero_answer, trial_named};

use alg_build::{Builder, Outcome, Rewriting, TacFault, back, keep, plus};
use alg_ends::end_with;
use alg_expr::{ExprId, Memory, Sort, Stmt};
use alg_exts::Exts;
use alg_parse::{Proc, Procedure};
use alg_rows::sums::zero_add;
use alg_steps::{Made, Note, Procedures, StepFault, answered};

/// Procedures that show what a run does with their answers. None asks an extension.
///
/// - `ring1` closes a goal whose sides are one tree, and `ring` does so with a note;
/// - `ring_nf` puts `0 +` before the left side of a goal of ℕ, and `abel` does so with a note;
/// - the others aren't built.
pub struct Trial;

// `0 + a`, as it is
#[tactic(auto, using(crate::proofs::Leaving::leaving))]
fn sum_with_zero(cx: &mut Builder, a: ExprId) -> Result<Rewriting, Memory>
    requires { Stands cx.old Nat a (tree_of cx.old.trees a) }
    ensures turns { IfOk result (λ r. Turns cx.new Nat r (sum_tree Nat (Lit Nat 0) (tree_of cx.old.trees a)) (sum_tree Nat (Lit Nat 0) (tree_of cx.old.trees a))) }
    ensures grows { Grows cx.old cx.new }
{
    let zero = cx.lit(Sort::Nat, 0)?;
    let left = keep(cx, zero);
    let right = keep(cx, a);
    let sum = plus(cx, Sort::Nat, left, right)?;
    Ok(sum)
}

// `a = 0 + a`
#[tactic(auto, using(crate::proofs::Leaving::leaving))]
fn with_zero(cx: &mut Builder, a: ExprId) -> Result<Rewriting, Memory>
    requires { Stands cx.old Nat a (tree_of cx.old.trees a) }
    ensures turns { IfOk result (λ r. Turns cx.new Nat r (tree_of cx.old.trees a) (sum_tree Nat (Lit Nat 0) (tree_of cx.old.trees a))) }
    ensures grows { Grows cx.old cx.new }
{
    let sum = sum_with_zero(cx, a)?;
    let row = zero_add(cx, Sort::Nat, a)?;
    let from = back(cx, sum.to, row)?;
    Ok(from)
}

// The common end of the goal as it stands.
#[tactic(auto, using(crate::proofs::Leaving::leaving))]
fn keep_sides(cx: &mut Builder, goal: Stmt) -> Result<Outcome, TacFault>
    requires here { IsStatementIn cx.old.trees goal }
    requires sorted { IsStatement cx.old.theory.declarations (statement_of cx.old.trees goal) }
    ensures answer { Gives cx.new result (kept_answer (statement_of cx.old.trees goal)) }
    ensures leads { IfOk result (λ o. Leads cx.new o (statement_of cx.old.trees goal)) }
    ensures grows { Grows cx.old cx.new }
{
    let left = keep(cx, goal.lhs);
    let right = keep(cx, goal.rhs);
    end_with(cx, goal, left, right)
}

// The common end with `0 +` before the left side.
#[tactic(auto, using(crate::proofs::Leaving::leaving))]
fn add_zero_left(cx: &mut Builder, goal: Stmt) -> Result<Outcome, TacFault>
    requires here { IsStatementIn cx.old.trees goal }
    requires sorted { IsStatement cx.old.theory.declarations (statement_of cx.old.trees goal) }
    requires sort { goal.sort ≡ Nat }
    ensures answer { Gives cx.new result (common_end (statement_of cx.old.trees goal) (sum_tree Nat (Lit Nat 0) (tree_of cx.old.trees goal.lhs)) (tree_of cx.old.trees goal.rhs)) }
    ensures leads { IfOk result (λ o. Leads cx.new o (statement_of cx.old.trees goal)) }
    ensures grows { Grows cx.old cx.new }
{
    let left = with_zero(cx, goal.lhs)?;
    let right = keep(cx, goal.rhs);
    end_with(cx, goal, left, right)
}

fn add_zero(cx: &mut Builder, goal: Stmt) -> Result<Outcome, TacFault>
    requires here { IsStatementIn cx.old.trees goal }
    requires sorted { IsStatement cx.old.theory.declarations (statement_of cx.old.trees goal) }
    ensures answer { Gives cx.new result (zero_answer (statement_of cx.old.trees goal)) }
    ensures leads { IfOk result (λ o. Leads cx.new o (statement_of cx.old.trees goal)) }
    ensures grows { Grows cx.old cx.new }
{
    match goal.sort {
        Sort::Nat => add_zero_left(cx, goal),
        Sort::Int => Err(TacFault::WrongStructure),
        Sort::Rat => Err(TacFault::WrongStructure),
        Sort::Decl(_) => Err(TacFault::WrongStructure),
    }
}

#[tactic(auto, using(crate::proofs::Leaving::going_back))]
fn keep_or_go_back(cx: &mut Builder, goal: Stmt) -> Result<Outcome, TacFault>
    requires here { IsStatementIn cx.old.trees goal }
    requires sorted { IsStatement cx.old.theory.declarations (statement_of cx.old.trees goal) }
    ensures answer { Gives cx.new result (kept_answer (statement_of cx.old.trees goal)) }
    ensures leads { IfOk result (λ o. Leads cx.new o (statement_of cx.old.trees goal)) }
    ensures grows { Grows cx.old cx.new }
    ensures leaves { OnErr result (LeavesLines cx.old cx.new) }
{
    let mark = cx.mark();
    match keep_sides(cx, goal) {
        Ok(outcome) => Ok(outcome),
        Err(fault) => {
            cx.back_to(mark);
            Err(fault)
        }
    }
}

#[tactic(auto, using(crate::proofs::Leaving::going_back))]
fn add_zero_or_go_back(cx: &mut Builder, goal: Stmt) -> Result<Outcome, TacFault>
    requires here { IsStatementIn cx.old.trees goal }
    requires sorted { IsStatement cx.old.theory.declarations (statement_of cx.old.trees goal) }
    ensures answer { Gives cx.new result (zero_answer (statement_of cx.old.trees goal)) }
    ensures leads { IfOk result (λ o. Leads cx.new o (statement_of cx.old.trees goal)) }
    ensures grows { Grows cx.old cx.new }
    ensures leaves { OnErr result (LeavesLines cx.old cx.new) }
{
    let mark = cx.mark();
    match add_zero(cx, goal) {
        Ok(outcome) => Ok(outcome),
        Err(fault) => {
            cx.back_to(mark);
            Err(fault)
        }
    }
}

fn call_named(cx: &mut Builder, goal: Stmt, procedure: Procedure) -> Result<Made, StepFault>
    requires here { IsStatementIn cx.old.trees goal }
    requires sorted { IsStatement cx.old.theory.declarations (statement_of cx.old.trees goal) }
    ensures answer { GivesStep cx.new result (trial_named procedure (statement_of cx.old.trees goal)) }
    ensures leads { IfOk result (λ m. Leads cx.new m.outcome (statement_of cx.old.trees goal)) }
    ensures grows { Grows cx.old cx.new }
    ensures leaves { OnErr result (LeavesLines cx.old cx.new) }
{
    match procedure {
        Procedure::Ring1 => answered(keep_or_go_back(cx, goal), None),
        Procedure::Ring => answered(keep_or_go_back(cx, goal), Some(Note::RingNf)),
        Procedure::RingNf => answered(add_zero_or_go_back(cx, goal), None),
        Procedure::Abel => answered(add_zero_or_go_back(cx, goal), Some(Note::AbelNf)),
        _ => Err(StepFault::NotBuilt),
    }
}

impl Procedures for Trial {
    ghost use Rattle.trial_procedures.specs.Trial.{trial_step};

    ghost step = { trial_step };

    fn call(
        cx: &mut Builder,
        goal: Stmt,
        procedure: &Proc,
        _exts: &Exts<'_>,
    ) -> Result<Made, StepFault> {
        match procedure {
            Proc::Named(named) => call_named(cx, goal, *named),
            Proc::LinearCombination(_) => Err(StepFault::NotBuilt),
        }
    }
}
