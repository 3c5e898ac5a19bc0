ghost use Rattle.std.specs.Prelude.{◌≡◌, List, [], Some, All, IfOk, IfErr};
ghost use Rattle.alg_expr.specs.Arena.{Extends};
ghost use Rattle.alg_expr.specs.Ids.{statement_of, IsStatementIn};
ghost use Rattle.alg_law.specs.Declarations.{Declaration, IsDeclaredIn};
ghost use Rattle.alg_elaborate.specs.Faults.{first};
ghost use Rattle.alg_elaborate.specs.Statements.{typed_statement};
ghost use Rattle.alg_names.specs.Entering.{entered};
ghost use Rattle.alg_binders.specs.Stated.{IsStated};
ghost use Rattle.alg_binders.specs.CommandFaults.{step_faults, further_faults, script_faults, proof_faults, goal_faults};

use crate::binders::add_binders;
use crate::procedures::procedure_named;
use alg_elaborate::{Cause, elaborate_statement, find_proofs, first_fault};
use alg_expr::{Arena, Items, Memory, Sort, Stmt};
use alg_law::Declared;
use alg_names::Scope;
use alg_syntax::commands::Goal;
use alg_syntax::scripts::{Further, Script, Step};
use std::alloc::Global;

/// What a goal declares for itself, and its statement.
#[derive(Drop)]
pub struct Stated {
    pub local: Items<Declared>,
    pub stmt: Stmt,
}

// The first fault of a procedure on a goal of the given sort.
fn step_fault<'a>(
    alloc: Global,
    scope: &Scope,
    sort: Sort,
    step: &Step<'a>,
) -> Result<Option<Cause>, Memory>
    ensures { IfOk result (λ o. o ≡ first (step_faults scope.now sort step.now)) }
{
    match step {
        Step::Combination(_, proof) => {
            let (root, nodes) = proof.nodes();
            let proofs = find_proofs(alloc, nodes, scope)?;
            first_fault(alloc, nodes, scope, proofs.as_slice(), true, sort, root)
        }
        Step::Procedure(name) => {
            if procedure_named(name.text()).is_some() {
                Ok(None)
            } else {
                Ok(Some(Cause::UnknownProcedure))
            }
        }
    }
}

#[tactic(auto, using(crate::proofs::GoalParts::first_skip, crate::proofs::Steps::first_left))]
fn further_fault<'a>(
    alloc: Global,
    scope: &Scope,
    sort: Sort,
    further: &[Further<'a>],
) -> Result<Option<Cause>, Memory>
    ensures { IfOk result (λ o. o ≡ first (further_faults scope.now sort further.now)) }
{
    for step in further {
        if let Some(cause) = step_fault(alloc, scope, sort, &step.step)? {
            return Ok(Some(cause));
        }
    }
    Ok(None)
}

#[tactic(auto, using(crate::proofs::GoalParts::first_skip, crate::proofs::Steps::first_left))]
fn script_fault<'a>(
    alloc: Global,
    scope: &Scope,
    sort: Sort,
    script: &Script<'a>,
) -> Result<Option<Cause>, Memory>
    ensures { IfOk result (λ o. o ≡ first (script_faults scope.now sort script.now)) }
{
    if let Some(cause) = step_fault(alloc, scope, sort, &script.first)? {
        return Ok(Some(cause));
    }
    further_fault(alloc, scope, sort, script.further.as_slice())
}

// The statement of a goal, or the first fault of it and of the procedures.
#[tactic(auto, using(crate::proofs::GoalParts::sort_told, crate::proofs::GoalParts::no_first, crate::proofs::Steps::both_empty, crate::proofs::Steps::first_left, crate::proofs::Steps::first_right))]
fn elaborate_proof<'a>(
    alloc: Global,
    arena: &mut Arena,
    scope: &Scope,
    goal: &Goal<'a>,
) -> Result<Result<Stmt, Cause>, Memory>
    ensures kept { Extends arena.old arena.new }
    ensures here { IfOk result (λ r. IfOk r (IsStatementIn arena.new)) }
    ensures good { IfOk result (λ r. IfOk r (λ p. (proof_faults scope.now goal.now ≡ []) × (statement_of arena.new p ≡ typed_statement scope.now goal.now.statement))) }
    ensures faulty { IfOk result (λ r. IfErr r (λ cause. first (proof_faults scope.now goal.now) ≡ Some cause)) }
{
    match elaborate_statement(alloc, arena, scope, &goal.statement)? {
        Ok(stmt) => match script_fault(alloc, scope, stmt.sort, &goal.script)? {
            Some(cause) => Ok(Err(cause)),
            None => Ok(Ok(stmt)),
        },
        Err(cause) => Ok(Err(cause)),
    }
}

// What a goal declares for itself and its statement; its declarations stay in force.
#[tactic(auto, using(crate::proofs::Kept::declarations_on, crate::proofs::Kept::all_on, crate::proofs::GoalParts::goal_stated, crate::proofs::GoalParts::fault_later, crate::proofs::GoalParts::fault_first))]
fn enter_goal<'a>(
    alloc: Global,
    arena: &mut Arena,
    scope: &mut Scope,
    goal: &Goal<'a>,
) -> Result<Result<Stated, Cause>, Memory>
    ensures kept { Extends arena.old arena.new }
    ensures here { IfOk result (λ r. IfOk r (λ g. All (IsDeclaredIn arena.new) g.local × IsStatementIn arena.new g.stmt)) }
    ensures good { IfOk result (λ r. IfOk r (λ g. IsStated scope.old goal.now arena.new g)) }
    ensures faulty { IfOk result (λ r. IfErr r (λ cause. first (goal_faults scope.old goal.now) ≡ Some cause)) }
    ensures entered { IfOk result (λ _. (ds : List Declaration) × (scope.new ≡ entered scope.old ds)) }
{
    let mut local: Vec<Declared> = Vec::new(alloc);
    if let Some(cause) = add_binders(alloc, arena, scope, &mut local, goal.binders.as_slice())? {
        return Ok(Err(cause));
    }
    match elaborate_proof(alloc, arena, scope, goal)? {
        Ok(stmt) => Ok(Ok(Stated {
            local: Items::of(local),
            stmt,
        })),
        Err(cause) => Ok(Err(cause)),
    }
}

/// What a goal declares for itself and its statement, or its first fault. Either way what was in force is again.
pub fn elaborate_goal<'a>(
    alloc: Global,
    arena: &mut Arena,
    scope: &mut Scope,
    goal: &Goal<'a>,
) -> Result<Result<Stated, Cause>, Memory>
    ensures kept { Extends arena.old arena.new }
    ensures here { IfOk result (λ r. IfOk r (λ g. All (IsDeclaredIn arena.new) g.local × IsStatementIn arena.new g.stmt)) }
    ensures good { IfOk result (λ r. IfOk r (λ g. IsStated scope.old goal.now arena.new g)) }
    ensures faulty { IfOk result (λ r. IfErr r (λ cause. first (goal_faults scope.old goal.now) ≡ Some cause)) }
    ensures back { IfOk result (λ _. scope.new ≡ scope.old) }
{
    let checkpoint = scope.checkpoint();
    let stated = enter_goal(alloc, arena, scope, goal)?;
    scope.leave(checkpoint);
    Ok(stated)
}
