ghost use Rattle.std.specs.Prelude.{List, [], ◌∷◌, ◌++◌, IfOk, OnOk};
ghost use Rattle.alg_expr.specs.Arena.{Extends};
ghost use Rattle.alg_parse.specs.Told.{Call, combination, calls_named, calls_at, further_calls, calls_of};
ghost use Rattle.alg_parse.specs.FileTrees.{IsCall, AreCalls};
ghost use Rattle.alg_binders.specs.Procedures.{procedure_named};
ghost use Rattle.alg_terms.specs.Tree.{Tree};
ghost use Rattle.alg_elaborate.specs.Raw.{meant};
ghost use Rattle.alg_combinations.specs.Combined.{combined};

use crate::procedures::Proc;
use alg_binders::procedure_named;
use alg_combinations::build_combination;
use alg_elaborate::find_proofs;
use alg_expr::{Arena, Items, Memory, Sort};
use alg_names::Scope;
use alg_syntax::expressions::Expression;
use alg_syntax::scripts::{Further, Script, Step};
use alg_syntax::signs::Name;
use std::alloc::Global;

// The procedure with this name. Without one, the name is a fault.
#[tactic(auto, using(crate::proofs::CallLaws::named_added, crate::proofs::CallLaws::none_added))]
fn add_named<'a>(name: &Name<'a>, procs: &mut Vec<Proc>) -> Result<(), Memory>
    ensures { OnOk result ((ts : List Tree) (cs : List Call) → AreCalls ts procs.old.items cs → AreCalls ts procs.new.items (cs ++ calls_named (procedure_named name.now.text))) }
{
    if let Some(procedure) = procedure_named(name.text()) {
        procs.push(Proc::Named(procedure))?;
    }
    Ok(())
}

// The combination that an expression is.
#[tactic(auto, using(crate::proofs::CallLaws::combined_call))]
fn combination_of<'a>(
    alloc: Global,
    arena: &mut Arena,
    scope: &Scope,
    sort: Sort,
    expression: &Expression<'a>,
) -> Result<Proc, Memory>
    ensures kept { Extends arena.old arena.new }
    ensures told { IfOk result (λ p. IsCall arena.new p (combination (combined scope.now sort (meant expression.now)))) }
{
    let (root, nodes) = expression.nodes();
    let proofs = find_proofs(alloc, nodes, scope)?;
    let combo = build_combination(alloc, arena, nodes, scope, proofs.as_slice(), sort, root)?;
    Ok(Proc::LinearCombination(combo))
}

#[tactic(auto, using(crate::proofs::CallLaws::calls_grown))]
fn add_combination<'a>(
    alloc: Global,
    arena: &mut Arena,
    scope: &Scope,
    sort: Sort,
    expression: &Expression<'a>,
    procs: &mut Vec<Proc>,
) -> Result<(), Memory>
    ensures kept { Extends arena.old arena.new }
    ensures told { OnOk result ((cs : List Call) → AreCalls arena.old procs.old.items cs → AreCalls arena.new procs.new.items (cs ++ combination (combined scope.now sort (meant expression.now)) ∷ [])) }
{
    let procedure = combination_of(alloc, arena, scope, sort, expression)?;
    procs.push(procedure)?;
    Ok(())
}

// A procedure without a fault, on a goal of the given sort.
#[tactic(auto, using(crate::proofs::CallLaws::extends_self))]
fn add_step<'a>(
    alloc: Global,
    arena: &mut Arena,
    scope: &Scope,
    sort: Sort,
    step: &Step<'a>,
    procs: &mut Vec<Proc>,
) -> Result<(), Memory>
    ensures kept { Extends arena.old arena.new }
    ensures told { OnOk result ((cs : List Call) → AreCalls arena.old procs.old.items cs → AreCalls arena.new procs.new.items (cs ++ calls_at scope.now sort step.now)) }
{
    match step {
        Step::Combination(_, expression) => add_combination(
            alloc, arena, scope, sort, expression, procs,
        ),
        Step::Procedure(name) => add_named(name, procs),
    }
}

#[tactic(auto, using(crate::proofs::CallLaws::further_start, crate::proofs::CallLaws::further_end))]
fn add_further<'a>(
    alloc: Global,
    arena: &mut Arena,
    scope: &Scope,
    sort: Sort,
    further: &[Further<'a>],
    procs: &mut Vec<Proc>,
) -> Result<(), Memory>
    ensures kept { Extends arena.old arena.new }
    ensures told { OnOk result ((cs : List Call) → AreCalls arena.old procs.old.items cs → AreCalls arena.new procs.new.items (cs ++ further_calls scope.now sort further.now)) }
{
    for step in further {
        add_step(alloc, arena, scope, sort, &step.step, procs)?;
    }
    Ok(())
}

/// The procedures of a script without a fault, on a goal of the given sort, in the scope of the goal's binders.
#[tactic(auto, using(crate::proofs::CallLaws::extends_then, crate::proofs::CallLaws::script_called))]
pub fn build_script<'a>(
    alloc: Global,
    arena: &mut Arena,
    scope: &Scope,
    sort: Sort,
    script: &Script<'a>,
) -> Result<Items<Proc>, Memory>
    ensures kept { Extends arena.old arena.new }
    ensures told { IfOk result (λ procs. AreCalls arena.new procs (calls_of scope.now sort script.now)) }
{
    let mut procs: Vec<Proc> = Vec::new(alloc);
    add_step(alloc, arena, scope, sort, &script.first, &mut procs)?;
    add_further(
        alloc,
        arena,
        scope,
        sort,
        script.further.as_slice(),
        &mut procs,
    )?;
    Ok(Items::of(procs))
}
