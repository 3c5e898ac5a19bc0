ghost use Rattle.std.specs.Prelude.{◌≡◌, IfOk};
ghost use Rattle.alg_expr.specs.Arena.{Extends};
ghost use Rattle.alg_names.specs.Entering.{entered};
ghost use Rattle.alg_binders.specs.Binders.{declared_by_all};
ghost use Rattle.alg_parse.specs.Told.{calls_of};
ghost use Rattle.alg_parse.specs.FileTrees.{AreCalls};

use crate::procedures::Proc;
use crate::scripts::build_script;
use alg_binders::add_binders;
use alg_expr::{Arena, Items, Memory, Sort};
use alg_law::Declared;
use alg_names::Scope;
use alg_syntax::commands::Goal;
use std::alloc::Global;

/// The procedures of a goal without a fault whose statement is of the given sort. They are read in the scope of the
/// goal's binders, and then what was in force is again.
#[tactic(auto, using(crate::proofs::CallLaws::extends_then, crate::proofs::CallLaws::called_within))]
pub fn build_procedures<'a>(
    alloc: Global,
    arena: &mut Arena,
    scope: &mut Scope,
    sort: Sort,
    goal: &Goal<'a>,
) -> Result<Items<Proc>, Memory>
    ensures kept { Extends arena.old arena.new }
    ensures back { IfOk result (λ _. scope.new ≡ scope.old) }
    ensures told { IfOk result (λ procs. AreCalls arena.new procs (calls_of (entered scope.old (declared_by_all scope.old goal.now.binders)) sort goal.now.script)) }
{
    let checkpoint = scope.checkpoint();
    let mut local: Vec<Declared> = Vec::new(alloc);
    // Binders without a fault come into force, unless memory is wanting.
    if let Some(_) = add_binders(alloc, arena, scope, &mut local, goal.binders.as_slice())? {
        return Err(Memory);
    }
    let procs = build_script(alloc, arena, scope, sort, &goal.script)?;
    scope.leave(checkpoint);
    Ok(procs)
}
