ghost use Rattle.std.specs.Prelude.{◌≡◌, [], Some, All, IfOk, IfErr};
ghost use Rattle.alg_expr.specs.Arena.{Extends};
ghost use Rattle.alg_expr.specs.Ids.{IsStatementIn};
ghost use Rattle.alg_law.specs.Declarations.{declarations_of, IsDeclaredIn};
ghost use Rattle.alg_elaborate.specs.Faults.{first, when};
ghost use Rattle.alg_elaborate.specs.declared.causes.Cause.TheVariants as cause;
ghost use Rattle.alg_names.specs.Entering.{entered};
ghost use Rattle.alg_binders.specs.Binders.{binders_faults, declared_by_all, is_among};
ghost use Rattle.alg_binders.specs.CommandFaults.{goal_faults, command_faults, declared_after};
ghost use Rattle.alg_binders.specs.Stated.{IsStated};
ghost use Rattle.std.specs.Prelude.{◌++◌};
ghost use Rattle.alg_parse.specs.Elaborated.{IsElaborated, IsElaboratedIn};

use crate::used_names::UsedNames;
use alg_binders::{Stated, add_binders, elaborate_goal};
use alg_elaborate::Cause;
use alg_expr::{Arena, Items, Memory};
use alg_law::Declared;
use alg_names::Scope;
use alg_syntax::binders::Binder;
use alg_syntax::commands::{Command, Goal};
use alg_syntax::signs::Name;
use std::alloc::Global;

/// What a command without a fault is: declarations for the commands behind it, or a goal.
#[derive(Drop)]
pub enum Elaborated {
    Declares(Items<Declared>),
    States(Stated),
}

// What binders declare, which comes into force, or their first fault, and then nothing does.
fn declare<'a>(
    alloc: Global,
    arena: &mut Arena,
    scope: &mut Scope,
    binders: &[Binder<'a>],
) -> Result<Result<Items<Declared>, Cause>, Memory>
    ensures kept { Extends arena.old arena.new }
    ensures here { IfOk result (λ r. IfOk r (λ ds. All (IsDeclaredIn arena.new) ds)) }
    ensures faultless { IfOk result (λ r. IfOk r (λ _. binders_faults scope.old binders.now ≡ [])) }
    ensures told { IfOk result (λ r. IfOk r (λ ds. declarations_of arena.new ds ≡ declared_by_all scope.old binders.now)) }
    ensures entered { IfOk result (λ r. IfOk r (λ _. scope.new ≡ entered scope.old (declared_by_all scope.old binders.now))) }
    ensures faulty { IfOk result (λ r. IfErr r (λ c. first (binders_faults scope.old binders.now) ≡ Some c)) }
    ensures back { IfOk result (λ r. IfErr r (λ _. scope.new ≡ scope.old)) }
{
    let checkpoint = scope.checkpoint();
    let mut local: Vec<Declared> = Vec::new(alloc);
    match add_binders(alloc, arena, scope, &mut local, binders)? {
        None => Ok(Ok(Items::of(local))),
        Some(cause) => {
            scope.leave(checkpoint);
            Ok(Err(cause))
        }
    }
}

// A theorem, whose name may be used.
fn state_theorem<'a>(
    alloc: Global,
    arena: &mut Arena,
    scope: &mut Scope,
    used: &UsedNames,
    name: &Name<'a>,
    goal: &Goal<'a>,
) -> Result<Result<Stated, Cause>, Memory>
    ensures kept { Extends arena.old arena.new }
    ensures here { IfOk result (λ r. IfOk r (λ g. All (IsDeclaredIn arena.new) g.local × IsStatementIn arena.new g.stmt)) }
    ensures faultless { IfOk result (λ r. IfOk r (λ _. when (is_among used.now name.now.text) cause.NameTaken ++ goal_faults scope.old goal.now ≡ [])) }
    ensures good { IfOk result (λ r. IfOk r (λ g. IsStated scope.old goal.now arena.new g)) }
    ensures faulty { IfOk result (λ r. IfErr r (λ c. first (when (is_among used.now name.now.text) cause.NameTaken ++ goal_faults scope.old goal.now) ≡ Some c)) }
    ensures back { IfOk result (λ _. scope.new ≡ scope.old) }
{
    if used.has(name.text()) {
        return Ok(Err(Cause::NameTaken));
    }
    elaborate_goal(alloc, arena, scope, goal)
}

/// What a command declares or states, or its first fault. Behind a fault what was in force is again, and a goal's own
/// declarations are in force in the goal alone. The names of theorems stay as they are.
pub fn elaborate_command<'a>(
    alloc: Global,
    arena: &mut Arena,
    scope: &mut Scope,
    used: &UsedNames,
    command: &Command<'a>,
) -> Result<Result<Elaborated, Cause>, Memory>
    ensures kept { Extends arena.old arena.new }
    ensures here { IfOk result (λ r. IfOk r (IsElaboratedIn arena.new)) }
    ensures faultless { IfOk result (λ r. IfOk r (λ _. command_faults scope.old used.now command.now ≡ [])) }
    ensures told { IfOk result (λ r. IfOk r (IsElaborated scope.old arena.new command.now)) }
    ensures entered { IfOk result (λ r. IfOk r (λ _. scope.new ≡ entered scope.old (declared_after scope.old command.now))) }
    ensures faulty { IfOk result (λ r. IfErr r (λ c. first (command_faults scope.old used.now command.now) ≡ Some c)) }
    ensures back { IfOk result (λ r. IfErr r (λ _. scope.new ≡ scope.old)) }
{
    match command {
        Command::Import(_) => Ok(Ok(Elaborated::Declares(Items::of(Vec::new(alloc))))),
        Command::Variable(binders) => match declare(alloc, arena, scope, binders.as_slice())? {
            Ok(declared) => Ok(Ok(Elaborated::Declares(declared))),
            Err(cause) => Ok(Err(cause)),
        },
        Command::Theorem(name, goal) => match state_theorem(
            alloc, arena, scope, used, name, goal,
        )? {
            Ok(stated) => Ok(Ok(Elaborated::States(stated))),
            Err(cause) => Ok(Err(cause)),
        },
        Command::Example(goal) => match elaborate_goal(alloc, arena, scope, goal)? {
            Ok(stated) => Ok(Ok(Elaborated::States(stated))),
            Err(cause) => Ok(Err(cause)),
        },
    }
}
