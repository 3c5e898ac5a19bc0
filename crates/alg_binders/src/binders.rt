ghost use Rattle.std.specs.Prelude.{◌≡◌, ◌++◌, List, [], ◌∷◌, map, unwrap_or, option_map, Some, All, IfOk, IfErr, IfSome, IfNone, OnOk};
ghost use Rattle.alg_terms.specs.declared.sorts.Sort.TheVariants as sorts;
ghost use Rattle.alg_expr.specs.Arena.{Extends};
ghost use Rattle.alg_law.specs.Declarations.{Declaration, declarations_of, IsDeclaredIn};
ghost use Rattle.alg_elaborate.specs.declared.causes.Cause as causes;
ghost use Rattle.alg_elaborate.specs.Faults.{first};
ghost use Rattle.alg_elaborate.specs.Meanings.{type_of};
ghost use Rattle.alg_law.specs.Declarations as declaration;
ghost use Rattle.alg_syntax.specs.declared.binders.Binder.TheVariants as binder;
ghost use Rattle.alg_names.specs.Entering.{enter, entered};
ghost use Rattle.alg_binders.specs.Adding.{Adds};
ghost use Rattle.alg_binders.specs.Binders.{typed_faults, names_of, declared_as, type_variable_faults, binder_faults, declared_by, binders_faults, declared_by_all};
ghost use Rattle.alg_binders.specs.Binders as spec;

use crate::adding::add_names;
use crate::class_names::class_named;
use crate::domains::elaborate_domain;
use crate::taken::taken_fault;
use alg_elaborate::Cause;
use alg_expr::{Arena, Memory, Sort};
use alg_law::{Class, Declared};
use alg_names::{Meaning, Scope};
use alg_syntax::binders::{Binder, Typed};
use alg_syntax::signs::Name;
use std::alloc::Global;

// The names of a binder, as what is said of them.
#[tactic(auto, using(crate::proofs::TakenLaws::new_names, crate::proofs::Kept::declarations_on, crate::proofs::Kept::all_on, crate::proofs::Steps::same_said, crate::proofs::Steps::both_empty, crate::proofs::Steps::first_left, crate::proofs::Steps::first_right))]
fn add_typed<'a>(
    alloc: Global,
    arena: &mut Arena,
    scope: &mut Scope,
    local: &mut Vec<Declared>,
    typed: &Typed<'a>,
) -> Result<Option<Cause>, Memory>
    requires { All (IsDeclaredIn arena.old) local.old.items }
    ensures kept { Extends arena.old arena.new }
    ensures here { IfOk result (λ _. All (IsDeclaredIn arena.new) local.new.items) }
    ensures good { IfOk result (λ o. IfNone o (Adds (typed_faults scope.old typed.now) (map (declared_as scope.old typed.now.domain) (names_of typed.now)) scope.old scope.new (declarations_of arena.old local.old.items) (declarations_of arena.new local.new.items))) }
    ensures faulty { IfOk result (λ o. IfSome o (λ cause. (first (typed_faults scope.old typed.now) ≡ Some cause) × (scope.new ≡ scope.old))) }
{
    if let Some(cause) = taken_fault(alloc, scope, typed)? {
        return Ok(Some(cause));
    }
    match elaborate_domain(alloc, arena, scope, &typed.domain)? {
        Ok(said) => {
            add_names(
                arena,
                scope,
                local,
                &said,
                &typed.first,
                typed.more.as_slice(),
            )?;
            Ok(None)
        }
        Err(cause) => Ok(Some(cause)),
    }
}

// The number of the type variable that a name stands for.
fn type_variable(meaning: Option<&Meaning>) -> Result<u32, Cause>
    ensures good { IfOk result (λ k. (type_variable_faults (option_map (λ m. m.now) meaning.entry) ≡ []) × (unwrap_or (type_of (option_map (λ m. m.now) meaning.entry)) sorts.Nat ≡ sorts.Decl k)) }
    ensures faulty { IfErr result (λ cause. (rest : List causes.Cause) → first (type_variable_faults (option_map (λ m. m.now) meaning.entry) ++ rest) ≡ Some cause) }
{
    match meaning {
        None => Err(Cause::UnknownName),
        Some(Meaning::SortName(Sort::Decl(number))) => Ok(*number),
        Some(_) => Err(Cause::SortMismatch),
    }
}

fn instance_fault(scope: &Scope, class: Class, sort: Sort) -> Option<Cause>
    ensures found { IfSome result (λ cause. first (spec.instance_faults scope.now class sort) ≡ Some cause) }
    ensures none { IfNone result (spec.instance_faults scope.now class sort ≡ []) }
{
    if scope.gives_again(sort, class) {
        return Some(Cause::NoInstance);
    }
    if scope.has_needs(sort, class) {
        None
    } else {
        Some(Cause::NoInstance)
    }
}

// Declares a class of a type variable.
#[tactic(auto, using(crate::proofs::Kept::kept_on, crate::proofs::Kept::told_on))]
fn add_granted(
    arena: &Arena,
    scope: &mut Scope,
    local: &mut Vec<Declared>,
    sort: u32,
    class: Class,
) -> Result<(), Memory>
    requires { All (IsDeclaredIn arena.now) local.old.items }
    ensures entered { OnOk result (scope.new ≡ enter scope.old (declaration.Instance sort class)) }
    ensures told { OnOk result (declarations_of arena.now local.new.items ≡ declarations_of arena.now local.old.items ++ declaration.Instance sort class ∷ []) }
    ensures here { OnOk result (All (IsDeclaredIn arena.now) local.new.items) }
{
    let declared = Declared::Instance { sort, class };
    scope.enter(arena, &declared)?;
    local.push(declared)?;
    Ok(())
}

// A class and the type variable that has it.
#[tactic(auto, using(crate::proofs::Instances::no_class, crate::proofs::Instances::no_variable, crate::proofs::Instances::no_instance, crate::proofs::Instances::adds_instance))]
fn add_instance<'a>(
    arena: &Arena,
    scope: &mut Scope,
    local: &mut Vec<Declared>,
    class: &Name<'a>,
    sort: &Name<'a>,
) -> Result<Option<Cause>, Memory>
    requires { All (IsDeclaredIn arena.now) local.old.items }
    ensures here { IfOk result (λ _. All (IsDeclaredIn arena.now) local.new.items) }
    ensures good { IfOk result (λ o. IfNone o (Adds (binder_faults scope.old (binder.Instance class.now sort.now)) (declared_by scope.old (binder.Instance class.now sort.now)) scope.old scope.new (declarations_of arena.now local.old.items) (declarations_of arena.now local.new.items))) }
    ensures faulty { IfOk result (λ o. IfSome o (λ cause. (first (binder_faults scope.old (binder.Instance class.now sort.now)) ≡ Some cause) × (scope.new ≡ scope.old))) }
{
    let Some(class) = class_named(class.text()) else {
        return Ok(Some(Cause::UnknownName));
    };
    match type_variable(scope.meaning(sort.text())) {
        Ok(number) => {
            if let Some(cause) = instance_fault(scope, class, Sort::Decl(number)) {
                return Ok(Some(cause));
            }
            add_granted(arena, scope, local, number, class)?;
            Ok(None)
        }
        Err(cause) => Ok(Some(cause)),
    }
}

/// What a binder declares comes into force and behind `local`, whose statements are of the arena; or its first fault.
pub fn add_binder<'a>(
    alloc: Global,
    arena: &mut Arena,
    scope: &mut Scope,
    local: &mut Vec<Declared>,
    binder: &Binder<'a>,
) -> Result<Option<Cause>, Memory>
    requires { All (IsDeclaredIn arena.old) local.old.items }
    ensures kept { Extends arena.old arena.new }
    ensures here { IfOk result (λ _. All (IsDeclaredIn arena.new) local.new.items) }
    ensures good { IfOk result (λ o. IfNone o (Adds (binder_faults scope.old binder.now) (declared_by scope.old binder.now) scope.old scope.new (declarations_of arena.old local.old.items) (declarations_of arena.new local.new.items))) }
    ensures faulty { IfOk result (λ o. IfSome o (λ cause. (first (binder_faults scope.old binder.now) ≡ Some cause) × (scope.new ≡ scope.old))) }
{
    match binder {
        Binder::Explicit(_, typed) => add_typed(alloc, arena, scope, local, typed),
        Binder::Implicit(typed) => add_typed(alloc, arena, scope, local, typed),
        Binder::Instance(class, sort) => add_instance(arena, scope, local, class, sort),
    }
}

/// What binders declare, each in the scope of those before it, comes into force and behind `local`, whose statements are
/// of the arena; or the first fault, and then some of it has come into force.
#[tactic(auto, using(crate::proofs::Steps::walks_start, crate::proofs::Steps::walks_on, crate::proofs::Steps::walks_end, crate::proofs::Steps::walks_fault))]
pub fn add_binders<'a>(
    alloc: Global,
    arena: &mut Arena,
    scope: &mut Scope,
    local: &mut Vec<Declared>,
    binders: &[Binder<'a>],
) -> Result<Option<Cause>, Memory>
    requires { All (IsDeclaredIn arena.old) local.old.items }
    ensures kept { Extends arena.old arena.new }
    ensures here { IfOk result (λ _. All (IsDeclaredIn arena.new) local.new.items) }
    ensures good { IfOk result (λ o. IfNone o (Adds (binders_faults scope.old binders.now) (declared_by_all scope.old binders.now) scope.old scope.new (declarations_of arena.old local.old.items) (declarations_of arena.new local.new.items))) }
    ensures faulty { IfOk result (λ o. IfSome o (λ cause. (first (binders_faults scope.old binders.now) ≡ Some cause) × ((ds : List Declaration) × (scope.new ≡ entered scope.old ds)))) }
{
    for binder in binders {
        if let Some(cause) = add_binder(alloc, arena, scope, local, binder)? {
            return Ok(Some(cause));
        }
    }
    Ok(None)
}
