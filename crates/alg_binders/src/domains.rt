ghost use Rattle.std.specs.Prelude.{◌≡◌, ◌++◌, ℕ, List, [], unwrap_or, option_map, Some, IfOk, IfErr};
ghost use Rattle.alg_terms.specs.declared.sorts.Sort.TheVariants as sorts;
ghost use Rattle.alg_expr.specs.Arena.{Extends};
ghost use Rattle.alg_elaborate.specs.declared.causes.Cause as causes;
ghost use Rattle.alg_elaborate.specs.Meanings.{type_of};
ghost use Rattle.alg_elaborate.specs.Faults.{first};
ghost use Rattle.alg_binders.specs.Binders.{sort_faults, all_sort_faults, domain_faults, sort_of, sorts_of, all_but_last, last_of, declared_as};
ghost use Rattle.alg_names.specs.InForce.{meaning};
ghost use Rattle.alg_binders.specs.declared.domains.Said.TheVariants as said;
ghost use Rattle.alg_binders.specs.Said.{said_of, IsSaidIn};

use alg_elaborate::{Cause, elaborate_statement};
use alg_expr::{Arena, Items, Memory, Sort, Stmt};
use alg_names::{Meaning, Scope};
use alg_syntax::binders::Domain;
use alg_syntax::signs::Name;
use std::alloc::Global;

/// What a binder says of each of its names: a type variable, a variable or a function, or a hypothesis.
#[derive(Drop)]
pub enum Said {
    Carrier,
    /// The sorts of the arguments, and that of the value.
    Sorts(Items<Sort>, Sort),
    Holds(Stmt),
}

// The sort that a name stands for.
fn sort_named(meaning: Option<&Meaning>) -> Result<Sort, Cause>
    ensures good { IfOk result (λ k. (sort_faults (option_map (λ m. m.now) meaning.entry) ≡ []) × (unwrap_or (type_of (option_map (λ m. m.now) meaning.entry)) sorts.Nat ≡ k)) }
    ensures faulty { IfErr result (λ cause. (rest : List causes.Cause) → first (sort_faults (option_map (λ m. m.now) meaning.entry) ++ rest) ≡ Some cause) }
{
    match meaning {
        None => Err(Cause::UnknownName),
        Some(Meaning::SortName(sort)) => Ok(*sort),
        Some(_) => Err(Cause::SortMismatch),
    }
}

// The sorts of a function's arguments and value, the first of them apart.
fn signature_from<'a>(
    alloc: Global,
    scope: &Scope,
    first_sort: Sort,
    more: &[Name<'a>],
) -> Result<Result<Said, Cause>, Memory>
    ensures good { IfOk result (λ r. IfOk r (λ d. (all_sort_faults scope.now more.now ≡ []) × (d ≡ said.Sorts (all_but_last first_sort (sorts_of scope.now more.now)) (last_of first_sort (sorts_of scope.now more.now))))) }
    ensures faulty { IfOk result (λ r. IfErr r (λ cause. first (all_sort_faults scope.now more.now) ≡ Some cause)) }
{
    let mut value = first_sort;
    let mut args: Vec<Sort> = Vec::new(alloc);
    for name in more {
        match sort_named(scope.meaning(name.text())) {
            Ok(next) => {
                args.push(value)?;
                value = next;
            }
            Err(cause) => return Ok(Err(cause)),
        }
    }
    Ok(Ok(Said::Sorts(Items::of(args), value)))
}

// The sorts of a function's arguments and value.
fn signature<'a>(
    alloc: Global,
    scope: &Scope,
    name: &Name<'a>,
    more: &[Name<'a>],
) -> Result<Result<Said, Cause>, Memory>
    ensures good { IfOk result (λ r. IfOk r (λ d. (sort_faults (meaning scope.now name.now.text) ++ all_sort_faults scope.now more.now ≡ []) × (d ≡ said.Sorts (all_but_last (sort_of scope.now name.now.text) (sorts_of scope.now more.now)) (last_of (sort_of scope.now name.now.text) (sorts_of scope.now more.now))))) }
    ensures faulty { IfOk result (λ r. IfErr r (λ cause. first (sort_faults (meaning scope.now name.now.text) ++ all_sort_faults scope.now more.now) ≡ Some cause)) }
{
    match sort_named(scope.meaning(name.text())) {
        Ok(sort) => signature_from(alloc, scope, sort, more),
        Err(cause) => Ok(Err(cause)),
    }
}

/// What is said of each name, or the first fault.
pub fn elaborate_domain<'a>(
    alloc: Global,
    arena: &mut Arena,
    scope: &Scope,
    domain: &Domain<'a>,
) -> Result<Result<Said, Cause>, Memory>
    ensures kept { Extends arena.old arena.new }
    ensures here { IfOk result (λ r. IfOk r (IsSaidIn arena.new)) }
    ensures good { IfOk result (λ r. IfOk r (λ d. (domain_faults scope.now domain.now ≡ []) × ((x : List ℕ) → said_of arena.new d x ≡ declared_as scope.now domain.now x))) }
    ensures faulty { IfOk result (λ r. IfErr r (λ cause. first (domain_faults scope.now domain.now) ≡ Some cause)) }
{
    match domain {
        Domain::Carrier(_) => Ok(Ok(Said::Carrier)),
        Domain::Sorts(name, more) => signature(alloc, scope, name, more.as_slice()),
        Domain::Holds(statement) => match elaborate_statement(alloc, arena, scope, statement)? {
            Ok(stmt) => Ok(Ok(Said::Holds(stmt))),
            Err(cause) => Ok(Err(cause)),
        },
    }
}
