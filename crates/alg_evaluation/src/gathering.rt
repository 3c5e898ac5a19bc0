//! What is found of the parts of a tree, in their order.
ghost use Rattle.std.specs.Prelude.{◌≡◌, ◌<◌, [], ◌∷◌, ◌++◌, All, IfOk, get_or, length, map, option_map};
ghost use Rattle.std.specs.List.{list_any};
ghost use Rattle.alg_evaluation.specs.Found.{absent, numbers_of, worth};

use crate::found::{Found, Kind};
use alg_build::Rewriting;
use alg_expr::{ExprId, Memory};
use alg_num::Frac;
use alg_values::Value;
use std::alloc::Global;

fn push_found(parts: &mut Vec<Found>, f: Found) -> Result<(), Memory>
    ensures { IfOk result (λ _. parts.new.items ≡ parts.old.items ++ f ∷ []) }
{
    match parts.push(f) {
        Ok(()) => Ok(()),
        Err(_) => Err(Memory),
    }
}

/// What is found of these trees.
pub fn gathered(alloc: Global, found: &[Found], args: &[ExprId]) -> Result<Vec<Found>, Memory>
    requires { All (λ a. a.index < length found.now) args.now }
    ensures { IfOk result (λ v. v.items ≡ map (λ a. get_or found.now a.index absent) args.now) }
{
    let mut parts: Vec<Found> = Vec::new(alloc);
    for a in args {
        push_found(&mut parts, found[a.number()])?;
    }
    Ok(parts)
}

/// Whether some node of one of them is past the range.
pub fn have_past(parts: &[Found]) -> bool
    ensures { result ≡ list_any (λ f. f.past) parts.now }
{
    for f in parts {
        if f.past {
            return true;
        }
    }
    false
}

fn push_rewriting(turned: &mut Vec<Rewriting>, r: Rewriting) -> Result<(), Memory>
    ensures { IfOk result (λ _. turned.new.items ≡ turned.old.items ++ r ∷ []) }
{
    match turned.push(r) {
        Ok(()) => Ok(()),
        Err(_) => Err(Memory),
    }
}

/// The rewritings to numerals.
pub fn numerals(alloc: Global, parts: &[Found]) -> Result<Vec<Rewriting>, Memory>
    ensures { IfOk result (λ v. v.items ≡ map (λ f. f.by) parts.now) }
{
    let mut turned: Vec<Rewriting> = Vec::new(alloc);
    for f in parts {
        push_rewriting(&mut turned, f.by)?;
    }
    Ok(turned)
}

/// The rewritings to trees whose parts with values are numerals.
pub fn shown(alloc: Global, parts: &[Found]) -> Result<Vec<Rewriting>, Memory>
    ensures { IfOk result (λ v. v.items ≡ map (λ f. f.shown) parts.now) }
{
    let mut turned: Vec<Rewriting> = Vec::new(alloc);
    for f in parts {
        push_rewriting(&mut turned, f.shown)?;
    }
    Ok(turned)
}

// the value that is found
fn worth(f: &Found) -> Value
    ensures { result ≡ worth f.now }
{
    match f.kind {
        Kind::Num => Value::Num(f.value),
        Kind::Past => Value::Past,
        Kind::Without => Value::Without,
    }
}

fn push_number(numbers: &mut Vec<Frac>, p: Frac) -> Result<(), Memory>
    ensures { IfOk result (λ _. numbers.new.items ≡ numbers.old.items ++ p ∷ []) }
{
    match numbers.push(p) {
        Ok(()) => Ok(()),
        Err(_) => Err(Memory),
    }
}

/// The values of the parts, if each has one.
pub fn numbers(alloc: Global, parts: &[Found]) -> Result<Option<Vec<Frac>>, Memory>
    ensures { IfOk result (λ o. option_map (λ v. v.items) o ≡ numbers_of parts.now) }
{
    let mut numbers: Vec<Frac> = Vec::new(alloc);
    for f in parts {
        match worth(f) {
            Value::Num(p) => push_number(&mut numbers, p)?,
            Value::Past => return Ok(None),
            Value::Without => return Ok(None),
        }
    }
    Ok(Some(numbers))
}
