ghost use Rattle.std.specs.Prelude.{◌≡◌, ◌+◌, ◌*◌, ◌<◌, ◌++◌, suc, length, reverse, IfOk, IfSome, IfNone};
ghost use Rattle.alg_syntax.specs.Nodes.{tree_at};
ghost use Rattle.alg_elaborate.specs.Raw.{meant, arguments, none, size, IsApply};
ghost use Rattle.alg_elaborate.specs.Regions.{leaves, leaves_of_each, sort_or};
ghost use Rattle.alg_elaborate.specs.Regions as spec;
ghost use Rattle.alg_elaborate.specs.RegionParts.{parts_leaves, parts_size, PartsIn};

use crate::meanings::{is_shared, type_of, value_sort};
use crate::spines::{head, meaning_at};
use alg_expr::{Memory, Sort};
use alg_names::Scope;
use alg_syntax::nodes::{Node, Nodes};
use alg_syntax::signs::Operator;
use std::alloc::Global;

// A part of a region that waits: an expression, or the arguments of an application.
#[derive(Clone, Copy)]
enum Part {
    Whole(usize),
    Arguments(usize),
}

// Puts the last argument before the others.
fn split_arguments<'a>(
    nodes: &Nodes<'a>,
    scope: &Scope,
    todo: &mut Vec<Part>,
    id: usize,
) -> Result<(), Memory>
    requires id { id < length nodes.now }
    requires todo { PartsIn (length nodes.now) (reverse todo.old.items) }
    ensures same { IfOk result (λ _. parts_leaves scope.now nodes.now (reverse todo.new.items) ≡ leaves_of_each scope.now (arguments (tree_at nodes.now id) none) ++ parts_leaves scope.now nodes.now (reverse todo.old.items)) }
    ensures within { PartsIn (length nodes.now) (reverse todo.new.items) }
    ensures smaller { IfOk result (λ _. parts_size nodes.now (reverse todo.new.items) < 2 * size (tree_at nodes.now id) + parts_size nodes.now (reverse todo.old.items)) }
{
    if let Node::Apply(a, b) = nodes.get(id) {
        todo.push(Part::Whole(*b))?;
        todo.push(Part::Arguments(*a))?;
    }
    Ok(())
}

// The sort of an application, or its arguments where they are of the same region.
fn infer_applied<'a>(
    nodes: &Nodes<'a>,
    scope: &Scope,
    todo: &mut Vec<Part>,
    id: usize,
) -> Result<Option<Sort>, Memory>
    requires id { id < length nodes.now }
    requires todo { PartsIn (length nodes.now) (reverse todo.old.items) }
    requires apply { IsApply (tree_at nodes.now id) }
    ensures found { IfOk result (λ o. IfSome o (λ k. spec.first_known scope.now (leaves scope.now (meant (tree_at nodes.now id)) ++ parts_leaves scope.now nodes.now (reverse todo.old.items)) ≡ o)) }
    ensures on { IfOk result (λ o. IfNone o (spec.first_known scope.now (leaves scope.now (meant (tree_at nodes.now id)) ++ parts_leaves scope.now nodes.now (reverse todo.old.items)) ≡ spec.first_known scope.now (parts_leaves scope.now nodes.now (reverse todo.new.items)))) }
    ensures within { PartsIn (length nodes.now) (reverse todo.new.items) }
    ensures smaller { IfOk result (λ _. parts_size nodes.now (reverse todo.new.items) < suc (2 * size (tree_at nodes.now id)) + parts_size nodes.now (reverse todo.old.items)) }
{
    let (name, _) = head(nodes, id);
    let Some(name) = name else {
        return Ok(None);
    };
    let stands_for = meaning_at(scope, nodes, name);
    if !is_shared(stands_for) {
        return Ok(value_sort(stands_for));
    }
    todo.push(Part::Arguments(id))?;
    Ok(None)
}

// The sort of a leaf, or the parts of the same region.
fn infer_root<'a>(
    nodes: &Nodes<'a>,
    scope: &Scope,
    todo: &mut Vec<Part>,
    id: usize,
) -> Result<Option<Sort>, Memory>
    requires id { id < length nodes.now }
    requires todo { PartsIn (length nodes.now) (reverse todo.old.items) }
    ensures found { IfOk result (λ o. IfSome o (λ k. spec.first_known scope.now (leaves scope.now (meant (tree_at nodes.now id)) ++ parts_leaves scope.now nodes.now (reverse todo.old.items)) ≡ o)) }
    ensures on { IfOk result (λ o. IfNone o (spec.first_known scope.now (leaves scope.now (meant (tree_at nodes.now id)) ++ parts_leaves scope.now nodes.now (reverse todo.old.items)) ≡ spec.first_known scope.now (parts_leaves scope.now nodes.now (reverse todo.new.items)))) }
    ensures within { PartsIn (length nodes.now) (reverse todo.new.items) }
    ensures smaller { IfOk result (λ _. parts_size nodes.now (reverse todo.new.items) < suc (2 * size (tree_at nodes.now id)) + parts_size nodes.now (reverse todo.old.items)) }
{
    match nodes.get(id) {
        Node::Number(_, _) => Ok(None),
        Node::Name(name) => Ok(value_sort(scope.meaning(name.text()))),
        Node::Group(_, a) | Node::Minus(a) | Node::Inverse(a) => {
            todo.push(Part::Whole(*a))?;
            Ok(None)
        }
        Node::Ascribed(_, _, sort) => Ok(type_of(scope.meaning(sort.text()))),
        Node::Binary(Operator::Pow, a, _) => {
            todo.push(Part::Whole(*a))?;
            Ok(None)
        }
        Node::Binary(Operator::Smul, _, b) => {
            todo.push(Part::Whole(*b))?;
            Ok(None)
        }
        Node::Binary(_, a, b) => {
            todo.push(Part::Whole(*b))?;
            todo.push(Part::Whole(*a))?;
            Ok(None)
        }
        Node::Apply(_, _) => infer_applied(nodes, scope, todo, id),
    }
}

/// The sort of the first leaf of the region that has a known one.
pub fn first_known<'a>(
    alloc: Global,
    nodes: &Nodes<'a>,
    scope: &Scope,
    id: usize,
) -> Result<Option<Sort>, Memory>
    requires { id < length nodes.now }
    ensures { IfOk result (λ o. o ≡ spec.first_known scope.now (leaves scope.now (meant (tree_at nodes.now id)))) }
{
    let mut todo: Vec<Part> = Vec::new(alloc);
    todo.push(Part::Whole(id))?;
    'leaves: while let Some(part) = todo.pop() {
        match part {
            Part::Whole(at) => {
                if let Some(sort) = infer_root(nodes, scope, &mut todo, at)? {
                    return Ok(Some(sort));
                }
            }
            Part::Arguments(at) => split_arguments(nodes, scope, &mut todo, at)?,
        }
    }
    Ok(None)
}

fn exponent_default<'a>(nodes: &Nodes<'a>, id: usize) -> Sort
    requires { id < length nodes.now }
    ensures { result ≡ spec.exponent_default (meant (tree_at nodes.now id)) }
{
    let mut at = id;
    'down: loop {
        match nodes.get(at) {
            Node::Group(_, a) => at = *a,
            Node::Minus(_) => return Sort::Int,
            _ => return Sort::Nat,
        }
    }
}

/// The sort of an exponent, or of the left part of a multiple.
pub fn exponent_sort<'a>(
    alloc: Global,
    nodes: &Nodes<'a>,
    scope: &Scope,
    id: usize,
) -> Result<Sort, Memory>
    requires { id < length nodes.now }
    ensures { IfOk result (λ k. k ≡ spec.exponent_sort scope.now (meant (tree_at nodes.now id))) }
{
    match first_known(alloc, nodes, scope, id)? {
        Some(sort) => Ok(sort),
        None => Ok(exponent_default(nodes, id)),
    }
}

/// The sort that is known, or another.
pub fn sort_or(otherwise: Sort, known: Option<Sort>) -> Sort
    ensures { result ≡ sort_or otherwise known }
{
    match known {
        Some(sort) => sort,
        None => otherwise,
    }
}
