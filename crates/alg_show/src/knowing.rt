ghost use Rattle.std.specs.Prelude.{◌≡◌, ◌++◌, IfOk};
ghost use Rattle.alg_expr.specs.Ids.{tree_of, IsIn};
ghost use Rattle.alg_show.specs.Knowing.{knows, asks, sides_ask, default_of, holds_first, holds_second, is_own};
ghost use Rattle.alg_show.specs.Shows.{IsWritten};
ghost use Rattle.alg_show.specs.Unparenthesized.{asks_left, asks_right};
ghost use Rattle.alg_show.specs.Waiting.{waits, Visited};

use crate::notation::{Notation, follows, leads, notation_of};
use crate::printing::argument;
use alg_expr::{Arena, ExprId, Memory, Sort, View};
use alg_syntax::signs::Operator;
use std::alloc::Global;

fn holds_first(notation: Notation) -> bool
    ensures { result ≡ holds_first notation }
{
    match notation {
        Notation::Negation | Notation::Inverse | Notation::Shared => true,
        Notation::Infix(operator) => leads(operator),
        Notation::Own => false,
    }
}

fn holds_second(notation: Notation) -> bool
    ensures { result ≡ holds_second notation }
{
    match notation {
        Notation::Infix(operator) => follows(operator),
        Notation::Shared => true,
        _ => false,
    }
}

fn is_own(notation: Notation) -> bool
    ensures { result ≡ is_own notation }
{
    match notation {
        Notation::Own => true,
        _ => false,
    }
}

fn wait(waiting: &mut Vec<ExprId>, holds: bool, id: Option<ExprId>) -> Result<(), Memory>
    ensures { IfOk result (λ u. waiting.new.items ≡ waiting.old.items ++ waits holds id) }
{
    match id {
        Some(id) => {
            if holds {
                waiting.push(id)?;
            }
        }
        None => {}
    }
    Ok(())
}

// the parts of a compound that belong to its region wait
fn visit_inside(
    arena: &Arena,
    id: ExprId,
    notation: Notation,
    waiting: &mut Vec<ExprId>,
) -> Result<bool, Memory>
    requires here { IsIn arena.now id }
    requires written { IsWritten (tree_of arena.now id) notation }
    ensures { IfOk result (λ found. Visited arena.now id found waiting.old.items waiting.new.items) }
{
    if is_own(notation) {
        return Ok(true);
    }
    let left = argument(arena, id, 0);
    let right = argument(arena, id, 1);
    wait(waiting, holds_first(notation), left)?;
    wait(waiting, holds_second(notation), right)?;
    Ok(false)
}

fn visit(arena: &Arena, id: ExprId, waiting: &mut Vec<ExprId>) -> Result<bool, Memory>
    requires { IsIn arena.now id }
    ensures { IfOk result (λ found. Visited arena.now id found waiting.old.items waiting.new.items) }
{
    match arena.view(id) {
        View::Lit { .. } => Ok(false),
        View::Var { .. } => Ok(true),
        View::App { sym, .. } => visit_inside(arena, id, notation_of(sym), waiting),
    }
}

// whether the region of the tree's root has a leaf that is no literal
fn knows(alloc: Global, arena: &Arena, id: ExprId) -> Result<bool, Memory>
    requires { IsIn arena.now id }
    ensures { IfOk result (λ b. b ≡ knows (tree_of arena.now id)) }
{
    let mut waiting: Vec<ExprId> = Vec::new(alloc);
    wait(&mut waiting, true, Some(id))?;
    while let Some(next) = waiting.pop() {
        let found = visit(arena, next, &mut waiting)?;
        if found {
            return Ok(true);
        }
    }
    Ok(false)
}

fn default_of(arena: &Arena, id: ExprId) -> Sort
    requires { IsIn arena.now id }
    ensures { result ≡ default_of (tree_of arena.now id) }
{
    match arena.view(id) {
        View::App { sym, .. } => match notation_of(sym) {
            Notation::Negation => Sort::Int,
            _ => Sort::Nat,
        },
        _ => Sort::Nat,
    }
}

// whether an exponent would be read at another sort
fn asks(alloc: Global, arena: &Arena, id: ExprId) -> Result<bool, Memory>
    requires { IsIn arena.now id }
    ensures { IfOk result (λ b. b ≡ asks (tree_of arena.now id)) }
{
    let known = knows(alloc, arena, id)?;
    Ok(!known && !default_of(arena, id).is(arena.sort_of(id)))
}

// whether both sides of a relation would be read at another sort
pub(crate) fn sides_ask(
    alloc: Global,
    arena: &Arena,
    sort: Sort,
    lhs: ExprId,
    rhs: ExprId,
) -> Result<bool, Memory>
    requires left { IsIn arena.now lhs }
    requires right { IsIn arena.now rhs }
    ensures { IfOk result (λ b. b ≡ sides_ask sort (tree_of arena.now lhs) (tree_of arena.now rhs)) }
{
    let left = knows(alloc, arena, lhs)?;
    let right = knows(alloc, arena, rhs)?;
    Ok(!(left || right) && !Sort::Nat.is(sort))
}

// whether the left part of an operation is asked for its sort
pub(crate) fn asks_left(
    alloc: Global,
    arena: &Arena,
    operator: Operator,
    ask: bool,
    id: ExprId,
) -> Result<bool, Memory>
    requires { IsIn arena.now id }
    ensures { IfOk result (λ b. b ≡ asks_left operator ask (tree_of arena.now id)) }
{
    match operator {
        Operator::Smul => asks(alloc, arena, id),
        _ => Ok(ask),
    }
}

// whether the right part is
pub(crate) fn asks_right(
    alloc: Global,
    arena: &Arena,
    operator: Operator,
    ask: bool,
    id: ExprId,
) -> Result<bool, Memory>
    requires { IsIn arena.now id }
    ensures { IfOk result (λ b. b ≡ asks_right operator ask (tree_of arena.now id)) }
{
    match operator {
        Operator::Pow => asks(alloc, arena, id),
        Operator::Smul => Ok(ask),
        _ => Ok(false),
    }
}
