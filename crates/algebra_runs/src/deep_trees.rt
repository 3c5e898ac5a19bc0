//! Trees that are deeper than any stack of calls, and trees whose size is past 64 bits.
ghost use Rattle.std.specs.Prelude.{◌≤◌, IfOk};
ghost use Rattle.alg_expr.specs.Arena.{Extends};
ghost use Rattle.alg_expr.specs.Ids.{IsIn};

use crate::words::print;
use alg_cli::RealHost;
use alg_expr::{Arena, ExprFault, ExprId, Memory, Sort, Sym};
use std::alloc::Global;
use std::cmp::Ordering;

const DEPTH: u32 = 100_000;

pub fn print_deep_trees(alloc: Global, out: &mut RealHost) -> Result<(), Memory> {
    for times in [0, 1, 62, 63, 70] {
        let size = size_of_doubled(alloc, times)?;
        let text = format!(in alloc; "doubled {times} times: size {size}\n")?;
        print(out, text.as_bytes());
    }
    print_deep(alloc, out)
}

// The size, the order and the copies of two deep trees.
fn print_deep(alloc: Global, out: &mut RealHost) -> Result<(), Memory> {
    let mut arena = Arena::new(alloc)?;
    let Ok((a, b)) = two_nested(&mut arena) else {
        return Err(Memory);
    };
    let size = arena.size(a);
    let is_less = arena.compare(a, b) == Ordering::Less;
    let (length, copied_size, is_kept) = copied(&arena, a)?;
    let text = format!(in alloc;
        "nested: size {size}, less {is_less}, copied {length} {copied_size} {is_kept}\n"
    )?;
    print(out, text.as_bytes());
    Ok(())
}

fn two_nested(arena: &mut Arena) -> Result<(ExprId, ExprId), ExprFault>
    ensures { IfOk result (λ pair. IsIn arena.new pair.0 × IsIn arena.new pair.1) }
{
    let a = nested(arena, 0, Sym::Neg, 1, DEPTH)?;
    let b = nested(arena, 1, Sym::Neg, 1, DEPTH)?;
    Ok((a, b))
}

// The length of an arena that the tree is imported into, the size there, and whether a second import gives the same id.
fn copied(arena: &Arena, id: ExprId) -> Result<(usize, u64, bool), Memory>
    requires { IsIn arena.now id }
{
    let mut other = Arena::new(arena.alloc())?;
    let copy = other.import(arena, id)?;
    let size = other.size(copy);
    let again = other.import(arena, id)?;
    Ok((other.len(), size, again == copy))
}

fn size_of_doubled(alloc: Global, times: u32) -> Result<u64, Memory> {
    let mut arena = Arena::new(alloc)?;
    match nested(&mut arena, 0, Sym::Add, 2, times) {
        Ok(top) => Ok(arena.size(top)),
        Err(_) => Err(Memory),
    }
}

// A symbol over a variable, once or twice, and over what came of that, and so on.
fn nested(
    arena: &mut Arena,
    decl: u32,
    sym: Sym,
    parts: usize,
    times: u32,
) -> Result<ExprId, ExprFault>
    requires { parts ≤ 2 }
    ensures grown { Extends arena.old arena.new }
    ensures ok { IfOk result (IsIn arena.new) }
{
    let mut top = arena.var(decl, Sort::Int)?;
    for _ in 0..times {
        let pair = [top, top];
        top = arena.app(sym, Sort::Int, &pair[..parts])?;
    }
    Ok(top)
}
