//! The trees that stand in others.
ghost use Rattle.std.specs.Prelude.{◌≡◌, ◌<◌, ◌≤◌, All, IfOk, length, get_or, true, false};
ghost use Rattle.alg_expr.specs.Ids.{IsIn};
ghost use Rattle.alg_ring_range.specs.Marks.{MarksParts, AreWanted, marked_all};

use alg_expr::{Arena, ExprId, Memory, View};

pub(crate) fn mark_all(flags: &mut Vec<bool>, args: &[ExprId])
    requires { All (λ a. a.index < length flags.old.items) args.now }
    ensures { flags.new.items ≡ marked_all flags.old.items args.now }
{
    for a in args {
        flags[a.number()] = true;
    }
}

// marks the parts of a tree
fn mark_parts(arena: &Arena, e: ExprId, flags: &mut Vec<bool>)
    requires here { IsIn arena.now e }
    requires room { length flags.old.items ≡ length arena.now }
    ensures { MarksParts arena.now e flags.old.items flags.new.items }
{
    match arena.view(e) {
        View::Lit { .. } => mark_all(flags, &[]),
        View::Var { .. } => mark_all(flags, &[]),
        View::App { args, .. } => mark_all(flags, args),
    }
}

/// The trees that stand in these trees, by their ids.
pub(crate) fn marked(arena: &Arena, roots: &[ExprId]) -> Result<Vec<bool>, Memory>
    requires here { All (IsIn arena.now) roots.now }
    ensures wanted { IfOk result (λ v. AreWanted arena.now v.items) }
    ensures roots { IfOk result (λ v. All (λ e. get_or v.items e.index false ≡ true) roots.now) }
{
    let count = arena.len();
    let mut flags = Vec::from_elem(arena.alloc(), false, count)?;
    mark_all(&mut flags, roots);
    let mut i = count;
    while i > 0 {
        i -= 1;
        if flags[i] {
            mark_parts(arena, arena.id(i), &mut flags);
        }
    }
    Ok(flags)
}
