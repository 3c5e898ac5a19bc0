ghost use Rattle.std.specs.Prelude.{◌≡◌, ◌<◌, All, IfOk, length, get_or, true, false};
ghost use Rattle.alg_expr.specs.Ids.{tree_of, IsIn};
ghost use Rattle.alg_law.specs.WellSorted.{IsWellSorted};
ghost use Rattle.alg_marks.specs.Marks.{AreWanted, MarksParts, marked_all};

use alg_build::Builder;
use alg_expr::{ExprId, Memory, View};

fn mark_all(flags: &mut Vec<bool>, args: &[ExprId])
    requires { All (λ a. a.index < length flags.old.items) args.now }
    ensures { flags.new.items ≡ marked_all flags.old.items args.now }
{
    for a in args {
        flags[a.number()] = true;
    }
}

// marks the parts of a tree
fn mark_parts(cx: &Builder, e: ExprId, flags: &mut Vec<bool>)
    requires here { IsIn cx.now.trees e }
    requires room { length flags.old.items ≡ length cx.now.trees }
    ensures { MarksParts cx.now e flags.old.items flags.new.items }
{
    match cx.arena().view(e) {
        View::Lit { .. } => mark_all(flags, &[]),
        View::Var { .. } => mark_all(flags, &[]),
        View::App { args, .. } => mark_all(flags, args),
    }
}

/// The trees that stand in one of two trees, by the numbers of their ids: `true` at theirs.
pub fn marked(cx: &Builder, a: ExprId, b: ExprId) -> Result<Vec<bool>, Memory>
    requires left { IsIn cx.now.trees a }
    requires right { IsIn cx.now.trees b }
    requires left_sorted { IsWellSorted cx.now.theory.declarations (tree_of cx.now.trees a) }
    requires right_sorted { IsWellSorted cx.now.theory.declarations (tree_of cx.now.trees b) }
    ensures wanted { IfOk result (λ v. AreWanted cx.now v.items) }
    ensures left { IfOk result (λ v. get_or v.items a.index false ≡ true) }
    ensures right { IfOk result (λ v. get_or v.items b.index false ≡ true) }
{
    let count = cx.arena().len();
    let mut flags = Vec::from_elem(cx.alloc(), false, count)?;
    mark_all(&mut flags, &[a, b]);
    let mut i = count;
    while i > 0 {
        i -= 1;
        if flags[i] {
            mark_parts(cx, cx.arena().id(i), &mut flags);
        }
    }
    Ok(flags)
}
