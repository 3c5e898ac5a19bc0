//! The atoms of trees, each once.
ghost use Rattle.std.specs.Prelude.{◌≡◌, ◌++◌, ◌∷◌, [], cond, All, IfOk};
ghost use Rattle.alg_terms.specs.Order.{tree_same};
ghost use Rattle.alg_expr.specs.Ids.{tree_of, trees_at, IsIn};
ghost use Rattle.alg_group_words.specs.Limits.{is_there};
ghost use Rattle.alg_group_found.specs.Atoms.{apart};

use alg_build::{Builder, Memory};
use alg_expr::ExprId;

// whether two ids stand for one tree
fn is_same(cx: &Builder, a: ExprId, b: ExprId) -> bool
    requires left { IsIn cx.now.trees a }
    requires right { IsIn cx.now.trees b }
    ensures { result ≡ tree_same (tree_of cx.now.trees a) (tree_of cx.now.trees b) }
{
    cx.arena().compare(a, b).is_eq()
}

// whether the tree is one of these
fn is_listed(cx: &Builder, e: ExprId, list: &[ExprId]) -> bool
    requires here { IsIn cx.now.trees e }
    requires all { All (IsIn cx.now.trees) list.now }
    ensures { result ≡ is_there (tree_of cx.now.trees e) (trees_at cx.now.trees list.now) }
{
    for x in list {
        if is_same(cx, e, *x) {
            return true;
        }
    }
    false
}

fn push(list: &mut Vec<ExprId>, e: ExprId) -> Result<(), Memory>
    ensures { IfOk result (λ _. list.new.items ≡ list.old.items ++ e ∷ []) }
{
    match list.push(e) {
        Ok(()) => Ok(()),
        Err(_) => Err(Memory),
    }
}

/// The same ids.
pub(crate) fn copied(cx: &Builder, list: &[ExprId]) -> Result<Vec<ExprId>, Memory>
    ensures { IfOk result (λ v. v.items ≡ list.now) }
{
    Ok(list.to_vec(cx.alloc())?)
}

// one more tree, where it isn't one of these
fn add_new(cx: &Builder, all: &mut Vec<ExprId>, rest: &[ExprId], x: ExprId) -> Result<(), Memory>
    requires rest { All (IsIn cx.now.trees) rest.now }
    requires here { IsIn cx.now.trees x }
    ensures { IfOk result (λ _. all.new.items ≡ all.old.items ++ cond (is_there (tree_of cx.now.trees x) (trees_at cx.now.trees rest.now)) [] (x ∷ [])) }
{
    if is_listed(cx, x, rest) {
        return Ok(());
    }
    push(all, x)
}

/// The trees of `rest`, and after them those of `first` that aren't among these.
pub fn atoms_together(
    cx: &Builder,
    rest: &[ExprId],
    first: &[ExprId],
) -> Result<Vec<ExprId>, Memory>
    requires rest { All (IsIn cx.now.trees) rest.now }
    requires first { All (IsIn cx.now.trees) first.now }
    ensures here { IfOk result (λ v. All (IsIn cx.now.trees) v.items) }
    ensures trees { IfOk result (λ v. trees_at cx.now.trees v.items ≡ trees_at cx.now.trees rest.now ++ apart (trees_at cx.now.trees first.now) (trees_at cx.now.trees rest.now)) }
{
    let mut all = copied(cx, rest)?;
    for x in first {
        add_new(cx, &mut all, rest, *x)?;
    }
    Ok(all)
}

/// One atom.
pub(crate) fn single(cx: &Builder, e: ExprId) -> Result<Vec<ExprId>, Memory>
    ensures { IfOk result (λ v. v.items ≡ e ∷ []) }
{
    let mut all: Vec<ExprId> = Vec::new(cx.alloc());
    push(&mut all, e)?;
    Ok(all)
}
