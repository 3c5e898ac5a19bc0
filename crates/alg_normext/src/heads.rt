ghost use Rattle.std.specs.Prelude.{◌≡◌};
ghost use Rattle.alg_terms.specs.declared.sorts.Sort.{Sort as SortKind};
ghost use Rattle.alg_terms.specs.declared.symbols.Sym.{Sym as SymKind};
ghost use Rattle.alg_terms.specs.Tree.{Trees, App};
ghost use Rattle.alg_expr.specs.Ids.{tree_of, IsIn};

use alg_build::Builder;
use alg_expr::{ExprId, Sort, Sym, View};

/// A symbol, and the sort of the trees that have it for their head.
#[derive(Clone, Copy, Debug, Drop)]
pub struct Head {
    pub sym: Sym,
    pub sort: Sort,
}

/// The head of a tree that is no literal and no variable.
pub fn head_of(cx: &Builder, e: ExprId) -> Head
    requires here { IsIn cx.now.trees e }
    requires compound { (f : SymKind) × (s : SortKind) × (ts : Trees) × (tree_of cx.now.trees e ≡ App f s ts) }
    ensures sym { (f : SymKind) → (s : SortKind) → (ts : Trees) → tree_of cx.now.trees e ≡ App f s ts → result.sym ≡ f }
    ensures sort { (f : SymKind) → (s : SortKind) → (ts : Trees) → tree_of cx.now.trees e ≡ App f s ts → result.sort ≡ s }
{
    match cx.arena().view(e) {
        View::App { sym, sort, .. } => Head { sym, sort },
        View::Lit { .. } => unreachable!(),
        View::Var { .. } => unreachable!(),
    }
}
