//! What is found of one tree.
ghost use Rattle.std.specs.Prelude.{◌≡◌, Bool, get_or, length, false, true};
ghost use Rattle.alg_terms.specs.declared.symbols.Sym.{Sym as SymKind};
ghost use Rattle.alg_expr.specs.Ids.{tree_of};
ghost use Rattle.alg_evaluation.specs.Found.{AreFound, IsFound};

use crate::found::Found;
use alg_build::Builder;
use alg_expr::ExprId;

/// What is found of a wanted tree.
pub fn found_of(cx: &Builder, wanted: &[bool], found: &[Found], e: ExprId) -> Found
    requires found { (covers : SymKind → Bool) × AreFound covers cx.now wanted.now found.now }
    requires all { length found.now ≡ length wanted.now }
    requires wanted { get_or wanted.now e.index false ≡ true }
    ensures { (covers : SymKind → Bool) → AreFound covers cx.now wanted.now found.now → IsFound covers cx.now (tree_of cx.now.trees e) result }
{
    found[e.number()]
}
