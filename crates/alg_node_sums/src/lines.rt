ghost use Rattle.std.specs.Prelude.{IfOk};
ghost use Rattle.alg_terms.specs.declared.sorts.Sort.{Sort as SortKind};
ghost use Rattle.alg_terms.specs.Tree.{Tree};
ghost use Rattle.alg_build.specs.Book.{Grows};
ghost use Rattle.alg_build.specs.Rewriting.{IsRewriting, Turns};
ghost use Rattle.alg_node_sums.specs.Deriving.{Derives};

use alg_build::{Builder, Memory, Rewriting, line_of};
use alg_expr::ExprId;

/// A tree, and a line that another equals it.
#[derive(Clone, Copy, Debug)]
pub struct Derived {
    pub tree: ExprId,
    pub line: usize,
}

/// The ids of `first * power` and of `second * power`, and of their factors.
#[derive(Clone, Copy, Debug)]
pub struct Pair {
    pub first: ExprId,
    pub second: ExprId,
    pub power: ExprId,
    /// the tree of `first * power`
    pub left: ExprId,
    /// the tree of `second * power`
    pub right: ExprId,
}

/// Where a rewriting leads, with a line, new where there was none.
#[tactic(auto, using(crate::proofs::Deriving::derived_facts))]
pub fn with_line(cx: &mut Builder, r: Rewriting) -> Result<Derived, Memory>
    requires { IsRewriting cx.old r }
    ensures derives { IfOk result (λ d. (s : SortKind) → (t u : Tree) → Turns cx.old s r t u → Derives cx.new s d t u) }
    ensures grows { Grows cx.old cx.new }
{
    let line = line_of(cx, r)?;
    Ok(Derived { tree: r.to, line })
}
