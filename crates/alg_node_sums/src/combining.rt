//! Sums of rewritings, after a rewriting that leads to their left sides.
ghost use Rattle.std.specs.Prelude.{IfOk};
ghost use Rattle.alg_terms.specs.Tree.{Tree, sum_tree};
ghost use Rattle.alg_expr.specs.Ids.{tree_of};
ghost use Rattle.alg_build.specs.Book.{Grows};
ghost use Rattle.alg_build.specs.Rewriting.{Stands, Turns, TurnsIn};
ghost use Rattle.alg_node_sums.specs.Polynomials.{HasPolynomials};
ghost use Rattle.alg_node_sums.specs.Deriving.{Derives};
ghost use Rattle.alg_node_sums.specs.Combining.{LeadsToSum};

use crate::lines::{Derived, with_line};
use alg_build::{Builder, Memory, Rewriting, keep, plus, then};
use alg_expr::{ExprId, Sort};

/// `t + b = u + b`, from `t = u`.
#[tactic(auto, using(crate::proofs::Deriving::derived_facts))]
pub fn beside_rest(cx: &mut Builder, sort: Sort, r: Rewriting, b: ExprId) -> Result<Derived, Memory>
    requires turns { TurnsIn cx.old sort r }
    requires b_in { Stands cx.old sort b (tree_of cx.old.trees b) }
    requires ready { HasPolynomials cx.old.theory sort }
    ensures derives { IfOk result (λ d. (t u : Tree) → Turns cx.old sort r t u → Derives cx.new sort d (sum_tree sort t (tree_of cx.old.trees b)) (sum_tree sort u (tree_of cx.old.trees b))) }
    ensures grows { Grows cx.old cx.new }
{
    let same = keep(cx, b);
    let q = plus(cx, sort, r, same)?;
    let made = with_line(cx, q)?;
    Ok(made)
}

/// `t = d + e`, from `t = a + b`, `a = d` and `b = e`.
#[tactic(auto, using(crate::proofs::Deriving::derived_facts))]
pub fn summed(
    cx: &mut Builder,
    sort: Sort,
    across: Rewriting,
    first: Derived,
    second: Derived,
) -> Result<Derived, Memory>
    requires leads { LeadsToSum cx.old sort across first second }
    requires ready { HasPolynomials cx.old.theory sort }
    ensures derives { IfOk result (λ r. (t a b : Tree) → Turns cx.old sort across t (sum_tree sort a b) → Derives cx.old sort first a (tree_of cx.old.trees first.tree) → Derives cx.old sort second b (tree_of cx.old.trees second.tree) → Derives cx.new sort r t (sum_tree sort (tree_of cx.old.trees first.tree) (tree_of cx.old.trees second.tree))) }
    ensures grows { Grows cx.old cx.new }
{
    let left = Rewriting {
        to: first.tree,
        line: Some(first.line),
    };
    let right = Rewriting {
        to: second.tree,
        line: Some(second.line),
    };
    let parts = plus(cx, sort, left, right)?;
    let q = then(cx, across, parts)?;
    let made = with_line(cx, q)?;
    Ok(made)
}
