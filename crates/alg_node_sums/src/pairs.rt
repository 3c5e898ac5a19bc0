//! Sums of two nodes of one power, part by part.
ghost use Rattle.std.specs.Prelude.{IfOk};
ghost use Rattle.alg_terms.specs.Tree.{Lit, sum_tree, product_tree};
ghost use Rattle.alg_expr.specs.Ids.{tree_of};
ghost use Rattle.alg_build.specs.Book.{Grows, Proves};
ghost use Rattle.alg_build.specs.Rewriting.{Stands};
ghost use Rattle.alg_node_sums.specs.Polynomials.{HasPolynomials};
ghost use Rattle.alg_node_sums.specs.Deriving.{ArePair, Derives};

use crate::lines::{Derived, Pair, with_line};
use alg_build::{Builder, Memory, Rewriting, then};
use alg_expr::{ExprId, Sort};
use alg_ring_rows::nodes::{
    add_mul_right, add_mul_right_zero, add_pair_drop, add_pair_left, add_pair_right,
};
use alg_sorted_sums::joining::both_next;

/// `p * x + r * x = u * x`, from `p + r = u`.
#[tactic(auto, using(crate::proofs::Deriving::derived_facts))]
pub fn products(cx: &mut Builder, sort: Sort, p: Pair, inner: Derived) -> Result<Derived, Memory>
    requires p_in { ArePair cx.old sort p }
    requires inner { Derives cx.old sort inner (sum_tree sort (tree_of cx.old.trees p.first) (tree_of cx.old.trees p.second)) (tree_of cx.old.trees inner.tree) }
    requires ready { HasPolynomials cx.old.theory sort }
    ensures derives { IfOk result (λ r. Derives cx.new sort r (sum_tree sort (tree_of cx.old.trees p.left) (tree_of cx.old.trees p.right)) (product_tree sort (tree_of cx.old.trees inner.tree) (tree_of cx.old.trees p.power))) }
    ensures grows { Grows cx.old cx.new }
{
    let r = add_mul_right(cx, sort, p.first, p.second, inner.tree, p.power, inner.line)?;
    let made = with_line(cx, r)?;
    Ok(made)
}

/// `p * x + r * x = 0`, from a line for `p + r = 0`.
#[tactic(auto, using(crate::proofs::Deriving::derived_facts))]
pub fn no_products(cx: &mut Builder, sort: Sort, p: Pair, none: usize) -> Result<Derived, Memory>
    requires p_in { ArePair cx.old sort p }
    requires none { Proves cx.old none (sum_tree sort (tree_of cx.old.trees p.first) (tree_of cx.old.trees p.second)) (Lit sort 0) }
    requires ready { HasPolynomials cx.old.theory sort }
    ensures derives { IfOk result (λ r. Derives cx.new sort r (sum_tree sort (tree_of cx.old.trees p.left) (tree_of cx.old.trees p.right)) (Lit sort 0)) }
    ensures grows { Grows cx.old cx.new }
{
    let r = add_mul_right_zero(cx, sort, p.first, p.second, p.power, none)?;
    let made = with_line(cx, r)?;
    Ok(made)
}

/// `a + b + (c + d) = e + f`, from `a + c = e` and `b + d = f`.
#[tactic(auto, using(crate::proofs::Deriving::derived_facts))]
pub fn gathered(
    cx: &mut Builder,
    sort: Sort,
    a: ExprId,
    b: ExprId,
    c: ExprId,
    d: ExprId,
    above: Derived,
    later: Derived,
) -> Result<Derived, Memory>
    requires a_in { Stands cx.old sort a (tree_of cx.old.trees a) }
    requires b_in { Stands cx.old sort b (tree_of cx.old.trees b) }
    requires c_in { Stands cx.old sort c (tree_of cx.old.trees c) }
    requires d_in { Stands cx.old sort d (tree_of cx.old.trees d) }
    requires above { Derives cx.old sort above (sum_tree sort (tree_of cx.old.trees a) (tree_of cx.old.trees c)) (tree_of cx.old.trees above.tree) }
    requires later { Derives cx.old sort later (sum_tree sort (tree_of cx.old.trees b) (tree_of cx.old.trees d)) (tree_of cx.old.trees later.tree) }
    requires ready { HasPolynomials cx.old.theory sort }
    ensures derives { IfOk result (λ r. Derives cx.new sort r (sum_tree sort (sum_tree sort (tree_of cx.old.trees a) (tree_of cx.old.trees b)) (sum_tree sort (tree_of cx.old.trees c) (tree_of cx.old.trees d))) (sum_tree sort (tree_of cx.old.trees above.tree) (tree_of cx.old.trees later.tree))) }
    ensures grows { Grows cx.old cx.new }
{
    let first = Rewriting {
        to: above.tree,
        line: Some(above.line),
    };
    let second = Rewriting {
        to: later.tree,
        line: Some(later.line),
    };
    let r = both_next(cx, sort, a, b, c, d, first, second)?;
    let made = with_line(cx, r)?;
    Ok(made)
}

/// `a + 0 + (c + d) = e + d`, from `a + c = e`.
#[tactic(auto, using(crate::proofs::Deriving::derived_facts))]
pub fn gathered_left(
    cx: &mut Builder,
    sort: Sort,
    a: ExprId,
    c: ExprId,
    d: ExprId,
    above: Derived,
) -> Result<Derived, Memory>
    requires a_in { Stands cx.old sort a (tree_of cx.old.trees a) }
    requires c_in { Stands cx.old sort c (tree_of cx.old.trees c) }
    requires d_in { Stands cx.old sort d (tree_of cx.old.trees d) }
    requires above { Derives cx.old sort above (sum_tree sort (tree_of cx.old.trees a) (tree_of cx.old.trees c)) (tree_of cx.old.trees above.tree) }
    requires ready { HasPolynomials cx.old.theory sort }
    ensures derives { IfOk result (λ r. Derives cx.new sort r (sum_tree sort (sum_tree sort (tree_of cx.old.trees a) (Lit sort 0)) (sum_tree sort (tree_of cx.old.trees c) (tree_of cx.old.trees d))) (sum_tree sort (tree_of cx.old.trees above.tree) (tree_of cx.old.trees d))) }
    ensures grows { Grows cx.old cx.new }
{
    let r = add_pair_left(cx, sort, a, c, above.tree, d, above.line)?;
    let made = with_line(cx, r)?;
    Ok(made)
}

/// `a + b + (c + 0) = e + b`, from `a + c = e`.
#[tactic(auto, using(crate::proofs::Deriving::derived_facts))]
pub fn gathered_right(
    cx: &mut Builder,
    sort: Sort,
    a: ExprId,
    b: ExprId,
    c: ExprId,
    above: Derived,
) -> Result<Derived, Memory>
    requires a_in { Stands cx.old sort a (tree_of cx.old.trees a) }
    requires b_in { Stands cx.old sort b (tree_of cx.old.trees b) }
    requires c_in { Stands cx.old sort c (tree_of cx.old.trees c) }
    requires above { Derives cx.old sort above (sum_tree sort (tree_of cx.old.trees a) (tree_of cx.old.trees c)) (tree_of cx.old.trees above.tree) }
    requires ready { HasPolynomials cx.old.theory sort }
    ensures derives { IfOk result (λ r. Derives cx.new sort r (sum_tree sort (sum_tree sort (tree_of cx.old.trees a) (tree_of cx.old.trees b)) (sum_tree sort (tree_of cx.old.trees c) (Lit sort 0))) (sum_tree sort (tree_of cx.old.trees above.tree) (tree_of cx.old.trees b))) }
    ensures grows { Grows cx.old cx.new }
{
    let r = add_pair_right(cx, sort, a, c, above.tree, b, above.line)?;
    let made = with_line(cx, r)?;
    Ok(made)
}

/// `a + b + (c + d) = e`, from a line for `a + c = 0` and from `b + d = e`.
#[tactic(auto, using(crate::proofs::Deriving::derived_facts))]
pub fn dropped(
    cx: &mut Builder,
    sort: Sort,
    a: ExprId,
    b: ExprId,
    c: ExprId,
    d: ExprId,
    none: usize,
    later: Derived,
) -> Result<Derived, Memory>
    requires a_in { Stands cx.old sort a (tree_of cx.old.trees a) }
    requires b_in { Stands cx.old sort b (tree_of cx.old.trees b) }
    requires c_in { Stands cx.old sort c (tree_of cx.old.trees c) }
    requires d_in { Stands cx.old sort d (tree_of cx.old.trees d) }
    requires none { Proves cx.old none (sum_tree sort (tree_of cx.old.trees a) (tree_of cx.old.trees c)) (Lit sort 0) }
    requires later { Derives cx.old sort later (sum_tree sort (tree_of cx.old.trees b) (tree_of cx.old.trees d)) (tree_of cx.old.trees later.tree) }
    requires ready { HasPolynomials cx.old.theory sort }
    ensures derives { IfOk result (λ r. Derives cx.new sort r (sum_tree sort (sum_tree sort (tree_of cx.old.trees a) (tree_of cx.old.trees b)) (sum_tree sort (tree_of cx.old.trees c) (tree_of cx.old.trees d))) (tree_of cx.old.trees later.tree)) }
    ensures grows { Grows cx.old cx.new }
{
    let across = add_pair_drop(cx, sort, a, c, b, d, none)?;
    let second = Rewriting {
        to: later.tree,
        line: Some(later.line),
    };
    let r = then(cx, across, second)?;
    let made = with_line(cx, r)?;
    Ok(made)
}
