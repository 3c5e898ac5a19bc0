//! Sums of a product by a power and a node of the same power.
ghost use Rattle.std.specs.Prelude.{IfOk};
ghost use Rattle.alg_terms.specs.Tree.{Lit, sum_tree, product_tree};
ghost use Rattle.alg_expr.specs.Ids.{tree_of};
ghost use Rattle.alg_build.specs.Book.{Grows, Proves};
ghost use Rattle.alg_build.specs.Rewriting.{Stands};
ghost use Rattle.alg_node_sums.specs.Polynomials.{HasPolynomials};
ghost use Rattle.alg_node_sums.specs.Deriving.{ArePair, Derives};

use crate::lines::{Derived, Pair, with_line};
use crate::pairs::{no_products, products};
use alg_build::{Builder, Memory};
use alg_expr::{ExprId, Sort};
use alg_ring_rows::nodes::{add_front, add_front_drop};

/// `a + (b + d) = c + d`, from `a + b = c`.
#[tactic(auto, using(crate::proofs::Deriving::derived_facts))]
pub fn before(
    cx: &mut Builder,
    sort: Sort,
    a: ExprId,
    b: ExprId,
    d: ExprId,
    above: Derived,
) -> Result<Derived, Memory>
    requires a_in { Stands cx.old sort a (tree_of cx.old.trees a) }
    requires b_in { Stands cx.old sort b (tree_of cx.old.trees b) }
    requires d_in { Stands cx.old sort d (tree_of cx.old.trees d) }
    requires above { Derives cx.old sort above (sum_tree sort (tree_of cx.old.trees a) (tree_of cx.old.trees b)) (tree_of cx.old.trees above.tree) }
    requires ready { HasPolynomials cx.old.theory sort }
    ensures derives { IfOk result (λ r. Derives cx.new sort r (sum_tree sort (tree_of cx.old.trees a) (sum_tree sort (tree_of cx.old.trees b) (tree_of cx.old.trees d))) (sum_tree sort (tree_of cx.old.trees above.tree) (tree_of cx.old.trees d))) }
    ensures grows { Grows cx.old cx.new }
{
    let r = add_front(cx, sort, a, b, above.tree, d, above.line)?;
    let made = with_line(cx, r)?;
    Ok(made)
}

/// `a + (b + d) = d`, from a line for `a + b = 0`.
#[tactic(auto, using(crate::proofs::Deriving::derived_facts))]
pub fn before_nothing(
    cx: &mut Builder,
    sort: Sort,
    a: ExprId,
    b: ExprId,
    d: ExprId,
    none: usize,
) -> Result<Derived, Memory>
    requires a_in { Stands cx.old sort a (tree_of cx.old.trees a) }
    requires b_in { Stands cx.old sort b (tree_of cx.old.trees b) }
    requires d_in { Stands cx.old sort d (tree_of cx.old.trees d) }
    requires none { Proves cx.old none (sum_tree sort (tree_of cx.old.trees a) (tree_of cx.old.trees b)) (Lit sort 0) }
    requires ready { HasPolynomials cx.old.theory sort }
    ensures derives { IfOk result (λ r. Derives cx.new sort r (sum_tree sort (tree_of cx.old.trees a) (sum_tree sort (tree_of cx.old.trees b) (tree_of cx.old.trees d))) (tree_of cx.old.trees d)) }
    ensures grows { Grows cx.old cx.new }
{
    let r = add_front_drop(cx, sort, a, b, d, none)?;
    let made = with_line(cx, r)?;
    Ok(made)
}

/// `p * x + (r * x + s) = u * x + s`, from `p + r = u`.
#[tactic(auto, using(crate::proofs::Deriving::derived_facts))]
pub fn front(
    cx: &mut Builder,
    sort: Sort,
    p: Pair,
    s: ExprId,
    inner: Derived,
) -> Result<Derived, Memory>
    requires p_in { ArePair cx.old sort p }
    requires s_in { Stands cx.old sort s (tree_of cx.old.trees s) }
    requires inner { Derives cx.old sort inner (sum_tree sort (tree_of cx.old.trees p.first) (tree_of cx.old.trees p.second)) (tree_of cx.old.trees inner.tree) }
    requires ready { HasPolynomials cx.old.theory sort }
    ensures derives { IfOk result (λ r. Derives cx.new sort r (sum_tree sort (tree_of cx.old.trees p.left) (sum_tree sort (tree_of cx.old.trees p.right) (tree_of cx.old.trees s))) (sum_tree sort (product_tree sort (tree_of cx.old.trees inner.tree) (tree_of cx.old.trees p.power)) (tree_of cx.old.trees s))) }
    ensures grows { Grows cx.old cx.new }
{
    let above = products(cx, sort, p, inner)?;
    let r = before(cx, sort, p.left, p.right, s, above)?;
    Ok(r)
}

/// `p * x + (r * x + s) = s`, from a line for `p + r = 0`.
#[tactic(auto, using(crate::proofs::Deriving::derived_facts))]
pub fn front_gone(
    cx: &mut Builder,
    sort: Sort,
    p: Pair,
    s: ExprId,
    none: usize,
) -> Result<Derived, Memory>
    requires p_in { ArePair cx.old sort p }
    requires s_in { Stands cx.old sort s (tree_of cx.old.trees s) }
    requires none { Proves cx.old none (sum_tree sort (tree_of cx.old.trees p.first) (tree_of cx.old.trees p.second)) (Lit sort 0) }
    requires ready { HasPolynomials cx.old.theory sort }
    ensures derives { IfOk result (λ r. Derives cx.new sort r (sum_tree sort (tree_of cx.old.trees p.left) (sum_tree sort (tree_of cx.old.trees p.right) (tree_of cx.old.trees s))) (tree_of cx.old.trees s)) }
    ensures grows { Grows cx.old cx.new }
{
    let above = no_products(cx, sort, p, none)?;
    let r = before_nothing(cx, sort, p.left, p.right, s, above.line)?;
    Ok(r)
}
