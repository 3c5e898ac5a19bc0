//! Sums of two nodes of one power.
ghost use Rattle.std.specs.Prelude.{IfOk};
ghost use Rattle.alg_terms.specs.Tree.{Lit, sum_tree, product_tree};
ghost use Rattle.alg_expr.specs.Ids.{tree_of};
ghost use Rattle.alg_build.specs.Book.{Grows, Proves};
ghost use Rattle.alg_build.specs.Rewriting.{Stands};
ghost use Rattle.alg_node_sums.specs.Polynomials.{HasPolynomials};
ghost use Rattle.alg_node_sums.specs.Deriving.{ArePair, Derives};

use crate::lines::{Derived, Pair, with_line};
use crate::pairs::{dropped, gathered, gathered_left, gathered_right, no_products, products};
use alg_build::{Builder, Memory};
use alg_expr::{ExprId, Sort};
use alg_ring_rows::nodes::{add_nodes, add_nodes_zero};

/// `p * x + q + (r * x + s) = u * x + t`, from `p + r = u` and `q + s = t`.
#[tactic(auto, using(crate::proofs::Deriving::derived_facts))]
pub fn both(
    cx: &mut Builder,
    sort: Sort,
    p: Pair,
    q: ExprId,
    s: ExprId,
    inner: Derived,
    later: Derived,
) -> Result<Derived, Memory>
    requires p_in { ArePair cx.old sort p }
    requires q_in { Stands cx.old sort q (tree_of cx.old.trees q) }
    requires s_in { Stands cx.old sort s (tree_of cx.old.trees s) }
    requires inner { Derives cx.old sort inner (sum_tree sort (tree_of cx.old.trees p.first) (tree_of cx.old.trees p.second)) (tree_of cx.old.trees inner.tree) }
    requires later { Derives cx.old sort later (sum_tree sort (tree_of cx.old.trees q) (tree_of cx.old.trees s)) (tree_of cx.old.trees later.tree) }
    requires ready { HasPolynomials cx.old.theory sort }
    ensures derives { IfOk result (λ r. Derives cx.new sort r (sum_tree sort (sum_tree sort (tree_of cx.old.trees p.left) (tree_of cx.old.trees q)) (sum_tree sort (tree_of cx.old.trees p.right) (tree_of cx.old.trees s))) (sum_tree sort (product_tree sort (tree_of cx.old.trees inner.tree) (tree_of cx.old.trees p.power)) (tree_of cx.old.trees later.tree))) }
    ensures grows { Grows cx.old cx.new }
{
    let above = products(cx, sort, p, inner)?;
    let r = gathered(cx, sort, p.left, q, p.right, s, above, later)?;
    Ok(r)
}

/// `p * x + q + (r * x + 0) = u * x + q`, from `p + r = u`.
#[tactic(auto, using(crate::proofs::Deriving::derived_facts))]
pub fn first_rest(
    cx: &mut Builder,
    sort: Sort,
    p: Pair,
    q: ExprId,
    inner: Derived,
) -> Result<Derived, Memory>
    requires p_in { ArePair cx.old sort p }
    requires q_in { Stands cx.old sort q (tree_of cx.old.trees q) }
    requires inner { Derives cx.old sort inner (sum_tree sort (tree_of cx.old.trees p.first) (tree_of cx.old.trees p.second)) (tree_of cx.old.trees inner.tree) }
    requires ready { HasPolynomials cx.old.theory sort }
    ensures derives { IfOk result (λ r. Derives cx.new sort r (sum_tree sort (sum_tree sort (tree_of cx.old.trees p.left) (tree_of cx.old.trees q)) (sum_tree sort (tree_of cx.old.trees p.right) (Lit sort 0))) (sum_tree sort (product_tree sort (tree_of cx.old.trees inner.tree) (tree_of cx.old.trees p.power)) (tree_of cx.old.trees q))) }
    ensures grows { Grows cx.old cx.new }
{
    let above = products(cx, sort, p, inner)?;
    let r = gathered_right(cx, sort, p.left, q, p.right, above)?;
    Ok(r)
}

/// `p * x + 0 + (r * x + s) = u * x + s`, from `p + r = u`.
#[tactic(auto, using(crate::proofs::Deriving::derived_facts))]
pub fn second_rest(
    cx: &mut Builder,
    sort: Sort,
    p: Pair,
    s: ExprId,
    inner: Derived,
) -> Result<Derived, Memory>
    requires p_in { ArePair cx.old sort p }
    requires s_in { Stands cx.old sort s (tree_of cx.old.trees s) }
    requires inner { Derives cx.old sort inner (sum_tree sort (tree_of cx.old.trees p.first) (tree_of cx.old.trees p.second)) (tree_of cx.old.trees inner.tree) }
    requires ready { HasPolynomials cx.old.theory sort }
    ensures derives { IfOk result (λ r. Derives cx.new sort r (sum_tree sort (sum_tree sort (tree_of cx.old.trees p.left) (Lit sort 0)) (sum_tree sort (tree_of cx.old.trees p.right) (tree_of cx.old.trees s))) (sum_tree sort (product_tree sort (tree_of cx.old.trees inner.tree) (tree_of cx.old.trees p.power)) (tree_of cx.old.trees s))) }
    ensures grows { Grows cx.old cx.new }
{
    let above = products(cx, sort, p, inner)?;
    let r = gathered_left(cx, sort, p.left, p.right, s, above)?;
    Ok(r)
}

/// `p * x + 0 + (r * x + 0) = u * x + 0`, from `p + r = u`.
#[tactic(auto, using(crate::proofs::Deriving::derived_facts))]
pub fn no_rests(
    cx: &mut Builder,
    sort: Sort,
    a: ExprId,
    b: ExprId,
    c: ExprId,
    inner: Derived,
) -> Result<Derived, Memory>
    requires a_in { Stands cx.old sort a (tree_of cx.old.trees a) }
    requires b_in { Stands cx.old sort b (tree_of cx.old.trees b) }
    requires c_in { Stands cx.old sort c (tree_of cx.old.trees c) }
    requires inner { Derives cx.old sort inner (sum_tree sort (tree_of cx.old.trees a) (tree_of cx.old.trees b)) (tree_of cx.old.trees inner.tree) }
    requires ready { HasPolynomials cx.old.theory sort }
    ensures derives { IfOk result (λ r. Derives cx.new sort r (sum_tree sort (sum_tree sort (product_tree sort (tree_of cx.old.trees a) (tree_of cx.old.trees c)) (Lit sort 0)) (sum_tree sort (product_tree sort (tree_of cx.old.trees b) (tree_of cx.old.trees c)) (Lit sort 0))) (sum_tree sort (product_tree sort (tree_of cx.old.trees inner.tree) (tree_of cx.old.trees c)) (Lit sort 0))) }
    ensures grows { Grows cx.old cx.new }
{
    let r = add_nodes(cx, sort, a, b, inner.tree, c, inner.line)?;
    let made = with_line(cx, r)?;
    Ok(made)
}

/// `p * x + q + (r * x + s) = t`, from a line for `p + r = 0` and from `q + s = t`.
#[tactic(auto, using(crate::proofs::Deriving::derived_facts))]
pub fn rests_alone(
    cx: &mut Builder,
    sort: Sort,
    p: Pair,
    q: ExprId,
    s: ExprId,
    none: usize,
    later: Derived,
) -> Result<Derived, Memory>
    requires p_in { ArePair cx.old sort p }
    requires q_in { Stands cx.old sort q (tree_of cx.old.trees q) }
    requires s_in { Stands cx.old sort s (tree_of cx.old.trees s) }
    requires none { Proves cx.old none (sum_tree sort (tree_of cx.old.trees p.first) (tree_of cx.old.trees p.second)) (Lit sort 0) }
    requires later { Derives cx.old sort later (sum_tree sort (tree_of cx.old.trees q) (tree_of cx.old.trees s)) (tree_of cx.old.trees later.tree) }
    requires ready { HasPolynomials cx.old.theory sort }
    ensures derives { IfOk result (λ r. Derives cx.new sort r (sum_tree sort (sum_tree sort (tree_of cx.old.trees p.left) (tree_of cx.old.trees q)) (sum_tree sort (tree_of cx.old.trees p.right) (tree_of cx.old.trees s))) (tree_of cx.old.trees later.tree)) }
    ensures grows { Grows cx.old cx.new }
{
    let above = no_products(cx, sort, p, none)?;
    let r = dropped(cx, sort, p.left, q, p.right, s, above.line, later)?;
    Ok(r)
}

/// `p * x + 0 + (r * x + 0) = 0`, from a line for `p + r = 0`.
#[tactic(auto, using(crate::proofs::Deriving::derived_facts))]
pub fn nothing_left(
    cx: &mut Builder,
    sort: Sort,
    a: ExprId,
    b: ExprId,
    c: ExprId,
    none: usize,
) -> Result<Derived, Memory>
    requires a_in { Stands cx.old sort a (tree_of cx.old.trees a) }
    requires b_in { Stands cx.old sort b (tree_of cx.old.trees b) }
    requires c_in { Stands cx.old sort c (tree_of cx.old.trees c) }
    requires none { Proves cx.old none (sum_tree sort (tree_of cx.old.trees a) (tree_of cx.old.trees b)) (Lit sort 0) }
    requires ready { HasPolynomials cx.old.theory sort }
    ensures derives { IfOk result (λ r. Derives cx.new sort r (sum_tree sort (sum_tree sort (product_tree sort (tree_of cx.old.trees a) (tree_of cx.old.trees c)) (Lit sort 0)) (sum_tree sort (product_tree sort (tree_of cx.old.trees b) (tree_of cx.old.trees c)) (Lit sort 0))) (Lit sort 0)) }
    ensures grows { Grows cx.old cx.new }
{
    let r = add_nodes_zero(cx, sort, a, b, c, none)?;
    let made = with_line(cx, r)?;
    Ok(made)
}
