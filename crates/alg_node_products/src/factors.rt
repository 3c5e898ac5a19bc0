//! Products with nodes.
ghost use Rattle.std.specs.Prelude.{IfOk};
ghost use Rattle.alg_terms.specs.declared.sorts.Sort.TheVariants.{Nat};
ghost use Rattle.alg_terms.specs.Tree.{Lit, sum_tree, product_tree};
ghost use Rattle.alg_expr.specs.Ids.{tree_of};
ghost use Rattle.alg_build.specs.Book.{Grows, Proves};
ghost use Rattle.alg_build.specs.Rewriting.{Stands};
ghost use Rattle.alg_rows.specs.Operations.{power_tree};
ghost use Rattle.alg_node_sums.specs.Polynomials.{HasPolynomials};
ghost use Rattle.alg_node_sums.specs.Deriving.{Derives};

use alg_build::{Builder, Memory};
use alg_expr::{ExprId, Sort};
use alg_node_sums::combining::summed;
use alg_node_sums::lines::{Derived, with_line};
use alg_ring_rows::factors::{
    left_distrib, mul_node, mul_node_zero, mul_same, mul_same_zero, mul_swap, mul_unit,
    mul_unit_join,
};
use alg_rows::products::right_distrib;

/// `a * b = c`, from `b * a = c`.
#[tactic(auto, using(alg_node_sums::proofs::Deriving::derived_facts))]
pub fn turned(
    cx: &mut Builder,
    sort: Sort,
    a: ExprId,
    b: ExprId,
    product: Derived,
) -> Result<Derived, Memory>
    requires a_in { Stands cx.old sort a (tree_of cx.old.trees a) }
    requires b_in { Stands cx.old sort b (tree_of cx.old.trees b) }
    requires product { Derives cx.old sort product (product_tree sort (tree_of cx.old.trees b) (tree_of cx.old.trees a)) (tree_of cx.old.trees product.tree) }
    requires ready { HasPolynomials cx.old.theory sort }
    ensures derives { IfOk result (λ r. Derives cx.new sort r (product_tree sort (tree_of cx.old.trees a) (tree_of cx.old.trees b)) (tree_of cx.old.trees product.tree)) }
    ensures grows { Grows cx.old cx.new }
{
    let r = mul_swap(cx, sort, a, b, product.tree, product.line)?;
    let made = with_line(cx, r)?;
    Ok(made)
}

/// `a * (1 * b + 0) = a * b + 0`.
#[tactic(auto, using(alg_node_sums::proofs::Deriving::derived_facts))]
pub fn times_unit(cx: &mut Builder, sort: Sort, a: ExprId, b: ExprId) -> Result<Derived, Memory>
    requires a_in { Stands cx.old sort a (tree_of cx.old.trees a) }
    requires b_in { Stands cx.old sort b (tree_of cx.old.trees b) }
    requires ready { HasPolynomials cx.old.theory sort }
    ensures derives { IfOk result (λ r. Derives cx.new sort r (product_tree sort (tree_of cx.old.trees a) (sum_tree sort (product_tree sort (Lit sort 1) (tree_of cx.old.trees b)) (Lit sort 0))) (sum_tree sort (product_tree sort (tree_of cx.old.trees a) (tree_of cx.old.trees b)) (Lit sort 0))) }
    ensures grows { Grows cx.old cx.new }
{
    let r = mul_unit(cx, sort, a, b)?;
    let made = with_line(cx, r)?;
    Ok(made)
}

/// `(a * x ^ m + 0) * (1 * x ^ n + 0) = a * c + 0`, from a line for `x ^ m * x ^ n = c`.
#[tactic(auto, using(alg_node_sums::proofs::Deriving::derived_facts))]
pub fn times_unit_joined(
    cx: &mut Builder,
    sort: Sort,
    a: ExprId,
    c: ExprId,
    x: ExprId,
    m: ExprId,
    n: ExprId,
    powers: usize,
) -> Result<Derived, Memory>
    requires a_in { Stands cx.old sort a (tree_of cx.old.trees a) }
    requires c_in { Stands cx.old sort c (tree_of cx.old.trees c) }
    requires x_in { Stands cx.old sort x (tree_of cx.old.trees x) }
    requires m_in { Stands cx.old Nat m (tree_of cx.old.trees m) }
    requires n_in { Stands cx.old Nat n (tree_of cx.old.trees n) }
    requires powers { Proves cx.old powers (product_tree sort (power_tree sort (tree_of cx.old.trees x) (tree_of cx.old.trees m)) (power_tree sort (tree_of cx.old.trees x) (tree_of cx.old.trees n))) (tree_of cx.old.trees c) }
    requires ready { HasPolynomials cx.old.theory sort }
    ensures derives { IfOk result (λ r. Derives cx.new sort r (product_tree sort (sum_tree sort (product_tree sort (tree_of cx.old.trees a) (power_tree sort (tree_of cx.old.trees x) (tree_of cx.old.trees m))) (Lit sort 0)) (sum_tree sort (product_tree sort (Lit sort 1) (power_tree sort (tree_of cx.old.trees x) (tree_of cx.old.trees n))) (Lit sort 0))) (sum_tree sort (product_tree sort (tree_of cx.old.trees a) (tree_of cx.old.trees c)) (Lit sort 0))) }
    ensures grows { Grows cx.old cx.new }
{
    let r = mul_unit_join(cx, sort, a, x, c, m, n, powers)?;
    let made = with_line(cx, r)?;
    Ok(made)
}

/// `a * d * b = c * d`, from `a * b = c`.
#[tactic(auto, using(alg_node_sums::proofs::Deriving::derived_facts))]
pub fn node_times(
    cx: &mut Builder,
    sort: Sort,
    a: ExprId,
    b: ExprId,
    d: ExprId,
    inner: Derived,
) -> Result<Derived, Memory>
    requires a_in { Stands cx.old sort a (tree_of cx.old.trees a) }
    requires b_in { Stands cx.old sort b (tree_of cx.old.trees b) }
    requires d_in { Stands cx.old sort d (tree_of cx.old.trees d) }
    requires inner { Derives cx.old sort inner (product_tree sort (tree_of cx.old.trees a) (tree_of cx.old.trees b)) (tree_of cx.old.trees inner.tree) }
    requires ready { HasPolynomials cx.old.theory sort }
    ensures derives { IfOk result (λ r. Derives cx.new sort r (product_tree sort (product_tree sort (tree_of cx.old.trees a) (tree_of cx.old.trees d)) (tree_of cx.old.trees b)) (product_tree sort (tree_of cx.old.trees inner.tree) (tree_of cx.old.trees d))) }
    ensures grows { Grows cx.old cx.new }
{
    let r = mul_node(cx, sort, a, b, inner.tree, d, inner.line)?;
    let made = with_line(cx, r)?;
    Ok(made)
}

/// `(a * d + 0) * b = c * d + 0`, from `a * b = c`.
#[tactic(auto, using(alg_node_sums::proofs::Deriving::derived_facts))]
pub fn node_of_zero_times(
    cx: &mut Builder,
    sort: Sort,
    a: ExprId,
    b: ExprId,
    d: ExprId,
    inner: Derived,
) -> Result<Derived, Memory>
    requires a_in { Stands cx.old sort a (tree_of cx.old.trees a) }
    requires b_in { Stands cx.old sort b (tree_of cx.old.trees b) }
    requires d_in { Stands cx.old sort d (tree_of cx.old.trees d) }
    requires inner { Derives cx.old sort inner (product_tree sort (tree_of cx.old.trees a) (tree_of cx.old.trees b)) (tree_of cx.old.trees inner.tree) }
    requires ready { HasPolynomials cx.old.theory sort }
    ensures derives { IfOk result (λ r. Derives cx.new sort r (product_tree sort (sum_tree sort (product_tree sort (tree_of cx.old.trees a) (tree_of cx.old.trees d)) (Lit sort 0)) (tree_of cx.old.trees b)) (sum_tree sort (product_tree sort (tree_of cx.old.trees inner.tree) (tree_of cx.old.trees d)) (Lit sort 0))) }
    ensures grows { Grows cx.old cx.new }
{
    let r = mul_node_zero(cx, sort, a, b, inner.tree, d, inner.line)?;
    let made = with_line(cx, r)?;
    Ok(made)
}

/// `a * (b * d) = c * d`, from `a * b = c`.
#[tactic(auto, using(alg_node_sums::proofs::Deriving::derived_facts))]
pub fn times_node(
    cx: &mut Builder,
    sort: Sort,
    a: ExprId,
    b: ExprId,
    d: ExprId,
    inner: Derived,
) -> Result<Derived, Memory>
    requires a_in { Stands cx.old sort a (tree_of cx.old.trees a) }
    requires b_in { Stands cx.old sort b (tree_of cx.old.trees b) }
    requires d_in { Stands cx.old sort d (tree_of cx.old.trees d) }
    requires inner { Derives cx.old sort inner (product_tree sort (tree_of cx.old.trees a) (tree_of cx.old.trees b)) (tree_of cx.old.trees inner.tree) }
    requires ready { HasPolynomials cx.old.theory sort }
    ensures derives { IfOk result (λ r. Derives cx.new sort r (product_tree sort (tree_of cx.old.trees a) (product_tree sort (tree_of cx.old.trees b) (tree_of cx.old.trees d))) (product_tree sort (tree_of cx.old.trees inner.tree) (tree_of cx.old.trees d))) }
    ensures grows { Grows cx.old cx.new }
{
    let r = mul_same(cx, sort, a, b, inner.tree, d, inner.line)?;
    let made = with_line(cx, r)?;
    Ok(made)
}

/// `a * (b * d + 0) = c * d + 0`, from `a * b = c`.
#[tactic(auto, using(alg_node_sums::proofs::Deriving::derived_facts))]
pub fn times_node_of_zero(
    cx: &mut Builder,
    sort: Sort,
    a: ExprId,
    b: ExprId,
    d: ExprId,
    inner: Derived,
) -> Result<Derived, Memory>
    requires a_in { Stands cx.old sort a (tree_of cx.old.trees a) }
    requires b_in { Stands cx.old sort b (tree_of cx.old.trees b) }
    requires d_in { Stands cx.old sort d (tree_of cx.old.trees d) }
    requires inner { Derives cx.old sort inner (product_tree sort (tree_of cx.old.trees a) (tree_of cx.old.trees b)) (tree_of cx.old.trees inner.tree) }
    requires ready { HasPolynomials cx.old.theory sort }
    ensures derives { IfOk result (λ r. Derives cx.new sort r (product_tree sort (tree_of cx.old.trees a) (sum_tree sort (product_tree sort (tree_of cx.old.trees b) (tree_of cx.old.trees d)) (Lit sort 0))) (sum_tree sort (product_tree sort (tree_of cx.old.trees inner.tree) (tree_of cx.old.trees d)) (Lit sort 0))) }
    ensures grows { Grows cx.old cx.new }
{
    let r = mul_same_zero(cx, sort, a, b, inner.tree, d, inner.line)?;
    let made = with_line(cx, r)?;
    Ok(made)
}

/// `(a + b) * c = d + e`, from `a * c = d` and `b * c = e`.
#[tactic(auto, using(alg_node_sums::proofs::Deriving::derived_facts))]
pub fn sum_times(
    cx: &mut Builder,
    sort: Sort,
    a: ExprId,
    b: ExprId,
    c: ExprId,
    first: Derived,
    second: Derived,
) -> Result<Derived, Memory>
    requires a_in { Stands cx.old sort a (tree_of cx.old.trees a) }
    requires b_in { Stands cx.old sort b (tree_of cx.old.trees b) }
    requires c_in { Stands cx.old sort c (tree_of cx.old.trees c) }
    requires first { Derives cx.old sort first (product_tree sort (tree_of cx.old.trees a) (tree_of cx.old.trees c)) (tree_of cx.old.trees first.tree) }
    requires second { Derives cx.old sort second (product_tree sort (tree_of cx.old.trees b) (tree_of cx.old.trees c)) (tree_of cx.old.trees second.tree) }
    requires ready { HasPolynomials cx.old.theory sort }
    ensures derives { IfOk result (λ r. Derives cx.new sort r (product_tree sort (sum_tree sort (tree_of cx.old.trees a) (tree_of cx.old.trees b)) (tree_of cx.old.trees c)) (sum_tree sort (tree_of cx.old.trees first.tree) (tree_of cx.old.trees second.tree))) }
    ensures grows { Grows cx.old cx.new }
{
    let across = right_distrib(cx, sort, a, b, c)?;
    let r = summed(cx, sort, across, first, second)?;
    Ok(r)
}

/// `a * (b + c) = d + e`, from `a * b = d` and `a * c = e`.
#[tactic(auto, using(alg_node_sums::proofs::Deriving::derived_facts))]
pub fn times_sum(
    cx: &mut Builder,
    sort: Sort,
    a: ExprId,
    b: ExprId,
    c: ExprId,
    first: Derived,
    second: Derived,
) -> Result<Derived, Memory>
    requires a_in { Stands cx.old sort a (tree_of cx.old.trees a) }
    requires b_in { Stands cx.old sort b (tree_of cx.old.trees b) }
    requires c_in { Stands cx.old sort c (tree_of cx.old.trees c) }
    requires first { Derives cx.old sort first (product_tree sort (tree_of cx.old.trees a) (tree_of cx.old.trees b)) (tree_of cx.old.trees first.tree) }
    requires second { Derives cx.old sort second (product_tree sort (tree_of cx.old.trees a) (tree_of cx.old.trees c)) (tree_of cx.old.trees second.tree) }
    requires ready { HasPolynomials cx.old.theory sort }
    ensures derives { IfOk result (λ r. Derives cx.new sort r (product_tree sort (tree_of cx.old.trees a) (sum_tree sort (tree_of cx.old.trees b) (tree_of cx.old.trees c))) (sum_tree sort (tree_of cx.old.trees first.tree) (tree_of cx.old.trees second.tree))) }
    ensures grows { Grows cx.old cx.new }
{
    let across = left_distrib(cx, sort, a, b, c)?;
    let r = summed(cx, sort, across, first, second)?;
    Ok(r)
}
