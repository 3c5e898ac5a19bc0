//! Negations of nodes, and differences.
ghost use Rattle.std.specs.Prelude.{◌≡◌, IfOk};
ghost use Rattle.alg_terms.specs.Tree.{Lit, sum_tree, product_tree};
ghost use Rattle.alg_expr.specs.Ids.{tree_of};
ghost use Rattle.alg_build.specs.Book.{Grows};
ghost use Rattle.alg_build.specs.Rewriting.{Stands};
ghost use Rattle.alg_rows.specs.Operations.{negation_tree, difference_tree};
ghost use Rattle.alg_node_sums.specs.Polynomials.{HasNegations};
ghost use Rattle.alg_node_sums.specs.Deriving.{Derives};

use alg_build::{Builder, Memory};
use alg_expr::{ExprId, Sort};
use alg_node_sums::lines::{Derived, with_line};
use alg_ring_rows::negations::{neg_node, neg_node_zero, neg_sum};
use alg_rows::sums::sub_of_neg;

/// `-(a * c + d) = b * c + e`, from `-a = b` and `-d = e`.
#[tactic(auto, using(alg_node_sums::proofs::Deriving::derived_facts))]
pub fn negated(
    cx: &mut Builder,
    sort: Sort,
    a: ExprId,
    c: ExprId,
    d: ExprId,
    e: ExprId,
    inner: Derived,
    later: Derived,
) -> Result<Derived, Memory>
    requires a_in { Stands cx.old sort a (tree_of cx.old.trees a) }
    requires c_in { Stands cx.old sort c (tree_of cx.old.trees c) }
    requires d_in { Stands cx.old sort d (tree_of cx.old.trees d) }
    requires e_in { Stands cx.old sort e (tree_of cx.old.trees e) }
    requires product { tree_of cx.old.trees e ≡ product_tree sort (tree_of cx.old.trees a) (tree_of cx.old.trees c) }
    requires inner { Derives cx.old sort inner (negation_tree sort (tree_of cx.old.trees a)) (tree_of cx.old.trees inner.tree) }
    requires later { Derives cx.old sort later (negation_tree sort (tree_of cx.old.trees d)) (tree_of cx.old.trees later.tree) }
    requires ready { HasNegations cx.old.theory sort }
    ensures derives { IfOk result (λ r. Derives cx.new sort r (negation_tree sort (sum_tree sort (tree_of cx.old.trees e) (tree_of cx.old.trees d))) (sum_tree sort (product_tree sort (tree_of cx.old.trees inner.tree) (tree_of cx.old.trees c)) (tree_of cx.old.trees later.tree))) }
    ensures grows { Grows cx.old cx.new }
{
    let above = negated_product(cx, sort, a, c, inner)?;
    let r = neg_sum(
        cx, sort, e, d, above.tree, later.tree, above.line, later.line,
    )?;
    let made = with_line(cx, r)?;
    Ok(made)
}

/// `-(a * c) = b * c`, from `-a = b`.
#[tactic(auto, using(alg_node_sums::proofs::Deriving::derived_facts))]
pub fn negated_product(
    cx: &mut Builder,
    sort: Sort,
    a: ExprId,
    c: ExprId,
    inner: Derived,
) -> Result<Derived, Memory>
    requires a_in { Stands cx.old sort a (tree_of cx.old.trees a) }
    requires c_in { Stands cx.old sort c (tree_of cx.old.trees c) }
    requires inner { Derives cx.old sort inner (negation_tree sort (tree_of cx.old.trees a)) (tree_of cx.old.trees inner.tree) }
    requires ready { HasNegations cx.old.theory sort }
    ensures derives { IfOk result (λ r. Derives cx.new sort r (negation_tree sort (product_tree sort (tree_of cx.old.trees a) (tree_of cx.old.trees c))) (product_tree sort (tree_of cx.old.trees inner.tree) (tree_of cx.old.trees c))) }
    ensures grows { Grows cx.old cx.new }
{
    let r = neg_node(cx, sort, a, inner.tree, c, inner.line)?;
    let made = with_line(cx, r)?;
    Ok(made)
}

/// `-(a * c + 0) = b * c + 0`, from `-a = b`.
#[tactic(auto, using(alg_node_sums::proofs::Deriving::derived_facts))]
pub fn negated_of_zero(
    cx: &mut Builder,
    sort: Sort,
    a: ExprId,
    c: ExprId,
    inner: Derived,
) -> Result<Derived, Memory>
    requires a_in { Stands cx.old sort a (tree_of cx.old.trees a) }
    requires c_in { Stands cx.old sort c (tree_of cx.old.trees c) }
    requires inner { Derives cx.old sort inner (negation_tree sort (tree_of cx.old.trees a)) (tree_of cx.old.trees inner.tree) }
    requires ready { HasNegations cx.old.theory sort }
    ensures derives { IfOk result (λ r. Derives cx.new sort r (negation_tree sort (sum_tree sort (product_tree sort (tree_of cx.old.trees a) (tree_of cx.old.trees c)) (Lit sort 0))) (sum_tree sort (product_tree sort (tree_of cx.old.trees inner.tree) (tree_of cx.old.trees c)) (Lit sort 0))) }
    ensures grows { Grows cx.old cx.new }
{
    let r = neg_node_zero(cx, sort, a, inner.tree, c, inner.line)?;
    let made = with_line(cx, r)?;
    Ok(made)
}

/// `a - b = d`, from `-b = c` and `a + c = d`.
#[tactic(auto, using(alg_node_sums::proofs::Deriving::derived_facts))]
pub fn difference(
    cx: &mut Builder,
    sort: Sort,
    a: ExprId,
    b: ExprId,
    negative: Derived,
    total: Derived,
) -> Result<Derived, Memory>
    requires a_in { Stands cx.old sort a (tree_of cx.old.trees a) }
    requires b_in { Stands cx.old sort b (tree_of cx.old.trees b) }
    requires negative { Derives cx.old sort negative (negation_tree sort (tree_of cx.old.trees b)) (tree_of cx.old.trees negative.tree) }
    requires total { Derives cx.old sort total (sum_tree sort (tree_of cx.old.trees a) (tree_of cx.old.trees negative.tree)) (tree_of cx.old.trees total.tree) }
    requires ready { HasNegations cx.old.theory sort }
    ensures derives { IfOk result (λ r. Derives cx.new sort r (difference_tree sort (tree_of cx.old.trees a) (tree_of cx.old.trees b)) (tree_of cx.old.trees total.tree)) }
    ensures grows { Grows cx.old cx.new }
{
    let r = sub_of_neg(
        cx,
        sort,
        a,
        b,
        negative.tree,
        total.tree,
        negative.line,
        total.line,
    )?;
    let made = with_line(cx, r)?;
    Ok(made)
}
