//! Sums of a node and what has later atoms alone.
ghost use Rattle.std.specs.Prelude.{IfOk};
ghost use Rattle.alg_terms.specs.Tree.{Lit, sum_tree};
ghost use Rattle.alg_expr.specs.Ids.{tree_of};
ghost use Rattle.alg_build.specs.Book.{Grows};
ghost use Rattle.alg_build.specs.Rewriting.{Stands};
ghost use Rattle.alg_node_sums.specs.Polynomials.{HasPolynomials};
ghost use Rattle.alg_node_sums.specs.Deriving.{Derives};

use crate::lines::{Derived, with_line};
use alg_build::{Builder, Memory};
use alg_expr::{ExprId, Sort};
use alg_ring_rows::nodes::{add_head, add_head_zero, add_tail, add_tail_zero};

/// `a + b + c = a + d`, from `b + c = d`.
#[tactic(auto, using(crate::proofs::Deriving::derived_facts))]
pub fn tail(
    cx: &mut Builder,
    sort: Sort,
    a: ExprId,
    b: ExprId,
    c: ExprId,
    later: Derived,
) -> Result<Derived, Memory>
    requires a_in { Stands cx.old sort a (tree_of cx.old.trees a) }
    requires b_in { Stands cx.old sort b (tree_of cx.old.trees b) }
    requires c_in { Stands cx.old sort c (tree_of cx.old.trees c) }
    requires later { Derives cx.old sort later (sum_tree sort (tree_of cx.old.trees b) (tree_of cx.old.trees c)) (tree_of cx.old.trees later.tree) }
    requires ready { HasPolynomials cx.old.theory sort }
    ensures derives { IfOk result (λ r. Derives cx.new sort r (sum_tree sort (sum_tree sort (tree_of cx.old.trees a) (tree_of cx.old.trees b)) (tree_of cx.old.trees c)) (sum_tree sort (tree_of cx.old.trees a) (tree_of cx.old.trees later.tree))) }
    ensures grows { Grows cx.old cx.new }
{
    let r = add_tail(cx, sort, a, b, c, later.tree, later.line)?;
    let made = with_line(cx, r)?;
    Ok(made)
}

/// `a + 0 + b = a + b`.
#[tactic(auto, using(crate::proofs::Deriving::derived_facts))]
pub fn tail_of_zero(cx: &mut Builder, sort: Sort, a: ExprId, b: ExprId) -> Result<Derived, Memory>
    requires a_in { Stands cx.old sort a (tree_of cx.old.trees a) }
    requires b_in { Stands cx.old sort b (tree_of cx.old.trees b) }
    requires ready { HasPolynomials cx.old.theory sort }
    ensures derives { IfOk result (λ r. Derives cx.new sort r (sum_tree sort (sum_tree sort (tree_of cx.old.trees a) (Lit sort 0)) (tree_of cx.old.trees b)) (sum_tree sort (tree_of cx.old.trees a) (tree_of cx.old.trees b))) }
    ensures grows { Grows cx.old cx.new }
{
    let r = add_tail_zero(cx, sort, a, b)?;
    let made = with_line(cx, r)?;
    Ok(made)
}

/// `b + (a + c) = a + d`, from `b + c = d`.
#[tactic(auto, using(crate::proofs::Deriving::derived_facts))]
pub fn head(
    cx: &mut Builder,
    sort: Sort,
    a: ExprId,
    b: ExprId,
    c: ExprId,
    later: Derived,
) -> Result<Derived, Memory>
    requires a_in { Stands cx.old sort a (tree_of cx.old.trees a) }
    requires b_in { Stands cx.old sort b (tree_of cx.old.trees b) }
    requires c_in { Stands cx.old sort c (tree_of cx.old.trees c) }
    requires later { Derives cx.old sort later (sum_tree sort (tree_of cx.old.trees b) (tree_of cx.old.trees c)) (tree_of cx.old.trees later.tree) }
    requires ready { HasPolynomials cx.old.theory sort }
    ensures derives { IfOk result (λ r. Derives cx.new sort r (sum_tree sort (tree_of cx.old.trees b) (sum_tree sort (tree_of cx.old.trees a) (tree_of cx.old.trees c))) (sum_tree sort (tree_of cx.old.trees a) (tree_of cx.old.trees later.tree))) }
    ensures grows { Grows cx.old cx.new }
{
    let r = add_head(cx, sort, a, b, c, later.tree, later.line)?;
    let made = with_line(cx, r)?;
    Ok(made)
}

/// `b + (a + 0) = a + b`.
#[tactic(auto, using(crate::proofs::Deriving::derived_facts))]
pub fn head_of_zero(cx: &mut Builder, sort: Sort, a: ExprId, b: ExprId) -> Result<Derived, Memory>
    requires a_in { Stands cx.old sort a (tree_of cx.old.trees a) }
    requires b_in { Stands cx.old sort b (tree_of cx.old.trees b) }
    requires ready { HasPolynomials cx.old.theory sort }
    ensures derives { IfOk result (λ r. Derives cx.new sort r (sum_tree sort (tree_of cx.old.trees b) (sum_tree sort (tree_of cx.old.trees a) (Lit sort 0))) (sum_tree sort (tree_of cx.old.trees a) (tree_of cx.old.trees b))) }
    ensures grows { Grows cx.old cx.new }
{
    let r = add_head_zero(cx, sort, a, b)?;
    let made = with_line(cx, r)?;
    Ok(made)
}
