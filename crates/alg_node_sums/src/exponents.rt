//! Nodes with another power of their atom.
ghost use Rattle.std.specs.Prelude.{IfOk};
ghost use Rattle.alg_terms.specs.declared.sorts.Sort.TheVariants.{Nat};
ghost use Rattle.alg_terms.specs.Tree.{Lit, sum_tree, product_tree};
ghost use Rattle.alg_expr.specs.Ids.{tree_of};
ghost use Rattle.alg_build.specs.Book.{Grows, Proves};
ghost use Rattle.alg_build.specs.Rewriting.{Stands};
ghost use Rattle.alg_rows.specs.Operations.{power_tree};
ghost use Rattle.alg_node_sums.specs.Polynomials.{HasPolynomials};
ghost use Rattle.alg_node_sums.specs.Deriving.{Derives};

use crate::combining::beside_rest;
use crate::lines::Derived;
use alg_build::{Builder, Memory};
use alg_expr::{ExprId, Sort};
use alg_ring_rows::splits::{node_join, node_split};

/// `a * c + b = (a * x ^ m + 0) * x ^ n + b`, from a line for `x ^ m * x ^ n = c`.
#[tactic(auto, using(crate::proofs::Deriving::derived_facts))]
pub fn split(
    cx: &mut Builder,
    sort: Sort,
    a: ExprId,
    b: ExprId,
    c: ExprId,
    x: ExprId,
    m: ExprId,
    n: ExprId,
    powers: usize,
) -> Result<Derived, Memory>
    requires a_in { Stands cx.old sort a (tree_of cx.old.trees a) }
    requires b_in { Stands cx.old sort b (tree_of cx.old.trees b) }
    requires c_in { Stands cx.old sort c (tree_of cx.old.trees c) }
    requires x_in { Stands cx.old sort x (tree_of cx.old.trees x) }
    requires m_in { Stands cx.old Nat m (tree_of cx.old.trees m) }
    requires n_in { Stands cx.old Nat n (tree_of cx.old.trees n) }
    requires powers { Proves cx.old powers (product_tree sort (power_tree sort (tree_of cx.old.trees x) (tree_of cx.old.trees m)) (power_tree sort (tree_of cx.old.trees x) (tree_of cx.old.trees n))) (tree_of cx.old.trees c) }
    requires ready { HasPolynomials cx.old.theory sort }
    ensures derives { IfOk result (λ r. Derives cx.new sort r (sum_tree sort (product_tree sort (tree_of cx.old.trees a) (tree_of cx.old.trees c)) (tree_of cx.old.trees b)) (sum_tree sort (product_tree sort (sum_tree sort (product_tree sort (tree_of cx.old.trees a) (power_tree sort (tree_of cx.old.trees x) (tree_of cx.old.trees m))) (Lit sort 0)) (power_tree sort (tree_of cx.old.trees x) (tree_of cx.old.trees n))) (tree_of cx.old.trees b))) }
    ensures grows { Grows cx.old cx.new }
{
    let r = node_split(cx, sort, a, x, c, m, n, powers)?;
    let q = beside_rest(cx, sort, r, b)?;
    Ok(q)
}

/// `(a * x ^ m + 0) * x ^ n + b = a * c + b`, from a line for `x ^ m * x ^ n = c`.
#[tactic(auto, using(crate::proofs::Deriving::derived_facts))]
pub fn joined(
    cx: &mut Builder,
    sort: Sort,
    a: ExprId,
    b: ExprId,
    c: ExprId,
    x: ExprId,
    m: ExprId,
    n: ExprId,
    powers: usize,
) -> Result<Derived, Memory>
    requires a_in { Stands cx.old sort a (tree_of cx.old.trees a) }
    requires b_in { Stands cx.old sort b (tree_of cx.old.trees b) }
    requires c_in { Stands cx.old sort c (tree_of cx.old.trees c) }
    requires x_in { Stands cx.old sort x (tree_of cx.old.trees x) }
    requires m_in { Stands cx.old Nat m (tree_of cx.old.trees m) }
    requires n_in { Stands cx.old Nat n (tree_of cx.old.trees n) }
    requires powers { Proves cx.old powers (product_tree sort (power_tree sort (tree_of cx.old.trees x) (tree_of cx.old.trees m)) (power_tree sort (tree_of cx.old.trees x) (tree_of cx.old.trees n))) (tree_of cx.old.trees c) }
    requires ready { HasPolynomials cx.old.theory sort }
    ensures derives { IfOk result (λ r. Derives cx.new sort r (sum_tree sort (product_tree sort (sum_tree sort (product_tree sort (tree_of cx.old.trees a) (power_tree sort (tree_of cx.old.trees x) (tree_of cx.old.trees m))) (Lit sort 0)) (power_tree sort (tree_of cx.old.trees x) (tree_of cx.old.trees n))) (tree_of cx.old.trees b)) (sum_tree sort (product_tree sort (tree_of cx.old.trees a) (tree_of cx.old.trees c)) (tree_of cx.old.trees b))) }
    ensures grows { Grows cx.old cx.new }
{
    let r = node_join(cx, sort, a, x, c, m, n, powers)?;
    let q = beside_rest(cx, sort, r, b)?;
    Ok(q)
}
