//! Powers of nodes, and atoms as nodes.
ghost use Rattle.std.specs.Prelude.{IfOk};
ghost use Rattle.alg_terms.specs.declared.sorts.Sort.TheVariants.{Nat};
ghost use Rattle.alg_terms.specs.Tree.{Lit, sum_tree, product_tree};
ghost use Rattle.alg_expr.specs.Ids.{tree_of};
ghost use Rattle.alg_build.specs.Book.{Grows, Proves};
ghost use Rattle.alg_build.specs.Rewriting.{Stands};
ghost use Rattle.alg_rows.specs.Operations.{power_tree};
ghost use Rattle.alg_node_sums.specs.Polynomials.{HasPolynomials};
ghost use Rattle.alg_node_sums.specs.Deriving.{Derives};

use alg_build::{Builder, Memory};
use alg_expr::{ExprId, Sort};
use alg_node_sums::lines::{Derived, with_line};
use alg_ring_rows::factors::pow_node;
use alg_ring_rows::splits::atom_node;
use alg_rows::powers::pow_next;

/// `(a * b + 0) ^ n = c * d + 0`, from `a ^ n = c` and `b ^ n = d`.
#[tactic(auto, using(alg_node_sums::proofs::Deriving::derived_facts))]
pub fn power_of_node(
    cx: &mut Builder,
    sort: Sort,
    a: ExprId,
    b: ExprId,
    n: ExprId,
    inner: Derived,
    outer: Derived,
) -> Result<Derived, Memory>
    requires a_in { Stands cx.old sort a (tree_of cx.old.trees a) }
    requires b_in { Stands cx.old sort b (tree_of cx.old.trees b) }
    requires n_in { Stands cx.old Nat n (tree_of cx.old.trees n) }
    requires inner { Derives cx.old sort inner (power_tree sort (tree_of cx.old.trees a) (tree_of cx.old.trees n)) (tree_of cx.old.trees inner.tree) }
    requires outer { Derives cx.old sort outer (power_tree sort (tree_of cx.old.trees b) (tree_of cx.old.trees n)) (tree_of cx.old.trees outer.tree) }
    requires ready { HasPolynomials cx.old.theory sort }
    ensures derives { IfOk result (λ r. Derives cx.new sort r (power_tree sort (sum_tree sort (product_tree sort (tree_of cx.old.trees a) (tree_of cx.old.trees b)) (Lit sort 0)) (tree_of cx.old.trees n)) (sum_tree sort (product_tree sort (tree_of cx.old.trees inner.tree) (tree_of cx.old.trees outer.tree)) (Lit sort 0))) }
    ensures grows { Grows cx.old cx.new }
{
    let r = pow_node(
        cx, sort, a, b, inner.tree, outer.tree, n, inner.line, outer.line,
    )?;
    let made = with_line(cx, r)?;
    Ok(made)
}

/// `a ^ n = c`, from a line for `m + 1 = n`, from `a ^ m = b` and `b * a = c`.
#[tactic(auto, using(alg_node_sums::proofs::Deriving::derived_facts))]
pub fn next_power(
    cx: &mut Builder,
    sort: Sort,
    a: ExprId,
    m: ExprId,
    n: ExprId,
    next: usize,
    power: Derived,
    product: Derived,
) -> Result<Derived, Memory>
    requires a_in { Stands cx.old sort a (tree_of cx.old.trees a) }
    requires m_in { Stands cx.old Nat m (tree_of cx.old.trees m) }
    requires n_in { Stands cx.old Nat n (tree_of cx.old.trees n) }
    requires next { Proves cx.old next (sum_tree Nat (tree_of cx.old.trees m) (Lit Nat 1)) (tree_of cx.old.trees n) }
    requires power { Derives cx.old sort power (power_tree sort (tree_of cx.old.trees a) (tree_of cx.old.trees m)) (tree_of cx.old.trees power.tree) }
    requires product { Derives cx.old sort product (product_tree sort (tree_of cx.old.trees power.tree) (tree_of cx.old.trees a)) (tree_of cx.old.trees product.tree) }
    requires ready { HasPolynomials cx.old.theory sort }
    ensures derives { IfOk result (λ r. Derives cx.new sort r (power_tree sort (tree_of cx.old.trees a) (tree_of cx.old.trees n)) (tree_of cx.old.trees product.tree)) }
    ensures grows { Grows cx.old cx.new }
{
    let r = pow_next(
        cx,
        sort,
        a,
        power.tree,
        product.tree,
        m,
        n,
        next,
        power.line,
        product.line,
    )?;
    let made = with_line(cx, r)?;
    Ok(made)
}

/// `a = 1 * a ^ 1 + 0`.
#[tactic(auto, using(alg_node_sums::proofs::Deriving::derived_facts))]
pub fn atom(cx: &mut Builder, sort: Sort, a: ExprId) -> Result<Derived, Memory>
    requires a_in { Stands cx.old sort a (tree_of cx.old.trees a) }
    requires ready { HasPolynomials cx.old.theory sort }
    ensures derives { IfOk result (λ r. Derives cx.new sort r (tree_of cx.old.trees a) (sum_tree sort (product_tree sort (Lit sort 1) (power_tree sort (tree_of cx.old.trees a) (Lit Nat 1))) (Lit sort 0))) }
    ensures grows { Grows cx.old cx.new }
{
    let r = atom_node(cx, sort, a)?;
    let made = with_line(cx, r)?;
    Ok(made)
}
