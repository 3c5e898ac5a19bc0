//! Powers by exponents that are rewritten.
ghost use Rattle.std.specs.Prelude.{IfOk};
ghost use Rattle.alg_terms.specs.declared.sorts.Sort.TheVariants.{Nat};
ghost use Rattle.alg_terms.specs.Tree.{Tree, sum_tree, product_tree};
ghost use Rattle.alg_expr.specs.Ids.{tree_of};
ghost use Rattle.alg_build.specs.Book.{Grows, Proves};
ghost use Rattle.alg_build.specs.Rewriting.{Stands, Turns, TurnsIn};
ghost use Rattle.alg_rows.specs.Operations.{power_tree};
ghost use Rattle.alg_node_sums.specs.Polynomials.{HasPolynomials};
ghost use Rattle.alg_node_sums.specs.Deriving.{Derives};

use alg_build::{Builder, Memory, Rewriting, keep, under_two};
use alg_expr::{ExprId, Sort, Sym};
use alg_node_sums::{Derived, with_line};
use alg_ring_rows::splits::{pow_mul_of, pow_pow_of};

/// `x ^ t = x ^ u`, from `t = u`.
#[tactic(auto, using(crate::proofs::Powers::power_facts))]
pub fn raised(
    cx: &mut Builder,
    sort: Sort,
    x: ExprId,
    exponent: Rewriting,
) -> Result<Derived, Memory>
    requires x_in { Stands cx.old sort x (tree_of cx.old.trees x) }
    requires exponent { TurnsIn cx.old Nat exponent }
    requires ready { HasPolynomials cx.old.theory sort }
    ensures derives { IfOk result (λ d. (t u : Tree) → Turns cx.old Nat exponent t u → Derives cx.new sort d (power_tree sort (tree_of cx.old.trees x) t) (power_tree sort (tree_of cx.old.trees x) u)) }
    ensures grows { Grows cx.old cx.new }
{
    let base = keep(cx, x);
    let r = under_two(cx, Sym::Npow, sort, base, exponent)?;
    let made = with_line(cx, r)?;
    Ok(made)
}

/// `x ^ m * x ^ n = c`, from `x ^ (m + n) = c`.
#[tactic(auto, using(crate::proofs::Powers::power_facts))]
pub fn multiplied(
    cx: &mut Builder,
    sort: Sort,
    x: ExprId,
    m: ExprId,
    n: ExprId,
    power: Derived,
) -> Result<Derived, Memory>
    requires x_in { Stands cx.old sort x (tree_of cx.old.trees x) }
    requires m_in { Stands cx.old Nat m (tree_of cx.old.trees m) }
    requires n_in { Stands cx.old Nat n (tree_of cx.old.trees n) }
    requires power { Derives cx.old sort power (power_tree sort (tree_of cx.old.trees x) (sum_tree Nat (tree_of cx.old.trees m) (tree_of cx.old.trees n))) (tree_of cx.old.trees power.tree) }
    requires ready { HasPolynomials cx.old.theory sort }
    ensures derives { IfOk result (λ d. Derives cx.new sort d (product_tree sort (power_tree sort (tree_of cx.old.trees x) (tree_of cx.old.trees m)) (power_tree sort (tree_of cx.old.trees x) (tree_of cx.old.trees n))) (tree_of cx.old.trees power.tree)) }
    ensures grows { Grows cx.old cx.new }
{
    let r = pow_mul_of(cx, sort, x, power.tree, m, n, power.line)?;
    let made = with_line(cx, r)?;
    Ok(made)
}

/// `(x ^ m) ^ n = c`, from `x ^ (m * n) = c`.
#[tactic(auto, using(crate::proofs::Powers::power_facts))]
pub fn raised_again(
    cx: &mut Builder,
    sort: Sort,
    x: ExprId,
    m: ExprId,
    n: ExprId,
    power: Derived,
) -> Result<Derived, Memory>
    requires x_in { Stands cx.old sort x (tree_of cx.old.trees x) }
    requires m_in { Stands cx.old Nat m (tree_of cx.old.trees m) }
    requires n_in { Stands cx.old Nat n (tree_of cx.old.trees n) }
    requires power { Derives cx.old sort power (power_tree sort (tree_of cx.old.trees x) (product_tree Nat (tree_of cx.old.trees m) (tree_of cx.old.trees n))) (tree_of cx.old.trees power.tree) }
    requires ready { HasPolynomials cx.old.theory sort }
    ensures derives { IfOk result (λ d. Derives cx.new sort d (power_tree sort (power_tree sort (tree_of cx.old.trees x) (tree_of cx.old.trees m)) (tree_of cx.old.trees n)) (tree_of cx.old.trees power.tree)) }
    ensures grows { Grows cx.old cx.new }
{
    let r = pow_pow_of(cx, sort, x, power.tree, m, n, power.line)?;
    let made = with_line(cx, r)?;
    Ok(made)
}
