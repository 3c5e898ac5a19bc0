//! The exponents of powers of one atom, added and multiplied.
ghost use Rattle.std.specs.Prelude.{◌+◌, ◌*◌, ◌<◌, ◌^◌, IfOk};
ghost use Rattle.alg_terms.specs.declared.sorts.Sort.TheVariants.{Nat};
ghost use Rattle.alg_terms.specs.Tree.{Lit, product_tree};
ghost use Rattle.alg_expr.specs.Ids.{tree_of};
ghost use Rattle.alg_build.specs.Book.{Grows};
ghost use Rattle.alg_build.specs.Rewriting.{Stands};
ghost use Rattle.alg_rows.specs.Operations.{power_tree};
ghost use Rattle.alg_node_sums.specs.Polynomials.{HasPolynomials};
ghost use Rattle.alg_node_sums.specs.Deriving.{Derives};

use crate::raising::{multiplied, raised, raised_again};
use alg_build::{Builder, Memory, Rewriting};
use alg_expr::{ExprId, Sort};
use alg_node_sums::Derived;
use alg_numerals::literals::{product, sum};

/// `x ^ m * x ^ n = x ^ r` for the literals m, n and their sum r.
#[tactic(auto, using(crate::proofs::Powers::power_facts))]
pub fn powers_multiplied(
    cx: &mut Builder,
    sort: Sort,
    x: ExprId,
    m: u128,
    n: u128,
) -> Result<Derived, Memory>
    requires x_in { Stands cx.old sort x (tree_of cx.old.trees x) }
    requires small { m + n < 2 ^ 127 }
    requires ready { HasPolynomials cx.old.theory sort }
    ensures derives { IfOk result (λ d. Derives cx.new sort d (product_tree sort (power_tree sort (tree_of cx.old.trees x) (Lit Nat m)) (power_tree sort (tree_of cx.old.trees x) (Lit Nat n))) (power_tree sort (tree_of cx.old.trees x) (Lit Nat (m + n)))) }
    ensures grows { Grows cx.old cx.new }
{
    let q = sum(cx, Sort::Nat, m, n, m + n)?;
    let exponent = Rewriting {
        to: q.total,
        line: Some(q.line),
    };
    let power = raised(cx, sort, x, exponent)?;
    let made = multiplied(cx, sort, x, q.first, q.second, power)?;
    Ok(made)
}

/// `(x ^ m) ^ n = x ^ r` for the literals m, n and their product r.
#[tactic(auto, using(crate::proofs::Powers::power_facts))]
pub fn power_raised(
    cx: &mut Builder,
    sort: Sort,
    x: ExprId,
    m: u128,
    n: u128,
) -> Result<Derived, Memory>
    requires x_in { Stands cx.old sort x (tree_of cx.old.trees x) }
    requires first_small { m < 2 ^ 127 }
    requires second_small { n < 2 ^ 127 }
    requires small { m * n < 2 ^ 127 }
    requires ready { HasPolynomials cx.old.theory sort }
    ensures derives { IfOk result (λ d. Derives cx.new sort d (power_tree sort (power_tree sort (tree_of cx.old.trees x) (Lit Nat m)) (Lit Nat n)) (power_tree sort (tree_of cx.old.trees x) (Lit Nat (m * n)))) }
    ensures grows { Grows cx.old cx.new }
{
    let q = product(cx, Sort::Nat, m, n, m * n)?;
    let exponent = Rewriting {
        to: q.total,
        line: Some(q.line),
    };
    let power = raised(cx, sort, x, exponent)?;
    let made = raised_again(cx, sort, x, q.first, q.second, power)?;
    Ok(made)
}
