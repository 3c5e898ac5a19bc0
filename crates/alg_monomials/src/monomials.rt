ghost use Rattle.std.specs.Prelude.{◌≡◌, drop};
ghost use Rattle.std.specs.Ordering.{nat_cmp};
ghost use Rattle.alg_sums.specs.Monomial.{by_exponents};
ghost use Rattle.alg_monomials.specs.Monomials.{powers, IsMeasured, factor_order, monomial_order};

use alg_expr::{ExprId, Items};
use std::cmp::Ordering;

/// An atom by its number, to a power of at least 1. Exponents are at most 2^32 - 1 where a form holds them.
#[derive(Clone, Copy, Debug, PartialEq, Eq)]
pub struct Factor {
    pub atom: u32,
    pub exponent: u64,
}

/// Factors in the order of their atoms, and the tree of their product.
#[derive(Drop)]
pub struct Monomial {
    /// the sum of the exponents
    pub degree: u64,
    pub factors: Items<Factor>,
    pub tree: ExprId,
}

/// Which of two monomials comes first in a sorted sum: the one of greater degree, then the one with the greater exponent
/// of the least atom, and so on.
pub fn compare(x: &Monomial, y: &Monomial) -> Ordering
    requires first { IsMeasured x.now }
    requires second { IsMeasured y.now }
    ensures { result ≡ monomial_order (powers x.now.factors) (powers y.now.factors) }
{
    let factors = compare_factors(x.factors.as_slice(), y.factors.as_slice());
    y.degree.cmp(&x.degree).then(factors)
}

#[tactic(auto, using(crate::proofs::Ordered::ordered))]
fn compare_factors(x: &[Factor], y: &[Factor]) -> Ordering
    ensures { result ≡ by_exponents nat_cmp (powers x.now) (powers y.now) }
{
    let mut k = 0;
    'factors: while k < x.len() && k < y.len() {
        let order = compare_factor(x[k], y[k]);
        if order != Ordering::Equal {
            return order;
        }
        k += 1;
    }
    if k < y.len() {
        Ordering::Greater
    } else if k < x.len() {
        Ordering::Less
    } else {
        Ordering::Equal
    }
}

fn compare_factor(f: Factor, g: Factor) -> Ordering
    ensures { result ≡ factor_order f g }
{
    f.atom.cmp(&g.atom).then(g.exponent.cmp(&f.exponent))
}
