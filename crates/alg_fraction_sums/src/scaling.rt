ghost use Rattle.std.specs.Prelude.{◌*ℤ◌, ◌<◌, ◌^◌, pos, IfOk};
ghost use Rattle.alg_terms.specs.Tree.{Lit, product_tree};
ghost use Rattle.alg_num.specs.Range.{InRange};
ghost use Rattle.alg_build.specs.Book.{Grows};
ghost use Rattle.alg_build.specs.Rewriting.{Stands, Turns};
ghost use Rattle.alg_numerals.specs.WholeTree.{whole_tree};
ghost use Rattle.alg_fractions.specs.Fractions.{HasQuotients};
ghost use Rattle.alg_fractions.specs.NumeralTree.{signed_tree};

use crate::rearranging::mul_right_comm;
use alg_build::{Builder, Memory, Rewriting, then};
use alg_expr::{ExprId, Sort};
use alg_fractions::cancelling::{left_under_times, times_literal};
use alg_fractions::signed::{signed_size, signed_times};
use alg_num::Frac;
use alg_numerals::literals::two_literals;
use alg_numerals::product_of_integers;

/// the trees `x * l` and `y * l`
#[tactic(auto, using(crate::proofs::QuotientLemmas::quotients))]
pub fn two_products(
    cx: &mut Builder,
    sort: Sort,
    x: Frac,
    y: Frac,
    l: u128,
) -> Result<(ExprId, ExprId), Memory>
    requires quotients { HasQuotients cx.old sort }
    requires small { l < 2 ^ 127 }
    ensures first { IfOk result (λ p. Stands cx.new sort p.0 (product_tree sort (signed_tree sort x) (Lit sort l))) }
    ensures second { IfOk result (λ p. Stands cx.new sort p.1 (product_tree sort (signed_tree sort y) (Lit sort l))) }
    ensures grows { Grows cx.old cx.new }
{
    let first = fraction_product(cx, sort, x, l)?;
    let second = fraction_product(cx, sort, y, l)?;
    Ok((first, second))
}

// the tree `x * l`
#[tactic(auto, using(crate::proofs::QuotientLemmas::quotients))]
fn fraction_product(cx: &mut Builder, sort: Sort, x: Frac, l: u128) -> Result<ExprId, Memory>
    requires quotients { HasQuotients cx.old sort }
    requires small { l < 2 ^ 127 }
    ensures stands { IfOk result (λ e. Stands cx.new sort e (product_tree sort (signed_tree sort x) (Lit sort l))) }
    ensures grows { Grows cx.old cx.new }
{
    let e = signed_size(cx, sort, x)?;
    times_literal(cx, sort, e, l)
}

/// the trees `x * q * s` and `y * q * s`
#[tactic(auto, using(crate::proofs::QuotientLemmas::quotients))]
pub fn two_scaled(
    cx: &mut Builder,
    sort: Sort,
    x: Frac,
    y: Frac,
) -> Result<(ExprId, ExprId), Memory>
    requires quotients { HasQuotients cx.old sort }
    ensures first { IfOk result (λ p. Stands cx.new sort p.0 (product_tree sort (product_tree sort (signed_tree sort x) (Lit sort x.denominator)) (Lit sort y.denominator))) }
    ensures second { IfOk result (λ p. Stands cx.new sort p.1 (product_tree sort (product_tree sort (signed_tree sort y) (Lit sort x.denominator)) (Lit sort y.denominator))) }
    ensures grows { Grows cx.old cx.new }
{
    let first = scaled_product(cx, sort, x, x.den(), y.den())?;
    let second = scaled_product(cx, sort, y, x.den(), y.den())?;
    Ok((first, second))
}

// the tree `x * m * n`
#[tactic(auto, using(crate::proofs::QuotientLemmas::quotients))]
fn scaled_product(cx: &mut Builder, sort: Sort, x: Frac, m: u128, n: u128) -> Result<ExprId, Memory>
    requires quotients { HasQuotients cx.old sort }
    requires first_small { m < 2 ^ 127 }
    requires second_small { n < 2 ^ 127 }
    ensures stands { IfOk result (λ e. Stands cx.new sort e (product_tree sort (product_tree sort (signed_tree sort x) (Lit sort m)) (Lit sort n))) }
    ensures grows { Grows cx.old cx.new }
{
    let e = fraction_product(cx, sort, x, m)?;
    times_literal(cx, sort, e, n)
}

// `x * q = p` for the numerator p and the denominator q of x
#[tactic(auto, using(crate::proofs::QuotientLemmas::quotients))]
fn times_denominator(cx: &mut Builder, sort: Sort, x: Frac) -> Result<Rewriting, Memory>
    requires quotients { HasQuotients cx.old sort }
    ensures turns { IfOk result (λ r. Turns cx.new sort r (product_tree sort (signed_tree sort x) (Lit sort x.denominator)) (whole_tree sort x.numerator)) }
    ensures grows { Grows cx.old cx.new }
{
    signed_times(cx, sort, x, 1, x.den())
}

// `p * n` for the numerator p of x
#[tactic(auto, using(crate::proofs::QuotientLemmas::quotients))]
fn times_numerator(cx: &mut Builder, sort: Sort, x: Frac, n: u128) -> Result<Rewriting, Memory>
    requires quotients { HasQuotients cx.old sort }
    requires factor { n < 2 ^ 127 }
    requires small { InRange (x.numerator *ℤ pos n) }
    ensures turns { IfOk result (λ r. Turns cx.new sort r (product_tree sort (whole_tree sort x.numerator) (Lit sort n)) (whole_tree sort (x.numerator *ℤ pos n))) }
    ensures grows { Grows cx.old cx.new }
{
    let m = x.num();
    let k = n as i128;
    product_of_integers(cx, sort, &m, &k)
}

/// `x * q * n = p * n` for the numerator p and the denominator q of x
#[tactic(auto, using(crate::proofs::QuotientLemmas::quotients))]
pub fn scaled_by_own(cx: &mut Builder, sort: Sort, x: Frac, n: u128) -> Result<Rewriting, Memory>
    requires quotients { HasQuotients cx.old sort }
    requires factor { n < 2 ^ 127 }
    requires small { InRange (x.numerator *ℤ pos n) }
    ensures turns { IfOk result (λ r. Turns cx.new sort r (product_tree sort (product_tree sort (signed_tree sort x) (Lit sort x.denominator)) (Lit sort n)) (whole_tree sort (x.numerator *ℤ pos n))) }
    ensures grows { Grows cx.old cx.new }
{
    let both = own_under_times(cx, sort, x, n)?;
    let total = times_numerator(cx, sort, x, n)?;
    let r = then(cx, both, total)?;
    Ok(r)
}

// the first half
#[tactic(auto, using(crate::proofs::QuotientLemmas::quotients))]
fn own_under_times(cx: &mut Builder, sort: Sort, x: Frac, n: u128) -> Result<Rewriting, Memory>
    requires quotients { HasQuotients cx.old sort }
    requires factor { n < 2 ^ 127 }
    ensures turns { IfOk result (λ r. Turns cx.new sort r (product_tree sort (product_tree sort (signed_tree sort x) (Lit sort x.denominator)) (Lit sort n)) (product_tree sort (whole_tree sort x.numerator) (Lit sort n))) }
    ensures grows { Grows cx.old cx.new }
{
    let own = times_denominator(cx, sort, x)?;
    let r = left_under_times(cx, sort, own, n)?;
    Ok(r)
}

/// `y * n * s = r * n` for the numerator r and the denominator s of y
#[tactic(auto, using(crate::proofs::QuotientLemmas::quotients))]
pub fn scaled_by_other(cx: &mut Builder, sort: Sort, y: Frac, n: u128) -> Result<Rewriting, Memory>
    requires quotients { HasQuotients cx.old sort }
    requires factor { n < 2 ^ 127 }
    requires small { InRange (y.numerator *ℤ pos n) }
    ensures turns { IfOk result (λ r. Turns cx.new sort r (product_tree sort (product_tree sort (signed_tree sort y) (Lit sort n)) (Lit sort y.denominator)) (whole_tree sort (y.numerator *ℤ pos n))) }
    ensures grows { Grows cx.old cx.new }
{
    let swapped = factors_swapped(cx, sort, y, n, y.den())?;
    let total = scaled_by_own(cx, sort, y, n)?;
    let r = then(cx, swapped, total)?;
    Ok(r)
}

// `y * n * s = y * s * n`
#[tactic(auto, using(crate::proofs::QuotientLemmas::quotients))]
fn factors_swapped(
    cx: &mut Builder,
    sort: Sort,
    y: Frac,
    n: u128,
    s: u128,
) -> Result<Rewriting, Memory>
    requires quotients { HasQuotients cx.old sort }
    requires first_small { n < 2 ^ 127 }
    requires second_small { s < 2 ^ 127 }
    ensures turns { IfOk result (λ r. Turns cx.new sort r (product_tree sort (product_tree sort (signed_tree sort y) (Lit sort n)) (Lit sort s)) (product_tree sort (product_tree sort (signed_tree sort y) (Lit sort s)) (Lit sort n))) }
    ensures grows { Grows cx.old cx.new }
{
    let e = signed_size(cx, sort, y)?;
    let (first, second) = two_literals(cx, sort, n, s)?;
    mul_right_comm(cx, sort, e, first, second)
}
