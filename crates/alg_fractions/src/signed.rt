ghost use Rattle.std.specs.Prelude.{◌≡◌, ◌*◌, ◌*ℤ◌, ◌<◌, ◌^◌, pos, unsigned_abs, IfOk};
ghost use Rattle.alg_terms.specs.Tree.{Lit, product_tree};
ghost use Rattle.alg_num.specs.Negative.{negative_of};
ghost use Rattle.alg_num.specs.Range.{InRange};
ghost use Rattle.alg_build.specs.Book.{Grows, Proves};
ghost use Rattle.alg_build.specs.Rewriting.{Stands, Turns};
ghost use Rattle.alg_rows.specs.Operations.{negation_tree};
ghost use Rattle.alg_numerals.specs.Numerals.{HasSigns};
ghost use Rattle.alg_numerals.specs.WholeTree.{whole_tree};
ghost use Rattle.alg_fractions.specs.Fractions.{HasFraction, HasQuotients};
ghost use Rattle.alg_fractions.specs.NumeralTree.{signed_tree, size_tree};

use crate::sizes::{minus_size, minus_size_times, size, size_times};
use alg_build::{Builder, Memory, Rewriting, keep, line_of};
use alg_expr::{ExprId, Sort};
use alg_num::Frac;
use alg_numerals::{negation_of_integer, numeral_of_integer};
use alg_rows::sums::neg_neg;

/// The numeral x.
#[tactic(auto, using(crate::proofs::FractionLemmas::fractions))]
pub fn numeral_of_fraction(cx: &mut Builder, sort: Sort, x: Frac) -> Result<ExprId, Memory>
    requires has { HasFraction cx.old sort x }
    ensures stands { IfOk result (λ e. Stands cx.new sort e (signed_tree sort x)) }
    ensures grows { Grows cx.old cx.new }
{
    let n = x.num();
    let d = x.den();
    if d == 1 {
        numeral_of_integer(cx, sort, &n)
    } else {
        signed_size(cx, sort, x)
    }
}

/// The numeral x, where the sort has all.
#[tactic(auto, using(crate::proofs::FractionLemmas::fractions))]
pub fn signed_size(cx: &mut Builder, sort: Sort, x: Frac) -> Result<ExprId, Memory>
    requires quotients { HasQuotients cx.old sort }
    ensures stands { IfOk result (λ e. Stands cx.new sort e (signed_tree sort x)) }
    ensures grows { Grows cx.old cx.new }
{
    let n = x.num();
    let d = x.den();
    let m = n.unsigned_abs();
    if n < 0 {
        minus_size(cx, sort, m, d)
    } else {
        size(cx, sort, m, d)
    }
}

/// `x * l`, where l is a multiple of the denominator: the numerator times e.
#[tactic(auto, using(crate::proofs::FractionLemmas::fractions))]
pub fn signed_times(
    cx: &mut Builder,
    sort: Sort,
    x: Frac,
    e: u128,
    l: u128,
) -> Result<Rewriting, Memory>
    requires quotients { HasQuotients cx.old sort }
    requires multiplies { x.denominator * e ≡ l }
    requires above { 0 < l }
    requires small { l < 2 ^ 127 }
    requires product_small { InRange (x.numerator *ℤ pos e) }
    ensures turns { IfOk result (λ r. Turns cx.new sort r (product_tree sort (signed_tree sort x) (Lit sort l)) (whole_tree sort (x.numerator *ℤ pos e))) }
    ensures grows { Grows cx.old cx.new }
{
    let n = x.num();
    let d = x.den();
    let m = n.unsigned_abs();
    if n < 0 {
        minus_size_times(cx, sort, m, d, e, l)
    } else {
        size_times(cx, sort, m, d, e, l)
    }
}

/// `-x`, in at most one line: none where x is above 0.
#[tactic(auto, using(crate::proofs::FractionLemmas::fractions))]
pub fn negation_of_fraction(cx: &mut Builder, sort: Sort, x: Frac) -> Result<Rewriting, Memory>
    requires signs { HasSigns cx.old sort }
    requires first { HasFraction cx.old sort x }
    ensures turns { IfOk result (λ r. Turns cx.new sort r (negation_tree sort (signed_tree sort x)) (signed_tree sort (negative_of x))) }
    ensures grows { Grows cx.old cx.new }
{
    let n = x.num();
    let d = x.den();
    if d == 1 {
        negation_of_integer(cx, sort, &n)
    } else {
        negation_of_signed(cx, sort, x)
    }
}

/// The line for `-x`.
#[tactic(auto, using(crate::proofs::FractionLemmas::fractions))]
pub fn negation_line(cx: &mut Builder, sort: Sort, x: Frac) -> Result<usize, Memory>
    requires signs { HasSigns cx.old sort }
    requires first { HasFraction cx.old sort x }
    ensures proves { IfOk result (λ i. Proves cx.new i (negation_tree sort (signed_tree sort x)) (signed_tree sort (negative_of x))) }
    ensures grows { Grows cx.old cx.new }
{
    let r = negation_of_fraction(cx, sort, x)?;
    let line = line_of(cx, r)?;
    Ok(line)
}

// where x isn't whole, and so isn't 0
#[tactic(auto, using(crate::proofs::FractionLemmas::fractions))]
fn negation_of_signed(cx: &mut Builder, sort: Sort, x: Frac) -> Result<Rewriting, Memory>
    requires quotients { HasQuotients cx.old sort }
    requires some { 0 < unsigned_abs x.numerator }
    ensures turns { IfOk result (λ r. Turns cx.new sort r (negation_tree sort (signed_tree sort x)) (signed_tree sort (negative_of x))) }
    ensures grows { Grows cx.old cx.new }
{
    let n = x.num();
    let d = x.den();
    let m = n.unsigned_abs();
    if n < 0 {
        minus_minus_size(cx, sort, m, d)
    } else {
        minus_size_stays(cx, sort, m, d)
    }
}

// `-(-(n / d)) = n / d`
#[tactic(auto, using(crate::proofs::FractionLemmas::fractions))]
fn minus_minus_size(cx: &mut Builder, sort: Sort, n: u128, d: u128) -> Result<Rewriting, Memory>
    requires quotients { HasQuotients cx.old sort }
    requires first_small { n < 2 ^ 127 }
    requires second_small { d < 2 ^ 127 }
    ensures turns { IfOk result (λ r. Turns cx.new sort r (negation_tree sort (negation_tree sort (size_tree sort n d))) (size_tree sort n d)) }
    ensures grows { Grows cx.old cx.new }
{
    let e = size(cx, sort, n, d)?;
    neg_neg(cx, sort, e)
}

// `-(n / d)`, which stands already
#[tactic(auto, using(crate::proofs::FractionLemmas::fractions))]
fn minus_size_stays(cx: &mut Builder, sort: Sort, n: u128, d: u128) -> Result<Rewriting, Memory>
    requires quotients { HasQuotients cx.old sort }
    requires first_small { n < 2 ^ 127 }
    requires second_small { d < 2 ^ 127 }
    ensures turns { IfOk result (λ r. Turns cx.new sort r (negation_tree sort (size_tree sort n d)) (negation_tree sort (size_tree sort n d))) }
    ensures grows { Grows cx.old cx.new }
{
    let e = minus_size(cx, sort, n, d)?;
    Ok(keep(cx, e))
}

/// The numerals x and y.
#[tactic(auto, using(crate::proofs::FractionLemmas::fractions))]
pub fn two_fractions(
    cx: &mut Builder,
    sort: Sort,
    x: Frac,
    y: Frac,
) -> Result<(ExprId, ExprId), Memory>
    requires has_first { HasFraction cx.old sort x }
    requires has_second { HasFraction cx.old sort y }
    ensures first { IfOk result (λ p. Stands cx.new sort p.0 (signed_tree sort x)) }
    ensures second { IfOk result (λ p. Stands cx.new sort p.1 (signed_tree sort y)) }
    ensures grows { Grows cx.old cx.new }
{
    let first = numeral_of_fraction(cx, sort, x)?;
    let second = numeral_of_fraction(cx, sort, y)?;
    Ok((first, second))
}
