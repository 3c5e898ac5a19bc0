ghost use Rattle.std.specs.Prelude.{◌≡◌, ◌<◌, ◌<ℤ◌, ◌≢◌, ◌^◌, pos, IfOk};
ghost use Rattle.alg_build.specs.Book.{Grows};
ghost use Rattle.alg_build.specs.Rewriting.{Turns};
ghost use Rattle.alg_terms.specs.Tree.{Lit};
ghost use Rattle.alg_rows.specs.Operations.{negation_tree, quotient_tree};
ghost use Rattle.alg_fractions.specs.Fractions.{HasFraction, HasQuotients};
ghost use Rattle.alg_fractions.specs.NumeralTree.{numeral_tree, ratio_tree, signed_tree};

use crate::signed::numeral_of_fraction;
use alg_build::{Builder, Memory, Rewriting, back, keep};
use alg_expr::Sort;
use alg_num::Frac;
use alg_numerals::literals::two_literals;
use alg_rows::quotients::neg_div;

/// From the sign outside to the sign inside: `-(n / d) = -n / d`. No line where x is another.
#[tactic(auto, using(crate::proofs::FractionLemmas::fractions))]
pub fn shown(cx: &mut Builder, sort: Sort, x: Frac) -> Result<Rewriting, Memory>
    requires first { HasFraction cx.old sort x }
    ensures turns { IfOk result (λ r. Turns cx.new sort r (signed_tree sort x) (numeral_tree sort x)) }
    ensures grows { Grows cx.old cx.new }
{
    let n = x.num();
    let d = x.den();
    if d == 1 {
        stays(cx, sort, x)
    } else if n < 0 {
        inward(cx, sort, x)
    } else {
        stays(cx, sort, x)
    }
}

/// From the sign inside to the sign outside: `-n / d = -(n / d)`. No line where x is another.
#[tactic(auto, using(crate::proofs::FractionLemmas::fractions))]
pub fn hidden(cx: &mut Builder, sort: Sort, x: Frac) -> Result<Rewriting, Memory>
    requires first { HasFraction cx.old sort x }
    ensures turns { IfOk result (λ r. Turns cx.new sort r (numeral_tree sort x) (signed_tree sort x)) }
    ensures grows { Grows cx.old cx.new }
{
    let e = numeral_of_fraction(cx, sort, x)?;
    let r = shown(cx, sort, x)?;
    let q = back(cx, e, r)?;
    Ok(q)
}

// `-(n / d) = -n / d`
#[tactic(auto, using(crate::proofs::FractionLemmas::fractions))]
fn moved_inward(cx: &mut Builder, sort: Sort, n: u128, d: u128) -> Result<Rewriting, Memory>
    requires quotients { HasQuotients cx.old sort }
    requires first_small { n < 2 ^ 127 }
    requires second_small { d < 2 ^ 127 }
    ensures turns { IfOk result (λ r. Turns cx.new sort r (negation_tree sort (ratio_tree sort n d)) (quotient_tree sort (negation_tree sort (Lit sort n)) (Lit sort d))) }
    ensures grows { Grows cx.old cx.new }
{
    let (a, b) = two_literals(cx, sort, n, d)?;
    neg_div(cx, sort, a, b)
}

// where x is below 0 and not whole
#[tactic(auto, using(crate::proofs::FractionLemmas::fractions))]
fn inward(cx: &mut Builder, sort: Sort, x: Frac) -> Result<Rewriting, Memory>
    requires quotients { HasQuotients cx.old sort }
    requires below { x.numerator <ℤ pos 0 }
    requires over { x.denominator ≢ 1 }
    ensures turns { IfOk result (λ r. Turns cx.new sort r (signed_tree sort x) (numeral_tree sort x)) }
    ensures grows { Grows cx.old cx.new }
{
    let n = x.num();
    let d = x.den();
    let m = n.unsigned_abs();
    moved_inward(cx, sort, m, d)
}

// where the two trees are one
#[tactic(auto, using(crate::proofs::FractionLemmas::fractions))]
fn stays(cx: &mut Builder, sort: Sort, x: Frac) -> Result<Rewriting, Memory>
    requires first { HasFraction cx.old sort x }
    requires same { signed_tree sort x ≡ numeral_tree sort x }
    ensures turns { IfOk result (λ r. Turns cx.new sort r (signed_tree sort x) (numeral_tree sort x)) }
    ensures grows { Grows cx.old cx.new }
{
    let e = numeral_of_fraction(cx, sort, x)?;
    Ok(keep(cx, e))
}
