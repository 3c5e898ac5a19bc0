ghost use Rattle.std.specs.Prelude.{◌≡◌, ◌<◌, ◌^◌, pos, IfOk};
ghost use Rattle.alg_terms.specs.declared.sorts.Sort.TheVariants.{Nat, Int};
ghost use Rattle.alg_terms.specs.Tree.{Lit, product_tree};
ghost use Rattle.alg_num.specs.LowestTerms.{Reduces};
ghost use Rattle.alg_num.specs.Negative.{negative_of};
ghost use Rattle.alg_num.specs.Product.{product_of};
ghost use Rattle.alg_build.specs.Book.{Grows, Proves};
ghost use Rattle.alg_build.specs.Rewriting.{Stands, Turns};
ghost use Rattle.alg_rows.specs.Operations.{integer_multiple_tree, multiple_tree, negation_tree};
ghost use Rattle.alg_numerals.specs.Numerals.{HasSigns};
ghost use Rattle.alg_fractions.specs.Fractions.{HasFraction};
ghost use Rattle.alg_fractions.specs.NumeralTree.{signed_tree};
ghost use Rattle.alg_fraction_numbers.specs.Products.{size_of};

use crate::signed_products::product_of_fractions;
use alg_build::{Builder, Memory, Rewriting, by_line, line_of, then};
use alg_expr::Sort;
use alg_fractions::signed::{negation_line, numeral_of_fraction, two_fractions};
use alg_num::Frac;
use alg_numerals::literals::literal;
use alg_proof::BridgeKind;
use alg_rows::powers::zsmul_neg_lit;

// n over 1
fn whole_fraction(n: u128) -> Frac
    requires { n < 2 ^ 127 }
    ensures { result ≡ size_of n 1 }
{
    Frac::whole(n as i128)
}

/// `n • x = z`
#[tactic(auto, using(alg_fractions::proofs::FractionLemmas::fractions))]
pub fn multiple_of_fraction(
    cx: &mut Builder,
    sort: Sort,
    n: u128,
    x: Frac,
    z: Frac,
) -> Result<Rewriting, Memory>
    requires first { HasFraction cx.old sort x }
    requires factor { n < 2 ^ 127 }
    requires multiplies { Reduces (product_of (size_of n 1) x) z }
    ensures turns { IfOk result (λ r. Turns cx.new sort r (multiple_tree sort (Lit Nat n) (signed_tree sort x)) (signed_tree sort z)) }
    ensures grows { Grows cx.old cx.new }
{
    let crossed = multiple_as_product(cx, sort, n, x)?;
    let factor = whole_fraction(n);
    let total = product_of_fractions(cx, sort, factor, x, z)?;
    let r = then(cx, crossed, total)?;
    Ok(r)
}

// `n • x = n * x`
#[tactic(auto, using(alg_fractions::proofs::FractionLemmas::fractions))]
fn multiple_as_product(cx: &mut Builder, sort: Sort, n: u128, x: Frac) -> Result<Rewriting, Memory>
    requires first { HasFraction cx.old sort x }
    requires factor { n < 2 ^ 127 }
    ensures turns { IfOk result (λ r. Turns cx.new sort r (multiple_tree sort (Lit Nat n) (signed_tree sort x)) (product_tree sort (Lit sort n) (signed_tree sort x))) }
    ensures grows { Grows cx.old cx.new }
{
    let e = numeral_of_fraction(cx, sort, x)?;
    let line = cx.bridge(BridgeKind::Smul, n, e)?;
    Ok(by_line(cx, line))
}

/// `n • x = z`, where n is of ℤ and isn't below 0.
#[tactic(auto, using(alg_fractions::proofs::FractionLemmas::fractions))]
pub fn integer_multiple_of_fraction(
    cx: &mut Builder,
    sort: Sort,
    n: u128,
    x: Frac,
    z: Frac,
) -> Result<Rewriting, Memory>
    requires signs { HasSigns cx.old sort }
    requires first { HasFraction cx.old sort x }
    requires factor { n < 2 ^ 127 }
    requires multiplies { Reduces (product_of (size_of n 1) x) z }
    ensures turns { IfOk result (λ r. Turns cx.new sort r (integer_multiple_tree sort (Lit Int n) (signed_tree sort x)) (signed_tree sort z)) }
    ensures grows { Grows cx.old cx.new }
{
    let bridged = multiple_over_naturals(cx, sort, n, x)?;
    let total = multiple_of_fraction(cx, sort, n, x, z)?;
    let r = then(cx, bridged, total)?;
    Ok(r)
}

// `n • x` over ℤ as `n • x` over ℕ
#[tactic(auto, using(alg_fractions::proofs::FractionLemmas::fractions))]
fn multiple_over_naturals(
    cx: &mut Builder,
    sort: Sort,
    n: u128,
    x: Frac,
) -> Result<Rewriting, Memory>
    requires signs { HasSigns cx.old sort }
    requires first { HasFraction cx.old sort x }
    requires factor { n < 2 ^ 127 }
    ensures turns { IfOk result (λ r. Turns cx.new sort r (integer_multiple_tree sort (Lit Int n) (signed_tree sort x)) (multiple_tree sort (Lit Nat n) (signed_tree sort x))) }
    ensures grows { Grows cx.old cx.new }
{
    let e = numeral_of_fraction(cx, sort, x)?;
    let line = cx.bridge(BridgeKind::Zsmul, n, e)?;
    Ok(by_line(cx, line))
}

/// `(-n) • x = -z`, where `n • x = z`.
#[tactic(auto, using(alg_fractions::proofs::FractionLemmas::fractions))]
pub fn negative_multiple_of_fraction(
    cx: &mut Builder,
    sort: Sort,
    n: u128,
    x: Frac,
    z: Frac,
) -> Result<Rewriting, Memory>
    requires signs { HasSigns cx.old sort }
    requires first { HasFraction cx.old sort x }
    requires factor { n < 2 ^ 127 }
    requires multiplies { Reduces (product_of (size_of n 1) x) z }
    ensures turns { IfOk result (λ r. Turns cx.new sort r (integer_multiple_tree sort (negation_tree Int (Lit Int n)) (signed_tree sort x)) (signed_tree sort (negative_of z))) }
    ensures grows { Grows cx.old cx.new }
{
    let _lowest = x.den();
    let line = integer_multiple_line(cx, sort, n, x, z)?;
    let minus = negation_line(cx, sort, z)?;
    negative_multiple_by(cx, sort, n, x, z, line, minus)
}

#[tactic(auto, using(alg_fractions::proofs::FractionLemmas::fractions))]
fn integer_multiple_line(
    cx: &mut Builder,
    sort: Sort,
    n: u128,
    x: Frac,
    z: Frac,
) -> Result<usize, Memory>
    requires signs { HasSigns cx.old sort }
    requires first { HasFraction cx.old sort x }
    requires factor { n < 2 ^ 127 }
    requires multiplies { Reduces (product_of (size_of n 1) x) z }
    ensures proves { IfOk result (λ i. Proves cx.new i (integer_multiple_tree sort (Lit Int n) (signed_tree sort x)) (signed_tree sort z)) }
    ensures grows { Grows cx.old cx.new }
{
    let r = integer_multiple_of_fraction(cx, sort, n, x, z)?;
    let line = line_of(cx, r)?;
    Ok(line)
}

// the row over two lines
#[tactic(auto, using(alg_fractions::proofs::FractionLemmas::fractions))]
fn negative_multiple_by(
    cx: &mut Builder,
    sort: Sort,
    n: u128,
    x: Frac,
    z: Frac,
    line: usize,
    minus: usize,
) -> Result<Rewriting, Memory>
    requires signs { HasSigns cx.old sort }
    requires first { HasFraction cx.old sort x }
    requires second { HasFraction cx.old sort z }
    requires factor { n < 2 ^ 127 }
    requires multiple { Proves cx.old line (integer_multiple_tree sort (Lit Int n) (signed_tree sort x)) (signed_tree sort z) }
    requires minus { Proves cx.old minus (negation_tree sort (signed_tree sort z)) (signed_tree sort (negative_of z)) }
    ensures turns { IfOk result (λ r. Turns cx.new sort r (integer_multiple_tree sort (negation_tree Int (Lit Int n)) (signed_tree sort x)) (signed_tree sort (negative_of z))) }
    ensures grows { Grows cx.old cx.new }
{
    let (b, c) = two_fractions(cx, sort, z, z.neg())?;
    let a = numeral_of_fraction(cx, sort, x)?;
    let factor = literal(cx, Sort::Int, n)?;
    zsmul_neg_lit(cx, sort, a, b, c, factor, line, minus)
}
