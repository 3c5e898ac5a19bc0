ghost use Rattle.std.specs.Prelude.{◌≡◌, ◌*◌, ◌<◌, ◌^◌, ◌/◌, pos, unsigned_abs, ◌<ℤ◌, ◌≤ℤ◌, IfOk, true, false};
ghost use Rattle.alg_terms.specs.declared.symbols.Sym.TheVariants.{Mul};
ghost use Rattle.alg_terms.specs.Tree.{product_tree};
ghost use Rattle.alg_num.specs.LowestTerms.{Reduces};
ghost use Rattle.alg_num.specs.Product.{product_of};
ghost use Rattle.alg_build.specs.Book.{Grows, Proves};
ghost use Rattle.alg_build.specs.Rewriting.{Stands, Turns};
ghost use Rattle.alg_rows.specs.Operations.{negation_tree};
ghost use Rattle.alg_numerals.specs.Numerals.{Combines, HasWhole};
ghost use Rattle.alg_fractions.specs.Fractions.{HasFraction, HasQuotients};
ghost use Rattle.alg_fractions.specs.NumeralTree.{signed_tree, size_tree};
ghost use Rattle.alg_fraction_products.specs.Sizes.{IsSmall, Multiply};

use crate::parts::{Size, are_whole, is_below, size_of_fraction};
use crate::products::{crossed, joined};
use alg_build::{Builder, Memory, Rewriting, line_of, then};
use alg_expr::Sort;
use alg_fractions::signed::signed_size;
use alg_fractions::sizes::size;
use alg_num::{Frac, gcd};
use alg_numerals::{Combined, product_of_integers};
use alg_rows::products::{mul_neg_lit, mul_zero, neg_mul_lit, neg_mul_neg, zero_mul};

/// `x * y = z`
#[tactic(auto, using(alg_fractions::proofs::FractionLemmas::fractions))]
pub fn product_of_fractions(
    cx: &mut Builder,
    sort: Sort,
    x: Frac,
    y: Frac,
    z: Frac,
) -> Result<Rewriting, Memory>
    requires first { HasFraction cx.old sort x }
    requires second { HasFraction cx.old sort y }
    requires multiplies { Reduces (product_of x y) z }
    ensures turns { IfOk result (λ r. Turns cx.new sort r (product_tree sort (signed_tree sort x) (signed_tree sort y)) (signed_tree sort z)) }
    ensures grows { Grows cx.old cx.new }
{
    if are_whole(&x, &y) {
        product_of_wholes(cx, sort, x, y, z)
    } else {
        product_by_zero(cx, sort, x, y, z)
    }
}

// where both are whole
#[tactic(auto, using(alg_fractions::proofs::FractionLemmas::fractions))]
fn product_of_wholes(
    cx: &mut Builder,
    sort: Sort,
    x: Frac,
    y: Frac,
    z: Frac,
) -> Result<Rewriting, Memory>
    requires first { HasWhole cx.old sort x.numerator }
    requires second { HasWhole cx.old sort y.numerator }
    requires first_whole { x.denominator ≡ 1 }
    requires second_whole { y.denominator ≡ 1 }
    requires multiplies { Reduces (product_of x y) z }
    ensures turns { IfOk result (λ r. Turns cx.new sort r (product_tree sort (signed_tree sort x) (signed_tree sort y)) (signed_tree sort z)) }
    ensures grows { Grows cx.old cx.new }
{
    let _total = z.num();
    let m = x.num();
    let n = y.num();
    product_of_integers(cx, sort, &m, &n)
}

// where one of them isn't whole
#[tactic(auto, using(alg_fractions::proofs::FractionLemmas::fractions))]
fn product_by_zero(
    cx: &mut Builder,
    sort: Sort,
    x: Frac,
    y: Frac,
    z: Frac,
) -> Result<Rewriting, Memory>
    requires quotients { HasQuotients cx.old sort }
    requires multiplies { Reduces (product_of x y) z }
    ensures turns { IfOk result (λ r. Turns cx.new sort r (product_tree sort (signed_tree sort x) (signed_tree sort y)) (signed_tree sort z)) }
    ensures grows { Grows cx.old cx.new }
{
    let a = size_of_fraction(&x);
    let b = size_of_fraction(&y);
    if a.top == 0 {
        zero_by(cx, sort, x, y, z)
    } else if b.top == 0 {
        by_zero(cx, sort, x, y, z)
    } else {
        product_by_sign(cx, sort, x, y, z)
    }
}

// `0 * y = 0`
#[tactic(auto, using(alg_fractions::proofs::FractionLemmas::fractions))]
fn zero_by(cx: &mut Builder, sort: Sort, x: Frac, y: Frac, z: Frac) -> Result<Rewriting, Memory>
    requires quotients { HasQuotients cx.old sort }
    requires zero { unsigned_abs x.numerator ≡ 0 }
    requires multiplies { Reduces (product_of x y) z }
    ensures turns { IfOk result (λ r. Turns cx.new sort r (product_tree sort (signed_tree sort x) (signed_tree sort y)) (signed_tree sort z)) }
    ensures grows { Grows cx.old cx.new }
{
    let _first = x.den();
    let _second = y.den();
    let _total = z.den();
    let e = signed_size(cx, sort, y)?;
    zero_mul(cx, sort, e)
}

// `x * 0 = 0`
#[tactic(auto, using(alg_fractions::proofs::FractionLemmas::fractions))]
fn by_zero(cx: &mut Builder, sort: Sort, x: Frac, y: Frac, z: Frac) -> Result<Rewriting, Memory>
    requires quotients { HasQuotients cx.old sort }
    requires zero { unsigned_abs y.numerator ≡ 0 }
    requires multiplies { Reduces (product_of x y) z }
    ensures turns { IfOk result (λ r. Turns cx.new sort r (product_tree sort (signed_tree sort x) (signed_tree sort y)) (signed_tree sort z)) }
    ensures grows { Grows cx.old cx.new }
{
    let _first = x.den();
    let _second = y.den();
    let _total = z.den();
    let e = signed_size(cx, sort, x)?;
    mul_zero(cx, sort, e)
}

// by the sizes, where no factor is 0
#[tactic(auto, using(alg_fractions::proofs::FractionLemmas::fractions))]
fn product_by_sign(
    cx: &mut Builder,
    sort: Sort,
    x: Frac,
    y: Frac,
    z: Frac,
) -> Result<Rewriting, Memory>
    requires quotients { HasQuotients cx.old sort }
    requires first_some { 0 < unsigned_abs x.numerator }
    requires second_some { 0 < unsigned_abs y.numerator }
    requires multiplies { Reduces (product_of x y) z }
    ensures turns { IfOk result (λ r. Turns cx.new sort r (product_tree sort (signed_tree sort x) (signed_tree sort y)) (signed_tree sort z)) }
    ensures grows { Grows cx.old cx.new }
{
    if is_below(&x) {
        minus_by_sign(cx, sort, x, y, z)
    } else {
        plus_by_sign(cx, sort, x, y, z)
    }
}

// where x is below 0
#[tactic(auto, using(alg_fractions::proofs::FractionLemmas::fractions))]
fn minus_by_sign(
    cx: &mut Builder,
    sort: Sort,
    x: Frac,
    y: Frac,
    z: Frac,
) -> Result<Rewriting, Memory>
    requires quotients { HasQuotients cx.old sort }
    requires below { x.numerator <ℤ pos 0 }
    requires second_some { 0 < unsigned_abs y.numerator }
    requires multiplies { Reduces (product_of x y) z }
    ensures turns { IfOk result (λ r. Turns cx.new sort r (product_tree sort (signed_tree sort x) (signed_tree sort y)) (signed_tree sort z)) }
    ensures grows { Grows cx.old cx.new }
{
    let a = size_of_fraction(&x);
    let b = size_of_fraction(&y);
    let c = size_of_fraction(&z);
    if is_below(&y) {
        minus_by_minus(cx, sort, a, b, c)
    } else {
        minus_by_size(cx, sort, a, b, c)
    }
}

// where x is above 0
#[tactic(auto, using(alg_fractions::proofs::FractionLemmas::fractions))]
fn plus_by_sign(
    cx: &mut Builder,
    sort: Sort,
    x: Frac,
    y: Frac,
    z: Frac,
) -> Result<Rewriting, Memory>
    requires quotients { HasQuotients cx.old sort }
    requires at_least { pos 0 ≤ℤ x.numerator }
    requires first_some { 0 < unsigned_abs x.numerator }
    requires multiplies { Reduces (product_of x y) z }
    ensures turns { IfOk result (λ r. Turns cx.new sort r (product_tree sort (signed_tree sort x) (signed_tree sort y)) (signed_tree sort z)) }
    ensures grows { Grows cx.old cx.new }
{
    let a = size_of_fraction(&x);
    let b = size_of_fraction(&y);
    let c = size_of_fraction(&z);
    if is_below(&y) {
        size_by_minus(cx, sort, a, b, c)
    } else {
        product_of_sizes(cx, sort, a, b, c)
    }
}

// `-x * y = -z`, of fractions above 0
#[tactic(auto, using(crate::proofs::ProductLemmas::products))]
fn minus_by_size(
    cx: &mut Builder,
    sort: Sort,
    a: Size,
    b: Size,
    c: Size,
) -> Result<Rewriting, Memory>
    requires quotients { HasQuotients cx.old sort }
    requires multiply { Multiply a b c }
    ensures turns { IfOk result (λ r. Turns cx.new sort r (product_tree sort (negation_tree sort (size_tree sort a.top a.bottom)) (size_tree sort b.top b.bottom)) (negation_tree sort (size_tree sort c.top c.bottom))) }
    ensures grows { Grows cx.old cx.new }
{
    let t = sizes_product(cx, sort, a, b, c)?;
    neg_mul_lit(cx, sort, t.first, t.second, t.total, t.line)
}

// `x * -y = -z`, of fractions above 0
#[tactic(auto, using(crate::proofs::ProductLemmas::products))]
fn size_by_minus(
    cx: &mut Builder,
    sort: Sort,
    a: Size,
    b: Size,
    c: Size,
) -> Result<Rewriting, Memory>
    requires quotients { HasQuotients cx.old sort }
    requires multiply { Multiply a b c }
    ensures turns { IfOk result (λ r. Turns cx.new sort r (product_tree sort (size_tree sort a.top a.bottom) (negation_tree sort (size_tree sort b.top b.bottom))) (negation_tree sort (size_tree sort c.top c.bottom))) }
    ensures grows { Grows cx.old cx.new }
{
    let t = sizes_product(cx, sort, a, b, c)?;
    mul_neg_lit(cx, sort, t.first, t.second, t.total, t.line)
}

// `-x * -y = z`, of fractions above 0
#[tactic(auto, using(crate::proofs::ProductLemmas::products))]
fn minus_by_minus(
    cx: &mut Builder,
    sort: Sort,
    a: Size,
    b: Size,
    c: Size,
) -> Result<Rewriting, Memory>
    requires quotients { HasQuotients cx.old sort }
    requires multiply { Multiply a b c }
    ensures turns { IfOk result (λ r. Turns cx.new sort r (product_tree sort (negation_tree sort (size_tree sort a.top a.bottom)) (negation_tree sort (size_tree sort b.top b.bottom))) (size_tree sort c.top c.bottom)) }
    ensures grows { Grows cx.old cx.new }
{
    let t = sizes_product(cx, sort, a, b, c)?;
    neg_mul_neg(cx, sort, t.first, t.second, t.total, t.line)
}

// `x * y = z`, of fractions that aren't below 0, with the three trees
#[tactic(auto, using(crate::proofs::ProductLemmas::products))]
fn sizes_product(
    cx: &mut Builder,
    sort: Sort,
    a: Size,
    b: Size,
    c: Size,
) -> Result<Combined, Memory>
    requires quotients { HasQuotients cx.old sort }
    requires multiply { Multiply a b c }
    ensures combines { IfOk result (λ t. Combines cx.new Mul sort t (size_tree sort a.top a.bottom) (size_tree sort b.top b.bottom) (size_tree sort c.top c.bottom)) }
    ensures grows { Grows cx.old cx.new }
{
    let line = sizes_line(cx, sort, a, b, c)?;
    let t = three_sizes(cx, sort, a, b, c, line)?;
    Ok(t)
}

// the line alone
#[tactic(auto, using(crate::proofs::ProductLemmas::products))]
fn sizes_line(cx: &mut Builder, sort: Sort, a: Size, b: Size, c: Size) -> Result<usize, Memory>
    requires quotients { HasQuotients cx.old sort }
    requires multiply { Multiply a b c }
    ensures proves { IfOk result (λ i. Proves cx.new i (product_tree sort (size_tree sort a.top a.bottom) (size_tree sort b.top b.bottom)) (size_tree sort c.top c.bottom)) }
    ensures grows { Grows cx.old cx.new }
{
    let r = product_of_sizes(cx, sort, a, b, c)?;
    let line = line_of(cx, r)?;
    Ok(line)
}

// the trees of three fractions, beside a line
#[tactic(auto, using(crate::proofs::ProductLemmas::products))]
fn three_sizes(
    cx: &mut Builder,
    sort: Sort,
    a: Size,
    b: Size,
    c: Size,
    line: usize,
) -> Result<Combined, Memory>
    requires quotients { HasQuotients cx.old sort }
    requires first_small { IsSmall a }
    requires second_small { IsSmall b }
    requires small { IsSmall c }
    ensures first { IfOk result (λ t. Stands cx.new sort t.first (size_tree sort a.top a.bottom)) }
    ensures second { IfOk result (λ t. Stands cx.new sort t.second (size_tree sort b.top b.bottom)) }
    ensures total { IfOk result (λ t. Stands cx.new sort t.total (size_tree sort c.top c.bottom)) }
    ensures line { IfOk result (λ t. t.line ≡ line) }
    ensures grows { Grows cx.old cx.new }
{
    let first = size(cx, sort, a.top, a.bottom)?;
    let second = size(cx, sort, b.top, b.bottom)?;
    let total = size(cx, sort, c.top, c.bottom)?;
    Ok(Combined {
        first,
        second,
        total,
        line,
    })
}

/// `x * y = z`, of fractions that aren't below 0: common factors are taken out crosswise first.
#[tactic(auto, using(crate::proofs::ProductLemmas::products))]
pub fn product_of_sizes(
    cx: &mut Builder,
    sort: Sort,
    a: Size,
    b: Size,
    c: Size,
) -> Result<Rewriting, Memory>
    requires quotients { HasQuotients cx.old sort }
    requires multiply { Multiply a b c }
    ensures turns { IfOk result (λ r. Turns cx.new sort r (product_tree sort (size_tree sort a.top a.bottom) (size_tree sort b.top b.bottom)) (size_tree sort c.top c.bottom)) }
    ensures grows { Grows cx.old cx.new }
{
    let left = gcd(a.top, b.bottom);
    let right = gcd(b.top, a.bottom);
    if both_one(left, right) {
        joined(cx, sort, a.top, a.bottom, b.top, b.bottom)
    } else {
        let first = a.top / left;
        let first_over = a.bottom / right;
        let second = b.top / right;
        let second_over = b.bottom / left;
        product_crossed(
            cx,
            sort,
            first,
            first_over,
            second,
            second_over,
            left,
            right,
        )
    }
}

// whether both numbers are 1
fn both_one(m: u128, n: u128) -> bool
    ensures yes { result ≡ true → (m ≡ 1) × (n ≡ 1) }
    ensures no { result ≡ false → m ≡ 1 → n ≡ 1 → ⊥ }
{
    m == 1 && n == 1
}

// `n * g / (d * k) * (m * k / (e * g)) = n * m / (e * d)`
#[tactic(auto, using(crate::proofs::ProductLemmas::products))]
fn product_crossed(
    cx: &mut Builder,
    sort: Sort,
    n: u128,
    d: u128,
    m: u128,
    e: u128,
    g: u128,
    k: u128,
) -> Result<Rewriting, Memory>
    requires quotients { HasQuotients cx.old sort }
    requires first_above { 0 < d }
    requires second_above { 0 < e }
    requires left_above { 0 < g }
    requires right_above { 0 < k }
    requires common { (g ≡ 1) → (k ≡ 1) → ⊥ }
    requires first_small { n * g < 2 ^ 127 }
    requires first_over { d * k < 2 ^ 127 }
    requires second_small { m * k < 2 ^ 127 }
    requires second_over { e * g < 2 ^ 127 }
    requires small { n * m < 2 ^ 127 }
    requires over { e * d < 2 ^ 127 }
    ensures turns { IfOk result (λ r. Turns cx.new sort r (product_tree sort (size_tree sort (n * g) (d * k)) (size_tree sort (m * k) (e * g))) (size_tree sort (n * m) (e * d))) }
    ensures grows { Grows cx.old cx.new }
{
    let apart = crossed(cx, sort, n, d, m, e, g, k)?;
    let total = joined(cx, sort, n, e, m, d)?;
    let r = then(cx, apart, total)?;
    Ok(r)
}
