ghost use Rattle.std.specs.Prelude.{◌≡◌, ◌*◌, ◌<◌, ◌^◌, IfOk};
ghost use Rattle.alg_terms.specs.Tree.{Lit, product_tree};
ghost use Rattle.alg_build.specs.Book.{Grows};
ghost use Rattle.alg_build.specs.Rewriting.{Stands, Turns};
ghost use Rattle.alg_rows.specs.Operations.{quotient_tree};
ghost use Rattle.alg_fractions.specs.Fractions.{HasQuotients};
ghost use Rattle.alg_fractions.specs.NumeralTree.{ratio_tree, size_tree};

use alg_build::{
    Builder, Memory, Rewriting, back, keep, product_of_literals, then, times, under_two,
};
use alg_expr::{ExprId, Rel, Sort, Sym};
use alg_fractions::cancelling::{left_under_times, right_under_times};
use alg_fractions::sizes::{ratio, size_product};
use alg_numerals::literals::{literal, product, two_literals};
use alg_numerals::relations::compared_literals;
use alg_rows::fractions::{div_mul_div, div_mul_swap, mul_div_comm, mul_div_left, mul_div_right};
use alg_rows::quotients::eq_div_of_mul;

/// `n / d * (m / e)` as one quotient, of products of literals.
#[tactic(auto, using(crate::proofs::ProductLemmas::products))]
pub fn joined(
    cx: &mut Builder,
    sort: Sort,
    n: u128,
    d: u128,
    m: u128,
    e: u128,
) -> Result<Rewriting, Memory>
    requires quotients { HasQuotients cx.old sort }
    requires first_small { n < 2 ^ 127 }
    requires first_over { d < 2 ^ 127 }
    requires second_small { m < 2 ^ 127 }
    requires second_over { e < 2 ^ 127 }
    requires first_above { 0 < d }
    requires second_above { 0 < e }
    requires small { n * m < 2 ^ 127 }
    requires over { d * e < 2 ^ 127 }
    ensures turns { IfOk result (λ r. Turns cx.new sort r (product_tree sort (size_tree sort n d) (size_tree sort m e)) (size_tree sort (n * m) (d * e))) }
    ensures grows { Grows cx.old cx.new }
{
    if d == 1 {
        whole_by_size(cx, sort, n, m, e)
    } else if e == 1 {
        ratio_by_whole(cx, sort, n, d, m)
    } else {
        ratio_by_ratio(cx, sort, n, d, m, e)
    }
}

// `n * (m / e) = n * m / e`, also where e is 1
#[tactic(auto, using(crate::proofs::ProductLemmas::products))]
fn whole_by_size(
    cx: &mut Builder,
    sort: Sort,
    n: u128,
    m: u128,
    e: u128,
) -> Result<Rewriting, Memory>
    requires quotients { HasQuotients cx.old sort }
    requires first_small { n < 2 ^ 127 }
    requires second_small { m < 2 ^ 127 }
    requires second_over { e < 2 ^ 127 }
    requires small { n * m < 2 ^ 127 }
    ensures turns { IfOk result (λ r. Turns cx.new sort r (product_tree sort (Lit sort n) (size_tree sort m e)) (size_tree sort (n * m) e)) }
    ensures grows { Grows cx.old cx.new }
{
    if e == 1 {
        product_of_literals(cx, sort, n, m)
    } else {
        whole_by_ratio(cx, sort, n, m, e)
    }
}

// `n * (m / e) = n * m / e`
#[tactic(auto, using(crate::proofs::ProductLemmas::products))]
fn whole_by_ratio(
    cx: &mut Builder,
    sort: Sort,
    n: u128,
    m: u128,
    e: u128,
) -> Result<Rewriting, Memory>
    requires quotients { HasQuotients cx.old sort }
    requires first_small { n < 2 ^ 127 }
    requires second_small { m < 2 ^ 127 }
    requires second_over { e < 2 ^ 127 }
    requires small { n * m < 2 ^ 127 }
    ensures turns { IfOk result (λ r. Turns cx.new sort r (product_tree sort (Lit sort n) (ratio_tree sort m e)) (ratio_tree sort (n * m) e)) }
    ensures grows { Grows cx.old cx.new }
{
    let q = product(cx, sort, n, m, n * m)?;
    let over = literal(cx, sort, e)?;
    mul_div_right(cx, sort, q.first, q.total, q.second, over, q.line)
}

// `n / d * m = n * m / d`
#[tactic(auto, using(crate::proofs::ProductLemmas::products))]
fn ratio_by_whole(
    cx: &mut Builder,
    sort: Sort,
    n: u128,
    d: u128,
    m: u128,
) -> Result<Rewriting, Memory>
    requires quotients { HasQuotients cx.old sort }
    requires first_small { n < 2 ^ 127 }
    requires first_over { d < 2 ^ 127 }
    requires second_small { m < 2 ^ 127 }
    requires small { n * m < 2 ^ 127 }
    ensures turns { IfOk result (λ r. Turns cx.new sort r (product_tree sort (ratio_tree sort n d) (Lit sort m)) (ratio_tree sort (n * m) d)) }
    ensures grows { Grows cx.old cx.new }
{
    let q = product(cx, sort, n, m, n * m)?;
    let over = literal(cx, sort, d)?;
    mul_div_left(cx, sort, q.first, q.total, q.second, over, q.line)
}

// `n / d * (m / e) = n * m / (d * e)`
#[tactic(auto, using(crate::proofs::ProductLemmas::products))]
fn ratio_by_ratio(
    cx: &mut Builder,
    sort: Sort,
    n: u128,
    d: u128,
    m: u128,
    e: u128,
) -> Result<Rewriting, Memory>
    requires quotients { HasQuotients cx.old sort }
    requires first_small { n < 2 ^ 127 }
    requires first_over { d < 2 ^ 127 }
    requires second_small { m < 2 ^ 127 }
    requires second_over { e < 2 ^ 127 }
    requires first_above { 0 < d }
    requires second_above { 0 < e }
    requires small { n * m < 2 ^ 127 }
    requires over { d * e < 2 ^ 127 }
    ensures turns { IfOk result (λ r. Turns cx.new sort r (product_tree sort (ratio_tree sort n d) (ratio_tree sort m e)) (ratio_tree sort (n * m) (d * e))) }
    ensures grows { Grows cx.old cx.new }
{
    let apart = products_apart(cx, sort, n, d, m, e)?;
    let totals = products_together(cx, sort, n, d, m, e)?;
    let r = then(cx, apart, totals)?;
    Ok(r)
}

// the row, whose products stay
#[tactic(auto, using(crate::proofs::ProductLemmas::products))]
fn products_apart(
    cx: &mut Builder,
    sort: Sort,
    n: u128,
    d: u128,
    m: u128,
    e: u128,
) -> Result<Rewriting, Memory>
    requires quotients { HasQuotients cx.old sort }
    requires first_small { n < 2 ^ 127 }
    requires first_over { d < 2 ^ 127 }
    requires second_small { m < 2 ^ 127 }
    requires second_over { e < 2 ^ 127 }
    requires first_above { 0 < d }
    requires second_above { 0 < e }
    ensures turns { IfOk result (λ r. Turns cx.new sort r (product_tree sort (ratio_tree sort n d) (ratio_tree sort m e)) (quotient_tree sort (product_tree sort (Lit sort n) (Lit sort m)) (product_tree sort (Lit sort d) (Lit sort e)))) }
    ensures grows { Grows cx.old cx.new }
{
    let first = compared_literals(cx, Rel::Ne, sort, d, 0)?;
    let second = compared_literals(cx, Rel::Ne, sort, e, 0)?;
    let (a, c) = two_literals(cx, sort, n, m)?;
    div_mul_div(
        cx,
        sort,
        a,
        first.first,
        c,
        second.first,
        first.line,
        second.line,
    )
}

// `n * m / (d * e)`, with both products as literals
#[tactic(auto, using(crate::proofs::ProductLemmas::products))]
fn products_together(
    cx: &mut Builder,
    sort: Sort,
    n: u128,
    d: u128,
    m: u128,
    e: u128,
) -> Result<Rewriting, Memory>
    requires quotients { HasQuotients cx.old sort }
    requires first_small { n < 2 ^ 127 }
    requires first_over { d < 2 ^ 127 }
    requires second_small { m < 2 ^ 127 }
    requires second_over { e < 2 ^ 127 }
    requires small { n * m < 2 ^ 127 }
    requires over { d * e < 2 ^ 127 }
    ensures turns { IfOk result (λ r. Turns cx.new sort r (quotient_tree sort (product_tree sort (Lit sort n) (Lit sort m)) (product_tree sort (Lit sort d) (Lit sort e))) (ratio_tree sort (n * m) (d * e))) }
    ensures grows { Grows cx.old cx.new }
{
    let top = product_of_literals(cx, sort, n, m)?;
    let bottom = product_of_literals(cx, sort, d, e)?;
    let r = under_two(cx, Sym::Div, sort, top, bottom)?;
    Ok(r)
}

/// `n * g / (d * g) = n / d`
#[tactic(auto, using(crate::proofs::ProductLemmas::products))]
pub fn reduced(cx: &mut Builder, sort: Sort, n: u128, d: u128, g: u128) -> Result<Rewriting, Memory>
    requires quotients { HasQuotients cx.old sort }
    requires above { 0 < d }
    requires factor_above { 0 < g }
    requires small { n * g < 2 ^ 127 }
    requires over { d * g < 2 ^ 127 }
    ensures turns { IfOk result (λ r. Turns cx.new sort r (ratio_tree sort (n * g) (d * g)) (size_tree sort n d)) }
    ensures grows { Grows cx.old cx.new }
{
    if g == 1 && d != 1 {
        ratio_stays(cx, sort, n, d)
    } else {
        reduced_by(cx, sort, n, d, g)
    }
}

// `n / d`, which stands already
#[tactic(auto, using(crate::proofs::ProductLemmas::products))]
fn ratio_stays(cx: &mut Builder, sort: Sort, n: u128, d: u128) -> Result<Rewriting, Memory>
    requires quotients { HasQuotients cx.old sort }
    requires small { n < 2 ^ 127 }
    requires over { d < 2 ^ 127 }
    ensures turns { IfOk result (λ r. Turns cx.new sort r (ratio_tree sort n d) (ratio_tree sort n d)) }
    ensures grows { Grows cx.old cx.new }
{
    let e = ratio(cx, sort, n, d)?;
    Ok(keep(cx, e))
}

// by the product with d * g
#[tactic(auto, using(crate::proofs::ProductLemmas::products))]
fn reduced_by(cx: &mut Builder, sort: Sort, n: u128, d: u128, g: u128) -> Result<Rewriting, Memory>
    requires quotients { HasQuotients cx.old sort }
    requires above { 0 < d }
    requires factor_above { 0 < g }
    requires small { n * g < 2 ^ 127 }
    requires over { d * g < 2 ^ 127 }
    ensures turns { IfOk result (λ r. Turns cx.new sort r (ratio_tree sort (n * g) (d * g)) (size_tree sort n d)) }
    ensures grows { Grows cx.old cx.new }
{
    let q = size_product(cx, sort, n, d, g, d * g)?;
    let some = compared_literals(cx, Rel::Ne, sort, d * g, 0)?;
    let r = eq_div_of_mul(cx, sort, q.first, q.second, q.total, q.line, some.line)?;
    let s = back(cx, q.first, r)?;
    Ok(s)
}

/// `n * g / (d * k) * (m * k / (e * g)) = n / e * (m / d)`: common factors are taken out crosswise.
#[tactic(auto, using(crate::proofs::ProductLemmas::products))]
pub fn crossed(
    cx: &mut Builder,
    sort: Sort,
    n: u128,
    d: u128,
    m: u128,
    e: u128,
    g: u128,
    k: u128,
) -> Result<Rewriting, Memory>
    requires quotients { HasQuotients cx.old sort }
    requires first_above { 0 < d }
    requires second_above { 0 < e }
    requires left_above { 0 < g }
    requires right_above { 0 < k }
    requires common { (g ≡ 1) → (k ≡ 1) → ⊥ }
    requires first_small { n * g < 2 ^ 127 }
    requires first_over { d * k < 2 ^ 127 }
    requires second_small { m * k < 2 ^ 127 }
    requires second_over { e * g < 2 ^ 127 }
    ensures turns { IfOk result (λ r. Turns cx.new sort r (product_tree sort (size_tree sort (n * g) (d * k)) (size_tree sort (m * k) (e * g))) (product_tree sort (size_tree sort n e) (size_tree sort m d))) }
    ensures grows { Grows cx.old cx.new }
{
    if d * k == 1 {
        crossed_whole(cx, sort, n, m, e, g)
    } else if e * g == 1 {
        crossed_by_whole(cx, sort, n, d, m, k)
    } else {
        crossed_ratios(cx, sort, n, d, m, e, g, k)
    }
}

// of a whole number and a quotient
#[tactic(auto, using(crate::proofs::ProductLemmas::products))]
fn crossed_whole(
    cx: &mut Builder,
    sort: Sort,
    n: u128,
    m: u128,
    e: u128,
    g: u128,
) -> Result<Rewriting, Memory>
    requires quotients { HasQuotients cx.old sort }
    requires second_above { 0 < e }
    requires left_above { 0 < g }
    requires first_small { n * g < 2 ^ 127 }
    requires second_small { m < 2 ^ 127 }
    requires second_over { e * g < 2 ^ 127 }
    ensures turns { IfOk result (λ r. Turns cx.new sort r (product_tree sort (Lit sort (n * g)) (ratio_tree sort m (e * g))) (product_tree sort (size_tree sort n e) (Lit sort m))) }
    ensures grows { Grows cx.old cx.new }
{
    let moved = moved_over(cx, sort, n * g, m, e * g)?;
    let left = reduced(cx, sort, n, e, g)?;
    let r = left_under_times(cx, sort, left, m)?;
    let s = then(cx, moved, r)?;
    Ok(s)
}

// `a * (c / d) = a / d * c`
#[tactic(auto, using(crate::proofs::ProductLemmas::products))]
fn moved_over(cx: &mut Builder, sort: Sort, a: u128, c: u128, d: u128) -> Result<Rewriting, Memory>
    requires quotients { HasQuotients cx.old sort }
    requires first_small { a < 2 ^ 127 }
    requires second_small { c < 2 ^ 127 }
    requires over { d < 2 ^ 127 }
    ensures turns { IfOk result (λ r. Turns cx.new sort r (product_tree sort (Lit sort a) (ratio_tree sort c d)) (product_tree sort (ratio_tree sort a d) (Lit sort c))) }
    ensures grows { Grows cx.old cx.new }
{
    let first = literal(cx, sort, a)?;
    let second = literal(cx, sort, c)?;
    let over = literal(cx, sort, d)?;
    mul_div_comm(cx, sort, first, second, over)
}

// of a quotient and a whole number
#[tactic(auto, using(crate::proofs::ProductLemmas::products))]
fn crossed_by_whole(
    cx: &mut Builder,
    sort: Sort,
    n: u128,
    d: u128,
    m: u128,
    k: u128,
) -> Result<Rewriting, Memory>
    requires quotients { HasQuotients cx.old sort }
    requires first_above { 0 < d }
    requires right_above { 0 < k }
    requires first_small { n < 2 ^ 127 }
    requires first_over { d * k < 2 ^ 127 }
    requires second_small { m * k < 2 ^ 127 }
    ensures turns { IfOk result (λ r. Turns cx.new sort r (product_tree sort (ratio_tree sort n (d * k)) (Lit sort (m * k))) (product_tree sort (Lit sort n) (size_tree sort m d))) }
    ensures grows { Grows cx.old cx.new }
{
    let moved = moved_back(cx, sort, n, m * k, d * k)?;
    let right = reduced(cx, sort, m, d, k)?;
    let r = right_under_times(cx, sort, n, right)?;
    let s = then(cx, moved, r)?;
    Ok(s)
}

// `a / d * c = a * (c / d)`
#[tactic(auto, using(crate::proofs::ProductLemmas::products))]
fn moved_back(cx: &mut Builder, sort: Sort, a: u128, c: u128, d: u128) -> Result<Rewriting, Memory>
    requires quotients { HasQuotients cx.old sort }
    requires first_small { a < 2 ^ 127 }
    requires second_small { c < 2 ^ 127 }
    requires over { d < 2 ^ 127 }
    ensures turns { IfOk result (λ r. Turns cx.new sort r (product_tree sort (ratio_tree sort a d) (Lit sort c)) (product_tree sort (Lit sort a) (ratio_tree sort c d))) }
    ensures grows { Grows cx.old cx.new }
{
    let e = whole_times_ratio(cx, sort, a, c, d)?;
    let moved = moved_over(cx, sort, a, c, d)?;
    let r = back(cx, e, moved)?;
    Ok(r)
}

// the tree `a * (c / d)`
#[tactic(auto, using(crate::proofs::ProductLemmas::products))]
fn whole_times_ratio(
    cx: &mut Builder,
    sort: Sort,
    a: u128,
    c: u128,
    d: u128,
) -> Result<ExprId, Memory>
    requires quotients { HasQuotients cx.old sort }
    requires first_small { a < 2 ^ 127 }
    requires second_small { c < 2 ^ 127 }
    requires over { d < 2 ^ 127 }
    ensures stands { IfOk result (λ e. Stands cx.new sort e (product_tree sort (Lit sort a) (ratio_tree sort c d))) }
    ensures grows { Grows cx.old cx.new }
{
    let first = literal(cx, sort, a)?;
    let second = ratio(cx, sort, c, d)?;
    let left = keep(cx, first);
    let right = keep(cx, second);
    let r = times(cx, sort, left, right)?;
    Ok(r.to)
}

// of two quotients
#[tactic(auto, using(crate::proofs::ProductLemmas::products))]
fn crossed_ratios(
    cx: &mut Builder,
    sort: Sort,
    n: u128,
    d: u128,
    m: u128,
    e: u128,
    g: u128,
    k: u128,
) -> Result<Rewriting, Memory>
    requires quotients { HasQuotients cx.old sort }
    requires first_above { 0 < d }
    requires second_above { 0 < e }
    requires left_above { 0 < g }
    requires right_above { 0 < k }
    requires first_small { n * g < 2 ^ 127 }
    requires first_over { d * k < 2 ^ 127 }
    requires second_small { m * k < 2 ^ 127 }
    requires second_over { e * g < 2 ^ 127 }
    ensures turns { IfOk result (λ r. Turns cx.new sort r (product_tree sort (ratio_tree sort (n * g) (d * k)) (ratio_tree sort (m * k) (e * g))) (product_tree sort (size_tree sort n e) (size_tree sort m d))) }
    ensures grows { Grows cx.old cx.new }
{
    let swapped = swapped_over(cx, sort, n * g, d * k, m * k, e * g)?;
    let both = both_reduced(cx, sort, n, d, m, e, g, k)?;
    let r = then(cx, swapped, both)?;
    Ok(r)
}

// `a / b * (c / d) = a / d * (c / b)`
#[tactic(auto, using(crate::proofs::ProductLemmas::products))]
fn swapped_over(
    cx: &mut Builder,
    sort: Sort,
    a: u128,
    b: u128,
    c: u128,
    d: u128,
) -> Result<Rewriting, Memory>
    requires quotients { HasQuotients cx.old sort }
    requires first_small { a < 2 ^ 127 }
    requires first_over { b < 2 ^ 127 }
    requires second_small { c < 2 ^ 127 }
    requires second_over { d < 2 ^ 127 }
    ensures turns { IfOk result (λ r. Turns cx.new sort r (product_tree sort (ratio_tree sort a b) (ratio_tree sort c d)) (product_tree sort (ratio_tree sort a d) (ratio_tree sort c b))) }
    ensures grows { Grows cx.old cx.new }
{
    let (first, first_over) = two_literals(cx, sort, a, b)?;
    let (second, second_over) = two_literals(cx, sort, c, d)?;
    div_mul_swap(cx, sort, first, first_over, second, second_over)
}

// both quotients in lowest terms
#[tactic(auto, using(crate::proofs::ProductLemmas::products))]
fn both_reduced(
    cx: &mut Builder,
    sort: Sort,
    n: u128,
    d: u128,
    m: u128,
    e: u128,
    g: u128,
    k: u128,
) -> Result<Rewriting, Memory>
    requires quotients { HasQuotients cx.old sort }
    requires first_above { 0 < d }
    requires second_above { 0 < e }
    requires left_above { 0 < g }
    requires right_above { 0 < k }
    requires first_small { n * g < 2 ^ 127 }
    requires first_over { d * k < 2 ^ 127 }
    requires second_small { m * k < 2 ^ 127 }
    requires second_over { e * g < 2 ^ 127 }
    ensures turns { IfOk result (λ r. Turns cx.new sort r (product_tree sort (ratio_tree sort (n * g) (e * g)) (ratio_tree sort (m * k) (d * k))) (product_tree sort (size_tree sort n e) (size_tree sort m d))) }
    ensures grows { Grows cx.old cx.new }
{
    let left = reduced(cx, sort, n, e, g)?;
    let right = reduced(cx, sort, m, d, k)?;
    let r = times(cx, sort, left, right)?;
    Ok(r)
}
