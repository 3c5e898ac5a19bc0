ghost use Rattle.std.specs.Prelude.{◌≡◌, ◌*◌, ◌<◌, ◌^◌, IfOk};
ghost use Rattle.alg_terms.specs.declared.symbols.Sym.TheVariants.{Mul};
ghost use Rattle.alg_terms.specs.Tree.{Lit, product_tree};
ghost use Rattle.alg_build.specs.Book.{Grows, Proves};
ghost use Rattle.alg_build.specs.Rewriting.{Stands, Turns};
ghost use Rattle.alg_rows.specs.Operations.{negation_tree};
ghost use Rattle.alg_numerals.specs.Numerals.{Combines};
ghost use Rattle.alg_fractions.specs.Fractions.{HasQuotients};
ghost use Rattle.alg_fractions.specs.NumeralTree.{ratio_tree, size_tree};

use alg_build::{Builder, Memory, Rewriting, line_of, product_of_literals, then};
use alg_expr::{ExprId, Rel, Sort, Sym};
use alg_numerals::Combined;
use alg_numerals::literals::{literal, product};
use alg_numerals::relations::compared_literals;
use alg_rows::products::neg_mul_lit;
use alg_rows::quotients::div_mul_lit;

/// The tree `n / d`, also where d is 1.
#[tactic(auto, using(crate::proofs::SizeLemmas::sizes))]
pub fn ratio(cx: &mut Builder, sort: Sort, n: u128, d: u128) -> Result<ExprId, Memory>
    requires quotients { HasQuotients cx.old sort }
    requires first_small { n < 2 ^ 127 }
    requires second_small { d < 2 ^ 127 }
    ensures stands { IfOk result (λ e. Stands cx.new sort e (ratio_tree sort n d)) }
    ensures grows { Grows cx.old cx.new }
{
    let num = literal(cx, sort, n)?;
    let den = literal(cx, sort, d)?;
    let e = cx.app(Sym::Div, sort, &[num, den])?;
    Ok(e)
}

/// The tree `n / d`, or n where d is 1.
#[tactic(auto, using(crate::proofs::SizeLemmas::sizes))]
pub fn size(cx: &mut Builder, sort: Sort, n: u128, d: u128) -> Result<ExprId, Memory>
    requires quotients { HasQuotients cx.old sort }
    requires first_small { n < 2 ^ 127 }
    requires second_small { d < 2 ^ 127 }
    ensures stands { IfOk result (λ e. Stands cx.new sort e (size_tree sort n d)) }
    ensures grows { Grows cx.old cx.new }
{
    if d == 1 {
        literal(cx, sort, n)
    } else {
        ratio(cx, sort, n, d)
    }
}

// `n / d * l = n * e`, where l is d * e
#[tactic(auto, using(crate::proofs::SizeLemmas::sizes))]
fn ratio_over(
    cx: &mut Builder,
    sort: Sort,
    n: u128,
    d: u128,
    e: u128,
    l: u128,
) -> Result<Rewriting, Memory>
    requires quotients { HasQuotients cx.old sort }
    requires first_small { n < 2 ^ 127 }
    requires second_small { d < 2 ^ 127 }
    requires factor_small { e < 2 ^ 127 }
    requires above { 0 < d }
    requires multiplies { d * e ≡ l }
    requires small { l < 2 ^ 127 }
    ensures turns { IfOk result (λ r. Turns cx.new sort r (product_tree sort (ratio_tree sort n d) (Lit sort l)) (product_tree sort (Lit sort n) (Lit sort e))) }
    ensures grows { Grows cx.old cx.new }
{
    let q = product(cx, sort, d, e, l)?;
    let some = compared_literals(cx, Rel::Ne, sort, d, 0)?;
    let num = literal(cx, sort, n)?;
    div_mul_lit(cx, sort, num, q.first, q.second, q.total, q.line, some.line)
}

/// `n / d * l = m`, where l is d * e and m is n * e.
#[tactic(auto, using(crate::proofs::SizeLemmas::sizes))]
pub fn ratio_times(
    cx: &mut Builder,
    sort: Sort,
    n: u128,
    d: u128,
    e: u128,
    l: u128,
) -> Result<Rewriting, Memory>
    requires quotients { HasQuotients cx.old sort }
    requires first_small { n < 2 ^ 127 }
    requires second_small { d < 2 ^ 127 }
    requires factor_small { e < 2 ^ 127 }
    requires above { 0 < d }
    requires multiplies { d * e ≡ l }
    requires small { l < 2 ^ 127 }
    requires product_small { n * e < 2 ^ 127 }
    ensures turns { IfOk result (λ r. Turns cx.new sort r (product_tree sort (ratio_tree sort n d) (Lit sort l)) (Lit sort (n * e))) }
    ensures grows { Grows cx.old cx.new }
{
    let r = ratio_over(cx, sort, n, d, e, l)?;
    let s = product_of_literals(cx, sort, n, e)?;
    let q = then(cx, r, s)?;
    Ok(q)
}

/// The same of a fraction that may be whole.
#[tactic(auto, using(crate::proofs::SizeLemmas::sizes))]
pub fn size_times(
    cx: &mut Builder,
    sort: Sort,
    n: u128,
    d: u128,
    e: u128,
    l: u128,
) -> Result<Rewriting, Memory>
    requires quotients { HasQuotients cx.old sort }
    requires first_small { n < 2 ^ 127 }
    requires second_small { d < 2 ^ 127 }
    requires factor_small { e < 2 ^ 127 }
    requires above { 0 < d }
    requires multiplies { d * e ≡ l }
    requires small { l < 2 ^ 127 }
    requires product_small { n * e < 2 ^ 127 }
    ensures turns { IfOk result (λ r. Turns cx.new sort r (product_tree sort (size_tree sort n d) (Lit sort l)) (Lit sort (n * e))) }
    ensures grows { Grows cx.old cx.new }
{
    if d == 1 {
        product_of_literals(cx, sort, n, l)
    } else {
        ratio_times(cx, sort, n, d, e, l)
    }
}

// the line for `n / d * l`
#[tactic(auto, using(crate::proofs::SizeLemmas::sizes))]
fn size_line(
    cx: &mut Builder,
    sort: Sort,
    n: u128,
    d: u128,
    e: u128,
    l: u128,
) -> Result<usize, Memory>
    requires quotients { HasQuotients cx.old sort }
    requires first_small { n < 2 ^ 127 }
    requires second_small { d < 2 ^ 127 }
    requires factor_small { e < 2 ^ 127 }
    requires above { 0 < d }
    requires multiplies { d * e ≡ l }
    requires small { l < 2 ^ 127 }
    requires product_small { n * e < 2 ^ 127 }
    ensures proves { IfOk result (λ i. Proves cx.new i (product_tree sort (size_tree sort n d) (Lit sort l)) (Lit sort (n * e))) }
    ensures grows { Grows cx.old cx.new }
{
    let r = size_times(cx, sort, n, d, e, l)?;
    let line = line_of(cx, r)?;
    Ok(line)
}

// the trees of a fraction and of two literals, beside a line
#[tactic(auto, using(crate::proofs::SizeLemmas::sizes))]
fn sizes_beside(
    cx: &mut Builder,
    sort: Sort,
    n: u128,
    d: u128,
    l: u128,
    m: u128,
    line: usize,
) -> Result<Combined, Memory>
    requires quotients { HasQuotients cx.old sort }
    requires first_small { n < 2 ^ 127 }
    requires second_small { d < 2 ^ 127 }
    requires factor_small { l < 2 ^ 127 }
    requires small { m < 2 ^ 127 }
    ensures first { IfOk result (λ q. Stands cx.new sort q.first (size_tree sort n d)) }
    ensures second { IfOk result (λ q. Stands cx.new sort q.second (Lit sort l)) }
    ensures total { IfOk result (λ q. Stands cx.new sort q.total (Lit sort m)) }
    ensures line { IfOk result (λ q. q.line ≡ line) }
    ensures grows { Grows cx.old cx.new }
{
    let first = size(cx, sort, n, d)?;
    let second = literal(cx, sort, l)?;
    let total = literal(cx, sort, m)?;
    Ok(Combined {
        first,
        second,
        total,
        line,
    })
}

/// `n / d * l = m`, with the three trees.
#[tactic(auto, using(crate::proofs::SizeLemmas::sizes))]
pub fn size_product(
    cx: &mut Builder,
    sort: Sort,
    n: u128,
    d: u128,
    e: u128,
    l: u128,
) -> Result<Combined, Memory>
    requires quotients { HasQuotients cx.old sort }
    requires first_small { n < 2 ^ 127 }
    requires second_small { d < 2 ^ 127 }
    requires factor_small { e < 2 ^ 127 }
    requires above { 0 < d }
    requires multiplies { d * e ≡ l }
    requires small { l < 2 ^ 127 }
    requires product_small { n * e < 2 ^ 127 }
    ensures combines { IfOk result (λ q. Combines cx.new Mul sort q (size_tree sort n d) (Lit sort l) (Lit sort (n * e))) }
    ensures grows { Grows cx.old cx.new }
{
    let line = size_line(cx, sort, n, d, e, l)?;
    let q = sizes_beside(cx, sort, n, d, l, n * e, line)?;
    Ok(q)
}

/// `-(n / d) * l = -m`
#[tactic(auto, using(crate::proofs::SizeLemmas::sizes))]
pub fn minus_size_times(
    cx: &mut Builder,
    sort: Sort,
    n: u128,
    d: u128,
    e: u128,
    l: u128,
) -> Result<Rewriting, Memory>
    requires quotients { HasQuotients cx.old sort }
    requires first_small { n < 2 ^ 127 }
    requires second_small { d < 2 ^ 127 }
    requires factor_small { e < 2 ^ 127 }
    requires above { 0 < d }
    requires multiplies { d * e ≡ l }
    requires small { l < 2 ^ 127 }
    requires product_small { n * e < 2 ^ 127 }
    ensures turns { IfOk result (λ r. Turns cx.new sort r (product_tree sort (negation_tree sort (size_tree sort n d)) (Lit sort l)) (negation_tree sort (Lit sort (n * e)))) }
    ensures grows { Grows cx.old cx.new }
{
    let q = size_product(cx, sort, n, d, e, l)?;
    neg_mul_lit(cx, sort, q.first, q.second, q.total, q.line)
}

/// The tree `-(n / d)`.
#[tactic(auto, using(crate::proofs::SizeLemmas::sizes))]
pub fn minus_size(cx: &mut Builder, sort: Sort, n: u128, d: u128) -> Result<ExprId, Memory>
    requires quotients { HasQuotients cx.old sort }
    requires first_small { n < 2 ^ 127 }
    requires second_small { d < 2 ^ 127 }
    ensures stands { IfOk result (λ e. Stands cx.new sort e (negation_tree sort (size_tree sort n d))) }
    ensures grows { Grows cx.old cx.new }
{
    let e = size(cx, sort, n, d)?;
    let f = cx.app(Sym::Neg, sort, &[e])?;
    Ok(f)
}
