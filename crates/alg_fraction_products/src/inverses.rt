ghost use Rattle.std.specs.Prelude.{◌≡◌, ◌<◌, ◌^◌, IfOk};
ghost use Rattle.alg_terms.specs.declared.relations.Rel.TheVariants.{Ne};
ghost use Rattle.alg_terms.specs.Tree.{Lit};
ghost use Rattle.alg_law.specs.Derivations.{related};
ghost use Rattle.alg_num.specs.Inverse.{IsInverse};
ghost use Rattle.alg_build.specs.Book.{Concludes, Grows, Proves};
ghost use Rattle.alg_build.specs.Rewriting.{Turns};
ghost use Rattle.alg_rows.specs.Operations.{inverse_tree, negation_tree};
ghost use Rattle.alg_fractions.specs.Fractions.{HasQuotients};
ghost use Rattle.alg_fractions.specs.NumeralTree.{ratio_tree, signed_tree, size_tree};

use crate::parts::{is_below, size_of_fraction};
use alg_build::{Builder, Memory, Rewriting, line_of};
use alg_expr::{Rel, Sort};
use alg_fractions::sizes::size;
use alg_num::Frac;
use alg_numerals::literals::literal;
use alg_numerals::relations::{compared_literals, relation_of_literals};
use alg_rows::inequations::div_ne_zero;
use alg_rows::inverses::{div_inv0, inv_eq_one_div, inv_zero, neg_inv_lit, one_div_inv0, one_inv0};

/// `x⁻¹ = z`. The inverse of 0 is 0.
#[tactic(auto, using(alg_fractions::proofs::FractionLemmas::fractions))]
pub fn inverse_of_fraction(
    cx: &mut Builder,
    sort: Sort,
    x: Frac,
    z: Frac,
) -> Result<Rewriting, Memory>
    requires quotients { HasQuotients cx.old sort }
    requires inverts { IsInverse x z }
    ensures turns { IfOk result (λ r. Turns cx.new sort r (inverse_tree sort (signed_tree sort x)) (signed_tree sort z)) }
    ensures grows { Grows cx.old cx.new }
{
    let a = size_of_fraction(&x);
    if a.top == 0 {
        inv_zero(cx, sort)
    } else if is_below(&x) {
        minus_size_inverse(cx, sort, a.top, a.bottom)
    } else {
        size_inverse(cx, sort, a.top, a.bottom)
    }
}

// `(-(n / d))⁻¹ = -(d / n)`
#[tactic(auto, using(crate::proofs::ProductLemmas::products))]
fn minus_size_inverse(cx: &mut Builder, sort: Sort, n: u128, d: u128) -> Result<Rewriting, Memory>
    requires quotients { HasQuotients cx.old sort }
    requires first_above { 0 < n }
    requires second_above { 0 < d }
    requires first_small { n < 2 ^ 127 }
    requires second_small { d < 2 ^ 127 }
    ensures turns { IfOk result (λ r. Turns cx.new sort r (inverse_tree sort (negation_tree sort (size_tree sort n d))) (negation_tree sort (size_tree sort d n))) }
    ensures grows { Grows cx.old cx.new }
{
    let some = size_differs(cx, sort, n, d)?;
    let line = size_inverse_line(cx, sort, n, d)?;
    minus_inverse_by(cx, sort, n, d, some, line)
}

// the row over two lines
#[tactic(auto, using(crate::proofs::ProductLemmas::products))]
fn minus_inverse_by(
    cx: &mut Builder,
    sort: Sort,
    n: u128,
    d: u128,
    some: usize,
    line: usize,
) -> Result<Rewriting, Memory>
    requires quotients { HasQuotients cx.old sort }
    requires first_small { n < 2 ^ 127 }
    requires second_small { d < 2 ^ 127 }
    requires differs { Concludes cx.old some (related Ne sort (size_tree sort n d) (Lit sort 0)) }
    requires inverts { Proves cx.old line (inverse_tree sort (size_tree sort n d)) (size_tree sort d n) }
    ensures turns { IfOk result (λ r. Turns cx.new sort r (inverse_tree sort (negation_tree sort (size_tree sort n d))) (negation_tree sort (size_tree sort d n))) }
    ensures grows { Grows cx.old cx.new }
{
    let a = size(cx, sort, n, d)?;
    let b = size(cx, sort, d, n)?;
    neg_inv_lit(cx, sort, a, b, some, line)
}

/// `n / d ≠ 0`, where n is above 0.
#[tactic(auto, using(crate::proofs::ProductLemmas::products))]
pub fn size_differs(cx: &mut Builder, sort: Sort, n: u128, d: u128) -> Result<usize, Memory>
    requires quotients { HasQuotients cx.old sort }
    requires first_above { 0 < n }
    requires second_above { 0 < d }
    requires first_small { n < 2 ^ 127 }
    requires second_small { d < 2 ^ 127 }
    ensures concludes { IfOk result (λ i. Concludes cx.new i (related Ne sort (size_tree sort n d) (Lit sort 0))) }
    ensures grows { Grows cx.old cx.new }
{
    if d == 1 {
        relation_of_literals(cx, Rel::Ne, sort, n, 0)
    } else {
        ratio_differs(cx, sort, n, d)
    }
}

#[tactic(auto, using(crate::proofs::ProductLemmas::products))]
fn ratio_differs(cx: &mut Builder, sort: Sort, n: u128, d: u128) -> Result<usize, Memory>
    requires quotients { HasQuotients cx.old sort }
    requires first_above { 0 < n }
    requires second_above { 0 < d }
    requires first_small { n < 2 ^ 127 }
    requires second_small { d < 2 ^ 127 }
    ensures concludes { IfOk result (λ i. Concludes cx.new i (related Ne sort (ratio_tree sort n d) (Lit sort 0))) }
    ensures grows { Grows cx.old cx.new }
{
    let p = compared_literals(cx, Rel::Ne, sort, n, 0)?;
    let q = compared_literals(cx, Rel::Ne, sort, d, 0)?;
    div_ne_zero(cx, sort, p.first, q.first, p.line, q.line)
}

#[tactic(auto, using(crate::proofs::ProductLemmas::products))]
fn size_inverse_line(cx: &mut Builder, sort: Sort, n: u128, d: u128) -> Result<usize, Memory>
    requires quotients { HasQuotients cx.old sort }
    requires first_above { 0 < n }
    requires second_above { 0 < d }
    requires first_small { n < 2 ^ 127 }
    requires second_small { d < 2 ^ 127 }
    ensures proves { IfOk result (λ i. Proves cx.new i (inverse_tree sort (size_tree sort n d)) (size_tree sort d n)) }
    ensures grows { Grows cx.old cx.new }
{
    let r = size_inverse(cx, sort, n, d)?;
    let line = line_of(cx, r)?;
    Ok(line)
}

/// `(n / d)⁻¹ = d / n`, where n is above 0.
#[tactic(auto, using(crate::proofs::ProductLemmas::products))]
pub fn size_inverse(cx: &mut Builder, sort: Sort, n: u128, d: u128) -> Result<Rewriting, Memory>
    requires quotients { HasQuotients cx.old sort }
    requires first_above { 0 < n }
    requires second_above { 0 < d }
    requires first_small { n < 2 ^ 127 }
    requires second_small { d < 2 ^ 127 }
    ensures turns { IfOk result (λ r. Turns cx.new sort r (inverse_tree sort (size_tree sort n d)) (size_tree sort d n)) }
    ensures grows { Grows cx.old cx.new }
{
    if d == 1 {
        literal_inverse(cx, sort, n)
    } else if n == 1 {
        unit_inverse(cx, sort, d)
    } else {
        ratio_inverse(cx, sort, n, d)
    }
}

// `n⁻¹ = 1 / n`, also where n is 1
#[tactic(auto, using(crate::proofs::ProductLemmas::products))]
fn literal_inverse(cx: &mut Builder, sort: Sort, n: u128) -> Result<Rewriting, Memory>
    requires quotients { HasQuotients cx.old sort }
    requires small { n < 2 ^ 127 }
    ensures turns { IfOk result (λ r. Turns cx.new sort r (inverse_tree sort (Lit sort n)) (size_tree sort 1 n)) }
    ensures grows { Grows cx.old cx.new }
{
    if n == 1 {
        one_inv0(cx, sort)
    } else {
        whole_inverse(cx, sort, n)
    }
}

// `n⁻¹ = 1 / n`
#[tactic(auto, using(crate::proofs::ProductLemmas::products))]
fn whole_inverse(cx: &mut Builder, sort: Sort, n: u128) -> Result<Rewriting, Memory>
    requires quotients { HasQuotients cx.old sort }
    requires small { n < 2 ^ 127 }
    ensures turns { IfOk result (λ r. Turns cx.new sort r (inverse_tree sort (Lit sort n)) (ratio_tree sort 1 n)) }
    ensures grows { Grows cx.old cx.new }
{
    let a = literal(cx, sort, n)?;
    inv_eq_one_div(cx, sort, a)
}

// `(1 / d)⁻¹ = d`
#[tactic(auto, using(crate::proofs::ProductLemmas::products))]
fn unit_inverse(cx: &mut Builder, sort: Sort, d: u128) -> Result<Rewriting, Memory>
    requires quotients { HasQuotients cx.old sort }
    requires above { 0 < d }
    requires small { d < 2 ^ 127 }
    ensures turns { IfOk result (λ r. Turns cx.new sort r (inverse_tree sort (ratio_tree sort 1 d)) (Lit sort d)) }
    ensures grows { Grows cx.old cx.new }
{
    let q = compared_literals(cx, Rel::Ne, sort, d, 0)?;
    one_div_inv0(cx, sort, q.first, q.line)
}

// `(n / d)⁻¹ = d / n`
#[tactic(auto, using(crate::proofs::ProductLemmas::products))]
fn ratio_inverse(cx: &mut Builder, sort: Sort, n: u128, d: u128) -> Result<Rewriting, Memory>
    requires quotients { HasQuotients cx.old sort }
    requires first_above { 0 < n }
    requires second_above { 0 < d }
    requires first_small { n < 2 ^ 127 }
    requires second_small { d < 2 ^ 127 }
    ensures turns { IfOk result (λ r. Turns cx.new sort r (inverse_tree sort (ratio_tree sort n d)) (ratio_tree sort d n)) }
    ensures grows { Grows cx.old cx.new }
{
    let p = compared_literals(cx, Rel::Ne, sort, n, 0)?;
    let q = compared_literals(cx, Rel::Ne, sort, d, 0)?;
    div_inv0(cx, sort, p.first, q.first, p.line, q.line)
}
