ghost use Rattle.std.specs.Prelude.{◌≡◌, ◌+◌, ◌-◌, ◌*◌, ◌<◌, ◌≤◌, ◌^◌, IfOk};
ghost use Rattle.alg_terms.specs.Tree.{Lit, sum_tree, product_tree};
ghost use Rattle.alg_build.specs.Book.{Grows};
ghost use Rattle.alg_build.specs.Rewriting.{Turns};
ghost use Rattle.alg_rows.specs.Operations.{negation_tree};
ghost use Rattle.alg_numerals.specs.Numerals.{HasSigns};

use crate::literals::{product, sum};
use alg_build::{Builder, Memory, Rewriting};
use alg_expr::Sort;
use alg_rows::products::{mul_neg_lit, neg_mul_lit, neg_mul_neg};
use alg_rows::sums::{add_neg_neg, add_neg_pos, neg_add_neg_lit, neg_add_negr, neg_add_pos};

/// `m + -n = m - n`
#[tactic(auto, using(crate::proofs::LiteralLemmas::literal_facts))]
pub fn plus_minus(cx: &mut Builder, sort: Sort, m: u128, n: u128) -> Result<Rewriting, Memory>
    requires signs { HasSigns cx.old sort }
    requires fits { n ≤ m }
    requires small { m < 2 ^ 127 }
    ensures turns { IfOk result (λ r. Turns cx.new sort r (sum_tree sort (Lit sort m) (negation_tree sort (Lit sort n))) (Lit sort (m - n))) }
    ensures grows { Grows cx.old cx.new }
{
    let q = sum(cx, sort, m - n, n, m)?;
    add_neg_pos(cx, sort, q.total, q.second, q.first, q.line)
}

/// `m + -n = -(n - m)`
#[tactic(auto, using(crate::proofs::LiteralLemmas::literal_facts))]
pub fn plus_minus_below(cx: &mut Builder, sort: Sort, m: u128, n: u128) -> Result<Rewriting, Memory>
    requires signs { HasSigns cx.old sort }
    requires below { m ≤ n }
    requires small { n < 2 ^ 127 }
    ensures turns { IfOk result (λ r. Turns cx.new sort r (sum_tree sort (Lit sort m) (negation_tree sort (Lit sort n))) (negation_tree sort (Lit sort (n - m)))) }
    ensures grows { Grows cx.old cx.new }
{
    let q = sum(cx, sort, m, n - m, n)?;
    add_neg_neg(cx, sort, q.first, q.total, q.second, q.line)
}

/// `-m + -n = -(m + n)`
#[tactic(auto, using(crate::proofs::LiteralLemmas::literal_facts))]
pub fn minus_minus(cx: &mut Builder, sort: Sort, m: u128, n: u128) -> Result<Rewriting, Memory>
    requires signs { HasSigns cx.old sort }
    requires small { m + n < 2 ^ 127 }
    ensures turns { IfOk result (λ r. Turns cx.new sort r (sum_tree sort (negation_tree sort (Lit sort m)) (negation_tree sort (Lit sort n))) (negation_tree sort (Lit sort (m + n)))) }
    ensures grows { Grows cx.old cx.new }
{
    let q = sum(cx, sort, m, n, m + n)?;
    neg_add_neg_lit(cx, sort, q.first, q.second, q.total, q.line)
}

/// `-m + n = n - m`
#[tactic(auto, using(crate::proofs::LiteralLemmas::literal_facts))]
pub fn minus_plus(cx: &mut Builder, sort: Sort, m: u128, n: u128) -> Result<Rewriting, Memory>
    requires signs { HasSigns cx.old sort }
    requires fits { m ≤ n }
    requires small { n < 2 ^ 127 }
    ensures turns { IfOk result (λ r. Turns cx.new sort r (sum_tree sort (negation_tree sort (Lit sort m)) (Lit sort n)) (Lit sort (n - m))) }
    ensures grows { Grows cx.old cx.new }
{
    let q = sum(cx, sort, n - m, m, n)?;
    neg_add_pos(cx, sort, q.second, q.total, q.first, q.line)
}

/// `-m + n = -(m - n)`
#[tactic(auto, using(crate::proofs::LiteralLemmas::literal_facts))]
pub fn minus_plus_below(cx: &mut Builder, sort: Sort, m: u128, n: u128) -> Result<Rewriting, Memory>
    requires signs { HasSigns cx.old sort }
    requires below { n ≤ m }
    requires small { m < 2 ^ 127 }
    ensures turns { IfOk result (λ r. Turns cx.new sort r (sum_tree sort (negation_tree sort (Lit sort m)) (Lit sort n)) (negation_tree sort (Lit sort (m - n)))) }
    ensures grows { Grows cx.old cx.new }
{
    let q = sum(cx, sort, n, m - n, m)?;
    neg_add_negr(cx, sort, q.total, q.first, q.second, q.line)
}

/// `-m * n = -(m * n)`
#[tactic(auto, using(crate::proofs::LiteralLemmas::literal_facts))]
pub fn minus_times(cx: &mut Builder, sort: Sort, m: u128, n: u128) -> Result<Rewriting, Memory>
    requires signs { HasSigns cx.old sort }
    requires first_small { m < 2 ^ 127 }
    requires second_small { n < 2 ^ 127 }
    requires small { m * n < 2 ^ 127 }
    ensures turns { IfOk result (λ r. Turns cx.new sort r (product_tree sort (negation_tree sort (Lit sort m)) (Lit sort n)) (negation_tree sort (Lit sort (m * n)))) }
    ensures grows { Grows cx.old cx.new }
{
    let q = product(cx, sort, m, n, m * n)?;
    neg_mul_lit(cx, sort, q.first, q.second, q.total, q.line)
}

/// `m * -n = -(m * n)`
#[tactic(auto, using(crate::proofs::LiteralLemmas::literal_facts))]
pub fn times_minus(cx: &mut Builder, sort: Sort, m: u128, n: u128) -> Result<Rewriting, Memory>
    requires signs { HasSigns cx.old sort }
    requires first_small { m < 2 ^ 127 }
    requires second_small { n < 2 ^ 127 }
    requires small { m * n < 2 ^ 127 }
    ensures turns { IfOk result (λ r. Turns cx.new sort r (product_tree sort (Lit sort m) (negation_tree sort (Lit sort n))) (negation_tree sort (Lit sort (m * n)))) }
    ensures grows { Grows cx.old cx.new }
{
    let q = product(cx, sort, m, n, m * n)?;
    mul_neg_lit(cx, sort, q.first, q.second, q.total, q.line)
}

/// `-m * -n = m * n`
#[tactic(auto, using(crate::proofs::LiteralLemmas::literal_facts))]
pub fn minus_times_minus(
    cx: &mut Builder,
    sort: Sort,
    m: u128,
    n: u128,
) -> Result<Rewriting, Memory>
    requires signs { HasSigns cx.old sort }
    requires first_small { m < 2 ^ 127 }
    requires second_small { n < 2 ^ 127 }
    requires small { m * n < 2 ^ 127 }
    ensures turns { IfOk result (λ r. Turns cx.new sort r (product_tree sort (negation_tree sort (Lit sort m)) (negation_tree sort (Lit sort n))) (Lit sort (m * n))) }
    ensures grows { Grows cx.old cx.new }
{
    let q = product(cx, sort, m, n, m * n)?;
    neg_mul_neg(cx, sort, q.first, q.second, q.total, q.line)
}
