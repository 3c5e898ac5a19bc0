ghost use Rattle.std.specs.Prelude.{◌≡◌, ◌<◌, ◌^◌, IfOk};
ghost use Rattle.alg_terms.specs.Tree.{Lit, product_tree};
ghost use Rattle.alg_build.specs.Book.{Grows};
ghost use Rattle.alg_build.specs.Rewriting.{Stands, Turns};
ghost use Rattle.alg_rows.specs.Operations.{negation_tree};
ghost use Rattle.alg_numerals.specs.Numerals.{HasSigns};

use crate::literals::literal;
use alg_build::{Builder, Memory, Rewriting, keep};
use alg_expr::{ExprId, Sort, Sym};
use alg_rows::products::{mul_zero, zero_mul};
use alg_rows::sums::{neg_neg, neg_zero};

/// The tree `-n`.
#[tactic(auto, using(crate::proofs::LiteralLemmas::literal_facts))]
pub fn negative(cx: &mut Builder, sort: Sort, n: u128) -> Result<ExprId, Memory>
    requires signs { HasSigns cx.old sort }
    requires small { n < 2 ^ 127 }
    ensures stands { IfOk result (λ e. Stands cx.new sort e (negation_tree sort (Lit sort n))) }
    ensures grows { Grows cx.old cx.new }
{
    let e = literal(cx, sort, n)?;
    let f = cx.app(Sym::Neg, sort, &[e])?;
    Ok(f)
}

/// `0 * -n = 0`
#[tactic(auto, using(crate::proofs::LiteralLemmas::literal_facts))]
pub fn zero_times_minus(cx: &mut Builder, sort: Sort, n: u128) -> Result<Rewriting, Memory>
    requires signs { HasSigns cx.old sort }
    requires small { n < 2 ^ 127 }
    ensures turns { IfOk result (λ r. Turns cx.new sort r (product_tree sort (Lit sort 0) (negation_tree sort (Lit sort n))) (Lit sort 0)) }
    ensures grows { Grows cx.old cx.new }
{
    let e = negative(cx, sort, n)?;
    zero_mul(cx, sort, e)
}

/// `-n * 0 = 0`
#[tactic(auto, using(crate::proofs::LiteralLemmas::literal_facts))]
pub fn minus_times_zero(cx: &mut Builder, sort: Sort, n: u128) -> Result<Rewriting, Memory>
    requires signs { HasSigns cx.old sort }
    requires small { n < 2 ^ 127 }
    ensures turns { IfOk result (λ r. Turns cx.new sort r (product_tree sort (negation_tree sort (Lit sort n)) (Lit sort 0)) (Lit sort 0)) }
    ensures grows { Grows cx.old cx.new }
{
    let e = negative(cx, sort, n)?;
    mul_zero(cx, sort, e)
}

/// `-(-n) = n`
#[tactic(auto, using(crate::proofs::LiteralLemmas::literal_facts))]
pub fn minus_minus_is(cx: &mut Builder, sort: Sort, n: u128) -> Result<Rewriting, Memory>
    requires signs { HasSigns cx.old sort }
    requires small { n < 2 ^ 127 }
    ensures turns { IfOk result (λ r. Turns cx.new sort r (negation_tree sort (negation_tree sort (Lit sort n))) (Lit sort n)) }
    ensures grows { Grows cx.old cx.new }
{
    let e = literal(cx, sort, n)?;
    neg_neg(cx, sort, e)
}

/// `-0 = 0`
#[tactic(auto, using(crate::proofs::LiteralLemmas::literal_facts))]
pub fn minus_zero(cx: &mut Builder, sort: Sort) -> Result<Rewriting, Memory>
    requires signs { HasSigns cx.old sort }
    ensures turns { IfOk result (λ r. Turns cx.new sort r (negation_tree sort (Lit sort 0)) (Lit sort 0)) }
    ensures grows { Grows cx.old cx.new }
{
    neg_zero(cx, sort)
}

/// `-n`, which stands already.
#[tactic(auto, using(crate::proofs::LiteralLemmas::literal_facts))]
pub fn minus_stays(cx: &mut Builder, sort: Sort, n: u128) -> Result<Rewriting, Memory>
    requires signs { HasSigns cx.old sort }
    requires small { n < 2 ^ 127 }
    ensures turns { IfOk result (λ r. Turns cx.new sort r (negation_tree sort (Lit sort n)) (negation_tree sort (Lit sort n))) }
    ensures grows { Grows cx.old cx.new }
{
    let e = negative(cx, sort, n)?;
    Ok(keep(cx, e))
}
