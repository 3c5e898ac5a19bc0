ghost use Rattle.std.specs.Prelude.{◌≡◌, IfOk};
ghost use Rattle.alg_terms.specs.Tree.{sum_tree};
ghost use Rattle.alg_num.specs.Sum.{sum_of};
ghost use Rattle.alg_num.specs.LeastSum.{LeastSumInRange};
ghost use Rattle.alg_num.specs.LowestTerms.{Reduces};
ghost use Rattle.alg_num.specs.Negative.{negative_of};
ghost use Rattle.alg_build.specs.Book.{Grows, Proves};
ghost use Rattle.alg_build.specs.Rewriting.{Turns};
ghost use Rattle.alg_rows.specs.Operations.{difference_tree, negation_tree};
ghost use Rattle.alg_numerals.specs.Numerals.{HasSigns};
ghost use Rattle.alg_fractions.specs.Fractions.{HasFraction, HasQuotients};
ghost use Rattle.alg_fractions.specs.NumeralTree.{signed_tree};

use crate::sums::sum_of_fractions;
use crate::wholes::are_whole;
use alg_build::{Builder, Memory, Rewriting, line_of};
use alg_expr::Sort;
use alg_fractions::signed::{negation_line, two_fractions};
use alg_num::Frac;
use alg_numerals::difference_of_integers;
use alg_rows::sums::sub_of_neg;

/// `x - y = z`: the sum with the negation, where one of the two isn't whole.
#[tactic(auto, using(crate::proofs::QuotientLemmas::quotients))]
pub fn difference_of_fractions(
    cx: &mut Builder,
    sort: Sort,
    x: Frac,
    y: Frac,
    z: Frac,
) -> Result<Rewriting, Memory>
    requires signs { HasSigns cx.old sort }
    requires first { HasFraction cx.old sort x }
    requires second { HasFraction cx.old sort y }
    requires subtracts { Reduces (sum_of x (negative_of y)) z }
    requires small { LeastSumInRange x (negative_of y) }
    ensures turns { IfOk result (λ r. Turns cx.new sort r (difference_tree sort (signed_tree sort x) (signed_tree sort y)) (signed_tree sort z)) }
    ensures grows { Grows cx.old cx.new }
{
    if are_whole(&x, &y) {
        difference_of_wholes(cx, sort, x, y, z)
    } else {
        difference_over(cx, sort, x, y, z)
    }
}

// where both are whole
#[tactic(auto, using(crate::proofs::QuotientLemmas::quotients))]
fn difference_of_wholes(
    cx: &mut Builder,
    sort: Sort,
    x: Frac,
    y: Frac,
    z: Frac,
) -> Result<Rewriting, Memory>
    requires signs { HasSigns cx.old sort }
    requires whole { (x.denominator ≡ 1) × (y.denominator ≡ 1) }
    requires subtracts { Reduces (sum_of x (negative_of y)) z }
    requires small { LeastSumInRange x (negative_of y) }
    ensures turns { IfOk result (λ r. Turns cx.new sort r (difference_tree sort (signed_tree sort x) (signed_tree sort y)) (signed_tree sort z)) }
    ensures grows { Grows cx.old cx.new }
{
    let m = x.num();
    let n = y.num();
    let r = difference_of_integers(cx, sort, &m, &n)?;
    Ok(r)
}

// where one of the two isn't whole
#[tactic(auto, using(crate::proofs::QuotientLemmas::quotients))]
fn difference_over(
    cx: &mut Builder,
    sort: Sort,
    x: Frac,
    y: Frac,
    z: Frac,
) -> Result<Rewriting, Memory>
    requires quotients { HasQuotients cx.old sort }
    requires subtracts { Reduces (sum_of x (negative_of y)) z }
    requires small { LeastSumInRange x (negative_of y) }
    ensures turns { IfOk result (λ r. Turns cx.new sort r (difference_tree sort (signed_tree sort x) (signed_tree sort y)) (signed_tree sort z)) }
    ensures grows { Grows cx.old cx.new }
{
    let minus = negation_line(cx, sort, y)?;
    let total = sum_line(cx, sort, x, y.neg(), z)?;
    difference_by(cx, sort, x, y, z, minus, total)
}

// the line for `x + y = z`
#[tactic(auto, using(crate::proofs::QuotientLemmas::quotients))]
fn sum_line(cx: &mut Builder, sort: Sort, x: Frac, y: Frac, z: Frac) -> Result<usize, Memory>
    requires quotients { HasQuotients cx.old sort }
    requires adds { Reduces (sum_of x y) z }
    requires small { LeastSumInRange x y }
    ensures proves { IfOk result (λ i. Proves cx.new i (sum_tree sort (signed_tree sort x) (signed_tree sort y)) (signed_tree sort z)) }
    ensures grows { Grows cx.old cx.new }
{
    let r = sum_of_fractions(cx, sort, x, y, z)?;
    let line = line_of(cx, r)?;
    Ok(line)
}

// the row over two lines
#[tactic(auto, using(crate::proofs::QuotientLemmas::quotients))]
fn difference_by(
    cx: &mut Builder,
    sort: Sort,
    x: Frac,
    y: Frac,
    z: Frac,
    minus: usize,
    total: usize,
) -> Result<Rewriting, Memory>
    requires quotients { HasQuotients cx.old sort }
    requires minus { Proves cx.old minus (negation_tree sort (signed_tree sort y)) (signed_tree sort (negative_of y)) }
    requires total { Proves cx.old total (sum_tree sort (signed_tree sort x) (signed_tree sort (negative_of y))) (signed_tree sort z) }
    ensures turns { IfOk result (λ r. Turns cx.new sort r (difference_tree sort (signed_tree sort x) (signed_tree sort y)) (signed_tree sort z)) }
    ensures grows { Grows cx.old cx.new }
{
    let (a, b) = two_fractions(cx, sort, x, y)?;
    let (c, d) = two_fractions(cx, sort, y.neg(), z)?;
    sub_of_neg(cx, sort, a, b, c, d, minus, total)
}
