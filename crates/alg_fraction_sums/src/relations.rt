ghost use Rattle.std.specs.Prelude.{◌≡◌, ◌*ℤ◌, pos, IfOk, true};
ghost use Rattle.alg_terms.specs.Tree.{Lit, product_tree};
ghost use Rattle.alg_law.specs.Derivations.{related};
ghost use Rattle.alg_num.specs.Order.{order_of};
ghost use Rattle.alg_num.specs.Range.{InRange};
ghost use Rattle.alg_proof.specs.LiteralLines.{relation_class};
ghost use Rattle.alg_build.specs.Book.{Concludes, Grows};
ghost use Rattle.alg_build.specs.Rewriting.{Turns};
ghost use Rattle.alg_numerals.specs.Comparing.{allows};
ghost use Rattle.alg_numerals.specs.WholeTree.{whole_tree};
ghost use Rattle.alg_fractions.specs.Fractions.{HasFraction, HasQuotients};
ghost use Rattle.alg_fractions.specs.NumeralTree.{signed_tree};
ghost use Rattle.alg_fraction_sums.specs.Comparing.{ComparisonInRange};

use crate::cancelled::cancelled;
use crate::scaling::{scaled_by_other, scaled_by_own, two_products, two_scaled};
use crate::wholes::are_whole;
use alg_build::{Builder, Memory, Rewriting, close_by};
use alg_expr::{Rel, Sort, Stmt};
use alg_fraction_numbers::scaled;
use alg_fractions::signed::two_fractions;
use alg_num::Frac;
use alg_numerals::relation_of_integers;

/// `x ≠ y`, `x < y` or `x ≤ y`, where it holds: of the cross products where one of the two isn't whole.
#[tactic(auto, using(crate::proofs::ComparisonLemmas::comparisons))]
pub fn relation_of_fractions(
    cx: &mut Builder,
    rel: Rel,
    sort: Sort,
    x: Frac,
    y: Frac,
) -> Result<usize, Memory>
    requires first { HasFraction cx.old sort x }
    requires second { HasFraction cx.old sort y }
    requires class { relation_class cx.old.theory.declarations rel sort ≡ true }
    requires holds { allows rel (order_of x y) ≡ true }
    requires small { ComparisonInRange rel x y }
    ensures concludes { IfOk result (λ n. Concludes cx.new n (related rel sort (signed_tree sort x) (signed_tree sort y))) }
    ensures grows { Grows cx.old cx.new }
{
    if are_whole(&x, &y) {
        relation_of_wholes(cx, rel, sort, x, y)
    } else {
        relation_across(cx, rel, sort, x, y)
    }
}

// where both are whole
#[tactic(auto, using(crate::proofs::ComparisonLemmas::comparisons))]
fn relation_of_wholes(
    cx: &mut Builder,
    rel: Rel,
    sort: Sort,
    x: Frac,
    y: Frac,
) -> Result<usize, Memory>
    requires first { HasFraction cx.old sort x }
    requires second { HasFraction cx.old sort y }
    requires whole { (x.denominator ≡ 1) × (y.denominator ≡ 1) }
    requires class { relation_class cx.old.theory.declarations rel sort ≡ true }
    requires holds { allows rel (order_of x y) ≡ true }
    requires small { ComparisonInRange rel x y }
    ensures concludes { IfOk result (λ n. Concludes cx.new n (related rel sort (signed_tree sort x) (signed_tree sort y))) }
    ensures grows { Grows cx.old cx.new }
{
    let m = x.num();
    let n = y.num();
    let line = relation_of_integers(cx, rel, sort, &m, &n)?;
    Ok(line)
}

// from the products with the first denominator
#[tactic(auto, using(crate::proofs::ComparisonLemmas::comparisons))]
fn relation_across(
    cx: &mut Builder,
    rel: Rel,
    sort: Sort,
    x: Frac,
    y: Frac,
) -> Result<usize, Memory>
    requires quotients { HasQuotients cx.old sort }
    requires class { relation_class cx.old.theory.declarations rel sort ≡ true }
    requires holds { allows rel (order_of x y) ≡ true }
    requires small { ComparisonInRange rel x y }
    ensures concludes { IfOk result (λ n. Concludes cx.new n (related rel sort (signed_tree sort x) (signed_tree sort y))) }
    ensures grows { Grows cx.old cx.new }
{
    let line = relation_scaled(cx, rel, sort, x, y)?;
    let (a, b) = two_fractions(cx, sort, x, y)?;
    cancelled(cx, rel, sort, a, b, x.den(), line)
}

// `x * q R y * q` for the denominator q of x, from the products with both denominators
#[tactic(auto, using(crate::proofs::ComparisonLemmas::comparisons))]
fn relation_scaled(
    cx: &mut Builder,
    rel: Rel,
    sort: Sort,
    x: Frac,
    y: Frac,
) -> Result<usize, Memory>
    requires quotients { HasQuotients cx.old sort }
    requires class { relation_class cx.old.theory.declarations rel sort ≡ true }
    requires holds { allows rel (order_of x y) ≡ true }
    requires small { ComparisonInRange rel x y }
    ensures concludes { IfOk result (λ n. Concludes cx.new n (related rel sort (product_tree sort (signed_tree sort x) (Lit sort x.denominator)) (product_tree sort (signed_tree sort y) (Lit sort x.denominator)))) }
    ensures grows { Grows cx.old cx.new }
{
    let line = relation_scaled_twice(cx, rel, sort, x, y)?;
    let (a, b) = two_products(cx, sort, x, y, x.den())?;
    cancelled(cx, rel, sort, a, b, y.den(), line)
}

// `x * q * s R y * q * s` for the denominators q of x and s of y
#[tactic(auto, using(crate::proofs::ComparisonLemmas::comparisons))]
fn relation_scaled_twice(
    cx: &mut Builder,
    rel: Rel,
    sort: Sort,
    x: Frac,
    y: Frac,
) -> Result<usize, Memory>
    requires quotients { HasQuotients cx.old sort }
    requires class { relation_class cx.old.theory.declarations rel sort ≡ true }
    requires holds { allows rel (order_of x y) ≡ true }
    requires small { ComparisonInRange rel x y }
    ensures concludes { IfOk result (λ n. Concludes cx.new n (related rel sort (product_tree sort (product_tree sort (signed_tree sort x) (Lit sort x.denominator)) (Lit sort y.denominator)) (product_tree sort (product_tree sort (signed_tree sort y) (Lit sort x.denominator)) (Lit sort y.denominator)))) }
    ensures grows { Grows cx.old cx.new }
{
    let line = relation_of_crossed(cx, rel, sort, x, y)?;
    let left = scaled_by_own(cx, sort, x, y.den())?;
    let right = scaled_by_other(cx, sort, y, x.den())?;
    related_by(cx, rel, sort, x, y, left, right, line)
}

// the relation of the cross products
#[tactic(auto, using(crate::proofs::ComparisonLemmas::comparisons))]
fn relation_of_crossed(
    cx: &mut Builder,
    rel: Rel,
    sort: Sort,
    x: Frac,
    y: Frac,
) -> Result<usize, Memory>
    requires quotients { HasQuotients cx.old sort }
    requires class { relation_class cx.old.theory.declarations rel sort ≡ true }
    requires holds { allows rel (order_of x y) ≡ true }
    requires small { ComparisonInRange rel x y }
    ensures concludes { IfOk result (λ n. Concludes cx.new n (related rel sort (whole_tree sort (x.numerator *ℤ pos y.denominator)) (whole_tree sort (y.numerator *ℤ pos x.denominator)))) }
    ensures grows { Grows cx.old cx.new }
{
    let left = crossed(&x, &y);
    let right = crossed(&y, &x);
    relation_of_integers(cx, rel, sort, &left, &right)
}

// the numerator of the first times the denominator of the second
fn crossed(x: &Frac, y: &Frac) -> i128
    requires small { InRange (x.now.numerator *ℤ pos y.now.denominator) }
    ensures { result ≡ x.now.numerator *ℤ pos y.now.denominator }
{
    let m = x.num();
    scaled(&m, y.den())
}

// the relation of two trees, from that of what they are rewritten to
#[tactic(auto, using(crate::proofs::ComparisonLemmas::comparisons))]
fn related_by(
    cx: &mut Builder,
    rel: Rel,
    sort: Sort,
    x: Frac,
    y: Frac,
    left: Rewriting,
    right: Rewriting,
    line: usize,
) -> Result<usize, Memory>
    requires quotients { HasQuotients cx.old sort }
    requires left_turns { Turns cx.old sort left (product_tree sort (product_tree sort (signed_tree sort x) (Lit sort x.denominator)) (Lit sort y.denominator)) (whole_tree sort (x.numerator *ℤ pos y.denominator)) }
    requires right_turns { Turns cx.old sort right (product_tree sort (product_tree sort (signed_tree sort y) (Lit sort x.denominator)) (Lit sort y.denominator)) (whole_tree sort (y.numerator *ℤ pos x.denominator)) }
    requires relation { Concludes cx.old line (related rel sort (whole_tree sort (x.numerator *ℤ pos y.denominator)) (whole_tree sort (y.numerator *ℤ pos x.denominator))) }
    ensures concludes { IfOk result (λ n. Concludes cx.new n (related rel sort (product_tree sort (product_tree sort (signed_tree sort x) (Lit sort x.denominator)) (Lit sort y.denominator)) (product_tree sort (product_tree sort (signed_tree sort y) (Lit sort x.denominator)) (Lit sort y.denominator)))) }
    ensures grows { Grows cx.old cx.new }
{
    let (lhs, rhs) = two_scaled(cx, sort, x, y)?;
    let goal = Stmt {
        rel,
        sort,
        lhs,
        rhs,
    };
    close_by(cx, goal, left, right, line)
}
