ghost use Rattle.std.specs.Prelude.{◌≡◌, ◌<◌, ◌^◌, IfOk};
ghost use Rattle.alg_terms.specs.Tree.{Lit, product_tree, sum_tree};
ghost use Rattle.alg_num.specs.Sum.{sum_of};
ghost use Rattle.alg_num.specs.LeastSum.{LeastSumInRange};
ghost use Rattle.alg_num.specs.LowestTerms.{Reduces};
ghost use Rattle.alg_build.specs.Book.{Grows};
ghost use Rattle.alg_build.specs.Rewriting.{Stands, Turns};
ghost use Rattle.alg_numerals.specs.WholeTree.{whole_tree};
ghost use Rattle.alg_fraction_numbers.specs.Common.{IsCommon};
ghost use Rattle.alg_fractions.specs.Fractions.{HasFraction, HasQuotients};
ghost use Rattle.alg_fractions.specs.NumeralTree.{signed_tree};

use crate::wholes::are_whole;
use alg_build::{Builder, Memory, Rewriting, plus, then};
use alg_expr::{ExprId, Sort, Sym};
use alg_fraction_numbers::{Common, over_common};
use alg_fractions::cancelling::equal_by_products;
use alg_fractions::signed::{signed_size, signed_times, two_fractions};
use alg_num::Frac;
use alg_numerals::literals::literal;
use alg_numerals::sum_of_integers;
use alg_rows::products::right_distrib;

/// `x + y = z`: by the products of both sides with a common multiple of the denominators, where one of the two isn't
/// whole.
#[tactic(auto, using(crate::proofs::QuotientLemmas::quotients))]
pub fn sum_of_fractions(
    cx: &mut Builder,
    sort: Sort,
    x: Frac,
    y: Frac,
    z: Frac,
) -> Result<Rewriting, Memory>
    requires first { HasFraction cx.old sort x }
    requires second { HasFraction cx.old sort y }
    requires adds { Reduces (sum_of x y) z }
    requires small { LeastSumInRange x y }
    ensures turns { IfOk result (λ r. Turns cx.new sort r (sum_tree sort (signed_tree sort x) (signed_tree sort y)) (signed_tree sort z)) }
    ensures grows { Grows cx.old cx.new }
{
    if are_whole(&x, &y) {
        sum_of_wholes(cx, sort, x, y, z)
    } else {
        sum_over(cx, sort, x, y, z)
    }
}

// where both are whole
#[tactic(auto, using(crate::proofs::QuotientLemmas::quotients))]
fn sum_of_wholes(
    cx: &mut Builder,
    sort: Sort,
    x: Frac,
    y: Frac,
    z: Frac,
) -> Result<Rewriting, Memory>
    requires first { HasFraction cx.old sort x }
    requires second { HasFraction cx.old sort y }
    requires whole { (x.denominator ≡ 1) × (y.denominator ≡ 1) }
    requires adds { Reduces (sum_of x y) z }
    requires small { LeastSumInRange x y }
    ensures turns { IfOk result (λ r. Turns cx.new sort r (sum_tree sort (signed_tree sort x) (signed_tree sort y)) (signed_tree sort z)) }
    ensures grows { Grows cx.old cx.new }
{
    let m = x.num();
    let n = y.num();
    let r = sum_of_integers(cx, sort, &m, &n)?;
    Ok(r)
}

// by the products with a common denominator
#[tactic(auto, using(crate::proofs::QuotientLemmas::quotients))]
fn sum_over(cx: &mut Builder, sort: Sort, x: Frac, y: Frac, z: Frac) -> Result<Rewriting, Memory>
    requires quotients { HasQuotients cx.old sort }
    requires adds { Reduces (sum_of x y) z }
    requires small { LeastSumInRange x y }
    ensures turns { IfOk result (λ r. Turns cx.new sort r (sum_tree sort (signed_tree sort x) (signed_tree sort y)) (signed_tree sort z)) }
    ensures grows { Grows cx.old cx.new }
{
    let c = over_common(&x, &y, &z);
    sum_by_common(cx, sort, x, y, z, c)
}

// the same with the numbers over the common denominator
#[tactic(auto, using(crate::proofs::QuotientLemmas::quotients))]
fn sum_by_common(
    cx: &mut Builder,
    sort: Sort,
    x: Frac,
    y: Frac,
    z: Frac,
    c: Common,
) -> Result<Rewriting, Memory>
    requires quotients { HasQuotients cx.old sort }
    requires common { IsCommon x y z c }
    ensures turns { IfOk result (λ r. Turns cx.new sort r (sum_tree sort (signed_tree sort x) (signed_tree sort y)) (signed_tree sort z)) }
    ensures grows { Grows cx.old cx.new }
{
    let left = sum_times(cx, sort, x, y, z, c)?;
    let right = total_times(cx, sort, x, y, z, c)?;
    sum_by(cx, sort, x, y, z, c, left, right)
}

// `z * l` is the numerator of the sum over l
#[tactic(auto, using(crate::proofs::QuotientLemmas::quotients))]
fn total_times(
    cx: &mut Builder,
    sort: Sort,
    _x: Frac,
    _y: Frac,
    z: Frac,
    c: Common,
) -> Result<Rewriting, Memory>
    requires quotients { HasQuotients cx.old sort }
    requires common { IsCommon _x _y z c }
    ensures turns { IfOk result (λ r. Turns cx.new sort r (product_tree sort (signed_tree sort z) (Lit sort c.multiple)) (whole_tree sort c.total)) }
    ensures grows { Grows cx.old cx.new }
{
    signed_times(cx, sort, z, c.third, c.multiple)
}

// `x + y = z`, where both times the multiple are one number
#[tactic(auto, using(crate::proofs::QuotientLemmas::quotients))]
fn sum_by(
    cx: &mut Builder,
    sort: Sort,
    x: Frac,
    y: Frac,
    z: Frac,
    c: Common,
    left: Rewriting,
    right: Rewriting,
) -> Result<Rewriting, Memory>
    requires quotients { HasQuotients cx.old sort }
    requires common { IsCommon x y z c }
    requires left_turns { Turns cx.old sort left (product_tree sort (sum_tree sort (signed_tree sort x) (signed_tree sort y)) (Lit sort c.multiple)) (whole_tree sort c.total) }
    requires right_turns { Turns cx.old sort right (product_tree sort (signed_tree sort z) (Lit sort c.multiple)) (whole_tree sort c.total) }
    ensures turns { IfOk result (λ r. Turns cx.new sort r (sum_tree sort (signed_tree sort x) (signed_tree sort y)) (signed_tree sort z)) }
    ensures grows { Grows cx.old cx.new }
{
    let a = sum_tree_of(cx, sort, x, y)?;
    let b = signed_size(cx, sort, z)?;
    equal_by_products(cx, sort, a, b, c.multiple, &c.total, left, right)
}

// the tree `x + y`
#[tactic(auto, using(crate::proofs::QuotientLemmas::quotients))]
fn sum_tree_of(cx: &mut Builder, sort: Sort, x: Frac, y: Frac) -> Result<ExprId, Memory>
    requires quotients { HasQuotients cx.old sort }
    ensures stands { IfOk result (λ e. Stands cx.new sort e (sum_tree sort (signed_tree sort x) (signed_tree sort y))) }
    ensures grows { Grows cx.old cx.new }
{
    let (a, b) = two_fractions(cx, sort, x, y)?;
    let e = cx.app(Sym::Add, sort, &[a, b])?;
    Ok(e)
}

// `(x + y) * l` is the numerator of the sum over l
#[tactic(auto, using(crate::proofs::QuotientLemmas::quotients))]
fn sum_times(
    cx: &mut Builder,
    sort: Sort,
    x: Frac,
    y: Frac,
    z: Frac,
    c: Common,
) -> Result<Rewriting, Memory>
    requires quotients { HasQuotients cx.old sort }
    requires common { IsCommon x y z c }
    ensures turns { IfOk result (λ r. Turns cx.new sort r (product_tree sort (sum_tree sort (signed_tree sort x) (signed_tree sort y)) (Lit sort c.multiple)) (whole_tree sort c.total)) }
    ensures grows { Grows cx.old cx.new }
{
    let parted = distributed(cx, sort, x, y, c.multiple)?;
    let totalled = numerators(cx, sort, x, y, z, c)?;
    let r = then(cx, parted, totalled)?;
    Ok(r)
}

// `(x + y) * l = x * l + y * l`
#[tactic(auto, using(crate::proofs::QuotientLemmas::quotients))]
fn distributed(cx: &mut Builder, sort: Sort, x: Frac, y: Frac, l: u128) -> Result<Rewriting, Memory>
    requires quotients { HasQuotients cx.old sort }
    requires small { l < 2 ^ 127 }
    ensures turns { IfOk result (λ r. Turns cx.new sort r (product_tree sort (sum_tree sort (signed_tree sort x) (signed_tree sort y)) (Lit sort l)) (sum_tree sort (product_tree sort (signed_tree sort x) (Lit sort l)) (product_tree sort (signed_tree sort y) (Lit sort l)))) }
    ensures grows { Grows cx.old cx.new }
{
    let (a, b) = two_fractions(cx, sort, x, y)?;
    let factor = literal(cx, sort, l)?;
    right_distrib(cx, sort, a, b, factor)
}

// `x * l + y * l` is the numerator of the sum over l
#[tactic(auto, using(crate::proofs::QuotientLemmas::quotients))]
fn numerators(
    cx: &mut Builder,
    sort: Sort,
    x: Frac,
    y: Frac,
    z: Frac,
    c: Common,
) -> Result<Rewriting, Memory>
    requires quotients { HasQuotients cx.old sort }
    requires common { IsCommon x y z c }
    ensures turns { IfOk result (λ r. Turns cx.new sort r (sum_tree sort (product_tree sort (signed_tree sort x) (Lit sort c.multiple)) (product_tree sort (signed_tree sort y) (Lit sort c.multiple))) (whole_tree sort c.total)) }
    ensures grows { Grows cx.old cx.new }
{
    let both = numerators_apart(cx, sort, x, y, z, c)?;
    let total = numerators_added(cx, sort, x, y, z, c)?;
    let r = then(cx, both, total)?;
    Ok(r)
}

// the sum of the numerators over l
#[tactic(auto, using(crate::proofs::QuotientLemmas::quotients))]
fn numerators_added(
    cx: &mut Builder,
    sort: Sort,
    _x: Frac,
    _y: Frac,
    _z: Frac,
    c: Common,
) -> Result<Rewriting, Memory>
    requires quotients { HasQuotients cx.old sort }
    requires common { IsCommon _x _y _z c }
    ensures turns { IfOk result (λ r. Turns cx.new sort r (sum_tree sort (whole_tree sort c.left) (whole_tree sort c.right)) (whole_tree sort c.total)) }
    ensures grows { Grows cx.old cx.new }
{
    sum_of_integers(cx, sort, &c.left, &c.right)
}

// `x * l + y * l` as a sum of two whole numbers
#[tactic(auto, using(crate::proofs::QuotientLemmas::quotients))]
fn numerators_apart(
    cx: &mut Builder,
    sort: Sort,
    x: Frac,
    y: Frac,
    _z: Frac,
    c: Common,
) -> Result<Rewriting, Memory>
    requires quotients { HasQuotients cx.old sort }
    requires common { IsCommon x y _z c }
    ensures turns { IfOk result (λ r. Turns cx.new sort r (sum_tree sort (product_tree sort (signed_tree sort x) (Lit sort c.multiple)) (product_tree sort (signed_tree sort y) (Lit sort c.multiple))) (sum_tree sort (whole_tree sort c.left) (whole_tree sort c.right))) }
    ensures grows { Grows cx.old cx.new }
{
    let left = signed_times(cx, sort, x, c.first, c.multiple)?;
    let right = signed_times(cx, sort, y, c.second, c.multiple)?;
    let both = plus(cx, sort, left, right)?;
    Ok(both)
}
