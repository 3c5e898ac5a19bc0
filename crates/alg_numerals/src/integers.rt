ghost use Rattle.std.specs.Prelude.{◌≡◌, ◌+ℤ◌, ◌*ℤ◌, neg_ℤ, ◌≤ℤ◌, ◌<ℤ◌, pos, IfOk};
ghost use Rattle.alg_terms.specs.Tree.{sum_tree, product_tree};
ghost use Rattle.alg_num.specs.Range.{InRange};
ghost use Rattle.alg_build.specs.Book.{Grows};
ghost use Rattle.alg_build.specs.Rewriting.{Stands, Turns};
ghost use Rattle.alg_rows.specs.Operations.{negation_tree};
ghost use Rattle.alg_numerals.specs.Numerals.{HasSigns, HasWhole};
ghost use Rattle.alg_numerals.specs.WholeTree.{whole_tree};

use crate::literals::literal;
use crate::naturals::{
    minus_minus, minus_plus, minus_plus_below, minus_times, minus_times_minus, plus_minus,
    plus_minus_below, times_minus,
};
use crate::negatives::{
    minus_minus_is, minus_stays, minus_times_zero, minus_zero, negative, zero_times_minus,
};
use alg_build::{Builder, Memory, Rewriting, product_of_literals, sum_of_literals};
use alg_expr::{ExprId, Sort};

/// The numeral x.
#[tactic(auto, using(crate::proofs::WholeLemmas::wholes), unfolding(crate::specs::WholeTree::whole_tree))]
pub fn numeral_of_integer(cx: &mut Builder, sort: Sort, x: &i128) -> Result<ExprId, Memory>
    requires has { HasWhole cx.old sort x.now }
    requires small { InRange x.now }
    ensures stands { IfOk result (λ e. Stands cx.new sort e (whole_tree sort x.now)) }
    ensures grows { Grows cx.old cx.new }
{
    let n = x.unsigned_abs();
    if *x < 0 {
        negative(cx, sort, n)
    } else {
        literal(cx, sort, n)
    }
}

/// `x + y`, in at most two lines.
#[tactic(auto, using(crate::proofs::WholeLemmas::wholes))]
pub fn sum_of_integers(
    cx: &mut Builder,
    sort: Sort,
    x: &i128,
    y: &i128,
) -> Result<Rewriting, Memory>
    requires first { HasWhole cx.old sort x.now }
    requires second { HasWhole cx.old sort y.now }
    requires first_small { InRange x.now }
    requires second_small { InRange y.now }
    requires small { InRange (x.now +ℤ y.now) }
    ensures turns { IfOk result (λ r. Turns cx.new sort r (sum_tree sort (whole_tree sort x.now) (whole_tree sort y.now)) (whole_tree sort (x.now +ℤ y.now))) }
    ensures grows { Grows cx.old cx.new }
{
    if *x < 0 {
        add_to_minus(cx, sort, x, y)
    } else {
        add_to_plus(cx, sort, x, y)
    }
}

// where x isn't below 0
#[tactic(auto, using(crate::proofs::WholeLemmas::wholes), unfolding(crate::specs::WholeTree::whole_tree))]
fn add_to_plus(cx: &mut Builder, sort: Sort, x: &i128, y: &i128) -> Result<Rewriting, Memory>
    requires first { HasWhole cx.old sort x.now }
    requires at_least { pos 0 ≤ℤ x.now }
    requires second { HasWhole cx.old sort y.now }
    requires first_small { InRange x.now }
    requires second_small { InRange y.now }
    requires small { InRange (x.now +ℤ y.now) }
    ensures turns { IfOk result (λ r. Turns cx.new sort r (sum_tree sort (whole_tree sort x.now) (whole_tree sort y.now)) (whole_tree sort (x.now +ℤ y.now))) }
    ensures grows { Grows cx.old cx.new }
{
    let m = x.unsigned_abs();
    let n = y.unsigned_abs();
    if *y >= 0 {
        sum_of_literals(cx, sort, m, n)
    } else if n <= m {
        plus_minus(cx, sort, m, n)
    } else {
        plus_minus_below(cx, sort, m, n)
    }
}

// where x is below 0
#[tactic(auto, using(crate::proofs::WholeLemmas::wholes), unfolding(crate::specs::WholeTree::whole_tree))]
fn add_to_minus(cx: &mut Builder, sort: Sort, x: &i128, y: &i128) -> Result<Rewriting, Memory>
    requires first { HasWhole cx.old sort x.now }
    requires below { x.now <ℤ pos 0 }
    requires first_small { InRange x.now }
    requires second_small { InRange y.now }
    requires small { InRange (x.now +ℤ y.now) }
    ensures turns { IfOk result (λ r. Turns cx.new sort r (sum_tree sort (whole_tree sort x.now) (whole_tree sort y.now)) (whole_tree sort (x.now +ℤ y.now))) }
    ensures grows { Grows cx.old cx.new }
{
    let m = x.unsigned_abs();
    let n = y.unsigned_abs();
    if *y < 0 {
        minus_minus(cx, sort, m, n)
    } else if m <= n {
        minus_plus(cx, sort, m, n)
    } else {
        minus_plus_below(cx, sort, m, n)
    }
}

/// `-x`, in at most one line: none where x is above 0.
#[tactic(auto, using(crate::proofs::WholeLemmas::wholes), unfolding(crate::specs::WholeTree::whole_tree))]
pub fn negation_of_integer(cx: &mut Builder, sort: Sort, x: &i128) -> Result<Rewriting, Memory>
    requires signs { HasSigns cx.old sort }
    requires small { InRange x.now }
    ensures turns { IfOk result (λ r. Turns cx.new sort r (negation_tree sort (whole_tree sort x.now)) (whole_tree sort (neg_ℤ x.now))) }
    ensures grows { Grows cx.old cx.new }
{
    let n = x.unsigned_abs();
    if *x < 0 {
        minus_minus_is(cx, sort, n)
    } else if n == 0 {
        minus_zero(cx, sort)
    } else {
        minus_stays(cx, sort, n)
    }
}

/// `x * y`, in at most two lines.
#[tactic(auto, using(crate::proofs::WholeLemmas::wholes))]
pub fn product_of_integers(
    cx: &mut Builder,
    sort: Sort,
    x: &i128,
    y: &i128,
) -> Result<Rewriting, Memory>
    requires first { HasWhole cx.old sort x.now }
    requires second { HasWhole cx.old sort y.now }
    requires first_small { InRange x.now }
    requires second_small { InRange y.now }
    requires small { InRange (x.now *ℤ y.now) }
    ensures turns { IfOk result (λ r. Turns cx.new sort r (product_tree sort (whole_tree sort x.now) (whole_tree sort y.now)) (whole_tree sort (x.now *ℤ y.now))) }
    ensures grows { Grows cx.old cx.new }
{
    if *x < 0 {
        minus_by(cx, sort, x, y)
    } else {
        plus_by(cx, sort, x, y)
    }
}

// where x isn't below 0
#[tactic(auto, using(crate::proofs::WholeLemmas::wholes), unfolding(crate::specs::WholeTree::whole_tree))]
fn plus_by(cx: &mut Builder, sort: Sort, x: &i128, y: &i128) -> Result<Rewriting, Memory>
    requires first { HasWhole cx.old sort x.now }
    requires at_least { pos 0 ≤ℤ x.now }
    requires second { HasWhole cx.old sort y.now }
    requires first_small { InRange x.now }
    requires second_small { InRange y.now }
    requires small { InRange (x.now *ℤ y.now) }
    ensures turns { IfOk result (λ r. Turns cx.new sort r (product_tree sort (whole_tree sort x.now) (whole_tree sort y.now)) (whole_tree sort (x.now *ℤ y.now))) }
    ensures grows { Grows cx.old cx.new }
{
    let m = x.unsigned_abs();
    let n = y.unsigned_abs();
    if *y >= 0 {
        product_of_literals(cx, sort, m, n)
    } else if m == 0 {
        zero_times_minus(cx, sort, n)
    } else {
        times_minus(cx, sort, m, n)
    }
}

// where x is below 0
#[tactic(auto, using(crate::proofs::WholeLemmas::wholes), unfolding(crate::specs::WholeTree::whole_tree))]
fn minus_by(cx: &mut Builder, sort: Sort, x: &i128, y: &i128) -> Result<Rewriting, Memory>
    requires first { HasWhole cx.old sort x.now }
    requires below { x.now <ℤ pos 0 }
    requires first_small { InRange x.now }
    requires second_small { InRange y.now }
    requires small { InRange (x.now *ℤ y.now) }
    ensures turns { IfOk result (λ r. Turns cx.new sort r (product_tree sort (whole_tree sort x.now) (whole_tree sort y.now)) (whole_tree sort (x.now *ℤ y.now))) }
    ensures grows { Grows cx.old cx.new }
{
    let m = x.unsigned_abs();
    let n = y.unsigned_abs();
    if *y < 0 {
        minus_times_minus(cx, sort, m, n)
    } else if n == 0 {
        minus_times_zero(cx, sort, m)
    } else {
        minus_times(cx, sort, m, n)
    }
}
