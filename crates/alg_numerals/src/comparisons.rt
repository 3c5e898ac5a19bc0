ghost use Rattle.std.specs.Prelude.{◌≡◌, ◌≤ℤ◌, ◌<ℤ◌, pos, IfOk, true};
ghost use Rattle.std.specs.Ordering.{int_cmp};
ghost use Rattle.alg_law.specs.Derivations.{related};
ghost use Rattle.alg_num.specs.Range.{InRange};
ghost use Rattle.alg_proof.specs.LiteralLines.{relation_class};
ghost use Rattle.alg_build.specs.Book.{Concludes, Grows};
ghost use Rattle.alg_numerals.specs.Comparing.{allows, DifferenceInRange};
ghost use Rattle.alg_numerals.specs.Numerals.{HasSigns, HasWhole};
ghost use Rattle.alg_numerals.specs.WholeTree.{whole_tree};

use crate::relations::{
    differs_from_minus, minus_at_most, minus_at_most_minus, minus_below, minus_below_minus,
    minus_differs, minus_differs_from_minus, relation_of_literals,
};
use alg_build::{Builder, Memory};
use alg_expr::{Rel, Sort};

/// `x ≠ y`, `x < y` or `x ≤ y`, where it holds, in at most three lines. `≠` writes the difference of two numbers of
/// unlike signs.
#[tactic(auto, using(crate::proofs::ComparisonLemmas::comparisons))]
pub fn relation_of_integers(
    cx: &mut Builder,
    rel: Rel,
    sort: Sort,
    x: &i128,
    y: &i128,
) -> Result<usize, Memory>
    requires first { HasWhole cx.old sort x.now }
    requires second { HasWhole cx.old sort y.now }
    requires first_small { InRange x.now }
    requires second_small { InRange y.now }
    requires class { relation_class cx.old.theory.declarations rel sort ≡ true }
    requires holds { allows rel (int_cmp x.now y.now) ≡ true }
    requires small { DifferenceInRange rel x.now y.now }
    ensures concludes { IfOk result (λ n. Concludes cx.new n (related rel sort (whole_tree sort x.now) (whole_tree sort y.now))) }
    ensures grows { Grows cx.old cx.new }
{
    if *x < 0 {
        minus_to(cx, rel, sort, x, y)
    } else {
        plus_to(cx, rel, sort, x, y)
    }
}

// where x isn't below 0
#[tactic(auto, using(crate::proofs::ComparisonLemmas::comparisons), unfolding(crate::specs::WholeTree::whole_tree))]
fn plus_to(cx: &mut Builder, rel: Rel, sort: Sort, x: &i128, y: &i128) -> Result<usize, Memory>
    requires first { HasWhole cx.old sort x.now }
    requires at_least { pos 0 ≤ℤ x.now }
    requires second { HasWhole cx.old sort y.now }
    requires first_small { InRange x.now }
    requires second_small { InRange y.now }
    requires class { relation_class cx.old.theory.declarations rel sort ≡ true }
    requires holds { allows rel (int_cmp x.now y.now) ≡ true }
    requires small { DifferenceInRange rel x.now y.now }
    ensures concludes { IfOk result (λ n. Concludes cx.new n (related rel sort (whole_tree sort x.now) (whole_tree sort y.now))) }
    ensures grows { Grows cx.old cx.new }
{
    let m = x.unsigned_abs();
    let n = y.unsigned_abs();
    if *y >= 0 {
        return relation_of_literals(cx, rel, sort, m, n);
    }
    match rel {
        Rel::Ne => differs_from_minus(cx, sort, n, m),
        Rel::Eq | Rel::Lt | Rel::Le | Rel::Dvd => unreachable!(),
    }
}

// where x is below 0
#[tactic(auto, using(crate::proofs::ComparisonLemmas::comparisons), unfolding(crate::specs::WholeTree::whole_tree))]
fn minus_to(cx: &mut Builder, rel: Rel, sort: Sort, x: &i128, y: &i128) -> Result<usize, Memory>
    requires first { HasWhole cx.old sort x.now }
    requires below { x.now <ℤ pos 0 }
    requires second { HasWhole cx.old sort y.now }
    requires first_small { InRange x.now }
    requires second_small { InRange y.now }
    requires class { relation_class cx.old.theory.declarations rel sort ≡ true }
    requires holds { allows rel (int_cmp x.now y.now) ≡ true }
    requires small { DifferenceInRange rel x.now y.now }
    ensures concludes { IfOk result (λ n. Concludes cx.new n (related rel sort (whole_tree sort x.now) (whole_tree sort y.now))) }
    ensures grows { Grows cx.old cx.new }
{
    if *y < 0 {
        minus_to_minus(cx, rel, sort, x, y)
    } else {
        minus_to_plus(cx, rel, sort, x, y)
    }
}

// where both are below 0
#[tactic(auto, using(crate::proofs::ComparisonLemmas::comparisons), unfolding(crate::specs::WholeTree::whole_tree))]
fn minus_to_minus(
    cx: &mut Builder,
    rel: Rel,
    sort: Sort,
    x: &i128,
    y: &i128,
) -> Result<usize, Memory>
    requires signs { HasSigns cx.old sort }
    requires below { x.now <ℤ pos 0 }
    requires second_below { y.now <ℤ pos 0 }
    requires first_small { InRange x.now }
    requires second_small { InRange y.now }
    requires class { relation_class cx.old.theory.declarations rel sort ≡ true }
    requires holds { allows rel (int_cmp x.now y.now) ≡ true }
    ensures concludes { IfOk result (λ n. Concludes cx.new n (related rel sort (whole_tree sort x.now) (whole_tree sort y.now))) }
    ensures grows { Grows cx.old cx.new }
{
    let m = x.unsigned_abs();
    let n = y.unsigned_abs();
    match rel {
        Rel::Ne => minus_differs_from_minus(cx, sort, m, n),
        Rel::Lt => minus_below_minus(cx, sort, m, n),
        Rel::Le => minus_at_most_minus(cx, sort, m, n),
        Rel::Eq | Rel::Dvd => unreachable!(),
    }
}

// where x alone is below 0
#[tactic(auto, using(crate::proofs::ComparisonLemmas::comparisons), unfolding(crate::specs::WholeTree::whole_tree))]
fn minus_to_plus(
    cx: &mut Builder,
    rel: Rel,
    sort: Sort,
    x: &i128,
    y: &i128,
) -> Result<usize, Memory>
    requires signs { HasSigns cx.old sort }
    requires below { x.now <ℤ pos 0 }
    requires at_least { pos 0 ≤ℤ y.now }
    requires first_small { InRange x.now }
    requires second_small { InRange y.now }
    requires class { relation_class cx.old.theory.declarations rel sort ≡ true }
    requires holds { allows rel (int_cmp x.now y.now) ≡ true }
    requires small { DifferenceInRange rel x.now y.now }
    ensures concludes { IfOk result (λ n. Concludes cx.new n (related rel sort (whole_tree sort x.now) (whole_tree sort y.now))) }
    ensures grows { Grows cx.old cx.new }
{
    let m = x.unsigned_abs();
    let n = y.unsigned_abs();
    match rel {
        Rel::Ne => minus_differs(cx, sort, m, n),
        Rel::Lt => minus_below(cx, sort, m, n),
        Rel::Le => minus_at_most(cx, sort, m, n),
        Rel::Eq | Rel::Dvd => unreachable!(),
    }
}
