//! What the values of both sides of a goal decide.
ghost use Rattle.std.specs.Prelude.{◌≡◌, ◌↔◌, ◌&&◌, IfOk, IsTrue, false, true};
ghost use Rattle.alg_expr.specs.Ids.{statement_of};
ghost use Rattle.alg_law.specs.Having.{has_class};
ghost use Rattle.alg_num.specs.Order.{is_different};
ghost use Rattle.alg_build.specs.Answer.{Closes, Gives, Leads};
ghost use Rattle.alg_build.specs.Book.{Concludes, Grows};
ghost use Rattle.alg_ends.specs.CommonEnd.{is_reflexive};
ghost use Rattle.alg_values.specs.Comparing.{comparison_in_range, is_same};
ghost use Rattle.alg_values.specs.Numerals.{numeral_tree};
ghost use Rattle.alg_values.specs.declared.value.Value.TheVariants.{Num};
ghost use Rattle.alg_normnum.specs.Answer.{by_values};
ghost use Rattle.alg_normnum.specs.Sides.{AreNumbers, Holds};

use crate::lines::{compared, divided};
use alg_build::{Builder, Memory, Outcome, TacFault};
use alg_ends::end_with;
use alg_evaluation::Found;
use alg_expr::{Rel, Stmt};
use alg_num::Frac;
use alg_values::{decided, is_in_range};

/// What is answered to a goal both sides of which have values. Lines may be new, also after a fault.
#[tactic(auto, using(crate::proofs::Numbers::ends))]
pub fn by_values(
    cx: &mut Builder,
    goal: Stmt,
    left: Found,
    right: Found,
) -> Result<Outcome, TacFault>
    requires { AreNumbers cx.old goal left right }
    ensures answer { Gives cx.new result (by_values (has_class cx.old.theory.declarations) (statement_of cx.old.trees goal) (numeral_tree goal.sort left.value) (numeral_tree goal.sort right.value) (Num left.value) (Num right.value)) }
    ensures leads { IfOk result (λ o. Leads cx.new o (statement_of cx.old.trees goal)) }
    ensures grows { Grows cx.old cx.new }
{
    if is_in_range(goal.rel, &left.value, &right.value) {
        return by_comparison(cx, goal, left, right);
    }
    Err(TacFault::OutOfRange)
}

// where the comparison is in range
#[tactic(auto, using(crate::proofs::Numbers::ends))]
fn by_comparison(
    cx: &mut Builder,
    goal: Stmt,
    left: Found,
    right: Found,
) -> Result<Outcome, TacFault>
    requires numbers { AreNumbers cx.old goal left right }
    requires range { comparison_in_range goal.rel left.value right.value ≡ true }
    ensures answer { Gives cx.new result (by_values (has_class cx.old.theory.declarations) (statement_of cx.old.trees goal) (numeral_tree goal.sort left.value) (numeral_tree goal.sort right.value) (Num left.value) (Num right.value)) }
    ensures leads { IfOk result (λ o. Leads cx.new o (statement_of cx.old.trees goal)) }
    ensures grows { Grows cx.old cx.new }
{
    match decided(cx.base(), goal.rel, goal.sort, &left.value, &right.value) {
        Some(holds) => {
            if holds {
                return closed(cx, goal, left, right);
            }
            Err(TacFault::GoalFalse)
        }
        None => end_with(cx, goal, left.shown, right.shown),
    }
}

fn is_reflexive(rel: Rel) -> bool
    ensures { result ≡ is_reflexive rel }
{
    match rel {
        Rel::Eq => true,
        Rel::Ne => false,
        Rel::Lt => false,
        Rel::Le => true,
        Rel::Dvd => false,
    }
}

fn are_equal(p: &Frac, q: &Frac) -> bool
    ensures { result ≡ is_same p.now q.now }
{
    p.num() == q.num() && p.den() == q.den()
}

// whether the values are one, and if not, that their cross products differ
fn is_same(p: &Frac, q: &Frac) -> bool
    ensures same { result ≡ is_same p.now q.now }
    ensures different { is_same p.now q.now ≡ false → is_different p.now q.now ≡ true }
{
    let _d = p.den();
    let _e = q.den();
    are_equal(p, q)
}

// whether the relation holds of every tree and itself, and the values are one
fn is_evident(rel: Rel, same: bool) -> bool
    ensures { result ≡ (is_reflexive rel && same) }
{
    is_reflexive(rel) && same
}

// a goal whose relation holds between the values of its sides
#[tactic(auto, using(crate::proofs::Numbers::ends))]
fn closed(cx: &mut Builder, goal: Stmt, left: Found, right: Found) -> Result<Outcome, TacFault>
    requires numbers { AreNumbers cx.old goal left right }
    requires holds { Holds (has_class cx.old.theory.declarations) goal.rel goal.sort left.value right.value }
    ensures closes { Gives cx.new result Closes }
    ensures leads { IfOk result (λ o. Leads cx.new o (statement_of cx.old.trees goal)) }
    ensures grows { Grows cx.old cx.new }
{
    let same = is_same(&left.value, &right.value);
    if is_evident(goal.rel, same) {
        return end_with(cx, goal, left.shown, right.shown);
    }
    let line = line_between(cx, goal, left, right)?;
    Ok(Outcome::Closed { line })
}

fn is_divisibility(rel: Rel) -> bool
    ensures { IsTrue result ↔ (rel ≡ Rel.Dvd) }
{
    matches!(rel, Rel::Dvd)
}

// a line for a goal that the common end doesn't close
#[tactic(auto, using(alg_build::proofs::Lines::lines))]
fn line_between(cx: &mut Builder, goal: Stmt, left: Found, right: Found) -> Result<usize, Memory>
    requires numbers { AreNumbers cx.old goal left right }
    requires holds { Holds (has_class cx.old.theory.declarations) goal.rel goal.sort left.value right.value }
    requires other { (is_reflexive goal.rel && is_same left.value right.value) ≡ false }
    requires different { is_same left.value right.value ≡ false → is_different left.value right.value ≡ true }
    ensures concludes { IfOk result (λ n. Concludes cx.new n (statement_of cx.old.trees goal)) }
    ensures grows { Grows cx.old cx.new }
{
    if is_divisibility(goal.rel) {
        return divided(cx, goal, left, right);
    }
    compared(cx, goal, left, right)
}
