//! Lines for goals whose relation holds between the values of their sides.
ghost use Rattle.std.specs.Prelude.{◌≡◌, IfOk, true};
ghost use Rattle.alg_expr.specs.Ids.{statement_of};
ghost use Rattle.alg_law.specs.Computing.{divides};
ghost use Rattle.alg_num.specs.Order.{order_of};
ghost use Rattle.alg_proof.specs.LiteralLines.{relation_class};
ghost use Rattle.alg_build.specs.Book.{Concludes, Grows};
ghost use Rattle.alg_numerals.specs.Comparing.{allows};
ghost use Rattle.alg_fraction_sums.specs.Comparing.{ComparisonInRange};
ghost use Rattle.alg_values.specs.Arithmetic.{size_of};
ghost use Rattle.alg_normnum.specs.Sides.{AreNumbers};

use alg_build::{Builder, Memory, close_by};
use alg_evaluation::Found;
use alg_expr::{Rel, Stmt};
use alg_fraction_sums::relation_of_fractions;

/// A line for a goal by `≠`, `<` or `≤`.
#[tactic(auto, using(crate::proofs::Numbers::comparing))]
pub fn compared(cx: &mut Builder, goal: Stmt, left: Found, right: Found) -> Result<usize, Memory>
    requires numbers { AreNumbers cx.old goal left right }
    requires class { relation_class cx.old.theory.declarations goal.rel goal.sort ≡ true }
    requires holds { allows goal.rel (order_of left.value right.value) ≡ true }
    requires small { ComparisonInRange goal.rel left.value right.value }
    ensures concludes { IfOk result (λ n. Concludes cx.new n (statement_of cx.old.trees goal)) }
    ensures grows { Grows cx.old cx.new }
{
    let line = relation_of_fractions(cx, goal.rel, goal.sort, left.value, right.value)?;
    let whole = close_by(cx, goal, left.by, right.by, line)?;
    Ok(whole)
}

/// A line for a goal by `∣`.
#[tactic(auto, using(crate::proofs::Numbers::dividing))]
pub fn divided(cx: &mut Builder, goal: Stmt, left: Found, right: Found) -> Result<usize, Memory>
    requires numbers { AreNumbers cx.old goal left right }
    requires rel { goal.rel ≡ Rel.Dvd }
    requires holds { divides (size_of left.value) (size_of right.value) ≡ true }
    ensures concludes { IfOk result (λ n. Concludes cx.new n (statement_of cx.old.trees goal)) }
    ensures grows { Grows cx.old cx.new }
{
    let m = left.value.num();
    let n = right.value.num();
    let line = cx.divides(goal.sort, &m, &n)?;
    let whole = close_by(cx, goal, left.by, right.by, line)?;
    Ok(whole)
}
