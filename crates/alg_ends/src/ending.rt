ghost use Rattle.std.specs.Prelude.{◌≡◌, ◌+◌, ◌^◌, ◌&&◌, IfOk, Ok, nat_lt, true, false};
ghost use Rattle.alg_terms.specs.declared.relations.Rel.TheVariants.{Le};
ghost use Rattle.alg_terms.specs.Tree.{node_count};
ghost use Rattle.alg_terms.specs.Order.{tree_same};
ghost use Rattle.alg_expr.specs.Ids.{tree_of, IsIn, statement_of, IsStatementIn};
ghost use Rattle.alg_law.specs.declared.classes.Class.TheVariants.{LinearOrder};
ghost use Rattle.alg_law.specs.Having.{has_class};
ghost use Rattle.alg_law.specs.WellSorted.{IsStatement};
ghost use Rattle.alg_law.specs.Derivations.{related};
ghost use Rattle.alg_build.specs.Answer.{Gives, Leads, Leaves};
ghost use Rattle.alg_build.specs.Book.{Concludes, Grows};
ghost use Rattle.alg_build.specs.Rewriting.{Stands, Turns};
ghost use Rattle.alg_ends.specs.CommonEnd.{common_end, is_reflexive};

use alg_build::{Builder, Outcome, Rewriting, TacFault, by_law_row, close, close_by, leave};
use alg_expr::{ExprId, Memory, Rel, Sort, Stmt};
use alg_law::order_laws::LE_REFL;

fn is_reflexive(rel: Rel) -> bool
    ensures { result ≡ is_reflexive rel }
{
    match rel {
        Rel::Eq => true,
        Rel::Ne => false,
        Rel::Lt => false,
        Rel::Le => true,
        Rel::Dvd => false,
    }
}

fn is_same(cx: &Builder, a: ExprId, b: ExprId) -> bool
    requires left { IsIn cx.now.trees a }
    requires right { IsIn cx.now.trees b }
    ensures { result ≡ tree_same (tree_of cx.now.trees a) (tree_of cx.now.trees b) }
{
    cx.arena().compare(a, b).is_eq()
}

// whether both sides are the old ones
fn is_unchanged(cx: &Builder, goal: Stmt, l: ExprId, r: ExprId) -> bool
    requires here { IsStatementIn cx.now.trees goal }
    requires left { IsIn cx.now.trees l }
    requires right { IsIn cx.now.trees r }
    ensures { result ≡ (tree_same (tree_of cx.now.trees l) (tree_of cx.now.trees goal.lhs) && tree_same (tree_of cx.now.trees r) (tree_of cx.now.trees goal.rhs)) }
{
    is_same(cx, l, goal.lhs) && is_same(cx, r, goal.rhs)
}

// whether the trees written out have more than 2^20 nodes together
fn is_large(cx: &Builder, a: ExprId, b: ExprId) -> bool
    requires left { IsIn cx.now.trees a }
    requires right { IsIn cx.now.trees b }
    ensures { result ≡ nat_lt (2 ^ 20) (node_count (tree_of cx.now.trees a) + node_count (tree_of cx.now.trees b)) }
{
    let total = cx.arena().size(a).saturating_add(cx.arena().size(b));
    1 << 20 < total
}

// `a ≤ a`
#[tactic(auto, using(crate::proofs::EndFacts::end_facts))]
fn at_most_itself(cx: &mut Builder, sort: Sort, a: ExprId) -> Result<usize, Memory>
    requires stands { Stands cx.old sort a (tree_of cx.old.trees a) }
    requires order { has_class cx.old.theory.declarations sort LinearOrder ≡ true }
    ensures concludes { IfOk result (λ n. Concludes cx.new n (related Le sort (tree_of cx.old.trees a) (tree_of cx.old.trees a))) }
    ensures grows { Grows cx.old cx.new }
{
    by_law_row(cx, &LE_REFL, sort, &[a], &[])
}

// `l ≤ r`, both sides of which are rewritten to one tree
#[tactic(auto, using(crate::proofs::EndFacts::end_facts))]
fn close_at_most(
    cx: &mut Builder,
    goal: Stmt,
    left: Rewriting,
    right: Rewriting,
) -> Result<usize, Memory>
    requires here { IsStatementIn cx.old.trees goal }
    requires sorted { IsStatement cx.old.theory.declarations (statement_of cx.old.trees goal) }
    requires rel { goal.rel ≡ Rel.Le }
    requires left { Turns cx.old goal.sort left (tree_of cx.old.trees goal.lhs) (tree_of cx.old.trees left.to) }
    requires right { Turns cx.old goal.sort right (tree_of cx.old.trees goal.rhs) (tree_of cx.old.trees left.to) }
    ensures concludes { IfOk result (λ n. Concludes cx.new n (statement_of cx.old.trees goal)) }
    ensures grows { Grows cx.old cx.new }
{
    let line = at_most_itself(cx, goal.sort, left.to)?;
    let whole = close_by(cx, goal, left, right, line)?;
    Ok(whole)
}

// `l = r`, both sides of which are rewritten to one tree
#[tactic(auto, using(crate::proofs::EndFacts::end_facts))]
fn close_equation(
    cx: &mut Builder,
    goal: Stmt,
    left: Rewriting,
    right: Rewriting,
) -> Result<usize, Memory>
    requires here { IsStatementIn cx.old.trees goal }
    requires sorted { IsStatement cx.old.theory.declarations (statement_of cx.old.trees goal) }
    requires rel { goal.rel ≡ Rel.Eq }
    requires left { Turns cx.old goal.sort left (tree_of cx.old.trees goal.lhs) (tree_of cx.old.trees left.to) }
    requires right { Turns cx.old goal.sort right (tree_of cx.old.trees goal.rhs) (tree_of cx.old.trees left.to) }
    ensures concludes { IfOk result (λ n. Concludes cx.new n (statement_of cx.old.trees goal)) }
    ensures grows { Grows cx.old cx.new }
{
    close(cx, goal, left, right)
}

// `l = r` or `l ≤ r`
fn closed(cx: &mut Builder, goal: Stmt, left: Rewriting, right: Rewriting) -> Result<usize, Memory>
    requires here { IsStatementIn cx.old.trees goal }
    requires sorted { IsStatement cx.old.theory.declarations (statement_of cx.old.trees goal) }
    requires reflexive { is_reflexive goal.rel ≡ true }
    requires left { Turns cx.old goal.sort left (tree_of cx.old.trees goal.lhs) (tree_of cx.old.trees left.to) }
    requires right { Turns cx.old goal.sort right (tree_of cx.old.trees goal.rhs) (tree_of cx.old.trees left.to) }
    ensures concludes { IfOk result (λ n. Concludes cx.new n (statement_of cx.old.trees goal)) }
    ensures grows { Grows cx.old cx.new }
{
    match goal.rel {
        Rel::Eq => close_equation(cx, goal, left, right),
        Rel::Ne => unreachable!(),
        Rel::Lt => unreachable!(),
        Rel::Le => close_at_most(cx, goal, left, right),
        Rel::Dvd => unreachable!(),
    }
}

// the goal with other sides in the place of its own
#[tactic(auto, using(crate::proofs::EndFacts::end_facts))]
fn left_with(
    cx: &mut Builder,
    goal: Stmt,
    left: Rewriting,
    right: Rewriting,
) -> Result<Outcome, Memory>
    requires here { IsStatementIn cx.old.trees goal }
    requires sorted { IsStatement cx.old.theory.declarations (statement_of cx.old.trees goal) }
    requires left { Turns cx.old goal.sort left (tree_of cx.old.trees goal.lhs) (tree_of cx.old.trees left.to) }
    requires right { Turns cx.old goal.sort right (tree_of cx.old.trees goal.rhs) (tree_of cx.old.trees right.to) }
    requires small { nat_lt (2 ^ 20) (node_count (tree_of cx.old.trees left.to) + node_count (tree_of cx.old.trees right.to)) ≡ false }
    ensures leads { IfOk result (λ o. Leads cx.new o (statement_of cx.old.trees goal)) }
    ensures gives { IfOk result (λ o. Gives cx.new (Ok o) (Leaves (related goal.rel goal.sort (tree_of cx.old.trees left.to) (tree_of cx.old.trees right.to)))) }
    ensures grows { Grows cx.old cx.new }
{
    let outcome = leave(cx, goal, left, right)?;
    Ok(outcome)
}

/// Ends a goal whose sides are rewritten to other trees. It is closed where these are one tree and the relation is `=` or
/// `≤`. `NoChange` comes where they are its own sides, `TooLarge` where they have more than 2^20 nodes together, written
/// out. Else they are left in place of its own. Lines may be new, also after a fault.
pub fn end_with(
    cx: &mut Builder,
    goal: Stmt,
    left: Rewriting,
    right: Rewriting,
) -> Result<Outcome, TacFault>
    requires here { IsStatementIn cx.old.trees goal }
    requires sorted { IsStatement cx.old.theory.declarations (statement_of cx.old.trees goal) }
    requires left { Turns cx.old goal.sort left (tree_of cx.old.trees goal.lhs) (tree_of cx.old.trees left.to) }
    requires right { Turns cx.old goal.sort right (tree_of cx.old.trees goal.rhs) (tree_of cx.old.trees right.to) }
    ensures answer { Gives cx.new result (common_end (statement_of cx.old.trees goal) (tree_of cx.old.trees left.to) (tree_of cx.old.trees right.to)) }
    ensures leads { IfOk result (λ o. Leads cx.new o (statement_of cx.old.trees goal)) }
    ensures grows { Grows cx.old cx.new }
{
    if is_reflexive(goal.rel) && is_same(cx, left.to, right.to) {
        let line = closed(cx, goal, left, right)?;
        return Ok(Outcome::Closed { line });
    }
    if is_unchanged(cx, goal, left.to, right.to) {
        return Err(TacFault::NoChange);
    }
    if is_large(cx, left.to, right.to) {
        return Err(TacFault::TooLarge);
    }
    let outcome = left_with(cx, goal, left, right)?;
    Ok(outcome)
}
