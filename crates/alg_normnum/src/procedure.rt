ghost use Rattle.std.specs.Prelude.{◌≡◌, ◌↔◌, ◌||◌, Bool, IfOk, IsFalse, IsTrue, OnErr, false, get_or, length, true};
ghost use Rattle.alg_terms.specs.declared.symbols.Sym.{Sym as SymKind};
ghost use Rattle.alg_expr.specs.Ids.{tree_of, statement_of, IsStatementIn};
ghost use Rattle.alg_law.specs.WellSorted.{IsStatement};
ghost use Rattle.alg_lemma.specs.Library.{HoldsLibrary};
ghost use Rattle.alg_build.specs.Answer.{Gives, Leads};
ghost use Rattle.alg_build.specs.Book.{Grows, LeavesLines};
ghost use Rattle.alg_exts.specs.Covers.{covered_by};
ghost use Rattle.alg_evaluation.specs.Found.{AreFound, IsFound};
ghost use Rattle.alg_normnum.specs.Answer.{norm_num_answer};
ghost use Rattle.alg_normnum.specs.Sides.{AreSides, IsGoal};

use crate::deciding::by_values;
use alg_build::{Builder, Memory, Outcome, TacFault};
use alg_ends::end_with;
use alg_evaluation::{Found, Kind, all_found, found_of};
use alg_expr::Stmt;
use alg_exts::{Exts, NumExt};
use alg_marks::marked;

/// Evaluates the numerical expressions of a goal, by the extensions that are on.
///
/// `OutOfRange` comes exactly where an operation on values, or the comparison of the values of both sides by `≠`, `<` or
/// `≤`, computes a number above 2^127 - 1 in absolute value. Where both sides have values, the goal is closed if its
/// relation holds between them, and `GoalFalse` comes if it doesn't, both only where the classes of the sort tell. Else
/// every largest part that has a value becomes its numeral, also inside arguments and exponents: the goal is closed where
/// its sides are then one tree and the relation is `=` or `≤`, `NoChange` comes where they are the old ones, `TooLarge`
/// where they have more than 2^20 nodes together, and else they are left. After any fault the lines are as before.
#[tactic(auto, using(crate::proofs::Ending::ending))]
pub fn norm_num(cx: &mut Builder, goal: Stmt, exts: &Exts<'_>) -> Result<Outcome, TacFault>
    requires here { IsStatementIn cx.old.trees goal }
    requires sorted { IsStatement cx.old.theory.declarations (statement_of cx.old.trees goal) }
    requires lemmas { HoldsLibrary cx.old.theory.lemmas }
    requires even { length exts.now.num_on.now ≡ length exts.now.num.now }
    ensures answer { Gives cx.new result (norm_num_answer (covered_by (λ x f. (⟦<dyn NumExt as NumExt>⟧ x.vtable).covered x.value f) exts.now.num.now exts.now.num_on.now) cx.old.theory.declarations (statement_of cx.old.trees goal)) }
    ensures leads { IfOk result (λ o. Leads cx.new o (statement_of cx.old.trees goal)) }
    ensures grows { Grows cx.old cx.new }
    ensures leaves { OnErr result (LeavesLines cx.old cx.new) }
{
    let mark = cx.mark();
    match attempted(cx, goal, exts.num, exts.num_on) {
        Ok(outcome) => Ok(outcome),
        Err(fault) => {
            cx.back_to(mark);
            Err(fault)
        }
    }
}

// the answer, with lines that stay after a fault
#[tactic(auto, using(crate::proofs::Ending::ending))]
fn attempted(
    cx: &mut Builder,
    goal: Stmt,
    exts: &[Box<dyn NumExt>],
    on: &[bool],
) -> Result<Outcome, TacFault>
    requires goal { IsGoal cx.old goal }
    requires even { length on.now ≡ length exts.now }
    ensures answer { Gives cx.new result (norm_num_answer (covered_by (λ x f. covered x f) exts.now on.now) cx.old.theory.declarations (statement_of cx.old.trees goal)) }
    ensures leads { IfOk result (λ o. Leads cx.new o (statement_of cx.old.trees goal)) }
    ensures grows { Grows cx.old cx.new }
{
    let sides = sides_of(cx, goal, exts, on)?;
    ended(cx, goal, sides.left, sides.right)
}

// What is found of the sides of a goal.
#[derive(Clone, Copy, Drop)]
struct Sides {
    left: Found,
    right: Found,
}

fn sides_of(
    cx: &mut Builder,
    goal: Stmt,
    exts: &[Box<dyn NumExt>],
    on: &[bool],
) -> Result<Sides, Memory>
    requires goal { IsGoal cx.old goal }
    requires even { length on.now ≡ length exts.now }
    ensures sides { IfOk result (λ s. AreSides (covered_by (λ x f. covered x f) exts.now on.now) cx.new goal s.left s.right) }
    ensures grows { Grows cx.old cx.new }
{
    let wanted = marked(cx, goal.lhs, goal.rhs)?;
    let marks = wanted.as_slice();
    let found = all_found(cx, marks, exts, on)?;
    let values = found.as_slice();
    Ok(sides_among(cx, goal, marks, values))
}

// of all that is found
fn sides_among(cx: &Builder, goal: Stmt, wanted: &[bool], found: &[Found]) -> Sides
    requires found { (covers : SymKind → Bool) × AreFound covers cx.now wanted.now found.now }
    requires all { length found.now ≡ length wanted.now }
    requires left { get_or wanted.now goal.lhs.index false ≡ true }
    requires right { get_or wanted.now goal.rhs.index false ≡ true }
    ensures left { (covers : SymKind → Bool) → AreFound covers cx.now wanted.now found.now → IsFound covers cx.now (tree_of cx.now.trees goal.lhs) result.left }
    ensures right { (covers : SymKind → Bool) → AreFound covers cx.now wanted.now found.now → IsFound covers cx.now (tree_of cx.now.trees goal.rhs) result.right }
{
    let left = found_of(cx, wanted, found, goal.lhs);
    let right = found_of(cx, wanted, found, goal.rhs);
    Sides { left, right }
}

fn is_number(kind: Kind) -> bool
    ensures { IsTrue result ↔ (kind ≡ Kind.Num) }
{
    matches!(kind, Kind::Num)
}

fn are_numbers(left: &Found, right: &Found) -> bool
    ensures yes { IsTrue result → (left.now.kind ≡ Kind.Num) × (right.now.kind ≡ Kind.Num) }
    ensures no { IsFalse result → left.now.kind ≡ Kind.Num → right.now.kind ≡ Kind.Num → ⊥ }
{
    is_number(left.kind) && is_number(right.kind)
}

fn have_past(left: &Found, right: &Found) -> bool
    ensures { result ≡ (left.now.past || right.now.past) }
{
    left.past || right.past
}

// what is answered to a goal of whose sides it is found
#[tactic(auto, using(crate::proofs::Ending::ending))]
fn ended(cx: &mut Builder, goal: Stmt, left: Found, right: Found) -> Result<Outcome, TacFault>
    requires { (covers : SymKind → Bool) × AreSides covers cx.old goal left right }
    ensures answer { (covers : SymKind → Bool) → AreSides covers cx.old goal left right → Gives cx.new result (norm_num_answer covers cx.old.theory.declarations (statement_of cx.old.trees goal)) }
    ensures leads { IfOk result (λ o. Leads cx.new o (statement_of cx.old.trees goal)) }
    ensures grows { Grows cx.old cx.new }
{
    if have_past(&left, &right) {
        return Err(TacFault::OutOfRange);
    }
    if are_numbers(&left, &right) {
        return by_values(cx, goal, left, right);
    }
    end_with(cx, goal, left.shown, right.shown)
}
