ghost use Rattle.std.specs.Prelude.{◌≡◌, All, length, IfOk, true};
ghost use Rattle.alg_terms.specs.Tree.{App, of_list, equal};
ghost use Rattle.alg_expr.specs.Ids.{IsIn, trees_at, statement_of, statements_of, IsStatementIn};
ghost use Rattle.alg_expr.specs.Arena.{Extends};
ghost use Rattle.alg_expr.specs.Applying.{arity_fits, sorts_fit, sorts_at};
ghost use Rattle.alg_proof.specs.Causes.{statements_at};
ghost use Rattle.alg_proof.specs.Steps.{all_equations, cong_of, name_mark};
ghost use Rattle.alg_proof.specs.Steps.{left_sides, right_sides};
ghost use Rattle.alg_law.specs.WellSorted.{sorts_of};
ghost use Rattle.alg_kernel.specs.Answers.{IsJudged, AreFound};
ghost use Rattle.alg_kernel.specs.Sides.{left_ids, right_ids};

use crate::answers::{Fault, pass};
use crate::rules::{build, earlier, equation, is_equation};
use alg_expr::{Arena, ExprId, Memory, Sort, Stmt, Sym};
use alg_law::{Base, Mark, mark_for_head};
use alg_proof::value_sort;
use alg_terms::BadCause;
use smallvec::SmallVec;

/// A bad name where a declared function isn't there.
pub(crate) fn name_of(base: &Base, sym: Sym) -> Mark
    ensures { result ≡ name_mark base.now sym }
{
    match sym {
        Sym::Apply(k) => match base.function(k) {
            None => Mark::BadName,
            Some(_) => Mark::Good,
        },
        _ => Mark::Good,
    }
}

/// What earlier lines conclude: two of them stand in place, as most rows have no more.
pub(crate) fn premises(
    arena: &Arena,
    done: &[Stmt],
    lines: &[u128],
) -> Result<SmallVec<Stmt, 2>, Fault>
    requires { All (IsStatementIn arena.now) done.now }
    ensures { AreFound arena.now result (statements_at (statements_of arena.now done.now) lines.now) }
{
    let mut found: SmallVec<Stmt, 2> = SmallVec::new(arena.alloc());
    for line in lines {
        let s = earlier(arena, done, *line)?;
        found.push(s)?;
    }
    Ok(found)
}

/// `f(a..) = f(b..)`, from `a = b` for each argument.
pub(crate) fn cong(base: &Base, arena: &mut Arena, sym: Sym, parts: &[Stmt]) -> Result<Stmt, Fault>
    requires here { All (IsStatementIn arena.old) parts.now }
    requires sorts { sorts_of (right_sides (statements_of arena.old parts.now)) ≡ sorts_of (left_sides (statements_of arena.old parts.now)) }
    ensures keeps { Extends arena.old arena.new }
    ensures judged { IsJudged arena.new result (cong_of base.now sym (statements_of arena.old parts.now)) }
{
    let lefts = lefts_of(arena, parts)?;
    let rights = rights_of(arena, parts)?;
    over_sides(base, arena, sym, parts, lefts.as_slice(), rights.as_slice())
}

// the same, with the ids of both sides of the premises
fn over_sides(
    base: &Base,
    arena: &mut Arena,
    sym: Sym,
    parts: &[Stmt],
    lefts: &[ExprId],
    rights: &[ExprId],
) -> Result<Stmt, Fault>
    requires here { All (IsStatementIn arena.old) parts.now }
    requires sorts { sorts_of (right_sides (statements_of arena.old parts.now)) ≡ sorts_of (left_sides (statements_of arena.old parts.now)) }
    requires left_ids { lefts.now ≡ left_ids parts.now }
    requires right_ids { rights.now ≡ right_ids parts.now }
    ensures keeps { Extends arena.old arena.new }
    ensures judged { IsJudged arena.new result (cong_of base.now sym (statements_of arena.old parts.now)) }
{
    match value_sort(base, arena, sym, lefts) {
        None => Err(Fault::Bad(BadCause::Sort)),
        Some(sort) => {
            pass(mark_for_head(base, arena, sym, sort, lefts))?;
            if !are_equations(arena, parts) {
                return Err(Fault::Bad(BadCause::Shape));
            }
            Ok(both(arena, sym, sort, lefts, rights)?)
        }
    }
}

// the equation of a symbol over these trees with the same symbol over those
fn both(
    arena: &mut Arena,
    sym: Sym,
    sort: Sort,
    lefts: &[ExprId],
    rights: &[ExprId],
) -> Result<Stmt, Memory>
    requires left_in { All (IsIn arena.old) lefts.now }
    requires right_in { All (IsIn arena.old) rights.now }
    requires left_arity { arity_fits sym (length lefts.now) ≡ true }
    requires right_arity { arity_fits sym (length rights.now) ≡ true }
    requires left_sorts { sorts_fit sym sort (sorts_at arena.old lefts.now) ≡ true }
    requires right_sorts { sorts_fit sym sort (sorts_at arena.old rights.now) ≡ true }
    ensures keeps { Extends arena.old arena.new }
    ensures here { IfOk result (λ s. IsStatementIn arena.new s) }
    ensures equation { IfOk result (λ s. statement_of arena.new s ≡ equal (App sym sort (of_list (trees_at arena.old lefts.now))) (App sym sort (of_list (trees_at arena.old rights.now)))) }
{
    let lhs = build(arena, sym, sort, lefts)?;
    let rhs = build(arena, sym, sort, rights)?;
    Ok(equation(arena, lhs, rhs))
}

fn lefts_of(arena: &Arena, parts: &[Stmt]) -> Result<SmallVec<ExprId, 4>, Memory>
    ensures { IfOk result (λ v. v.items ≡ left_ids parts.now) }
{
    let mut ids: SmallVec<ExprId, 4> = SmallVec::with_capacity(arena.alloc(), parts.len())?;
    for part in parts {
        ids.push(part.lhs)?;
    }
    Ok(ids)
}

fn rights_of(arena: &Arena, parts: &[Stmt]) -> Result<SmallVec<ExprId, 4>, Memory>
    ensures { IfOk result (λ v. v.items ≡ right_ids parts.now) }
{
    let mut ids: SmallVec<ExprId, 4> = SmallVec::with_capacity(arena.alloc(), parts.len())?;
    for part in parts {
        ids.push(part.rhs)?;
    }
    Ok(ids)
}

fn are_equations(_arena: &Arena, parts: &[Stmt]) -> bool
    ensures { result ≡ all_equations (statements_of _arena.now parts.now) }
{
    for part in parts {
        if !is_equation(part) {
            return false;
        }
    }
    true
}
