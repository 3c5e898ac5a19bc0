ghost use Rattle.std.specs.Prelude.{◌≡◌, All, IfOk, option_map};
ghost use Rattle.alg_expr.specs.Ids.{statement_of, statements_of, IsStatementIn};
ghost use Rattle.alg_expr.specs.Arena.{Extends};
ghost use Rattle.alg_law.specs.Marks.{HasMarks};
ghost use Rattle.alg_law.specs.declared.marks.Mark.TheVariants.{Good};
ghost use Rattle.alg_proof.specs.Lines.{step_of, IsLineIn};
ghost use Rattle.alg_proof.specs.Steps.{conclude_named, step_mark, compute_mark};
ghost use Rattle.alg_proof.specs.Admissible.{AllFine, IsTheory};
ghost use Rattle.alg_kernel.specs.Answers.{IsJudged};
ghost use Rattle.alg_kernel.specs.State.{theory_of, IsGivenIn};
ghost use Rattle.alg_law.specs.WellSorted.{worse, sort_mark, marks_of};
ghost use Rattle.alg_terms.specs.Tree.{of_list, Statement};
ghost use Rattle.alg_expr.specs.Ids.{trees_at, IsIn};
ghost use Rattle.alg_law.specs.Laws.{law_table};
ghost use Rattle.alg_proof.specs.LemmaRows.{rows_of};
ghost use Rattle.alg_proof.specs.Instances.{row_line};
ghost use Rattle.alg_law.specs.WellSorted.{IsStatement};
ghost use Rattle.std.specs.Prelude.{Ok, ℕ, ◌<◌, length, get_or};
ghost use Rattle.alg_proof.specs.Causes.{or_cause, line_at, statements_at};
ghost use Rattle.alg_terms.specs.declared.causes.BadCause.TheVariants as cause;
ghost use Rattle.alg_proof.specs.Steps.{cong_of, trans_of, subst_of};

use crate::answers::Fault;
use crate::bridges::bridge;
use crate::computations::computation;
use crate::congruence::{cong, name_of, premises};
use crate::grounds::Grounds;
use crate::hypotheses::hypothesis;
use crate::instances::instance;
use crate::relations::relation;
use crate::rules::{earlier, equation, product, subst, sum, symm, trans};
use alg_expr::{Arena, ExprId, Memory, Sort, Stmt, Sym};
use alg_law::{Base, Mark, mark_for, mark_for_sort, worse_of};
use alg_proof::{ComputeHead, Line, RowName};
use alg_terms::BadCause;

/// The mark of the names, sorts and trees that the line itself names.
pub(crate) fn first_look(
    marks: &mut Vec<Mark>,
    base: &Base,
    arena: &Arena,
    line: &Line,
) -> Result<Mark, Memory>
    requires marked { HasMarks base.now arena.now marks.old.items }
    requires line_in { IsLineIn arena.now line.now }
    ensures ok { IfOk result (λ m. m ≡ step_mark base.now (step_of arena.now line.now)) }
    ensures marked { HasMarks base.now arena.now marks.new.items }
{
    match line {
        Line::Refl(e) => mark_for(marks, base, arena, *e),
        Line::Symm(_) => Ok(Mark::Good),
        Line::Trans(_, _) => Ok(Mark::Good),
        Line::Cong(sym, _) => Ok(name_of(base, *sym)),
        Line::Subst(_, _, _) => Ok(Mark::Good),
        Line::Law(_, sort, with, _) => over_trees(marks, base, arena, *sort, with.as_slice()),
        Line::Lemma(_, sort, with, _) => over_trees(marks, base, arena, *sort, with.as_slice()),
        Line::Hyp(_) => Ok(Mark::Good),
        Line::Rest => Ok(Mark::Good),
        Line::LitAdd(sort, _, _) => Ok(mark_for_sort(base, *sort)),
        Line::LitMul(sort, _, _) => Ok(mark_for_sort(base, *sort)),
        Line::LitRel(_, sort, _, _) => Ok(mark_for_sort(base, *sort)),
        Line::Bridge(_, _, e) => mark_for(marks, base, arena, *e),
        Line::Compute(head, sort, _) => Ok(worse_of(
            name_of_head(base, *head),
            mark_for_sort(base, *sort),
        )),
    }
}

// a bad name where a declared function isn't there
fn name_of_head(base: &Base, head: ComputeHead) -> Mark
    ensures { result ≡ compute_mark base.now head }
{
    match head {
        ComputeHead::Named(sym) => name_of(base, sym),
        ComputeHead::Dvd => Mark::Good,
    }
}

// the mark of a sort and of trees
fn over_trees(
    marks: &mut Vec<Mark>,
    base: &Base,
    arena: &Arena,
    sort: Sort,
    with: &[ExprId],
) -> Result<Mark, Memory>
    requires marked { HasMarks base.now arena.now marks.old.items }
    requires with_in { All (IsIn arena.now) with.now }
    ensures ok { IfOk result (λ m. m ≡ worse (sort_mark base.now sort) (marks_of base.now (of_list (trees_at arena.now with.now)))) }
    ensures marked { HasMarks base.now arena.now marks.new.items }
{
    let trees = marks_for(marks, base, arena, with)?;
    Ok(worse_of(mark_for_sort(base, sort), trees))
}

// the first cause over these trees
fn marks_for(
    marks: &mut Vec<Mark>,
    base: &Base,
    arena: &Arena,
    with: &[ExprId],
) -> Result<Mark, Memory>
    requires marked { HasMarks base.now arena.now marks.old.items }
    requires with_in { All (IsIn arena.now) with.now }
    ensures ok { IfOk result (λ m. m ≡ marks_of base.now (of_list (trees_at arena.now with.now))) }
    ensures marked { HasMarks base.now arena.now marks.new.items }
{
    let mut i = with.len();
    let mut worst = Mark::Good;
    while i > 0 {
        i -= 1;
        worst = worse_of(mark_for(marks, base, arena, with[i])?, worst);
    }
    Ok(worst)
}

/// What a line concludes after the first look.
pub(crate) fn judge(
    grounds: &Grounds<'_>,
    arena: &mut Arena,
    done: &[Stmt],
    line: &Line,
) -> Result<Stmt, Fault>
    requires given { IsGivenIn grounds.now.base.now arena.old grounds.now.given }
    requires theory { IsTheory (theory_of arena.old grounds.now) }
    requires done_in { All (IsStatementIn arena.old) done.now }
    requires fine { AllFine grounds.now.base.now (option_map (statement_of arena.old) grounds.now.given) (statements_of arena.old done.now) }
    requires line_in { IsLineIn arena.old line.now }
    requires marked { step_mark grounds.now.base.now (step_of arena.old line.now) ≡ Good }
    ensures keeps { Extends arena.old arena.new }
    ensures judged { IsJudged arena.new result (conclude_named (theory_of arena.old grounds.now) (statements_of arena.old done.now) (step_of arena.old line.now)) }
{
    let base = grounds.base;
    match line {
        Line::Refl(e) => Ok(equation(arena, *e, *e)),
        Line::Symm(i) => symm(arena, &earlier(arena, done, *i)?),
        Line::Trans(i, j) => trans_line(arena, done, *i, *j),
        Line::Cong(sym, parts) => cong_line(grounds, arena, done, *sym, parts.as_slice()),
        Line::Subst(i, j, k) => subst_line(arena, done, *i, *j, *k),
        Line::Law(name, sort, with, from) => {
            law_line(
                grounds,
                arena,
                done,
                name,
                *sort,
                with.as_slice(),
                from.as_slice(),
            )
        }
        Line::Lemma(name, sort, with, from) => {
            lemma_line(
                grounds,
                arena,
                done,
                name,
                *sort,
                with.as_slice(),
                from.as_slice(),
            )
        }
        Line::Hyp(n) => hypothesis(base, arena, *n),
        Line::Rest => rest_line(grounds, arena),
        Line::LitAdd(sort, m, n) => sum(base, arena, *sort, *m, *n),
        Line::LitMul(sort, m, n) => product(base, arena, *sort, *m, *n),
        Line::LitRel(rel, sort, m, n) => relation(base, arena, *rel, *sort, *m, *n),
        Line::Bridge(kind, n, e) => bridge(base, arena, *kind, *n, *e),
        Line::Compute(head, sort, numbers) => computation(
            base,
            arena,
            *head,
            *sort,
            numbers.as_slice(),
        ),
    }
}

fn trans_line(arena: &Arena, done: &[Stmt], i: u128, j: u128) -> Result<Stmt, Fault>
    requires { All (IsStatementIn arena.now) done.now }
    ensures { IsJudged arena.now result (or_cause (line_at (statements_of arena.now done.now) i) cause.Reference (λ a. or_cause (line_at (statements_of arena.now done.now) j) cause.Reference (trans_of a))) }
{
    let a = earlier(arena, done, i)?;
    let b = earlier(arena, done, j)?;
    trans(arena, &a, &b)
}

fn subst_line(arena: &Arena, done: &[Stmt], i: u128, j: u128, k: u128) -> Result<Stmt, Fault>
    requires { All (IsStatementIn arena.now) done.now }
    ensures { IsJudged arena.now result (or_cause (line_at (statements_of arena.now done.now) i) cause.Reference (λ a. or_cause (line_at (statements_of arena.now done.now) j) cause.Reference (λ b. or_cause (line_at (statements_of arena.now done.now) k) cause.Reference (subst_of a b)))) }
{
    let a = earlier(arena, done, i)?;
    let b = earlier(arena, done, j)?;
    let c = earlier(arena, done, k)?;
    subst(arena, &a, &b, &c)
}

fn cong_line(
    grounds: &Grounds<'_>,
    arena: &mut Arena,
    done: &[Stmt],
    sym: Sym,
    from: &[u128],
) -> Result<Stmt, Fault>
    requires done_in { All (IsStatementIn arena.old) done.now }
    requires fine { AllFine grounds.now.base.now (option_map (statement_of arena.old) grounds.now.given) (statements_of arena.old done.now) }
    ensures keeps { Extends arena.old arena.new }
    ensures judged { IsJudged arena.new result (or_cause (statements_at (statements_of arena.old done.now) from.now) cause.Reference (cong_of grounds.now.base.now sym)) }
{
    let parts = premises(arena, done, from)?;
    cong(grounds.base, arena, sym, &parts)
}

fn rest_line(grounds: &Grounds<'_>, _arena: &Arena) -> Result<Stmt, Fault>
    requires { IsGivenIn grounds.now.base.now _arena.now grounds.now.given }
    ensures { IsJudged _arena.now result (or_cause (option_map (statement_of _arena.now) grounds.now.given) cause.Reference Ok) }
{
    match grounds.given {
        Some(s) => Ok(s),
        None => Err(Fault::Bad(BadCause::Reference)),
    }
}

fn law_line(
    grounds: &Grounds<'_>,
    arena: &mut Arena,
    done: &[Stmt],
    name: &RowName,
    sort: Sort,
    with: &[ExprId],
    from: &[u128],
) -> Result<Stmt, Fault>
    requires done_in { All (IsStatementIn arena.old) done.now }
    requires fine { AllFine grounds.now.base.now (option_map (statement_of arena.old) grounds.now.given) (statements_of arena.old done.now) }
    requires with_in { All (IsIn arena.old) with.now }
    requires follows { (s : Statement) → row_line grounds.now.base.now law_table (statements_of arena.old done.now) name.now sort (trees_at arena.old with.now) from.now ≡ Ok s → IsStatement grounds.now.base.now s }
    ensures keeps { Extends arena.old arena.new }
    ensures judged { IsJudged arena.new result (row_line grounds.now.base.now law_table (statements_of arena.old done.now) name.now sort (trees_at arena.old with.now) from.now) }
{
    let lines = premises(arena, done, from)?;
    match grounds.lemmas.law(name) {
        Some(law) => instance(grounds.base, arena, law, sort, with, &lines),
        None => Err(Fault::Bad(BadCause::Name)),
    }
}

fn lemma_line(
    grounds: &Grounds<'_>,
    arena: &mut Arena,
    done: &[Stmt],
    name: &RowName,
    sort: Sort,
    with: &[ExprId],
    from: &[u128],
) -> Result<Stmt, Fault>
    requires done_in { All (IsStatementIn arena.old) done.now }
    requires fine { AllFine grounds.now.base.now (option_map (statement_of arena.old) grounds.now.given) (statements_of arena.old done.now) }
    requires with_in { All (IsIn arena.old) with.now }
    requires follows { (s : Statement) → row_line grounds.now.base.now (rows_of grounds.now.lemmas.now) (statements_of arena.old done.now) name.now sort (trees_at arena.old with.now) from.now ≡ Ok s → IsStatement grounds.now.base.now s }
    ensures keeps { Extends arena.old arena.new }
    ensures judged { IsJudged arena.new result (row_line grounds.now.base.now (rows_of grounds.now.lemmas.now) (statements_of arena.old done.now) name.now sort (trees_at arena.old with.now) from.now) }
{
    let lines = premises(arena, done, from)?;
    match grounds.lemmas.get(name) {
        Some(lemma) => instance(grounds.base, arena, &lemma.row, sort, with, &lines),
        None => Err(Fault::Bad(BadCause::Name)),
    }
}
