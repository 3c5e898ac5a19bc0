ghost use Rattle.std.specs.Prelude.{◌≡◌, ℕ, ◌<◌, All, IfOk, Ok, length, get_or, map};
ghost use Rattle.alg_expr.specs.declared.ids.Stmt.{Stmt};
ghost use Rattle.alg_law.specs.Patterns.{letter_sort};
ghost use Rattle.alg_terms.specs.Tree.{Statement};
ghost use Rattle.alg_expr.specs.Ids.{trees_at, IsIn, statement_of, statements_of, IsStatementIn};
ghost use Rattle.alg_expr.specs.Arena.{Extends};
ghost use Rattle.alg_law.specs.LawRows.{pattern_of, row_of};
ghost use Rattle.alg_law.specs.Patterns.{fill_statement};
ghost use Rattle.alg_law.specs.WellSorted.{IsStatement};
ghost use Rattle.alg_proof.specs.Causes.{statement_same};
ghost use Rattle.alg_proof.specs.Instances.{letters_fit, premises_fit, sort_meets, sort_meets_all, class_meets, class_meets_all, premises_alike, instance_of};
ghost use Rattle.alg_kernel.specs.Answers.{IsJudged};

use crate::answers::Fault;
use crate::filling::{fill, sort_at};
use crate::letters::letters_of;
use crate::rules::same_statement;
use alg_expr::{Arena, ExprId, Memory, Sort, Stmt};
use alg_law::{Base, Law, Need, PatStmt, has};
use alg_terms::BadCause;

/// The conclusion of a row at a sort for these trees, from lines that are its premises.
pub(crate) fn instance(
    base: &Base,
    arena: &mut Arena,
    row: &Law,
    sort: Sort,
    with: &[ExprId],
    lines: &[Stmt],
) -> Result<Stmt, Fault>
    requires with_in { All (IsIn arena.old) with.now }
    requires lines_in { All (IsStatementIn arena.old) lines.now }
    requires sorted { (k : ℕ) (d : Stmt) → k < length lines.now → IsStatement base.now (statement_of arena.old (get_or lines.now k d)) }
    requires follows { (s : Statement) → instance_of base.now (row_of row.now) sort (trees_at arena.old with.now) (statements_of arena.old lines.now) ≡ Ok s → IsStatement base.now s }
    ensures keeps { Extends arena.old arena.new }
    ensures judged { IsJudged arena.new result (instance_of base.now (row_of row.now) sort (trees_at arena.old with.now) (statements_of arena.old lines.now)) }
{
    let found = letters_of(arena.alloc(), row)?;
    let letters = found.as_slice();
    if !letters_match(arena, sort, letters, with)
        || !premise_sorts_match(arena, sort, row.premises, lines)
        || !sort_allowed(sort, row.needs)
    {
        return Err(Fault::Bad(BadCause::Sort));
    }
    if !classes_there(base, sort, row.needs) {
        return Err(Fault::Bad(BadCause::NoInstance));
    }
    if !premises_hold(base, arena, letters, sort, with, row.premises, lines)? {
        return Err(Fault::Bad(BadCause::Shape));
    }
    match fill(arena, &row.conclusion, letters, sort, with)? {
        Some(s) => Ok(s),
        None => unreachable!(),
    }
}

fn letters_match(arena: &Arena, sort: Sort, letters: &[u8], with: &[ExprId]) -> bool
    requires { All (IsIn arena.now) with.now }
    ensures { result ≡ letters_fit sort letters.now (trees_at arena.now with.now) }
{
    if letters.len() != with.len() {
        return false;
    }
    let mut i: usize = 0;
    while i < letters.len() {
        if !arena.sort_of(with[i]).is(letter_sort(sort, letters[i])) {
            return false;
        }
        i += 1;
    }
    true
}

fn letter_sort(sort: Sort, letter: u8) -> Sort
    ensures { result ≡ letter_sort sort letter }
{
    if letter < 4 {
        sort
    } else if letter < 6 {
        Sort::Nat
    } else {
        Sort::Int
    }
}

fn premise_sorts_match(_arena: &Arena, sort: Sort, patterns: &[PatStmt], lines: &[Stmt]) -> bool
    ensures { result ≡ premises_fit sort (map pattern_of patterns.now) (statements_of _arena.now lines.now) }
{
    if patterns.len() != lines.len() {
        return false;
    }
    let mut i: usize = 0;
    while i < patterns.len() {
        if !lines[i].sort.is(sort_at(sort, patterns[i].sort)) {
            return false;
        }
        i += 1;
    }
    true
}

fn sort_allowed(sort: Sort, needs: &[Need]) -> bool
    ensures { result ≡ sort_meets_all sort needs.now }
{
    for need in needs {
        if !sort_serves(sort, *need) {
            return false;
        }
    }
    true
}

fn sort_serves(sort: Sort, need: Need) -> bool
    ensures { result ≡ sort_meets sort need }
{
    match need {
        Need::Class(_) => true,
        Need::IsNat => sort.is(Sort::Nat),
    }
}

fn classes_there(base: &Base, sort: Sort, needs: &[Need]) -> bool
    ensures { result ≡ class_meets_all base.now sort needs.now }
{
    for need in needs {
        if !class_there(base, sort, *need) {
            return false;
        }
    }
    true
}

fn class_there(base: &Base, sort: Sort, need: Need) -> bool
    ensures { result ≡ class_meets base.now sort need }
{
    match need {
        Need::Class(c) => has(base, sort, c),
        Need::IsNat => true,
    }
}

// whether a line is the premise with these trees for the letters
fn is_premise(
    base: &Base,
    arena: &mut Arena,
    letters: &[u8],
    sort: Sort,
    with: &[ExprId],
    pattern: &PatStmt,
    line: &Stmt,
) -> Result<bool, Memory>
    requires with_in { All (IsIn arena.old) with.now }
    requires line_in { IsStatementIn arena.old line.now }
    requires sorted { IsStatement base.now (statement_of arena.old line.now) }
    ensures keeps { Extends arena.old arena.new }
    ensures test { IfOk result (λ b. b ≡ statement_same (statement_of arena.old line.now) (fill_statement letters.now sort (trees_at arena.old with.now) (pattern_of pattern.now))) }
{
    match fill(arena, pattern, letters, sort, with)? {
        Some(s) => Ok(same_statement(arena, line, &s)),
        None => Ok(false),
    }
}

fn premises_hold(
    base: &Base,
    arena: &mut Arena,
    letters: &[u8],
    sort: Sort,
    with: &[ExprId],
    patterns: &[PatStmt],
    lines: &[Stmt],
) -> Result<bool, Memory>
    requires with_in { All (IsIn arena.old) with.now }
    requires lines_in { All (IsStatementIn arena.old) lines.now }
    requires sorted { (k : ℕ) (d : Stmt) → k < length lines.now → IsStatement base.now (statement_of arena.old (get_or lines.now k d)) }
    requires count { length patterns.now ≡ length lines.now }
    ensures keeps { Extends arena.old arena.new }
    ensures test { IfOk result (λ b. b ≡ premises_alike letters.now sort (trees_at arena.old with.now) (map pattern_of patterns.now) (statements_of arena.old lines.now)) }
{
    let mut i: usize = 0;
    while i < patterns.len() {
        if !is_premise(base, arena, letters, sort, with, &patterns[i], &lines[i])? {
            return Ok(false);
        }
        i += 1;
    }
    Ok(true)
}
