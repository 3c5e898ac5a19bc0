ghost use Rattle.std.specs.Prelude.{◌≡◌, ◌≤◌, ◌^◌, [], ◌∷◌, ℕ, List, length, All, IfOk, Ok, option_map};
ghost use Rattle.alg_terms.specs.Tree.{Statement};
ghost use Rattle.alg_terms.specs.declared.relations.Rel.{Rel as Rels};
ghost use Rattle.alg_expr.specs.Arena.{Extends};
ghost use Rattle.alg_expr.specs.Ids.{IsIn, IsStatementIn, trees_at, tree_of, statement_of};
ghost use Rattle.alg_law.specs.WellSorted.{IsStatement};
ghost use Rattle.alg_certificate.specs.Spelling.{StatementHasSpelling, given_bytes, bytes, spell_all};
ghost use Rattle.alg_certificate.specs.Words.{sort_bytes};
ghost use Rattle.alg_certificate_lines.specs.Given.{classed, sorted, over_sides, given_read, given_cut, sides, Gives};
ghost use Rattle.alg_certificate_lines.specs.Steps.{all_good};

use crate::building::{read_trees, split_ids};
use crate::faults::LineFault;
use crate::known::has_sort;
use crate::words::{relation_named, sort_named};
use alg_certificate::bytes::after;
use alg_certificate::tokens::cut_word;
use alg_expr::{Arena, ExprId, Rel, Sort, Stmt};
use alg_law::{Base, relates};

// The relation, the word of the sort, and the text of the trees.
fn cut_given(text: &[u8]) -> Option<(Rel, &[u8], &[u8])>
    ensures { option_map {U = Rels × List ℕ × List ℕ} (λ x. (x.0, x.1.now, x.2.now)) result ≡ given_cut text.now }
{
    let rest = after(b"given ", text)?;
    let (word, rest) = cut_word(rest)?;
    let rel = relation_named(word)?;
    let rest = after(b" ", rest)?;
    let (sort, trees) = cut_word(rest)?;
    Some((rel, sort, trees))
}

// The flag tells whether both sides have all their classes.
fn judge_classes(
    base: &Base,
    _arena: &Arena,
    stmt: Stmt,
    have_classes: bool,
) -> Result<Stmt, LineFault>
    requires here { IsStatementIn _arena.now stmt }
    requires classes { have_classes ≡ all_good base.now (tree_of _arena.now stmt.lhs ∷ tree_of _arena.now stmt.rhs ∷ []) }
    ensures { Gives _arena.now (classed base.now (statement_of _arena.now stmt)) result }
{
    if have_classes && relates(base, stmt.rel, stmt.sort) {
        Ok(stmt)
    } else {
        Err(LineFault::NoInstance)
    }
}

fn judge_sorts(
    base: &Base,
    arena: &Arena,
    stmt: Stmt,
    have_classes: bool,
) -> Result<Stmt, LineFault>
    requires here { IsStatementIn arena.now stmt }
    requires classes { have_classes ≡ all_good base.now (tree_of arena.now stmt.lhs ∷ tree_of arena.now stmt.rhs ∷ []) }
    ensures { Gives arena.now (sorted base.now (statement_of arena.now stmt)) result }
{
    if arena.sort_of(stmt.lhs).is(stmt.sort) && arena.sort_of(stmt.rhs).is(stmt.sort) {
        judge_classes(base, arena, stmt, have_classes)
    } else {
        Err(LineFault::BadSort)
    }
}

fn judge_sides(
    base: &Base,
    arena: &Arena,
    rel: Rel,
    sort: Sort,
    ids: &[ExprId],
    have_classes: bool,
) -> Result<Stmt, LineFault>
    requires here { All (IsIn arena.now) ids.now }
    requires classes { have_classes ≡ all_good base.now (trees_at arena.now ids.now) }
    ensures { Gives arena.now (over_sides base.now rel sort (trees_at arena.now ids.now)) result }
{
    let Some((lhs, rest)) = split_ids(ids) else {
        return Err(LineFault::BadSort);
    };
    let Some((rhs, more)) = split_ids(rest) else {
        return Err(LineFault::BadSort);
    };
    if !more.is_empty() {
        return Err(LineFault::BadSort);
    }
    judge_sorts(
        base,
        arena,
        Stmt {
            rel,
            sort,
            lhs,
            rhs,
        },
        have_classes,
    )
}

fn read_given(
    arena: &mut Arena,
    base: &Base,
    rel: Rel,
    word: &[u8],
    trees: &[u8],
) -> Result<Stmt, LineFault>
    ensures keeps { Extends arena.old arena.new }
    ensures here { IfOk result (λ x. IsStatementIn arena.new x) }
    ensures sorted { IfOk result (λ x. IsStatement base.now (statement_of arena.new x)) }
    ensures gives { (s : Statement) → StatementHasSpelling s → rel ≡ s.rel → sort_bytes s.sort ≡ word.now → bytes (spell_all (sides s)) ≡ trees.now → Gives arena.new (given_read base.now s) result }
{
    if !has_sort(base, word) {
        return Err(LineFault::BadName);
    }
    let Some(sort) = sort_named(word) else {
        return Err(LineFault::BadName);
    };
    match read_trees(arena, base, trees) {
        Ok((ids, have_classes)) => {
            judge_sides(base, arena, rel, sort, ids.as_slice(), have_classes)
        }
        Err(fault) => Err(fault),
    }
}

/// Reads the text of a given statement's line, as `CertReader` gives it, into the arena. The variables and declared
/// functions have the sorts that the base gives them. The first cause is looked for in the whole line before the
/// next one: a number that the base hasn't, sorts that don't fit, a class that is missing. What `write_given` wrote of
/// a well sorted statement is read as that statement. The arena only grows, also before a fault.
pub fn build_given(arena: &mut Arena, base: &Base, text: &[u8]) -> Result<Stmt, LineFault>
    ensures keeps { Extends arena.old arena.new }
    ensures here { IfOk result (λ x. IsStatementIn arena.new x) }
    ensures sorted { IfOk result (λ x. IsStatement base.now (statement_of arena.new x)) }
    ensures gives { (s : Statement) → StatementHasSpelling s → given_bytes s ≡ text.now → Gives arena.new (given_read base.now s) result }
    ensures back { (s : Statement) → length base.now ≤ 2 ^ 32 → IsStatement base.now s → StatementHasSpelling s → given_bytes s ≡ text.now → Gives arena.new (Ok s) result }
{
    match cut_given(text) {
        Some((rel, word, trees)) => read_given(arena, base, rel, word, trees),
        None => Err(LineFault::BadName),
    }
}
