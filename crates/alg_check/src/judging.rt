ghost use Rattle.std.specs.Prelude.{◌≡◌, ◌+◌, ◌≤◌, ◌^◌, ◌↔◌, List, IfOk, IsTrue, option_map};
ghost use Rattle.alg_expr.specs.Arena.{Extends};
ghost use Rattle.alg_expr.specs.Ids.{statement_of, tree_of, IsStatementIn};
ghost use Rattle.alg_terms.specs.Tree.{Statement, node_count};
ghost use Rattle.alg_proof.specs.LemmaRows.{rows_of};
ghost use Rattle.alg_proof.specs.Steps.{Step};
ghost use Rattle.alg_proof.specs.Valid.{Verdict};
ghost use Rattle.alg_certificate.specs.Spelling.{StatementHasSpelling, given_bytes};
ghost use Rattle.alg_kernel.specs.Answers.{GivesVerdict};
ghost use Rattle.alg_kernel.specs.State.{IsGivenIn};
ghost use Rattle.alg_check.specs.Entries.{Entry, EntryHasSpelling};
ghost use Rattle.alg_check.specs.Following.{Spell};
ghost use Rattle.alg_check.specs.Judging.{acceptance, of_verdict, if_small, if_given, answer_over, answer_to};
ghost use Rattle.alg_check.specs.Meant.{meant_statement};
ghost use Rattle.alg_check.specs.Opened.{IsOpenGoal, goal_seen};
ghost use Rattle.alg_check.specs.Written.{seen, seen_entry, texts_of};

use crate::answers::Answer;
use crate::entries::Written;
use crate::following::prove;
use crate::goals::Goal;
use crate::lines::build_given;
use alg_certificate_lines::faults::LineFault;
use alg_expr::{Arena, Memory, Stmt, Text};
use alg_kernel::{Checked, Refusal};
use alg_law::Base;
use alg_parse::FileTree;
use alg_proof::Lemmas;
use alg_show::show;
use std::alloc::Global;

fn acceptance(given: Option<Text>) -> Answer
    ensures { result ≡ acceptance given }
{
    match given {
        None => Answer::Accepted,
        Some(text) => Answer::AcceptedFrom(text),
    }
}

fn answer_of(checked: Result<Checked, Refusal>, given: Option<Text>) -> Result<Answer, Memory>
    ensures { (v : Verdict) → GivesVerdict checked v → IfOk result (λ a. a ≡ of_verdict given v) }
{
    match checked {
        Ok(_) => Ok(acceptance(given)),
        Err(Refusal::Bad { line, cause }) => Ok(Answer::BadLine { line, cause }),
        Err(Refusal::WrongEnd) => Ok(Answer::WrongEnd),
        Err(Refusal::Memory) => Err(Memory),
    }
}

const MOST_NODES: u64 = 1 << 20;

fn is_small(arena: &Arena, stmt: Stmt) -> bool
    requires { IsStatementIn arena.now stmt }
    ensures { IsTrue result ↔ node_count (tree_of arena.now stmt.lhs) + node_count (tree_of arena.now stmt.rhs) ≤ 2 ^ 20 }
{
    let left = arena.size(stmt.lhs);
    let right = arena.size(stmt.rhs);
    left <= MOST_NODES && right <= MOST_NODES && left + right <= MOST_NODES
}

// The given statement of a text, where it is a statement of the base that isn't too long.
fn read_given(arena: &mut Arena, base: &Base, text: &[u8]) -> Result<Option<Stmt>, Memory>
    ensures keeps { Extends arena.old arena.new }
    ensures here { IfOk result (IsGivenIn base.now arena.new) }
    ensures reads { (s : Statement) → StatementHasSpelling s → given_bytes s ≡ text.now → IfOk result (λ o. if_small (meant_statement base.now s) ≡ option_map (statement_of arena.new) o) }
{
    match build_given(arena, base, text) {
        Ok(stmt) => if is_small(arena, stmt) {
            Ok(Some(stmt))
        } else {
            Ok(None)
        },
        Err(LineFault::Memory) => Err(Memory),
        Err(_) => Ok(None),
    }
}

// The answer to a proof that takes a statement as given.
fn judge_from(
    alloc: Global,
    lemmas: &Lemmas,
    base: &Base,
    arena: &mut Arena,
    goal: Stmt,
    given: &[u8],
    proof: &[&[u8]],
) -> Result<Answer, Memory>
    requires { IsStatementIn arena.old goal }
    ensures { (s : Statement) (ls : List Step) → StatementHasSpelling s → given_bytes s ≡ given.now → Spell ls (seen proof.now) → IfOk result (λ a. a ≡ if_given (rows_of lemmas.now) base.now (statement_of arena.old goal) ls (if_small (meant_statement base.now s))) }
{
    let Some(given) = read_given(arena, base, given)? else {
        return Ok(Answer::BadGiven);
    };
    let text = show(alloc, base, arena, given)?;
    let checked = prove(alloc, lemmas, base, arena, Some(given), goal, proof);
    answer_of(checked, Some(Text::of(text)))
}

// The answer to an entry for a goal over this base.
fn judge_over(
    alloc: Global,
    lemmas: &Lemmas,
    base: &Base,
    arena: &mut Arena,
    goal: Stmt,
    entry: &Written<'_>,
) -> Result<Answer, Memory>
    requires { IsStatementIn arena.old goal }
    ensures { (e : Entry) → EntryHasSpelling e → seen_entry entry.now ≡ texts_of e → IfOk result (λ a. a ≡ answer_over (rows_of lemmas.now) base.now (statement_of arena.old goal) e.given e.steps) }
{
    match entry.given {
        Some(given) => judge_from(alloc, lemmas, base, arena, goal, given, &entry.proof),
        None => {
            let checked = prove(alloc, lemmas, base, arena, None, goal, &entry.proof);
            answer_of(checked, None)
        }
    }
}

/// The answer to an entry for this goal.
pub(crate) fn judge(
    alloc: Global,
    lemmas: &Lemmas,
    file: &FileTree,
    goal: Goal<'_>,
    entry: &Written<'_>,
) -> Result<Answer, Memory>
    requires { IsOpenGoal file.now goal }
    ensures { (e : Entry) → EntryHasSpelling e → seen_entry entry.now ≡ texts_of e → IfOk result (λ a. a ≡ answer_to (rows_of lemmas.now) (goal_seen file.now goal.entry) e) }
{
    let local = goal.local.as_slice();
    let base = Base::joined(alloc, &file.shared, goal.prefix, &file.arena, local)?;
    let mut arena = Arena::new(alloc)?;
    let stmt = arena.import_statement(&file.arena, goal.stmt)?;
    judge_over(alloc, lemmas, &base, &mut arena, stmt, entry)
}
