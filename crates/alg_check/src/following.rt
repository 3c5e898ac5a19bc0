ghost use Rattle.std.specs.Prelude.{◌≡◌, ◌+◌, List, [], OnOk, option_map};
ghost use Rattle.alg_expr.specs.Arena.{Extends};
ghost use Rattle.alg_expr.specs.Ids.{statement_of, IsStatementIn};
ghost use Rattle.alg_proof.specs.LemmaRows.{rows_of};
ghost use Rattle.alg_proof.specs.Steps.{Step};
ghost use Rattle.alg_certificate.specs.Spelling.{HasSpelling, step_bytes};
ghost use Rattle.alg_kernel.specs.Answers.{GivesVerdict};
ghost use Rattle.alg_kernel.specs.State.{IsSound, IsGivenIn, theory_of, progress_of};
ghost use Rattle.alg_check.specs.Following.{IsAt, Follows, Spell, Judges, refused_for};
ghost use Rattle.alg_check.specs.Judging.{judged};
ghost use Rattle.alg_check.specs.Written.{seen};
ghost use Rattle.alg_kernel.specs.Progress.{Going};
ghost use Rattle.alg_terms.specs.Tree.{Statement};

use crate::lines::build_line;
use alg_certificate_lines::faults::LineFault;
use alg_expr::{Arena, Memory, Stmt};
use alg_kernel::{BadCause, Checked, Kernel, Refusal};
use alg_law::Base;
use alg_proof::{Lemmas, Line};
use std::alloc::Global;

fn refused_for(fault: LineFault, number: usize) -> Refusal
    ensures { result ≡ refused_for number fault }
{
    match fault {
        LineFault::BadName => Refusal::Bad {
            line: number,
            cause: BadCause::Name,
        },
        LineFault::BadSort => Refusal::Bad {
            line: number,
            cause: BadCause::Sort,
        },
        LineFault::NoInstance => Refusal::Bad {
            line: number,
            cause: BadCause::NoInstance,
        },
        LineFault::Memory => Refusal::Memory,
    }
}

// Checks the line with this number.
fn follow(
    kernel: &mut Kernel<'_>,
    arena: &mut Arena,
    base: &Base,
    number: usize,
    text: &[u8],
) -> Result<(), Refusal>
    requires sound { IsSound arena.old kernel.old }
    requires base { kernel.old.grounds.base.now ≡ base.now }
    requires number { IsAt number (progress_of arena.old kernel.old) }
    ensures keeps { Extends arena.old arena.new }
    ensures grounds { kernel.new.grounds ≡ kernel.old.grounds }
    ensures sound { IsSound arena.new kernel.new }
    ensures number { OnOk result (IsAt (number + 1) (progress_of arena.new kernel.new)) }
    ensures follows { (l : Step) → HasSpelling l → step_bytes l ≡ text.now → Follows (theory_of arena.old kernel.old.grounds) (progress_of arena.old kernel.old) l (progress_of arena.new kernel.new) result }
{
    match build_line(arena, base, text) {
        Ok(line) => kernel.feed(arena, &line),
        Err(fault) => Err(refused_for(fault, number)),
    }
}

// Checks all lines, up to the first bad one.
fn follow_all(
    kernel: &mut Kernel<'_>,
    arena: &mut Arena,
    base: &Base,
    texts: &[&[u8]],
) -> Result<(), Refusal>
    requires sound { IsSound arena.old kernel.old }
    requires base { kernel.old.grounds.base.now ≡ base.now }
    requires nothing { progress_of arena.old kernel.old ≡ Going [] }
    ensures keeps { Extends arena.old arena.new }
    ensures grounds { kernel.new.grounds ≡ kernel.old.grounds }
    ensures sound { IsSound arena.new kernel.new }
    ensures judged { (ls : List Step) → (goal : Statement) → Spell ls (seen texts.now) → Judges (theory_of arena.old kernel.old.grounds) ls goal (progress_of arena.new kernel.new) result }
{
    let mut number: usize = 1;
    for text in texts {
        follow(kernel, arena, base, number, text)?;
        number += 1;
    }
    Ok(())
}

/// Checks that the lines of these texts prove the goal.
pub(crate) fn prove(
    alloc: Global,
    lemmas: &Lemmas,
    base: &Base,
    arena: &mut Arena,
    given: Option<Stmt>,
    goal: Stmt,
    texts: &[&[u8]],
) -> Result<Checked, Refusal>
    requires given_in { IsGivenIn base.now arena.old given }
    requires goal_in { IsStatementIn arena.old goal }
    ensures keeps { Extends arena.old arena.new }
    ensures judged { (ls : List Step) → Spell ls (seen texts.now) → GivesVerdict result (judged (record { declarations = base.now; lemmas = rows_of lemmas.now; given = option_map (statement_of arena.old) given }) ls (statement_of arena.old goal)) }
{
    match Kernel::new(alloc, lemmas, base, given) {
        Err(Memory) => Err(Refusal::Memory),
        Ok(mut kernel) => {
            follow_all(&mut kernel, arena, base, texts)?;
            kernel.finish(arena, goal)
        }
    }
}
