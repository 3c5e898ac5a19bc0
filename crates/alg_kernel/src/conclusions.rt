ghost use Rattle.std.specs.Prelude.{◌≡◌, List, All, IfOk, IsOk, Ok, option_map};
ghost use Rattle.alg_expr.specs.Ids.{trees_at, IsIn, statement_of, statements_of, IsStatementIn};
ghost use Rattle.alg_expr.specs.Arena.{Extends};
ghost use Rattle.alg_proof.specs.Lines.{step_of, IsLineIn};
ghost use Rattle.alg_proof.specs.LemmaRows.{rows_of};
ghost use Rattle.alg_proof.specs.Steps.{conclude};
ghost use Rattle.alg_proof.specs.Admissible.{AllFine, IsTheory};
ghost use Rattle.alg_kernel.specs.State.{IsGivenIn};
ghost use Rattle.alg_law.specs.Declarations.{Declaration};
ghost use Rattle.alg_law.specs.LawRows.{row_of};
ghost use Rattle.alg_law.specs.WellSorted.{IsStatement};
ghost use Rattle.alg_proof.specs.Citing.{conclusion_of};

use crate::answers::Fault;
use crate::filling::fill;
use crate::grounds::Grounds;
use crate::judging::judge;
use crate::letters::letters_of;
use alg_expr::{Arena, ExprId, Memory, Sort, Stmt};
use alg_law::{Base, Law};
use alg_proof::{Lemmas, Line};

/// What a good line concludes after these conclusions of good lines, for those who make lines. The arena keeps its
/// trees and grows by those that the line concludes.
pub fn conclusion(
    lemmas: &Lemmas,
    base: &Base,
    arena: &mut Arena,
    given: Option<Stmt>,
    done: &[Stmt],
    line: &Line,
) -> Result<Stmt, Memory>
    requires given_in { IsGivenIn base.now arena.old given }
    requires theory { IsTheory (record { declarations = base.now; lemmas = rows_of lemmas.now; given = option_map (statement_of arena.old) given }) }
    requires done_in { All (IsStatementIn arena.old) done.now }
    requires fine { AllFine base.now (option_map (statement_of arena.old) given) (statements_of arena.old done.now) }
    requires line_in { IsLineIn arena.old line.now }
    requires good { IsOk (conclude (record { declarations = base.now; lemmas = rows_of lemmas.now; given = option_map (statement_of arena.old) given }) (statements_of arena.old done.now) (step_of arena.old line.now)) }
    ensures keeps { Extends arena.old arena.new }
    ensures here { IfOk result (λ s. IsStatementIn arena.new s) }
    ensures concludes { IfOk result (λ s. conclude (record { declarations = base.now; lemmas = rows_of lemmas.now; given = option_map (statement_of arena.old) given }) (statements_of arena.old done.now) (step_of arena.old line.now) ≡ Ok (statement_of arena.new s)) }
{
    let grounds = Grounds {
        lemmas,
        base,
        given,
    };
    match judge(&grounds, arena, done, line) {
        Ok(s) => Ok(s),
        Err(Fault::Memory) => Err(Memory),
        Err(Fault::Bad(_)) => unreachable!(),
    }
}

/// The conclusion of a row at a sort for these trees in the order of its letters, for those who make lines and know that
/// they may cite the row so: nothing is asked of the trees but that the conclusion is well sorted. The arena keeps its
/// trees and grows by those of the conclusion.
pub fn row_conclusion(
    arena: &mut Arena,
    row: &Law,
    sort: Sort,
    with: &[ExprId],
) -> Result<Stmt, Memory>
    requires with_in { All (IsIn arena.old) with.now }
    requires sorted { (ds : List Declaration) × IsStatement ds (conclusion_of (row_of row.now) sort (trees_at arena.old with.now)) }
    ensures keeps { Extends arena.old arena.new }
    ensures here { IfOk result (λ s. IsStatementIn arena.new s) }
    ensures concludes { IfOk result (λ s. statement_of arena.new s ≡ conclusion_of (row_of row.now) sort (trees_at arena.old with.now)) }
{
    let found = letters_of(arena.alloc(), row)?;
    let letters = found.as_slice();
    match fill(arena, &row.conclusion, letters, sort, with)? {
        Some(s) => Ok(s),
        None => unreachable!(),
    }
}
