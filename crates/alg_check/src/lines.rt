ghost use Rattle.std.specs.Prelude.{◌≡◌, IfOk};
ghost use Rattle.alg_expr.specs.Arena.{Extends};
ghost use Rattle.alg_expr.specs.Ids.{statement_of, IsStatementIn};
ghost use Rattle.alg_law.specs.WellSorted.{IsStatement};
ghost use Rattle.alg_terms.specs.Tree.{Statement};
ghost use Rattle.alg_proof.specs.Steps.{Step};
ghost use Rattle.alg_proof.specs.Lines.{IsLineIn};
ghost use Rattle.alg_certificate.specs.Spelling.{HasSpelling, StatementHasSpelling, step_bytes, given_bytes};
ghost use Rattle.alg_check.specs.Meant.{BuildsLine, BuildsGiven};

use alg_certificate_lines::faults::LineFault;
use alg_certificate_lines::{given, lines};
use alg_expr::{Arena, Stmt};
use alg_law::Base;
use alg_proof::Line;

/// The line of a text, over the declarations of the base.
pub(crate) fn build_line(arena: &mut Arena, base: &Base, text: &[u8]) -> Result<Line, LineFault>
    ensures keeps { Extends arena.old arena.new }
    ensures here { IfOk result (IsLineIn arena.new) }
    ensures builds { (l : Step) → HasSpelling l → step_bytes l ≡ text.now → BuildsLine base.now arena.new l result }
{
    lines::build_line(arena, base, text)
}

/// The statement of a text, over the declarations of the base.
pub(crate) fn build_given(arena: &mut Arena, base: &Base, text: &[u8]) -> Result<Stmt, LineFault>
    ensures keeps { Extends arena.old arena.new }
    ensures here { IfOk result (IsStatementIn arena.new) }
    ensures sorted { IfOk result (λ s. IsStatement base.now (statement_of arena.new s)) }
    ensures builds { (s : Statement) → StatementHasSpelling s → given_bytes s ≡ text.now → BuildsGiven base.now arena.new s result }
{
    given::build_given(arena, base, text)
}
