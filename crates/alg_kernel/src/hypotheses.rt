ghost use Rattle.std.specs.Prelude.{Ok};
ghost use Rattle.alg_terms.specs.declared.causes.BadCause.TheVariants as cause;
ghost use Rattle.alg_expr.specs.Arena.{Extends};
ghost use Rattle.alg_law.specs.Declarations.{hypotheses};
ghost use Rattle.alg_proof.specs.Causes.{line_at, or_cause};
ghost use Rattle.alg_kernel.specs.Answers.{IsJudged};

use crate::answers::Fault;
use alg_expr::{Arena, Stmt};
use alg_law::Base;
use alg_terms::BadCause;

/// The hypothesis of the base with this number, from 1.
pub(crate) fn hypothesis(base: &Base, arena: &mut Arena, number: u128) -> Result<Stmt, Fault>
    ensures keeps { Extends arena.old arena.new }
    ensures judged { IsJudged arena.new result (or_cause (line_at (hypotheses base.now) number) cause.Reference Ok) }
{
    match base.hypothesis(number) {
        Some(given) => Ok(arena.import_statement(given.arena, given.stmt)?),
        None => Err(Fault::Bad(BadCause::Reference)),
    }
}
