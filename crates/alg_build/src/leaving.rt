ghost use Rattle.std.specs.Prelude.{IfOk, Ok};
ghost use Rattle.alg_terms.specs.Tree.{Tree};
ghost use Rattle.alg_expr.specs.Ids.{statement_of};
ghost use Rattle.alg_law.specs.Derivations.{related};
ghost use Rattle.alg_build.specs.Answer.{Gives, Leads, Leaves};
ghost use Rattle.alg_build.specs.Book.{Grows};
ghost use Rattle.alg_build.specs.Rewriting.{Remains, Turns};

use crate::builder::Builder;
use crate::combining::line_of;
use crate::outcome::{Back, Outcome};
use crate::rewriting::Rewriting;
use alg_expr::{Memory, Stmt};

/// What leaves a goal of the trees to which its sides are rewritten.
#[tactic(auto, using(crate::proofs::Rewritings::rewritings))]
pub fn leave(
    cx: &mut Builder,
    goal: Stmt,
    left: Rewriting,
    right: Rewriting,
) -> Result<Outcome, Memory>
    requires { Remains cx.old goal left right }
    ensures leads { IfOk result (λ o. Leads cx.new o (statement_of cx.old.trees goal)) }
    ensures gives { IfOk result (λ o. (t u v w : Tree) → Turns cx.old goal.sort left t u → Turns cx.old goal.sort right v w → Gives cx.new (Ok o) (Leaves (related goal.rel goal.sort u w))) }
    ensures grows { Grows cx.old cx.new }
{
    let i = line_of(cx, left)?;
    let j = line_of(cx, right)?;
    let new = Stmt {
        rel: goal.rel,
        sort: goal.sort,
        lhs: left.to,
        rhs: right.to,
    };
    Ok(Outcome::Left {
        goal: new,
        back: Back::Rewrite { left: i, right: j },
    })
}
