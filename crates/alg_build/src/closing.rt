ghost use Rattle.std.specs.Prelude.{◌≡◌, IfOk, None};
ghost use Rattle.alg_terms.specs.declared.sorts.Sort.{Sort as SortKind};
ghost use Rattle.alg_terms.specs.Tree.{Tree};
ghost use Rattle.alg_expr.specs.Ids.{statement_of};
ghost use Rattle.alg_build.specs.Book.{Concludes, Grows, Proves};
ghost use Rattle.alg_build.specs.Rewriting.{Begins, Meet, Relates, Stands, Turns};

use crate::builder::Builder;
use crate::combining::{back, line_of, then};
use crate::rewriting::Rewriting;
use alg_expr::{ExprId, Memory, Stmt};

/// A line for `b = a`, from `a = b`.
#[tactic(auto, using(crate::proofs::Rewritings::rewritings))]
pub fn line_back(cx: &mut Builder, e: ExprId, r: Rewriting) -> Result<usize, Memory>
    requires { Begins cx.old e r }
    ensures proves { IfOk result (λ n. (t : SortKind) → (a b : Tree) → Stands cx.old t e a → Turns cx.old t r a b → Proves cx.new n b a) }
    ensures grows { Grows cx.old cx.new }
{
    let up = back(cx, e, r)?;
    let line = line_of(cx, up)?;
    Ok(line)
}

/// A line for an equation, both sides of which are rewritten to one tree.
#[tactic(auto, using(crate::proofs::Rewritings::rewritings))]
pub fn close(
    cx: &mut Builder,
    goal: Stmt,
    left: Rewriting,
    right: Rewriting,
) -> Result<usize, Memory>
    requires { Meet cx.old goal left right }
    ensures concludes { IfOk result (λ n. Concludes cx.new n (statement_of cx.old.trees goal)) }
    ensures grows { Grows cx.old cx.new }
{
    let up = back(cx, goal.rhs, right)?;
    let whole = then(cx, left, up)?;
    let line = line_of(cx, whole)?;
    Ok(line)
}

/// A line for a goal of any relation, from one for the same relation between what its sides are rewritten to.
#[tactic(auto, using(crate::proofs::Rewritings::rewritings))]
pub fn close_by(
    cx: &mut Builder,
    goal: Stmt,
    left: Rewriting,
    right: Rewriting,
    line: usize,
) -> Result<usize, Memory>
    requires { Relates cx.old goal left right line }
    ensures concludes { IfOk result (λ n. Concludes cx.new n (statement_of cx.old.trees goal)) }
    ensures grows { Grows cx.old cx.new }
{
    if left.line.is_none() && right.line.is_none() {
        return Ok(as_it_is(cx, goal, left, right, line));
    }
    let i = line_back(cx, goal.lhs, left)?;
    let j = line_back(cx, goal.rhs, right)?;
    let whole = cx.subst(line, i, j)?;
    Ok(whole)
}

// the line itself, where no side changes
fn as_it_is(_cx: &Builder, _goal: Stmt, _left: Rewriting, _right: Rewriting, line: usize) -> usize
    requires none { (_left.line ≡ None) × (_right.line ≡ None) }
    requires relates { Relates _cx.now _goal _left _right line }
    ensures { Concludes _cx.now result (statement_of _cx.now.trees _goal) }
{
    line
}
