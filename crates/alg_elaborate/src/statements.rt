ghost use Rattle.std.specs.Prelude.{◌≡◌, ◌++◌, List, [], Some, IfOk, IfErr};
ghost use Rattle.alg_expr.specs.Arena.{Extends};
ghost use Rattle.alg_expr.specs.Ids.{IsIn, IsStatementIn, statement_of, tree_of};
ghost use Rattle.alg_terms.specs.Tree as terms;
ghost use Rattle.alg_elaborate.specs.declared.causes.Cause as causes;
ghost use Rattle.alg_elaborate.specs.Faults.{first};
ghost use Rattle.alg_elaborate.specs.Tasks.{first_or};
ghost use Rattle.alg_elaborate.specs.Statements.{statement_faults, statement_faults_in, typed_statement, typed_statement_in};
ghost use Rattle.alg_elaborate.specs.Statements as spec;

use crate::building::build;
use crate::causes::Cause;
use crate::faults::first_fault;
use crate::regions::{first_known, sort_or};
use alg_expr::{Arena, ExprId, Memory, Rel, Sort, Stmt};
use alg_names::Scope;
use alg_syntax::signs::Relation;
use alg_syntax::statements::Statement;
use std::alloc::Global;

fn relation_of(relation: Relation) -> Rel
    ensures { result ≡ spec.relation_of relation }
{
    match relation {
        Relation::Eq => Rel::Eq,
        Relation::Ne => Rel::Ne,
        Relation::Lt => Rel::Lt,
        Relation::Le => Rel::Le,
        Relation::Gt => Rel::Lt,
        Relation::Ge => Rel::Le,
        Relation::Dvd => Rel::Dvd,
    }
}

fn exchanges(relation: Relation) -> bool
    ensures { result ≡ spec.exchanges relation }
{
    match relation {
        Relation::Gt => true,
        Relation::Ge => true,
        _ => false,
    }
}

/// The sort of both sides.
#[tactic(auto, using(crate::proofs::Sides::known_left, crate::proofs::Sides::known_right))]
pub fn statement_sort<'a>(
    alloc: Global,
    scope: &Scope,
    statement: &Statement<'a>,
) -> Result<Sort, Memory>
    ensures { IfOk result (λ k. k ≡ spec.statement_sort scope.now statement.now) }
{
    let (left, nodes) = statement.lhs.nodes();
    if let Some(sort) = first_known(alloc, nodes, scope, left)? {
        return Ok(sort);
    }
    let (right, nodes) = statement.rhs.nodes();
    Ok(sort_or(Sort::Nat, first_known(alloc, nodes, scope, right)?))
}

fn relation_fault(scope: &Scope, sort: Sort, relation: Relation) -> Option<Cause>
    ensures { (rest : List causes.Cause) → first (spec.relation_faults scope.now sort relation ++ rest) ≡ first_or result rest }
{
    if scope.relates(relation_of(relation), sort) {
        None
    } else {
        Some(Cause::NoInstance)
    }
}

// The first fault of a statement whose sides are of the given sort.
#[tactic(auto, using(crate::proofs::Sides::first_joined))]
fn statement_fault_in<'a>(
    alloc: Global,
    scope: &Scope,
    sort: Sort,
    statement: &Statement<'a>,
) -> Result<Option<Cause>, Memory>
    ensures { IfOk result (λ o. o ≡ first (statement_faults_in scope.now sort statement.now)) }
{
    if let Some(cause) = relation_fault(scope, sort, statement.relation) {
        return Ok(Some(cause));
    }
    let (left, nodes) = statement.lhs.nodes();
    if let Some(cause) = first_fault(alloc, nodes, scope, &[], false, sort, left)? {
        return Ok(Some(cause));
    }
    let (right, nodes) = statement.rhs.nodes();
    first_fault(alloc, nodes, scope, &[], false, sort, right)
}

fn ordered(relation: Relation, sort: Sort, left: ExprId, right: ExprId) -> Stmt
    ensures told { (ts : List terms.Tree) → statement_of ts result ≡ spec.ordered (spec.exchanges relation) (spec.relation_of relation) sort (tree_of ts left) (tree_of ts right) }
    ensures here { (ts : List terms.Tree) → IsIn ts left → IsIn ts right → IsStatementIn ts result }
{
    let rel = relation_of(relation);
    if exchanges(relation) {
        Stmt {
            rel,
            sort,
            lhs: right,
            rhs: left,
        }
    } else {
        Stmt {
            rel,
            sort,
            lhs: left,
            rhs: right,
        }
    }
}

// What a statement says whose sides are of the given sort.
#[tactic(auto, using(crate::proofs::Sides::sides_in))]
fn build_statement_in<'a>(
    alloc: Global,
    arena: &mut Arena,
    scope: &Scope,
    sort: Sort,
    statement: &Statement<'a>,
) -> Result<Stmt, Memory>
    ensures kept { Extends arena.old arena.new }
    ensures here { IfOk result (IsStatementIn arena.new) }
    ensures built { IfOk result (λ p. statement_of arena.new p ≡ typed_statement_in scope.now sort statement.now) }
{
    let (root, nodes) = statement.lhs.nodes();
    let left = build(alloc, arena, nodes, scope, sort, root)?;
    let (root, nodes) = statement.rhs.nodes();
    let right = build(alloc, arena, nodes, scope, sort, root)?;
    Ok(ordered(statement.relation, sort, left, right))
}

/// What a statement says, with the sort of its sides, or its first fault. `>` and `≥` exchange the sides.
pub fn elaborate_statement<'a>(
    alloc: Global,
    arena: &mut Arena,
    scope: &Scope,
    statement: &Statement<'a>,
) -> Result<Result<Stmt, Cause>, Memory>
    ensures kept { Extends arena.old arena.new }
    ensures here { IfOk result (λ r. IfOk r (IsStatementIn arena.new)) }
    ensures good { IfOk result (λ r. IfOk r (λ p. (statement_faults scope.now statement.now ≡ []) × (statement_of arena.new p ≡ typed_statement scope.now statement.now))) }
    ensures faulty { IfOk result (λ r. IfErr r (λ cause. first (statement_faults scope.now statement.now) ≡ Some cause)) }
{
    let sort = statement_sort(alloc, scope, statement)?;
    match statement_fault_in(alloc, scope, sort, statement)? {
        Some(cause) => Ok(Err(cause)),
        None => Ok(Ok(build_statement_in(alloc, arena, scope, sort, statement)?)),
    }
}
