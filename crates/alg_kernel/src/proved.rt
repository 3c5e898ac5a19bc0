ghost use Rattle.std.specs.Prelude.{◌≡◌, All, IfOk, IfSome, option_map};
ghost use Rattle.alg_expr.specs.Arena.{Extends};
ghost use Rattle.alg_expr.specs.Ids.{statement_of, IsStatementIn};
ghost use Rattle.alg_law.specs.Derivations.{Derivable};
ghost use Rattle.alg_proof.specs.Lines.{steps_of, IsLineIn};
ghost use Rattle.alg_proof.specs.LemmaRows.{rows_of};
ghost use Rattle.alg_proof.specs.Valid.{verdict};
ghost use Rattle.alg_kernel.specs.Answers.{GivesVerdict};
ghost use Rattle.alg_kernel.specs.Claims.{claim_of, HoldsWithoutGiven};
ghost use Rattle.alg_kernel.specs.Lending.{IsLent};
ghost use Rattle.alg_kernel.specs.State.{IsGivenIn};

use crate::answers::Refusal;
use crate::kernel::accept;
use alg_expr::{Arena, Memory, Stmt};
use alg_law::Base;
use alg_proof::{Lemmas, Line};
use std::alloc::Global;
use std::marker::Model;

/// A goal that was checked, with its base and the statement that was given, if there was one. Contracts see the three
/// as declarations and trees.
///
/// Only `new` makes one, from lines that prove the goal, and no call changes it: so each one's goal is derivable.
#[derive(Drop)]
pub struct Proved {
    base: Base,
    // the trees of the goal and of the given statement
    arena: Arena,
    given: Option<Stmt>,
    goal: Stmt,
}

impl Model for Proved {
    ghost use Rattle.alg_kernel.specs.Claims.{Claim, claim_code, claim_of, IsProvedIn};

    ghost Value = { Claim };

    ghost coded = { claim_code };

    ghost view = { λ p. claim_of p.base p.arena p.given p.goal };

    ghost invariant = { λ p. IsProvedIn p.base p.arena p.given p.goal };
}

/// A statement of a checked goal, with the arena that it is of.
#[derive(Clone, Copy)]
pub struct ProvedStmt<'a> {
    pub arena: &'a Arena,
    pub stmt: Stmt,
}

impl Proved {
    /// Checks that the lines prove the goal, as `accept` does, and keeps the base and copies of the goal and of the
    /// given statement. Each refusal comes exactly where `accept` gives it; after one the base is dropped.
    pub fn new(
        alloc: Global,
        lemmas: &Lemmas,
        base: Base,
        arena: &mut Arena,
        given: Option<Stmt>,
        goal: Stmt,
        lines: &[Line],
    ) -> Result<Proved, Refusal>
        requires given_in { IsGivenIn base arena.old given }
        requires goal_in { IsStatementIn arena.old goal }
        requires lines_in { All (IsLineIn arena.old) lines.now }
        ensures keeps { Extends arena.old arena.new }
        ensures verdict { GivesVerdict result (verdict (record { declarations = base; lemmas = rows_of lemmas.now; given = option_map (statement_of arena.old) given }) (steps_of arena.old lines.now) (statement_of arena.old goal)) }
        ensures claim { IfOk result (λ p. p ≡ claim_of base arena.old given goal) }
    {
        match accept(alloc, lemmas, &base, arena, given, goal, lines) {
            Ok(_) => match Proved::keep(alloc, base, arena, given, goal) {
                Ok(proved) => Ok(proved),
                Err(Memory) => Err(Refusal::Memory),
            },
            Err(refusal) => Err(refusal),
        }
    }

    // the base, and copies of the statements
    fn keep(
        alloc: Global,
        base: Base,
        from: &Arena,
        given: Option<Stmt>,
        goal: Stmt,
    ) -> Result<Proved, Memory>
        requires given_in { IsGivenIn base from.now given }
        requires goal_in { IsStatementIn from.now goal }
        requires derivable { Derivable base (option_map (statement_of from.now) given) (statement_of from.now goal) }
        ensures { IfOk result (λ p. p ≡ claim_of base from.now given goal) }
    {
        let mut arena = Arena::new(alloc)?;
        let goal = arena.import_statement(from, goal)?;
        let given = copied_given(&mut arena, from, given)?;
        Ok(Proved {
            base,
            arena,
            given,
            goal,
        })
    }

    /// The goal is derivable by the laws, the hypotheses of the base and the given statement. Where nothing is given,
    /// it holds at the integers.
    pub fn follows(&self)
        ensures derivable { Derivable self.now.declarations self.now.given self.now.goal }
        ensures holds { HoldsWithoutGiven self.now.declarations self.now.given self.now.goal }
    {
        let _declarations = self.base.len();
    }

    /// The base of the goal.
    pub fn base(&self) -> &Base
        ensures { result.now ≡ self.now.declarations }
    {
        &self.base
    }

    /// The goal, with the arena that it is of.
    pub fn goal(&self) -> ProvedStmt<'_>
        ensures here { IsStatementIn result.arena.now result.stmt }
        ensures goal { statement_of result.arena.now result.stmt ≡ self.now.goal }
    {
        ProvedStmt {
            arena: &self.arena,
            stmt: self.goal,
        }
    }

    /// The statement that was given, with the arena that it is of, or none.
    pub fn given(&self) -> Option<ProvedStmt<'_>>
        ensures { IsLent result self.now.given }
    {
        match self.given {
            Some(stmt) => Some(ProvedStmt {
                arena: &self.arena,
                stmt,
            }),
            None => None,
        }
    }
}

// the given statement in this arena
fn copied_given(
    arena: &mut Arena,
    from: &Arena,
    given: Option<Stmt>,
) -> Result<Option<Stmt>, Memory>
    requires { IfSome given (IsStatementIn from.now) }
    ensures keeps { Extends arena.old arena.new }
    ensures here { IfOk result (λ g. IfSome g (IsStatementIn arena.new)) }
    ensures same { IfOk result (λ g. option_map (statement_of arena.new) g ≡ option_map (statement_of from.now) given) }
{
    match given {
        Some(stmt) => Ok(Some(arena.import_statement(from, stmt)?)),
        None => Ok(None),
    }
}
