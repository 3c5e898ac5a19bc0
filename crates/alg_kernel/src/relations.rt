ghost use Rattle.std.specs.Prelude.{◌≡◌, ◌<◌, ◌^◌, IfOk};
ghost use Rattle.alg_terms.specs.Tree.{Lit};
ghost use Rattle.alg_expr.specs.Ids.{statement_of, IsStatementIn};
ghost use Rattle.alg_expr.specs.Arena.{Extends};
ghost use Rattle.alg_law.specs.Derivations.{related};
ghost use Rattle.alg_proof.specs.LiteralLines.{relation_class, has_literal, relation_holds, relation_of};
ghost use Rattle.alg_kernel.specs.Answers.{IsJudged};

use crate::answers::Fault;
use alg_expr::{Arena, Memory, Rel, Sort, Stmt};
use alg_law::{Base, Class, has, literal_class};
use alg_terms::{BadCause, GREATEST_LITERAL};

/// `m ≠ n`, `m < n` or `m ≤ n` for two literals, where it holds.
pub(crate) fn relation(
    base: &Base,
    arena: &mut Arena,
    rel: Rel,
    sort: Sort,
    m: u128,
    n: u128,
) -> Result<Stmt, Fault>
    ensures keeps { Extends arena.old arena.new }
    ensures judged { IsJudged arena.new result (relation_of base.now rel sort m n) }
{
    if !relates_literals(base, rel, sort)
        || !has_literal(base, sort, m)
        || !has_literal(base, sort, n)
    {
        return Err(Fault::Bad(BadCause::NoInstance));
    }
    if m > GREATEST_LITERAL || n > GREATEST_LITERAL || !holds(rel, m, n) {
        return Err(Fault::Bad(BadCause::Literal));
    }
    Ok(related(arena, rel, sort, m, n)?)
}

// the relation between two literals
fn related(arena: &mut Arena, rel: Rel, sort: Sort, m: u128, n: u128) -> Result<Stmt, Memory>
    requires left { m < 2 ^ 127 }
    requires right { n < 2 ^ 127 }
    ensures keeps { Extends arena.old arena.new }
    ensures here { IfOk result (λ s. IsStatementIn arena.new s) }
    ensures related { IfOk result (λ s. statement_of arena.new s ≡ related rel sort (Lit sort m) (Lit sort n)) }
{
    let lhs = arena.lit(sort, m)?;
    let rhs = arena.lit(sort, n)?;
    Ok(Stmt {
        rel,
        sort,
        lhs,
        rhs,
    })
}

// whether the sort has the class that the relation between its literals needs
fn relates_literals(base: &Base, rel: Rel, sort: Sort) -> bool
    ensures { result ≡ relation_class base.now rel sort }
{
    match rel {
        Rel::Eq => true,
        Rel::Ne => has(base, sort, Class::CharZero),
        Rel::Lt => has(base, sort, Class::IsStrictOrderedRing),
        Rel::Le => has(base, sort, Class::IsStrictOrderedRing),
        Rel::Dvd => sort.is_integral(),
    }
}

/// Whether the sort has the classes that the literal needs.
pub(crate) fn has_literal(base: &Base, sort: Sort, value: u128) -> bool
    ensures { result ≡ has_literal base.now sort value }
{
    has(base, sort, literal_class(value))
}

fn holds(rel: Rel, m: u128, n: u128) -> bool
    ensures { result ≡ relation_holds rel m n }
{
    match rel {
        Rel::Eq => false,
        Rel::Ne => m != n,
        Rel::Lt => m < n,
        Rel::Le => m <= n,
        Rel::Dvd => false,
    }
}
