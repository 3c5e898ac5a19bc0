ghost use Rattle.std.specs.Prelude.{◌≡◌, ◌<◌, ◌^◌, ◌||◌, IfOk};
ghost use Rattle.alg_terms.specs.Tree.{Lit, App, Nil, Cons, equal, sort_of_tree};
ghost use Rattle.alg_expr.specs.Ids.{tree_of, IsIn, statement_of, IsStatementIn};
ghost use Rattle.alg_expr.specs.Arena.{Extends, Imports};
ghost use Rattle.alg_expr.specs.Applying.{arity_fits, sorts_fit};
ghost use Rattle.std.specs.Prelude.{[], ◌∷◌, true};
ghost use Rattle.alg_proof.specs.LiteralLines.{bridge_class, bridge_from, bridge_to, bridge_of};
ghost use Rattle.alg_kernel.specs.Answers.{IsJudged};

use crate::answers::Fault;
use crate::rules::{build, equation};
use alg_expr::{Arena, ExprId, Memory, Sort, Stmt, Sym};
use alg_law::{Base, Class, has};
use alg_proof::BridgeKind;
use alg_terms::{BadCause, GREATEST_LITERAL};

/// The law that leads from one kind of multiple or power by a literal to another.
pub(crate) fn bridge(
    base: &Base,
    arena: &mut Arena,
    kind: BridgeKind,
    n: u128,
    e: ExprId,
) -> Result<Stmt, Fault>
    requires { IsIn arena.old e }
    ensures keeps { Extends arena.old arena.new }
    ensures judged { IsJudged arena.new result (bridge_of base.now kind n (tree_of arena.old e)) }
{
    if !is_bridged(base, kind, arena.sort_of(e)) {
        return Err(Fault::Bad(BadCause::NoInstance));
    }
    if n > GREATEST_LITERAL {
        return Err(Fault::Bad(BadCause::Literal));
    }
    Ok(both_sides(arena, kind, n, e)?)
}

// the equation of the two sides
fn both_sides(arena: &mut Arena, kind: BridgeKind, n: u128, e: ExprId) -> Result<Stmt, Memory>
    requires here { IsIn arena.old e }
    requires small { n < 2 ^ 127 }
    ensures keeps { Extends arena.old arena.new }
    ensures here { IfOk result (λ s. IsStatementIn arena.new s) }
    ensures equation { IfOk result (λ s. statement_of arena.new s ≡ equal (bridge_from kind n (tree_of arena.old e)) (bridge_to kind n (tree_of arena.old e))) }
{
    let lhs = from_side(arena, kind, n, e)?;
    let rhs = to_side(arena, kind, n, e)?;
    Ok(equation(arena, lhs, rhs))
}

// whether the sort has the class that the bridge needs
fn is_bridged(base: &Base, kind: BridgeKind, sort: Sort) -> bool
    ensures { result ≡ bridge_class base.now kind sort }
{
    match kind {
        BridgeKind::Smul => has(base, sort, Class::Semiring),
        BridgeKind::Zsmul => has(base, sort, Class::AddGroup),
        BridgeKind::Zpow => has(base, sort, Class::Group) || has(base, sort, Class::Field),
    }
}

fn from_side(arena: &mut Arena, kind: BridgeKind, n: u128, e: ExprId) -> Result<ExprId, Memory>
    requires here { IsIn arena.old e }
    requires small { n < 2 ^ 127 }
    ensures keeps { Extends arena.old arena.new }
    ensures made { IfOk result (λ x. Imports arena.old arena.new x (bridge_from kind n (tree_of arena.old e))) }
{
    match kind {
        BridgeKind::Smul => literal_first(arena, Sym::Nsmul, Sort::Nat, n, e),
        BridgeKind::Zsmul => literal_first(arena, Sym::Zsmul, Sort::Int, n, e),
        BridgeKind::Zpow => literal_last(arena, Sym::Zpow, Sort::Int, n, e),
    }
}

fn to_side(arena: &mut Arena, kind: BridgeKind, n: u128, e: ExprId) -> Result<ExprId, Memory>
    requires here { IsIn arena.old e }
    requires small { n < 2 ^ 127 }
    ensures keeps { Extends arena.old arena.new }
    ensures made { IfOk result (λ x. Imports arena.old arena.new x (bridge_to kind n (tree_of arena.old e))) }
{
    match kind {
        BridgeKind::Smul => {
            let sort = arena.sort_of(e);
            literal_first(arena, Sym::Mul, sort, n, e)
        }
        BridgeKind::Zsmul => literal_first(arena, Sym::Nsmul, Sort::Nat, n, e),
        BridgeKind::Zpow => literal_last(arena, Sym::Npow, Sort::Nat, n, e),
    }
}

// a symbol over a literal of the sort `of` and a tree of the value's sort
fn literal_first(
    arena: &mut Arena,
    sym: Sym,
    of: Sort,
    n: u128,
    e: ExprId,
) -> Result<ExprId, Memory>
    requires here { IsIn arena.old e }
    requires small { n < 2 ^ 127 }
    requires arity { arity_fits sym 2 ≡ true }
    requires sorts { sorts_fit sym (sort_of_tree (tree_of arena.old e)) (of ∷ sort_of_tree (tree_of arena.old e) ∷ []) ≡ true }
    ensures keeps { Extends arena.old arena.new }
    ensures made { IfOk result (λ x. Imports arena.old arena.new x (App sym (sort_of_tree (tree_of arena.old e)) (Cons (Lit of n) (Cons (tree_of arena.old e) Nil)))) }
{
    let sort = arena.sort_of(e);
    let literal = arena.lit(of, n)?;
    let whole = build(arena, sym, sort, &[literal, e])?;
    Ok(whole)
}

// a symbol over a tree of the value's sort and a literal of the sort `of`
fn literal_last(arena: &mut Arena, sym: Sym, of: Sort, n: u128, e: ExprId) -> Result<ExprId, Memory>
    requires here { IsIn arena.old e }
    requires small { n < 2 ^ 127 }
    requires arity { arity_fits sym 2 ≡ true }
    requires sorts { sorts_fit sym (sort_of_tree (tree_of arena.old e)) (sort_of_tree (tree_of arena.old e) ∷ of ∷ []) ≡ true }
    ensures keeps { Extends arena.old arena.new }
    ensures made { IfOk result (λ x. Imports arena.old arena.new x (App sym (sort_of_tree (tree_of arena.old e)) (Cons (tree_of arena.old e) (Cons (Lit of n) Nil)))) }
{
    let sort = arena.sort_of(e);
    let literal = arena.lit(of, n)?;
    let whole = build(arena, sym, sort, &[e, literal])?;
    Ok(whole)
}
