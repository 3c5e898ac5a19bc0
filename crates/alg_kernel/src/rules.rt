ghost use Rattle.std.specs.Prelude.{◌≡◌, ℕ, ◌+◌, ◌*◌, ◌<◌, ◌^◌, [], ◌∷◌, length, All, IfOk, OnErr, true};
ghost use Rattle.alg_terms.specs.declared.relations.Rel.TheVariants as rel;
ghost use Rattle.alg_terms.specs.Tree.{Lit, App, Nil, Cons, of_list, equal, sort_of_tree};
ghost use Rattle.alg_terms.specs.Order.{tree_same};
ghost use Rattle.alg_expr.specs.Ids.{tree_of, trees_at, IsIn, statement_of, statements_of, IsStatementIn};
ghost use Rattle.alg_expr.specs.Arena.{Extends, GrowsBy};
ghost use Rattle.alg_expr.specs.Applying.{arity_fits, sorts_fit, sorts_at};
ghost use Rattle.alg_law.specs.Having.{has_class};
ghost use Rattle.alg_law.specs.declared.classes.Class.TheVariants as class;
ghost use Rattle.alg_proof.specs.Causes.{line_at, is_eq_rel, statement_same};
ghost use Rattle.alg_proof.specs.LiteralLines.{sum_of, product_of};
ghost use Rattle.alg_proof.specs.Steps.{symm_of, trans_of, subst_of};
ghost use Rattle.alg_kernel.specs.Answers.{IsJudged, IsFound};

use crate::answers::Fault;
use alg_expr::{Arena, ExprFault, ExprId, Memory, Rel, Sort, Stmt, Sym};
use alg_law::{Base, Class, has};
use alg_terms::{BadCause, GREATEST_LITERAL};

/// Whether two ids stand for the same tree. No tree of an arena stands twice, so their numbers tell.
pub(crate) fn same_tree(arena: &Arena, a: ExprId, b: ExprId) -> bool
    requires left { IsIn arena.now a }
    requires right { IsIn arena.now b }
    ensures { result ≡ tree_same (tree_of arena.now a) (tree_of arena.now b) }
{
    let _trees = arena.len();
    a.number() == b.number()
}

pub(crate) fn is_equation(s: &Stmt) -> bool
    ensures { result ≡ is_eq_rel s.now.rel }
{
    matches!(s.rel, Rel::Eq)
}

/// What an earlier line concludes, counted from 1.
pub(crate) fn earlier(_arena: &Arena, done: &[Stmt], line: u128) -> Result<Stmt, Fault>
    requires { All (IsStatementIn _arena.now) done.now }
    ensures { IsFound _arena.now result (line_at (statements_of _arena.now done.now) line) }
{
    match at(done, line) {
        Some(s) => Ok(s),
        None => Err(Fault::Bad(BadCause::Reference)),
    }
}

fn at(done: &[Stmt], line: u128) -> Option<Stmt>
    ensures { result ≡ line_at done.now line }
{
    match usize::try_from(line) {
        Ok(n) if n > 0 => done.get(n - 1).copied(),
        _ => None,
    }
}

/// The statement that two trees are equal.
pub(crate) fn equation(arena: &Arena, lhs: ExprId, rhs: ExprId) -> Stmt
    requires { IsIn arena.now lhs }
    ensures { result ≡ record { rel = rel.Eq; sort = sort_of_tree (tree_of arena.now lhs); lhs = lhs; rhs = rhs } }
{
    Stmt {
        rel: Rel::Eq,
        sort: arena.sort_of(lhs),
        lhs,
        rhs,
    }
}

/// `b = a`, from `a = b`.
pub(crate) fn symm(arena: &Arena, a: &Stmt) -> Result<Stmt, Fault>
    requires { IsStatementIn arena.now a.now }
    ensures { IsJudged arena.now result (symm_of (statement_of arena.now a.now)) }
{
    if is_equation(a) {
        Ok(equation(arena, a.rhs, a.lhs))
    } else {
        Err(Fault::Bad(BadCause::Shape))
    }
}

/// `a = c`, from `a = b` and `b = c`.
pub(crate) fn trans(arena: &Arena, a: &Stmt, b: &Stmt) -> Result<Stmt, Fault>
    requires left { IsStatementIn arena.now a.now }
    requires right { IsStatementIn arena.now b.now }
    ensures { IsJudged arena.now result (trans_of (statement_of arena.now a.now) (statement_of arena.now b.now)) }
{
    if !a.sort.is(b.sort) {
        return Err(Fault::Bad(BadCause::Sort));
    }
    if is_equation(a) && is_equation(b) && same_tree(arena, a.rhs, b.lhs) {
        Ok(equation(arena, a.lhs, b.rhs))
    } else {
        Err(Fault::Bad(BadCause::Shape))
    }
}

/// `c R d`, from `a R b`, `a = c` and `b = d`.
pub(crate) fn subst(arena: &Arena, a: &Stmt, b: &Stmt, c: &Stmt) -> Result<Stmt, Fault>
    requires first { IsStatementIn arena.now a.now }
    requires left { IsStatementIn arena.now b.now }
    requires right { IsStatementIn arena.now c.now }
    ensures { IsJudged arena.now result (subst_of (statement_of arena.now a.now) (statement_of arena.now b.now) (statement_of arena.now c.now)) }
{
    if !a.sort.is(b.sort) || !a.sort.is(c.sort) {
        return Err(Fault::Bad(BadCause::Sort));
    }
    if is_equation(b)
        && is_equation(c)
        && same_tree(arena, a.lhs, b.lhs)
        && same_tree(arena, a.rhs, c.lhs)
    {
        Ok(Stmt {
            rel: a.rel,
            sort: a.sort,
            lhs: b.rhs,
            rhs: c.rhs,
        })
    } else {
        Err(Fault::Bad(BadCause::Shape))
    }
}

/// Whether two statements are the same.
pub(crate) fn same_statement(arena: &Arena, a: &Stmt, b: &Stmt) -> bool
    requires left { IsStatementIn arena.now a.now }
    requires right { IsStatementIn arena.now b.now }
    ensures { result ≡ statement_same (statement_of arena.now a.now) (statement_of arena.now b.now) }
{
    a.rel.is(b.rel)
        && a.sort.is(b.sort)
        && same_tree(arena, a.lhs, b.lhs)
        && same_tree(arena, a.rhs, b.rhs)
}

/// A symbol over arguments that it takes.
pub(crate) fn build(
    arena: &mut Arena,
    sym: Sym,
    sort: Sort,
    args: &[ExprId],
) -> Result<ExprId, Memory>
    requires here { All (IsIn arena.old) args.now }
    requires arity { arity_fits sym (length args.now) ≡ true }
    requires sorts { sorts_fit sym sort (sorts_at arena.old args.now) ≡ true }
    ensures ok { IfOk result (λ e. GrowsBy arena.old arena.new e (App sym sort (of_list (trees_at arena.old args.now)))) }
    ensures err { OnErr result (arena.new ≡ arena.old) }
{
    match arena.app(sym, sort, args) {
        Ok(e) => Ok(e),
        Err(ExprFault::Memory) => Err(Memory),
        Err(ExprFault::BadArity) => unreachable!(),
        Err(ExprFault::BadSort) => unreachable!(),
    }
}

// the equation of a symbol over two literals with a third
fn literals(
    arena: &mut Arena,
    sym: Sym,
    sort: Sort,
    m: u128,
    n: u128,
    value: u128,
) -> Result<Stmt, Memory>
    requires left { m < 2 ^ 127 }
    requires right { n < 2 ^ 127 }
    requires value { value < 2 ^ 127 }
    requires arity { arity_fits sym 2 ≡ true }
    requires sorts { sorts_fit sym sort (sort ∷ sort ∷ []) ≡ true }
    ensures keeps { Extends arena.old arena.new }
    ensures here { IfOk result (λ s. IsStatementIn arena.new s) }
    ensures equation { IfOk result (λ s. statement_of arena.new s ≡ equal (App sym sort (Cons (Lit sort m) (Cons (Lit sort n) Nil))) (Lit sort value)) }
{
    let a = arena.lit(sort, m)?;
    let b = arena.lit(sort, n)?;
    let whole = build(arena, sym, sort, &[a, b])?;
    let value = arena.lit(sort, value)?;
    Ok(equation(arena, whole, value))
}

// the class that sums and products of literals need
fn is_semiring(base: &Base, sort: Sort) -> bool
    ensures { result ≡ has_class base.now sort class.Semiring }
{
    has(base, sort, Class::Semiring)
}

/// `m + n = r`, with the literal r that is the sum.
pub(crate) fn sum(
    base: &Base,
    arena: &mut Arena,
    sort: Sort,
    m: u128,
    n: u128,
) -> Result<Stmt, Fault>
    ensures keeps { Extends arena.old arena.new }
    ensures judged { IsJudged arena.new result (sum_of base.now sort m n) }
{
    if !is_semiring(base, sort) {
        return Err(Fault::Bad(BadCause::NoInstance));
    }
    if m > GREATEST_LITERAL || n > GREATEST_LITERAL || m + n > GREATEST_LITERAL {
        return Err(Fault::Bad(BadCause::Literal));
    }
    Ok(literals(arena, Sym::Add, sort, m, n, m + n)?)
}

/// `m * n = r`, with the literal r that is the product.
pub(crate) fn product(
    base: &Base,
    arena: &mut Arena,
    sort: Sort,
    m: u128,
    n: u128,
) -> Result<Stmt, Fault>
    ensures keeps { Extends arena.old arena.new }
    ensures judged { IsJudged arena.new result (product_of base.now sort m n) }
{
    if !is_semiring(base, sort) {
        return Err(Fault::Bad(BadCause::NoInstance));
    }
    if m > GREATEST_LITERAL || n > GREATEST_LITERAL {
        return Err(Fault::Bad(BadCause::Literal));
    }
    match m.checked_mul(n) {
        Some(value) if value <= GREATEST_LITERAL => Ok(literals(
            arena,
            Sym::Mul,
            sort,
            m,
            n,
            value,
        )?),
        _ => Err(Fault::Bad(BadCause::Literal)),
    }
}
