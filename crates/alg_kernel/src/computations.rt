ghost use Rattle.std.specs.Prelude.{◌≡◌, List, All, IfOk, IfSome, map, option_map, true, pos, unsigned_abs};
ghost use Rattle.alg_terms.specs.declared.relations.Rel.TheVariants as rel;
ghost use Rattle.std.specs.Prelude.{◌<◌, ◌^◌};
ghost use Rattle.alg_terms.specs.declared.symbols.Sym.TheVariants as sym;
ghost use Rattle.alg_terms.specs.Tree.{Lit, App, Nil, Cons, of_list, equal, sort_of_tree};
ghost use Rattle.alg_expr.specs.Ids.{IsIn, tree_of, trees_at, statement_of, IsStatementIn};
ghost use Rattle.alg_expr.specs.Arena.{Extends, Imports};
ghost use Rattle.alg_expr.specs.Applying.{sorts_at};
ghost use Rattle.alg_law.specs.Declarations.{Declaration};
ghost use Rattle.alg_law.specs.declared.marks.Mark.TheVariants.{Good};
ghost use Rattle.alg_law.specs.Derivations.{related};
ghost use Rattle.alg_law.specs.WellSorted.{head_mark};
ghost use Rattle.alg_law.specs.Computing.{natural_value, literal_value};
ghost use Rattle.alg_num.specs.Range.{InRange};
ghost use Rattle.alg_proof.specs.Computations.{numeral_at, numerals_at, has_numeral, has_numerals, are_small, value_at, sorts_like, value_line, divides_line, computation_of};
ghost use Rattle.alg_kernel.specs.Answers.{IsJudged};

use crate::answers::{Fault, pass};
use crate::relations::has_literal;
use crate::rules::{build, equation};
use alg_compute::{divides, integer, natural};
use alg_expr::{Arena, ExprId, Memory, Rel, Sort, Stmt, Sym};
use alg_law::{Base, Class, Mark, has, mark_for_head};
use alg_proof::ComputeHead;
use alg_terms::{BadCause, GREATEST_LITERAL};
use std::alloc::Global;

/// The value of a function at numerals of a sort, or that one of two divides the other.
pub(crate) fn computation(
    base: &Base,
    arena: &mut Arena,
    head: ComputeHead,
    sort: Sort,
    numbers: &[i128],
) -> Result<Stmt, Fault>
    ensures keeps { Extends arena.old arena.new }
    ensures judged { IsJudged arena.new result (computation_of base.now head sort numbers.now) }
{
    match head {
        ComputeHead::Named(sym) => value_line(base, arena, sym, sort, numbers),
        ComputeHead::Dvd => divides_line(base, arena, sort, numbers),
    }
}

fn value_line(
    base: &Base,
    arena: &mut Arena,
    sym: Sym,
    sort: Sort,
    numbers: &[i128],
) -> Result<Stmt, Fault>
    ensures keeps { Extends arena.old arena.new }
    ensures judged { IsJudged arena.new result (value_line base.now sym sort numbers.now) }
{
    pass(mark_over(base, arena, sym, sort, numbers)?)?;
    if !has_numerals(base, sort, numbers) {
        return Err(Fault::Bad(BadCause::NoInstance));
    }
    if !are_small(numbers) {
        return Err(Fault::Bad(BadCause::Literal));
    }
    match value(arena.alloc(), sort, sym, numbers)? {
        None => Err(Fault::Bad(BadCause::Literal)),
        Some(v) => Ok(with_value(arena, sym, sort, numbers, v)?),
    }
}

// the mark of the symbol over numerals of the sort; their own marks aside
fn mark_over(
    base: &Base,
    arena: &mut Arena,
    sym: Sym,
    sort: Sort,
    numbers: &[i128],
) -> Result<Mark, Memory>
    ensures keeps { Extends arena.old arena.new }
    ensures mark { IfOk result (λ m. m ≡ head_mark base.now sym sort (sorts_like sort numbers.now)) }
{
    let some = arena.lit(sort, 0)?;
    let args = copies(arena, some, numbers)?;
    Ok(mark_for_head(base, arena, sym, sort, &args))
}

// the tree as often as there are numbers
fn copies(arena: &Arena, e: ExprId, numbers: &[i128]) -> Result<Vec<ExprId>, Memory>
    requires { IsIn arena.now e }
    ensures here { IfOk result (λ v. All (IsIn arena.now) v.items) }
    ensures sorts { IfOk result (λ v. sorts_at arena.now v.items ≡ sorts_like (sort_of_tree (tree_of arena.now e)) numbers.now) }
{
    let mut args: Vec<ExprId> = Vec::new(arena.alloc());
    for _number in numbers {
        args.push(e)?;
    }
    Ok(args)
}

// the equation of a symbol over numerals with a numeral
fn with_value(
    arena: &mut Arena,
    sym: Sym,
    sort: Sort,
    numbers: &[i128],
    value: i128,
) -> Result<Stmt, Memory>
    requires small { are_small numbers.now ≡ true }
    requires small_value { InRange value }
    requires fits { (ds : List Declaration) × (head_mark ds sym sort (sorts_like sort numbers.now) ≡ Good) }
    ensures keeps { Extends arena.old arena.new }
    ensures here { IfOk result (λ s. IsStatementIn arena.new s) }
    ensures equation { IfOk result (λ s. statement_of arena.new s ≡ equal (App sym sort (of_list (numerals_at sort numbers.now))) (numeral_at sort value)) }
{
    let args = numerals(arena, sort, numbers)?;
    let lhs = build(arena, sym, sort, &args)?;
    let rhs = numeral(arena, sort, value)?;
    Ok(equation(arena, lhs, rhs))
}

fn numerals(arena: &mut Arena, sort: Sort, numbers: &[i128]) -> Result<Vec<ExprId>, Memory>
    requires small { are_small numbers.now ≡ true }
    ensures keeps { Extends arena.old arena.new }
    ensures here { IfOk result (λ v. All (IsIn arena.new) v.items) }
    ensures trees { IfOk result (λ v. trees_at arena.new v.items ≡ numerals_at sort numbers.now) }
{
    let mut args: Vec<ExprId> = Vec::new(arena.alloc());
    for number in numbers {
        let e = numeral(arena, sort, *number)?;
        args.push(e)?;
    }
    Ok(args)
}

// a number as a tree: a literal, or the negation of one where it is below 0
fn numeral(arena: &mut Arena, sort: Sort, number: i128) -> Result<ExprId, Memory>
    requires { InRange number }
    ensures keeps { Extends arena.old arena.new }
    ensures made { IfOk result (λ e. Imports arena.old arena.new e (numeral_at sort number)) }
{
    if number < 0 {
        negative(arena, sort, number.unsigned_abs())
    } else {
        natural_literal(arena, sort, number.unsigned_abs())
    }
}

fn natural_literal(arena: &mut Arena, sort: Sort, value: u128) -> Result<ExprId, Memory>
    requires { value < 2 ^ 127 }
    ensures keeps { Extends arena.old arena.new }
    ensures made { IfOk result (λ e. Imports arena.old arena.new e (Lit sort value)) }
{
    let e = arena.lit(sort, value)?;
    Ok(e)
}

// the negation of a literal
fn negative(arena: &mut Arena, sort: Sort, value: u128) -> Result<ExprId, Memory>
    requires { value < 2 ^ 127 }
    ensures keeps { Extends arena.old arena.new }
    ensures made { IfOk result (λ e. Imports arena.old arena.new e (App sym.Neg sort (Cons (Lit sort value) Nil))) }
{
    let literal = arena.lit(sort, value)?;
    let whole = build(arena, Sym::Neg, sort, &[literal])?;
    Ok(whole)
}

fn has_numerals(base: &Base, sort: Sort, numbers: &[i128]) -> bool
    ensures { result ≡ has_numerals base.now sort numbers.now }
{
    for number in numbers {
        if !has_numeral(base, sort, number) {
            return false;
        }
    }
    true
}

// whether the sort has the classes that the numeral needs
fn has_numeral(base: &Base, sort: Sort, number: &i128) -> bool
    ensures { result ≡ has_numeral base.now sort number.now }
{
    let number = *number;
    if number < 0 && !has(base, sort, Class::AddGroup) {
        return false;
    }
    has_literal(base, sort, number.unsigned_abs())
}

fn are_small(numbers: &[i128]) -> bool
    ensures { result ≡ are_small numbers.now }
{
    for number in numbers {
        if number.unsigned_abs() > GREATEST_LITERAL {
            return false;
        }
    }
    true
}

// the value of the function on ℕ or ℤ, where there is one below the limit
fn value(alloc: Global, sort: Sort, sym: Sym, numbers: &[i128]) -> Result<Option<i128>, Memory>
    requires { are_small numbers.now ≡ true }
    ensures value { IfOk result (λ o. o ≡ value_at sort sym numbers.now) }
    ensures small { IfOk result (λ o. IfSome o InRange) }
{
    match sort {
        Sort::Nat => natural_value(alloc, sym, numbers),
        Sort::Int => Ok(integer(sym, numbers)),
        _ => Ok(None),
    }
}

fn natural_value(alloc: Global, sym: Sym, numbers: &[i128]) -> Result<Option<i128>, Memory>
    ensures value { IfOk result (λ o. o ≡ option_map pos (literal_value (natural_value sym (map unsigned_abs numbers.now)))) }
    ensures small { IfOk result (λ o. IfSome o InRange) }
{
    let args = absolutes(alloc, numbers)?;
    match natural(sym, &args) {
        None => Ok(None),
        Some(v) => Ok(Some(v as i128)),
    }
}

fn absolutes(alloc: Global, numbers: &[i128]) -> Result<Vec<u128>, Memory>
    ensures { IfOk result (λ v. v.items ≡ map unsigned_abs numbers.now) }
{
    let mut args: Vec<u128> = Vec::new(alloc);
    for number in numbers {
        args.push(number.unsigned_abs())?;
    }
    Ok(args)
}

fn divides_line(base: &Base, arena: &mut Arena, sort: Sort, numbers: &[i128]) -> Result<Stmt, Fault>
    ensures keeps { Extends arena.old arena.new }
    ensures judged { IsJudged arena.new result (divides_line base.now sort numbers.now) }
{
    if numbers.len() != 2 {
        return Err(Fault::Bad(BadCause::Sort));
    }
    if !sort.is_integral() || !has_numerals(base, sort, numbers) {
        return Err(Fault::Bad(BadCause::NoInstance));
    }
    let x = numbers[0];
    let y = numbers[1];
    if !are_small(numbers) || !divides(x.unsigned_abs(), y.unsigned_abs()) {
        return Err(Fault::Bad(BadCause::Literal));
    }
    Ok(dividing(arena, sort, x, y)?)
}

// the statement that the first numeral divides the second
fn dividing(arena: &mut Arena, sort: Sort, x: i128, y: i128) -> Result<Stmt, Memory>
    requires first { InRange x }
    requires second { InRange y }
    ensures keeps { Extends arena.old arena.new }
    ensures here { IfOk result (λ s. IsStatementIn arena.new s) }
    ensures related { IfOk result (λ s. statement_of arena.new s ≡ related rel.Dvd sort (numeral_at sort x) (numeral_at sort y)) }
{
    let lhs = numeral(arena, sort, x)?;
    let rhs = numeral(arena, sort, y)?;
    Ok(Stmt {
        rel: Rel::Dvd,
        sort,
        lhs,
        rhs,
    })
}
