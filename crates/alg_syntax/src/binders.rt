ghost use Rattle.std.specs.Prelude.{◌≡◌, false, Some, None, if◌then◌else◌, IfOk, option_map};
ghost use Rattle.alg_syntax.specs.declared.binders.Domain.TheVariants.{Holds};
ghost use Rattle.alg_syntax.specs.Parsers.{mapped};
ghost use Rattle.alg_syntax.specs.Reading.{read_names, read_arrows, after_star, closes, begins_sorts, read_carrier, read_sorts, read_domain, read_statement, read_typed, read_instance, opens_binder, read_braced, read_binder, read_binders};

use crate::front::{Tokens, is};
use crate::signs::{Fixed, Name, Operator, Sign};
use crate::statements::{Statement, read_statement};
use alg_expr::{Items, Memory};
use std::alloc::Global;

/// What a binder says of its names.
#[derive(Drop)]
pub enum Domain<'a> {
    /// `Type`, or `Type *`.
    Carrier(bool),
    /// A sort, or the sorts of a function's arguments and of its value.
    Sorts(Name<'a>, Items<Name<'a>>),
    /// The statement of a hypothesis.
    Holds(Statement<'a>),
}

/// `a b : D`
#[derive(Drop)]
pub struct Typed<'a> {
    pub first: Name<'a>,
    pub more: Items<Name<'a>>,
    pub domain: Domain<'a>,
}

#[derive(Drop)]
pub enum Binder<'a> {
    /// In parentheses, with whether they begin a line.
    Explicit(bool, Typed<'a>),
    /// In braces.
    Implicit(Typed<'a>),
    /// A class and the sort that has it, in brackets.
    Instance(Name<'a>, Name<'a>),
}

fn read_names<'a>(alloc: Global, left: &mut Tokens<'_, 'a>) -> Result<Items<Name<'a>>, Memory>
    ensures { IfOk result (λ ns. Some (ns, left.new) ≡ read_names left.old) }
{
    let mut names = Vec::new(alloc);
    'names: while let Some(name) = left.take_name() {
        names.push(name)?;
    }
    Ok(Items::of(names))
}

fn read_arrows<'a>(
    alloc: Global,
    left: &mut Tokens<'_, 'a>,
) -> Result<Option<Items<Name<'a>>>, Memory>
    ensures { IfOk result (λ o. option_map (λ ns. (ns, left.new)) o ≡ read_arrows left.old) }
{
    let mut names = Vec::new(alloc);
    'arrows: while left.skip_fixed(Fixed::Arrow) {
        let Some(name) = left.take_name() else {
            return Ok(None);
        };
        names.push(name)?;
    }
    Ok(Some(Items::of(names)))
}

fn skip_star<'a>(left: &mut Tokens<'_, 'a>) -> bool
    ensures after { after_star left.old ≡ if result then Some left.new else None }
    ensures stays { result ≡ false → left.new ≡ left.old }
{
    match left.first() {
        Some(Sign::Operator(Operator::Mul)) => {
            left.skip();
            true
        }
        _ => false,
    }
}

fn read_carrier<'a>(left: &mut Tokens<'_, 'a>) -> Domain<'a>
    ensures { Some (result, left.new) ≡ read_carrier left.old }
{
    if skip_star(left) {
        Domain::Carrier(true)
    } else {
        Domain::Carrier(false)
    }
}

fn closes<'a>(left: &Tokens<'_, 'a>) -> bool
    ensures { result ≡ closes left.now }
{
    match left.first() {
        Some(Sign::Close) => true,
        Some(Sign::Fixed(_)) => true,
        _ => false,
    }
}

// Whether a sort stands here, or a function's sorts, and no statement.
fn begins_sorts<'a>(left: &Tokens<'_, 'a>) -> bool
    ensures { result ≡ begins_sorts left.now }
{
    match left.first() {
        Some(Sign::Name(_)) => {
            let mut behind = left.copy();
            behind.skip();
            closes(&behind)
        }
        _ => false,
    }
}

fn read_sorts<'a>(alloc: Global, left: &mut Tokens<'_, 'a>) -> Result<Option<Domain<'a>>, Memory>
    ensures { IfOk result (λ o. option_map (λ d. (d, left.new)) o ≡ read_sorts left.old) }
{
    let Some(first) = left.take_name() else {
        return Ok(None);
    };
    let Some(more) = read_arrows(alloc, left)? else {
        return Ok(None);
    };
    Ok(Some(Domain::Sorts(first, more)))
}

fn read_hypothesis<'a>(
    alloc: Global,
    left: &mut Tokens<'_, 'a>,
) -> Result<Option<Domain<'a>>, Memory>
    ensures { IfOk result (λ o. option_map (λ d. (d, left.new)) o ≡ mapped Holds read_statement left.old) }
{
    let Some(statement) = read_statement(alloc, left)? else {
        return Ok(None);
    };
    Ok(Some(Domain::Holds(statement)))
}

fn read_domain<'a>(alloc: Global, left: &mut Tokens<'_, 'a>) -> Result<Option<Domain<'a>>, Memory>
    ensures { IfOk result (λ o. option_map (λ d. (d, left.new)) o ≡ read_domain left.old) }
{
    if left.skip_fixed(Fixed::TypeWord) {
        return Ok(Some(read_carrier(left)));
    }
    if begins_sorts(left) {
        read_sorts(alloc, left)
    } else {
        read_hypothesis(alloc, left)
    }
}

fn read_typed<'a>(alloc: Global, left: &mut Tokens<'_, 'a>) -> Result<Option<Typed<'a>>, Memory>
    ensures { IfOk result (λ o. option_map (λ t. (t, left.new)) o ≡ read_typed left.old) }
{
    let Some(first) = left.take_name() else {
        return Ok(None);
    };
    let more = read_names(alloc, left)?;
    if !left.skip_fixed(Fixed::Colon) {
        return Ok(None);
    }
    let Some(domain) = read_domain(alloc, left)? else {
        return Ok(None);
    };
    Ok(Some(Typed {
        first,
        more,
        domain,
    }))
}

fn read_instance<'a>(left: &mut Tokens<'_, 'a>) -> Option<Binder<'a>>
    ensures { option_map (λ b. (b, left.new)) result ≡ read_instance left.old }
{
    let class = left.take_name()?;
    let sort = left.take_name()?;
    if !left.skip_fixed(Fixed::CloseBracket) {
        return None;
    }
    Some(Binder::Instance(class, sort))
}

// A binder in braces or brackets.
fn read_braced<'a>(alloc: Global, left: &mut Tokens<'_, 'a>) -> Result<Option<Binder<'a>>, Memory>
    ensures { IfOk result (λ o. option_map (λ b. (b, left.new)) o ≡ read_braced left.old) }
{
    if left.skip_fixed(Fixed::OpenBrace) {
        let Some(typed) = read_typed(alloc, left)? else {
            return Ok(None);
        };
        if !left.skip_fixed(Fixed::CloseBrace) {
            return Ok(None);
        }
        return Ok(Some(Binder::Implicit(typed)));
    }
    if left.skip_fixed(Fixed::OpenBracket) {
        Ok(read_instance(left))
    } else {
        Ok(None)
    }
}

fn read_binder<'a>(alloc: Global, left: &mut Tokens<'_, 'a>) -> Result<Option<Binder<'a>>, Memory>
    ensures { IfOk result (λ o. option_map (λ b. (b, left.new)) o ≡ read_binder left.old) }
{
    match left.first() {
        Some(Sign::Open(begins_line)) => {
            left.skip();
            let Some(typed) = read_typed(alloc, left)? else {
                return Ok(None);
            };
            if !left.skip_close() {
                return Ok(None);
            }
            Ok(Some(Binder::Explicit(begins_line, typed)))
        }
        Some(Sign::Fixed(_)) => read_braced(alloc, left),
        _ => Ok(None),
    }
}

pub fn opens_binder<'a>(left: &Tokens<'_, 'a>) -> bool
    ensures { result ≡ opens_binder left.now }
{
    match left.first() {
        Some(Sign::Open(_)) => true,
        Some(Sign::Fixed(word)) => is(word, Fixed::OpenBrace) || is(word, Fixed::OpenBracket),
        _ => false,
    }
}

/// Reads binders as long as one opens.
pub fn read_binders<'a>(
    alloc: Global,
    left: &mut Tokens<'_, 'a>,
) -> Result<Option<Items<Binder<'a>>>, Memory>
    ensures { IfOk result (λ o. option_map (λ bs. (bs, left.new)) o ≡ read_binders left.old) }
{
    let mut binders = Vec::new(alloc);
    'binders: while opens_binder(left) {
        let Some(binder) = read_binder(alloc, left)? else {
            return Ok(None);
        };
        binders.push(binder)?;
    }
    Ok(Some(Items::of(binders)))
}
