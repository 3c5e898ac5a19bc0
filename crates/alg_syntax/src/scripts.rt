ghost use Rattle.std.specs.Prelude.{◌≡◌, IfOk, option_map};
ghost use Rattle.alg_syntax.specs.Commands.{combination};
ghost use Rattle.alg_syntax.specs.Parsers.{all_of};
ghost use Rattle.alg_syntax.specs.Reading.{read_step, read_further, separates, read_script};
ghost use Rattle.std.specs.Str.{bytes_eq};

use crate::expressions::{Expression, read_expression};
use crate::front::{Tokens, is};
use crate::signs::{Fixed, Name, Sign};
use alg_expr::{Items, Memory};
use std::alloc::Global;

/// A procedure of a script.
#[derive(Drop)]
pub enum Step<'a> {
    /// `linear_combination e`, with whether it begins a line.
    Combination(bool, Expression<'a>),
    Procedure(Name<'a>),
}

/// A further procedure, after a `;` or on a line of its own.
#[derive(Drop)]
pub struct Further<'a> {
    pub semicolon: bool,
    pub step: Step<'a>,
}

#[derive(Drop)]
pub struct Script<'a> {
    pub first: Step<'a>,
    pub further: Items<Further<'a>>,
}

fn is_combination<'a>(name: &Name<'a>) -> bool
    ensures { result ≡ bytes_eq name.now.text combination }
{
    name.text() == "linear_combination"
}

fn read_step<'a>(alloc: Global, left: &mut Tokens<'_, 'a>) -> Result<Option<Step<'a>>, Memory>
    ensures { IfOk result (λ o. option_map (λ s. (s, left.new)) o ≡ read_step left.old) }
{
    let Some(name) = left.take_name() else {
        return Ok(None);
    };
    if !is_combination(&name) {
        return Ok(Some(Step::Procedure(name)));
    }
    let Some(proof) = read_expression(alloc, left)? else {
        return Ok(None);
    };
    Ok(Some(Step::Combination(name.begins_line(), proof)))
}

fn separates<'a>(left: &Tokens<'_, 'a>) -> bool
    ensures { result ≡ separates left.now }
{
    match left.first() {
        Some(Sign::Fixed(word)) => is(word, Fixed::Semicolon),
        Some(Sign::Name(name)) => name.begins_line(),
        _ => false,
    }
}

fn read_further<'a>(alloc: Global, left: &mut Tokens<'_, 'a>) -> Result<Option<Further<'a>>, Memory>
    ensures { IfOk result (λ o. option_map (λ s. (s, left.new)) o ≡ read_further left.old) }
{
    let semicolon = left.skip_fixed(Fixed::Semicolon);
    let Some(step) = read_step(alloc, left)? else {
        return Ok(None);
    };
    Ok(Some(Further { semicolon, step }))
}

fn read_rest<'a>(
    alloc: Global,
    left: &mut Tokens<'_, 'a>,
) -> Result<Option<Items<Further<'a>>>, Memory>
    ensures { IfOk result (λ o. option_map (λ s. (s, left.new)) o ≡ all_of read_further separates left.old) }
{
    let mut further = Vec::new(alloc);
    'steps: while separates(left) {
        let Some(step) = read_further(alloc, left)? else {
            return Ok(None);
        };
        further.push(step)?;
    }
    Ok(Some(Items::of(further)))
}

/// Reads a script as long as a `;` or a name at the beginning of a line follows.
pub fn read_script<'a>(
    alloc: Global,
    left: &mut Tokens<'_, 'a>,
) -> Result<Option<Script<'a>>, Memory>
    ensures { IfOk result (λ o. option_map (λ s. (s, left.new)) o ≡ read_script left.old) }
{
    let Some(first) = read_step(alloc, left)? else {
        return Ok(None);
    };
    let Some(further) = read_rest(alloc, left)? else {
        return Ok(None);
    };
    Ok(Some(Script { first, further }))
}
