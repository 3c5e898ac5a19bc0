ghost use Rattle.std.specs.Prelude.{◌≡◌, Some, Result, IfOk, IfSome, option_map};
ghost use Rattle.alg_syntax.specs.declared.commands.Command as declared;
ghost use Rattle.alg_syntax.specs.declared.commands.Command.TheVariants as command;
ghost use Rattle.alg_syntax.specs.declared.commands.Unread.{Unread};
ghost use Rattle.alg_syntax.specs.Parsers.{mapped};
ghost use Rattle.alg_syntax.specs.Front.{name_first};
ghost use Rattle.alg_syntax.specs.Signs.{signs};
ghost use Rattle.alg_syntax.specs.Commands.{IsRead};
ghost use Rattle.alg_syntax.specs.Answers.{Answers};
ghost use Rattle.alg_syntax.specs.Reading.{read_goal, read_variable, read_theorem, read_example, read_any};

use crate::binders::{Binder, read_binders};
use crate::front::Tokens;
use crate::limits::is_too_deep;
use crate::scripts::{Script, read_script};
use crate::signs::{Fixed, Name};
use crate::statements::{Statement, read_statement};
use alg_expr::{Items, Memory};
use alg_lex::Token;
use std::alloc::Global;

/// What is to be proved, and how.
#[derive(Drop)]
pub struct Goal<'a> {
    pub binders: Items<Binder<'a>>,
    pub statement: Statement<'a>,
    pub script: Script<'a>,
}

#[derive(Drop)]
pub enum Command<'a> {
    Import(Name<'a>),
    /// At least one binder.
    Variable(Items<Binder<'a>>),
    Theorem(Name<'a>, Goal<'a>),
    Example(Goal<'a>),
}

/// Why a command isn't read, by its tokens alone.
#[derive(Clone, Copy)]
pub enum Unread {
    /// More than 4,096 tokens, or more than 256 open parentheses, braces and brackets.
    TooDeep,
    /// Not too deep, and no command is spelled so.
    Syntax,
}

fn read_goal<'a>(alloc: Global, left: &mut Tokens<'_, 'a>) -> Result<Option<Goal<'a>>, Memory>
    ensures { IfOk result (λ o. option_map (λ g. (g, left.new)) o ≡ read_goal left.old) }
{
    let Some(binders) = read_binders(alloc, left)? else {
        return Ok(None);
    };
    if !left.skip_fixed(Fixed::Colon) {
        return Ok(None);
    }
    let Some(statement) = read_statement(alloc, left)? else {
        return Ok(None);
    };
    if !left.skip_fixed(Fixed::Assign) {
        return Ok(None);
    }
    if !left.skip_fixed(Fixed::By) {
        return Ok(None);
    }
    let Some(script) = read_script(alloc, left)? else {
        return Ok(None);
    };
    Ok(Some(Goal {
        binders,
        statement,
        script,
    }))
}

fn read_import<'a>(left: &mut Tokens<'_, 'a>) -> Option<Command<'a>>
    ensures { option_map (λ c. (c, left.new)) result ≡ mapped command.Import name_first left.old }
{
    match left.take_name() {
        Some(name) => Some(Command::Import(name)),
        None => None,
    }
}

fn read_variable<'a>(
    alloc: Global,
    left: &mut Tokens<'_, 'a>,
) -> Result<Option<Command<'a>>, Memory>
    ensures { IfOk result (λ o. option_map (λ c. (c, left.new)) o ≡ read_variable left.old) }
{
    let Some(binders) = read_binders(alloc, left)? else {
        return Ok(None);
    };
    if binders.as_slice().len() == 0 {
        return Ok(None);
    }
    Ok(Some(Command::Variable(binders)))
}

fn read_theorem<'a>(alloc: Global, left: &mut Tokens<'_, 'a>) -> Result<Option<Command<'a>>, Memory>
    ensures { IfOk result (λ o. option_map (λ c. (c, left.new)) o ≡ read_theorem left.old) }
{
    let Some(name) = left.take_name() else {
        return Ok(None);
    };
    let Some(goal) = read_goal(alloc, left)? else {
        return Ok(None);
    };
    Ok(Some(Command::Theorem(name, goal)))
}

fn read_example<'a>(alloc: Global, left: &mut Tokens<'_, 'a>) -> Result<Option<Command<'a>>, Memory>
    ensures { IfOk result (λ o. option_map (λ c. (c, left.new)) o ≡ read_example left.old) }
{
    let Some(goal) = read_goal(alloc, left)? else {
        return Ok(None);
    };
    Ok(Some(Command::Example(goal)))
}

fn read_any<'a>(alloc: Global, left: &mut Tokens<'_, 'a>) -> Result<Option<Command<'a>>, Memory>
    ensures { IfOk result (λ o. option_map (λ c. (c, left.new)) o ≡ read_any left.old) }
{
    if left.skip_fixed(Fixed::Import) {
        return Ok(read_import(left));
    }
    if left.skip_fixed(Fixed::Variable) {
        return read_variable(alloc, left);
    }
    if left.skip_fixed(Fixed::Theorem) {
        return read_theorem(alloc, left);
    }
    if left.skip_fixed(Fixed::Example) {
        read_example(alloc, left)
    } else {
        Ok(None)
    }
}

/// Reads a command, of which the tokens are all.
pub fn read_command<'a>(alloc: Global, tokens: &[Token<'a>]) -> Result<Option<Command<'a>>, Memory>
    ensures found { IfOk result (λ o. IfSome o (λ c. IsRead (signs tokens.now) c)) }
    // What is spelled so is read.
    ensures only { IfOk result (λ o. (c : declared.Command) → IsRead (signs tokens.now) c → o ≡ Some c) }
    // All tokens have one reading at most.
    ensures unique { (c d : declared.Command) → IsRead (signs tokens.now) c → IsRead (signs tokens.now) d → c ≡ d }
{
    let mut left = Tokens::of(tokens);
    let Some(command) = read_any(alloc, &mut left)? else {
        return Ok(None);
    };
    match left.first() {
        Some(_) => Ok(None),
        None => Ok(Some(command)),
    }
}

/// Reads a command within the limits.
pub fn read_within_limits<'a>(
    alloc: Global,
    tokens: &[Token<'a>],
) -> Result<Result<Command<'a>, Unread>, Memory>
    ensures answer { IfOk result (λ r. Answers (signs tokens.now) r) }
    // All tokens have one answer at most.
    ensures unique { (r s : Result declared.Command Unread) → Answers (signs tokens.now) r → Answers (signs tokens.now) s → r ≡ s }
{
    if is_too_deep(tokens) {
        return Ok(Err(Unread::TooDeep));
    }
    match read_command(alloc, tokens)? {
        Some(command) => Ok(Ok(command)),
        None => Ok(Err(Unread::Syntax)),
    }
}
