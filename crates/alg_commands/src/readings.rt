ghost use Rattle.std.specs.Prelude.{◌≡◌, IfOk, List, Result};
ghost use Rattle.alg_lex.specs.Items.{Item};
ghost use Rattle.alg_syntax.specs.declared.commands.Command as declared;
ghost use Rattle.alg_commands.specs.declared.readings.Unreadable.{Unreadable};
ghost use Rattle.alg_commands.specs.declared.readings.Reading.{Reading};
ghost use Rattle.alg_commands.specs.Pieces.{Keeps};
ghost use Rattle.alg_commands.specs.Outcome.{IsOutcome, IsReading};

use crate::pieces::Piece;
use alg_expr::Memory;
use alg_lex::LexFault;
use alg_syntax::commands::{Command, Unread, read_within_limits};
use std::alloc::Global;

/// Why a command isn't read: the first cause, in this order.
#[derive(Clone, Copy)]
pub enum Unreadable {
    /// Its first character or literal that is no token, or comment that has no end.
    Fault(LexFault),
    /// More than 4,096 tokens, or more than 256 open parentheses, braces and brackets.
    TooDeep,
    /// No command is spelled so.
    Syntax,
}

/// A command of a file, as it was read.
#[derive(Drop)]
pub struct Reading<'a> {
    /// The line of its first token or fault, from 1.
    pub line: u32,
    /// The command, whose names are slices of the source.
    pub command: Result<Command<'a>, Unreadable>,
}

fn read_command<'a>(
    alloc: Global,
    piece: &Piece<'a>,
) -> Result<Result<Command<'a>, Unreadable>, Memory>
    ensures outcome { IfOk result (λ r. (items : List Item) → Keeps items piece.now → IsOutcome items r) }
    ensures only { IfOk result (λ r. (items : List Item) → Keeps items piece.now → (s : Result declared.Command Unreadable) → IsOutcome items s → s ≡ r) }
{
    if let Some(fault) = piece.fault {
        return Ok(Err(Unreadable::Fault(fault)));
    }
    match read_within_limits(alloc, piece.tokens.as_slice())? {
        Ok(command) => Ok(Ok(command)),
        Err(Unread::TooDeep) => Ok(Err(Unreadable::TooDeep)),
        Err(Unread::Syntax) => Ok(Err(Unreadable::Syntax)),
    }
}

/// Reads a command that was passed.
pub fn read<'a>(alloc: Global, piece: &Piece<'a>) -> Result<Reading<'a>, Memory>
    ensures reading { IfOk result (λ r. (items : List Item) → Keeps items piece.now → IsReading items r) }
    ensures only { IfOk result (λ r. (items : List Item) → Keeps items piece.now → (s : Reading) → IsReading items s → s ≡ r) }
{
    Ok(Reading {
        line: piece.line,
        command: read_command(alloc, piece)?,
    })
}
