ghost use Rattle.std.specs.Prelude.{◌≤◌, ◌^◌, [], length, IfOk};
ghost use Rattle.std.specs.Str.{chars};
ghost use Rattle.alg_lex.specs.Items.{items_from, beginning};
ghost use Rattle.alg_commands.specs.Cutting.{commands_of};
ghost use Rattle.alg_parse.specs.FileTrees.{IsRead};
ghost use Rattle.alg_parse.specs.Progress.{ReadsTo};

use crate::procedures::Proc;
use crate::reader::Reader;
use alg_commands::files::Commands;
use alg_elaborate::Cause;
use alg_expr::{Arena, Items, Memory, Stmt, Text};
use alg_law::{Declared, Shared};
use std::alloc::Global;

/// A command of a file.
#[derive(Drop)]
pub enum Command {
    /// An import or declarations.
    Declares,
    /// A goal: the theorem's name, or `example@` and the line of its first token; how many of the file's shared
    /// declarations are in force; its own declarations, its statement and its procedures.
    Goal {
        label: Text,
        line: u32,
        prefix: usize,
        local: Items<Declared>,
        stmt: Stmt,
        script: Items<Proc>,
    },
    /// A faulty command: the line of its first token or lexer fault, and its first cause.
    Fault {
        line: u32,
        cause: Cause,
    },
}

/// A file as it was read. The statements and expressions of its commands are of `arena`.
#[derive(Drop)]
pub struct FileTree {
    pub arena: Arena,
    pub shared: Shared,
    pub commands: Items<Command>,
}

// Reads all commands of a file.
fn read_commands(alloc: Global, src: &str) -> Result<Reader, Memory>
    requires { length src.now ≤ 2 ^ 24 }
    ensures { IfOk result (ReadsTo (commands_of (items_from beginning (chars src.now))) []) }
{
    let mut reader = Reader::new(alloc)?;
    let mut commands = Commands::new(alloc, src);
    'file: while let Some(reading) = commands.next()? {
        reader.take(alloc, &reading)?;
        drop(reading);
    }
    Ok(reader)
}

/// Reads a file of at most 16 MiB, in time that grows with its length.
pub fn read_file(alloc: Global, src: &str) -> Result<FileTree, Memory>
    requires { length src.now ≤ 2 ^ 24 }
    ensures { IfOk result (IsRead src.now) }
{
    let reader = read_commands(alloc, src)?;
    let file = reader.finish(alloc)?;
    Ok(file)
}
