ghost use Rattle.std.specs.Prelude.{◌≡◌, ◌≤◌, ◌++◌, ◌∷◌, All, OnOk, IfOk, IfSome};
ghost use Rattle.std.specs.Option.{option_map};
ghost use Rattle.alg_expr.specs.Ids.{statement_of, IsStatementIn};
ghost use Rattle.alg_proof.specs.Lines.{steps_of, IsLineIn};
ghost use Rattle.alg_certificate.specs.Numbers.{max_number};
ghost use Rattle.alg_certificate.specs.Spelling.{goal_bytes};
ghost use Rattle.alg_certificate.specs.InRange.{StepInRange, StatementInRange};
ghost use Rattle.alg_report.specs.Certificate.{step_lines, given_line, entry_bytes};

use alg_certificate::{write_given, write_goal, write_line};
use alg_expr::{Arena, Memory, Stmt};
use alg_kernel::Proved;
use alg_proof::Line;
use std::alloc::Global;

/// A checked goal, and its entry in a certificate where one is written.
#[derive(Drop)]
pub struct Proof {
    pub proved: Proved,
    pub entry: Option<Vec<u8>>,
}

// the lines, each with its line feed
fn write_lines(arena: &Arena, lines: &[Line], out: &mut Vec<u8>) -> Result<(), Memory>
    requires { All (IsLineIn arena.now) lines.now }
    ensures written { OnOk result (out.new.items ≡ out.old.items ++ step_lines (steps_of arena.now lines.now)) }
    ensures steps_in_range { OnOk result (All StepInRange (steps_of arena.now lines.now)) }
{
    let mut left = lines;
    'lines: while let Some((line, rest)) = left.split_first() {
        write_line(arena, line, out)?;
        out.push(b'\n')?;
        left = rest;
    }
    Ok(())
}

// the line of the given statement, with its line feed, where there is one
fn write_given_line(arena: &Arena, given: Option<Stmt>, out: &mut Vec<u8>) -> Result<(), Memory>
    requires { IfSome given (IsStatementIn arena.now) }
    ensures written { OnOk result (out.new.items ≡ out.old.items ++ given_line (option_map (statement_of arena.now) given)) }
    ensures in_range { OnOk result (IfSome (option_map (statement_of arena.now) given) StatementInRange) }
{
    match given {
        None => Ok(()),
        Some(s) => {
            write_given(arena, s, out)?;
            out.push(b'\n')?;
            Ok(())
        }
    }
}

// the first lines of an entry
fn write_head(
    number: u128,
    arena: &Arena,
    given: Option<Stmt>,
    out: &mut Vec<u8>,
) -> Result<(), Memory>
    requires positive { 1 ≤ number }
    requires in_range { number ≤ max_number }
    requires given { IfSome given (IsStatementIn arena.now) }
    ensures written { OnOk result (out.new.items ≡ (out.old.items ++ goal_bytes number) ++ (10 ∷ given_line (option_map (statement_of arena.now) given))) }
    ensures given_in_range { OnOk result (IfSome (option_map (statement_of arena.now) given) StatementInRange) }
{
    write_goal(number, out)?;
    out.push(b'\n')?;
    write_given_line(arena, given, out)
}

/// The entry of a certificate for a goal of this number that these lines prove from the given statement.
pub fn entry_of(
    alloc: Global,
    number: u128,
    arena: &Arena,
    given: Option<Stmt>,
    lines: &[Line],
) -> Result<Vec<u8>, Memory>
    requires positive { 1 ≤ number }
    requires in_range { number ≤ max_number }
    requires given { IfSome given (IsStatementIn arena.now) }
    requires lines_in { All (IsLineIn arena.now) lines.now }
    ensures written { IfOk result (λ v. v.items ≡ entry_bytes number (option_map (statement_of arena.now) given) (steps_of arena.now lines.now)) }
    ensures steps_in_range { OnOk result (All StepInRange (steps_of arena.now lines.now)) }
    ensures given_in_range { OnOk result (IfSome (option_map (statement_of arena.now) given) StatementInRange) }
{
    let mut entry = Vec::new(alloc);
    write_head(number, arena, given, &mut entry)?;
    write_lines(arena, lines, &mut entry)?;
    entry.extend_from_slice(b"end\n")?;
    Ok(entry)
}
