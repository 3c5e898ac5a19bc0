ghost use Rattle.std.specs.Prelude.{◌≡◌, IfOk, string_bytes};
ghost use Rattle.alg_expr.specs.Ids.{statement_of, IsStatementIn};
ghost use Rattle.alg_law.specs.WellSorted.{IsStatement};
ghost use Rattle.alg_show.specs.Goals.{IsWithinLimits, IsReadAsGoal};
ghost use Rattle.alg_show.specs.ReadingBack.{AreDeclarable, ReadsBack};
ghost use Rattle.alg_show.specs.Text.{shown_text};
ghost use Rattle.alg_goals.specs.Goals.{WasRead, IsGoalOf, HasGoal, base_in};

use alg_expr::{Arena, Memory, Stmt};
use alg_law::{Base, Declared};
use alg_parse::FileTree;
use alg_show::show;
use std::alloc::Global;

/// The base of a goal of a file that was read: the shared declarations in force, and then its own. They can be written as
/// binders of a file, one after another.
pub fn base_of(
    alloc: Global,
    file: &FileTree,
    prefix: usize,
    local: &[Declared],
) -> Result<Base, Memory>
    requires read { WasRead file.now }
    requires goal { HasGoal file.now prefix local.now }
    ensures base { IfOk result (λ b. b ≡ base_in file.now prefix local.now) }
    ensures declarable { IfOk result AreDeclarable }
{
    Base::joined(alloc, &file.shared, prefix, &file.arena, local)
}

/// The text of any statement over the base of a goal of a file that was read. It reads back, and within 3,000 tokens and
/// 256 open parentheses it may stand in a command.
pub fn show_over(
    alloc: Global,
    file: &FileTree,
    prefix: usize,
    local: &[Declared],
    arena: &Arena,
    s: Stmt,
) -> Result<String, Memory>
    requires read { WasRead file.now }
    requires goal { HasGoal file.now prefix local.now }
    requires here { IsStatementIn arena.now s }
    requires sorted { IsStatement (base_in file.now prefix local.now) (statement_of arena.now s) }
    ensures text { IfOk result (λ t. string_bytes t ≡ shown_text (base_in file.now prefix local.now) (statement_of arena.now s)) }
    ensures reads_back { IfOk result (λ t. ReadsBack (base_in file.now prefix local.now) (statement_of arena.now s) (string_bytes t)) }
    ensures read { IfOk result (λ t. IsWithinLimits (base_in file.now prefix local.now) (statement_of arena.now s) → IsReadAsGoal (base_in file.now prefix local.now) (statement_of arena.now s) (string_bytes t)) }
{
    let base = base_of(alloc, file, prefix, local)?;
    show(alloc, &base, arena, s)
}

/// The text of a goal's own statement.
pub fn show_goal(
    alloc: Global,
    file: &FileTree,
    prefix: usize,
    local: &[Declared],
    stmt: Stmt,
) -> Result<String, Memory>
    requires read { WasRead file.now }
    requires goal { IsGoalOf file.now prefix local.now stmt }
    ensures text { IfOk result (λ t. string_bytes t ≡ shown_text (base_in file.now prefix local.now) (statement_of file.now.arena stmt)) }
    ensures reads_back { IfOk result (λ t. ReadsBack (base_in file.now prefix local.now) (statement_of file.now.arena stmt) (string_bytes t)) }
    ensures read { IfOk result (λ t. IsWithinLimits (base_in file.now prefix local.now) (statement_of file.now.arena stmt) → IsReadAsGoal (base_in file.now prefix local.now) (statement_of file.now.arena stmt) (string_bytes t)) }
{
    show_over(alloc, file, prefix, local, &file.arena, stmt)
}
