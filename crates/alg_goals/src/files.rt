ghost use Rattle.std.specs.Prelude.{◌≤◌, ◌^◌, length, All, IfOk};
ghost use Rattle.alg_parse.specs.FileTrees.{IsRead};
ghost use Rattle.alg_goals.specs.Goals.{IsDeclarableIn};

use alg_expr::Memory;
use alg_parse::{FileTree, read_file};
use std::alloc::Global;

/// Reads a file of at most 16 MiB, as `read_file` does. The declarations that are in force for each of its goals can be
/// written as binders of a file, one after another; so each declared function has an argument.
pub fn read_goals(alloc: Global, src: &str) -> Result<FileTree, Memory>
    requires { length src.now ≤ 2 ^ 24 }
    ensures read { IfOk result (IsRead src.now) }
    ensures declarable { IfOk result (λ f. All (IsDeclarableIn f.arena f.shared) f.commands) }
{
    read_file(alloc, src)
}
