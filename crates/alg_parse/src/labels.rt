ghost use Rattle.std.specs.Prelude.{◌≡◌, IfOk};
ghost use Rattle.alg_parse.specs.Told as spec;

use alg_expr::{Memory, Text};
use std::alloc::Global;

/// The label of a goal without a name: `example@` and its line.
pub fn unnamed(alloc: Global, line: u32) -> Result<Text, Memory>
    ensures { IfOk result (λ label. label ≡ spec.unnamed line) }
{
    let label = format!(in alloc; "example@{line}")?;
    Ok(Text::of(label))
}
