ghost use Rattle.std.specs.Prelude.{◌≡◌, ◌++◌, List, All, IfOk};
ghost use Rattle.alg_terms.specs.Tree.{Trees};
ghost use Rattle.alg_expr.specs.Arena.{Extends};
ghost use Rattle.alg_expr.specs.Ids.{IsIn};
ghost use Rattle.alg_certificate.specs.Spelling.{Item, bytes, spell_all, spell_items, TreesFit};
ghost use Rattle.alg_certificate_lines.specs.Adding.{AreWords};
ghost use Rattle.alg_certificate_lines.specs.Steps.{trees_read, GivesTrees};

use crate::building::read_trees;
use crate::faults::LineFault;
use alg_expr::{Arena, ExprId, Items};
use alg_law::Base;

// The trees that the text begins with, by all three questions.
pub(crate) fn read_good(
    arena: &mut Arena,
    base: &Base,
    text: &[u8],
) -> Result<Items<ExprId>, LineFault>
    ensures keeps { Extends arena.old arena.new }
    ensures here { IfOk result (λ es. All (IsIn arena.new) es) }
    ensures gives { (ts : Trees) (is : List Item) → TreesFit ts → AreWords is → bytes (spell_all ts ++ spell_items is) ≡ text.now → GivesTrees arena.new (trees_read base.now ts) result }
{
    match read_trees(arena, base, text) {
        Ok((ids, classed)) => if classed {
            Ok(ids)
        } else {
            Err(LineFault::NoInstance)
        },
        Err(fault) => Err(fault),
    }
}
