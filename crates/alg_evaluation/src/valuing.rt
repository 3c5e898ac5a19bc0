ghost use Rattle.std.specs.Prelude.{◌≡◌, length};
ghost use Rattle.alg_expr.specs.Ids.{tree_of, IsIn};
ghost use Rattle.alg_law.specs.WellSorted.{IsWellSorted};
ghost use Rattle.alg_lemma.specs.Library.{HoldsLibrary};
ghost use Rattle.alg_build.specs.Book.{Grows};
ghost use Rattle.alg_values.specs.Setting.{setting};
ghost use Rattle.alg_values.specs.Values.{value as value_of};
ghost use Rattle.alg_exts.specs.Covers.{covered_by};
ghost use Rattle.alg_exts.specs.Valuing.{GivesValue};

use crate::found::Kind;
use crate::reading::found_of;
use crate::walk::all_found;
use alg_build::{Builder, line_of};
use alg_expr::ExprId;
use alg_exts::{NumExt, NumFault, Valued};
use alg_marks::marked;

/// The value of a tree by the extensions that are on, with a line for it. `None` comes where it has none, and `Range`
/// where its parts have values and it is past the range. Lines and atoms may be new, also after a fault.
pub fn value(
    cx: &mut Builder,
    e: ExprId,
    exts: &[Box<dyn NumExt>],
    on: &[bool],
) -> Result<Option<Valued>, NumFault>
    requires even { length on.now ≡ length exts.now }
    requires here { IsIn cx.old.trees e }
    requires sorted { IsWellSorted cx.old.theory.declarations (tree_of cx.old.trees e) }
    requires lemmas { HoldsLibrary cx.old.theory.lemmas }
    ensures gives { GivesValue cx.new e result (value_of (setting cx.old.theory.declarations (covered_by (λ x f. covered x f) exts.now on.now)) (tree_of cx.old.trees e)) }
    ensures grows { Grows cx.old cx.new }
{
    let wanted = marked(cx, e, e)?;
    let found = all_found(cx, wanted.as_slice(), exts, on)?;
    let f = found_of(cx, wanted.as_slice(), found.as_slice(), e);
    match f.kind {
        Kind::Num => {
            let line = line_of(cx, f.shown)?;
            Ok(Some(Valued {
                expr: e,
                value: f.value,
                line,
            }))
        }
        Kind::Past => Err(NumFault::Range),
        Kind::Without => Ok(None),
    }
}
