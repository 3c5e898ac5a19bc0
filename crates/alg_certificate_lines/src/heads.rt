ghost use Rattle.std.specs.Prelude.{◌≡◌};
ghost use Rattle.alg_law.specs.WellSorted.{literal_mark};
ghost use Rattle.alg_certificate_lines.specs.Known.{is_good};

use crate::known::is_good;
use alg_expr::Sort;
use alg_law::{Base, has, literal_class, mark_for_sort};

// Whether the literal has its class.
pub(crate) fn is_good_literal(base: &Base, sort: Sort, value: u128) -> bool
    ensures { result ≡ is_good (literal_mark base.now sort value) }
{
    let known = is_good(mark_for_sort(base, sort));
    let there = has(base, sort, literal_class(value));
    known && there
}
