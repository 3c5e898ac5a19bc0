ghost use Rattle.std.specs.Prelude.{◌≡◌, All, map};
ghost use Rattle.alg_law.specs.LawRows.{row_of};
ghost use Rattle.alg_law.specs.Laws.{law_groups};
ghost use Rattle.alg_law.specs.TrueRows.{IsTrueRow};

use crate::additive_laws::{multiple_laws, sum_laws};
use crate::multiplicative_laws::{power_laws, product_laws};
use crate::order_laws::{min_max_laws, order_laws};
use crate::ordered_ring_laws::{ordered_ring_laws, ordered_semiring_laws};
use crate::ring_laws::{field_laws, semiring_laws, unequal_laws};
use crate::rows::Law;

/// The laws, in groups.
///
/// None is false where the integers can tell: with every sort but ℚ read as the integers, and ℕ as those from 0 up, each
/// instance of each law holds where its premises do. Symbols mean there what they mean in Lean and Mathlib. Groups and
/// fields can't be read so; their laws have no instance over the bases that the clause speaks of.
pub fn laws() -> [&'static [Law]; 11]
    ensures table { map (λ g. map row_of g.now) result ≡ law_groups }
    ensures none_false { All (All IsTrueRow) (map (λ g. map row_of g.now) result) }
{
    [
        sum_laws(),
        multiple_laws(),
        product_laws(),
        power_laws(),
        semiring_laws(),
        field_laws(),
        unequal_laws(),
        order_laws(),
        min_max_laws(),
        ordered_semiring_laws(),
        ordered_ring_laws(),
    ]
}
