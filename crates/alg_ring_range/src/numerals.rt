//! The numbers of exponents, capped.
ghost use Rattle.std.specs.Prelude.{◌≡◌, Some, None};
ghost use Rattle.alg_ring_range.specs.Capped.{capped_numeral};
ghost use Rattle.alg_expansions.specs.Numerals.{sum_numeral, product_numeral, power_numeral};

use crate::capped::{capped_power, capped_product, capped_sum};

pub(crate) fn sum_numeral(a: Option<u128>, b: Option<u128>) -> Option<u128>
    ensures { result ≡ capped_numeral (sum_numeral a b) }
{
    match (a, b) {
        (Some(m), Some(n)) => Some(capped_sum(m, n)),
        _ => None,
    }
}

pub(crate) fn product_numeral(a: Option<u128>, b: Option<u128>) -> Option<u128>
    ensures { result ≡ capped_numeral (product_numeral a b) }
{
    match (a, b) {
        (Some(m), Some(n)) => Some(capped_product(m, n)),
        (Some(m), None) => zero_numeral(m),
        (None, Some(n)) => zero_numeral(n),
        (None, None) => None,
    }
}

// a product with an unknown factor
fn zero_numeral(m: u128) -> Option<u128>
    ensures { result ≡ capped_numeral (product_numeral (Some m) None) }
{
    if m == 0 { Some(0) } else { None }
}

pub(crate) fn power_numeral(a: Option<u128>, n: u128) -> Option<u128>
    ensures { result ≡ capped_numeral (power_numeral a n) }
{
    match a {
        Some(m) => Some(capped_power(m, n)),
        None => { if n == 0 { Some(1) } else { None } }
    }
}
