//! Denominator, weight and degree.
ghost use Rattle.std.specs.Prelude.{◌≡◌, ℕ, ◌<◌, ◌/◌, SomeIff, false};
ghost use Rattle.alg_ring_range.specs.Capped.{capped};
ghost use Rattle.alg_law.specs.Computing.{least_multiple};
ghost use Rattle.alg_ring_range.specs.Sizes.{is_past, literal_sizes, product_sizes, power_sizes, quotient_sizes};
ghost use Rattle.alg_ring_range.specs.Found.{both_of, scaled_sizes};

use crate::capped::{cap, capped_max, capped_power, capped_product, capped_sum};
use alg_num::gcd;

/// Denominator, weight and degree.
#[derive(Clone, Copy, Debug)]
pub struct Sizes {
    pub denominator: u128,
    pub weight: u128,
    pub degree: u128,
}

// the sizes, where these numbers are them capped, unless they are past a limit
fn within(denominator: u128, weight: u128, degree: u128) -> Option<Sizes>
    ensures { (z : Sizes) → denominator ≡ capped z.denominator → weight ≡ capped z.weight → degree ≡ capped z.degree → SomeIff result (is_past z ≡ false) z }
{
    if denominator > 1 << 126 {
        return None;
    }
    if weight > 1 << 126 {
        return None;
    }
    if degree >= 1 << 32 {
        return None;
    }
    Some(Sizes {
        denominator,
        weight,
        degree,
    })
}

pub(crate) fn literal_sizes(n: u128) -> Option<Sizes>
    ensures { SomeIff result (is_past (literal_sizes n) ≡ false) (literal_sizes n) }
{
    within(1, cap(n), 0)
}

// what leads from two denominators to their least common multiple
pub(crate) fn scales(a: u128, b: u128) -> (u128, u128)
    ensures left { 0 < a → 0 < b → result.0 ≡ least_multiple a b / a }
    ensures right { 0 < a → 0 < b → result.1 ≡ least_multiple a b / b }
{
    let common = gcd(a, b);
    if common == 0 {
        return (1, 1);
    }
    (b / common, a / common)
}

// the sizes of a sum whose parts are multiplied first
pub(crate) fn scaled_sizes(x: Sizes, s: u128, y: Sizes, t: u128) -> Option<Sizes>
    ensures { SomeIff result (is_past (scaled_sizes x s y t) ≡ false) (scaled_sizes x s y t) }
{
    within(
        capped_product(x.denominator, s),
        capped_sum(capped_product(x.weight, s), capped_product(y.weight, t)),
        capped_max(x.degree, y.degree),
    )
}

pub(crate) fn product_sizes(x: Sizes, y: Sizes) -> Option<Sizes>
    ensures { SomeIff result (is_past (product_sizes x y) ≡ false) (product_sizes x y) }
{
    within(
        capped_product(x.denominator, y.denominator),
        capped_product(x.weight, y.weight),
        capped_sum(x.degree, y.degree),
    )
}

// the exponent is capped
pub(crate) fn power_sizes(x: Sizes, n: u128) -> Option<Sizes>
    ensures { (c : ℕ) → n ≡ capped c → SomeIff result (is_past (power_sizes x c) ≡ false) (power_sizes x c) }
{
    within(
        capped_power(x.denominator, n),
        capped_power(x.weight, n),
        capped_product(n, x.degree),
    )
}

pub(crate) fn quotient_sizes(x: Sizes) -> Option<Sizes>
    ensures { SomeIff result (is_past (quotient_sizes x) ≡ false) (quotient_sizes x) }
{
    within(cap(x.denominator), cap(x.weight), capped_sum(x.degree, 1))
}

// these sizes, unless they are past a limit
pub(crate) fn kept(x: Sizes) -> Option<Sizes>
    ensures { SomeIff result (is_past x ≡ false) x }
{
    within(cap(x.denominator), cap(x.weight), cap(x.degree))
}

pub(crate) fn both(x: Option<Sizes>, y: Option<Sizes>) -> Option<(Sizes, Sizes)>
    ensures { result ≡ both_of x y }
{
    match x {
        Some(p) => match y {
            Some(q) => Some((p, q)),
            None => None,
        },
        None => None,
    }
}
