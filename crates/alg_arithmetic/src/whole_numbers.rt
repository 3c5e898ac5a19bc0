//! Exponents and factors.
ghost use Rattle.std.specs.Prelude.{◌≡◌, ◌<◌, ◌^◌, unsigned_abs};

use alg_num::Frac;

/// The absolute value of a whole number.
pub(crate) fn size(k: Frac) -> u128
    ensures size { result ≡ unsigned_abs k.numerator }
    ensures small { result < 2 ^ 127 }
{
    k.num().unsigned_abs()
}
