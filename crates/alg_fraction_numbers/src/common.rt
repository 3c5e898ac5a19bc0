ghost use Rattle.std.specs.Prelude.{◌≡◌, ◌*ℤ◌, ◌+ℤ◌, ◌<◌, ◌^◌, pos};
ghost use Rattle.alg_num.specs.LeastSum.{LeastSumInRange};
ghost use Rattle.alg_num.specs.LowestTerms.{Reduces};
ghost use Rattle.alg_num.specs.Range.{InRange};
ghost use Rattle.alg_num.specs.Sum.{sum_of};
ghost use Rattle.alg_fraction_numbers.specs.Common.{IsCommon};

use alg_num::{Frac, gcd};

/// The least common multiple of the denominators of two fractions: the factors that lead to it, also from the
/// denominator of the sum, and the numerators over it.
#[derive(Clone, Copy, Debug, Drop)]
pub struct Common {
    pub first: u128,
    pub second: u128,
    pub third: u128,
    pub multiple: u128,
    pub left: i128,
    pub right: i128,
    pub total: i128,
}

/// The two fractions and their sum z over the least common multiple.
pub fn over_common(x: &Frac, y: &Frac, z: &Frac) -> Common
    requires adds { Reduces (sum_of x.now y.now) z.now }
    requires small { LeastSumInRange x.now y.now }
    ensures { IsCommon x.now y.now z.now result }
{
    let a = x.den();
    let b = y.den();
    let divisor = gcd(a, b);
    let first = b / divisor;
    let second = a / divisor;
    let multiple = a * first;
    let third = multiple / z.den();
    let m = x.num();
    let n = y.num();
    let left = scaled(&m, first);
    let right = scaled(&n, second);
    let total = added(&left, &right);
    Common {
        first,
        second,
        third,
        multiple,
        left,
        right,
        total,
    }
}

/// A whole number times a factor.
pub fn scaled(n: &i128, factor: u128) -> i128
    requires small { factor < 2 ^ 127 }
    requires fits { InRange (n.now *ℤ pos factor) }
    ensures { result ≡ n.now *ℤ pos factor }
{
    *n * factor as i128
}

// the sum of two whole numbers
fn added(m: &i128, n: &i128) -> i128
    requires { InRange (m.now +ℤ n.now) }
    ensures { result ≡ m.now +ℤ n.now }
{
    *m + *n
}
