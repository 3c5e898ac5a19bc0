//! Whole numbers as coefficients.
ghost use Rattle.std.specs.Prelude.{◌≡◌, ◌↔◌, IsTrue, ◌≤◌, ◌^◌, ◌+ℤ◌, ◌*ℤ◌, neg_ℤ, unsigned_abs};
ghost use Rattle.alg_sums.specs.RatioRing.{whole_number};

use crate::coeff::Coeff;

impl Coeff for i128 {
    ghost meaning = { whole_number };

    fn zero() -> i128 {
        0
    }

    fn one() -> i128 {
        1
    }

    fn copy(&self) -> i128 {
        *self
    }

    fn add(&self, other: &i128) -> i128 {
        sum(*self, *other)
    }

    fn mul(&self, other: &i128) -> i128 {
        product(*self, *other)
    }

    fn neg(&self) -> i128 {
        negative(*self)
    }

    fn same(&self, other: &i128) -> bool {
        equal(*self, *other)
    }
}

fn sum(first: i128, second: i128) -> i128
    requires { unsigned_abs (first +ℤ second) ≤ 2 ^ 126 }
    ensures { result ≡ first +ℤ second }
{
    first + second
}

fn product(first: i128, second: i128) -> i128
    requires { unsigned_abs (first *ℤ second) ≤ 2 ^ 126 }
    ensures { result ≡ first *ℤ second }
{
    first * second
}

fn negative(number: i128) -> i128
    requires { unsigned_abs number ≤ 2 ^ 126 }
    ensures { result ≡ neg_ℤ number }
{
    -number
}

fn equal(first: i128, second: i128) -> bool
    ensures { IsTrue result ↔ (first ≡ second) }
{
    first == second
}
