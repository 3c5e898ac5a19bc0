//! Fractions as coefficients.
ghost use Rattle.std.specs.Prelude.{◌≡◌, ◌↔◌, IsTrue};
ghost use Rattle.alg_sums.specs.Rational.{rational};
ghost use Rattle.alg_horner.specs.Facts.{CanAdd, CanMultiply, CanNegate};
ghost use Rattle.alg_horner.specs.FractionMeaning.{ratio_at};

use crate::coeff::Coeff;
use alg_num::Frac;

impl Coeff for Frac {
    ghost use Rattle.alg_horner.specs.FractionMeaning.{ratio_at};

    ghost meaning = { ratio_at };

    fn zero() -> Frac {
        Frac::whole(0)
    }

    fn one() -> Frac {
        Frac::whole(1)
    }

    fn copy(&self) -> Frac {
        *self
    }

    fn add(&self, other: &Frac) -> Frac {
        sum(self, other)
    }

    fn mul(&self, other: &Frac) -> Frac {
        product(self, other)
    }

    fn neg(&self) -> Frac {
        negative(self)
    }

    fn same(&self, other: &Frac) -> bool {
        equal(self, other)
    }
}

fn sum(first: &Frac, second: &Frac) -> Frac
    requires { CanAdd rational (ratio_at first.now) (ratio_at second.now) }
    ensures { ratio_at result ≡ rational.plus (ratio_at first.now) (ratio_at second.now) }
{
    // The denominators say that both are in lowest terms.
    let _lowest = first.den();
    let _lowest = second.den();
    match first.plus(second) {
        Some(total) => total,
        None => Frac::whole(0),
    }
}

fn product(first: &Frac, second: &Frac) -> Frac
    requires { CanMultiply rational (ratio_at first.now) (ratio_at second.now) }
    ensures { ratio_at result ≡ rational.times (ratio_at first.now) (ratio_at second.now) }
{
    // The denominators say that both are in lowest terms.
    let _lowest = first.den();
    let _lowest = second.den();
    match first.times(second) {
        Some(both) => both,
        None => Frac::whole(0),
    }
}

fn negative(number: &Frac) -> Frac
    ensures { ratio_at result ≡ rational.minus (ratio_at number.now) }
{
    // The denominator says that the number is in lowest terms.
    let _lowest = number.den();
    number.neg()
}

fn equal(first: &Frac, second: &Frac) -> bool
    ensures { IsTrue result ↔ (ratio_at first.now ≡ ratio_at second.now) }
{
    // The denominators say that both are in lowest terms.
    let _lowest = first.den();
    let _lowest = second.den();
    same_numbers(first, second)
}

fn same_numbers(first: &Frac, second: &Frac) -> bool
    ensures { IsTrue result ↔ (first.now ≡ second.now) }
{
    first.num() == second.num() && first.den() == second.den()
}
