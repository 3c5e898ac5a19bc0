//! Fractions in lowest terms whose numerator and denominator are at most 2^127 - 1 in absolute value.
ghost use Rattle.std.specs.Prelude.{◌≡◌, ℕ, ◌*◌, ◌<◌, ◌^◌, ◌+ℤ◌, ◌*ℤ◌, ℤ, pos, neg_ℤ, SomeIff, if◌then◌else◌};
ghost use Rattle.alg_num.specs.Range.{InRange};
ghost use Rattle.alg_num.specs.Fraction.{Fraction, NumbersInRange};
ghost use Rattle.alg_num.specs.LowestTerms.{IsInLowestTerms, Reduces, LowestInRange};
ghost use Rattle.alg_num.specs.Answer.{ReducesIff};
ghost use Rattle.alg_num.specs.Sum.{sum_of, ScaledSumInRange, SumInRange};
ghost use Rattle.alg_num.specs.LeastSum.{LeastSumInRange};
ghost use Rattle.alg_num.specs.Product.{product_of};
ghost use Rattle.alg_num.specs.Power.{power_of};
ghost use Rattle.alg_num.specs.Inverse.{IsInverse};
ghost use Rattle.alg_num.specs.Negative.{negative_of};
ghost use Rattle.alg_num.specs.Order.{order_of, CrossProductsInRange, is_different, CrossDifferenceInRange};

use crate::integers::{add, gcd, mul, pow, sub};
use std::cmp::Ordering;
use std::marker::Model;

/// A fraction in lowest terms. Contracts see it as a `Fraction`.
#[derive(Clone, Copy, PartialEq, Eq, Debug)]
pub struct Frac {
    num: i128,
    den: u128,
}

impl Model for Frac {
    ghost use Rattle.alg_num.specs.Fraction.{Fraction};
    ghost use Rattle.alg_num.specs.LowestTerms.{IsFracValue};

    ghost Value = { Fraction };

    ghost view = { λ f. record { numerator = f.num; denominator = f.den } };

    ghost invariant = { λ f. IsFracValue (record { numerator = f.num; denominator = f.den }) };

    ghost inverse = { λ q. record { num = q.numerator; den = q.denominator } };
}

impl Frac {
    /// The numerator over the denominator, in lowest terms. `None` where the denominator is 0 or past the range.
    pub fn new(num: i128, den: u128) -> Option<Frac>
        requires { InRange num }
        ensures { ReducesIff result ((0 < den) × (den < 2 ^ 127)) (record { numerator = num; denominator = den }) }
    {
        if den == 0 || den >= 1 << 127 {
            return None;
        }
        Some(Frac::reduced(num, den))
    }

    /// The whole number, without a search for a common divisor.
    pub fn whole(num: i128) -> Frac
        requires { InRange num }
        ensures { result ≡ record { numerator = num; denominator = 1 } }
    {
        Frac { num, den: 1 }
    }

    /// The numerator in lowest terms. It has the sign of the fraction.
    pub fn num(&self) -> i128
        ensures number { result ≡ self.now.numerator }
        ensures small { InRange result }
    {
        self.num
    }

    /// The denominator in lowest terms.
    pub fn den(&self) -> u128
        ensures number { result ≡ self.now.denominator }
        ensures small { result < 2 ^ 127 }
        ensures lowest { IsInLowestTerms self.now }
    {
        self.den
    }

    /// The fraction with the other sign.
    pub fn neg(&self) -> Frac
        ensures { result ≡ negative_of self.now }
    {
        Frac {
            num: -self.num,
            den: self.den,
        }
    }

    /// One over the fraction. The inverse of 0 is 0.
    pub fn inv(&self) -> Frac
        ensures { IsInverse self.now result }
    {
        if self.num == 0 {
            return Frac { num: 0, den: 1 };
        }
        Frac {
            num: signed(self.num < 0, self.den),
            den: self.num.unsigned_abs(),
        }
    }

    /// The sum by cross products. `None` where a cross product, their sum or the product of the
    /// denominators is past the range, also where the reduced sum isn't.
    pub fn add(&self, other: &Frac) -> Option<Frac>
        ensures { ReducesIff result (SumInRange self.now other.now) (sum_of self.now other.now) }
    {
        let total = scaled_sum(self.num, other.den, other.num, self.den)?;
        let den = product(self.den, other.den)?;
        Some(Frac::reduced(total, den))
    }

    /// The product. `None` where the product of the numerators or that of the denominators is past
    /// the range, also where the reduced product isn't.
    pub fn mul(&self, other: &Frac) -> Option<Frac>
        ensures { ReducesIff result (NumbersInRange (product_of self.now other.now)) (product_of self.now other.now) }
    {
        let num = mul(self.num, other.num)?;
        let den = product(self.den, other.den)?;
        Some(Frac::reduced(num, den))
    }

    /// The power. The exponent 0 gives 1, also at the base 0. `None` where the power of the numerator
    /// or that of the denominator is past the range.
    pub fn pow(&self, n: u128) -> Option<Frac>
        ensures { ReducesIff result (NumbersInRange (power_of self.now n)) (power_of self.now n) }
    {
        let num = pow(self.num, n)?;
        let den = power(self.den, n)?;
        Some(Frac::reduced(num, den))
    }

    /// The order of the two fractions. `None` where a cross product is past the range.
    pub fn cmp(&self, other: &Frac) -> Option<Ordering>
        ensures { SomeIff result (CrossProductsInRange self.now other.now) (order_of self.now other.now) }
    {
        let left = scaled(self.num, other.den)?;
        let right = scaled(other.num, self.den)?;
        Some(left.cmp(&right))
    }

    /// Whether the two fractions differ. `None` where a cross product is past the range, or the
    /// difference of the two.
    pub fn differs(&self, other: &Frac) -> Option<bool>
        ensures { SomeIff result (CrossDifferenceInRange self.now other.now) (is_different self.now other.now) }
    {
        let left = scaled(self.num, other.den)?;
        let right = scaled(other.num, self.den)?;
        let _difference = sub(left, right)?;
        Some(left.cmp(&right).is_ne())
    }

    /// The sum over the least common multiple of the denominators. `None` where that multiple, a
    /// numerator over it or the sum of the two is past the range. Whole numbers take no search for a
    /// common divisor.
    pub fn plus(&self, other: &Frac) -> Option<Frac>
        ensures { ReducesIff result (LeastSumInRange self.now other.now) (sum_of self.now other.now) }
    {
        if self.den == 1 && other.den == 1 {
            return self.whole_sum(other);
        }
        self.common_sum(other)
    }

    /// The product, with common factors taken out first. `None` where a number of the reduced product
    /// is past the range. Whole numbers take no search for a common divisor.
    pub fn times(&self, other: &Frac) -> Option<Frac>
        ensures { ReducesIff result (LowestInRange (product_of self.now other.now)) (product_of self.now other.now) }
    {
        if self.den == 1 && other.den == 1 {
            return self.whole_product(other);
        }
        self.crossed_product(other)
    }

    /// The sum of two whole numbers.
    fn whole_sum(&self, other: &Frac) -> Option<Frac>
        requires first { self.now.denominator ≡ 1 }
        requires second { other.now.denominator ≡ 1 }
        ensures { ReducesIff result (LeastSumInRange self.now other.now) (sum_of self.now other.now) }
    {
        let num = add(self.num, other.num)?;
        Some(Frac::whole(num))
    }

    /// The product of two whole numbers.
    fn whole_product(&self, other: &Frac) -> Option<Frac>
        requires first { self.now.denominator ≡ 1 }
        requires second { other.now.denominator ≡ 1 }
        ensures { ReducesIff result (LowestInRange (product_of self.now other.now)) (product_of self.now other.now) }
    {
        let num = mul(self.num, other.num)?;
        Some(Frac::whole(num))
    }

    /// The sum over the least common multiple of the denominators.
    fn common_sum(&self, other: &Frac) -> Option<Frac>
        ensures { ReducesIff result (LeastSumInRange self.now other.now) (sum_of self.now other.now) }
    {
        let common = gcd(self.den, other.den);
        let own_part = self.den / common;
        let other_part = other.den / common;
        let total = scaled_sum(self.num, other_part, other.num, own_part)?;
        let den = product(self.den, other_part)?;
        Some(Frac::reduced(total, den))
    }

    /// The product, with common factors taken out first.
    fn crossed_product(&self, other: &Frac) -> Option<Frac>
        ensures { ReducesIff result (LowestInRange (product_of self.now other.now)) (product_of self.now other.now) }
    {
        let left = Frac::reduced(self.num, other.den);
        let right = Frac::reduced(other.num, self.den);
        left.mul(&right)
    }

    /// The fraction of those numbers, with their greatest common divisor taken out.
    fn reduced(num: i128, den: u128) -> Frac
        requires range { InRange num }
        requires positive { 0 < den }
        requires small { den < 2 ^ 127 }
        ensures { Reduces (record { numerator = num; denominator = den }) result }
    {
        let size = num.unsigned_abs();
        let common = gcd(size, den);
        Frac {
            num: signed(num < 0, size / common),
            den: den / common,
        }
    }
}

/// The number of that size, below 0 or not.
fn signed(negative: bool, size: u128) -> i128
    requires { size < 2 ^ 127 }
    ensures { result ≡ (if negative then neg_ℤ (pos size) else pos size) }
{
    let number = size as i128;
    if negative { -number } else { number }
}

/// The product of a numerator and a denominator.
fn scaled(num: i128, den: u128) -> Option<i128>
    requires range { InRange num }
    requires small { den < 2 ^ 127 }
    ensures { SomeIff result (InRange (num *ℤ pos den)) (num *ℤ pos den) }
{
    mul(num, den as i128)
}

/// The sum of two numerators, each multiplied by a denominator first.
fn scaled_sum(a: i128, m: u128, b: i128, n: u128) -> Option<i128>
    requires first { InRange a }
    requires first_small { m < 2 ^ 127 }
    requires second { InRange b }
    requires second_small { n < 2 ^ 127 }
    ensures { SomeIff result (ScaledSumInRange a m b n) (a *ℤ pos m +ℤ b *ℤ pos n) }
{
    let left = scaled(a, m)?;
    let right = scaled(b, n)?;
    add(left, right)
}

/// The product of two denominators.
fn product(a: u128, b: u128) -> Option<u128>
    ensures { SomeIff result (a * b < 2 ^ 127) (a * b) }
{
    let both = a.checked_mul(b)?;
    if both < 1 << 127 { Some(both) } else { None }
}

/// The power of a denominator.
fn power(den: u128, n: u128) -> Option<u128>
    requires { den < 2 ^ 127 }
    ensures { SomeIff result (den ^ n < 2 ^ 127) (den ^ n) }
{
    let power = pow(den as i128, n)?;
    Some(power.unsigned_abs())
}
