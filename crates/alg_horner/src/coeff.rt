//! Coefficients of forms.
ghost use Rattle.std.specs.Prelude.{◌≡◌, ◌↔◌, IsTrue};
ghost use Rattle.alg_sums.specs.Ratio.{Ratio};
ghost use Rattle.alg_sums.specs.Rational.{rational};
ghost use Rattle.alg_horner.specs.Facts.{CanAdd, CanMultiply, CanNegate};

/// A number with exact sums, products and negations. The `meaning` says which fraction it is; whole numbers have the
/// denominator 1. No call takes memory.
///
/// The range: a sum is asked for only where some d up to 2^126 is a common denominator of both numbers, and their
/// absolute values times d add to at most 2^126; a product only where d is a denominator of both and of the product, and
/// the product's absolute value times d is at most 2^126; a negation where that holds of the number. So i128 holds the
/// result of each, and `Frac` its two numbers.
pub trait Coeff: Sized + Drop {
    ghost meaning: { Self → Ratio };

    /// 0.
    fn zero() -> Self
        ensures { meaning result ≡ rational.nil };

    /// 1.
    fn one() -> Self
        ensures { meaning result ≡ rational.one };

    /// The number itself.
    fn copy(&self) -> Self
        ensures { meaning result ≡ meaning self.now };

    /// The sum.
    fn add(&self, other: &Self) -> Self
        requires { CanAdd rational (meaning self.now) (meaning other.now) }
        ensures { meaning result ≡ rational.plus (meaning self.now) (meaning other.now) };

    /// The product.
    fn mul(&self, other: &Self) -> Self
        requires { CanMultiply rational (meaning self.now) (meaning other.now) }
        ensures { meaning result ≡ rational.times (meaning self.now) (meaning other.now) };

    /// The negation.
    fn neg(&self) -> Self
        requires { CanNegate rational (meaning self.now) }
        ensures { meaning result ≡ rational.minus (meaning self.now) };

    /// Whether the two numbers are equal.
    fn same(&self, other: &Self) -> bool
        ensures { IsTrue result ↔ (meaning self.now ≡ meaning other.now) };
}
