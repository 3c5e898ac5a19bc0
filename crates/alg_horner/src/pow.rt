//! Powers of forms.
ghost use Rattle.std.specs.Prelude.{◌≡◌, ◌+◌, ◌<◌, ◌≤◌, IfOk};
ghost use Rattle.alg_sums.specs.Rational.{rational};
ghost use Rattle.alg_horner.specs.Form.{constant, skip, sum, IsSound};
ghost use Rattle.alg_horner.specs.Powers.{CanPower, HasSmallPower, IsPowerOf, IsEnough, power_of};

use crate::coeff::Coeff;
use crate::form::{Horner, Split};
use std::alloc::{AllocError, Global};

impl<C: Coeff> Horner<C> {
    /// The power, made by n products, beginning with 1; `0^0` is 1. It is asked for only where the n-th power of some
    /// denominator of all coefficients is at most 2^126, and so is that of the sum of their absolute values times that
    /// denominator, and no atom gets an exponent past 2^32 - 1. A constant, a form over later atoms and `P * x^i + 0`
    /// give their power without so many products: what is left to multiply has two terms or more, and n is at most 126.
    pub fn pow(&self, alloc: Global, n: u128) -> Result<Horner<C>, AllocError>
        requires can { CanPower rational self.now n }
        requires degree { HasSmallPower self.now n }
        ensures { IfOk result (λ h. IsPowerOf rational self.now n h) }
    {
        if n == 0 {
            let form = Horner::constant(alloc, C::one())?;
            return Ok(form);
        }
        let base = self.copy(alloc)?;
        let power = raised(alloc, base, n)?;
        Ok(power)
    }
}

fn raised<C: Coeff>(alloc: Global, f: Horner<C>, n: u128) -> Result<Horner<C>, AllocError>
    requires positive { 0 < n }
    requires can { CanPower rational f n }
    requires degree { HasSmallPower f n }
    ensures { IfOk result (λ h. IsPowerOf rational f n h) }
{
    f.told();
    match f.split() {
        Split::Constant(c) => {
            let form = Horner::constant(alloc, coefficient_power(&c, n))?;
            Ok(form)
        }
        Split::Skip { by, rest } => {
            let power = raised(alloc, rest, n)?;
            let form = Horner::skip(alloc, by, power)?;
            Ok(form)
        }
        Split::Sum { inner, power, rest } => {
            if !rest.is_zero() {
                let base = Horner::sum(alloc, inner, power, rest)?;
                let form = multiplied(alloc, &base, n)?;
                return Ok(form);
            }
            let inner = raised(alloc, inner, n)?;
            let form = Horner::join(alloc, inner, n * power, rest)?;
            Ok(form)
        }
    }
}

/// The power by products.
fn multiplied<C: Coeff>(alloc: Global, base: &Horner<C>, n: u128) -> Result<Horner<C>, AllocError>
    requires can { CanPower rational base.now n }
    requires degree { HasSmallPower base.now n }
    ensures { IfOk result (λ h. IsPowerOf rational base.now n h) }
{
    let mut power = Horner::constant(alloc, C::one())?;
    for i in 0..n {
        power = next_power(alloc, power, base, i, n)?;
    }
    Ok(power)
}

fn next_power<C: Coeff>(
    alloc: Global,
    power: Horner<C>,
    base: &Horner<C>,
    done: u128,
    all: u128,
) -> Result<Horner<C>, AllocError>
    requires power { IsPowerOf rational base.now done power }
    requires more { done < all }
    requires can { CanPower rational base.now all }
    requires degree { HasSmallPower base.now all }
    ensures { IfOk result (λ h. IsPowerOf rational base.now (done + 1) h) }
{
    let product = power.mul(alloc, base)?;
    Ok(product)
}

/// The power of a coefficient.
fn coefficient_power<C: Coeff>(c: &C, n: u128) -> C
    requires { CanPower rational (constant (C.meaning c.now)) n }
    ensures { C.meaning result ≡ power_of rational (C.meaning c.now) n }
{
    let steps = factors(n);
    let mut power = C::one();
    for i in 0..steps {
        power = next_factor(power, c, i, n);
    }
    power
}

fn next_factor<C: Coeff>(power: C, c: &C, done: u128, all: u128) -> C
    requires power { C.meaning power ≡ power_of rational (C.meaning c.now) done }
    requires more { done < all }
    requires can { CanPower rational (constant (C.meaning c.now)) all }
    ensures { C.meaning result ≡ power_of rational (C.meaning c.now) (done + 1) }
{
    power.mul(c)
}

/// How many factors are enough for the power of a coefficient.
fn factors(n: u128) -> u128
    ensures { IsEnough n result }
{
    if n > 128 { 128 - n % 2 } else { n }
}
