//! Products of forms.
ghost use Rattle.std.specs.Prelude.{◌≡◌, ◌+◌, ◌<◌, ◌≤◌, ◌^◌, IfOk};
ghost use Rattle.alg_horner.specs.Form.{constant, skip, sum, atoms, IsSound};
ghost use Rattle.alg_sums.specs.Rational.{rational};
ghost use Rattle.alg_horner.specs.Multiplying.{CanScale, CanConvolve, HasSmallProduct, IsProductOf, IsMultipleOf};

use crate::add::plus;
use crate::coeff::Coeff;
use crate::form::{Horner, Split};
use std::alloc::{AllocError, Global};

fn scaled<C: Coeff>(alloc: Global, f: Horner<C>, factor: &C) -> Result<Horner<C>, AllocError>
    requires { CanScale rational f (C.meaning factor.now) }
    ensures { IfOk result (λ h. IsMultipleOf rational f (C.meaning factor.now) h) }
{
    f.told();
    match f.split() {
        Split::Constant(c) => {
            let form = Horner::constant(alloc, c.mul(factor))?;
            Ok(form)
        }
        Split::Skip { by, rest } => {
            let rest = scaled(alloc, rest, factor)?;
            let form = Horner::skip(alloc, by, rest)?;
            Ok(form)
        }
        Split::Sum { inner, power, rest } => {
            let inner = scaled(alloc, inner, factor)?;
            let rest = scaled(alloc, rest, factor)?;
            let form = Horner::join(alloc, inner, power, rest)?;
            Ok(form)
        }
    }
}

#[cycle(multiplying)]
pub(crate) fn times<C: Coeff>(
    alloc: Global,
    f: Horner<C>,
    g: Horner<C>,
) -> Result<Horner<C>, AllocError>
    requires can { CanConvolve rational f g }
    requires degree { HasSmallProduct f g }
    ensures { IfOk result (λ h. IsProductOf rational f g h) }
{
    g.told();
    match g.split() {
        Split::Constant(c) => {
            let form = scaled(alloc, f, &c)?;
            Ok(form)
        }
        Split::Skip { by, rest } => {
            let form = times_later(alloc, f, by, rest)?;
            Ok(form)
        }
        Split::Sum { inner, power, rest } => {
            let other = f.copy(alloc)?;
            let product = times(alloc, f, inner)?;
            let none = Horner::constant(alloc, C::zero())?;
            let first = Horner::join(alloc, product, power, none)?;
            let second = times_later(alloc, other, 1, rest)?;
            let form = plus(alloc, first, second)?;
            Ok(form)
        }
    }
}

#[cycle(multiplying)]
fn times_later<C: Coeff>(
    alloc: Global,
    f: Horner<C>,
    by: u32,
    later: Horner<C>,
) -> Result<Horner<C>, AllocError>
    requires can { CanConvolve rational f (skip by later) }
    requires by { 0 < by }
    requires atoms { by + atoms later ≤ 2 ^ 32 }
    requires degree { HasSmallProduct f (skip by later) }
    ensures { IfOk result (λ h. IsProductOf rational f (skip by later) h) }
{
    f.told();
    match f.split() {
        Split::Constant(c) => {
            let constant = Horner::constant(alloc, c)?;
            let product = times(alloc, constant, later)?;
            let form = Horner::skip(alloc, by, product)?;
            Ok(form)
        }
        Split::Skip { by: first, rest } => {
            let form = times_skips(alloc, first, rest, by, later)?;
            Ok(form)
        }
        Split::Sum { inner, power, rest } => {
            let other = later.copy(alloc)?;
            let inner = times_later(alloc, inner, by, later)?;
            let other = Horner::skip(alloc, by - 1, other)?;
            let rest = times(alloc, rest, other)?;
            let form = Horner::join(alloc, inner, power, rest)?;
            Ok(form)
        }
    }
}

#[cycle(multiplying)]
fn times_skips<C: Coeff>(
    alloc: Global,
    first: u32,
    f: Horner<C>,
    second: u32,
    g: Horner<C>,
) -> Result<Horner<C>, AllocError>
    requires can { CanConvolve rational (skip first f) (skip second g) }
    requires first_atoms { first + atoms f ≤ 2 ^ 32 }
    requires second_atoms { second + atoms g ≤ 2 ^ 32 }
    requires degree { HasSmallProduct (skip first f) (skip second g) }
    ensures { IfOk result (λ h. IsProductOf rational (skip first f) (skip second g) h) }
{
    if first <= second {
        let g = Horner::skip(alloc, second - first, g)?;
        let product = times(alloc, f, g)?;
        let form = Horner::skip(alloc, first, product)?;
        return Ok(form);
    }
    let f = Horner::skip(alloc, first - second, f)?;
    let product = times(alloc, g, f)?;
    let form = Horner::skip(alloc, second, product)?;
    Ok(form)
}

impl<C: Coeff> Horner<C> {
    /// The product: the coefficient of a monomial is the sum of the products of coefficients over all ways to write the
    /// monomial as a product of two. It is asked for only where some d up to 2^126 is a denominator of all coefficients
    /// of both forms, the absolute values of the products of each coefficient of the one and each of the other times d
    /// add to at most 2^126, and no atom gets an exponent past 2^32 - 1.
    pub fn mul(&self, alloc: Global, other: &Horner<C>) -> Result<Horner<C>, AllocError>
        requires can { CanConvolve rational self.now other.now }
        requires degree { HasSmallProduct self.now other.now }
        ensures { IfOk result (λ h. IsProductOf rational self.now other.now h) }
    {
        let f = self.copy(alloc)?;
        let g = other.copy(alloc)?;
        let product = times(alloc, f, g)?;
        Ok(product)
    }
}
