//! Sums of forms.
ghost use Rattle.std.specs.Prelude.{◌≡◌, ◌+◌, ◌<◌, ◌≤◌, ◌^◌, IfOk};
ghost use Rattle.alg_horner.specs.Form.{constant, skip, sum, atoms, degree, IsForm, IsSound};
ghost use Rattle.alg_sums.specs.Rational.{rational};
ghost use Rattle.alg_horner.specs.Facts.{CanSum, IsSumOf};
ghost use Rattle.alg_horner.specs.Aligned.{IsAligned};

use crate::coeff::Coeff;
use crate::form::{Horner, Split};
use std::alloc::{AllocError, Global};

/// Two forms taken apart for their sum.
#[derive(Drop)]
enum Aligned<C: Coeff> {
    Constants {
        first: C,
        second: C,
    },
    Under {
        by: u32,
        first: Horner<C>,
        second: Horner<C>,
    },
    Beside {
        inner: Horner<C>,
        power: u128,
        rest: Horner<C>,
        tail: Horner<C>,
    },
    Nodes {
        first: Horner<C>,
        second: Horner<C>,
        power: u128,
        rest: Horner<C>,
        tail: Horner<C>,
    },
}

fn align_skips<C: Coeff>(
    alloc: Global,
    by: u32,
    first: Horner<C>,
    other: u32,
    second: Horner<C>,
) -> Result<Aligned<C>, AllocError>
    requires by { 0 < by }
    requires other { 0 < other }
    requires atoms { by + atoms first ≤ 2 ^ 32 }
    requires other_atoms { other + atoms second ≤ 2 ^ 32 }
    ensures { IfOk result (λ a. IsAligned C.meaning (skip by first) (skip other second) a) }
{
    if by == other {
        return Ok(Aligned::Under { by, first, second });
    }
    if by < other {
        let second = Horner::skip(alloc, other - by, second)?;
        return Ok(Aligned::Under { by, first, second });
    }
    let first = Horner::skip(alloc, by - other, first)?;
    Ok(Aligned::Under {
        by: other,
        first,
        second,
    })
}

fn align_sums<C: Coeff>(
    alloc: Global,
    inner: Horner<C>,
    power: u128,
    rest: Horner<C>,
    other_inner: Horner<C>,
    other_power: u128,
    other_rest: Horner<C>,
) -> Result<Aligned<C>, AllocError>
    requires first { IsSound rational (sum inner power rest) }
    requires second { IsSound rational (sum other_inner other_power other_rest) }
    ensures { IfOk result (λ a. IsAligned C.meaning (sum inner power rest) (sum other_inner other_power other_rest) a) }
{
    if power == other_power {
        return Ok(Aligned::Nodes {
            first: inner,
            second: other_inner,
            power,
            rest,
            tail: other_rest,
        });
    }
    let none = Horner::constant(alloc, C::zero())?;
    if power > other_power {
        let first = Horner::sum(alloc, inner, power - other_power, none)?;
        return Ok(Aligned::Nodes {
            first,
            second: other_inner,
            power: other_power,
            rest,
            tail: other_rest,
        });
    }
    let second = Horner::sum(alloc, other_inner, other_power - power, none)?;
    Ok(Aligned::Nodes {
        first: inner,
        second,
        power,
        rest,
        tail: other_rest,
    })
}

fn align<C: Coeff>(alloc: Global, f: Horner<C>, g: Horner<C>) -> Result<Aligned<C>, AllocError>
    requires first { IsSound rational f }
    requires second { IsSound rational g }
    ensures { IfOk result (λ a. IsAligned C.meaning f g a) }
{
    match f.split() {
        Split::Constant(c) => match g.split() {
            Split::Constant(d) => Ok(Aligned::Constants {
                first: c,
                second: d,
            }),
            Split::Skip { by, rest } => {
                let first = Horner::constant(alloc, c)?;
                Ok(Aligned::Under {
                    by,
                    first,
                    second: rest,
                })
            }
            Split::Sum { inner, power, rest } => {
                let tail = Horner::constant(alloc, c)?;
                Ok(Aligned::Beside {
                    inner,
                    power,
                    rest,
                    tail,
                })
            }
        },
        Split::Skip { by, rest } => align_skip(alloc, by, rest, g),
        Split::Sum { inner, power, rest } => align_sum(alloc, inner, power, rest, g),
    }
}

fn align_skip<C: Coeff>(
    alloc: Global,
    by: u32,
    first: Horner<C>,
    g: Horner<C>,
) -> Result<Aligned<C>, AllocError>
    requires first { IsSound rational (skip by first) }
    requires second { IsSound rational g }
    ensures { IfOk result (λ a. IsAligned C.meaning (skip by first) g a) }
{
    match g.split() {
        Split::Constant(d) => {
            let second = Horner::constant(alloc, d)?;
            Ok(Aligned::Under { by, first, second })
        }
        Split::Skip {
            by: other,
            rest: second,
        } => align_skips(alloc, by, first, other, second),
        Split::Sum { inner, power, rest } => {
            let tail = Horner::skip(alloc, by - 1, first)?;
            Ok(Aligned::Beside {
                inner,
                power,
                rest,
                tail,
            })
        }
    }
}

fn align_sum<C: Coeff>(
    alloc: Global,
    inner: Horner<C>,
    power: u128,
    rest: Horner<C>,
    g: Horner<C>,
) -> Result<Aligned<C>, AllocError>
    requires first { IsSound rational (sum inner power rest) }
    requires second { IsSound rational g }
    ensures { IfOk result (λ a. IsAligned C.meaning (sum inner power rest) g a) }
{
    match g.split() {
        Split::Constant(d) => {
            let tail = Horner::constant(alloc, d)?;
            Ok(Aligned::Beside {
                inner,
                power,
                rest,
                tail,
            })
        }
        Split::Skip { by, rest: later } => {
            let tail = Horner::skip(alloc, by - 1, later)?;
            Ok(Aligned::Beside {
                inner,
                power,
                rest,
                tail,
            })
        }
        Split::Sum {
            inner: other_inner,
            power: other_power,
            rest: other_rest,
        } => align_sums(
            alloc,
            inner,
            power,
            rest,
            other_inner,
            other_power,
            other_rest,
        ),
    }
}

pub(crate) fn plus<C: Coeff>(
    alloc: Global,
    f: Horner<C>,
    g: Horner<C>,
) -> Result<Horner<C>, AllocError>
    requires { CanSum rational f g }
    ensures { IfOk result (λ h. IsSumOf rational f g h) }
{
    f.told();
    g.told();
    let aligned = align(alloc, f, g)?;
    match aligned {
        Aligned::Constants { first, second } => {
            let form = Horner::constant(alloc, first.add(&second))?;
            Ok(form)
        }
        Aligned::Under { by, first, second } => {
            let sum = plus(alloc, first, second)?;
            let form = Horner::skip(alloc, by, sum)?;
            Ok(form)
        }
        Aligned::Beside {
            inner,
            power,
            rest,
            tail,
        } => {
            let rest = plus(alloc, rest, tail)?;
            let form = Horner::join(alloc, inner, power, rest)?;
            Ok(form)
        }
        Aligned::Nodes {
            first,
            second,
            power,
            rest,
            tail,
        } => {
            let inner = plus(alloc, first, second)?;
            let rest = plus(alloc, rest, tail)?;
            let form = Horner::join(alloc, inner, power, rest)?;
            Ok(form)
        }
    }
}

impl<C: Coeff> Horner<C> {
    /// The sum: each monomial has the sum of its coefficients. It is asked for only where some d up to 2^126 is a common
    /// denominator of all coefficients of both forms, and the absolute values of these times d add to at most 2^126.
    /// By each weight of coefficients that is subadditive the sum weighs no more than both forms together.
    pub fn add(&self, alloc: Global, other: &Horner<C>) -> Result<Horner<C>, AllocError>
        requires { CanSum rational self.now other.now }
        ensures { IfOk result (λ h. IsSumOf rational self.now other.now h) }
    {
        let f = self.copy(alloc)?;
        let g = other.copy(alloc)?;
        let sum = plus(alloc, f, g)?;
        Ok(sum)
    }
}
