//! Negations of forms.
ghost use Rattle.std.specs.Prelude.{◌≡◌, ◌<◌, ◌^◌, IfOk};
ghost use Rattle.alg_sums.specs.Rational.{rational};
ghost use Rattle.alg_horner.specs.Negating.{CanNegateAll, IsNegativeOf, terms};

use crate::coeff::Coeff;
use crate::form::{Horner, Split};
use std::alloc::{AllocError, Global};

fn negated<C: Coeff>(alloc: Global, f: Horner<C>) -> Result<Horner<C>, AllocError>
    requires { CanNegateAll rational f }
    ensures { IfOk result (λ h. IsNegativeOf rational f h) }
{
    f.told();
    match f.split() {
        Split::Constant(c) => {
            let form = Horner::constant(alloc, c.neg())?;
            Ok(form)
        }
        Split::Skip { by, rest } => {
            let rest = negated(alloc, rest)?;
            let form = Horner::skip(alloc, by, rest)?;
            Ok(form)
        }
        Split::Sum { inner, power, rest } => {
            let inner = negated(alloc, inner)?;
            let rest = negated(alloc, rest)?;
            let form = Horner::join(alloc, inner, power, rest)?;
            Ok(form)
        }
    }
}

impl<C: Coeff> Horner<C> {
    /// The negation. It is asked for only where some d up to 2^126 is a denominator of all coefficients, and no absolute
    /// value of a coefficient times d passes 2^126.
    pub fn neg(&self, alloc: Global) -> Result<Horner<C>, AllocError>
        requires { CanNegateAll rational self.now }
        ensures { IfOk result (λ h. IsNegativeOf rational self.now h) }
    {
        let f = self.copy(alloc)?;
        let negative = negated(alloc, f)?;
        Ok(negative)
    }
}
