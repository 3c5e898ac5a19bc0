//! Sparse Horner forms, and the calls that make and read them.
ghost use Rattle.std.specs.Prelude.{◌≡◌, ◌↔◌, ◌+◌, ◌-◌, ◌<◌, ◌≤◌, ◌^◌, IsTrue, IfOk, min};
ghost use Rattle.alg_horner.specs.Form.{Form, constant, skip, sum, atoms, exponent, IsSameMap, IsMultiple, IsSound};
ghost use Rattle.alg_sums.specs.Ratio.{Ratio};
ghost use Rattle.alg_sums.specs.Rational.{rational};
ghost use Rattle.alg_horner.specs.Facts.{IsNormalOf};
ghost use Rattle.alg_horner.specs.Split.{IsSplitOf};
ghost use Rattle.alg_horner.specs.Negating.{terms};
ghost use Rattle.alg_horner.specs.Monomials.{HasTerms};

use crate::coeff::Coeff;
use std::alloc::{AllocError, Global};
use std::marker::Model;

/// A polynomial in atoms, which are numbered from 0: a constant; a skip of the first atoms before a form over those
/// after them; or `P * x^i + Q`, where x is the first atom, i is above 0, and Q is a form over the atoms after x.
///
/// No skip is of no atom, of a constant or of a skip, no P is 0, and no P is `R * x^j + 0`. An atom's number is below
/// 2^32, and so is its exponent in each monomial. What a form stands for is its map, from monomials to coefficients: a
/// monomial is the list of the atoms' exponents in order, where those that are missing are 0.
#[cycle(form)]
#[derive(Drop)]
pub struct Horner<C: Coeff> {
    node: Box<Node<C>>,
}

#[cycle(form)]
#[derive(Drop)]
enum Node<C: Coeff> {
    Constant(C),
    Skip(u32, Horner<C>),
    Sum(Horner<C>, u128, Horner<C>),
}

impl<C: Coeff> Model for Horner<C> {
    ghost use Rattle.alg_horner.specs.Form.{Form, nodes, IsSound};
    ghost use Rattle.alg_sums.specs.Ratio.{Ratio};
    ghost use Rattle.alg_sums.specs.Rational.{rational};
    ghost use Rattle.alg_horner.specs.RatioCode.{ratio_code};
    ghost use Rattle.alg_sums.specs.RatioRing.{nil};
    ghost use Rattle.alg_horner.specs.FormCode.{form_code};

    ghost Value = { Form Ratio };

    ghost coded = { form_code nil ratio_code };

    ghost use Rattle.alg_horner.specs.Node.{form_of};

    ghost view = { λ a. form_of C.meaning a.node.value };

    ghost invariant = { λ a. IsSound rational (form_of C.meaning a.node.value) };

    ghost size = { nodes };

    ghost use Rattle.alg_horner.specs.NodeFalls.{depth_le-nodes};

    ghost size_decreases = { λ a h. depth_le-nodes C.Coeff C.meaning a.node.value };
}

/// The parts of a form, as it is described at `Horner`; each part is a form itself.
#[derive(Drop)]
pub enum Split<C: Coeff> {
    Constant(C),
    Skip {
        by: u32,
        rest: Horner<C>,
    },
    Sum {
        inner: Horner<C>,
        power: u128,
        rest: Horner<C>,
    },
}

impl<C: Coeff> Horner<C> {
    /// The constant.
    pub fn constant(alloc: Global, c: C) -> Result<Horner<C>, AllocError>
        ensures { IfOk result (λ h. h ≡ constant (C.meaning c)) }
    {
        let node = Box::new(alloc, Node::Constant(c))?;
        Ok(Horner { node })
    }

    /// What each form keeps: for callers that take forms apart. It does nothing.
    pub fn told(&self)
        ensures { IsSound rational self.now }
    {
        let _sound = &self.node;
    }

    /// Whether the form is the constant 0.
    pub fn is_zero(&self) -> bool
        ensures { IsTrue result ↔ (self.now ≡ constant rational.nil) }
    {
        match &*self.node {
            Node::Constant(c) => c.same(&C::zero()),
            Node::Skip(_, _) => false,
            Node::Sum(_, _, _) => false,
        }
    }

    /// A second form like this one.
    pub fn copy(&self, alloc: Global) -> Result<Horner<C>, AllocError>
        ensures { IfOk result (λ h. h ≡ self.now) }
    {
        match &*self.node {
            Node::Constant(c) => {
                let node = Box::new(alloc, Node::Constant(c.copy()))?;
                Ok(Horner { node })
            }
            Node::Skip(by, rest) => {
                let rest = rest.copy(alloc)?;
                let node = Box::new(alloc, Node::Skip(*by, rest))?;
                Ok(Horner { node })
            }
            Node::Sum(inner, power, rest) => {
                let inner = inner.copy(alloc)?;
                let rest = rest.copy(alloc)?;
                let node = Box::new(alloc, Node::Sum(inner, *power, rest))?;
                Ok(Horner { node })
            }
        }
    }

    /// The atom with that number, alone. The greatest number is 2^32 - 1.
    pub fn atom(alloc: Global, number: u32) -> Result<Horner<C>, AllocError>
        ensures { IfOk result (λ h. IsNormalOf rational (skip number (sum (constant rational.one) 1 (constant rational.nil))) h) }
    {
        let inner = Horner::constant(alloc, C::one())?;
        let rest = Horner::constant(alloc, C::zero())?;
        let first = Horner::sum(alloc, inner, 1, rest)?;
        let form = Horner::skip(alloc, number, first)?;
        Ok(form)
    }

    /// The form with every atom's number raised by `by`, which may be 0. The numbers stay below 2^32.
    pub fn skip(alloc: Global, by: u32, rest: Horner<C>) -> Result<Horner<C>, AllocError>
        requires { by + atoms rest ≤ 2 ^ 32 }
        ensures { IfOk result (λ h. IsNormalOf rational (skip by rest) h) }
    {
        if by == 0 {
            return Ok(rest);
        }
        rest.told();
        match rest.split() {
            Split::Constant(c) => {
                let node = Box::new(alloc, Node::Constant(c))?;
                Ok(Horner { node })
            }
            Split::Skip { by: more, rest } => {
                let node = Box::new(alloc, Node::Skip(by + more, rest))?;
                Ok(Horner { node })
            }
            Split::Sum { inner, power, rest } => {
                let rest = Horner::sum(alloc, inner, power, rest)?;
                let node = Box::new(alloc, Node::Skip(by, rest))?;
                Ok(Horner { node })
            }
        }
    }

    /// Whether the form is `P * x^i + 0`: `join` adds its power to that of such a form.
    pub fn is_multiple(&self) -> bool
        ensures { IsTrue result ↔ IsMultiple rational self.now }
    {
        match &*self.node {
            Node::Constant(_) => false,
            Node::Skip(_, _) => false,
            Node::Sum(_, _, rest) => rest.is_zero(),
        }
    }

    /// That very node, where the caller knows that it is a form; `join` makes a form of any parts.
    pub fn sum(
        alloc: Global,
        inner: Horner<C>,
        power: u128,
        rest: Horner<C>,
    ) -> Result<Horner<C>, AllocError>
        requires { IsSound rational (sum inner power rest) }
        ensures { IfOk result (λ h. h ≡ sum inner power rest) }
    {
        let node = Box::new(alloc, Node::Sum(inner, power, rest))?;
        Ok(Horner { node })
    }

    /// `inner` times the power of the first atom, plus `rest` with every atom's number raised by 1. The power is above
    /// 0, no exponent of the first atom passes 2^32 - 1, and no atom's number does.
    pub fn join(
        alloc: Global,
        inner: Horner<C>,
        power: u128,
        rest: Horner<C>,
    ) -> Result<Horner<C>, AllocError>
        requires power { 0 < power }
        requires exponent { exponent 0 inner + power < 2 ^ 32 }
        requires atoms { atoms rest + 1 ≤ 2 ^ 32 }
        ensures { IfOk result (λ h. IsNormalOf rational (sum inner power rest) h) }
    {
        inner.told();
        rest.told();
        if inner.is_zero() {
            let form = Horner::skip(alloc, 1, rest)?;
            return Ok(form);
        }
        if !inner.is_multiple() {
            let form = Horner::sum(alloc, inner, power, rest)?;
            return Ok(form);
        }
        match inner.split() {
            Split::Constant(c) => Horner::constant(alloc, c),
            Split::Skip { by, rest } => Horner::skip(alloc, by, rest),
            Split::Sum {
                inner,
                power: more,
                rest: _none,
            } => {
                let form = Horner::sum(alloc, inner, more + power, rest)?;
                Ok(form)
            }
        }
    }

    /// The parts of the form. It takes no memory.
    pub fn split(self) -> Split<C>
        ensures { IsSplitOf C.meaning self result }
    {
        match Box::into_inner(self.node) {
            Node::Constant(c) => Split::Constant(c),
            Node::Skip(by, rest) => Split::Skip { by, rest },
            Node::Sum(inner, power, rest) => Split::Sum { inner, power, rest },
        }
    }

    /// Whether the two forms are one form, which is so exactly where they have one map. It takes no memory.
    pub fn same(&self, other: &Horner<C>) -> bool
        ensures form { IsTrue result ↔ (self.now ≡ other.now) }
        ensures map { IsTrue result ↔ IsSameMap rational self.now other.now }
    {
        let _sound = &self.node;
        let _sound = &other.node;
        self.is_equal(other)
    }

    fn is_equal(&self, other: &Horner<C>) -> bool
        ensures { IsTrue result ↔ (self.now ≡ other.now) }
    {
        match (&*self.node, &*other.node) {
            (Node::Constant(c), Node::Constant(d)) => c.same(d),
            (Node::Skip(by, rest), Node::Skip(other_by, other_rest)) => {
                *by == *other_by && rest.is_equal(other_rest)
            }
            (Node::Sum(inner, power, rest), Node::Sum(other_inner, other_power, other_rest)) => {
                *power == *other_power && rest.is_equal(other_rest) && inner.is_equal(other_inner)
            }
            _ => false,
        }
    }

    /// The number of terms: of the monomials whose coefficient isn't 0. From 2^64 - 1 terms on it is that number. It
    /// takes no memory.
    pub fn terms(&self) -> usize
        ensures count { result ≡ min (terms rational self.now) (2 ^ 64 - 1) }
        ensures monomials { HasTerms rational self.now (terms rational self.now) }
    {
        let _sound = &self.node;
        self.counted()
    }

    fn counted(&self) -> usize
        ensures { result ≡ min (terms rational self.now) (2 ^ 64 - 1) }
    {
        match &*self.node {
            Node::Constant(c) => constant_terms(c),
            Node::Skip(_, rest) => rest.counted(),
            Node::Sum(inner, _, rest) => inner.counted().saturating_add(rest.counted()),
        }
    }
}

fn constant_terms<C: Coeff>(c: &C) -> usize
    ensures count { result ≡ terms rational (constant (C.meaning c.now)) }
    ensures small { result ≤ 1 }
{
    if c.same(&C::zero()) { 0 } else { 1 }
}
