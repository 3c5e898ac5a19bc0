//! What it costs to expand a tree, and whether a step of it is too large.
ghost use Rattle.std.specs.Prelude.{◌≡◌, ◌||◌, ◌+◌, ◌*◌, ◌^◌, nat_lt, is_some, true, Option, Some, None, ℕ};
ghost use Rattle.alg_num.specs.Fraction.{Fraction};
ghost use Rattle.alg_ring_range.specs.Work.{IsWork, leaf, sum_work, product_work, one_more, power_work, inverse_work, quotient_work, both_works, no_work};

use crate::capped::{capped_product, capped_sum};

/// The cost, capped, and whether some visited step is too large.
#[derive(Clone, Copy, Debug)]
pub struct Work {
    pub cost: u128,
    pub is_large: bool,
}

pub(crate) fn or(a: bool, b: bool) -> bool
    ensures { result ≡ (a || b) }
{
    if a { true } else { b }
}

/// The work of a leaf or an atom.
pub fn leaf() -> Work
    ensures { IsWork result leaf }
{
    Work {
        cost: 1,
        is_large: false,
    }
}

/// The work of a sum or difference of trees of m and n terms.
pub fn sum(m: u128, n: u128, a: &Work, b: &Work) -> Work
    ensures { (x y : Work) → IsWork a.now x → IsWork b.now y → IsWork result (sum_work m n x y) }
{
    Work {
        cost: capped_sum(capped_sum(a.cost, b.cost), 1),
        is_large: or(exceeds(capped_sum(m, n)), or(a.is_large, b.is_large)),
    }
}

fn exceeds(n: u128) -> bool
    ensures { result ≡ nat_lt 4096 n }
{
    n > 4096
}

/// The work of a product of trees of m and n terms.
pub fn product(m: u128, n: u128, a: &Work, b: &Work) -> Work
    ensures { (x y : Work) → IsWork a.now x → IsWork b.now y → IsWork result (product_work m n x y) }
{
    let steps = capped_product(m, n);
    Work {
        cost: capped_sum(capped_sum(a.cost, b.cost), steps),
        is_large: or(exceeds(steps), or(a.is_large, b.is_large)),
    }
}

/// The work of a negation.
pub fn one_more(a: &Work) -> Work
    ensures { (x : Work) → IsWork a.now x → IsWork result (one_more x) }
{
    Work {
        cost: capped_sum(a.cost, 1),
        is_large: a.is_large,
    }
}

/// The work of a power, with that of its steps. It is an atom where the exponent has no number.
pub fn power(numeral: bool, steps: &Work, a: &Work, b: &Work) -> Work
    ensures { (n : Option ℕ) (s x y : Work) → numeral ≡ is_some n → IsWork steps.now s → IsWork a.now x → IsWork b.now y → IsWork result (power_work n s x y) }
{
    if !numeral {
        return leaf();
    }
    Work {
        cost: capped_sum(capped_sum(capped_sum(a.cost, b.cost), 1), steps.cost),
        is_large: or(steps.is_large, or(a.is_large, b.is_large)),
    }
}

/// The work of an inverse, an atom where what is inverted isn't closed.
pub fn inverse(closed: bool, a: &Work) -> Work
    ensures { (q : Option Fraction) (x : Work) → closed ≡ is_some q → IsWork a.now x → IsWork result (inverse_work q x) }
{
    if closed { one_more(a) } else { leaf() }
}

/// The work of a quotient, whose dividend has m terms.
pub fn quotient(closed: bool, m: u128, a: &Work, b: &Work) -> Work
    ensures { (q : Option Fraction) (x y : Work) → closed ≡ is_some q → IsWork a.now x → IsWork b.now y → IsWork result (quotient_work q m x y) }
{
    if closed {
        Work {
            cost: capped_sum(capped_sum(a.cost, m), b.cost),
            is_large: or(a.is_large, b.is_large),
        }
    } else {
        Work {
            cost: capped_sum(a.cost, m),
            is_large: a.is_large,
        }
    }
}

/// The work of both.
pub fn together(a: &Work, b: &Work) -> Work
    ensures { (x y : Work) → IsWork a.now x → IsWork b.now y → IsWork result (both_works x y) }
{
    Work {
        cost: capped_sum(a.cost, b.cost),
        is_large: or(a.is_large, b.is_large),
    }
}

/// No work.
pub fn nothing() -> Work
    ensures { IsWork result no_work }
{
    Work {
        cost: 0,
        is_large: false,
    }
}

/// Whether it is too much: more than 2^18, or a step is too large.
pub fn is_too_much(a: &Work) -> bool
    ensures { (x : Work) → IsWork a.now x → result ≡ (nat_lt (2 ^ 18) x.cost || x.is_large) }
{
    or(a.cost > 1 << 18, a.is_large)
}
