//! What is found of a node, from what is found of its parts.
ghost use Rattle.std.specs.Prelude.{◌≡◌, ℕ, ◌<◌, ◌^◌, ◌&&◌, pos, Some, None, Option, is_some, false};
ghost use Rattle.alg_num.specs.Fraction.{Fraction};
ghost use Rattle.alg_ring_range.specs.Capped.{capped, capped_numeral};
ghost use Rattle.alg_ring_range.specs.Fractions.{sum_fraction};
ghost use Rattle.alg_ring_range.specs.Sizes.{sum_sizes};
ghost use Rattle.alg_ring_range.specs.Numbers.{Numbers, over_two, literal, atom, sum, difference, product, negation, power, power_by, inverse, quotient, quotient_by};
ghost use Rattle.alg_ring_range.specs.Found.{IsFound, IsTopOf, IsCovered, HasInverse};

use crate::capped::cap;
use crate::numerals::{power_numeral, product_numeral, sum_numeral};
use crate::sizes::{
    Sizes, both, kept, literal_sizes, power_sizes, product_sizes, quotient_sizes, scaled_sizes,
    scales,
};
use crate::tops::{negated, raised, reduced, scaled_sum, times, turned};

/// What is found of a tree: its number as an exponent, capped; whether it is closed, and then the denominator times
/// its fraction; and its sizes unless it is out of range.
#[derive(Clone, Copy, Debug)]
pub struct Found {
    pub numeral: Option<u128>,
    pub closed: bool,
    pub top: i128,
    pub sizes: Option<Sizes>,
}

fn and(a: bool, b: bool) -> bool
    ensures { result ≡ (a && b) }
{
    if a { b } else { false }
}

pub(crate) fn literal(closed: bool, n: u128) -> Found
    requires { n < 2 ^ 127 }
    ensures { IsFound result (literal closed n) }
{
    Found {
        numeral: Some(cap(n)),
        closed,
        top: n as i128,
        sizes: literal_sizes(n),
    }
}

pub(crate) fn atom() -> Found
    ensures { IsFound result atom }
{
    Found {
        numeral: None,
        closed: false,
        top: 0,
        sizes: Some(Sizes {
            denominator: 1,
            weight: 1,
            degree: 1,
        }),
    }
}

fn lost(numeral: Option<u128>, closed: bool) -> Found
    ensures { result ≡ record { numeral = numeral; closed = closed; top = pos 0; sizes = None } }
{
    Found {
        numeral,
        closed,
        top: 0,
        sizes: None,
    }
}

// the sum of a and b, where this is the denominator times the fraction of b or of its negation
fn added(numeral: Option<u128>, a: &Found, b: &Found, top: i128) -> Found
    ensures { (x y : Numbers) (n : Option ℕ) (v : Option Fraction) → IsFound a.now x → IsFound b.now y → numeral ≡ capped_numeral n → IsCovered n (sum_sizes x.sizes y.sizes).weight → is_some v ≡ is_some y.fraction → (y.is_out ≡ false → IsTopOf v top y.sizes) → IsFound result (over_two n (sum_fraction x.fraction v) (sum_sizes x.sizes y.sizes) x y) }
{
    let closed = and(a.closed, b.closed);
    match both(a.sizes, b.sizes) {
        Some((p, q)) => {
            let (s, t) = scales(p.denominator, q.denominator);
            Found {
                numeral,
                closed,
                top: scaled_sum(a.top, s, top, t),
                sizes: scaled_sizes(p, s, q, t),
            }
        }
        None => lost(numeral, closed),
    }
}

pub(crate) fn sum(a: &Found, b: &Found) -> Found
    ensures { (x y : Numbers) → IsFound a.now x → IsFound b.now y → IsFound result (sum x y) }
{
    added(sum_numeral(a.numeral, b.numeral), a, b, b.top)
}

pub(crate) fn difference(a: &Found, b: &Found) -> Found
    ensures { (x y : Numbers) → IsFound a.now x → IsFound b.now y → IsFound result (difference x y) }
{
    added(None, a, b, negated(b.top))
}

pub(crate) fn product(a: &Found, b: &Found) -> Found
    ensures { (x y : Numbers) → IsFound a.now x → IsFound b.now y → IsFound result (product x y) }
{
    let numeral = product_numeral(a.numeral, b.numeral);
    let closed = and(a.closed, b.closed);
    match both(a.sizes, b.sizes) {
        Some((p, q)) => Found {
            numeral,
            closed,
            top: times(a.top, b.top),
            sizes: product_sizes(p, q),
        },
        None => lost(numeral, closed),
    }
}

pub(crate) fn negation(a: &Found) -> Found
    ensures { (x : Numbers) → IsFound a.now x → IsFound result (negation x) }
{
    match a.sizes {
        Some(p) => Found {
            numeral: None,
            closed: a.closed,
            top: negated(a.top),
            sizes: kept(p),
        },
        None => lost(None, a.closed),
    }
}

pub(crate) fn power(a: &Found, b: &Found) -> Found
    ensures { (x y : Numbers) → IsFound a.now x → IsFound b.now y → IsFound result (power x y) }
{
    match b.numeral {
        Some(n) => power_by(a, b, n),
        None => atom(),
    }
}

// a power whose exponent is this number, capped
fn power_by(a: &Found, b: &Found, n: u128) -> Found
    ensures { (x y : Numbers) (c : ℕ) → IsFound a.now x → IsFound b.now y → y.numeral ≡ Some c → n ≡ capped c → IsFound result (power_by (Some c) x y) }
{
    let numeral = power_numeral(a.numeral, n);
    match both(a.sizes, b.sizes) {
        Some((p, _)) => Found {
            numeral,
            closed: a.closed,
            top: raised(a.top, n),
            sizes: power_sizes(p, n),
        },
        None => lost(numeral, a.closed),
    }
}

// the inverse of a closed tree
fn inverted(b: &Found) -> Option<(Sizes, i128)>
    ensures { (x : Numbers) (p : Fraction) → IsFound b.now x → x.fraction ≡ Some p → HasInverse result x p }
{
    match b.sizes {
        Some(z) => match reduced(b.top, z.denominator) {
            Some(f) => Some(turned(&f)),
            None => None,
        },
        None => None,
    }
}

pub(crate) fn inverse(b: &Found) -> Found
    ensures { (x : Numbers) → IsFound b.now x → IsFound result (inverse x) }
{
    if !b.closed {
        return atom();
    }
    match inverted(b) {
        Some((z, top)) => Found {
            numeral: None,
            closed: true,
            top,
            sizes: kept(z),
        },
        None => lost(None, true),
    }
}

pub(crate) fn quotient(a: &Found, b: &Found) -> Found
    ensures { (x y : Numbers) → IsFound a.now x → IsFound b.now y → IsFound result (quotient x y) }
{
    if b.closed {
        over_closed(a, b)
    } else {
        over_open(a)
    }
}

// a quotient by a closed tree
fn over_closed(a: &Found, b: &Found) -> Found
    ensures { (x y : Numbers) (q : Fraction) → IsFound a.now x → IsFound b.now y → y.fraction ≡ Some q → IsFound result (quotient_by (Some q) x y) }
{
    match a.sizes {
        Some(p) => match inverted(b) {
            Some((z, top)) => Found {
                numeral: None,
                closed: a.closed,
                top: times(a.top, top),
                sizes: product_sizes(p, z),
            },
            None => lost(None, a.closed),
        },
        None => lost(None, a.closed),
    }
}

// a quotient by another tree
fn over_open(a: &Found) -> Found
    ensures { (x y : Numbers) → IsFound a.now x → IsFound result (quotient_by None x y) }
{
    match a.sizes {
        Some(p) => Found {
            numeral: None,
            closed: false,
            top: 0,
            sizes: quotient_sizes(p),
        },
        None => lost(None, false),
    }
}
