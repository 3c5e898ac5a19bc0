//! The operations of sums and products.
ghost use Rattle.std.specs.Prelude.{◌≡◌, ◌<◌, ◌^◌, ◌&&◌, [], ◌∷◌};
ghost use Rattle.alg_law.specs.declared.classes.Class.TheVariants.{Field, CharZero};
ghost use Rattle.alg_law.specs.Having.{has_class};
ghost use Rattle.alg_values.specs.Arithmetic.{arithmetic_of, sum_value, product_value, power_value, integer_power_value, inverse_of, size_of, where_has};

use crate::value::Value;
use alg_law::{Base, Class, has};
use alg_num::Frac;
use alg_terms::{Sort, Sym};

pub(crate) fn sum(p: &Frac, q: &Frac) -> Value
    ensures { result ≡ sum_value p.now q.now }
{
    let _positive = (p.den(), q.den());
    match p.add(q) {
        Some(r) => Value::Num(r),
        None => Value::Past,
    }
}

pub(crate) fn product(p: &Frac, q: &Frac) -> Value
    ensures { result ≡ product_value p.now q.now }
{
    let _positive = (p.den(), q.den());
    match p.mul(q) {
        Some(r) => Value::Num(r),
        None => Value::Past,
    }
}

fn power(p: &Frac, n: u128) -> Value
    ensures { result ≡ power_value p.now n }
{
    let _positive = p.den();
    match p.pow(n) {
        Some(r) => Value::Num(r),
        None => Value::Past,
    }
}

fn inverse(p: &Frac) -> Frac
    ensures { result ≡ inverse_of p.now }
{
    let _lowest = p.den();
    p.inv()
}

// the size of the numerator
pub(crate) fn size(p: &Frac) -> u128
    ensures size { result ≡ size_of p.now }
    ensures small { result < 2 ^ 127 }
{
    p.num().unsigned_abs()
}

fn integer_power(p: &Frac, k: &Frac) -> Value
    ensures { result ≡ integer_power_value p.now k.now.numerator }
{
    if k.num() < 0 {
        return power(&inverse(p), size(k));
    }
    power(p, size(k))
}

// the value where the class is there
pub(crate) fn where_has(there: bool, value: Value) -> Value
    ensures { result ≡ where_has there value }
{
    if there { value } else { Value::Without }
}

fn is_field(base: &Base, sort: Sort) -> bool
    ensures { result ≡ (has_class base.now sort Field && has_class base.now sort CharZero) }
{
    has(base, sort, Class::Field) && has(base, sort, Class::CharZero)
}

/// The value of a sum, product, negation, difference, inverse, quotient, power or multiple at the values of its parts,
/// where the sort has the class that it needs. Without value is every other symbol, and one over another number of parts.
pub fn arithmetic(base: &Base, sym: Sym, sort: Sort, parts: &[Frac]) -> Value
    ensures { result ≡ arithmetic_of (has_class base.now) sym sort parts.now }
{
    match parts {
        [p] => over_one(base, sym, sort, p),
        [p, q] => over_two(base, sym, sort, p, q),
        _ => Value::Without,
    }
}

fn over_one(base: &Base, sym: Sym, sort: Sort, p: &Frac) -> Value
    ensures { result ≡ arithmetic_of (has_class base.now) sym sort (p.now ∷ []) }
{
    match sym {
        Sym::Neg => where_has(has(base, sort, Class::Ring), Value::Num(p.neg())),
        Sym::Inv => where_has(is_field(base, sort), Value::Num(inverse(p))),
        _ => Value::Without,
    }
}

fn over_two(base: &Base, sym: Sym, sort: Sort, p: &Frac, q: &Frac) -> Value
    ensures { result ≡ arithmetic_of (has_class base.now) sym sort (p.now ∷ q.now ∷ []) }
{
    match sym {
        Sym::Add => where_has(has(base, sort, Class::Semiring), sum(p, q)),
        Sym::Mul => where_has(has(base, sort, Class::Semiring), product(p, q)),
        Sym::Sub => where_has(has(base, sort, Class::Ring), sum(p, &q.neg())),
        Sym::Div => where_has(is_field(base, sort), product(p, &inverse(q))),
        Sym::Npow => where_has(has(base, sort, Class::Semiring), power(p, size(q))),
        Sym::Zpow => where_has(is_field(base, sort), integer_power(p, q)),
        Sym::Nsmul => where_has(has(base, sort, Class::Semiring), product(p, q)),
        Sym::Zsmul => where_has(has(base, sort, Class::Ring), product(p, q)),
        _ => Value::Without,
    }
}
