//! The named functions.
ghost use Rattle.std.specs.Prelude.{◌≡◌, ◌<◌, ◌^◌, ◌&&◌, [], ◌∷◌, pos, All, if◌then◌else◌};
ghost use Rattle.std.specs.Option.{is_some};
ghost use Rattle.alg_num.specs.Range.{InRange};
ghost use Rattle.alg_law.specs.declared.classes.Class.TheVariants.{Ring, IsStrictOrderedRing};
ghost use Rattle.alg_law.specs.Having.{has_class};
ghost use Rattle.alg_law.specs.Computing.{natural_value, integer_value};
ghost use Rattle.alg_values.specs.Arithmetic.{whole_number};
ghost use Rattle.alg_values.specs.Functions.{is_named, named_of, whole_function, absolute_of, compared_ranged, is_at_most, natural_ranged, integer_ranged};

use crate::operations::{size, where_has};
use crate::value::Value;
use alg_compute::{integer, natural};
use alg_law::{Base, Class, has};
use alg_num::Frac;
use alg_terms::{Sort, Sym};

/// Whether the symbol is one of the eleven named functions.
pub fn is_named(sym: Sym) -> bool
    ensures { result ≡ is_named sym }
{
    match sym {
        Sym::Abs => true,
        Sym::Min => true,
        Sym::Max => true,
        Sym::NatSub => true,
        Sym::IDiv => true,
        Sym::Mod => true,
        Sym::Gcd => true,
        Sym::Lcm => true,
        Sym::Fact => true,
        Sym::Choose => true,
        Sym::Fib => true,
        _ => false,
    }
}

fn absolute(p: &Frac) -> Frac
    ensures { result ≡ absolute_of p.now }
{
    if p.num() < 0 { p.neg() } else { *p }
}

// the smaller of two fractions, or the greater
fn chosen(p: &Frac, q: &Frac, smaller: bool) -> Value
    ensures { result ≡ compared_ranged p.now q.now (if is_at_most p.now q.now then (if smaller then p.now else q.now) else (if smaller then q.now else p.now)) }
{
    match p.cmp(q) {
        Some(order) => {
            if order.is_le() == smaller {
                return Value::Num(*p);
            }
            Value::Num(*q)
        }
        None => Value::Past,
    }
}

fn whole(n: u128) -> Frac
    requires { n < 2 ^ 127 }
    ensures { result ≡ whole_number (pos n) }
{
    Frac::whole(n as i128)
}

// whether it is a function of so many natural numbers
fn is_natural_function(sym: Sym, numbers: &[u128]) -> bool
    ensures { result ≡ is_some (natural_value sym numbers.now) }
{
    match numbers {
        [_] => match sym {
            Sym::Fact => true,
            Sym::Fib => true,
            _ => false,
        },
        [_, _] => match sym {
            Sym::NatSub => true,
            Sym::IDiv => true,
            Sym::Mod => true,
            Sym::Gcd => true,
            Sym::Lcm => true,
            Sym::Choose => true,
            _ => false,
        },
        _ => false,
    }
}

fn of_naturals(sym: Sym, numbers: &[u128]) -> Value
    ensures { result ≡ natural_ranged (natural_value sym numbers.now) }
{
    if !is_natural_function(sym, numbers) {
        return Value::Without;
    }
    match natural(sym, numbers) {
        Some(n) => Value::Num(whole(n)),
        None => Value::Past,
    }
}

fn of_integers(sym: Sym, numbers: &[i128]) -> Value
    requires { All InRange numbers.now }
    ensures { result ≡ integer_ranged (integer_value sym numbers.now) }
{
    match integer(sym, numbers) {
        Some(z) => Value::Num(Frac::whole(z)),
        None => Value::Without,
    }
}

fn whole_function_of_one(sym: Sym, sort: Sort, p: &Frac) -> Value
    ensures { result ≡ whole_function sort sym (p.now ∷ []) }
{
    match sort {
        Sort::Nat => of_naturals(sym, &[size(p)]),
        Sort::Int => Value::Without,
        Sort::Rat => Value::Without,
        Sort::Decl(_) => Value::Without,
    }
}

fn whole_function_of_two(sym: Sym, sort: Sort, p: &Frac, q: &Frac) -> Value
    ensures { result ≡ whole_function sort sym (p.now ∷ q.now ∷ []) }
{
    match sort {
        Sort::Nat => of_naturals(sym, &[size(p), size(q)]),
        Sort::Int => of_integers(sym, &[p.num(), q.num()]),
        Sort::Rat => Value::Without,
        Sort::Decl(_) => Value::Without,
    }
}

// `abs`, or a function of one natural number
fn of_one(base: &Base, sym: Sym, sort: Sort, p: &Frac) -> Value
    ensures { result ≡ named_of (has_class base.now) sym sort (p.now ∷ []) }
{
    match sym {
        Sym::Abs => where_has(is_ordered_ring(base, sort), Value::Num(absolute(p))),
        _ => whole_function_of_one(sym, sort, p),
    }
}

// `min`, `max`, or a function of two natural numbers or integers
fn of_two(base: &Base, sym: Sym, sort: Sort, p: &Frac, q: &Frac) -> Value
    ensures { result ≡ named_of (has_class base.now) sym sort (p.now ∷ q.now ∷ []) }
{
    match sym {
        Sym::Min => where_has(
            has(base, sort, Class::IsStrictOrderedRing),
            chosen(p, q, true),
        ),
        Sym::Max => where_has(
            has(base, sort, Class::IsStrictOrderedRing),
            chosen(p, q, false),
        ),
        _ => whole_function_of_two(sym, sort, p, q),
    }
}

/// The value of a named function at the values of its parts, covered or not. Without value is every other symbol, one
/// over another number of parts, and one whose sort lacks the class that it needs.
pub fn named(base: &Base, sym: Sym, sort: Sort, parts: &[Frac]) -> Value
    ensures { result ≡ named_of (has_class base.now) sym sort parts.now }
{
    match parts {
        [p] => of_one(base, sym, sort, p),
        [p, q] => of_two(base, sym, sort, p, q),
        _ => Value::Without,
    }
}

fn is_ordered_ring(base: &Base, sort: Sort) -> bool
    ensures { result ≡ (has_class base.now sort Ring && has_class base.now sort IsStrictOrderedRing) }
{
    has(base, sort, Class::Ring) && has(base, sort, Class::IsStrictOrderedRing)
}
