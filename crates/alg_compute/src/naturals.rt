//! The functions on natural numbers.
ghost use Rattle.std.specs.Prelude.{◌≡◌, ◌+◌, ◌*◌, ◌-◌, ◌/◌, ◌%◌, ◌<◌, ◌^◌, [], ◌∷◌, Some, None, SomeIff};
ghost use Rattle.alg_law.specs.LeanFunctions.{natural_quotient, natural_remainder};
ghost use Rattle.alg_law.specs.Computing.{natural_value, literal_value, least_multiple, divides};

use crate::choices::choose;
use crate::sequences::{factorial, fibonacci};
use alg_num::gcd;
use alg_terms::{GREATEST_LITERAL, Sym};

/// The value of `-`, `/`, `%`, `Nat.gcd`, `Nat.lcm`, `Nat.factorial`, `Nat.choose` or `Nat.fib` on ℕ,
/// as Lean defines them. `None` where the value is past 2^127 - 1, at any other symbol, and at another
/// number of arguments. A value past that limit is found out early, however large it is.
pub fn natural(sym: Sym, args: &[u128]) -> Option<u128>
    ensures { result ≡ literal_value (natural_value sym args.now) }
{
    match args {
        [a] => at_one(sym, *a),
        [a, b] => at_two(sym, *a, *b),
        _ => None,
    }
}

/// Whether a divides b. Of all numbers 0 divides 0 alone.
pub fn divides(a: u128, b: u128) -> bool
    ensures { result ≡ divides a b }
{
    b.is_multiple_of(a)
}

fn at_one(sym: Sym, a: u128) -> Option<u128>
    ensures { result ≡ literal_value (natural_value sym (a ∷ [])) }
{
    match sym {
        Sym::Fact => factorial(a),
        Sym::Fib => fibonacci(a),
        _ => None,
    }
}

fn at_two(sym: Sym, a: u128, b: u128) -> Option<u128>
    ensures { result ≡ literal_value (natural_value sym (a ∷ b ∷ [])) }
{
    match sym {
        Sym::NatSub => limited(a.saturating_sub(b)),
        Sym::IDiv => limited(quotient(a, b)),
        Sym::Mod => limited(remainder(a, b)),
        Sym::Gcd => limited(gcd(a, b)),
        Sym::Lcm => lcm(a, b),
        Sym::Choose => choose(a, b),
        _ => None,
    }
}

fn quotient(a: u128, b: u128) -> u128
    ensures { result ≡ natural_quotient a b }
{
    if b == 0 { 0 } else { a / b }
}

fn remainder(a: u128, b: u128) -> u128
    ensures { result ≡ natural_remainder a b }
{
    if b == 0 { a } else { a % b }
}

fn lcm(a: u128, b: u128) -> Option<u128>
    ensures { SomeIff result (least_multiple a b < 2 ^ 127) (least_multiple a b) }
{
    let common = gcd(a, b);
    if common == 0 {
        return Some(0);
    }
    product(a / common, b)
}

/// The number, if it is a literal's.
fn limited(number: u128) -> Option<u128>
    ensures { SomeIff result (number < 2 ^ 127) number }
{
    if number <= GREATEST_LITERAL {
        Some(number)
    } else {
        None
    }
}

pub(crate) fn sum(a: u128, b: u128) -> Option<u128>
    ensures { SomeIff result (a + b < 2 ^ 127) (a + b) }
{
    limited(a.checked_add(b)?)
}

pub(crate) fn product(a: u128, b: u128) -> Option<u128>
    ensures { SomeIff result (a * b < 2 ^ 127) (a * b) }
{
    limited(a.checked_mul(b)?)
}
