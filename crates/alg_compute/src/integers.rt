//! The functions on integers.
ghost use Rattle.std.specs.Prelude.{◌≡◌, ◌<◌, ◌^◌, [], ◌∷◌, All, IfSome, unsigned_abs};
ghost use Rattle.alg_num.specs.Range.{InRange};
ghost use Rattle.alg_law.specs.Computing.{integer_value, integer_quotient, integer_remainder};

use alg_terms::Sym;

/// The value of `/` or `%` on ℤ, Lean's `Int.ediv` and `Int.emod`. `None` at any other symbol and at
/// another number of arguments.
pub fn integer(sym: Sym, args: &[i128]) -> Option<i128>
    requires { All InRange args.now }
    ensures value { result ≡ integer_value sym args.now }
    ensures small { IfSome result InRange }
{
    let [a, b] = args else { return None };
    match sym {
        Sym::IDiv => Some(quotient(*a, *b)),
        Sym::Mod => Some(remainder(*a, *b)),
        _ => None,
    }
}

fn quotient(a: i128, b: i128) -> i128
    requires { InRange a }
    ensures value { result ≡ integer_quotient a b }
    ensures small { InRange result }
{
    if b == 0 { 0 } else { a.div_euclid(b) }
}

fn remainder(a: i128, b: i128) -> i128
    requires first { InRange a }
    requires second { InRange b }
    ensures value { result ≡ integer_remainder a b }
    ensures small { InRange result }
{
    if b == 0 { a } else { a.rem_euclid(b) }
}
