//! Whole numbers whose absolute value is at most 2^127 - 1. The answer `None` says that the result is past that range.
ghost use Rattle.std.specs.Prelude.{◌+ℤ◌, ◌-ℤ◌, ◌*ℤ◌, SomeIff};
ghost use Rattle.std.specs.Int.{int_pow, IsGcd};
ghost use Rattle.alg_num.specs.Range.{InRange};

/// The sum.
pub fn add(a: i128, b: i128) -> Option<i128>
    requires first { InRange a }
    requires second { InRange b }
    ensures { SomeIff result (InRange (a +ℤ b)) (a +ℤ b) }
{
    let sum = a.checked_add(b)?;
    in_range(sum)
}

/// The difference.
pub fn sub(a: i128, b: i128) -> Option<i128>
    requires first { InRange a }
    requires second { InRange b }
    ensures { SomeIff result (InRange (a -ℤ b)) (a -ℤ b) }
{
    let difference = a.checked_sub(b)?;
    in_range(difference)
}

/// The product.
pub fn mul(a: i128, b: i128) -> Option<i128>
    requires first { InRange a }
    requires second { InRange b }
    ensures { SomeIff result (InRange (a *ℤ b)) (a *ℤ b) }
{
    let product = a.checked_mul(b)?;
    in_range(product)
}

/// The power. The exponent 0 gives 1, also at the base 0.
pub fn pow(a: i128, n: u128) -> Option<i128>
    requires { InRange a }
    ensures { SomeIff result (InRange (int_pow a n)) (int_pow a n) }
{
    if n == 0 || a == 1 {
        return Some(1);
    }
    if a == 0 {
        return Some(0);
    }
    if a == -1 {
        return Some(if n % 2 == 0 { 1 } else { -1 });
    }
    if n > 127 {
        return None;
    }
    let power = a.checked_pow(n as u32)?;
    in_range(power)
}

/// The greatest common divisor, by Euclid's algorithm. That of 0 and 0 is 0.
pub fn gcd(a: u128, b: u128) -> u128
    ensures { IsGcd a b result }
{
    let mut x = a;
    let mut y = b;
    while y != 0 {
        let rest = x % y;
        x = y;
        y = rest;
    }
    x
}

/// The number itself. An i128 goes one further below 0 than the range.
fn in_range(number: i128) -> Option<i128>
    ensures { SomeIff result (InRange number) number }
{
    if number == i128::MIN {
        None
    } else {
        Some(number)
    }
}
