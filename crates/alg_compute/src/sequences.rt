//! Factorials and Fibonacci's numbers, up to the first that is past the limit.
ghost use Rattle.std.specs.Prelude.{◌<◌, ◌^◌, SomeIff};
ghost use Rattle.alg_law.specs.LeanFunctions.{factorial, fibonacci};

use crate::naturals::{product, sum};

pub(crate) fn factorial(n: u128) -> Option<u128>
    ensures { SomeIff result (factorial n < 2 ^ 127) (factorial n) }
{
    let mut value = 1;
    for i in 0..n {
        value = product(i + 1, value)?;
    }
    Some(value)
}

pub(crate) fn fibonacci(n: u128) -> Option<u128>
    ensures { SomeIff result (fibonacci n < 2 ^ 127) (fibonacci n) }
{
    let mut before = 1;
    let mut here = 0;
    for i in 0..n {
        let next = sum(before, here)?;
        before = here;
        here = next;
    }
    Some(here)
}
