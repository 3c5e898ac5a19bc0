//! How many sets of k out of n things there are.
ghost use Rattle.std.specs.Prelude.{◌≡◌, suc, ◌+◌, ◌<◌, ◌≤◌, ◌^◌, SomeIff};
ghost use Rattle.alg_law.specs.LeanFunctions.{choose};

use crate::naturals::product;
use alg_num::gcd;

pub(crate) fn choose(n: u128, k: u128) -> Option<u128>
    ensures { SomeIff result (choose n k < 2 ^ 127) (choose n k) }
{
    if k > n {
        return Some(0);
    }
    let rest = n - k;
    if k < rest {
        choose_few(n, k)
    } else {
        choose_few(n, rest)
    }
}

/// The number for a k that is at most half of n. The numbers grow up to there, each at least twice
/// the one before, so that the first one past the limit comes soon.
fn choose_few(n: u128, k: u128) -> Option<u128>
    requires { k + k ≤ n }
    ensures { SomeIff result (choose n k < 2 ^ 127) (choose n k) }
{
    let mut value = 1;
    for i in 0..k {
        value = choose_next(n, i, value)?;
    }
    Some(value)
}

/// The number for one thing more, `value * (n - k) / (k + 1)`, without a product that is past the limit
/// where the number isn't.
fn choose_next(n: u128, k: u128, value: u128) -> Option<u128>
    requires below { k < n }
    requires value { value ≡ choose n k }
    ensures { SomeIff result (choose n (suc k) < 2 ^ 127) (choose n (suc k)) }
{
    let common = gcd(value, k + 1);
    let divisor = (k + 1) / common;
    product(value / common, (n - k) / divisor)
}
