//! Numbers that are cut off at 2^126 + 1, so that towers of powers are never computed.
ghost use Rattle.std.specs.Prelude.{◌≡◌, ◌+◌, ◌*◌, ◌^◌, max};
ghost use Rattle.alg_ring_range.specs.Capped.{capped};

const CAP: u128 = (1 << 126) + 1;

pub(crate) fn cap(n: u128) -> u128
    ensures { result ≡ capped n }
{
    if n < CAP { n } else { CAP }
}

pub(crate) fn capped_sum(a: u128, b: u128) -> u128
    ensures { result ≡ capped (a + b) }
{
    match a.checked_add(b) {
        Some(sum) => cap(sum),
        None => CAP,
    }
}

pub(crate) fn capped_product(a: u128, b: u128) -> u128
    ensures { result ≡ capped (a * b) }
{
    match a.checked_mul(b) {
        Some(product) => cap(product),
        None => CAP,
    }
}

pub(crate) fn capped_power(a: u128, n: u128) -> u128
    ensures { result ≡ capped (a ^ n) }
{
    if n == 0 {
        return 1;
    }
    if a < 2 {
        return a;
    }
    if n > 126 {
        return CAP;
    }
    match a.checked_pow(n as u32) {
        Some(power) => cap(power),
        None => CAP,
    }
}

pub(crate) fn capped_max(a: u128, b: u128) -> u128
    ensures { result ≡ capped (max a b) }
{
    if a < b { cap(b) } else { cap(a) }
}
