ghost use Rattle.std.specs.Prelude.{◌≡◌, ◌≤◌, ◌+◌, ◌*◌, ◌-◌, ℕ, List, Some, None, nat_le, option_map, if◌then◌else◌};
ghost use Rattle.alg_certificate.specs.Numbers.{is_digit, max_number, read_on, begins_digit, read_number};

use crate::bytes::split;
use alg_expr::GREATEST_LITERAL;

fn is_digit(byte: u8) -> bool
    ensures { result ≡ is_digit byte }
{
    48 <= byte && byte <= 57
}

// The number that another digit makes, where it is in range.
fn with_digit(number: u128, digit: u8) -> Option<u128>
    requires in_range { number ≤ max_number }
    requires low { 48 ≤ digit }
    requires high { digit ≤ 57 }
    ensures { result ≡ (if nat_le (number * 10 + (digit - 48)) max_number then Some (number * 10 + (digit - 48)) else None) }
{
    if number > GREATEST_LITERAL / 10 {
        return None;
    }
    let more = number * 10 + (digit - 48) as u128;
    if more <= GREATEST_LITERAL {
        Some(more)
    } else {
        None
    }
}

// Goes on with a number.
fn read_on(number: u128, bytes: &[u8]) -> Option<(u128, &[u8])>
    requires { number ≤ max_number }
    ensures { option_map {U = ℕ × List ℕ} (λ x. (x.0, x.1.now)) result ≡ read_on number bytes.now }
{
    let mut value = number;
    let mut left = bytes;
    'digits: while let Some((byte, rest)) = split(left) {
        if !is_digit(byte) {
            return Some((value, left));
        }
        match with_digit(value, byte) {
            Some(more) => value = more,
            None => return None,
        }
        left = rest;
    }
    Some((value, left))
}

fn begins_digit(bytes: &[u8]) -> bool
    ensures { result ≡ begins_digit bytes.now }
{
    match split(bytes) {
        Some((byte, _)) => is_digit(byte),
        None => false,
    }
}

/// Reads a number without leading zeros, and what follows it.
pub fn read_number(bytes: &[u8]) -> Option<(u128, &[u8])>
    ensures { option_map {U = ℕ × List ℕ} (λ x. (x.0, x.1.now)) result ≡ read_number bytes.now }
{
    let (byte, rest) = split(bytes)?;
    if byte == b'0' {
        return if begins_digit(rest) {
            None
        } else {
            Some((0, rest))
        };
    }
    if !is_digit(byte) {
        return None;
    }
    read_on((byte - 48) as u128, rest)
}
