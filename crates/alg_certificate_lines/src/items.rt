ghost use Rattle.std.specs.Prelude.{◌≡◌, ℕ, ℤ, List, option_map};
ghost use Rattle.alg_certificate_lines.specs.Following.{next_word, next_number, next_numeral, one_number, two_numbers, three_numbers, word_and_two, behind_semicolon};

use crate::words::{number_named, numeral_named};
use alg_certificate::bytes::after;
use alg_certificate::tokens::cut_word;

// The word behind a blank, and what follows it.
pub(crate) fn next_word(text: &[u8]) -> Option<(&[u8], &[u8])>
    ensures { option_map {U = List ℕ × List ℕ} (λ x. (x.0.now, x.1.now)) result ≡ next_word text.now }
{
    let rest = after(b" ", text)?;
    cut_word(rest)
}

// The number behind a blank, and what follows it.
pub(crate) fn next_number(text: &[u8]) -> Option<(u128, &[u8])>
    ensures { option_map {U = ℕ × List ℕ} (λ x. (x.0, x.1.now)) result ≡ next_number text.now }
{
    let (word, rest) = next_word(text)?;
    let number = number_named(word)?;
    Some((number, rest))
}

pub(crate) fn one_number(text: &[u8]) -> Option<u128>
    ensures { result ≡ one_number text.now }
{
    let (number, _) = next_number(text)?;
    Some(number)
}

pub(crate) fn two_numbers(text: &[u8]) -> Option<(u128, u128)>
    ensures { result ≡ two_numbers text.now }
{
    let (first, rest) = next_number(text)?;
    let second = one_number(rest)?;
    Some((first, second))
}

pub(crate) fn three_numbers(text: &[u8]) -> Option<(u128, u128, u128)>
    ensures { result ≡ three_numbers text.now }
{
    let (first, rest) = next_number(text)?;
    let (second, third) = two_numbers(rest)?;
    Some((first, second, third))
}

pub(crate) fn word_and_two(text: &[u8]) -> Option<(&[u8], u128, u128)>
    ensures { option_map {U = List ℕ × ℕ × ℕ} (λ x. (x.0.now, x.1, x.2)) result ≡ word_and_two text.now }
{
    let (word, rest) = next_word(text)?;
    let (first, second) = two_numbers(rest)?;
    Some((word, first, second))
}

// The numeral behind a blank, and what follows it.
pub(crate) fn next_numeral(text: &[u8]) -> Option<(i128, &[u8])>
    ensures { option_map {U = ℤ × List ℕ} (λ x. (x.0, x.1.now)) result ≡ next_numeral text.now }
{
    let (word, rest) = next_word(text)?;
    let numeral = numeral_named(word)?;
    Some((numeral, rest))
}

// What follows the first semicolon.
pub(crate) fn behind_semicolon(text: &[u8]) -> Option<&[u8]>
    ensures { option_map {U = List ℕ} (λ x. x.now) result ≡ behind_semicolon text.now }
{
    let mut left = text;
    'bytes: while let Some((byte, rest)) = left.split_first() {
        if *byte == b';' {
            return Some(rest);
        }
        left = rest;
    }
    None
}
