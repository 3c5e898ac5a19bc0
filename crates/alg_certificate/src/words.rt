ghost use Rattle.std.specs.Prelude.{◌≡◌, ◌||◌, codes};
ghost use Rattle.alg_certificate.specs.Cutting.{after};
ghost use Rattle.alg_proof.specs.Names.{is_name_byte, are_name_bytes, is_name};
ghost use Rattle.alg_certificate.specs.Words.{is_word_of, is_number, is_positive, then_number, then_positive, is_numeral, is_sort, is_sum_word, is_power_word, is_order_word, is_natural_word, is_symbol, is_comparison, is_relation, is_bridge, is_head};

use crate::bytes::{after, split};
use crate::numbers::read_number;

/// Whether the word is this one.
#[inline(always)]
pub fn is_word_of(wanted: &[u8], word: &[u8]) -> bool
    ensures { result ≡ is_word_of wanted.now word.now }
{
    match after(wanted, word) {
        Some(rest) => rest.is_empty(),
        None => false,
    }
}

pub(crate) fn is_number(word: &[u8]) -> bool
    ensures { result ≡ is_number word.now }
{
    match read_number(word) {
        Some((_, rest)) => rest.is_empty(),
        None => false,
    }
}

fn is_positive(word: &[u8]) -> bool
    ensures { result ≡ is_positive word.now }
{
    match read_number(word) {
        Some((number, rest)) => rest.is_empty() && number != 0,
        None => false,
    }
}

// Whether a number follows the front.
fn is_numbered(front: &[u8], word: &[u8]) -> bool
    ensures { result ≡ then_number (after front.now word.now) }
{
    match after(front, word) {
        Some(rest) => is_number(rest),
        None => false,
    }
}

fn is_negative(word: &[u8]) -> bool
    ensures { result ≡ then_positive (after (codes "-") word.now) }
{
    match after(b"-", word) {
        Some(rest) => is_positive(rest),
        None => false,
    }
}

pub(crate) fn is_numeral(word: &[u8]) -> bool
    ensures { result ≡ is_numeral word.now }
{
    is_number(word) || is_negative(word)
}

pub(crate) fn is_sort(word: &[u8]) -> bool
    ensures { result ≡ is_sort word.now }
{
    is_word_of(b"N", word)
        || (is_word_of(b"Z", word) || (is_word_of(b"Q", word) || is_numbered(b"t", word)))
}

fn is_sum_word(word: &[u8]) -> bool
    ensures { result ≡ is_sum_word word.now }
{
    is_word_of(b"add", word)
        || (is_word_of(b"mul", word)
            || (is_word_of(b"neg", word)
                || (is_word_of(b"sub", word)
                    || (is_word_of(b"inv", word) || is_word_of(b"div", word)))))
}

fn is_power_word(word: &[u8]) -> bool
    ensures { result ≡ is_power_word word.now }
{
    is_word_of(b"npow", word)
        || (is_word_of(b"zpow", word) || (is_word_of(b"nsmul", word) || is_word_of(b"zsmul", word)))
}

fn is_order_word(word: &[u8]) -> bool
    ensures { result ≡ is_order_word word.now }
{
    is_word_of(b"abs", word) || (is_word_of(b"min", word) || is_word_of(b"max", word))
}

fn is_natural_word(word: &[u8]) -> bool
    ensures { result ≡ is_natural_word word.now }
{
    is_word_of(b"natsub", word)
        || (is_word_of(b"idiv", word)
            || (is_word_of(b"mod", word)
                || (is_word_of(b"gcd", word)
                    || (is_word_of(b"lcm", word)
                        || (is_word_of(b"fact", word)
                            || (is_word_of(b"choose", word) || is_word_of(b"fib", word)))))))
}

pub(crate) fn is_symbol(word: &[u8]) -> bool
    ensures { result ≡ is_symbol word.now }
{
    is_sum_word(word)
        || (is_power_word(word)
            || (is_order_word(word) || (is_natural_word(word) || is_numbered(b"@", word))))
}

pub(crate) fn is_comparison(word: &[u8]) -> bool
    ensures { result ≡ is_comparison word.now }
{
    is_word_of(b"ne", word) || (is_word_of(b"lt", word) || is_word_of(b"le", word))
}

pub(crate) fn is_relation(word: &[u8]) -> bool
    ensures { result ≡ is_relation word.now }
{
    is_word_of(b"eq", word) || (is_word_of(b"dvd", word) || is_comparison(word))
}

pub(crate) fn is_bridge(word: &[u8]) -> bool
    ensures { result ≡ is_bridge word.now }
{
    is_word_of(b"smul", word) || (is_word_of(b"zsmul", word) || is_word_of(b"zpow", word))
}

pub(crate) fn is_head(word: &[u8]) -> bool
    ensures { result ≡ is_head word.now }
{
    is_word_of(b"dvd", word) || is_symbol(word)
}

fn is_name_byte(byte: u8) -> bool
    ensures { result ≡ is_name_byte byte }
{
    matches!(byte, b'a'..=b'z' | b'0'..=b'9' | b'_')
}

fn are_name_bytes(bytes: &[u8]) -> bool
    ensures { result ≡ are_name_bytes bytes.now }
{
    let mut left = bytes;
    'bytes: while let Some((byte, rest)) = split(left) {
        if !is_name_byte(byte) {
            return false;
        }
        left = rest;
    }
    true
}

/// Whether the word may name a law or lemma.
pub fn is_name(word: &[u8]) -> bool
    ensures { result ≡ is_name word.now }
{
    match split(word) {
        Some((byte, rest)) => is_name_byte(byte) && are_name_bytes(rest),
        None => false,
    }
}
