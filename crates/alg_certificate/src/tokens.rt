ghost use Rattle.std.specs.Prelude.{◌≡◌, ◌≤◌, ◌+◌, ℕ, List, Some, None, length, option_map, if◌then◌else◌};
ghost use Rattle.alg_certificate.specs.Tokens.{Tok, Var, is_word, begins_word, front, behind, word_then, number_then, name_then, open_then, lit_then, read_token};
ghost use Rattle.alg_certificate.specs.Seen.{read_seen};

use crate::bytes::split;
use crate::numbers::read_number;

/// A token of a line.
#[derive(Clone, Copy)]
pub enum Token<'a> {
    Blank,
    Close,
    Semi,
    Open(&'a [u8]),
    Lit(&'a [u8], u128),
    Var(u128),
    Word(&'a [u8]),
}

// The letters are asked for first: most bytes of a line's words are such.
#[inline(always)]
fn is_word(byte: u8) -> bool
    ensures { result ≡ is_word byte }
{
    if byte >= b'a' {
        byte <= b'z'
    } else if byte <= b'9' {
        byte >= b'0' || byte == b'-'
    } else {
        byte >= b'@' && (byte <= b'Z' || byte == b'_')
    }
}

// How long the word at the front is.
#[inline(always)]
fn word_length(bytes: &[u8]) -> usize
    ensures { result ≡ length (front bytes.now) }
{
    let mut count = 0;
    let mut left = bytes;
    'bytes: while let Some((byte, rest)) = split(left) {
        if !is_word(byte) {
            break;
        }
        count += 1;
        left = rest;
    }
    count
}

/// The word at the front, and what follows it.
#[inline(always)]
pub fn cut_word(bytes: &[u8]) -> Option<(&[u8], &[u8])>
    ensures { option_map {U = List ℕ × List ℕ} (λ x. (x.0.now, x.1.now)) result ≡ (if begins_word bytes.now then Some (front bytes.now, behind bytes.now) else None) }
{
    let count = word_length(bytes);
    if count == 0 {
        return None;
    }
    Some(bytes.split_at(count))
}

#[inline(always)]
fn read_name(bytes: &[u8]) -> Option<(Token, &[u8])>
    ensures { read_seen result ≡ word_then name_then bytes.now }
{
    let (word, rest) = cut_word(bytes)?;
    Some((Token::Word(word), rest))
}

#[inline(always)]
fn read_open(bytes: &[u8]) -> Option<(Token, &[u8])>
    ensures { read_seen result ≡ word_then open_then bytes.now }
{
    let (word, rest) = cut_word(bytes)?;
    Some((Token::Open(word), rest))
}

#[inline(always)]
fn read_literal(bytes: &[u8]) -> Option<(Token, &[u8])>
    ensures { read_seen result ≡ word_then lit_then bytes.now }
{
    let (word, rest) = cut_word(bytes)?;
    let (colon, number) = split(rest)?;
    if colon != b':' {
        return None;
    }
    let (value, rest) = read_number(number)?;
    Some((Token::Lit(word, value), rest))
}

#[inline(always)]
fn read_variable(bytes: &[u8]) -> Option<(Token, &[u8])>
    ensures { read_seen result ≡ number_then (λ k. Var k) bytes.now }
{
    let (value, rest) = read_number(bytes)?;
    Some((Token::Var(value), rest))
}

/// The first token, and what follows it.
#[tactic(auto, unfolding(crate::specs::Tokens::read_token))]
#[inline(always)]
pub fn next_token(bytes: &[u8]) -> Option<(Token, &[u8])>
    ensures { read_seen result ≡ read_token bytes.now }
{
    let (byte, rest) = split(bytes)?;
    match byte {
        b' ' => Some((Token::Blank, rest)),
        b')' => Some((Token::Close, rest)),
        b';' => Some((Token::Semi, rest)),
        b'(' => read_open(rest),
        b'#' => read_literal(rest),
        b'$' => read_variable(rest),
        _ => read_name(bytes),
    }
}
