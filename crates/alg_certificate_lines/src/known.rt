ghost use Rattle.std.specs.Prelude.{◌≡◌, List, Some, None};
ghost use Rattle.alg_terms.specs.Tree.{Tree};
ghost use Rattle.alg_proof.specs.Steps.{name_mark};
ghost use Rattle.alg_certificate.specs.Seen.{seen};
ghost use Rattle.alg_certificate.specs.Lexed.{tokens};
ghost use Rattle.alg_certificate_lines.specs.Known.{is_good, is_there, has_sort, has_symbol, variable_sort, token_known, tokens_known};
ghost use Rattle.alg_certificate_lines.specs.Words.{sort_named, symbol_named};

use crate::symbols::symbol_named;
use crate::words::sort_named;
use alg_certificate::tokens::{Token, next_token};
use alg_expr::{Sort, Sym};
use alg_law::{Base, Mark, mark_for_sort};

pub(crate) fn is_good(mark: Mark) -> bool
    ensures { result ≡ is_good mark }
{
    matches!(mark, Mark::Good)
}

pub(crate) fn has_sort(base: &Base, word: &[u8]) -> bool
    ensures { result ≡ has_sort base.now (sort_named word.now) }
{
    match sort_named(word) {
        Some(sort) => matches!(mark_for_sort(base, sort), Mark::Good),
        None => false,
    }
}

// Whether a declared function is there.
pub(crate) fn is_function(base: &Base, sym: Sym) -> bool
    ensures { result ≡ is_good (name_mark base.now sym) }
{
    match sym {
        Sym::Apply(k) => base.function(k).is_some(),
        _ => true,
    }
}

pub(crate) fn has_symbol(base: &Base, word: &[u8]) -> bool
    ensures { result ≡ has_symbol base.now (symbol_named word.now) }
{
    match symbol_named(word) {
        Some(sym) => is_function(base, sym),
        None => false,
    }
}

/// The sort of the variable with this number.
pub fn variable_sort(base: &Base, number: u128) -> Option<Sort>
    ensures { result ≡ variable_sort base.now number }
{
    if number < 4_294_967_296 {
        base.variable(number as u32)
    } else {
        None
    }
}

fn is_known(base: &Base, token: Token) -> bool
    ensures { result ≡ token_known base.now (seen token.entry) }
{
    match token {
        Token::Open(word) => has_symbol(base, word),
        Token::Lit(word, _) => has_sort(base, word),
        Token::Var(k) => variable_sort(base, k).is_some(),
        _ => true,
    }
}

/// Whether the base has what the tokens of trees name.
pub fn are_known(base: &Base, text: &[u8]) -> bool
    ensures { result ≡ tokens_known base.now (tokens text.now).0 }
{
    let mut left = text;
    'tokens: while let Some((token, rest)) = next_token(left) {
        if !is_known(base, token) {
            return false;
        }
        left = rest;
    }
    true
}
