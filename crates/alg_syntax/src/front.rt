ghost use Rattle.std.specs.Prelude.{◌≡◌, ◌==◌, [], ◌∷◌, false, drop, Some, None, if◌then◌else◌, MatchOption, IfNone, option_map};
ghost use Rattle.alg_syntax.specs.Signs.{signs};
ghost use Rattle.alg_syntax.specs.Front as spec;

use crate::signs::{Fixed, Name, Sign, sign_of};
use alg_lex::Token;
use std::marker::Model;

/// The tokens to come. Contracts see them as the grammar does.
#[derive(Drop)]
pub struct Tokens<'t, 'a> {
    tokens: &'t [Token<'a>],
    at: usize,
}

impl<'t, 'a> Model for Tokens<'t, 'a> {
    ghost use Rattle.std.specs.Prelude.{List};
    ghost use Rattle.alg_syntax.specs.declared.signs.Sign.{Sign};

    ghost Value = { List Sign };

    ghost use Rattle.alg_syntax.specs.Signs.{signs};
    ghost use Rattle.std.specs.Prelude.{drop, length, ◌≤◌};

    ghost view = { λ t. signs (drop t.at t.tokens.now) };

    ghost invariant = { λ t. t.at ≤ length t.tokens.now };
}

fn number_of(word: Fixed) -> u8
    ensures { result ≡ spec.number_of word }
{
    match word {
        Fixed::Colon => 0,
        Fixed::Assign => 1,
        Fixed::Semicolon => 2,
        Fixed::Arrow => 3,
        Fixed::OpenBrace => 4,
        Fixed::CloseBrace => 5,
        Fixed::OpenBracket => 6,
        Fixed::CloseBracket => 7,
        Fixed::Import => 8,
        Fixed::Variable => 9,
        Fixed::Theorem => 10,
        Fixed::Example => 11,
        Fixed::By => 12,
        Fixed::TypeWord => 13,
        Fixed::Unknown => 14,
    }
}

pub fn is(word: Fixed, wanted: Fixed) -> bool
    ensures { result ≡ (spec.number_of word == spec.number_of wanted) }
{
    number_of(word) == number_of(wanted)
}

impl<'t, 'a> Tokens<'t, 'a> {
    pub fn of(tokens: &'t [Token<'a>]) -> Tokens<'t, 'a>
        ensures { result ≡ signs tokens.now }
    {
        Tokens { tokens, at: 0 }
    }

    pub fn copy(&self) -> Tokens<'t, 'a>
        ensures { result ≡ self.now }
    {
        Tokens {
            tokens: self.tokens,
            at: self.at,
        }
    }

    /// The first token, which stays.
    pub fn first(&self) -> Option<Sign<'a>>
        ensures { MatchOption result (self.now ≡ []) (λ s. self.now ≡ s ∷ drop 1 self.now) }
    {
        if self.at < self.tokens.len() {
            Some(sign_of(&self.tokens[self.at]))
        } else {
            None
        }
    }

    /// Takes the first token.
    pub fn next(&mut self) -> Option<Sign<'a>>
        ensures { MatchOption result ((self.old ≡ []) × (self.new ≡ [])) (λ s. self.old ≡ s ∷ self.new) }
    {
        let first = self.first();
        self.skip();
        first
    }

    /// Passes the first token.
    pub fn skip(&mut self)
        ensures { self.new ≡ drop 1 self.old }
    {
        if self.at < self.tokens.len() {
            self.at += 1;
        }
    }

    /// Takes this word or mark, where it is the first.
    pub fn skip_fixed(&mut self, wanted: Fixed) -> bool
        ensures after { spec.after_fixed wanted self.old ≡ if result then Some self.new else None }
        ensures stays { result ≡ false → self.new ≡ self.old }
    {
        match self.first() {
            Some(Sign::Fixed(word)) => {
                if is(word, wanted) {
                    self.skip();
                    true
                } else {
                    false
                }
            }
            _ => false,
        }
    }

    /// Takes a closing parenthesis, where it is the first.
    pub fn skip_close(&mut self) -> bool
        ensures after { spec.after_close self.old ≡ if result then Some self.new else None }
        ensures stays { result ≡ false → self.new ≡ self.old }
    {
        match self.first() {
            Some(Sign::Close) => {
                self.skip();
                true
            }
            _ => false,
        }
    }

    /// Takes a name, where one is the first.
    pub fn take_name(&mut self) -> Option<Name<'a>>
        ensures name { option_map (λ n. (n, self.new)) result ≡ spec.name_first self.old }
        ensures stays { IfNone result (self.new ≡ self.old) }
    {
        match self.first() {
            Some(Sign::Name(name)) => {
                self.skip();
                Some(name)
            }
            _ => None,
        }
    }
}
