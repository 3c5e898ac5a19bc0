//! Tokens of the notation, which borrow their text from the source. Nothing is copied and no memory is taken.
//!
//! Blanks are space, tab, carriage return and line feed. `--` begins a comment that ends before the next line feed,
//! `/-` one that ends at its matching `-/`. Elsewhere the longest token at a place is taken. Which characters begin
//! and go on with names is told by `unicode_ident`, at Unicode 18.0.
#![tactic(auto)]

ghost use Rattle.std.specs.Prelude.{◌≡◌, ◌≤◌, ◌^◌, [], IfOk, IfNone, length};
ghost use Rattle.std.specs.Str.{chars};
ghost use Rattle.alg_lex.specs.Items.{items_from, beginning};
ghost use Rattle.alg_lex.specs.Reading.{Reads};
ghost use Rattle.alg_lex.specs.Slices.{AreSlices};
ghost use Rattle.alg_lex.specs.Answer.{answered};

mod scan;

use scan::{cut, line_feeds, token_at};
use std::marker::Model;
use thiserror::Error;

/// What a token is. Its text tells which word or mark it is.
#[derive(Clone, Copy, Debug, PartialEq, Eq, Hash)]
pub enum Kind {
    /// A run of digits, whose value is at most 2^127-1.
    Literal { value: u128 },
    /// Parts joined by single dots.
    Name,
    /// A name that is one of `import variable theorem lemma example by Type`.
    Word,
    Mark,
}

/// A token of a source.
#[derive(Clone, Copy, Debug, PartialEq, Eq)]
pub struct Token<'a> {
    pub kind: Kind,
    /// The part of the source that the token is.
    pub text: &'a str,
    /// The offset of `text` in the source, in bytes.
    pub at: usize,
    /// The line on which the token begins, from 1.
    pub line: u32,
    /// Whether a line feed stands between the token and the one before it, or the beginning of the source.
    pub after_newline: bool,
}

/// What is no token, with the line on which it begins.
#[derive(Clone, Copy, Debug, PartialEq, Eq, Hash, Error)]
pub enum LexFault {
    /// A character that begins no token, blank or comment.
    #[error("line {line}: bad character")]
    BadChar { line: u32 },
    /// A `/-` without a match. The rest of the source is passed over.
    #[error("line {line}: open comment")]
    OpenComment { line: u32 },
    /// A literal above 2^127-1.
    #[error("line {line}: literal too wide")]
    LiteralTooWide { line: u32 },
}

/// The tokens of a source, one at a time. Contracts see the tokens and faults that are to come.
#[derive(Debug, Drop)]
pub struct Lexer<'a> {
    rest: &'a str,
    at: usize,
    line: usize,
    fresh: bool,
}

impl<'a> Model for Lexer<'a> {
    ghost use Rattle.std.specs.Prelude.{List};
    ghost use Rattle.alg_lex.specs.Items.{Item};

    ghost Value = { List Item };

    ghost use Rattle.std.specs.Prelude.{◌+◌, ◌≤◌, ◌^◌, length};
    ghost use Rattle.std.specs.Str.{chars};
    ghost use Rattle.alg_lex.specs.Items.{items_from};

    ghost view = { λ s. items_from (record { at = s.at; line = s.line; fresh = s.fresh }) (chars s.rest.now) };

    ghost invariant = { λ s. (s.at + length s.rest.now ≤ 2 ^ 24) × (s.line ≤ s.at + 1) };
}

impl<'a> Lexer<'a> {
    /// The tokens of a source of at most 16 MiB.
    pub fn new(src: &'a str) -> Lexer<'a>
        requires { length src.now ≤ 2 ^ 24 }
        ensures items { result ≡ items_from beginning (chars src.now) }
        ensures reading { Reads beginning (chars src.now) result }
        ensures slices { AreSlices src.now 0 result }
    {
        Lexer {
            rest: src,
            at: 0,
            line: 1,
            fresh: false,
        }
    }

    /// The next token, or `None` at the end of the source. A fault is passed over: the next call goes on behind it.
    pub fn next(&mut self) -> Result<Option<Token<'a>>, LexFault>
        ensures value { self.old ≡ answered result self.new }
        ensures none { IfOk result (λ o. IfNone o (self.new ≡ [])) }
    {
        'gaps: while !self.rest.is_empty() {
            let (piece, text, rest) = cut(self.rest);
            let found = token_at(piece, text, self.at, self.line as u32, self.fresh);
            let feeds = line_feeds(text);
            self.rest = rest;
            self.at += text.len();
            self.line += feeds;
            self.fresh = self.fresh | (feeds > 0);
            match found {
                None => {}
                Some(answer) => match answer {
                    Ok(token) => {
                        self.fresh = false;
                        return Ok(Some(token));
                    }
                    Err(fault) => return Err(fault),
                },
            }
        }
        Ok(None)
    }
}

#[cfg(test)]
mod tests;
