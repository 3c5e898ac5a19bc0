ghost use Rattle.std.specs.Prelude.{◌≡◌, ◌&&◌, List, Some, option_map};
ghost use Rattle.alg_certificate.specs.Numbers.{read_number};
ghost use Rattle.alg_certificate.specs.Cutting.{is_empty};
ghost use Rattle.alg_certificate.specs.Tokens.{first_word};
ghost use Rattle.alg_certificate.specs.Reader.{TextLine, of_number, of_pattern, of_head, of_word, kind_of, outside_line, proving_line, begun_line, line_in, may_end, seen_line, coming_of, Comes};
ghost use Rattle.alg_certificate.specs.Items.{Spelled};
ghost use Rattle.alg_certificate.specs.Grammar.{AreLinesOf};
ghost use Rattle.alg_certificate.specs.Patterns.{given_pattern, pattern_of};
ghost use Rattle.alg_certificate.specs.declared.reader.State.{State};

use crate::bytes::{after, cut_line};
use crate::numbers::read_number;
use crate::patterns::{given_pattern, pattern_of};
use crate::tokens::cut_word;
use crate::walks::allows;
use crate::words::is_word_of;
use std::marker::Model;
use thiserror::Error;

#[derive(Clone, Copy)]
enum Kind {
    Goal(u128),
    Given,
    Proof,
    End,
}

// Where a reader stands: between entries, behind a goal, in a proof, or where the first line isn't the one that it has to be.
#[derive(Clone, Copy)]
enum State {
    Outside,
    Begun,
    Proving,
    Broken,
}

/// A line of a certificate. Its texts are slices of the certificate, without their line feeds.
#[derive(Clone, Copy, Debug)]
pub enum CertLine<'a> {
    /// An entry begins, for the goal with this number, from 1.
    Goal { number: u128 },
    /// What the entry's proof takes as given.
    Given { text: &'a [u8] },
    /// A line of the entry's proof.
    Proof { text: &'a [u8] },
    /// The entry ends.
    End,
}

/// The bytes at `offset`, counted from 0, begin no line that may stand there.
#[derive(Clone, Copy, Debug, Drop, Error)]
#[error("bad at byte {offset}")]
pub struct CertFault {
    pub offset: usize,
}

fn goal_kind(rest: &[u8]) -> Option<Kind>
    ensures { result ≡ of_number (read_number rest.now) }
{
    let (number, rest) = read_number(rest)?;
    if !rest.is_empty() {
        return None;
    }
    if number == 0 {
        return None;
    }
    Some(Kind::Goal(number))
}

fn proof_kind(word: &[u8], rest: &[u8]) -> Option<Kind>
    ensures { result ≡ of_pattern (pattern_of word.now) rest.now }
{
    let parts = pattern_of(word)?;
    if allows(parts, rest) {
        Some(Kind::Proof)
    } else {
        None
    }
}

fn head_kind(word: &[u8], rest: &[u8]) -> Option<Kind>
    ensures { result ≡ of_head word.now rest.now }
{
    if is_word_of(b"given", word) {
        return if allows(given_pattern(), rest) {
            Some(Kind::Given)
        } else {
            None
        };
    }
    proof_kind(word, rest)
}

fn word_kind(text: &[u8]) -> Option<Kind>
    ensures { result ≡ of_word (first_word text.now) }
{
    let (word, rest) = cut_word(text)?;
    head_kind(word, rest)
}

fn kind_of(text: &[u8]) -> Option<Kind>
    ensures { result ≡ kind_of text.now }
{
    if let Some(rest) = after(b"goal ", text) {
        return goal_kind(rest);
    }
    if is_word_of(b"end", text) {
        return Some(Kind::End);
    }
    word_kind(text)
}

fn proving_line(text: &[u8], kind: Kind) -> Option<(CertLine, State)>
    ensures { option_map {U = TextLine × State} (λ x. (seen_line x.0, x.1)) result ≡ proving_line text.now (Some kind) }
{
    match kind {
        Kind::Proof => Some((CertLine::Proof { text }, State::Proving)),
        Kind::End => Some((CertLine::End, State::Outside)),
        _ => None,
    }
}

fn begun_line(text: &[u8], kind: Kind) -> Option<(CertLine, State)>
    ensures { option_map {U = TextLine × State} (λ x. (seen_line x.0, x.1)) result ≡ begun_line text.now (Some kind) }
{
    match kind {
        Kind::Given => Some((CertLine::Given { text }, State::Proving)),
        _ => proving_line(text, kind),
    }
}

fn outside_line(kind: Kind) -> Option<(CertLine<'static>, State)>
    ensures { option_map {U = TextLine × State} (λ x. (seen_line x.0, x.1)) result ≡ outside_line (Some kind) }
{
    match kind {
        Kind::Goal(number) => Some((CertLine::Goal { number }, State::Begun)),
        _ => None,
    }
}

// The line that a text is, and the state after it.
fn line_in(state: State, text: &[u8]) -> Option<(CertLine, State)>
    ensures { option_map {U = TextLine × State} (λ x. (seen_line x.0, x.1)) result ≡ line_in state text.now (kind_of text.now) }
{
    let kind = kind_of(text)?;
    match state {
        State::Outside => outside_line(kind),
        State::Begun => begun_line(text, kind),
        State::Proving => proving_line(text, kind),
        State::Broken => None,
    }
}

fn may_end(state: State) -> bool
    ensures { result ≡ may_end state }
{
    matches!(state, State::Outside)
}

fn is_over(rest: &[u8], state: State) -> bool
    ensures { result ≡ (is_empty rest.now && may_end state) }
{
    rest.is_empty() && may_end(state)
}

/// The lines of a certificate behind its first, one after another. Takes no memory.
#[derive(Drop)]
pub struct CertReader<'a> {
    rest: &'a [u8],
    total: usize,
    state: State,
}

impl<'a> Model for CertReader<'a> {
    ghost use Rattle.alg_certificate.specs.Reader.{Coming, coming_at};
    ghost use Rattle.std.specs.Prelude.{length, ◌-◌, ◌≤◌};

    ghost Value = { Coming };

    ghost view = { λ s. coming_at (s.total - length s.rest.now) s.state s.rest.now };

    ghost invariant = { λ s. length s.rest.now ≤ s.total };
}

impl<'a> CertReader<'a> {
    /// Reads the lines of these bytes, from the beginning. What comes are the lines of the grammar, one behind another,
    /// and a fault stands exactly where the bytes begin no line that the grammar allows there.
    pub fn new(bytes: &'a [u8]) -> CertReader<'a>
        ensures coming { result ≡ coming_of bytes.now }
        ensures grammar { AreLinesOf bytes.now result }
    {
        let total = bytes.len();
        match after(b"algebra-cert 1\n", bytes) {
            Some(rest) => CertReader {
                rest,
                total,
                state: State::Outside,
            },
            None => CertReader {
                rest: bytes,
                total,
                state: State::Broken,
            },
        }
    }

    /// The next line, None behind the last, or where no line begins that may stand there. After a fault every
    /// call answers the same fault, and after None every call None. A text is spelled by the table of what may stand
    /// behind each first word.
    pub fn next(&mut self) -> Result<Option<CertLine<'a>>, CertFault>
        ensures comes { Comes self.old self.new result }
        ensures spelled { Spelled result }
    {
        let offset = self.total - self.rest.len();
        let Some((text, rest)) = cut_line(self.rest) else {
            if is_over(self.rest, self.state) {
                return Ok(None);
            }
            return Err(CertFault { offset });
        };
        match line_in(self.state, text) {
            None => Err(CertFault { offset }),
            Some((line, state)) => {
                self.state = state;
                self.rest = rest;
                Ok(Some(line))
            }
        }
    }
}
