ghost use Rattle.std.specs.Prelude.{◌≡◌, ◌<◌, ◌≤◌, ◌^◌, ℕ, Bool, true, Option, ◌++◌, [], ◌∷◌, length, take, drop, encode_utf8, MatchOption, option_map, nat_lt, ◌==◌, ◌&&◌, if◌then◌else◌};
ghost use Rattle.std.specs.Str.Parse.{digits_value};
ghost use Rattle.std.specs.Str.{chars, encode_utf8_all, IsUtf8};
ghost use Rattle.alg_lex.specs.Characters as spec;
ghost use Rattle.alg_lex.specs.Tokens.{is_literal, is_mark, is_word};
ghost use Rattle.alg_lex.specs.Comments.{line_len, comment_len};
ghost use Rattle.alg_lex.specs.Items.{piece, item_at};
ghost use Rattle.alg_lex.specs.Items as items;
ghost use Rattle.alg_lex.specs.Scanning.{digits_len, tail_len, marked, scanned, Leaves, LeavesIf, Scans, Cuts};
ghost use Rattle.alg_lex.specs.Answer.{item_of};

use crate::{Kind, LexFault, Token};

/// What stands at the front of a text.
#[derive(Clone, Copy, Debug, PartialEq, Eq)]
pub enum Piece {
    /// A blank or a comment.
    Gap,
    Number,
    Identifier,
    Sign,
    /// A character that begins no token, blank or comment.
    Stray,
    /// A comment that has no end.
    Unclosed,
}

// The first character, and what follows it.
fn split_first_char(text: &str) -> Option<(char, &str)>
    ensures { MatchOption result ((chars text.now ≡ []) × (text.now ≡ []))
        (λ (c, rest). (chars text.now ≡ c ∷ chars rest.now) × (length rest.now < length text.now) × (text.now ≡ encode_utf8 c ++ rest.now)) }
{
    let mut chars = text.chars();
    match chars.next() {
        Some(c) => Some((c, chars.as_str())),
        None => None,
    }
}

// The first character, or NUL where there is none.
fn first(text: &str) -> char
    ensures { result ≡ spec.first (chars text.now) }
{
    match split_first_char(text) {
        Some((c, _)) => c,
        None => '\0',
    }
}

// Whether the text begins with these two characters.
fn begins(text: &str, a: char, b: char) -> bool
    ensures { result ≡ spec.begins a b (chars text.now) }
{
    match split_first_char(text) {
        Some((c, rest)) => c == a && first(rest) == b,
        None => false,
    }
}

fn is_blank(c: char) -> bool
    ensures { result ≡ spec.is_blank c }
{
    c == ' ' || c == '\t' || c == '\r' || c == '\n'
}

fn is_digit(c: char) -> bool
    ensures { result ≡ spec.is_digit c }
{
    '0' <= c && c <= '9'
}

fn is_start(c: char) -> bool
    ensures { result ≡ spec.is_start c }
{
    c == '_' || unicode_ident::is_xid_start(c)
}

fn is_continue(c: char) -> bool
    ensures { result ≡ spec.is_continue c }
{
    c == '\'' || ('\u{2080}' <= c && c <= '\u{2089}') || unicode_ident::is_xid_continue(c)
}

fn is_single(c: char) -> bool
    ensures { result ≡ is_mark (c ∷ []) }
{
    matches!(
        c,
        '(' | ')'
            | '{'
            | '}'
            | '['
            | ']'
            | ':'
            | ';'
            | '='
            | '≠'
            | '<'
            | '≤'
            | '>'
            | '≥'
            | '∣'
            | '+'
            | '-'
            | '*'
            | '/'
            | '%'
            | '^'
            | '•'
            | '→'
    )
}

fn is_pair(c: char, d: char) -> bool
    ensures { result ≡ is_mark (c ∷ d ∷ []) }
{
    (c == ':' && d == '=')
        || (c == '<' && d == '=')
        || (c == '>' && d == '=')
        || (c == '⁻' && d == '¹')
        || (c == '-' && d == '>')
}

// What follows the digits at the front.
fn after_digits(text: &str) -> &str
    ensures { Leaves (digits_len (chars text.now)) text.now result.now }
{
    let mut left = text;
    while let Some((c, rest)) = split_first_char(left) {
        if !is_digit(c) {
            break;
        }
        left = rest;
    }
    left
}

// What follows the line: its line feed and the lines behind it, or nothing.
fn after_line(text: &str) -> &str
    ensures { Leaves (line_len (chars text.now)) text.now result.now }
{
    let mut left = text;
    while let Some((c, rest)) = split_first_char(left) {
        if c == '\n' {
            break;
        }
        left = rest;
    }
    left
}

// What follows the next character of a name, or the next dot with the first character of a part.
fn after_letter(text: &str) -> Option<&str>
    ensures { MatchOption result (tail_len (chars text.now) ≡ 0)
        (λ rest. Scans (tail_len (chars text.now)) text.now rest.now (tail_len (chars rest.now)) × (length rest.now < length text.now)) }
{
    let (c, rest) = split_first_char(text)?;
    if c == '.' {
        let (d, rest) = split_first_char(rest)?;
        return if is_start(d) { Some(rest) } else { None };
    }
    if is_continue(c) { Some(rest) } else { None }
}

// What follows a name, where its first character has been passed.
fn after_name(text: &str) -> &str
    ensures { Leaves (tail_len (chars text.now)) text.now result.now }
{
    let mut left = text;
    while let Some(rest) = after_letter(left) {
        left = rest;
    }
    left
}

// Whether the characters are these two.
fn are(c: char, d: char, first: char, second: char) -> bool
    ensures { result ≡ ((c == first) && (d == second)) }
{
    c == first && d == second
}

// What follows a comment, or `None` where it has no end.
fn after_comment(text: &str) -> Option<&str>
    ensures { LeavesIf (comment_len 0 (chars text.now)) text.now (option_map (λ rest. rest.now) result) }
{
    let mut left = text;
    let mut depth = 0usize;
    while let Some((c, rest)) = split_first_char(left) {
        let (d, behind) = split_first_char(rest)?;
        if are(c, d, '/', '-') {
            depth += 1;
            left = behind;
        } else if are(c, d, '-', '/') {
            if depth <= 1 {
                return Some(behind);
            }
            depth -= 1;
            left = behind;
        } else {
            left = rest;
        }
    }
    None
}

// The mark that this character begins, and what follows it.
fn scan_mark(c: char, rest: &str) -> (Piece, &str)
    ensures { Cuts (marked c (chars rest.now)) rest.now result.0 result.1.now }
{
    if let Some((d, behind)) = split_first_char(rest) {
        if is_pair(c, d) {
            return (Piece::Sign, behind);
        }
    }
    if is_single(c) {
        (Piece::Sign, rest)
    } else {
        (Piece::Stray, rest)
    }
}

// The token that this character begins, and what follows it.
fn scan_token(c: char, rest: &str) -> (Piece, &str)
    ensures { Cuts (scanned c (chars rest.now)) rest.now result.0 result.1.now }
{
    if is_digit(c) {
        (Piece::Number, after_digits(rest))
    } else if is_start(c) {
        (Piece::Identifier, after_name(rest))
    } else {
        scan_mark(c, rest)
    }
}

// What stands at the front of a text that is not empty, and what follows it.
fn scan(text: &str) -> (Piece, &str)
    requires { 0 < length text.now }
    ensures { Cuts (piece (chars text.now)) text.now result.0 result.1.now }
{
    let Some((c, rest)) = split_first_char(text) else {
        return (Piece::Stray, text);
    };
    if is_blank(c) {
        return (Piece::Gap, rest);
    }
    if begins(text, '-', '-') {
        return (Piece::Gap, after_line(text));
    }
    if begins(text, '/', '-') {
        return match after_comment(text) {
            Some(rest) => (Piece::Gap, rest),
            None => (Piece::Unclosed, ""),
        };
    }
    scan_token(c, rest)
}

/// The piece at the front of a text that is not empty, its text, and what follows it.
pub fn cut(text: &str) -> (Piece, &str, &str)
    requires { 0 < length text.now }
    ensures kind { result.0 ≡ (piece (chars text.now)).0 }
    ensures front { result.1.now ≡ encode_utf8_all (take (piece (chars text.now)).1 (chars text.now)) }
    ensures rest { chars result.2.now ≡ drop (piece (chars text.now)).1 (chars text.now) }
    ensures all { text.now ≡ result.1.now ++ result.2.now }
    ensures some { 0 < length result.1.now }
    ensures utf8 { IsUtf8 result.2.now }
    ensures digits { result.0 ≡ Piece.Number → is_literal result.1.now ≡ true }
{
    let (piece, rest) = scan(text);
    let (front, rest) = text.split_at(text.len() - rest.len());
    (piece, front, rest)
}

fn is_word(text: &str) -> bool
    ensures { result ≡ is_word text.now }
{
    text == "import"
        || text == "variable"
        || text == "theorem"
        || text == "lemma"
        || text == "example"
        || text == "by"
        || text == "Type"
}

// A literal's value, or `None` where it is above 2^127-1.
fn literal_value(text: &str) -> Option<u128>
    requires { is_literal text.now ≡ true }
    ensures { result ≡ (if nat_lt (digits_value 10 text.now) (2 ^ 127) then Some (digits_value 10 text.now) else None) }
{
    match text.parse::<u128>() {
        Ok(value) if value <= i128::MAX as u128 => Some(value),
        _ => None,
    }
}

/// What a piece gives at this place, or `None` for a blank or a comment.
pub fn token_at<'a>(
    piece: Piece,
    text: &'a str,
    at: usize,
    line: u32,
    after_newline: bool,
) -> Option<Result<Token<'a>, LexFault>>
    requires { piece ≡ Piece.Number → is_literal text.now ≡ true }
    ensures { option_map item_of result ≡ item_at piece text.now (record { at = at; line = line; fresh = after_newline }) }
{
    let kind = match piece {
        Piece::Gap => return None,
        Piece::Number => match literal_value(text) {
            Some(value) => Kind::Literal { value },
            None => return Some(Err(LexFault::LiteralTooWide { line })),
        },
        Piece::Identifier => {
            if is_word(text) {
                Kind::Word
            } else {
                Kind::Name
            }
        }
        Piece::Sign => Kind::Mark,
        Piece::Stray => return Some(Err(LexFault::BadChar { line })),
        Piece::Unclosed => return Some(Err(LexFault::OpenComment { line })),
    };
    Some(Ok(Token {
        kind,
        text,
        at,
        line,
        after_newline,
    }))
}

/// How many line feeds the text has.
pub fn line_feeds(text: &str) -> usize
    ensures value { result ≡ items.line_feeds text.now }
    ensures most { result ≤ length text.now }
{
    text.bytes().filter(|b| *b == b'\n').count()
}
