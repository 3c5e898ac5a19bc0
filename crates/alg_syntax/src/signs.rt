ghost use Rattle.std.specs.Prelude.{◌≡◌};
ghost use Rattle.alg_syntax.specs.Signs.{seen, found_in, words, punctuation, relations, operators, sign_of_mark, sign_of_punctuation};

use alg_lex::{Kind, Token};
use std::marker::Model;

/// A name as it is written. Contracts see its text, and whether it begins a line.
#[derive(Drop)]
pub struct Name<'a> {
    text: &'a str,
    begins_line: bool,
}

impl<'a> Model for Name<'a> {
    ghost use Rattle.alg_syntax.specs.Written.{Written};

    ghost Value = { Written };

    ghost view = { λ n. record { begins_line = n.begins_line; text = n.text.now } };
}

impl<'a> Name<'a> {
    pub fn of(begins_line: bool, text: &'a str) -> Name<'a>
        ensures { result ≡ record { begins_line = begins_line; text = text.now } }
    {
        Name { text, begins_line }
    }

    pub fn text(&self) -> &'a str
        ensures { result.now ≡ self.now.text }
    {
        self.text
    }

    pub fn begins_line(&self) -> bool
        ensures { result ≡ self.now.begins_line }
    {
        self.begins_line
    }
}

#[derive(Clone, Copy)]
pub enum Operator {
    Add,
    Sub,
    Mul,
    Div,
    Mod,
    Smul,
    Pow,
}

/// A relation as it is written: `>` and `≥` are kept.
#[derive(Clone, Copy)]
pub enum Relation {
    Eq,
    Ne,
    Lt,
    Le,
    Gt,
    Ge,
    Dvd,
}

/// A word, or a mark that stands in no expression but for the `:` of an ascription.
#[derive(Clone, Copy)]
pub enum Fixed {
    Colon,
    Assign,
    Semicolon,
    Arrow,
    OpenBrace,
    CloseBrace,
    OpenBracket,
    CloseBracket,
    Import,
    Variable,
    Theorem,
    Example,
    By,
    TypeWord,
    Unknown,
}

/// A token as the grammar sees it. A flag says whether the token begins a line, where that matters.
#[derive(Drop)]
pub enum Sign<'a> {
    Number(bool, u128),
    Name(Name<'a>),
    Open(bool),
    Close,
    Operator(Operator),
    Inverse,
    Relation(Relation),
    Fixed(Fixed),
}

fn find_word(text: &str) -> Option<Fixed>
    ensures { result ≡ found_in words text.now }
{
    if text == "import" {
        Some(Fixed::Import)
    } else if text == "variable" {
        Some(Fixed::Variable)
    } else if text == "theorem" {
        Some(Fixed::Theorem)
    } else if text == "lemma" {
        Some(Fixed::Theorem)
    } else if text == "example" {
        Some(Fixed::Example)
    } else if text == "by" {
        Some(Fixed::By)
    } else if text == "Type" {
        Some(Fixed::TypeWord)
    } else {
        None
    }
}

fn find_punctuation(text: &str) -> Option<Fixed>
    ensures { result ≡ found_in punctuation text.now }
{
    if text == "{" {
        Some(Fixed::OpenBrace)
    } else if text == "}" {
        Some(Fixed::CloseBrace)
    } else if text == "[" {
        Some(Fixed::OpenBracket)
    } else if text == "]" {
        Some(Fixed::CloseBracket)
    } else if text == ":" {
        Some(Fixed::Colon)
    } else if text == ":=" {
        Some(Fixed::Assign)
    } else if text == ";" {
        Some(Fixed::Semicolon)
    } else if text == "→" {
        Some(Fixed::Arrow)
    } else if text == "->" {
        Some(Fixed::Arrow)
    } else {
        None
    }
}

fn find_relation(text: &str) -> Option<Relation>
    ensures { result ≡ found_in relations text.now }
{
    if text == "=" {
        Some(Relation::Eq)
    } else if text == "≠" {
        Some(Relation::Ne)
    } else if text == "<" {
        Some(Relation::Lt)
    } else if text == "≤" {
        Some(Relation::Le)
    } else if text == "<=" {
        Some(Relation::Le)
    } else if text == ">" {
        Some(Relation::Gt)
    } else if text == "≥" {
        Some(Relation::Ge)
    } else if text == ">=" {
        Some(Relation::Ge)
    } else if text == "∣" {
        Some(Relation::Dvd)
    } else {
        None
    }
}

fn find_operator(text: &str) -> Option<Operator>
    ensures { result ≡ found_in operators text.now }
{
    if text == "+" {
        Some(Operator::Add)
    } else if text == "-" {
        Some(Operator::Sub)
    } else if text == "*" {
        Some(Operator::Mul)
    } else if text == "/" {
        Some(Operator::Div)
    } else if text == "%" {
        Some(Operator::Mod)
    } else if text == "•" {
        Some(Operator::Smul)
    } else if text == "^" {
        Some(Operator::Pow)
    } else {
        None
    }
}

// A mark that is no operator.
fn sign_of_punctuation<'a>(begins_line: bool, text: &str) -> Sign<'a>
    ensures { result ≡ sign_of_punctuation begins_line text.now }
{
    if text == "(" {
        return Sign::Open(begins_line);
    }
    if text == ")" {
        return Sign::Close;
    }
    if text == "⁻¹" {
        return Sign::Inverse;
    }
    if let Some(relation) = find_relation(text) {
        return Sign::Relation(relation);
    }
    match find_punctuation(text) {
        Some(fixed) => Sign::Fixed(fixed),
        None => Sign::Fixed(Fixed::Unknown),
    }
}

fn sign_of_mark<'a>(begins_line: bool, text: &str) -> Sign<'a>
    ensures { result ≡ sign_of_mark begins_line text.now }
{
    match find_operator(text) {
        Some(operator) => Sign::Operator(operator),
        None => sign_of_punctuation(begins_line, text),
    }
}

/// What a token is to the grammar.
pub fn sign_of<'a>(token: &Token<'a>) -> Sign<'a>
    ensures { result ≡ seen token.now }
{
    match token.kind {
        Kind::Literal { value } => Sign::Number(token.after_newline, value),
        Kind::Name => Sign::Name(Name::of(token.after_newline, token.text)),
        Kind::Word => match find_word(token.text) {
            Some(word) => Sign::Fixed(word),
            None => Sign::Fixed(Fixed::Unknown),
        },
        Kind::Mark => sign_of_mark(token.after_newline, token.text),
    }
}
