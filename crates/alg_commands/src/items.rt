ghost use Rattle.std.specs.Prelude.{◌≡◌, [], ◌∷◌, MatchOption};
ghost use Rattle.std.specs.List.{list_any};
ghost use Rattle.std.specs.Str.{bytes_eq};
ghost use Rattle.alg_lex.specs.Answer.{seen, item_of};
ghost use Rattle.alg_commands.specs.Cutting as spec;
ghost use Rattle.alg_commands.specs.Items.{line_of_item, line_of_fault};

use alg_lex::{Kind, LexFault, Lexer, Token};

/// Takes the next token or fault.
pub fn next_item<'a>(lexer: &mut Lexer<'a>) -> Option<Result<Token<'a>, LexFault>>
    ensures { MatchOption result ((lexer.old ≡ []) × (lexer.new ≡ [])) (λ i. lexer.old ≡ item_of i ∷ lexer.new) }
{
    match lexer.next() {
        Ok(Some(token)) => Some(Ok(token)),
        Ok(None) => None,
        Err(fault) => Some(Err(fault)),
    }
}

fn is_command_word(text: &str) -> bool
    ensures { result ≡ list_any (bytes_eq text.now) spec.command_words }
{
    text == "import"
        || text == "variable"
        || text == "theorem"
        || text == "lemma"
        || text == "example"
}

/// Whether a command begins with the token.
pub fn begins(token: &Token<'_>) -> bool
    ensures { result ≡ spec.begins (seen token.now) }
{
    match token.kind {
        Kind::Literal { value: _ } => false,
        Kind::Name => false,
        Kind::Word => is_command_word(token.text),
        Kind::Mark => false,
    }
}

fn line_of_fault(fault: LexFault) -> u32
    ensures { result ≡ line_of_fault fault }
{
    match fault {
        LexFault::BadChar { line } => line,
        LexFault::OpenComment { line } => line,
        LexFault::LiteralTooWide { line } => line,
    }
}

/// The line on which a token or fault begins.
pub fn line_of(item: &Result<Token<'_>, LexFault>) -> u32
    ensures { result ≡ line_of_item (item_of item.now) }
{
    match item {
        Ok(token) => token.line,
        Err(fault) => line_of_fault(*fault),
    }
}
