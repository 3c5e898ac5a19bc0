ghost use Rattle.std.specs.Prelude.{◌≡◌, [], ◌∷◌, ◌++◌, take, IfOk, OnOk};
ghost use Rattle.std.specs.Prelude.{List};
ghost use Rattle.alg_lex.specs.Items.{Item};
ghost use Rattle.alg_lex.specs.Items as lex;
ghost use Rattle.alg_lex.specs.Answer.{seen, item_of};
ghost use Rattle.alg_syntax.specs.declared.signs.Sign.{Sign};
ghost use Rattle.alg_syntax.specs.Signs.{signs};
ghost use Rattle.alg_syntax.specs.Signs as spec;
ghost use Rattle.alg_commands.specs.Pieces.{Keeps, Passes};

use crate::items::{begins, line_of, next_item};
use alg_expr::Memory;
use alg_lex::{LexFault, Lexer, Token};
use std::alloc::Global;

/// What is kept of a command while it is passed.
#[derive(Drop)]
pub struct Piece<'a> {
    /// The line of its first token or fault.
    pub line: u32,
    /// Its first fault.
    pub fault: Option<LexFault>,
    /// Its first 4,097 tokens: one more than a command may have.
    pub tokens: Vec<Token<'a>>,
}

// Keeps the token, unless 4,097 are kept.
fn keep<'a>(tokens: &mut Vec<Token<'a>>, token: Token<'a>) -> Result<(), Memory>
    ensures { OnOk result ((all : List Sign) → signs tokens.old.items ≡ take 4097 all
        → signs tokens.new.items ≡ take 4097 (all ++ spec.seen token.entry ∷ [])) }
{
    if tokens.len() > 4096 {
        return Ok(());
    }
    tokens.push(token)?;
    Ok(())
}

// Begins a command with its first token or fault.
fn begin<'a>(alloc: Global, item: Result<Token<'a>, LexFault>) -> Result<Piece<'a>, Memory>
    ensures { IfOk result (λ p. Keeps (item_of item.entry ∷ []) p) }
{
    let line = line_of(&item);
    let mut tokens = Vec::new(alloc);
    match item {
        Ok(token) => {
            keep(&mut tokens, token)?;
            Ok(Piece {
                line,
                fault: None,
                tokens,
            })
        }
        Err(fault) => Ok(Piece {
            line,
            fault: Some(fault),
            tokens,
        }),
    }
}

impl<'a> Piece<'a> {
    ghost use Rattle.alg_commands.specs.Pieces.{Keeps};

    // Passes a further token.
    fn add_token(&mut self, token: Token<'a>) -> Result<(), Memory>
        ensures { OnOk result ((first : Item) (items : List Item) → Keeps (first ∷ items) self.old
            → Keeps (first ∷ (items ++ seen token.entry ∷ [])) self.new) }
    {
        keep(&mut self.tokens, token)?;
        Ok(())
    }

    // Passes a further fault.
    fn add_fault(&mut self, fault: LexFault)
        ensures { (first : Item) (items : List Item) → Keeps (first ∷ items) self.old
            → Keeps (first ∷ (items ++ lex.fault fault ∷ [])) self.new }
    {
        match self.fault {
            Some(_) => {}
            None => self.fault = Some(fault),
        }
    }
}

/// Passes the command that begins with this token or fault. The word that begins the next command is passed too.
pub fn pass<'a>(
    alloc: Global,
    first: Result<Token<'a>, LexFault>,
    lexer: &mut Lexer<'a>,
) -> Result<(Piece<'a>, Option<Token<'a>>), Memory>
    ensures { IfOk result (λ r. Passes (item_of first.entry ∷ lexer.old) r.0 r.1 lexer.new) }
{
    let mut piece = begin(alloc, first)?;
    'items: while let Some(item) = next_item(lexer) {
        match item {
            Ok(token) => {
                if begins(&token) {
                    return Ok((piece, Some(token)));
                }
                piece.add_token(token)?;
            }
            Err(fault) => piece.add_fault(fault),
        }
    }
    Ok((piece, None))
}
