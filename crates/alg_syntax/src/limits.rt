ghost use Rattle.std.specs.Prelude.{◌≡◌, ◌≤◌};
ghost use Rattle.alg_syntax.specs.Signs.{signs};
ghost use Rattle.alg_syntax.specs.Limits as spec;

use crate::front::Tokens;
use crate::signs::{Fixed, Sign};
use alg_lex::Token;

fn fixed_depth(depth: u16, word: Fixed) -> u16
    requires { depth ≤ 256 }
    ensures { result ≡ spec.fixed_depth depth word }
{
    match word {
        Fixed::OpenBrace => depth + 1,
        Fixed::CloseBrace => depth.saturating_sub(1),
        Fixed::OpenBracket => depth + 1,
        Fixed::CloseBracket => depth.saturating_sub(1),
        _ => depth,
    }
}

fn depth_after<'a>(depth: u16, sign: Sign<'a>) -> u16
    requires { depth ≤ 256 }
    ensures { result ≡ spec.depth_after depth sign.entry }
{
    match sign {
        Sign::Open(_) => depth + 1,
        Sign::Close => depth.saturating_sub(1),
        Sign::Fixed(word) => fixed_depth(depth, word),
        _ => depth,
    }
}

fn is_deep(left: &mut Tokens<'_, '_>) -> bool
    ensures { result ≡ spec.is_deep 0 left.old }
{
    let mut depth = 0;
    'tokens: loop {
        if depth > 256 {
            return true;
        }
        let Some(sign) = left.next() else {
            return false;
        };
        depth = depth_after(depth, sign);
    }
}

/// Whether a command is too long, or nested too deep, to be read.
pub fn is_too_deep(tokens: &[Token<'_>]) -> bool
    ensures { result ≡ spec.too_deep (signs tokens.now) }
{
    if tokens.len() > 4096 {
        return true;
    }
    is_deep(&mut Tokens::of(tokens))
}
