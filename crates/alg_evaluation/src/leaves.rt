//! What is found of literals and variables.
ghost use Rattle.std.specs.Prelude.{◌≡◌, ◌<◌, ◌^◌, Bool, false, pos, None};
ghost use Rattle.alg_terms.specs.declared.symbols.Sym.{Sym as SymKind};
ghost use Rattle.alg_terms.specs.Tree.{Lit, Var, sort_of_tree};
ghost use Rattle.alg_expr.specs.Ids.{tree_of};
ghost use Rattle.alg_build.specs.Rewriting.{Stands};
ghost use Rattle.alg_evaluation.specs.Found.{IsFound};

use crate::found::{Found, Kind};
use alg_build::{Builder, Rewriting, keep};
use alg_expr::{ExprId, Sort};
use alg_law::{Class, has};
use alg_num::Frac;

/// A tree that has no value and stays.
pub fn valueless(expr: ExprId) -> Found
    ensures { result ≡ record { expr = expr; kind = Kind.Without; value = record { numerator = pos 0; denominator = 1 }; by = record { to = expr; line = None }; shown = record { to = expr; line = None }; past = false } }
{
    let stays = Rewriting {
        to: expr,
        line: None,
    };
    Found {
        expr,
        kind: Kind::Without,
        value: Frac::whole(0),
        by: stays,
        shown: stays,
        past: false,
    }
}

/// What is found of a literal.
pub fn literal(cx: &Builder, expr: ExprId, sort: Sort, n: u128) -> Found
    requires stands { Stands cx.now sort expr (Lit sort n) }
    requires small { n < 2 ^ 127 }
    ensures found { (covers : SymKind → Bool) → IsFound covers cx.now (Lit sort n) result }
{
    if !has(cx.base(), sort, Class::Semiring) {
        return valueless(expr);
    }
    let stays = Rewriting {
        to: expr,
        line: None,
    };
    Found {
        expr,
        kind: Kind::Num,
        value: Frac::whole(n as i128),
        by: stays,
        shown: stays,
        past: false,
    }
}
