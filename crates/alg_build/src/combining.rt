ghost use Rattle.std.specs.Prelude.{IfOk};
ghost use Rattle.alg_terms.specs.declared.sorts.Sort.{Sort as SortKind};
ghost use Rattle.alg_terms.specs.Tree.{Tree, sort_of_tree};
ghost use Rattle.alg_build.specs.Book.{Grows, Proves};
ghost use Rattle.alg_build.specs.Rewriting.{Begins, Follows, IsProved, IsRewriting, IsTerm, Stands, Turns};

use crate::builder::Builder;
use crate::rewriting::Rewriting;
use alg_expr::{ExprId, Memory};

/// `a = a`
#[tactic(auto, using(crate::proofs::Rewritings::rewritings))]
pub fn keep(cx: &Builder, e: ExprId) -> Rewriting
    requires { IsTerm cx.now e }
    ensures { (s : SortKind) → (a : Tree) → Stands cx.now s e a → Turns cx.now s result a a }
{
    let _trees = cx.arena();
    Rewriting { to: e, line: None }
}

/// `a = c`, from `a = b` and `b = c`.
#[tactic(auto, using(crate::proofs::Rewritings::rewritings))]
pub fn then(cx: &mut Builder, r: Rewriting, s: Rewriting) -> Result<Rewriting, Memory>
    requires { Follows cx.old r s }
    ensures turns { IfOk result (λ q. (t : SortKind) → (a b c : Tree) → Turns cx.old t r a b → Turns cx.old t s b c → Turns cx.new t q a c) }
    ensures grows { Grows cx.old cx.new }
{
    match r.line {
        None => Ok(s),
        Some(i) => match s.line {
            None => Ok(Rewriting {
                to: s.to,
                line: Some(i),
            }),
            Some(j) => {
                let line = cx.trans(i, j)?;
                Ok(Rewriting {
                    to: s.to,
                    line: Some(line),
                })
            }
        },
    }
}

/// `b = a`, from `a = b`.
#[tactic(auto, using(crate::proofs::Rewritings::rewritings))]
pub fn back(cx: &mut Builder, e: ExprId, r: Rewriting) -> Result<Rewriting, Memory>
    requires { Begins cx.old e r }
    ensures turns { IfOk result (λ q. (t : SortKind) → (a b : Tree) → Stands cx.old t e a → Turns cx.old t r a b → Turns cx.new t q b a) }
    ensures grows { Grows cx.old cx.new }
{
    match r.line {
        None => Ok(Rewriting { to: e, line: None }),
        Some(i) => {
            let line = cx.symm(i)?;
            Ok(Rewriting {
                to: e,
                line: Some(line),
            })
        }
    }
}

/// A line for `a = b`, new where there was none.
#[tactic(auto, using(crate::proofs::Rewritings::rewritings))]
pub fn line_of(cx: &mut Builder, r: Rewriting) -> Result<usize, Memory>
    requires { IsRewriting cx.old r }
    ensures proves { IfOk result (λ n. (t : SortKind) → (a b : Tree) → Turns cx.old t r a b → Proves cx.new n a b) }
    ensures grows { Grows cx.old cx.new }
{
    match r.line {
        Some(i) => Ok(i),
        None => cx.refl(r.to),
    }
}

/// `a = b`, which the line concludes.
#[tactic(auto, using(crate::proofs::Rewritings::rewritings))]
pub fn by_line(cx: &Builder, line: usize) -> Rewriting
    requires { IsProved cx.now line }
    ensures { (a b : Tree) → Proves cx.now line a b → Turns cx.now (sort_of_tree a) result a b }
{
    let to = cx.concluded(line).rhs;
    Rewriting {
        to,
        line: Some(line),
    }
}
