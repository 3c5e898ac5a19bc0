ghost use Rattle.std.specs.Prelude.{◌≡◌, ◌+◌, ◌*◌, ◌<◌, ◌^◌, IfOk};
ghost use Rattle.alg_terms.specs.declared.symbols.Sym.TheVariants.{Add, Mul};
ghost use Rattle.alg_terms.specs.Tree.{Lit};
ghost use Rattle.alg_build.specs.Book.{Grows};
ghost use Rattle.alg_build.specs.Rewriting.{Stands};
ghost use Rattle.alg_numerals.specs.Numerals.{Combines, HasLiterals};

use crate::combined::Combined;
use alg_build::{Builder, Memory};
use alg_expr::{ExprId, Sort};

/// The numeral n.
#[tactic(auto, using(crate::proofs::LiteralLemmas::literal_facts))]
pub fn literal(cx: &mut Builder, sort: Sort, n: u128) -> Result<ExprId, Memory>
    requires literals { HasLiterals cx.old sort }
    requires small { n < 2 ^ 127 }
    ensures stands { IfOk result (λ e. Stands cx.new sort e (Lit sort n)) }
    ensures grows { Grows cx.old cx.new }
{
    cx.lit(sort, n)
}

/// The numerals m and n.
#[tactic(auto, using(crate::proofs::LiteralLemmas::literal_facts))]
pub fn two_literals(
    cx: &mut Builder,
    sort: Sort,
    m: u128,
    n: u128,
) -> Result<(ExprId, ExprId), Memory>
    requires literals { HasLiterals cx.old sort }
    requires first_small { m < 2 ^ 127 }
    requires second_small { n < 2 ^ 127 }
    ensures first { IfOk result (λ p. Stands cx.new sort p.0 (Lit sort m)) }
    ensures second { IfOk result (λ p. Stands cx.new sort p.1 (Lit sort n)) }
    ensures grows { Grows cx.old cx.new }
{
    let first = literal(cx, sort, m)?;
    let second = literal(cx, sort, n)?;
    Ok((first, second))
}

// the trees of three numerals, beside a line
#[tactic(auto, using(crate::proofs::LiteralLemmas::literal_facts))]
fn beside(
    cx: &mut Builder,
    sort: Sort,
    m: u128,
    n: u128,
    r: u128,
    line: usize,
) -> Result<Combined, Memory>
    requires literals { HasLiterals cx.old sort }
    requires first_small { m < 2 ^ 127 }
    requires second_small { n < 2 ^ 127 }
    requires small { r < 2 ^ 127 }
    ensures first { IfOk result (λ q. Stands cx.new sort q.first (Lit sort m)) }
    ensures second { IfOk result (λ q. Stands cx.new sort q.second (Lit sort n)) }
    ensures total { IfOk result (λ q. Stands cx.new sort q.total (Lit sort r)) }
    ensures line { IfOk result (λ q. q.line ≡ line) }
    ensures grows { Grows cx.old cx.new }
{
    let first = literal(cx, sort, m)?;
    let second = literal(cx, sort, n)?;
    let total = literal(cx, sort, r)?;
    Ok(Combined {
        first,
        second,
        total,
        line,
    })
}

/// `m + n = r`
#[tactic(auto, using(crate::proofs::LiteralLemmas::literal_facts))]
pub fn sum(cx: &mut Builder, sort: Sort, m: u128, n: u128, r: u128) -> Result<Combined, Memory>
    requires literals { HasLiterals cx.old sort }
    requires adds { m + n ≡ r }
    requires small { r < 2 ^ 127 }
    ensures combines { IfOk result (λ q. Combines cx.new Add sort q (Lit sort m) (Lit sort n) (Lit sort r)) }
    ensures grows { Grows cx.old cx.new }
{
    let line = cx.lit_add(sort, m, n)?;
    let q = beside(cx, sort, m, n, r, line)?;
    Ok(q)
}

/// `m * n = r`
#[tactic(auto, using(crate::proofs::LiteralLemmas::literal_facts))]
pub fn product(cx: &mut Builder, sort: Sort, m: u128, n: u128, r: u128) -> Result<Combined, Memory>
    requires literals { HasLiterals cx.old sort }
    requires first_small { m < 2 ^ 127 }
    requires second_small { n < 2 ^ 127 }
    requires multiplies { m * n ≡ r }
    requires small { r < 2 ^ 127 }
    ensures combines { IfOk result (λ q. Combines cx.new Mul sort q (Lit sort m) (Lit sort n) (Lit sort r)) }
    ensures grows { Grows cx.old cx.new }
{
    let line = cx.lit_mul(sort, m, n)?;
    let q = beside(cx, sort, m, n, r, line)?;
    Ok(q)
}
