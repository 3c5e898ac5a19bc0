ghost use Rattle.std.specs.Prelude.{◌<◌, ◌^◌, IfOk};
ghost use Rattle.alg_terms.specs.Tree.{Lit, Tree, product_tree};
ghost use Rattle.alg_expr.specs.Ids.{tree_of};
ghost use Rattle.alg_num.specs.Range.{InRange};
ghost use Rattle.alg_build.specs.Book.{Grows, Proves};
ghost use Rattle.alg_build.specs.Rewriting.{Stands, Turns, TurnsIn};
ghost use Rattle.alg_numerals.specs.WholeTree.{whole_tree};
ghost use Rattle.alg_fractions.specs.Fractions.{HasQuotients};

use alg_build::{Builder, Memory, Rewriting, keep, line_of, times};
use alg_expr::{ExprId, Rel, Sort, Sym};
use alg_numerals::literals::literal;
use alg_numerals::numeral_of_integer;
use alg_numerals::relations::compared_literals;
use alg_rows::quotients::eq_of_mul;

/// `a = b`, from `a * l = n` and `b * l = n`, where l isn't 0.
#[tactic(auto, using(crate::proofs::SizeLemmas::sizes))]
pub fn equal_by_products(
    cx: &mut Builder,
    sort: Sort,
    a: ExprId,
    b: ExprId,
    l: u128,
    n: &i128,
    left: Rewriting,
    right: Rewriting,
) -> Result<Rewriting, Memory>
    requires quotients { HasQuotients cx.old sort }
    requires a_stands { Stands cx.old sort a (tree_of cx.old.trees a) }
    requires b_stands { Stands cx.old sort b (tree_of cx.old.trees b) }
    requires above { 0 < l }
    requires factor_small { l < 2 ^ 127 }
    requires small { InRange n.now }
    requires left_turns { Turns cx.old sort left (product_tree sort (tree_of cx.old.trees a) (Lit sort l)) (whole_tree sort n.now) }
    requires right_turns { Turns cx.old sort right (product_tree sort (tree_of cx.old.trees b) (Lit sort l)) (whole_tree sort n.now) }
    ensures turns { IfOk result (λ r. Turns cx.new sort r (tree_of cx.old.trees a) (tree_of cx.old.trees b)) }
    ensures grows { Grows cx.old cx.new }
{
    let i = line_of(cx, left)?;
    let j = line_of(cx, right)?;
    let r = equal_by_lines(cx, sort, a, b, l, n, i, j)?;
    Ok(r)
}

// the same from lines
#[tactic(auto, using(crate::proofs::SizeLemmas::sizes))]
fn equal_by_lines(
    cx: &mut Builder,
    sort: Sort,
    a: ExprId,
    b: ExprId,
    l: u128,
    n: &i128,
    left: usize,
    right: usize,
) -> Result<Rewriting, Memory>
    requires quotients { HasQuotients cx.old sort }
    requires a_stands { Stands cx.old sort a (tree_of cx.old.trees a) }
    requires b_stands { Stands cx.old sort b (tree_of cx.old.trees b) }
    requires above { 0 < l }
    requires factor_small { l < 2 ^ 127 }
    requires small { InRange n.now }
    requires left_line { Proves cx.old left (product_tree sort (tree_of cx.old.trees a) (Lit sort l)) (whole_tree sort n.now) }
    requires right_line { Proves cx.old right (product_tree sort (tree_of cx.old.trees b) (Lit sort l)) (whole_tree sort n.now) }
    ensures turns { IfOk result (λ r. Turns cx.new sort r (tree_of cx.old.trees a) (tree_of cx.old.trees b)) }
    ensures grows { Grows cx.old cx.new }
{
    let some = compared_literals(cx, Rel::Ne, sort, l, 0)?;
    let total = numeral_of_integer(cx, sort, n)?;
    eq_of_mul(cx, sort, a, b, some.first, total, left, right, some.line)
}

/// The tree `a * c`.
#[tactic(auto, using(crate::proofs::SizeLemmas::sizes))]
pub fn times_literal(cx: &mut Builder, sort: Sort, a: ExprId, c: u128) -> Result<ExprId, Memory>
    requires quotients { HasQuotients cx.old sort }
    requires a_stands { Stands cx.old sort a (tree_of cx.old.trees a) }
    requires small { c < 2 ^ 127 }
    ensures stands { IfOk result (λ e. Stands cx.new sort e (product_tree sort (tree_of cx.old.trees a) (Lit sort c))) }
    ensures grows { Grows cx.old cx.new }
{
    let e = literal(cx, sort, c)?;
    let f = cx.app(Sym::Mul, sort, &[a, e])?;
    Ok(f)
}

/// `a * m = b * m`, from `a = b`
#[tactic(auto, using(crate::proofs::SizeLemmas::sizes))]
pub fn left_under_times(
    cx: &mut Builder,
    sort: Sort,
    left: Rewriting,
    m: u128,
) -> Result<Rewriting, Memory>
    requires quotients { HasQuotients cx.old sort }
    requires turns { TurnsIn cx.old sort left }
    requires small { m < 2 ^ 127 }
    ensures turns { IfOk result (λ r. (a b : Tree) → Turns cx.old sort left a b → Turns cx.new sort r (product_tree sort a (Lit sort m)) (product_tree sort b (Lit sort m))) }
    ensures grows { Grows cx.old cx.new }
{
    let e = literal(cx, sort, m)?;
    let right = keep(cx, e);
    let r = times(cx, sort, left, right)?;
    Ok(r)
}

/// `n * a = n * b`, from `a = b`
#[tactic(auto, using(crate::proofs::SizeLemmas::sizes))]
pub fn right_under_times(
    cx: &mut Builder,
    sort: Sort,
    n: u128,
    right: Rewriting,
) -> Result<Rewriting, Memory>
    requires quotients { HasQuotients cx.old sort }
    requires turns { TurnsIn cx.old sort right }
    requires small { n < 2 ^ 127 }
    ensures turns { IfOk result (λ r. (a b : Tree) → Turns cx.old sort right a b → Turns cx.new sort r (product_tree sort (Lit sort n) a) (product_tree sort (Lit sort n) b)) }
    ensures grows { Grows cx.old cx.new }
{
    let e = literal(cx, sort, n)?;
    let left = keep(cx, e);
    let r = times(cx, sort, left, right)?;
    Ok(r)
}
