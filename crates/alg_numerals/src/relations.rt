ghost use Rattle.std.specs.Prelude.{◌≡◌, ◌+◌, ◌<◌, ◌≤◌, ◌≢◌, ◌^◌, IfOk, true};
ghost use Rattle.alg_terms.specs.declared.relations.Rel.TheVariants.{Lt, Le, Ne};
ghost use Rattle.alg_terms.specs.Tree.{Lit};
ghost use Rattle.alg_law.specs.declared.classes.Class.TheVariants.{CharZero, IsStrictOrderedRing};
ghost use Rattle.alg_law.specs.Derivations.{related};
ghost use Rattle.alg_law.specs.Having.{has_class};
ghost use Rattle.alg_proof.specs.LiteralLines.{relation_class, relation_holds};
ghost use Rattle.alg_build.specs.Book.{Concludes, Grows};
ghost use Rattle.alg_build.specs.Rewriting.{Stands};
ghost use Rattle.alg_rows.specs.Operations.{negation_tree};
ghost use Rattle.alg_numerals.specs.Comparing.{Compares};
ghost use Rattle.alg_numerals.specs.Numerals.{HasLiterals, HasSigns};

use crate::literals::{literal, sum};
use alg_build::{Builder, Memory};
use alg_expr::{ExprId, Rel, Sort};
use alg_rows::comparisons::{neg_le_neg, neg_le_nonneg, neg_lt_neg, neg_lt_nonneg};
use alg_rows::inequations::{neg_ne_neg, neg_ne_pos, pos_ne_neg};

/// Two trees, with the line that relates them.
#[derive(Clone, Copy, Debug, Drop)]
pub struct Compared {
    pub first: ExprId,
    pub second: ExprId,
    pub line: usize,
}

/// `m ≠ n`, `m < n` or `m ≤ n`
#[tactic(auto, using(crate::proofs::RelationLemmas::relations))]
pub fn relation_of_literals(
    cx: &mut Builder,
    rel: Rel,
    sort: Sort,
    m: u128,
    n: u128,
) -> Result<usize, Memory>
    requires literals { HasLiterals cx.old sort }
    requires class { relation_class cx.old.theory.declarations rel sort ≡ true }
    requires first_small { m < 2 ^ 127 }
    requires second_small { n < 2 ^ 127 }
    requires holds { relation_holds rel m n ≡ true }
    ensures concludes { IfOk result (λ i. Concludes cx.new i (related rel sort (Lit sort m) (Lit sort n))) }
    ensures grows { Grows cx.old cx.new }
{
    let line = cx.lit_rel(rel, sort, m, n)?;
    Ok(line)
}

/// The same, with the trees of the two numerals.
#[tactic(auto, using(crate::proofs::RelationLemmas::relations))]
pub fn compared_literals(
    cx: &mut Builder,
    rel: Rel,
    sort: Sort,
    m: u128,
    n: u128,
) -> Result<Compared, Memory>
    requires literals { HasLiterals cx.old sort }
    requires class { relation_class cx.old.theory.declarations rel sort ≡ true }
    requires first_small { m < 2 ^ 127 }
    requires second_small { n < 2 ^ 127 }
    requires holds { relation_holds rel m n ≡ true }
    ensures compares { IfOk result (λ q. Compares cx.new rel sort q (Lit sort m) (Lit sort n)) }
    ensures grows { Grows cx.old cx.new }
{
    let line = relation_of_literals(cx, rel, sort, m, n)?;
    let first = literal(cx, sort, m)?;
    let second = literal(cx, sort, n)?;
    Ok(Compared {
        first,
        second,
        line,
    })
}

/// `-m ≠ -n`
#[tactic(auto, using(crate::proofs::RelationLemmas::relations))]
pub fn minus_differs_from_minus(
    cx: &mut Builder,
    sort: Sort,
    m: u128,
    n: u128,
) -> Result<usize, Memory>
    requires signs { HasSigns cx.old sort }
    requires char_zero { has_class cx.old.theory.declarations sort CharZero ≡ true }
    requires first_small { m < 2 ^ 127 }
    requires second_small { n < 2 ^ 127 }
    requires differ { relation_holds Ne m n ≡ true }
    ensures concludes { IfOk result (λ i. Concludes cx.new i (related Ne sort (negation_tree sort (Lit sort m)) (negation_tree sort (Lit sort n)))) }
    ensures grows { Grows cx.old cx.new }
{
    let q = compared_literals(cx, Rel::Ne, sort, m, n)?;
    neg_ne_neg(cx, sort, q.first, q.second, q.line)
}

/// `-m < -n`
#[tactic(auto, using(crate::proofs::RelationLemmas::relations))]
pub fn minus_below_minus(cx: &mut Builder, sort: Sort, m: u128, n: u128) -> Result<usize, Memory>
    requires signs { HasSigns cx.old sort }
    requires ordered { has_class cx.old.theory.declarations sort IsStrictOrderedRing ≡ true }
    requires first_small { m < 2 ^ 127 }
    requires second_small { n < 2 ^ 127 }
    requires less { relation_holds Lt n m ≡ true }
    ensures concludes { IfOk result (λ i. Concludes cx.new i (related Lt sort (negation_tree sort (Lit sort m)) (negation_tree sort (Lit sort n)))) }
    ensures grows { Grows cx.old cx.new }
{
    let q = compared_literals(cx, Rel::Lt, sort, n, m)?;
    neg_lt_neg(cx, sort, q.second, q.first, q.line)
}

/// `-m ≤ -n`
#[tactic(auto, using(crate::proofs::RelationLemmas::relations))]
pub fn minus_at_most_minus(cx: &mut Builder, sort: Sort, m: u128, n: u128) -> Result<usize, Memory>
    requires signs { HasSigns cx.old sort }
    requires ordered { has_class cx.old.theory.declarations sort IsStrictOrderedRing ≡ true }
    requires first_small { m < 2 ^ 127 }
    requires second_small { n < 2 ^ 127 }
    requires at_most { relation_holds Le n m ≡ true }
    ensures concludes { IfOk result (λ i. Concludes cx.new i (related Le sort (negation_tree sort (Lit sort m)) (negation_tree sort (Lit sort n)))) }
    ensures grows { Grows cx.old cx.new }
{
    let q = compared_literals(cx, Rel::Le, sort, n, m)?;
    neg_le_neg(cx, sort, q.second, q.first, q.line)
}

/// `-m ≠ n`, by the sum of the two, which isn't 0.
#[tactic(auto, using(crate::proofs::RelationLemmas::relations))]
pub fn minus_differs(cx: &mut Builder, sort: Sort, m: u128, n: u128) -> Result<usize, Memory>
    requires signs { HasSigns cx.old sort }
    requires char_zero { has_class cx.old.theory.declarations sort CharZero ≡ true }
    requires above { 0 < m }
    requires small { m + n < 2 ^ 127 }
    ensures concludes { IfOk result (λ i. Concludes cx.new i (related Ne sort (negation_tree sort (Lit sort m)) (Lit sort n))) }
    ensures grows { Grows cx.old cx.new }
{
    let q = sum(cx, sort, m, n, m + n)?;
    let line = relation_of_literals(cx, Rel::Ne, sort, m + n, 0)?;
    neg_ne_pos(cx, sort, q.first, q.second, q.total, q.line, line)
}

/// `n ≠ -m`, by the sum of the two, which isn't 0.
#[tactic(auto, using(crate::proofs::RelationLemmas::relations))]
pub fn differs_from_minus(cx: &mut Builder, sort: Sort, m: u128, n: u128) -> Result<usize, Memory>
    requires signs { HasSigns cx.old sort }
    requires char_zero { has_class cx.old.theory.declarations sort CharZero ≡ true }
    requires above { 0 < m }
    requires small { m + n < 2 ^ 127 }
    ensures concludes { IfOk result (λ i. Concludes cx.new i (related Ne sort (Lit sort n) (negation_tree sort (Lit sort m)))) }
    ensures grows { Grows cx.old cx.new }
{
    let q = sum(cx, sort, m, n, m + n)?;
    let line = relation_of_literals(cx, Rel::Ne, sort, m + n, 0)?;
    pos_ne_neg(cx, sort, q.first, q.second, q.total, q.line, line)
}

/// `-m < n`
#[tactic(auto, using(crate::proofs::RelationLemmas::relations))]
pub fn minus_below(cx: &mut Builder, sort: Sort, m: u128, n: u128) -> Result<usize, Memory>
    requires signs { HasSigns cx.old sort }
    requires ordered { has_class cx.old.theory.declarations sort IsStrictOrderedRing ≡ true }
    requires above { 0 < m }
    requires first_small { m < 2 ^ 127 }
    requires second_small { n < 2 ^ 127 }
    ensures concludes { IfOk result (λ i. Concludes cx.new i (related Lt sort (negation_tree sort (Lit sort m)) (Lit sort n))) }
    ensures grows { Grows cx.old cx.new }
{
    let p = compared_literals(cx, Rel::Lt, sort, 0, m)?;
    let q = compared_literals(cx, Rel::Le, sort, 0, n)?;
    neg_lt_nonneg(cx, sort, p.second, q.second, p.line, q.line)
}

/// `-m ≤ n`
#[tactic(auto, using(crate::proofs::RelationLemmas::relations))]
pub fn minus_at_most(cx: &mut Builder, sort: Sort, m: u128, n: u128) -> Result<usize, Memory>
    requires signs { HasSigns cx.old sort }
    requires ordered { has_class cx.old.theory.declarations sort IsStrictOrderedRing ≡ true }
    requires above { 0 < m }
    requires first_small { m < 2 ^ 127 }
    requires second_small { n < 2 ^ 127 }
    ensures concludes { IfOk result (λ i. Concludes cx.new i (related Le sort (negation_tree sort (Lit sort m)) (Lit sort n))) }
    ensures grows { Grows cx.old cx.new }
{
    let p = compared_literals(cx, Rel::Lt, sort, 0, m)?;
    let q = compared_literals(cx, Rel::Le, sort, 0, n)?;
    neg_le_nonneg(cx, sort, p.second, q.second, p.line, q.line)
}
