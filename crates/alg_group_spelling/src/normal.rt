//! The normal trees of words.
ghost use Rattle.std.specs.Prelude.{◌≡◌, ◌<◌, [], length, ◌<ℤ◌, ◌≤ℤ◌, pos, negsuc, nat_eq, unsigned_abs, true, IfOk, IsTrue, IsFalse};
ghost use Rattle.alg_terms.specs.declared.sorts.Sort.TheVariants.{Int};
ghost use Rattle.alg_terms.specs.Tree.{Lit, product_tree};
ghost use Rattle.alg_expr.specs.Ids.{tree_of};
ghost use Rattle.alg_build.specs.Book.{Grows};
ghost use Rattle.alg_build.specs.Rewriting.{Stands, Turns};
ghost use Rattle.alg_rows.specs.Operations.{integer_power_tree, inverse_tree};
ghost use Rattle.alg_group_words.specs.WordTree.{normal_tree, power_tree};
ghost use Rattle.alg_group_stack.specs.Words.{IsHome, IsPower, IsWord, pair_of, pairs_of, syllable_tree, word_tree};
ghost use Rattle.alg_group_spelling.specs.Spelling.{Spells};

use crate::spelled::Spelled;
use alg_build::{Builder, Memory, Rewriting, back, keep, line_of, then, times, under_one};
use alg_expr::{ExprId, Sym};
use alg_group::word_rows::word_first;
use alg_group_stack::powers::{first_power, natural_power, opposite, power};
use alg_group_stack::{Home, Syllable};

// `a ^ (-1) = (a ^ 1)⁻¹`
#[tactic(auto, using(alg_group_stack::proofs::Homes::powers))]
fn from_opposite(cx: &mut Builder, h: Home, a: ExprId) -> Result<Rewriting, Memory>
    requires home { IsHome cx.old h }
    requires base { Stands cx.old h.sort a (tree_of cx.old.trees a) }
    ensures turns { IfOk result (λ r. Turns cx.new h.sort r (syllable_tree h.sort (tree_of cx.old.trees a, negsuc 0)) (inverse_tree h.sort (syllable_tree h.sort (tree_of cx.old.trees a, pos 1)))) }
    ensures grows { Grows cx.old cx.new }
{
    let first = power(cx, h, a, &1)?;
    let kept = keep(cx, first);
    let from = under_one(cx, Sym::Inv, h.sort, kept)?;
    let r = opposite(cx, h, a, &1)?;
    let up = back(cx, from.to, r)?;
    Ok(up)
}

// `(a ^ 1)⁻¹ = a⁻¹`
#[tactic(auto, using(alg_group_stack::proofs::Homes::powers))]
fn inverse_of_first(cx: &mut Builder, h: Home, a: ExprId) -> Result<Rewriting, Memory>
    requires home { IsHome cx.old h }
    requires base { Stands cx.old h.sort a (tree_of cx.old.trees a) }
    ensures turns { IfOk result (λ r. Turns cx.new h.sort r (inverse_tree h.sort (integer_power_tree h.sort (tree_of cx.old.trees a) (Lit Int 1))) (inverse_tree h.sort (tree_of cx.old.trees a))) }
    ensures grows { Grows cx.old cx.new }
{
    let r = first_power(cx, h, a)?;
    let q = under_one(cx, Sym::Inv, h.sort, r)?;
    Ok(q)
}

// `a ^ (-1) = a⁻¹`
#[tactic(auto, using(alg_group_stack::proofs::Homes::powers))]
fn inverse_power(cx: &mut Builder, h: Home, a: ExprId) -> Result<Rewriting, Memory>
    requires home { IsHome cx.old h }
    requires base { Stands cx.old h.sort a (tree_of cx.old.trees a) }
    ensures turns { IfOk result (λ r. Turns cx.new h.sort r (syllable_tree h.sort (tree_of cx.old.trees a, negsuc 0)) (inverse_tree h.sort (tree_of cx.old.trees a))) }
    ensures grows { Grows cx.old cx.new }
{
    let up = from_opposite(cx, h, a)?;
    let q = inverse_of_first(cx, h, a)?;
    let p = then(cx, up, q)?;
    Ok(p)
}

// whether the exponent is 1 or -1
fn is_one(x: Syllable) -> bool
    ensures { result ≡ nat_eq (unsigned_abs x.exponent) 1 }
{
    x.exponent.unsigned_abs() == 1
}

// whether it is below 0
fn is_below(x: Syllable) -> bool
    ensures below { IsTrue result → x.exponent <ℤ pos 0 }
    ensures above { IsFalse result → pos 0 ≤ℤ x.exponent }
{
    x.exponent < 0
}

// its absolute value
fn size_of(x: Syllable) -> u128
    ensures { result ≡ unsigned_abs x.exponent }
{
    x.exponent.unsigned_abs()
}

// `a ^ 1` as `a`, `a ^ -1` as `a⁻¹`
#[tactic(auto, using(alg_group_stack::proofs::Homes::powers))]
fn shown_one(cx: &mut Builder, h: Home, x: Syllable) -> Result<Rewriting, Memory>
    requires home { IsHome cx.old h }
    requires power { IsPower cx.old h.sort x }
    requires one { nat_eq (unsigned_abs x.exponent) 1 ≡ true }
    ensures turns { IfOk result (λ r. Turns cx.new h.sort r (syllable_tree h.sort (pair_of cx.old x)) (power_tree h.sort (tree_of cx.old.trees x.atom) x.exponent)) }
    ensures grows { Grows cx.old cx.new }
{
    if is_below(x) {
        let down = inverse_power(cx, h, x.atom)?;
        return Ok(down);
    }
    let up = first_power(cx, h, x.atom)?;
    Ok(up)
}

// a syllable as `a`, `a ^ n`, `a⁻¹` or `a ^ -n`
#[tactic(auto, using(alg_group_stack::proofs::Homes::powers))]
fn shown(cx: &mut Builder, h: Home, x: Syllable) -> Result<Rewriting, Memory>
    requires home { IsHome cx.old h }
    requires power { IsPower cx.old h.sort x }
    ensures turns { IfOk result (λ r. Turns cx.new h.sort r (syllable_tree h.sort (pair_of cx.old x)) (power_tree h.sort (tree_of cx.old.trees x.atom) x.exponent)) }
    ensures grows { Grows cx.old cx.new }
{
    if is_one(x) {
        return shown_one(cx, h, x);
    }
    if is_below(x) {
        let kept = keep(cx, x.power);
        return Ok(kept);
    }
    let up = natural_power(cx, h, x.atom, size_of(x))?;
    Ok(up)
}

// `1 * x`, for the first syllable of a word
#[tactic(auto, using(alg_group_stack::proofs::WordLemmas::word_facts))]
fn first_shown(cx: &mut Builder, h: Home, x: Syllable) -> Result<Rewriting, Memory>
    requires home { IsHome cx.old h }
    requires power { IsPower cx.old h.sort x }
    ensures turns { IfOk result (λ r. Turns cx.new h.sort r (product_tree h.sort (Lit h.sort 1) (syllable_tree h.sort (pair_of cx.old x))) (power_tree h.sort (tree_of cx.old.trees x.atom) x.exponent)) }
    ensures grows { Grows cx.old cx.new }
{
    let r = shown(cx, h, x)?;
    let line = line_of(cx, r)?;
    word_first(cx, h.sort, x.power, r.to, line)
}

// whether the word is empty
fn is_blank(w: &[Syllable]) -> bool
    ensures yes { IsTrue result → w.now ≡ [] }
    ensures no { IsFalse result → 0 < length w.now }
{
    w.is_empty()
}

// the normal tree of a word: `x`, `x ^ n`, `x⁻¹` or `x ^ -n` for each syllable, multiplied from the left.
#[tactic(auto, using(alg_group_stack::proofs::WordLemmas::word_facts))]
fn normal(cx: &mut Builder, h: Home, w: &[Syllable]) -> Result<Rewriting, Memory>
    requires home { IsHome cx.old h }
    requires word { IsWord cx.old h.sort w.now }
    ensures turns { IfOk result (λ r. Turns cx.new h.sort r (word_tree h.sort (pairs_of cx.old w.now)) (normal_tree h.sort (pairs_of cx.old w.now))) }
    ensures grows { Grows cx.old cx.new }
{
    if is_blank(w) {
        let kept = keep(cx, h.one);
        return Ok(kept);
    }
    let mut turns = first_shown(cx, h, w[0])?;
    let mut i = 1;
    while i < w.len() {
        let r = shown(cx, h, w[i])?;
        turns = times(cx, h.sort, turns, r)?;
        i += 1;
    }
    Ok(turns)
}

/// The normal tree of the word of a tree: `x`, `x ^ n`, `x⁻¹` or `x ^ -n` for each syllable, multiplied from the left.
#[tactic(auto, using(alg_group_stack::proofs::WordLemmas::word_facts))]
pub fn normalised(cx: &mut Builder, h: Home, a: ExprId, x: &Spelled) -> Result<Rewriting, Memory>
    requires home { IsHome cx.old h }
    requires spells { Spells cx.old h.sort (tree_of cx.old.trees a) x.now }
    ensures turns { IfOk result (λ r. Turns cx.new h.sort r (tree_of cx.old.trees a) (normal_tree h.sort (pairs_of cx.old x.now.word.items))) }
    ensures grows { Grows cx.old cx.new }
{
    let r = normal(cx, h, &x.word)?;
    let p = then(cx, x.turns, r)?;
    Ok(p)
}
