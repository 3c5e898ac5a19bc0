//! Products of words, and of a word and the inverse of one.
ghost use Rattle.std.specs.Prelude.{◌≡◌, ◌+ℤ◌, neg_ℤ, IfOk};
ghost use Rattle.alg_terms.specs.Tree.{Tree, product_tree};
ghost use Rattle.alg_expr.specs.Ids.{tree_of};
ghost use Rattle.alg_num.specs.Range.{InRange};
ghost use Rattle.alg_build.specs.Book.{Grows};
ghost use Rattle.alg_build.specs.Rewriting.{Stands, Turns, TurnsIn};
ghost use Rattle.alg_rows.specs.Operations.{inverse_tree};
ghost use Rattle.alg_group_words.specs.Syllables.{joined, joined_inverse, push};
ghost use Rattle.alg_group_stack.specs.Words.{HasRoom, HaveRoom, IsHome, IsPower, IsWord, pair_of, pairs_of, syllable_tree, word_tree};

use crate::powers::opposite;
use crate::stack::{Met, push, whole};
use crate::syllable::{Home, Syllable};
use alg_build::{Builder, Memory, Rewriting, keep, line_of, then, times, under_one};
use alg_expr::{ExprId, Sym};
use alg_group::word_rows::{mul_same, word_inv, word_inv_end};
use alg_rows::products::mul_one;

/// A product of a word and the beginning of another, as one word.
#[derive(Clone, Copy, Debug, Drop)]
struct Joining {
    left: ExprId,
    before: ExprId,
    turns: Rewriting,
}

// `v * (w * x)` from `v * w`
#[tactic(auto, using(crate::proofs::WordLemmas::word_facts))]
fn join_one(
    cx: &mut Builder,
    h: Home,
    stack: &mut Vec<Syllable>,
    at: Joining,
    x: Syllable,
) -> Result<Rewriting, Memory>
    requires home { IsHome cx.old h }
    requires word { IsWord cx.old h.sort stack.old.items }
    requires power { IsPower cx.old h.sort x }
    requires room { HasRoom cx.old stack.old.items x.exponent }
    requires left { Stands cx.old h.sort at.left (tree_of cx.old.trees at.left) }
    requires before { Stands cx.old h.sort at.before (tree_of cx.old.trees at.before) }
    requires turns { Turns cx.old h.sort at.turns (product_tree h.sort (tree_of cx.old.trees at.left) (tree_of cx.old.trees at.before)) (word_tree h.sort (pairs_of cx.old stack.old.items)) }
    ensures word { IfOk result (λ r. IsWord cx.new h.sort stack.new.items) }
    ensures pairs { IfOk result (λ r. pairs_of cx.new stack.new.items ≡ push (pairs_of cx.old stack.old.items) (pair_of cx.old x)) }
    ensures turns { IfOk result (λ r. Turns cx.new h.sort r (product_tree h.sort (tree_of cx.old.trees at.left) (product_tree h.sort (tree_of cx.old.trees at.before) (syllable_tree h.sort (pair_of cx.old x)))) (word_tree h.sort (pairs_of cx.new stack.new.items))) }
    ensures grows { Grows cx.old cx.new }
{
    let line = line_of(cx, at.turns)?;
    let m = mul_same(cx, h.sort, at.left, at.before, at.turns.to, x.power, line)?;
    let q = push(cx, h, stack, x)?;
    let p = then(cx, m, q)?;
    Ok(p)
}

/// A word times another is their product.
#[tactic(auto, using(crate::proofs::WordLemmas::word_facts))]
pub fn join(
    cx: &mut Builder,
    h: Home,
    stack: &mut Vec<Syllable>,
    w: &[Syllable],
) -> Result<Rewriting, Memory>
    requires home { IsHome cx.old h }
    requires left { IsWord cx.old h.sort stack.old.items }
    requires right { IsWord cx.old h.sort w.now }
    requires room { HaveRoom cx.old stack.old.items w.now }
    ensures word { IfOk result (λ r. IsWord cx.new h.sort stack.new.items) }
    ensures pairs { IfOk result (λ r. pairs_of cx.new stack.new.items ≡ joined (pairs_of cx.old stack.old.items) (pairs_of cx.old w.now)) }
    ensures turns { IfOk result (λ r. Turns cx.new h.sort r (product_tree h.sort (word_tree h.sort (pairs_of cx.old stack.old.items)) (word_tree h.sort (pairs_of cx.old w.now))) (word_tree h.sort (pairs_of cx.new stack.new.items))) }
    ensures grows { Grows cx.old cx.new }
{
    let left = whole(cx, h, stack.as_slice());
    let mut before = h.one;
    let mut turns = mul_one(cx, h.sort, left)?;
    for x in w {
        let at = Joining {
            left,
            before,
            turns,
        };
        turns = join_one(cx, h, stack, at, *x)?;
        before = x.whole;
    }
    Ok(turns)
}

// `v * (w * a ^ i)⁻¹ = v * a ^ (-i) * w⁻¹`
#[tactic(auto, using(crate::proofs::WordLemmas::word_facts))]
fn step_out(
    cx: &mut Builder,
    h: Home,
    left: ExprId,
    before: ExprId,
    x: Syllable,
) -> Result<Met, Memory>
    requires home { IsHome cx.old h }
    requires left { Stands cx.old h.sort left (tree_of cx.old.trees left) }
    requires before { Stands cx.old h.sort before (tree_of cx.old.trees before) }
    requires power { IsPower cx.old h.sort x }
    ensures power { IfOk result (λ m. Stands cx.new h.sort m.power (syllable_tree h.sort (tree_of cx.old.trees x.atom, neg_ℤ x.exponent))) }
    ensures turns { IfOk result (λ m. Turns cx.new h.sort m.turns (product_tree h.sort (tree_of cx.old.trees left) (inverse_tree h.sort (product_tree h.sort (tree_of cx.old.trees before) (syllable_tree h.sort (pair_of cx.old x))))) (product_tree h.sort (product_tree h.sort (tree_of cx.old.trees left) (syllable_tree h.sort (tree_of cx.old.trees x.atom, neg_ℤ x.exponent))) (inverse_tree h.sort (tree_of cx.old.trees before)))) }
    ensures grows { Grows cx.old cx.new }
{
    let o = opposite(cx, h, x.atom, &x.exponent)?;
    let line = line_of(cx, o)?;
    let turns = word_inv(cx, h.sort, left, before, x.power, o.to, line)?;
    Ok(Met { power: o.to, turns })
}

// `v * w⁻¹ = u * w⁻¹`, from `v = u`
#[tactic(auto, using(crate::proofs::WordLemmas::word_facts))]
fn beside_inverse(
    cx: &mut Builder,
    h: Home,
    q: Rewriting,
    before: ExprId,
) -> Result<Rewriting, Memory>
    requires home { IsHome cx.old h }
    requires before { Stands cx.old h.sort before (tree_of cx.old.trees before) }
    requires turns { TurnsIn cx.old h.sort q }
    ensures turns { IfOk result (λ r. (t u : Tree) → Turns cx.old h.sort q t u → Turns cx.new h.sort r (product_tree h.sort t (inverse_tree h.sort (tree_of cx.old.trees before))) (product_tree h.sort u (inverse_tree h.sort (tree_of cx.old.trees before)))) }
    ensures grows { Grows cx.old cx.new }
{
    let kept = keep(cx, before);
    let inverse = under_one(cx, Sym::Inv, h.sort, kept)?;
    let r = times(cx, h.sort, q, inverse)?;
    Ok(r)
}

// the inverse of a syllable
fn negated(x: Syllable, power: ExprId) -> Syllable
    requires { InRange x.exponent }
    ensures { result ≡ record { atom = x.atom; exponent = neg_ℤ x.exponent; power = power; whole = x.whole } }
{
    Syllable {
        exponent: -x.exponent,
        power,
        ..x
    }
}

// `v * (w * x)⁻¹ = u * w⁻¹`, where u is v with the inverse of x at its end
#[tactic(auto, using(crate::proofs::WordLemmas::word_facts))]
fn take_out(
    cx: &mut Builder,
    h: Home,
    stack: &mut Vec<Syllable>,
    before: ExprId,
    x: Syllable,
) -> Result<Rewriting, Memory>
    requires home { IsHome cx.old h }
    requires word { IsWord cx.old h.sort stack.old.items }
    requires power { IsPower cx.old h.sort x }
    requires room { HasRoom cx.old stack.old.items x.exponent }
    requires before { Stands cx.old h.sort before (tree_of cx.old.trees before) }
    ensures word { IfOk result (λ r. IsWord cx.new h.sort stack.new.items) }
    ensures pairs { IfOk result (λ r. pairs_of cx.new stack.new.items ≡ push (pairs_of cx.old stack.old.items) (tree_of cx.old.trees x.atom, neg_ℤ x.exponent)) }
    ensures turns { IfOk result (λ r. Turns cx.new h.sort r (product_tree h.sort (word_tree h.sort (pairs_of cx.old stack.old.items)) (inverse_tree h.sort (product_tree h.sort (tree_of cx.old.trees before) (syllable_tree h.sort (pair_of cx.old x))))) (product_tree h.sort (word_tree h.sort (pairs_of cx.new stack.new.items)) (inverse_tree h.sort (tree_of cx.old.trees before)))) }
    ensures grows { Grows cx.old cx.new }
{
    let left = whole(cx, h, stack.as_slice());
    let m = step_out(cx, h, left, before, x)?;
    let next = negated(x, m.power);
    let q = push(cx, h, stack, next)?;
    let r = beside_inverse(cx, h, q, before)?;
    let p = then(cx, m.turns, r)?;
    Ok(p)
}

/// A word times the inverse of another is a word.
#[tactic(auto, using(crate::proofs::WordLemmas::word_facts))]
pub fn join_inverse(
    cx: &mut Builder,
    h: Home,
    stack: &mut Vec<Syllable>,
    w: &[Syllable],
) -> Result<Rewriting, Memory>
    requires home { IsHome cx.old h }
    requires left { IsWord cx.old h.sort stack.old.items }
    requires right { IsWord cx.old h.sort w.now }
    requires room { HaveRoom cx.old stack.old.items w.now }
    ensures word { IfOk result (λ r. IsWord cx.new h.sort stack.new.items) }
    ensures pairs { IfOk result (λ r. pairs_of cx.new stack.new.items ≡ joined_inverse (pairs_of cx.old stack.old.items) (pairs_of cx.old w.now)) }
    ensures turns { IfOk result (λ r. Turns cx.new h.sort r (product_tree h.sort (word_tree h.sort (pairs_of cx.old stack.old.items)) (inverse_tree h.sort (word_tree h.sort (pairs_of cx.old w.now)))) (word_tree h.sort (pairs_of cx.new stack.new.items))) }
    ensures grows { Grows cx.old cx.new }
{
    let left = whole(cx, h, stack.as_slice());
    let right = whole(cx, h, w);
    let begun = keep(cx, left);
    let mut turns = beside_inverse(cx, h, begun, right)?;
    let mut i = w.len();
    while i > 0 {
        i -= 1;
        let before = whole(cx, h, &w[..i]);
        let r = take_out(cx, h, stack, before, w[i])?;
        turns = then(cx, turns, r)?;
    }
    let left = whole(cx, h, stack.as_slice());
    let end = word_inv_end(cx, h.sort, left)?;
    let p = then(cx, turns, end)?;
    Ok(p)
}
