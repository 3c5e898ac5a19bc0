//! Inverses and powers of words.
ghost use Rattle.std.specs.Prelude.{◌≡◌, ◌<◌, ◌≤◌, ◌*◌, ◌^◌, ◌*ℤ◌, ◌<ℤ◌, ◌≤ℤ◌, ◌+◌, ◌∷◌, [], pos, nat_eq, false, IfOk, IfSome, IsTrue, IsFalse, unsigned_abs};
ghost use Rattle.std.specs.Ordering.{int_eq};
ghost use Rattle.alg_terms.specs.declared.sorts.Sort.TheVariants.{Nat, Int};
ghost use Rattle.alg_terms.specs.Tree.{Lit, product_tree};
ghost use Rattle.alg_expr.specs.Ids.{tree_of};
ghost use Rattle.alg_num.specs.Range.{InRange};
ghost use Rattle.alg_build.specs.Book.{Grows, Proves};
ghost use Rattle.alg_build.specs.Rewriting.{Stands, Turns};
ghost use Rattle.alg_rows.specs.Operations.{integer_power_tree, inverse_tree, negation_tree, power_tree};
ghost use Rattle.alg_numerals.specs.WholeTree.{whole_tree};
ghost use Rattle.alg_group_words.specs.Syllables.{AreRuns, joined, joined_inverse, raised_runs, total_size};
ghost use Rattle.alg_group_stack.specs.Words.{HaveRoom, IsHome, IsPower, IsWord, pair_of, pairs_of, syllable_tree, word_tree};

use crate::spelled::Spelled;
use alg_build::{Builder, Memory, Rewriting, back, keep, line_of, then, under_one};
use alg_expr::{ExprId, Sort, Sym};
use alg_group::syllable_rows::{one_mul_zpow, one_zpow, zpow_neg_lit};
use alg_group::word_rows::inv_of_word;
use alg_group_stack::joining::{join, join_inverse};
use alg_group_stack::powers::{multiplied, natural_power, power, zero_power};
use alg_group_stack::stack::{Met, whole};
use alg_group_stack::{Home, Syllable};
use alg_numerals::integers::numeral_of_integer;
use alg_numerals::literals::{literal, sum};
use alg_rows::powers::{pow_next, pow_one};

// `w⁻¹ = b`, from `1 * w⁻¹ = b`
#[tactic(auto, using(alg_group_stack::proofs::WordLemmas::word_facts))]
fn without_one(cx: &mut Builder, h: Home, w: &[Syllable], r: Rewriting) -> Result<Rewriting, Memory>
    requires home { IsHome cx.old h }
    requires word { IsWord cx.old h.sort w.now }
    requires turns { Turns cx.old h.sort r (product_tree h.sort (Lit h.sort 1) (inverse_tree h.sort (word_tree h.sort (pairs_of cx.old w.now)))) (tree_of cx.old.trees r.to) }
    ensures turns { IfOk result (λ q. Turns cx.new h.sort q (inverse_tree h.sort (word_tree h.sort (pairs_of cx.old w.now))) (tree_of cx.old.trees r.to)) }
    ensures grows { Grows cx.old cx.new }
{
    let all = whole(cx, h, w);
    let kept = keep(cx, all);
    let inverse = under_one(cx, Sym::Inv, h.sort, kept)?;
    let line = line_of(cx, r)?;
    inv_of_word(cx, h.sort, inverse.to, r.to, line)
}

/// The inverse of a word.
#[tactic(auto, using(alg_group_stack::proofs::WordLemmas::word_facts))]
pub fn inverse(cx: &mut Builder, h: Home, w: &[Syllable]) -> Result<Spelled, Memory>
    requires home { IsHome cx.old h }
    requires word { IsWord cx.old h.sort w.now }
    requires room { total_size (pairs_of cx.old w.now) ≤ 2 ^ 126 }
    ensures word { IfOk result (λ q. IsWord cx.new h.sort q.word.items) }
    ensures pairs { IfOk result (λ q. pairs_of cx.new q.word.items ≡ joined_inverse [] (pairs_of cx.old w.now)) }
    ensures turns { IfOk result (λ q. Turns cx.new h.sort q.turns (inverse_tree h.sort (word_tree h.sort (pairs_of cx.old w.now))) (word_tree h.sort (pairs_of cx.new q.word.items))) }
    ensures grows { Grows cx.old cx.new }
{
    let mut word: Vec<Syllable> = Vec::new(cx.alloc());
    let r = join_inverse(cx, h, &mut word, w)?;
    let turns = without_one(cx, h, w, r)?;
    Ok(Spelled { word, turns })
}

// `(1 * a ^ i) ^ z = 1 * a ^ (i * z)`
#[tactic(auto, using(alg_group_stack::proofs::Homes::powers))]
fn raise_one(cx: &mut Builder, h: Home, x: Syllable, z: &i128) -> Result<Met, Memory>
    requires home { IsHome cx.old h }
    requires power { IsPower cx.old h.sort x }
    requires exponent { InRange z.now }
    requires small { InRange (x.exponent *ℤ z.now) }
    ensures power { IfOk result (λ m. Stands cx.new h.sort m.power (syllable_tree h.sort (tree_of cx.old.trees x.atom, x.exponent *ℤ z.now))) }
    ensures turns { IfOk result (λ m. Turns cx.new h.sort m.turns (integer_power_tree h.sort (product_tree h.sort (Lit h.sort 1) (syllable_tree h.sort (pair_of cx.old x))) (whole_tree Int z.now)) (product_tree h.sort (Lit h.sort 1) (syllable_tree h.sort (tree_of cx.old.trees x.atom, x.exponent *ℤ z.now)))) }
    ensures grows { Grows cx.old cx.new }
{
    let r = multiplied(cx, h, x.atom, &x.exponent, z)?;
    let line = line_of(cx, r)?;
    let k = numeral_of_integer(cx, Sort::Int, z)?;
    let turns = one_mul_zpow(cx, h.sort, x.power, r.to, k, line)?;
    Ok(Met { power: r.to, turns })
}

// `a ^ (m + 1) = c`, from a line for `a ^ m = b` and from `b * a = c`
#[tactic(auto, using(alg_group_stack::proofs::Homes::powers))]
fn next_power(
    cx: &mut Builder,
    h: Home,
    a: ExprId,
    b: ExprId,
    r: Rewriting,
    m: u128,
    line: usize,
) -> Result<Rewriting, Memory>
    requires home { IsHome cx.old h }
    requires base { Stands cx.old h.sort a (tree_of cx.old.trees a) }
    requires before { Stands cx.old h.sort b (tree_of cx.old.trees b) }
    requires turns { Turns cx.old h.sort r (product_tree h.sort (tree_of cx.old.trees b) (tree_of cx.old.trees a)) (tree_of cx.old.trees r.to) }
    requires power { Proves cx.old line (power_tree h.sort (tree_of cx.old.trees a) (Lit Nat m)) (tree_of cx.old.trees b) }
    requires small { m + 1 < 2 ^ 127 }
    ensures turns { IfOk result (λ q. Turns cx.new h.sort q (power_tree h.sort (tree_of cx.old.trees a) (Lit Nat (m + 1))) (tree_of cx.old.trees r.to)) }
    ensures grows { Grows cx.old cx.new }
{
    let product = line_of(cx, r)?;
    let q = sum(cx, Sort::Nat, m, 1, m + 1)?;
    pow_next(
        cx, h.sort, a, b, r.to, q.first, q.total, q.line, line, product,
    )
}

// `w ^ (m + 1)` from `w ^ m`
#[tactic(auto, using(alg_group_stack::proofs::WordLemmas::word_facts))]
fn raise_once_more(
    cx: &mut Builder,
    h: Home,
    word: &mut Vec<Syllable>,
    w: &[Syllable],
    m: u128,
    turns: Rewriting,
) -> Result<Rewriting, Memory>
    requires home { IsHome cx.old h }
    requires so_far { IsWord cx.old h.sort word.old.items }
    requires base { IsWord cx.old h.sort w.now }
    requires room { HaveRoom cx.old word.old.items w.now }
    requires small { m + 1 < 2 ^ 127 }
    requires turns { Turns cx.old h.sort turns (power_tree h.sort (word_tree h.sort (pairs_of cx.old w.now)) (Lit Nat m)) (word_tree h.sort (pairs_of cx.old word.old.items)) }
    ensures word { IfOk result (λ r. IsWord cx.new h.sort word.new.items) }
    ensures pairs { IfOk result (λ r. pairs_of cx.new word.new.items ≡ joined (pairs_of cx.old word.old.items) (pairs_of cx.old w.now)) }
    ensures turns { IfOk result (λ r. Turns cx.new h.sort r (power_tree h.sort (word_tree h.sort (pairs_of cx.old w.now)) (Lit Nat (m + 1))) (word_tree h.sort (pairs_of cx.new word.new.items))) }
    ensures grows { Grows cx.old cx.new }
{
    let all = whole(cx, h, w);
    let before = whole(cx, h, word.as_slice());
    let line = line_of(cx, turns)?;
    let r = join(cx, h, word, w)?;
    let p = next_power(cx, h, all, before, r, m, line)?;
    Ok(p)
}

pub(crate) fn copied(cx: &Builder, w: &[Syllable]) -> Result<Vec<Syllable>, Memory>
    ensures { IfOk result (λ v. v.items ≡ w.now) }
{
    Ok(w.to_vec(cx.alloc())?)
}

// `w ^ n` by n - 1 products, where n isn't 0
#[tactic(auto, using(alg_group_stack::proofs::WordLemmas::word_facts))]
fn raise_by_products(cx: &mut Builder, h: Home, w: &[Syllable], n: u128) -> Result<Spelled, Memory>
    requires home { IsHome cx.old h }
    requires word { IsWord cx.old h.sort w.now }
    requires runs { AreRuns (pairs_of cx.old w.now) }
    requires some { 0 < n }
    requires small { n < 2 ^ 127 }
    requires room { n * total_size (pairs_of cx.old w.now) ≤ 2 ^ 126 }
    ensures word { IfOk result (λ q. IsWord cx.new h.sort q.word.items) }
    ensures pairs { IfOk result (λ q. pairs_of cx.new q.word.items ≡ raised_runs (pairs_of cx.old w.now) (pos n)) }
    ensures turns { IfOk result (λ q. Turns cx.new h.sort q.turns (power_tree h.sort (word_tree h.sort (pairs_of cx.old w.now)) (Lit Nat n)) (word_tree h.sort (pairs_of cx.new q.word.items))) }
    ensures grows { Grows cx.old cx.new }
{
    let all = whole(cx, h, w);
    let mut word = copied(cx, w)?;
    let mut turns = pow_one(cx, h.sort, all)?;
    let mut m = 1;
    while m < n {
        turns = raise_once_more(cx, h, &mut word, w, m, turns)?;
        m += 1;
    }
    Ok(Spelled { word, turns })
}

// whether the number is 0
fn is_nothing(z: &i128) -> bool
    ensures { result ≡ nat_eq (unsigned_abs z.now) 0 }
{
    z.unsigned_abs() == 0
}

// whether it is below 0
fn is_below(z: &i128) -> bool
    ensures below { IsTrue result → z.now <ℤ pos 0 }
    ensures above { IsFalse result → pos 0 ≤ℤ z.now }
{
    *z < 0
}

// its absolute value
fn size_of(z: &i128) -> u128
    ensures { result ≡ unsigned_abs z.now }
{
    z.unsigned_abs()
}

// `w ^ 0 = 1`
#[tactic(auto, using(alg_group_stack::proofs::WordLemmas::word_facts))]
fn raise_to_one(cx: &mut Builder, h: Home, w: &[Syllable], z: &i128) -> Result<Spelled, Memory>
    requires home { IsHome cx.old h }
    requires word { IsWord cx.old h.sort w.now }
    requires zero { z.now ≡ pos 0 }
    ensures word { IfOk result (λ q. IsWord cx.new h.sort q.word.items) }
    ensures pairs { IfOk result (λ q. pairs_of cx.new q.word.items ≡ raised_runs (pairs_of cx.old w.now) z.now) }
    ensures turns { IfOk result (λ q. Turns cx.new h.sort q.turns (integer_power_tree h.sort (word_tree h.sort (pairs_of cx.old w.now)) (whole_tree Int z.now)) (word_tree h.sort (pairs_of cx.new q.word.items))) }
    ensures grows { Grows cx.old cx.new }
{
    let all = whole(cx, h, w);
    let turns = zero_power(cx, h, all)?;
    let word: Vec<Syllable> = Vec::new(cx.alloc());
    Ok(Spelled { word, turns })
}

// `1 ^ z = 1`
#[tactic(auto, using(alg_group_stack::proofs::Homes::powers))]
fn raise_nothing(cx: &mut Builder, h: Home, w: &[Syllable], z: &i128) -> Result<Spelled, Memory>
    requires home { IsHome cx.old h }
    requires nothing { w.now ≡ [] }
    requires small { InRange z.now }
    ensures word { IfOk result (λ q. IsWord cx.new h.sort q.word.items) }
    ensures pairs { IfOk result (λ q. pairs_of cx.new q.word.items ≡ raised_runs (pairs_of cx.old w.now) z.now) }
    ensures turns { IfOk result (λ q. Turns cx.new h.sort q.turns (integer_power_tree h.sort (word_tree h.sort (pairs_of cx.old w.now)) (whole_tree Int z.now)) (word_tree h.sort (pairs_of cx.new q.word.items))) }
    ensures grows { Grows cx.old cx.new }
{
    let _nothing = w;
    let k = numeral_of_integer(cx, Sort::Int, z)?;
    let turns = one_zpow(cx, h.sort, k)?;
    let word: Vec<Syllable> = Vec::new(cx.alloc());
    Ok(Spelled { word, turns })
}

// the syllable of a power of a single one
fn scaled(x: Syllable, z: &i128, m: Met) -> Syllable
    requires first { InRange x.exponent }
    requires second { InRange z.now }
    requires small { InRange (x.exponent *ℤ z.now) }
    ensures { result ≡ record { atom = x.atom; exponent = x.exponent *ℤ z.now; power = m.power; whole = m.turns.to } }
{
    Syllable {
        atom: x.atom,
        exponent: x.exponent * *z,
        power: m.power,
        whole: m.turns.to,
    }
}

// a power of one syllable, by an exponent that isn't 0
#[tactic(auto, using(alg_group_stack::proofs::WordLemmas::word_facts))]
fn raise_single(cx: &mut Builder, h: Home, x: Syllable, z: &i128) -> Result<Spelled, Memory>
    requires home { IsHome cx.old h }
    requires power { IsPower cx.old h.sort x }
    requires exponent { InRange z.now }
    requires some { int_eq z.now (pos 0) ≡ false }
    requires small { InRange (x.exponent *ℤ z.now) }
    ensures word { IfOk result (λ q. IsWord cx.new h.sort q.word.items) }
    ensures pairs { IfOk result (λ q. pairs_of cx.new q.word.items ≡ raised_runs (pair_of cx.old x ∷ []) z.now) }
    ensures turns { IfOk result (λ q. Turns cx.new h.sort q.turns (integer_power_tree h.sort (word_tree h.sort (pair_of cx.old x ∷ [])) (whole_tree Int z.now)) (word_tree h.sort (pairs_of cx.new q.word.items))) }
    ensures grows { Grows cx.old cx.new }
{
    let m = raise_one(cx, h, x, z)?;
    let mut word: Vec<Syllable> = Vec::new(cx.alloc());
    word.push(scaled(x, z, m))?;
    Ok(Spelled {
        word,
        turns: m.turns,
    })
}

// `w ^ n` by a literal of ℤ
#[tactic(auto, using(alg_group_stack::proofs::WordLemmas::word_facts))]
fn raise_above(cx: &mut Builder, h: Home, w: &[Syllable], n: u128) -> Result<Spelled, Memory>
    requires home { IsHome cx.old h }
    requires word { IsWord cx.old h.sort w.now }
    requires runs { AreRuns (pairs_of cx.old w.now) }
    requires some { 0 < n }
    requires small { n < 2 ^ 127 }
    requires room { n * total_size (pairs_of cx.old w.now) ≤ 2 ^ 126 }
    ensures word { IfOk result (λ q. IsWord cx.new h.sort q.word.items) }
    ensures pairs { IfOk result (λ q. pairs_of cx.new q.word.items ≡ raised_runs (pairs_of cx.old w.now) (pos n)) }
    ensures turns { IfOk result (λ q. Turns cx.new h.sort q.turns (integer_power_tree h.sort (word_tree h.sort (pairs_of cx.old w.now)) (Lit Int n)) (word_tree h.sort (pairs_of cx.new q.word.items))) }
    ensures grows { Grows cx.old cx.new }
{
    let all = whole(cx, h, w);
    let r = natural_power(cx, h, all, n)?;
    let up = raise_by_products(cx, h, w, n)?;
    let turns = then(cx, r, up.turns)?;
    Ok(Spelled {
        word: up.word,
        turns,
    })
}

// `a ^ (-n) = c`, from `a ^ n = b` and `b⁻¹ = c`
#[tactic(auto, using(alg_group_stack::proofs::Homes::powers))]
fn power_below(
    cx: &mut Builder,
    h: Home,
    a: ExprId,
    n: u128,
    up: Rewriting,
    down: Rewriting,
) -> Result<Rewriting, Memory>
    requires home { IsHome cx.old h }
    requires base { Stands cx.old h.sort a (tree_of cx.old.trees a) }
    requires small { n < 2 ^ 127 }
    requires up { Turns cx.old h.sort up (integer_power_tree h.sort (tree_of cx.old.trees a) (Lit Int n)) (tree_of cx.old.trees up.to) }
    requires down { Turns cx.old h.sort down (inverse_tree h.sort (tree_of cx.old.trees up.to)) (tree_of cx.old.trees down.to) }
    ensures turns { IfOk result (λ q. Turns cx.new h.sort q (integer_power_tree h.sort (tree_of cx.old.trees a) (negation_tree Int (Lit Int n))) (tree_of cx.old.trees down.to)) }
    ensures grows { Grows cx.old cx.new }
{
    let first = line_of(cx, up)?;
    let second = line_of(cx, down)?;
    let i = literal(cx, Sort::Int, n)?;
    zpow_neg_lit(cx, h.sort, a, up.to, down.to, i, first, second)
}

// `w ^ (-n)`: the inverse of `w ^ n`
#[tactic(auto, using(alg_group_stack::proofs::WordLemmas::word_facts))]
fn raise_below(cx: &mut Builder, h: Home, w: &[Syllable], n: u128) -> Result<Spelled, Memory>
    requires home { IsHome cx.old h }
    requires word { IsWord cx.old h.sort w.now }
    requires runs { AreRuns (pairs_of cx.old w.now) }
    requires some { 0 < n }
    requires small { n < 2 ^ 127 }
    requires room { n * total_size (pairs_of cx.old w.now) ≤ 2 ^ 126 }
    ensures word { IfOk result (λ q. IsWord cx.new h.sort q.word.items) }
    ensures pairs { IfOk result (λ q. pairs_of cx.new q.word.items ≡ joined_inverse [] (raised_runs (pairs_of cx.old w.now) (pos n))) }
    ensures turns { IfOk result (λ q. Turns cx.new h.sort q.turns (integer_power_tree h.sort (word_tree h.sort (pairs_of cx.old w.now)) (negation_tree Int (Lit Int n))) (word_tree h.sort (pairs_of cx.new q.word.items))) }
    ensures grows { Grows cx.old cx.new }
{
    let all = whole(cx, h, w);
    let up = raise_above(cx, h, w, n)?;
    let down = inverse(cx, h, &up.word)?;
    let turns = power_below(cx, h, all, n, up.turns, down.turns)?;
    Ok(Spelled {
        word: down.word,
        turns,
    })
}

// a power by products, by an exponent that isn't 0
fn raise_many(cx: &mut Builder, h: Home, w: &[Syllable], z: &i128) -> Result<Spelled, Memory>
    requires home { IsHome cx.old h }
    requires word { IsWord cx.old h.sort w.now }
    requires runs { AreRuns (pairs_of cx.old w.now) }
    requires small { InRange z.now }
    requires some { int_eq z.now (pos 0) ≡ false }
    requires room { unsigned_abs z.now * total_size (pairs_of cx.old w.now) ≤ 2 ^ 126 }
    ensures word { IfOk result (λ q. IsWord cx.new h.sort q.word.items) }
    ensures pairs { IfOk result (λ q. pairs_of cx.new q.word.items ≡ raised_runs (pairs_of cx.old w.now) z.now) }
    ensures turns { IfOk result (λ q. Turns cx.new h.sort q.turns (integer_power_tree h.sort (word_tree h.sort (pairs_of cx.old w.now)) (whole_tree Int z.now)) (word_tree h.sort (pairs_of cx.new q.word.items))) }
    ensures grows { Grows cx.old cx.new }
{
    let n = size_of(z);
    if is_below(z) {
        let down = raise_below(cx, h, w, n)?;
        return Ok(down);
    }
    let up = raise_above(cx, h, w, n)?;
    Ok(up)
}

// the syllable of a word that has but one
fn single(w: &[Syllable]) -> Option<Syllable>
    ensures { IfSome result (λ x. w.now ≡ x ∷ []) }
{
    match w {
        [x] => Some(*x),
        _ => None,
    }
}

// a power of a word of one syllable, by an exponent that isn't 0
fn raise_only(
    cx: &mut Builder,
    h: Home,
    w: &[Syllable],
    x: Syllable,
    z: &i128,
) -> Result<Spelled, Memory>
    requires home { IsHome cx.old h }
    requires word { IsWord cx.old h.sort w.now }
    requires single { w.now ≡ x ∷ [] }
    requires small { InRange z.now }
    requires some { int_eq z.now (pos 0) ≡ false }
    requires room { unsigned_abs z.now * total_size (pairs_of cx.old w.now) ≤ 2 ^ 126 }
    ensures word { IfOk result (λ q. IsWord cx.new h.sort q.word.items) }
    ensures pairs { IfOk result (λ q. pairs_of cx.new q.word.items ≡ raised_runs (pairs_of cx.old w.now) z.now) }
    ensures turns { IfOk result (λ q. Turns cx.new h.sort q.turns (integer_power_tree h.sort (word_tree h.sort (pairs_of cx.old w.now)) (whole_tree Int z.now)) (word_tree h.sort (pairs_of cx.new q.word.items))) }
    ensures grows { Grows cx.old cx.new }
{
    let _single = w;
    raise_single(cx, h, x, z)
}

// a power by an exponent that isn't 0
fn raise_by_some(cx: &mut Builder, h: Home, w: &[Syllable], z: &i128) -> Result<Spelled, Memory>
    requires home { IsHome cx.old h }
    requires word { IsWord cx.old h.sort w.now }
    requires runs { AreRuns (pairs_of cx.old w.now) }
    requires small { InRange z.now }
    requires some { int_eq z.now (pos 0) ≡ false }
    requires room { unsigned_abs z.now * total_size (pairs_of cx.old w.now) ≤ 2 ^ 126 }
    ensures word { IfOk result (λ q. IsWord cx.new h.sort q.word.items) }
    ensures pairs { IfOk result (λ q. pairs_of cx.new q.word.items ≡ raised_runs (pairs_of cx.old w.now) z.now) }
    ensures turns { IfOk result (λ q. Turns cx.new h.sort q.turns (integer_power_tree h.sort (word_tree h.sort (pairs_of cx.old w.now)) (whole_tree Int z.now)) (word_tree h.sort (pairs_of cx.new q.word.items))) }
    ensures grows { Grows cx.old cx.new }
{
    match single(w) {
        Some(x) => raise_only(cx, h, w, x, z),
        None => raise_many(cx, h, w, z),
    }
}

/// A power of a word by an integer: of a single syllable its exponent is multiplied, and nothing is written out.
pub fn raise(cx: &mut Builder, h: Home, w: &[Syllable], z: &i128) -> Result<Spelled, Memory>
    requires home { IsHome cx.old h }
    requires word { IsWord cx.old h.sort w.now }
    requires runs { AreRuns (pairs_of cx.old w.now) }
    requires small { InRange z.now }
    requires room { unsigned_abs z.now * total_size (pairs_of cx.old w.now) ≤ 2 ^ 126 }
    ensures word { IfOk result (λ q. IsWord cx.new h.sort q.word.items) }
    ensures pairs { IfOk result (λ q. pairs_of cx.new q.word.items ≡ raised_runs (pairs_of cx.old w.now) z.now) }
    ensures turns { IfOk result (λ q. Turns cx.new h.sort q.turns (integer_power_tree h.sort (word_tree h.sort (pairs_of cx.old w.now)) (whole_tree Int z.now)) (word_tree h.sort (pairs_of cx.new q.word.items))) }
    ensures grows { Grows cx.old cx.new }
{
    if is_nothing(z) {
        return raise_to_one(cx, h, w, z);
    }
    if w.is_empty() {
        return raise_nothing(cx, h, w, z);
    }
    raise_by_some(cx, h, w, z)
}

// a power by a literal of ℕ is the one by that of ℤ
#[tactic(auto, using(alg_group_stack::proofs::Homes::powers))]
fn from_natural(cx: &mut Builder, h: Home, a: ExprId, z: &i128) -> Result<Rewriting, Memory>
    requires home { IsHome cx.old h }
    requires base { Stands cx.old h.sort a (tree_of cx.old.trees a) }
    requires natural { z.now ≡ pos (unsigned_abs z.now) }
    requires small { InRange z.now }
    ensures turns { IfOk result (λ r. Turns cx.new h.sort r (power_tree h.sort (tree_of cx.old.trees a) (Lit Nat (unsigned_abs z.now))) (syllable_tree h.sort (tree_of cx.old.trees a, z.now))) }
    ensures grows { Grows cx.old cx.new }
{
    let e = power(cx, h, a, z)?;
    let r = natural_power(cx, h, a, size_of(z))?;
    let p = back(cx, e, r)?;
    Ok(p)
}

/// A power of a word by a natural number.
#[tactic(auto, using(alg_group_stack::proofs::WordLemmas::word_facts))]
pub fn raise_by_natural(
    cx: &mut Builder,
    h: Home,
    w: &[Syllable],
    z: &i128,
) -> Result<Spelled, Memory>
    requires home { IsHome cx.old h }
    requires word { IsWord cx.old h.sort w.now }
    requires runs { AreRuns (pairs_of cx.old w.now) }
    requires natural { z.now ≡ pos (unsigned_abs z.now) }
    requires small { InRange z.now }
    requires room { unsigned_abs z.now * total_size (pairs_of cx.old w.now) ≤ 2 ^ 126 }
    ensures word { IfOk result (λ q. IsWord cx.new h.sort q.word.items) }
    ensures pairs { IfOk result (λ q. pairs_of cx.new q.word.items ≡ raised_runs (pairs_of cx.old w.now) z.now) }
    ensures turns { IfOk result (λ q. Turns cx.new h.sort q.turns (power_tree h.sort (word_tree h.sort (pairs_of cx.old w.now)) (Lit Nat (unsigned_abs z.now))) (word_tree h.sort (pairs_of cx.new q.word.items))) }
    ensures grows { Grows cx.old cx.new }
{
    let all = whole(cx, h, w);
    let r = from_natural(cx, h, all, z)?;
    let q = raise(cx, h, w, z)?;
    let turns = then(cx, r, q.turns)?;
    Ok(Spelled {
        word: q.word,
        turns,
    })
}
