//! A word as a stack of syllables, and one more at its end.
ghost use Rattle.std.specs.Prelude.{◌≡◌, ◌++◌, ◌∷◌, [], ◌+ℤ◌, pos, nat_eq, unsigned_abs, IfOk};
ghost use Rattle.alg_terms.specs.Tree.{Tree, Lit, product_tree};
ghost use Rattle.alg_terms.specs.Order.{tree_same};
ghost use Rattle.alg_expr.specs.Ids.{tree_of, IsIn};
ghost use Rattle.alg_num.specs.Range.{InRange};
ghost use Rattle.alg_build.specs.Book.{Grows, Proves};
ghost use Rattle.alg_build.specs.Rewriting.{Stands, Turns};
ghost use Rattle.alg_group_words.specs.Syllables.{kept, push};
ghost use Rattle.alg_group_stack.specs.Words.{HasRoom, IsHome, IsPower, IsWord, pair_of, pairs_of, syllable_tree, word_tree};

use crate::powers::{merged, zero_power};
use crate::syllable::{Home, Syllable};
use alg_build::{Builder, Memory, Rewriting, keep, line_of, then, times};
use alg_expr::ExprId;
use alg_group::word_rows::{node_mono, word_cancel};

// whether two ids stand for one tree
fn is_same(cx: &Builder, a: ExprId, b: ExprId) -> bool
    requires left { IsIn cx.now.trees a }
    requires right { IsIn cx.now.trees b }
    ensures { result ≡ tree_same (tree_of cx.now.trees a) (tree_of cx.now.trees b) }
{
    cx.arena().compare(a, b).is_eq()
}

/// The tree of a word.
pub fn whole(cx: &Builder, h: Home, stack: &[Syllable]) -> ExprId
    requires home { IsHome cx.now h }
    requires word { IsWord cx.now h.sort stack.now }
    ensures { Stands cx.now h.sort result (word_tree h.sort (pairs_of cx.now stack.now)) }
{
    let _trees = cx.arena();
    match stack.last() {
        Some(x) => x.whole,
        None => h.one,
    }
}

// a syllable after one of another atom
#[tactic(auto, using(crate::proofs::WordLemmas::word_facts))]
fn place(
    cx: &mut Builder,
    h: Home,
    stack: &mut Vec<Syllable>,
    x: Syllable,
) -> Result<Rewriting, Memory>
    requires home { IsHome cx.old h }
    requires word { IsWord cx.old h.sort stack.old.items }
    requires power { IsPower cx.old h.sort x }
    ensures word { IfOk result (λ r. IsWord cx.new h.sort stack.new.items) }
    ensures pairs { IfOk result (λ r. pairs_of cx.new stack.new.items ≡ pairs_of cx.old stack.old.items ++ pair_of cx.old x ∷ []) }
    ensures turns { IfOk result (λ r. Turns cx.new h.sort r (product_tree h.sort (word_tree h.sort (pairs_of cx.old stack.old.items)) (syllable_tree h.sort (pair_of cx.old x))) (word_tree h.sort (pairs_of cx.new stack.new.items))) }
    ensures grows { Grows cx.old cx.new }
{
    let before = whole(cx, h, stack.as_slice());
    let left = keep(cx, before);
    let right = keep(cx, x.power);
    let r = times(cx, h.sort, left, right)?;
    stack.push(Syllable { whole: r.to, ..x })?;
    Ok(r)
}

// `a ^ i * a ^ j = 1`, where i + j is 0
#[tactic(auto, using(crate::proofs::Homes::homes), unfolding(alg_numerals::specs::WholeTree::whole_tree))]
fn to_one(cx: &mut Builder, h: Home, x: Syllable, y: Syllable) -> Result<usize, Memory>
    requires home { IsHome cx.old h }
    requires left { IsPower cx.old h.sort x }
    requires right { IsPower cx.old h.sort y }
    requires none { x.exponent +ℤ y.exponent ≡ pos 0 }
    ensures proves { IfOk result (λ n. Proves cx.new n (product_tree h.sort (syllable_tree h.sort (pair_of cx.old x)) (syllable_tree h.sort (tree_of cx.old.trees x.atom, y.exponent))) (Lit h.sort 1)) }
    ensures grows { Grows cx.old cx.new }
{
    let r = merged(cx, h, x.atom, &x.exponent, &y.exponent)?;
    let q = zero_power(cx, h, x.atom)?;
    let one = then(cx, r, q)?;
    let line = line_of(cx, one)?;
    Ok(line)
}

// `w * a ^ i * a ^ j = w`, where i + j is 0
#[tactic(auto, using(crate::proofs::Homes::homes))]
fn cancel(
    cx: &mut Builder,
    h: Home,
    before: ExprId,
    x: Syllable,
    y: Syllable,
) -> Result<Rewriting, Memory>
    requires home { IsHome cx.old h }
    requires before { Stands cx.old h.sort before (tree_of cx.old.trees before) }
    requires left { IsPower cx.old h.sort x }
    requires right { IsPower cx.old h.sort y }
    requires same { tree_of cx.old.trees x.atom ≡ tree_of cx.old.trees y.atom }
    requires none { x.exponent +ℤ y.exponent ≡ pos 0 }
    ensures turns { IfOk result (λ r. Turns cx.new h.sort r (product_tree h.sort (product_tree h.sort (tree_of cx.old.trees before) (syllable_tree h.sort (pair_of cx.old x))) (syllable_tree h.sort (pair_of cx.old y))) (tree_of cx.old.trees before)) }
    ensures grows { Grows cx.old cx.new }
{
    let line = to_one(cx, h, x, y)?;
    word_cancel(cx, h.sort, before, x.power, y.power, line)
}

/// A new power at the end of a word, and what leads to it.
#[derive(Clone, Copy, Debug, Drop)]
pub struct Met {
    pub power: ExprId,
    pub turns: Rewriting,
}

// `w * a ^ i * a ^ j = w * a ^ (i + j)`
#[tactic(auto, using(crate::proofs::Homes::homes))]
fn combine(
    cx: &mut Builder,
    h: Home,
    before: ExprId,
    x: Syllable,
    y: Syllable,
) -> Result<Met, Memory>
    requires home { IsHome cx.old h }
    requires before { Stands cx.old h.sort before (tree_of cx.old.trees before) }
    requires left { IsPower cx.old h.sort x }
    requires right { IsPower cx.old h.sort y }
    requires same { tree_of cx.old.trees x.atom ≡ tree_of cx.old.trees y.atom }
    requires small { InRange (x.exponent +ℤ y.exponent) }
    ensures power { IfOk result (λ m. Stands cx.new h.sort m.power (syllable_tree h.sort (tree_of cx.old.trees x.atom, x.exponent +ℤ y.exponent))) }
    ensures turns { IfOk result (λ m. Turns cx.new h.sort m.turns (product_tree h.sort (product_tree h.sort (tree_of cx.old.trees before) (syllable_tree h.sort (pair_of cx.old x))) (syllable_tree h.sort (pair_of cx.old y))) (product_tree h.sort (tree_of cx.old.trees before) (syllable_tree h.sort (tree_of cx.old.trees x.atom, x.exponent +ℤ y.exponent)))) }
    ensures grows { Grows cx.old cx.new }
{
    let r = merged(cx, h, x.atom, &x.exponent, &y.exponent)?;
    let line = line_of(cx, r)?;
    let turns = node_mono(cx, h.sort, before, x.power, y.power, r.to, line)?;
    Ok(Met { power: r.to, turns })
}

// the exponents of two powers of one atom together
fn summed(x: Syllable, y: Syllable) -> Syllable
    requires first { InRange x.exponent }
    requires second { InRange y.exponent }
    requires small { InRange (x.exponent +ℤ y.exponent) }
    ensures { result.exponent ≡ x.exponent +ℤ y.exponent }
{
    Syllable {
        exponent: x.exponent + y.exponent,
        ..x
    }
}

// whether the exponent is 0
fn is_none(x: Syllable) -> bool
    ensures { result ≡ nat_eq (unsigned_abs x.exponent) 0 }
{
    x.exponent.unsigned_abs() == 0
}

// another power and another word in a syllable
fn with_power(x: Syllable, atom: ExprId, m: Met) -> Syllable
    requires { InRange x.exponent }
    ensures { result ≡ record { atom = atom; exponent = x.exponent; power = m.power; whole = m.turns.to } }
{
    Syllable {
        atom,
        exponent: x.exponent,
        power: m.power,
        whole: m.turns.to,
    }
}

// two powers of one atom meet at the end of a word
#[tactic(auto, using(crate::proofs::WordLemmas::word_facts))]
fn meet(
    cx: &mut Builder,
    h: Home,
    stack: &mut Vec<Syllable>,
    x: Syllable,
    y: Syllable,
) -> Result<Rewriting, Memory>
    requires home { IsHome cx.old h }
    requires word { IsWord cx.old h.sort stack.old.items }
    requires left { IsPower cx.old h.sort x }
    requires right { IsPower cx.old h.sort y }
    requires same { tree_of cx.old.trees x.atom ≡ tree_of cx.old.trees y.atom }
    requires small { InRange (x.exponent +ℤ y.exponent) }
    ensures word { IfOk result (λ r. IsWord cx.new h.sort stack.new.items) }
    ensures pairs { IfOk result (λ r. pairs_of cx.new stack.new.items ≡ pairs_of cx.old stack.old.items ++ kept (tree_of cx.old.trees x.atom, x.exponent +ℤ y.exponent) []) }
    ensures turns { IfOk result (λ r. Turns cx.new h.sort r (product_tree h.sort (product_tree h.sort (word_tree h.sort (pairs_of cx.old stack.old.items)) (syllable_tree h.sort (pair_of cx.old x))) (syllable_tree h.sort (pair_of cx.old y))) (word_tree h.sort (pairs_of cx.new stack.new.items))) }
    ensures grows { Grows cx.old cx.new }
{
    let before = whole(cx, h, stack.as_slice());
    let both = summed(x, y);
    if is_none(both) {
        let r = cancel(cx, h, before, x, y)?;
        return Ok(r);
    }
    let m = combine(cx, h, before, x, y)?;
    stack.push(with_power(both, x.atom, m))?;
    Ok(m.turns)
}

/// A word times a power is the word with this power at its end: it joins the last one where that is of the same atom.
#[tactic(auto, using(crate::proofs::WordLemmas::word_facts))]
pub fn push(
    cx: &mut Builder,
    h: Home,
    stack: &mut Vec<Syllable>,
    x: Syllable,
) -> Result<Rewriting, Memory>
    requires home { IsHome cx.old h }
    requires word { IsWord cx.old h.sort stack.old.items }
    requires power { IsPower cx.old h.sort x }
    requires room { HasRoom cx.old stack.old.items x.exponent }
    ensures word { IfOk result (λ r. IsWord cx.new h.sort stack.new.items) }
    ensures pairs { IfOk result (λ r. pairs_of cx.new stack.new.items ≡ push (pairs_of cx.old stack.old.items) (pair_of cx.old x)) }
    ensures turns { IfOk result (λ r. Turns cx.new h.sort r (product_tree h.sort (word_tree h.sort (pairs_of cx.old stack.old.items)) (syllable_tree h.sort (pair_of cx.old x))) (word_tree h.sort (pairs_of cx.new stack.new.items))) }
    ensures grows { Grows cx.old cx.new }
{
    match stack.pop() {
        None => {
            let r = place(cx, h, stack, x)?;
            Ok(r)
        }
        Some(last) => {
            if is_same(cx, last.atom, x.atom) {
                let r = meet(cx, h, stack, last, x)?;
                return Ok(r);
            }
            stack.push(last)?;
            let r = place(cx, h, stack, x)?;
            Ok(r)
        }
    }
}
