//! The words of trees in a group, from those of their parts.
ghost use Rattle.std.specs.Prelude.{◌≡◌, ◌≤◌, ◌*◌, ◌^◌, ◌∷◌, [], pos, IfOk, unsigned_abs};
ghost use Rattle.alg_terms.specs.declared.sorts.Sort.TheVariants.{Nat, Int};
ghost use Rattle.alg_terms.specs.Tree.{Tree, Lit, product_tree};
ghost use Rattle.alg_expr.specs.Ids.{tree_of};
ghost use Rattle.alg_num.specs.Range.{InRange};
ghost use Rattle.alg_build.specs.Book.{Grows};
ghost use Rattle.alg_build.specs.Rewriting.{Stands, Turns, TurnsIn};
ghost use Rattle.alg_rows.specs.Operations.{integer_power_tree, inverse_tree, power_tree, quotient_tree};
ghost use Rattle.alg_numerals.specs.WholeTree.{whole_tree};
ghost use Rattle.alg_group_words.specs.Syllables.{AreRuns, joined, joined_inverse, raised_runs, total_size};
ghost use Rattle.alg_group_stack.specs.Words.{HaveRoom, IsHome, pairs_of, syllable_tree};
ghost use Rattle.alg_group_spelling.specs.Spelling.{Spells};

use crate::raising::{copied, inverse, raise, raise_by_natural};
use crate::spelled::Spelled;
use alg_build::{Builder, Memory, Rewriting, keep, line_of, then, times, under_one, under_two};
use alg_expr::{ExprId, Sym};
use alg_group::word_rows::{atom_word, div_of_word};
use alg_group_stack::joining::{join, join_inverse};
use alg_group_stack::powers::{first_power, power};
use alg_group_stack::{Home, Syllable};

/// The literal 1 is the empty word.
#[tactic(auto, using(alg_group_stack::proofs::Homes::homes))]
pub fn spell_one(cx: &Builder, h: Home) -> Spelled
    requires home { IsHome cx.now h }
    ensures spells { Spells cx.now h.sort (Lit h.sort 1) result }
    ensures pairs { pairs_of cx.now result.word.items ≡ [] }
{
    let turns = keep(cx, h.one);
    Spelled {
        word: Vec::new(cx.alloc()),
        turns,
    }
}

// `a = 1 * a ^ 1`
#[tactic(auto, using(alg_group_stack::proofs::Homes::homes))]
fn from_atom(cx: &mut Builder, h: Home, a: ExprId, power: ExprId) -> Result<Rewriting, Memory>
    requires home { IsHome cx.old h }
    requires base { Stands cx.old h.sort a (tree_of cx.old.trees a) }
    requires power { Stands cx.old h.sort power (syllable_tree h.sort (tree_of cx.old.trees a, pos 1)) }
    ensures turns { IfOk result (λ r. Turns cx.new h.sort r (tree_of cx.old.trees a) (product_tree h.sort (Lit h.sort 1) (syllable_tree h.sort (tree_of cx.old.trees a, pos 1)))) }
    ensures grows { Grows cx.old cx.new }
{
    let r = first_power(cx, h, a)?;
    let line = line_of(cx, r)?;
    atom_word(cx, h.sort, a, power, line)
}

/// An atom is a word of one syllable.
#[tactic(auto, using(alg_group_stack::proofs::WordLemmas::word_facts))]
pub fn spell_atom(cx: &mut Builder, h: Home, a: ExprId) -> Result<Spelled, Memory>
    requires home { IsHome cx.old h }
    requires base { Stands cx.old h.sort a (tree_of cx.old.trees a) }
    ensures spells { IfOk result (λ q. Spells cx.new h.sort (tree_of cx.old.trees a) q) }
    ensures pairs { IfOk result (λ q. pairs_of cx.new q.word.items ≡ (tree_of cx.old.trees a, pos 1) ∷ []) }
    ensures grows { Grows cx.old cx.new }
{
    let first = power(cx, h, a, &1)?;
    let turns = from_atom(cx, h, a, first)?;
    let mut word: Vec<Syllable> = Vec::new(cx.alloc());
    word.push(Syllable {
        atom: a,
        exponent: 1,
        power: first,
        whole: turns.to,
    })?;
    Ok(Spelled { word, turns })
}

/// The word of `a * b`.
#[tactic(auto, using(alg_group_stack::proofs::WordLemmas::word_facts))]
pub fn spell_product(
    cx: &mut Builder,
    h: Home,
    a: ExprId,
    x: &Spelled,
    b: ExprId,
    y: &Spelled,
) -> Result<Spelled, Memory>
    requires home { IsHome cx.old h }
    requires left { Spells cx.old h.sort (tree_of cx.old.trees a) x.now }
    requires right { Spells cx.old h.sort (tree_of cx.old.trees b) y.now }
    requires room { HaveRoom cx.old x.now.word.items y.now.word.items }
    ensures spells { IfOk result (λ q. Spells cx.new h.sort (product_tree h.sort (tree_of cx.old.trees a) (tree_of cx.old.trees b)) q) }
    ensures pairs { IfOk result (λ q. pairs_of cx.new q.word.items ≡ joined (pairs_of cx.old x.now.word.items) (pairs_of cx.old y.now.word.items)) }
    ensures grows { Grows cx.old cx.new }
{
    let mut word = copied(cx, &x.word)?;
    let both = times(cx, h.sort, x.turns, y.turns)?;
    let r = join(cx, h, &mut word, &y.word)?;
    let turns = then(cx, both, r)?;
    Ok(Spelled { word, turns })
}

/// The word of `a⁻¹`.
#[tactic(auto, using(alg_group_stack::proofs::WordLemmas::word_facts))]
pub fn spell_inverse(cx: &mut Builder, h: Home, a: ExprId, x: &Spelled) -> Result<Spelled, Memory>
    requires home { IsHome cx.old h }
    requires part { Spells cx.old h.sort (tree_of cx.old.trees a) x.now }
    requires room { total_size (pairs_of cx.old x.now.word.items) ≤ 2 ^ 126 }
    ensures spells { IfOk result (λ q. Spells cx.new h.sort (inverse_tree h.sort (tree_of cx.old.trees a)) q) }
    ensures pairs { IfOk result (λ q. pairs_of cx.new q.word.items ≡ joined_inverse [] (pairs_of cx.old x.now.word.items)) }
    ensures grows { Grows cx.old cx.new }
{
    let under = under_one(cx, Sym::Inv, h.sort, x.turns)?;
    let q = inverse(cx, h, &x.word)?;
    let turns = then(cx, under, q.turns)?;
    Ok(Spelled {
        word: q.word,
        turns,
    })
}

// `a * b⁻¹ = w * v⁻¹`, from `a = w` and `b = v`
#[tactic(auto, using(alg_group_stack::proofs::Homes::homes))]
fn times_inverse(cx: &mut Builder, h: Home, x: Rewriting, y: Rewriting) -> Result<Rewriting, Memory>
    requires home { IsHome cx.old h }
    requires left { TurnsIn cx.old h.sort x }
    requires right { TurnsIn cx.old h.sort y }
    ensures turns { IfOk result (λ r. (t u v w : Tree) → Turns cx.old h.sort x t u → Turns cx.old h.sort y v w → Turns cx.new h.sort r (product_tree h.sort t (inverse_tree h.sort v)) (product_tree h.sort u (inverse_tree h.sort w))) }
    ensures grows { Grows cx.old cx.new }
{
    let under = under_one(cx, Sym::Inv, h.sort, y)?;
    let r = times(cx, h.sort, x, under)?;
    Ok(r)
}

// `a / b = c`, from `a * b⁻¹ = c`
#[tactic(auto, using(alg_group_stack::proofs::Homes::homes))]
fn as_quotient(
    cx: &mut Builder,
    h: Home,
    a: ExprId,
    b: ExprId,
    r: Rewriting,
) -> Result<Rewriting, Memory>
    requires home { IsHome cx.old h }
    requires left { Stands cx.old h.sort a (tree_of cx.old.trees a) }
    requires right { Stands cx.old h.sort b (tree_of cx.old.trees b) }
    requires turns { Turns cx.old h.sort r (product_tree h.sort (tree_of cx.old.trees a) (inverse_tree h.sort (tree_of cx.old.trees b))) (tree_of cx.old.trees r.to) }
    ensures turns { IfOk result (λ q. Turns cx.new h.sort q (quotient_tree h.sort (tree_of cx.old.trees a) (tree_of cx.old.trees b)) (tree_of cx.old.trees r.to)) }
    ensures grows { Grows cx.old cx.new }
{
    let line = line_of(cx, r)?;
    div_of_word(cx, h.sort, a, b, r.to, line)
}

// the word of `a * b⁻¹`
#[tactic(auto, using(alg_group_stack::proofs::WordLemmas::word_facts))]
fn spell_product_with_inverse(
    cx: &mut Builder,
    h: Home,
    a: ExprId,
    x: &Spelled,
    b: ExprId,
    y: &Spelled,
) -> Result<Spelled, Memory>
    requires home { IsHome cx.old h }
    requires left { Spells cx.old h.sort (tree_of cx.old.trees a) x.now }
    requires right { Spells cx.old h.sort (tree_of cx.old.trees b) y.now }
    requires room { HaveRoom cx.old x.now.word.items y.now.word.items }
    ensures spells { IfOk result (λ q. Spells cx.new h.sort (product_tree h.sort (tree_of cx.old.trees a) (inverse_tree h.sort (tree_of cx.old.trees b))) q) }
    ensures pairs { IfOk result (λ q. pairs_of cx.new q.word.items ≡ joined_inverse (pairs_of cx.old x.now.word.items) (pairs_of cx.old y.now.word.items)) }
    ensures grows { Grows cx.old cx.new }
{
    let mut word = copied(cx, &x.word)?;
    let both = times_inverse(cx, h, x.turns, y.turns)?;
    let r = join_inverse(cx, h, &mut word, &y.word)?;
    let turns = then(cx, both, r)?;
    Ok(Spelled { word, turns })
}

/// The word of `a / b`.
#[tactic(auto, using(alg_group_stack::proofs::WordLemmas::word_facts))]
pub fn spell_quotient(
    cx: &mut Builder,
    h: Home,
    a: ExprId,
    x: &Spelled,
    b: ExprId,
    y: &Spelled,
) -> Result<Spelled, Memory>
    requires home { IsHome cx.old h }
    requires left_stands { Stands cx.old h.sort a (tree_of cx.old.trees a) }
    requires right_stands { Stands cx.old h.sort b (tree_of cx.old.trees b) }
    requires left { Spells cx.old h.sort (tree_of cx.old.trees a) x.now }
    requires right { Spells cx.old h.sort (tree_of cx.old.trees b) y.now }
    requires room { HaveRoom cx.old x.now.word.items y.now.word.items }
    ensures spells { IfOk result (λ q. Spells cx.new h.sort (quotient_tree h.sort (tree_of cx.old.trees a) (tree_of cx.old.trees b)) q) }
    ensures pairs { IfOk result (λ q. pairs_of cx.new q.word.items ≡ joined_inverse (pairs_of cx.old x.now.word.items) (pairs_of cx.old y.now.word.items)) }
    ensures grows { Grows cx.old cx.new }
{
    let q = spell_product_with_inverse(cx, h, a, x, b, y)?;
    let turns = as_quotient(cx, h, a, b, q.turns)?;
    Ok(Spelled {
        word: q.word,
        turns,
    })
}

/// The word of `a ^ k` by an exponent of ℤ that is rewritten to the numeral z.
#[tactic(auto, using(alg_group_stack::proofs::WordLemmas::word_facts))]
pub fn spell_integer_power(
    cx: &mut Builder,
    h: Home,
    a: ExprId,
    x: &Spelled,
    k: ExprId,
    z: &i128,
    by: Rewriting,
) -> Result<Spelled, Memory>
    requires home { IsHome cx.old h }
    requires part { Spells cx.old h.sort (tree_of cx.old.trees a) x.now }
    requires runs { AreRuns (pairs_of cx.old x.now.word.items) }
    requires exponent { Turns cx.old Int by (tree_of cx.old.trees k) (whole_tree Int z.now) }
    requires small { InRange z.now }
    requires room { unsigned_abs z.now * total_size (pairs_of cx.old x.now.word.items) ≤ 2 ^ 126 }
    ensures spells { IfOk result (λ q. Spells cx.new h.sort (integer_power_tree h.sort (tree_of cx.old.trees a) (tree_of cx.old.trees k)) q) }
    ensures pairs { IfOk result (λ q. pairs_of cx.new q.word.items ≡ raised_runs (pairs_of cx.old x.now.word.items) z.now) }
    ensures grows { Grows cx.old cx.new }
{
    let under = under_two(cx, Sym::Zpow, h.sort, x.turns, by)?;
    let q = raise(cx, h, &x.word, z)?;
    let turns = then(cx, under, q.turns)?;
    Ok(Spelled {
        word: q.word,
        turns,
    })
}

/// The word of `a ^ k` by an exponent of ℕ that is rewritten to the literal z.
#[tactic(auto, using(alg_group_stack::proofs::WordLemmas::word_facts))]
pub fn spell_power(
    cx: &mut Builder,
    h: Home,
    a: ExprId,
    x: &Spelled,
    k: ExprId,
    z: &i128,
    by: Rewriting,
) -> Result<Spelled, Memory>
    requires home { IsHome cx.old h }
    requires part { Spells cx.old h.sort (tree_of cx.old.trees a) x.now }
    requires runs { AreRuns (pairs_of cx.old x.now.word.items) }
    requires exponent { Turns cx.old Nat by (tree_of cx.old.trees k) (Lit Nat (unsigned_abs z.now)) }
    requires natural { z.now ≡ pos (unsigned_abs z.now) }
    requires small { InRange z.now }
    requires room { unsigned_abs z.now * total_size (pairs_of cx.old x.now.word.items) ≤ 2 ^ 126 }
    ensures spells { IfOk result (λ q. Spells cx.new h.sort (power_tree h.sort (tree_of cx.old.trees a) (tree_of cx.old.trees k)) q) }
    ensures pairs { IfOk result (λ q. pairs_of cx.new q.word.items ≡ raised_runs (pairs_of cx.old x.now.word.items) z.now) }
    ensures grows { Grows cx.old cx.new }
{
    let under = under_two(cx, Sym::Npow, h.sort, x.turns, by)?;
    let q = raise_by_natural(cx, h, &x.word, z)?;
    let turns = then(cx, under, q.turns)?;
    Ok(Spelled {
        word: q.word,
        turns,
    })
}
