//! Words of products, quotients, inverses and powers, where they aren't too long.
ghost use Rattle.std.specs.Prelude.{◌≡◌, ◌<◌, ◌+◌, ◌^◌, List, Some, IfOk, length};
ghost use Rattle.alg_terms.specs.declared.sorts.Sort.TheVariants.{Nat, Int};
ghost use Rattle.alg_terms.specs.Tree.{Tree, sort_of_tree, product_tree};
ghost use Rattle.alg_expr.specs.Ids.{tree_of};
ghost use Rattle.alg_law.specs.Declarations.{Declaration};
ghost use Rattle.alg_build.specs.Book.{Book, Grows};
ghost use Rattle.alg_build.specs.Rewriting.{Stands};
ghost use Rattle.alg_rows.specs.Operations.{integer_power_tree, inverse_tree, power_tree, quotient_tree};
ghost use Rattle.alg_group_words.specs.Limits.{is_long, long_power};
ghost use Rattle.alg_group_stack.specs.declared.syllable.Home.{Home as HomeRecord};
ghost use Rattle.alg_group_stack.specs.Words.{IsHome};
ghost use Rattle.alg_group_found.specs.Exponents.{HasInteger, exponent, past};
ghost use Rattle.alg_group_found.specs.Found.{HasLetters, IsCounted, IsReached, IsWithin, is_full};

use crate::found::{Reach, Within};
use alg_build::{Builder, Memory, Rewriting};
use alg_expr::ExprId;
use alg_group_spelling::Spelled;
use alg_group_spelling::spelling::{
    spell_integer_power, spell_inverse, spell_power, spell_product, spell_quotient,
};
use alg_group_stack::Home;

// the longest word that a product or a power may have
const LONGEST: usize = 16_384;

// whether there are too many syllables together
fn is_over(count: usize) -> bool
    ensures { result ≡ is_full count }
{
    count > 1 << 18
}

// whether two words are too long for a product
fn are_long(x: &Within, y: &Within) -> bool
    ensures { result ≡ is_long (length x.now.spelled.word.items + length y.now.spelled.word.items) }
{
    x.spelled.word.len().saturating_add(y.spelled.word.len()) > LONGEST
}

// the syllables of a word
fn length_of(x: &Spelled) -> usize
    ensures { result ≡ length x.now.word.items }
{
    x.word.len()
}

// too large where there are too many syllables together
pub(crate) fn counted(weight: u128, parts: usize, spelled: Spelled) -> Reach
    requires { parts < 2 ^ 20 }
    ensures { (b : Book) (h : HomeRecord) (ds : List Declaration) (t : Tree) → IsCounted ds b h t weight parts spelled → IsReached ds b h t result }
{
    let count = parts + length_of(&spelled);
    if is_over(count) {
        return Reach::Large(weight);
    }
    Reach::Within(Within {
        weight,
        count,
        spelled,
    })
}

// a product of two trees with words
pub(crate) fn product(
    cx: &mut Builder,
    h: Home,
    a: ExprId,
    x: &Within,
    b: ExprId,
    y: &Within,
    weight: u128,
) -> Result<Reach, Memory>
    requires home { IsHome cx.old h }
    requires left { IsWithin cx.old.theory.declarations cx.old h (tree_of cx.old.trees a) x.now }
    requires right { IsWithin cx.old.theory.declarations cx.old h (tree_of cx.old.trees b) y.now }
    requires letters { HasLetters cx.old.theory.declarations (product_tree h.sort (tree_of cx.old.trees a) (tree_of cx.old.trees b)) weight }
    ensures reached { IfOk result (λ r. IsReached cx.old.theory.declarations cx.new h (product_tree h.sort (tree_of cx.old.trees a) (tree_of cx.old.trees b)) r) }
    ensures grows { Grows cx.old cx.new }
{
    if are_long(x, y) {
        return Ok(Reach::Large(weight));
    }
    let q = spell_product(cx, h, a, &x.spelled, b, &y.spelled)?;
    Ok(counted(weight, x.count + y.count, q))
}

// a quotient of two trees with words
pub(crate) fn quotient(
    cx: &mut Builder,
    h: Home,
    a: ExprId,
    x: &Within,
    b: ExprId,
    y: &Within,
    weight: u128,
) -> Result<Reach, Memory>
    requires home { IsHome cx.old h }
    requires left_stands { Stands cx.old h.sort a (tree_of cx.old.trees a) }
    requires right_stands { Stands cx.old h.sort b (tree_of cx.old.trees b) }
    requires left { IsWithin cx.old.theory.declarations cx.old h (tree_of cx.old.trees a) x.now }
    requires right { IsWithin cx.old.theory.declarations cx.old h (tree_of cx.old.trees b) y.now }
    requires letters { HasLetters cx.old.theory.declarations (quotient_tree h.sort (tree_of cx.old.trees a) (tree_of cx.old.trees b)) weight }
    ensures reached { IfOk result (λ r. IsReached cx.old.theory.declarations cx.new h (quotient_tree h.sort (tree_of cx.old.trees a) (tree_of cx.old.trees b)) r) }
    ensures grows { Grows cx.old cx.new }
{
    if are_long(x, y) {
        return Ok(Reach::Large(weight));
    }
    let q = spell_quotient(cx, h, a, &x.spelled, b, &y.spelled)?;
    Ok(counted(weight, x.count + y.count, q))
}

// the inverse of a tree with a word
pub(crate) fn inverse(cx: &mut Builder, h: Home, a: ExprId, x: &Within) -> Result<Reach, Memory>
    requires home { IsHome cx.old h }
    requires part { IsWithin cx.old.theory.declarations cx.old h (tree_of cx.old.trees a) x.now }
    ensures reached { IfOk result (λ r. IsReached cx.old.theory.declarations cx.new h (inverse_tree h.sort (tree_of cx.old.trees a)) r) }
    ensures grows { Grows cx.old cx.new }
{
    let q = spell_inverse(cx, h, a, &x.spelled)?;
    Ok(counted(x.weight, x.count, q))
}

// whether a power of a word of so many syllables would be too long
fn is_long_power(z: &i128, syllables: usize) -> bool
    ensures { result ≡ long_power (Some z.now) syllables }
{
    syllables >= 2 && z.unsigned_abs().saturating_mul(syllables as u128) > LONGEST as u128
}

/// A power: its exponent, and the numeral to which that is rewritten.
#[derive(Clone, Copy, Debug, Drop)]
pub(crate) struct Raising {
    pub(crate) exponent: ExprId,
    pub(crate) number: i128,
    pub(crate) by: Rewriting,
}

// a power by ℕ of a tree with a word
pub(crate) fn power(
    cx: &mut Builder,
    h: Home,
    a: ExprId,
    x: &Within,
    k: Raising,
    weight: u128,
) -> Result<Reach, Memory>
    requires home { IsHome cx.old h }
    requires part { IsWithin cx.old.theory.declarations cx.old h (tree_of cx.old.trees a) x.now }
    requires natural { sort_of_tree (tree_of cx.old.trees k.exponent) ≡ Nat }
    requires number { exponent cx.old.theory.declarations (tree_of cx.old.trees k.exponent) ≡ Some k.number }
    requires exponent { HasInteger cx.old (past cx.old.theory.declarations (tree_of cx.old.trees k.exponent)) (tree_of cx.old.trees k.exponent) k.by k.number }
    requires letters { HasLetters cx.old.theory.declarations (power_tree h.sort (tree_of cx.old.trees a) (tree_of cx.old.trees k.exponent)) weight }
    ensures reached { IfOk result (λ r. IsReached cx.old.theory.declarations cx.new h (power_tree h.sort (tree_of cx.old.trees a) (tree_of cx.old.trees k.exponent)) r) }
    ensures grows { Grows cx.old cx.new }
{
    if is_long_power(&k.number, length_of(&x.spelled)) {
        return Ok(Reach::Large(weight));
    }
    let q = spell_power(cx, h, a, &x.spelled, k.exponent, &k.number, k.by)?;
    Ok(counted(weight, x.count, q))
}

// a power by ℤ of a tree with a word
pub(crate) fn integer_power(
    cx: &mut Builder,
    h: Home,
    a: ExprId,
    x: &Within,
    k: Raising,
    weight: u128,
) -> Result<Reach, Memory>
    requires home { IsHome cx.old h }
    requires part { IsWithin cx.old.theory.declarations cx.old h (tree_of cx.old.trees a) x.now }
    requires integral { sort_of_tree (tree_of cx.old.trees k.exponent) ≡ Int }
    requires number { exponent cx.old.theory.declarations (tree_of cx.old.trees k.exponent) ≡ Some k.number }
    requires exponent { HasInteger cx.old (past cx.old.theory.declarations (tree_of cx.old.trees k.exponent)) (tree_of cx.old.trees k.exponent) k.by k.number }
    requires letters { HasLetters cx.old.theory.declarations (integer_power_tree h.sort (tree_of cx.old.trees a) (tree_of cx.old.trees k.exponent)) weight }
    ensures reached { IfOk result (λ r. IsReached cx.old.theory.declarations cx.new h (integer_power_tree h.sort (tree_of cx.old.trees a) (tree_of cx.old.trees k.exponent)) r) }
    ensures grows { Grows cx.old cx.new }
{
    if is_long_power(&k.number, length_of(&x.spelled)) {
        return Ok(Reach::Large(weight));
    }
    let q = spell_integer_power(cx, h, a, &x.spelled, k.exponent, &k.number, k.by)?;
    Ok(counted(weight, x.count, q))
}
