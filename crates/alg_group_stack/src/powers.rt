//! Powers of one tree by numerals of ℤ.
ghost use Rattle.std.specs.Prelude.{◌≡◌, ◌<◌, ◌^◌, ◌+ℤ◌, ◌*ℤ◌, neg_ℤ, pos, IfOk};
ghost use Rattle.alg_terms.specs.declared.sorts.Sort.TheVariants.{Nat, Int};
ghost use Rattle.alg_terms.specs.Tree.{Tree, Lit, product_tree, sum_tree};
ghost use Rattle.alg_expr.specs.Ids.{tree_of};
ghost use Rattle.alg_num.specs.Range.{InRange};
ghost use Rattle.alg_build.specs.Book.{Grows};
ghost use Rattle.alg_build.specs.Rewriting.{Stands, Turns, TurnsIn};
ghost use Rattle.alg_rows.specs.Operations.{integer_power_tree, inverse_tree, power_tree};
ghost use Rattle.alg_numerals.specs.WholeTree.{whole_tree};
ghost use Rattle.alg_group_stack.specs.Words.{IsHome, syllable_tree};

use crate::syllable::Home;
use alg_build::{Builder, Memory, Rewriting, by_line, keep, line_of, then, under_two};
use alg_expr::{ExprId, Sort, Sym};
use alg_group::syllable_rows::{syllable_inv, syllable_mul, syllable_zpow};
use alg_numerals::integers::{
    negation_of_integer, numeral_of_integer, product_of_integers, sum_of_integers,
};
use alg_proof::BridgeKind;
use alg_rows::powers::{pow_one, pow_zero};

// `a ^ k = a ^ l`, from `k = l`
#[tactic(auto, using(crate::proofs::Homes::powers))]
fn raised(cx: &mut Builder, h: Home, a: ExprId, r: Rewriting) -> Result<Rewriting, Memory>
    requires home { IsHome cx.old h }
    requires base { Stands cx.old h.sort a (tree_of cx.old.trees a) }
    requires exponent { TurnsIn cx.old Int r }
    ensures turns { IfOk result (λ q. (x y : Tree) → Turns cx.old Int r x y → Turns cx.new h.sort q (integer_power_tree h.sort (tree_of cx.old.trees a) x) (integer_power_tree h.sort (tree_of cx.old.trees a) y)) }
    ensures grows { Grows cx.old cx.new }
{
    let base = keep(cx, a);
    let q = under_two(cx, Sym::Zpow, h.sort, base, r)?;
    Ok(q)
}

/// The tree `a ^ z`.
#[tactic(auto, using(crate::proofs::Homes::powers))]
pub fn power(cx: &mut Builder, h: Home, a: ExprId, z: &i128) -> Result<ExprId, Memory>
    requires home { IsHome cx.old h }
    requires base { Stands cx.old h.sort a (tree_of cx.old.trees a) }
    requires small { InRange z.now }
    ensures stands { IfOk result (λ e. Stands cx.new h.sort e (syllable_tree h.sort (tree_of cx.old.trees a, z.now))) }
    ensures grows { Grows cx.old cx.new }
{
    let k = numeral_of_integer(cx, Sort::Int, z)?;
    let by = keep(cx, k);
    let q = raised(cx, h, a, by)?;
    Ok(q.to)
}

// `a ^ x * a ^ y = b`, from `a ^ (x + y) = b`
#[tactic(auto, using(crate::proofs::Homes::powers))]
fn merged_by(
    cx: &mut Builder,
    h: Home,
    a: ExprId,
    x: &i128,
    y: &i128,
    q: Rewriting,
) -> Result<Rewriting, Memory>
    requires home { IsHome cx.old h }
    requires base { Stands cx.old h.sort a (tree_of cx.old.trees a) }
    requires first_small { InRange x.now }
    requires second_small { InRange y.now }
    requires power { Turns cx.old h.sort q (integer_power_tree h.sort (tree_of cx.old.trees a) (sum_tree Int (whole_tree Int x.now) (whole_tree Int y.now))) (tree_of cx.old.trees q.to) }
    ensures turns { IfOk result (λ r. Turns cx.new h.sort r (product_tree h.sort (syllable_tree h.sort (tree_of cx.old.trees a, x.now)) (syllable_tree h.sort (tree_of cx.old.trees a, y.now))) (tree_of cx.old.trees q.to)) }
    ensures grows { Grows cx.old cx.new }
{
    let i = numeral_of_integer(cx, Sort::Int, x)?;
    let j = numeral_of_integer(cx, Sort::Int, y)?;
    let line = line_of(cx, q)?;
    syllable_mul(cx, h.sort, a, q.to, i, j, line)
}

/// `a ^ x * a ^ y = a ^ (x + y)`, with numerals.
#[tactic(auto, using(crate::proofs::Homes::powers))]
pub fn merged(cx: &mut Builder, h: Home, a: ExprId, x: &i128, y: &i128) -> Result<Rewriting, Memory>
    requires home { IsHome cx.old h }
    requires base { Stands cx.old h.sort a (tree_of cx.old.trees a) }
    requires first_small { InRange x.now }
    requires second_small { InRange y.now }
    requires small { InRange (x.now +ℤ y.now) }
    ensures turns { IfOk result (λ r. Turns cx.new h.sort r (product_tree h.sort (syllable_tree h.sort (tree_of cx.old.trees a, x.now)) (syllable_tree h.sort (tree_of cx.old.trees a, y.now))) (syllable_tree h.sort (tree_of cx.old.trees a, x.now +ℤ y.now))) }
    ensures grows { Grows cx.old cx.new }
{
    let r = sum_of_integers(cx, Sort::Int, x, y)?;
    let q = raised(cx, h, a, r)?;
    merged_by(cx, h, a, x, y, q)
}

// `(a ^ x) ^ y = b`, from `a ^ (x * y) = b`
#[tactic(auto, using(crate::proofs::Homes::powers))]
fn multiplied_by(
    cx: &mut Builder,
    h: Home,
    a: ExprId,
    x: &i128,
    y: &i128,
    q: Rewriting,
) -> Result<Rewriting, Memory>
    requires home { IsHome cx.old h }
    requires base { Stands cx.old h.sort a (tree_of cx.old.trees a) }
    requires first_small { InRange x.now }
    requires second_small { InRange y.now }
    requires power { Turns cx.old h.sort q (integer_power_tree h.sort (tree_of cx.old.trees a) (product_tree Int (whole_tree Int x.now) (whole_tree Int y.now))) (tree_of cx.old.trees q.to) }
    ensures turns { IfOk result (λ r. Turns cx.new h.sort r (integer_power_tree h.sort (syllable_tree h.sort (tree_of cx.old.trees a, x.now)) (whole_tree Int y.now)) (tree_of cx.old.trees q.to)) }
    ensures grows { Grows cx.old cx.new }
{
    let i = numeral_of_integer(cx, Sort::Int, x)?;
    let j = numeral_of_integer(cx, Sort::Int, y)?;
    let line = line_of(cx, q)?;
    syllable_zpow(cx, h.sort, a, q.to, i, j, line)
}

/// `(a ^ x) ^ y = a ^ (x * y)`, with numerals.
#[tactic(auto, using(crate::proofs::Homes::powers))]
pub fn multiplied(
    cx: &mut Builder,
    h: Home,
    a: ExprId,
    x: &i128,
    y: &i128,
) -> Result<Rewriting, Memory>
    requires home { IsHome cx.old h }
    requires base { Stands cx.old h.sort a (tree_of cx.old.trees a) }
    requires first_small { InRange x.now }
    requires second_small { InRange y.now }
    requires small { InRange (x.now *ℤ y.now) }
    ensures turns { IfOk result (λ r. Turns cx.new h.sort r (integer_power_tree h.sort (syllable_tree h.sort (tree_of cx.old.trees a, x.now)) (whole_tree Int y.now)) (syllable_tree h.sort (tree_of cx.old.trees a, x.now *ℤ y.now))) }
    ensures grows { Grows cx.old cx.new }
{
    let r = product_of_integers(cx, Sort::Int, x, y)?;
    let q = raised(cx, h, a, r)?;
    multiplied_by(cx, h, a, x, y, q)
}

/// `(a ^ x)⁻¹ = a ^ (-x)`, with numerals.
#[tactic(auto, using(crate::proofs::Homes::powers))]
pub fn opposite(cx: &mut Builder, h: Home, a: ExprId, x: &i128) -> Result<Rewriting, Memory>
    requires home { IsHome cx.old h }
    requires base { Stands cx.old h.sort a (tree_of cx.old.trees a) }
    requires small { InRange x.now }
    ensures turns { IfOk result (λ r. Turns cx.new h.sort r (inverse_tree h.sort (syllable_tree h.sort (tree_of cx.old.trees a, x.now))) (syllable_tree h.sort (tree_of cx.old.trees a, neg_ℤ x.now))) }
    ensures grows { Grows cx.old cx.new }
{
    let i = numeral_of_integer(cx, Sort::Int, x)?;
    let r = negation_of_integer(cx, Sort::Int, x)?;
    let line = line_of(cx, r)?;
    syllable_inv(cx, h.sort, a, i, r.to, line)
}

/// A power by a literal of ℤ is the one by that of ℕ.
#[tactic(auto, using(crate::proofs::Homes::powers))]
pub fn natural_power(cx: &mut Builder, h: Home, a: ExprId, n: u128) -> Result<Rewriting, Memory>
    requires home { IsHome cx.old h }
    requires base { Stands cx.old h.sort a (tree_of cx.old.trees a) }
    requires small { n < 2 ^ 127 }
    ensures turns { IfOk result (λ r. Turns cx.new h.sort r (integer_power_tree h.sort (tree_of cx.old.trees a) (Lit Int n)) (power_tree h.sort (tree_of cx.old.trees a) (Lit Nat n))) }
    ensures grows { Grows cx.old cx.new }
{
    let line = cx.bridge(BridgeKind::Zpow, n, a)?;
    Ok(by_line(cx, line))
}

/// `a ^ 0 = 1`, by 0 of ℤ.
#[tactic(auto, using(crate::proofs::Homes::powers))]
pub fn zero_power(cx: &mut Builder, h: Home, a: ExprId) -> Result<Rewriting, Memory>
    requires home { IsHome cx.old h }
    requires base { Stands cx.old h.sort a (tree_of cx.old.trees a) }
    ensures turns { IfOk result (λ r. Turns cx.new h.sort r (integer_power_tree h.sort (tree_of cx.old.trees a) (Lit Int 0)) (Lit h.sort 1)) }
    ensures grows { Grows cx.old cx.new }
{
    let r = natural_power(cx, h, a, 0)?;
    let q = pow_zero(cx, h.sort, a)?;
    let p = then(cx, r, q)?;
    Ok(p)
}

/// `a ^ 1 = a`, by 1 of ℤ.
#[tactic(auto, using(crate::proofs::Homes::powers))]
pub fn first_power(cx: &mut Builder, h: Home, a: ExprId) -> Result<Rewriting, Memory>
    requires home { IsHome cx.old h }
    requires base { Stands cx.old h.sort a (tree_of cx.old.trees a) }
    ensures turns { IfOk result (λ r. Turns cx.new h.sort r (integer_power_tree h.sort (tree_of cx.old.trees a) (Lit Int 1)) (tree_of cx.old.trees a)) }
    ensures grows { Grows cx.old cx.new }
{
    let r = natural_power(cx, h, a, 1)?;
    let q = pow_one(cx, h.sort, a)?;
    let p = then(cx, r, q)?;
    Ok(p)
}
