ghost use Rattle.std.specs.Prelude.{◌≡◌, ◌∷◌, [], IfOk, true, false};
ghost use Rattle.alg_terms.specs.declared.relations.Rel.TheVariants.{Le};
ghost use Rattle.alg_expr.specs.Ids.{tree_of};
ghost use Rattle.alg_num.specs.Order.{CrossProductsInRange};
ghost use Rattle.alg_law.specs.declared.classes.Class.TheVariants.{IsStrictOrderedRing, LinearOrder};
ghost use Rattle.alg_law.specs.Having.{has_class};
ghost use Rattle.alg_lemma.specs.Library.{HoldsLibrary};
ghost use Rattle.alg_build.specs.Book.{Grows};
ghost use Rattle.alg_build.specs.Rewriting.{Turns, over};
ghost use Rattle.alg_numerals.specs.Comparing.{Compares};
ghost use Rattle.alg_fractions.specs.Fractions.{HasFraction};
ghost use Rattle.alg_fractions.specs.NumeralTree.{signed_tree};
ghost use Rattle.alg_values.specs.Functions.{is_at_most, named_of};
ghost use Rattle.alg_values.specs.declared.value.Value.TheVariants.{Num};
ghost use Rattle.alg_exts.specs.Valuing.{IsOver, GivesValue};
ghost use Rattle.alg_order_exts.specs.Order.{extreme_of, is_extreme, IsPair};

use crate::operands::{found, operand};
use crate::rows::{max_eq_left, max_eq_right, min_eq_left, min_eq_right};
use alg_build::{Builder, Memory, Rewriting, then, under_two};
use alg_expr::{ExprId, Rel, Sort, Sym};
use alg_exts::{NumExt, NumFault, Valued};
use alg_fraction_sums::relation_of_fractions;
use alg_fractions::numeral_of_fraction;
use alg_law::{Class, has};
use alg_normext::{Head, head_of};
use alg_num::Frac;
use alg_numerals::relations::Compared;

/// `min` and `max`, in a semiring with its order.
#[derive(Clone, Copy, Debug)]
pub struct MinMaxExt;

// the numerals x and y, and a line for `x ≤ y`
#[tactic(auto, using(crate::proofs::Orders::orders))]
fn compared(cx: &mut Builder, sort: Sort, x: Frac, y: Frac) -> Result<Compared, Memory>
    requires first { HasFraction cx.old sort x }
    requires second { HasFraction cx.old sort y }
    requires ordered { has_class cx.old.theory.declarations sort IsStrictOrderedRing ≡ true }
    requires at_most { is_at_most x y ≡ true }
    requires small { CrossProductsInRange x y }
    ensures compares { IfOk result (λ q. Compares cx.new Le sort q (signed_tree sort x) (signed_tree sort y)) }
    ensures grows { Grows cx.old cx.new }
{
    let line = relation_of_fractions(cx, Rel::Le, sort, x, y)?;
    let first = numeral_of_fraction(cx, sort, x)?;
    let second = numeral_of_fraction(cx, sort, y)?;
    Ok(Compared {
        first,
        second,
        line,
    })
}

// the smaller or the greater of the numerals x and y, where `x ≤ y`
#[tactic(auto, using(crate::proofs::Orders::orders))]
fn where_at_most(cx: &mut Builder, head: Head, x: Frac, y: Frac) -> Result<Rewriting, Memory>
    requires extreme { is_extreme head.sym ≡ true }
    requires first { HasFraction cx.old head.sort x }
    requires second { HasFraction cx.old head.sort y }
    requires ordered { has_class cx.old.theory.declarations head.sort IsStrictOrderedRing ≡ true }
    requires linear_order { has_class cx.old.theory.declarations head.sort LinearOrder ≡ true }
    requires at_most { is_at_most x y ≡ true }
    requires small { CrossProductsInRange x y }
    ensures turns { IfOk result (λ r. Turns cx.new head.sort r (over head.sym head.sort (signed_tree head.sort x) (signed_tree head.sort y)) (signed_tree head.sort (extreme_of head.sym true x y))) }
    ensures grows { Grows cx.old cx.new }
{
    let q = compared(cx, head.sort, x, y)?;
    match head.sym {
        Sym::Min => min_eq_left(cx, head.sort, q.first, q.second, q.line),
        Sym::Max => max_eq_right(cx, head.sort, q.first, q.second, q.line),
        _ => unreachable!(),
    }
}

// the same, where `y ≤ x`
#[tactic(auto, using(crate::proofs::Orders::orders))]
fn where_above(cx: &mut Builder, head: Head, x: Frac, y: Frac) -> Result<Rewriting, Memory>
    requires extreme { is_extreme head.sym ≡ true }
    requires first { HasFraction cx.old head.sort x }
    requires second { HasFraction cx.old head.sort y }
    requires ordered { has_class cx.old.theory.declarations head.sort IsStrictOrderedRing ≡ true }
    requires linear_order { has_class cx.old.theory.declarations head.sort LinearOrder ≡ true }
    requires at_most { is_at_most y x ≡ true }
    requires small { CrossProductsInRange y x }
    ensures turns { IfOk result (λ r. Turns cx.new head.sort r (over head.sym head.sort (signed_tree head.sort x) (signed_tree head.sort y)) (signed_tree head.sort (extreme_of head.sym false x y))) }
    ensures grows { Grows cx.old cx.new }
{
    let q = compared(cx, head.sort, y, x)?;
    match head.sym {
        Sym::Min => min_eq_right(cx, head.sort, q.second, q.first, q.line),
        Sym::Max => max_eq_left(cx, head.sort, q.second, q.first, q.line),
        _ => unreachable!(),
    }
}

#[tactic(auto, using(crate::proofs::Orders::orders))]
fn of_numerals(
    cx: &mut Builder,
    head: Head,
    x: Frac,
    y: Frac,
    at_most: bool,
) -> Result<Rewriting, Memory>
    requires extreme { is_extreme head.sym ≡ true }
    requires first { HasFraction cx.old head.sort x }
    requires second { HasFraction cx.old head.sort y }
    requires ordered { has_class cx.old.theory.declarations head.sort IsStrictOrderedRing ≡ true }
    requires linear_order { has_class cx.old.theory.declarations head.sort LinearOrder ≡ true }
    requires at_most { at_most ≡ is_at_most x y }
    requires small { CrossProductsInRange x y }
    ensures turns { IfOk result (λ r. Turns cx.new head.sort r (over head.sym head.sort (signed_tree head.sort x) (signed_tree head.sort y)) (signed_tree head.sort (extreme_of head.sym at_most x y))) }
    ensures grows { Grows cx.old cx.new }
{
    if at_most {
        where_at_most(cx, head, x, y)
    } else {
        where_above(cx, head, x, y)
    }
}

// `f(a, b) = f(x, y)`, where a and b are worth the numerals x and y
#[tactic(auto, using(crate::proofs::Orders::orders))]
fn of_parts(cx: &mut Builder, head: Head, a: &Valued, b: &Valued) -> Result<Rewriting, Memory>
    requires pair { IsPair cx.old head a.now b.now }
    ensures turns { IfOk result (λ r. Turns cx.new head.sort r (over head.sym head.sort (tree_of cx.old.trees a.now.expr) (tree_of cx.old.trees b.now.expr)) (over head.sym head.sort (signed_tree head.sort a.now.value) (signed_tree head.sort b.now.value))) }
    ensures first { IfOk result (λ r. HasFraction cx.new head.sort a.now.value) }
    ensures second { IfOk result (λ r. HasFraction cx.new head.sort b.now.value) }
    ensures grows { Grows cx.old cx.new }
{
    let x = operand(cx, head.sort, a)?;
    let y = operand(cx, head.sort, b)?;
    let r = under_two(cx, head.sym, head.sort, x, y)?;
    Ok(r)
}

// the smaller or the greater part
#[tactic(auto, using(crate::proofs::Orders::orders))]
fn extreme_part(
    cx: &mut Builder,
    head: Head,
    a: &Valued,
    b: &Valued,
    at_most: bool,
) -> Result<Rewriting, Memory>
    requires pair { IsPair cx.old head a.now b.now }
    requires at_most { at_most ≡ is_at_most a.now.value b.now.value }
    requires small { CrossProductsInRange a.now.value b.now.value }
    ensures turns { IfOk result (λ r. Turns cx.new head.sort r (over head.sym head.sort (tree_of cx.old.trees a.now.expr) (tree_of cx.old.trees b.now.expr)) (signed_tree head.sort (extreme_of head.sym at_most a.now.value b.now.value))) }
    ensures has { IfOk result (λ r. HasFraction cx.new head.sort (extreme_of head.sym at_most a.now.value b.now.value)) }
    ensures grows { Grows cx.old cx.new }
{
    let r = of_parts(cx, head, a, b)?;
    let s = of_numerals(cx, head, a.value, b.value, at_most)?;
    let q = then(cx, r, s)?;
    Ok(q)
}

fn extreme(sym: Sym, at_most: bool, x: &Frac, y: &Frac) -> Frac
    ensures { result ≡ extreme_of sym at_most x.now y.now }
{
    match sym {
        Sym::Max => { if at_most { *y } else { *x } }
        _ => { if at_most { *x } else { *y } }
    }
}

// the smaller or the greater part, as a value
#[tactic(auto, using(crate::proofs::Orders::orders))]
fn with_line(
    cx: &mut Builder,
    e: ExprId,
    head: Head,
    a: &Valued,
    b: &Valued,
    at_most: bool,
) -> Result<Option<Valued>, NumFault>
    requires over { IsOver cx.old e head.sym head.sort (a.now ∷ b.now ∷ []) }
    requires pair { IsPair cx.old head a.now b.now }
    requires at_most { at_most ≡ is_at_most a.now.value b.now.value }
    requires small { CrossProductsInRange a.now.value b.now.value }
    ensures gives { GivesValue cx.new e result (Num (extreme_of head.sym at_most a.now.value b.now.value)) }
    ensures grows { Grows cx.old cx.new }
{
    let r = extreme_part(cx, head, a, b, at_most)?;
    let value = extreme(head.sym, at_most, &a.value, &b.value);
    found(cx, e, head.sort, r, value)
}

// the value, where the sort has an order as a ring has
#[tactic(auto, using(crate::proofs::Orders::orders))]
fn in_order(
    cx: &mut Builder,
    e: ExprId,
    head: Head,
    a: &Valued,
    b: &Valued,
) -> Result<Option<Valued>, NumFault>
    requires over { IsOver cx.old e head.sym head.sort (a.now ∷ b.now ∷ []) }
    requires extreme { is_extreme head.sym ≡ true }
    requires ordered { has_class cx.old.theory.declarations head.sort IsStrictOrderedRing ≡ true }
    requires library { HoldsLibrary cx.old.theory.lemmas }
    ensures gives { GivesValue cx.new e result (named_of (has_class cx.old.theory.declarations) head.sym head.sort (a.now.value ∷ b.now.value ∷ [])) }
    ensures grows { Grows cx.old cx.new }
{
    match a.value.cmp(&b.value) {
        Some(order) => with_line(cx, e, head, a, b, order.is_le()),
        None => Err(NumFault::Range),
    }
}

// the value of `min a b` or `max a b`
#[tactic(auto, using(crate::proofs::Orders::orders))]
fn extreme_value(
    cx: &mut Builder,
    e: ExprId,
    head: Head,
    a: &Valued,
    b: &Valued,
) -> Result<Option<Valued>, NumFault>
    requires over { IsOver cx.old e head.sym head.sort (a.now ∷ b.now ∷ []) }
    requires extreme { is_extreme head.sym ≡ true }
    requires library { HoldsLibrary cx.old.theory.lemmas }
    ensures gives { GivesValue cx.new e result (named_of (has_class cx.old.theory.declarations) head.sym head.sort (a.now.value ∷ b.now.value ∷ [])) }
    ensures grows { Grows cx.old cx.new }
{
    if has(cx.base(), head.sort, Class::IsStrictOrderedRing) {
        in_order(cx, e, head, a, b)
    } else {
        Ok(None)
    }
}

impl NumExt for MinMaxExt {
    ghost use Rattle.std.specs.Prelude.{codes};
    ghost use Rattle.alg_order_exts.specs.Order.{is_extreme};

    ghost title = { λ _. codes "minmax" };

    ghost covered = { λ _ f. is_extreme f };

    fn name(&self) -> &str {
        "minmax"
    }

    fn covers(&self, sym: Sym) -> bool {
        matches!(sym, Sym::Min | Sym::Max)
    }

    #[tactic(auto, using(crate::proofs::Orders::orders))]
    fn eval(
        &self,
        cx: &mut Builder,
        e: ExprId,
        args: &[Valued],
    ) -> Result<Option<Valued>, NumFault> {
        let head = head_of(cx, e);
        match args {
            [a, b] => extreme_value(cx, e, head, a, b),
            _ => unreachable!(),
        }
    }
}
