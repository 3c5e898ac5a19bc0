ghost use Rattle.std.specs.Prelude.{◌≡◌, ◌≤ℤ◌, ◌<ℤ◌, ◌∷◌, [], IfOk, pos, true};
ghost use Rattle.alg_terms.specs.declared.symbols.Sym.TheVariants.{Abs};
ghost use Rattle.alg_terms.specs.declared.relations.Rel.TheVariants.{Le};
ghost use Rattle.alg_terms.specs.Tree.{Lit, sort_of_tree};
ghost use Rattle.alg_expr.specs.Ids.{tree_of};
ghost use Rattle.alg_law.specs.declared.classes.Class.TheVariants.{IsStrictOrderedRing, Ring};
ghost use Rattle.alg_law.specs.Having.{has_class};
ghost use Rattle.alg_law.specs.Derivations.{related};
ghost use Rattle.alg_lemma.specs.Library.{HoldsLibrary};
ghost use Rattle.alg_build.specs.Book.{Concludes, Grows};
ghost use Rattle.alg_build.specs.Rewriting.{Heads, Turns};
ghost use Rattle.alg_rows.specs.Operations.{negation_tree};
ghost use Rattle.alg_fractions.specs.Fractions.{HasFraction};
ghost use Rattle.alg_fractions.specs.NumeralTree.{signed_tree};
ghost use Rattle.alg_values.specs.Functions.{absolute_of, named_of};
ghost use Rattle.alg_exts.specs.Valuing.{IsOver, IsValued, GivesValue};
ghost use Rattle.alg_order_exts.specs.Order.{absolute_tree};

use crate::operands::{found, operand};
use crate::rows::{abs_neg_lit, abs_of_nonneg};
use alg_build::{Builder, Memory, Rewriting, then, under_one};
use alg_expr::{ExprId, Rel, Sort, Sym};
use alg_exts::{NumExt, NumFault, Valued};
use alg_fraction_sums::relation_of_fractions;
use alg_fractions::numeral_of_fraction;
use alg_num::Frac;

/// `abs`, in a ring with its order.
#[derive(Clone, Copy, Debug)]
pub struct AbsExt;

fn absolute(p: &Frac) -> Frac
    ensures { result ≡ absolute_of p.now }
{
    if p.num() < 0 { p.neg() } else { *p }
}

// `0 ≤ x`
#[tactic(auto, using(crate::proofs::Orders::orders))]
fn at_least_zero(cx: &mut Builder, sort: Sort, x: Frac) -> Result<usize, Memory>
    requires has { HasFraction cx.old sort x }
    requires ordered { has_class cx.old.theory.declarations sort IsStrictOrderedRing ≡ true }
    requires at_least { pos 0 ≤ℤ x.numerator }
    ensures concludes { IfOk result (λ n. Concludes cx.new n (related Le sort (Lit sort 0) (signed_tree sort x))) }
    ensures grows { Grows cx.old cx.new }
{
    let _small = x.num();
    let zero = Frac::whole(0);
    let line = relation_of_fractions(cx, Rel::Le, sort, zero, x)?;
    Ok(line)
}

// `abs x = x`, where x isn't below 0
#[tactic(auto, using(crate::proofs::Orders::orders))]
fn absolute_of_itself(cx: &mut Builder, sort: Sort, x: Frac) -> Result<Rewriting, Memory>
    requires has { HasFraction cx.old sort x }
    requires ring { has_class cx.old.theory.declarations sort Ring ≡ true }
    requires ordered { has_class cx.old.theory.declarations sort IsStrictOrderedRing ≡ true }
    requires at_least { pos 0 ≤ℤ x.numerator }
    ensures turns { IfOk result (λ r. Turns cx.new sort r (absolute_tree sort (signed_tree sort x)) (signed_tree sort x)) }
    ensures grows { Grows cx.old cx.new }
{
    let line = at_least_zero(cx, sort, x)?;
    let a = numeral_of_fraction(cx, sort, x)?;
    let r = abs_of_nonneg(cx, sort, a, line)?;
    Ok(r)
}

// `abs (-y) = y`, where y isn't below 0
#[tactic(auto, using(crate::proofs::Orders::orders))]
fn absolute_of_minus(cx: &mut Builder, sort: Sort, y: Frac) -> Result<Rewriting, Memory>
    requires has { HasFraction cx.old sort y }
    requires ring { has_class cx.old.theory.declarations sort Ring ≡ true }
    requires ordered { has_class cx.old.theory.declarations sort IsStrictOrderedRing ≡ true }
    requires at_least { pos 0 ≤ℤ y.numerator }
    ensures turns { IfOk result (λ r. Turns cx.new sort r (absolute_tree sort (negation_tree sort (signed_tree sort y))) (signed_tree sort y)) }
    ensures grows { Grows cx.old cx.new }
{
    let line = at_least_zero(cx, sort, y)?;
    let a = numeral_of_fraction(cx, sort, y)?;
    let r = abs_neg_lit(cx, sort, a, line)?;
    Ok(r)
}

// `abs x = -x`, where x is below 0
#[tactic(auto, using(crate::proofs::Orders::orders))]
fn absolute_below_zero(cx: &mut Builder, sort: Sort, x: Frac) -> Result<Rewriting, Memory>
    requires has { HasFraction cx.old sort x }
    requires ring { has_class cx.old.theory.declarations sort Ring ≡ true }
    requires ordered { has_class cx.old.theory.declarations sort IsStrictOrderedRing ≡ true }
    requires below { x.numerator <ℤ pos 0 }
    ensures turns { IfOk result (λ r. Turns cx.new sort r (absolute_tree sort (signed_tree sort x)) (signed_tree sort (absolute_of x))) }
    ensures grows { Grows cx.old cx.new }
{
    let y = x.neg();
    let r = absolute_of_minus(cx, sort, y)?;
    Ok(r)
}

// `abs x`, where x is a numeral
#[tactic(auto, using(crate::proofs::Orders::orders))]
fn absolute_of_numeral(cx: &mut Builder, sort: Sort, x: Frac) -> Result<Rewriting, Memory>
    requires has { HasFraction cx.old sort x }
    requires ring { has_class cx.old.theory.declarations sort Ring ≡ true }
    requires ordered { has_class cx.old.theory.declarations sort IsStrictOrderedRing ≡ true }
    ensures turns { IfOk result (λ r. Turns cx.new sort r (absolute_tree sort (signed_tree sort x)) (signed_tree sort (absolute_of x))) }
    ensures grows { Grows cx.old cx.new }
{
    let n = x.num();
    if n < 0 {
        return absolute_below_zero(cx, sort, x);
    }
    let r = absolute_of_itself(cx, sort, x)?;
    Ok(r)
}

// `abs a`, where a is worth a numeral
#[tactic(auto, using(crate::proofs::Orders::orders))]
fn absolute_of_part(cx: &mut Builder, sort: Sort, a: &Valued) -> Result<Rewriting, Memory>
    requires valued { IsValued cx.old a.now }
    requires sort { sort_of_tree (tree_of cx.old.trees a.now.expr) ≡ sort }
    requires heads { Heads cx.old Abs sort (sort ∷ []) }
    requires ring { has_class cx.old.theory.declarations sort Ring ≡ true }
    requires ordered { has_class cx.old.theory.declarations sort IsStrictOrderedRing ≡ true }
    requires library { HoldsLibrary cx.old.theory.lemmas }
    ensures turns { IfOk result (λ r. Turns cx.new sort r (absolute_tree sort (tree_of cx.old.trees a.now.expr)) (signed_tree sort (absolute_of a.now.value))) }
    ensures has { IfOk result (λ r. HasFraction cx.new sort (absolute_of a.now.value)) }
    ensures grows { Grows cx.old cx.new }
{
    let x = operand(cx, sort, a)?;
    let r = under_one(cx, Sym::Abs, sort, x)?;
    let s = absolute_of_numeral(cx, sort, a.value)?;
    let q = then(cx, r, s)?;
    Ok(q)
}

// the value of `abs a`
#[tactic(auto, using(crate::proofs::Orders::orders))]
fn absolute_value(
    cx: &mut Builder,
    e: ExprId,
    sort: Sort,
    a: &Valued,
) -> Result<Option<Valued>, NumFault>
    requires over { IsOver cx.old e Abs sort (a.now ∷ []) }
    requires library { HoldsLibrary cx.old.theory.lemmas }
    ensures gives { GivesValue cx.new e result (named_of (has_class cx.old.theory.declarations) Abs sort (a.now.value ∷ [])) }
    ensures grows { Grows cx.old cx.new }
{
    let r = absolute_of_part(cx, sort, a)?;
    let value = absolute(&a.value);
    found(cx, e, sort, r, value)
}

impl NumExt for AbsExt {
    ghost use Rattle.std.specs.Prelude.{codes};
    ghost use Rattle.alg_order_exts.specs.Order.{is_absolute};

    ghost title = { λ _. codes "abs" };

    ghost covered = { λ _ f. is_absolute f };

    fn name(&self) -> &str {
        "abs"
    }

    fn covers(&self, sym: Sym) -> bool {
        matches!(sym, Sym::Abs)
    }

    #[tactic(auto, using(crate::proofs::Orders::orders))]
    fn eval(
        &self,
        cx: &mut Builder,
        e: ExprId,
        args: &[Valued],
    ) -> Result<Option<Valued>, NumFault> {
        let sort = cx.arena().sort_of(e);
        match args {
            [a] => absolute_value(cx, e, sort, a),
            _ => unreachable!(),
        }
    }
}
