//! Multiples of numerals. Factors are whole numbers, each in its own sort.
ghost use Rattle.std.specs.Prelude.{[], ◌∷◌, ◌<ℤ◌, ◌≤ℤ◌, pos, IfOk};
ghost use Rattle.alg_terms.specs.declared.sorts.Sort.TheVariants.{Int, Nat};
ghost use Rattle.alg_terms.specs.declared.symbols.Sym.TheVariants.{Nsmul, Zsmul};
ghost use Rattle.alg_build.specs.Book.{Grows};
ghost use Rattle.alg_build.specs.Rewriting.{Turns};
ghost use Rattle.alg_rows.specs.Operations.{integer_multiple_tree, multiple_tree};
ghost use Rattle.alg_fractions.specs.NumeralTree.{signed_tree};
ghost use Rattle.alg_arithmetic.specs.Evaluating.{Evaluates};

use crate::whole_numbers::size;
use alg_build::{Builder, Memory, Rewriting};
use alg_expr::Sort;
use alg_fraction_products::{
    integer_multiple_of_fraction, multiple_of_fraction, negative_multiple_of_fraction,
};
use alg_num::Frac;

/// `k • p = z`, with k in ℕ.
pub(crate) fn multiple(
    cx: &mut Builder,
    sort: Sort,
    k: Frac,
    p: Frac,
    z: Frac,
) -> Result<Rewriting, Memory>
    requires { Evaluates cx.old Nsmul sort (k ∷ p ∷ []) z }
    ensures turns { IfOk result (λ r. Turns cx.new sort r (multiple_tree sort (signed_tree Nat k) (signed_tree sort p)) (signed_tree sort z)) }
    ensures grows { Grows cx.old cx.new }
{
    let _positive = (k.den(), p.den());
    multiple_of_fraction(cx, sort, size(k), p, z)
}

/// `k • p = z`, with k in ℤ.
pub(crate) fn integer_multiple(
    cx: &mut Builder,
    sort: Sort,
    k: Frac,
    p: Frac,
    z: Frac,
) -> Result<Rewriting, Memory>
    requires { Evaluates cx.old Zsmul sort (k ∷ p ∷ []) z }
    ensures turns { IfOk result (λ r. Turns cx.new sort r (integer_multiple_tree sort (signed_tree Int k) (signed_tree sort p)) (signed_tree sort z)) }
    ensures grows { Grows cx.old cx.new }
{
    if k.num() < 0 {
        multiple_below_zero(cx, sort, k, p, z)
    } else {
        multiple_from_zero(cx, sort, k, p, z)
    }
}

// k isn't below 0
fn multiple_from_zero(
    cx: &mut Builder,
    sort: Sort,
    k: Frac,
    p: Frac,
    z: Frac,
) -> Result<Rewriting, Memory>
    requires evaluates { Evaluates cx.old Zsmul sort (k ∷ p ∷ []) z }
    requires at_least { pos 0 ≤ℤ k.numerator }
    ensures turns { IfOk result (λ r. Turns cx.new sort r (integer_multiple_tree sort (signed_tree Int k) (signed_tree sort p)) (signed_tree sort z)) }
    ensures grows { Grows cx.old cx.new }
{
    let _positive = (k.den(), p.den());
    integer_multiple_of_fraction(cx, sort, size(k), p, z)
}

// k is below 0: the negation of the multiple by its size
fn multiple_below_zero(
    cx: &mut Builder,
    sort: Sort,
    k: Frac,
    p: Frac,
    z: Frac,
) -> Result<Rewriting, Memory>
    requires evaluates { Evaluates cx.old Zsmul sort (k ∷ p ∷ []) z }
    requires below { k.numerator <ℤ pos 0 }
    ensures turns { IfOk result (λ r. Turns cx.new sort r (integer_multiple_tree sort (signed_tree Int k) (signed_tree sort p)) (signed_tree sort z)) }
    ensures grows { Grows cx.old cx.new }
{
    let _positive = (k.den(), p.den());
    negative_multiple_of_fraction(cx, sort, size(k), p, z.neg())
}
