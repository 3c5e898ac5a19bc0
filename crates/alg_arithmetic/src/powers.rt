//! Powers of numerals. Exponents are whole numbers, each in its own sort.
ghost use Rattle.std.specs.Prelude.{[], ◌∷◌, ◌<ℤ◌, ◌≤ℤ◌, pos, IfOk};
ghost use Rattle.alg_terms.specs.declared.sorts.Sort.TheVariants.{Int, Nat};
ghost use Rattle.alg_terms.specs.declared.symbols.Sym.TheVariants.{Npow, Zpow};
ghost use Rattle.alg_build.specs.Book.{Grows};
ghost use Rattle.alg_build.specs.Rewriting.{Turns};
ghost use Rattle.alg_rows.specs.Operations.{integer_power_tree, power_tree};
ghost use Rattle.alg_fractions.specs.NumeralTree.{signed_tree};
ghost use Rattle.alg_arithmetic.specs.Evaluating.{Evaluates};

use crate::whole_numbers::size;
use alg_build::{Builder, Memory, Rewriting};
use alg_expr::Sort;
use alg_fraction_powers::{
    integer_power_of_fraction, negative_power_of_fraction, power_of_fraction,
};
use alg_num::Frac;

/// `p ^ k = z`, with k in ℕ.
pub(crate) fn power(
    cx: &mut Builder,
    sort: Sort,
    p: Frac,
    k: Frac,
    z: Frac,
) -> Result<Rewriting, Memory>
    requires { Evaluates cx.old Npow sort (p ∷ k ∷ []) z }
    ensures turns { IfOk result (λ r. Turns cx.new sort r (power_tree sort (signed_tree sort p) (signed_tree Nat k)) (signed_tree sort z)) }
    ensures grows { Grows cx.old cx.new }
{
    let _positive = p.den();
    power_of_fraction(cx, sort, p, size(k), z)
}

/// `p ^ k = z`, with k in ℤ.
pub(crate) fn integer_power(
    cx: &mut Builder,
    sort: Sort,
    p: Frac,
    k: Frac,
    z: Frac,
) -> Result<Rewriting, Memory>
    requires { Evaluates cx.old Zpow sort (p ∷ k ∷ []) z }
    ensures turns { IfOk result (λ r. Turns cx.new sort r (integer_power_tree sort (signed_tree sort p) (signed_tree Int k)) (signed_tree sort z)) }
    ensures grows { Grows cx.old cx.new }
{
    if k.num() < 0 {
        power_below_zero(cx, sort, p, k, z)
    } else {
        power_from_zero(cx, sort, p, k, z)
    }
}

// k isn't below 0
fn power_from_zero(
    cx: &mut Builder,
    sort: Sort,
    p: Frac,
    k: Frac,
    z: Frac,
) -> Result<Rewriting, Memory>
    requires evaluates { Evaluates cx.old Zpow sort (p ∷ k ∷ []) z }
    requires at_least { pos 0 ≤ℤ k.numerator }
    ensures turns { IfOk result (λ r. Turns cx.new sort r (integer_power_tree sort (signed_tree sort p) (signed_tree Int k)) (signed_tree sort z)) }
    ensures grows { Grows cx.old cx.new }
{
    let _positive = p.den();
    integer_power_of_fraction(cx, sort, p, size(k), z)
}

// k is below 0: the power of the inverse has the numbers of that of p, which is in range therefore
fn power_below_zero(
    cx: &mut Builder,
    sort: Sort,
    p: Frac,
    k: Frac,
    z: Frac,
) -> Result<Rewriting, Memory>
    requires evaluates { Evaluates cx.old Zpow sort (p ∷ k ∷ []) z }
    requires below { k.numerator <ℤ pos 0 }
    ensures turns { IfOk result (λ r. Turns cx.new sort r (integer_power_tree sort (signed_tree sort p) (signed_tree Int k)) (signed_tree sort z)) }
    ensures grows { Grows cx.old cx.new }
{
    let _lowest = p.den();
    let n = size(k);
    match p.pow(n) {
        Some(w) => negative_power_of_fraction(cx, sort, p, n, w, z),
        None => unreachable!(),
    }
}
