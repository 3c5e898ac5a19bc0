//! Products, inverses and quotients of numerals.
ghost use Rattle.std.specs.Prelude.{[], ◌∷◌, IfOk};
ghost use Rattle.alg_terms.specs.Tree.{product_tree};
ghost use Rattle.alg_terms.specs.declared.symbols.Sym.TheVariants.{Div, Inv, Mul};
ghost use Rattle.alg_build.specs.Book.{Grows};
ghost use Rattle.alg_build.specs.Rewriting.{Turns};
ghost use Rattle.alg_rows.specs.Operations.{inverse_tree, quotient_tree};
ghost use Rattle.alg_fractions.specs.NumeralTree.{signed_tree};
ghost use Rattle.alg_arithmetic.specs.Evaluating.{Evaluates};

use alg_build::{Builder, Memory, Rewriting};
use alg_expr::Sort;
use alg_fraction_products::{inverse_of_fraction, product_of_fractions, quotient_of_fractions};
use alg_num::Frac;

/// `p * q = z`
pub(crate) fn product(
    cx: &mut Builder,
    sort: Sort,
    p: Frac,
    q: Frac,
    z: Frac,
) -> Result<Rewriting, Memory>
    requires { Evaluates cx.old Mul sort (p ∷ q ∷ []) z }
    ensures turns { IfOk result (λ r. Turns cx.new sort r (product_tree sort (signed_tree sort p) (signed_tree sort q)) (signed_tree sort z)) }
    ensures grows { Grows cx.old cx.new }
{
    let _positive = (p.den(), q.den());
    product_of_fractions(cx, sort, p, q, z)
}

/// `p⁻¹ = z`
pub(crate) fn inverse(cx: &mut Builder, sort: Sort, p: Frac, z: Frac) -> Result<Rewriting, Memory>
    requires { Evaluates cx.old Inv sort (p ∷ []) z }
    ensures turns { IfOk result (λ r. Turns cx.new sort r (inverse_tree sort (signed_tree sort p)) (signed_tree sort z)) }
    ensures grows { Grows cx.old cx.new }
{
    let _lowest = p.den();
    inverse_of_fraction(cx, sort, p, z)
}

/// `p / q = z`
pub(crate) fn quotient(
    cx: &mut Builder,
    sort: Sort,
    p: Frac,
    q: Frac,
    z: Frac,
) -> Result<Rewriting, Memory>
    requires { Evaluates cx.old Div sort (p ∷ q ∷ []) z }
    ensures turns { IfOk result (λ r. Turns cx.new sort r (quotient_tree sort (signed_tree sort p) (signed_tree sort q)) (signed_tree sort z)) }
    ensures grows { Grows cx.old cx.new }
{
    let _lowest = (p.den(), q.den());
    quotient_of_fractions(cx, sort, p, q, q.inv(), z)
}
