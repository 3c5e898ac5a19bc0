//! Sums, differences and negations of numerals.
ghost use Rattle.std.specs.Prelude.{[], ◌∷◌, IfOk};
ghost use Rattle.alg_terms.specs.Tree.{sum_tree};
ghost use Rattle.alg_terms.specs.declared.symbols.Sym.TheVariants.{Add, Neg, Sub};
ghost use Rattle.alg_build.specs.Book.{Grows};
ghost use Rattle.alg_build.specs.Rewriting.{Turns};
ghost use Rattle.alg_rows.specs.Operations.{difference_tree, negation_tree};
ghost use Rattle.alg_fractions.specs.NumeralTree.{signed_tree};
ghost use Rattle.alg_arithmetic.specs.Evaluating.{Evaluates};

use alg_build::{Builder, Memory, Rewriting};
use alg_expr::Sort;
use alg_fraction_sums::{difference_of_fractions, sum_of_fractions};
use alg_fractions::negation_of_fraction;
use alg_num::Frac;

/// `p + q = z`
pub(crate) fn sum(
    cx: &mut Builder,
    sort: Sort,
    p: Frac,
    q: Frac,
    z: Frac,
) -> Result<Rewriting, Memory>
    requires { Evaluates cx.old Add sort (p ∷ q ∷ []) z }
    ensures turns { IfOk result (λ r. Turns cx.new sort r (sum_tree sort (signed_tree sort p) (signed_tree sort q)) (signed_tree sort z)) }
    ensures grows { Grows cx.old cx.new }
{
    let _positive = (p.den(), q.den());
    sum_of_fractions(cx, sort, p, q, z)
}

/// `p - q = z`
pub(crate) fn difference(
    cx: &mut Builder,
    sort: Sort,
    p: Frac,
    q: Frac,
    z: Frac,
) -> Result<Rewriting, Memory>
    requires { Evaluates cx.old Sub sort (p ∷ q ∷ []) z }
    ensures turns { IfOk result (λ r. Turns cx.new sort r (difference_tree sort (signed_tree sort p) (signed_tree sort q)) (signed_tree sort z)) }
    ensures grows { Grows cx.old cx.new }
{
    let _positive = (p.den(), q.den());
    difference_of_fractions(cx, sort, p, q, z)
}

/// `-p = z`
pub(crate) fn negation(cx: &mut Builder, sort: Sort, p: Frac, _z: Frac) -> Result<Rewriting, Memory>
    requires { Evaluates cx.old Neg sort (p ∷ []) _z }
    ensures turns { IfOk result (λ r. Turns cx.new sort r (negation_tree sort (signed_tree sort p)) (signed_tree sort _z)) }
    ensures grows { Grows cx.old cx.new }
{
    negation_of_fraction(cx, sort, p)
}
