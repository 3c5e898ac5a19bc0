ghost use Rattle.std.specs.Prelude.{◌≡◌, ◌<◌, ◌^◌, IfOk};
ghost use Rattle.alg_terms.specs.Tree.{product_tree};
ghost use Rattle.alg_num.specs.Inverse.{IsInverse};
ghost use Rattle.alg_num.specs.LowestTerms.{Reduces};
ghost use Rattle.alg_num.specs.Product.{product_of};
ghost use Rattle.alg_build.specs.Book.{Grows, Proves};
ghost use Rattle.alg_build.specs.Rewriting.{Turns};
ghost use Rattle.alg_rows.specs.Operations.{inverse_tree, quotient_tree};
ghost use Rattle.alg_fractions.specs.Fractions.{HasQuotients};
ghost use Rattle.alg_fractions.specs.NumeralTree.{signed_tree};

use crate::inverses::inverse_of_fraction;
use crate::signed_products::product_of_fractions;
use alg_build::{Builder, Memory, Rewriting, line_of};
use alg_expr::Sort;
use alg_fractions::signed::two_fractions;
use alg_num::Frac;
use alg_rows::quotients::div_of_inv;

/// `x / y = z`, by the inverse w of y. What is divided by 0 is 0.
#[tactic(auto, using(alg_fractions::proofs::FractionLemmas::fractions))]
pub fn quotient_of_fractions(
    cx: &mut Builder,
    sort: Sort,
    x: Frac,
    y: Frac,
    w: Frac,
    z: Frac,
) -> Result<Rewriting, Memory>
    requires quotients { HasQuotients cx.old sort }
    requires inverts { IsInverse y w }
    requires multiplies { Reduces (product_of x w) z }
    ensures turns { IfOk result (λ r. Turns cx.new sort r (quotient_tree sort (signed_tree sort x) (signed_tree sort y)) (signed_tree sort z)) }
    ensures grows { Grows cx.old cx.new }
{
    let inverse = inverse_line(cx, sort, y, w)?;
    let product = product_line(cx, sort, x, w, z)?;
    quotient_by(cx, sort, x, y, w, z, inverse, product)
}

/// The line for `y⁻¹ = w`.
#[tactic(auto, using(alg_fractions::proofs::FractionLemmas::fractions))]
pub fn inverse_line(cx: &mut Builder, sort: Sort, y: Frac, w: Frac) -> Result<usize, Memory>
    requires quotients { HasQuotients cx.old sort }
    requires inverts { IsInverse y w }
    ensures proves { IfOk result (λ i. Proves cx.new i (inverse_tree sort (signed_tree sort y)) (signed_tree sort w)) }
    ensures grows { Grows cx.old cx.new }
{
    let r = inverse_of_fraction(cx, sort, y, w)?;
    let line = line_of(cx, r)?;
    Ok(line)
}

#[tactic(auto, using(alg_fractions::proofs::FractionLemmas::fractions))]
fn product_line(cx: &mut Builder, sort: Sort, x: Frac, w: Frac, z: Frac) -> Result<usize, Memory>
    requires quotients { HasQuotients cx.old sort }
    requires multiplies { Reduces (product_of x w) z }
    ensures proves { IfOk result (λ i. Proves cx.new i (product_tree sort (signed_tree sort x) (signed_tree sort w)) (signed_tree sort z)) }
    ensures grows { Grows cx.old cx.new }
{
    let r = product_of_fractions(cx, sort, x, w, z)?;
    let line = line_of(cx, r)?;
    Ok(line)
}

// the row over two lines
#[tactic(auto, using(alg_fractions::proofs::FractionLemmas::fractions))]
fn quotient_by(
    cx: &mut Builder,
    sort: Sort,
    x: Frac,
    y: Frac,
    w: Frac,
    z: Frac,
    inverse: usize,
    product: usize,
) -> Result<Rewriting, Memory>
    requires quotients { HasQuotients cx.old sort }
    requires inverts { Proves cx.old inverse (inverse_tree sort (signed_tree sort y)) (signed_tree sort w) }
    requires multiplies { Proves cx.old product (product_tree sort (signed_tree sort x) (signed_tree sort w)) (signed_tree sort z) }
    ensures turns { IfOk result (λ r. Turns cx.new sort r (quotient_tree sort (signed_tree sort x) (signed_tree sort y)) (signed_tree sort z)) }
    ensures grows { Grows cx.old cx.new }
{
    let (a, b) = two_fractions(cx, sort, x, y)?;
    let (c, d) = two_fractions(cx, sort, z, w)?;
    div_of_inv(cx, sort, a, b, c, d, inverse, product)
}
