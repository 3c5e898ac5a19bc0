ghost use Rattle.std.specs.Prelude.{◌≡◌, ◌<◌, ◌^◌, IfOk};
ghost use Rattle.alg_terms.specs.declared.sorts.Sort.TheVariants.{Int, Nat};
ghost use Rattle.alg_terms.specs.Tree.{Lit};
ghost use Rattle.alg_num.specs.Fraction.{NumbersInRange};
ghost use Rattle.alg_num.specs.Inverse.{IsInverse};
ghost use Rattle.alg_num.specs.LowestTerms.{Reduces};
ghost use Rattle.alg_num.specs.Power.{power_of};
ghost use Rattle.alg_build.specs.Book.{Grows, Proves};
ghost use Rattle.alg_build.specs.Rewriting.{Turns};
ghost use Rattle.alg_rows.specs.Operations.{integer_power_tree, inverse_tree, negation_tree, power_tree};
ghost use Rattle.alg_fractions.specs.Fractions.{HasQuotients};
ghost use Rattle.alg_fractions.specs.NumeralTree.{signed_tree};

use crate::powers::power_of_fraction;
use alg_build::{Builder, Memory, Rewriting, by_line, line_of, then};
use alg_expr::Sort;
use alg_fraction_products::quotients::inverse_line;
use alg_fractions::signed::{signed_size, two_fractions};
use alg_num::Frac;
use alg_numerals::literals::literal;
use alg_proof::BridgeKind;
use alg_rows::powers::zpow_neg_lit0;

/// `x ^ n = z`, where n is of ℤ and isn't below 0.
#[tactic(auto, using(crate::proofs::PowerLemmas::fraction_powers))]
pub fn integer_power_of_fraction(
    cx: &mut Builder,
    sort: Sort,
    x: Frac,
    n: u128,
    z: Frac,
) -> Result<Rewriting, Memory>
    requires quotients { HasQuotients cx.old sort }
    requires exponent { n < 2 ^ 127 }
    requires raises { Reduces (power_of x n) z }
    requires small { NumbersInRange (power_of x n) }
    ensures turns { IfOk result (λ r. Turns cx.new sort r (integer_power_tree sort (signed_tree sort x) (Lit Int n)) (signed_tree sort z)) }
    ensures grows { Grows cx.old cx.new }
{
    let bridged = power_over_naturals(cx, sort, x, n)?;
    let total = power_of_fraction(cx, sort, x, n, z)?;
    let r = then(cx, bridged, total)?;
    Ok(r)
}

// `x ^ n` over ℤ as `x ^ n` over ℕ
#[tactic(auto, using(crate::proofs::PowerLemmas::fraction_powers))]
fn power_over_naturals(cx: &mut Builder, sort: Sort, x: Frac, n: u128) -> Result<Rewriting, Memory>
    requires quotients { HasQuotients cx.old sort }
    requires exponent { n < 2 ^ 127 }
    ensures turns { IfOk result (λ r. Turns cx.new sort r (integer_power_tree sort (signed_tree sort x) (Lit Int n)) (power_tree sort (signed_tree sort x) (Lit Nat n))) }
    ensures grows { Grows cx.old cx.new }
{
    let e = signed_size(cx, sort, x)?;
    let line = cx.bridge(BridgeKind::Zpow, n, e)?;
    Ok(by_line(cx, line))
}

/// `x ^ (-n) = z`, the inverse of `x ^ n = w`.
#[tactic(auto, using(crate::proofs::PowerLemmas::fraction_powers))]
pub fn negative_power_of_fraction(
    cx: &mut Builder,
    sort: Sort,
    x: Frac,
    n: u128,
    w: Frac,
    z: Frac,
) -> Result<Rewriting, Memory>
    requires quotients { HasQuotients cx.old sort }
    requires exponent { n < 2 ^ 127 }
    requires raises { Reduces (power_of x n) w }
    requires small { NumbersInRange (power_of x n) }
    requires inverts { IsInverse w z }
    ensures turns { IfOk result (λ r. Turns cx.new sort r (integer_power_tree sort (signed_tree sort x) (negation_tree Int (Lit Int n))) (signed_tree sort z)) }
    ensures grows { Grows cx.old cx.new }
{
    let power = integer_power_line(cx, sort, x, n, w)?;
    let inverse = inverse_line(cx, sort, w, z)?;
    negative_power_by(cx, sort, x, n, w, z, power, inverse)
}

#[tactic(auto, using(crate::proofs::PowerLemmas::fraction_powers))]
fn integer_power_line(
    cx: &mut Builder,
    sort: Sort,
    x: Frac,
    n: u128,
    w: Frac,
) -> Result<usize, Memory>
    requires quotients { HasQuotients cx.old sort }
    requires exponent { n < 2 ^ 127 }
    requires raises { Reduces (power_of x n) w }
    requires small { NumbersInRange (power_of x n) }
    ensures proves { IfOk result (λ i. Proves cx.new i (integer_power_tree sort (signed_tree sort x) (Lit Int n)) (signed_tree sort w)) }
    ensures grows { Grows cx.old cx.new }
{
    let r = integer_power_of_fraction(cx, sort, x, n, w)?;
    let line = line_of(cx, r)?;
    Ok(line)
}

// the row over two lines
#[tactic(auto, using(crate::proofs::PowerLemmas::fraction_powers))]
fn negative_power_by(
    cx: &mut Builder,
    sort: Sort,
    x: Frac,
    n: u128,
    w: Frac,
    z: Frac,
    power: usize,
    inverse: usize,
) -> Result<Rewriting, Memory>
    requires quotients { HasQuotients cx.old sort }
    requires exponent { n < 2 ^ 127 }
    requires power { Proves cx.old power (integer_power_tree sort (signed_tree sort x) (Lit Int n)) (signed_tree sort w) }
    requires inverse { Proves cx.old inverse (inverse_tree sort (signed_tree sort w)) (signed_tree sort z) }
    ensures turns { IfOk result (λ r. Turns cx.new sort r (integer_power_tree sort (signed_tree sort x) (negation_tree Int (Lit Int n))) (signed_tree sort z)) }
    ensures grows { Grows cx.old cx.new }
{
    let (b, c) = two_fractions(cx, sort, w, z)?;
    let a = signed_size(cx, sort, x)?;
    let exponent = literal(cx, Sort::Int, n)?;
    zpow_neg_lit0(cx, sort, a, b, c, exponent, power, inverse)
}
