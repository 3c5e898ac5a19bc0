ghost use Rattle.std.specs.Prelude.{◌≡◌, ◌<◌, ◌≢◌, ◌^◌, pos, IfOk};
ghost use Rattle.std.specs.Int.{int_pow};
ghost use Rattle.alg_terms.specs.declared.sorts.Sort.TheVariants.{Nat};
ghost use Rattle.alg_terms.specs.Tree.{Lit, Tree};
ghost use Rattle.alg_num.specs.Fraction.{NumbersInRange};
ghost use Rattle.alg_num.specs.LowestTerms.{IsInLowestTerms, Reduces};
ghost use Rattle.alg_num.specs.Power.{power_of};
ghost use Rattle.alg_num.specs.Range.{InRange};
ghost use Rattle.alg_build.specs.Book.{Grows, Proves};
ghost use Rattle.alg_build.specs.Rewriting.{Stands, Turns, TurnsIn};
ghost use Rattle.alg_rows.specs.Operations.{power_tree, quotient_tree};
ghost use Rattle.alg_numerals.specs.WholeTree.{whole_tree};
ghost use Rattle.alg_fractions.specs.Fractions.{HasFraction, HasQuotients};
ghost use Rattle.alg_fractions.specs.NumeralTree.{numeral_tree, signed_tree};

use alg_build::{Builder, Memory, Rewriting, keep, line_of, then, under_two};
use alg_expr::{ExprId, Rel, Sort, Sym};
use alg_fractions::signed::signed_size;
use alg_fractions::{hidden, shown};
use alg_num::Frac;
use alg_numerals::literals::{literal, two_literals};
use alg_numerals::numeral_of_integer;
use alg_numerals::relations::relation_of_literals;
use alg_powers::power_of_integer;
use alg_rows::powers::{div_pow, pow_zero};

/// `x ^ n = z`
#[tactic(auto, using(crate::proofs::PowerLemmas::fraction_powers))]
pub fn power_of_fraction(
    cx: &mut Builder,
    sort: Sort,
    x: Frac,
    n: u128,
    z: Frac,
) -> Result<Rewriting, Memory>
    requires first { HasFraction cx.old sort x }
    requires exponent { n < 2 ^ 127 }
    requires raises { Reduces (power_of x n) z }
    requires small { NumbersInRange (power_of x n) }
    ensures turns { IfOk result (λ r. Turns cx.new sort r (power_tree sort (signed_tree sort x) (Lit Nat n)) (signed_tree sort z)) }
    ensures grows { Grows cx.old cx.new }
{
    let m = x.num();
    if x.den() == 1 {
        power_of_integer(cx, sort, &m, n)
    } else if n == 0 {
        power_zero(cx, sort, x, z)
    } else {
        power_over(cx, sort, x, n, z)
    }
}

// `x ^ 0 = 1`
#[tactic(auto, using(crate::proofs::PowerLemmas::fraction_powers))]
fn power_zero(cx: &mut Builder, sort: Sort, x: Frac, _z: Frac) -> Result<Rewriting, Memory>
    requires quotients { HasQuotients cx.old sort }
    requires lowest { IsInLowestTerms x }
    requires raises { Reduces (power_of x 0) _z }
    ensures turns { IfOk result (λ r. Turns cx.new sort r (power_tree sort (signed_tree sort x) (Lit Nat 0)) (signed_tree sort _z)) }
    ensures grows { Grows cx.old cx.new }
{
    let e = signed_size(cx, sort, x)?;
    pow_zero(cx, sort, e)
}

// where x isn't whole: with the sign inside, and then back
#[tactic(auto, using(crate::proofs::PowerLemmas::fraction_powers))]
fn power_over(cx: &mut Builder, sort: Sort, x: Frac, n: u128, z: Frac) -> Result<Rewriting, Memory>
    requires quotients { HasQuotients cx.old sort }
    requires over { x.denominator ≢ 1 }
    requires above { 0 < n }
    requires exponent { n < 2 ^ 127 }
    requires raises { Reduces (power_of x n) z }
    ensures turns { IfOk result (λ r. Turns cx.new sort r (power_tree sort (signed_tree sort x) (Lit Nat n)) (signed_tree sort z)) }
    ensures grows { Grows cx.old cx.new }
{
    let base = base_shown(cx, sort, x, n)?;
    let power = power_hidden(cx, sort, x, n, z)?;
    let r = then(cx, base, power)?;
    Ok(r)
}

// `x ^ n` with the sign of x inside
#[tactic(auto, using(crate::proofs::PowerLemmas::fraction_powers))]
fn base_shown(cx: &mut Builder, sort: Sort, x: Frac, n: u128) -> Result<Rewriting, Memory>
    requires quotients { HasQuotients cx.old sort }
    requires exponent { n < 2 ^ 127 }
    ensures turns { IfOk result (λ r. Turns cx.new sort r (power_tree sort (signed_tree sort x) (Lit Nat n)) (power_tree sort (numeral_tree sort x) (Lit Nat n))) }
    ensures grows { Grows cx.old cx.new }
{
    let base = shown(cx, sort, x)?;
    let e = literal(cx, Sort::Nat, n)?;
    let exponent = keep(cx, e);
    let r = under_two(cx, Sym::Npow, sort, base, exponent)?;
    Ok(r)
}

// from the power with the sign of x inside
#[tactic(auto, using(crate::proofs::PowerLemmas::fraction_powers))]
fn power_hidden(
    cx: &mut Builder,
    sort: Sort,
    x: Frac,
    n: u128,
    z: Frac,
) -> Result<Rewriting, Memory>
    requires quotients { HasQuotients cx.old sort }
    requires over { x.denominator ≢ 1 }
    requires above { 0 < n }
    requires exponent { n < 2 ^ 127 }
    requires raises { Reduces (power_of x n) z }
    ensures turns { IfOk result (λ r. Turns cx.new sort r (power_tree sort (numeral_tree sort x) (Lit Nat n)) (signed_tree sort z)) }
    ensures grows { Grows cx.old cx.new }
{
    let power = power_inside(cx, sort, x, n, z)?;
    let sign = hidden(cx, sort, z)?;
    let r = then(cx, power, sign)?;
    Ok(r)
}

// numerator and denominator apart
#[tactic(auto, using(crate::proofs::PowerLemmas::fraction_powers))]
fn power_inside(
    cx: &mut Builder,
    sort: Sort,
    x: Frac,
    n: u128,
    z: Frac,
) -> Result<Rewriting, Memory>
    requires quotients { HasQuotients cx.old sort }
    requires over { x.denominator ≢ 1 }
    requires above { 0 < n }
    requires exponent { n < 2 ^ 127 }
    requires raises { Reduces (power_of x n) z }
    ensures turns { IfOk result (λ r. Turns cx.new sort r (power_tree sort (numeral_tree sort x) (Lit Nat n)) (numeral_tree sort z)) }
    ensures grows { Grows cx.old cx.new }
{
    let m = x.num();
    let p = z.num();
    quotient_power(cx, sort, &m, x.den(), n, &p, z.den())
}

// `(m / d) ^ n = p / q`, where p is the power of m and q that of d
#[tactic(auto, using(crate::proofs::PowerLemmas::fraction_powers))]
fn quotient_power(
    cx: &mut Builder,
    sort: Sort,
    m: &i128,
    d: u128,
    n: u128,
    p: &i128,
    q: u128,
) -> Result<Rewriting, Memory>
    requires quotients { HasQuotients cx.old sort }
    requires above { 0 < d }
    requires small { InRange m.now }
    requires over_small { d < 2 ^ 127 }
    requires exponent { n < 2 ^ 127 }
    requires top { p.now ≡ int_pow m.now n }
    requires bottom { q ≡ d ^ n }
    requires top_small { InRange p.now }
    requires bottom_small { q < 2 ^ 127 }
    ensures turns { IfOk result (λ r. Turns cx.new sort r (power_tree sort (quotient_tree sort (whole_tree sort m.now) (Lit sort d)) (Lit Nat n)) (quotient_tree sort (whole_tree sort p.now) (Lit sort q))) }
    ensures grows { Grows cx.old cx.new }
{
    let top = power_line(cx, sort, m, n, p)?;
    let bottom = literal_power_line(cx, sort, d, n, q)?;
    quotient_power_by(cx, sort, m, d, n, p, q, top, bottom)
}

// the row over two lines
#[tactic(auto, using(crate::proofs::PowerLemmas::fraction_powers))]
fn quotient_power_by(
    cx: &mut Builder,
    sort: Sort,
    m: &i128,
    d: u128,
    n: u128,
    p: &i128,
    q: u128,
    top: usize,
    bottom: usize,
) -> Result<Rewriting, Memory>
    requires quotients { HasQuotients cx.old sort }
    requires above { 0 < d }
    requires small { InRange m.now }
    requires over_small { d < 2 ^ 127 }
    requires exponent { n < 2 ^ 127 }
    requires top_small { InRange p.now }
    requires bottom_small { q < 2 ^ 127 }
    requires top { Proves cx.old top (power_tree sort (whole_tree sort m.now) (Lit Nat n)) (whole_tree sort p.now) }
    requires bottom { Proves cx.old bottom (power_tree sort (Lit sort d) (Lit Nat n)) (Lit sort q) }
    ensures turns { IfOk result (λ r. Turns cx.new sort r (power_tree sort (quotient_tree sort (whole_tree sort m.now) (Lit sort d)) (Lit Nat n)) (quotient_tree sort (whole_tree sort p.now) (Lit sort q))) }
    ensures grows { Grows cx.old cx.new }
{
    let (a, c) = two_wholes(cx, sort, m, p)?;
    let (b, e) = two_literals(cx, sort, d, q)?;
    let exponent = literal(cx, Sort::Nat, n)?;
    let some = relation_of_literals(cx, Rel::Ne, sort, d, 0)?;
    div_pow(cx, sort, a, b, c, e, exponent, top, bottom, some)
}

// two whole numbers
#[tactic(auto, using(crate::proofs::PowerLemmas::fraction_powers))]
fn two_wholes(cx: &mut Builder, sort: Sort, m: &i128, p: &i128) -> Result<(ExprId, ExprId), Memory>
    requires quotients { HasQuotients cx.old sort }
    requires first_small { InRange m.now }
    requires second_small { InRange p.now }
    ensures first { IfOk result (λ e. Stands cx.new sort e.0 (whole_tree sort m.now)) }
    ensures second { IfOk result (λ e. Stands cx.new sort e.1 (whole_tree sort p.now)) }
    ensures grows { Grows cx.old cx.new }
{
    let first = numeral_of_integer(cx, sort, m)?;
    let second = numeral_of_integer(cx, sort, p)?;
    Ok((first, second))
}

// the line of a power, which is named
#[tactic(auto, using(crate::proofs::PowerLemmas::fraction_powers))]
fn power_line(cx: &mut Builder, sort: Sort, m: &i128, n: u128, _p: &i128) -> Result<usize, Memory>
    requires quotients { HasQuotients cx.old sort }
    requires small { InRange m.now }
    requires exponent { n < 2 ^ 127 }
    requires raises { _p.now ≡ int_pow m.now n }
    requires power_small { InRange _p.now }
    ensures proves { IfOk result (λ i. Proves cx.new i (power_tree sort (whole_tree sort m.now) (Lit Nat n)) (whole_tree sort _p.now)) }
    ensures grows { Grows cx.old cx.new }
{
    let r = power_of_integer(cx, sort, m, n)?;
    let line = line_of(cx, r)?;
    Ok(line)
}

// the line of the power of a literal
#[tactic(auto, using(crate::proofs::PowerLemmas::fraction_powers))]
fn literal_power_line(
    cx: &mut Builder,
    sort: Sort,
    d: u128,
    n: u128,
    q: u128,
) -> Result<usize, Memory>
    requires quotients { HasQuotients cx.old sort }
    requires small { d < 2 ^ 127 }
    requires exponent { n < 2 ^ 127 }
    requires raises { q ≡ d ^ n }
    requires power_small { q < 2 ^ 127 }
    ensures proves { IfOk result (λ i. Proves cx.new i (power_tree sort (Lit sort d) (Lit Nat n)) (Lit sort q)) }
    ensures grows { Grows cx.old cx.new }
{
    let r = literal_power(cx, sort, d, n, q)?;
    let line = line_of(cx, r)?;
    Ok(line)
}

// the power of a literal
#[tactic(auto, using(crate::proofs::PowerLemmas::fraction_powers))]
fn literal_power(
    cx: &mut Builder,
    sort: Sort,
    d: u128,
    n: u128,
    _q: u128,
) -> Result<Rewriting, Memory>
    requires quotients { HasQuotients cx.old sort }
    requires small { d < 2 ^ 127 }
    requires exponent { n < 2 ^ 127 }
    requires raises { _q ≡ d ^ n }
    requires power_small { _q < 2 ^ 127 }
    ensures turns { IfOk result (λ r. Turns cx.new sort r (power_tree sort (Lit sort d) (Lit Nat n)) (Lit sort _q)) }
    ensures grows { Grows cx.old cx.new }
{
    let base = d as i128;
    power_of_integer(cx, sort, &base, n)
}
