ghost use Rattle.std.specs.Prelude.{◌≡◌, ◌+◌, ◌*ℤ◌, ◌<◌, ◌≤◌, ◌^◌, pos, IfOk};
ghost use Rattle.std.specs.Int.{int_pow};
ghost use Rattle.alg_terms.specs.declared.sorts.Sort.TheVariants.{Nat};
ghost use Rattle.alg_terms.specs.declared.symbols.Sym.TheVariants.{Mul};
ghost use Rattle.alg_terms.specs.Tree.{Lit};
ghost use Rattle.alg_num.specs.Range.{InRange};
ghost use Rattle.alg_build.specs.Book.{Grows, Proves};
ghost use Rattle.alg_build.specs.Rewriting.{Turns};
ghost use Rattle.alg_rows.specs.Operations.{power_tree};
ghost use Rattle.alg_numerals.specs.Numerals.{Combines, HasWhole};
ghost use Rattle.alg_powers.specs.Powers.{IsPower};
ghost use Rattle.alg_numerals.specs.WholeTree.{whole_tree};

use alg_build::{Builder, Memory, Rewriting, line_of};
use alg_expr::Sort;
use alg_numerals::differences::whole_product;
use alg_numerals::literals::sum;
use alg_numerals::{Combined, numeral_of_integer};
use alg_rows::powers::{pow_double, pow_next, pow_one, pow_zero};

/// A power of a whole number, with the rewriting to it.
#[derive(Clone, Copy, Debug, Drop)]
pub struct Power {
    pub value: i128,
    pub by: Rewriting,
}

/// `x ^ n`, by squares and products with x: at most four lines for each bit of n and for each 1 among them.
#[tactic(auto, using(crate::proofs::PowerLemmas::powers))]
pub fn power_of_integer(
    cx: &mut Builder,
    sort: Sort,
    x: &i128,
    n: u128,
) -> Result<Rewriting, Memory>
    requires first { HasWhole cx.old sort x.now }
    requires first_small { InRange x.now }
    requires exponent { n < 2 ^ 127 }
    requires small { InRange (int_pow x.now n) }
    ensures turns { IfOk result (λ r. Turns cx.new sort r (power_tree sort (whole_tree sort x.now) (Lit Nat n)) (whole_tree sort (int_pow x.now n))) }
    ensures grows { Grows cx.old cx.new }
{
    let power = power_from(cx, sort, x, n)?;
    Ok(power.by)
}

// the power with its value, from that of half the exponent or of the one before
#[tactic(auto, using(crate::proofs::PowerLemmas::powers))]
fn power_from(cx: &mut Builder, sort: Sort, x: &i128, n: u128) -> Result<Power, Memory>
    requires first { HasWhole cx.old sort x.now }
    requires first_small { InRange x.now }
    requires exponent { n < 2 ^ 127 }
    requires small { InRange (int_pow x.now n) }
    ensures power { IfOk result (λ p. IsPower cx.new sort x.now n p) }
    ensures grows { Grows cx.old cx.new }
{
    if n == 0 {
        return power_zero(cx, sort, x);
    }
    if n == 1 {
        return power_one(cx, sort, x);
    }
    if n % 2 == 0 {
        let half = power_from(cx, sort, x, n / 2)?;
        doubled(cx, sort, x, n / 2, n, half)
    } else {
        let lesser = power_from(cx, sort, x, n - 1)?;
        next(cx, sort, x, n - 1, n, lesser)
    }
}

// `x ^ 0 = 1`
#[tactic(auto, using(crate::proofs::PowerLemmas::powers))]
fn power_zero(cx: &mut Builder, sort: Sort, x: &i128) -> Result<Power, Memory>
    requires first { HasWhole cx.old sort x.now }
    requires first_small { InRange x.now }
    ensures power { IfOk result (λ p. IsPower cx.new sort x.now 0 p) }
    ensures grows { Grows cx.old cx.new }
{
    let base = numeral_of_integer(cx, sort, x)?;
    let by = pow_zero(cx, sort, base)?;
    Ok(Power { value: 1, by })
}

// `x ^ 1 = x`
#[tactic(auto, using(crate::proofs::PowerLemmas::powers))]
fn power_one(cx: &mut Builder, sort: Sort, x: &i128) -> Result<Power, Memory>
    requires first { HasWhole cx.old sort x.now }
    requires first_small { InRange x.now }
    ensures power { IfOk result (λ p. IsPower cx.new sort x.now 1 p) }
    ensures grows { Grows cx.old cx.new }
{
    let base = numeral_of_integer(cx, sort, x)?;
    let by = pow_one(cx, sort, base)?;
    Ok(Power { value: *x, by })
}

// `x ^ n = z` for the exponent m + m, from `x ^ m`
#[tactic(auto, using(crate::proofs::PowerLemmas::powers))]
fn doubled(
    cx: &mut Builder,
    sort: Sort,
    x: &i128,
    m: u128,
    n: u128,
    half: Power,
) -> Result<Power, Memory>
    requires first { HasWhole cx.old sort x.now }
    requires first_small { InRange x.now }
    requires half { IsPower cx.old sort x.now m half }
    requires sums { m + m ≡ n }
    requires exponent { n < 2 ^ 127 }
    requires small { InRange (int_pow x.now n) }
    ensures power { IfOk result (λ p. IsPower cx.new sort x.now n p) }
    ensures grows { Grows cx.old cx.new }
{
    let value = product(&half.value, &half.value);
    let by = doubled_to(cx, sort, x, m, n, half, &value)?;
    Ok(Power { value, by })
}

// the rewriting alone, where the square is z
#[tactic(auto, using(crate::proofs::PowerLemmas::powers))]
fn doubled_to(
    cx: &mut Builder,
    sort: Sort,
    x: &i128,
    m: u128,
    n: u128,
    half: Power,
    z: &i128,
) -> Result<Rewriting, Memory>
    requires first { HasWhole cx.old sort x.now }
    requires first_small { InRange x.now }
    requires half { IsPower cx.old sort x.now m half }
    requires sums { m + m ≡ n }
    requires exponent { n < 2 ^ 127 }
    requires small { InRange (int_pow x.now n) }
    requires square { z.now ≡ int_pow x.now n }
    ensures turns { IfOk result (λ r. Turns cx.new sort r (power_tree sort (whole_tree sort x.now) (Lit Nat n)) (whole_tree sort z.now)) }
    ensures grows { Grows cx.old cx.new }
{
    let line = line_of(cx, half.by)?;
    let square = whole_product(cx, sort, &half.value, &half.value, z)?;
    double_by(cx, sort, x, m, n, line, square)
}

// the row's line, from `x ^ m = y` and `y * y = z`
#[tactic(auto, using(crate::proofs::PowerLemmas::powers))]
fn double_by(
    cx: &mut Builder,
    sort: Sort,
    x: &i128,
    m: u128,
    n: u128,
    line: usize,
    square: Combined,
) -> Result<Rewriting, Memory>
    requires first { HasWhole cx.old sort x.now }
    requires first_small { InRange x.now }
    requires sums { m + m ≡ n }
    requires exponent { n < 2 ^ 127 }
    requires half { Proves cx.old line (power_tree sort (whole_tree sort x.now) (Lit Nat m)) (whole_tree sort (int_pow x.now m)) }
    requires squares { Combines cx.old Mul sort square (whole_tree sort (int_pow x.now m)) (whole_tree sort (int_pow x.now m)) (whole_tree sort (int_pow x.now n)) }
    ensures turns { IfOk result (λ r. Turns cx.new sort r (power_tree sort (whole_tree sort x.now) (Lit Nat n)) (whole_tree sort (int_pow x.now n))) }
    ensures grows { Grows cx.old cx.new }
{
    let exponents = sum(cx, Sort::Nat, m, m, n)?;
    let base = numeral_of_integer(cx, sort, x)?;
    pow_double(
        cx,
        sort,
        base,
        square.first,
        square.total,
        exponents.first,
        exponents.total,
        exponents.line,
        line,
        square.line,
    )
}

// `x ^ n = z` for the exponent m + 1, from `x ^ m`
#[tactic(auto, using(crate::proofs::PowerLemmas::powers))]
fn next(
    cx: &mut Builder,
    sort: Sort,
    x: &i128,
    m: u128,
    n: u128,
    lesser: Power,
) -> Result<Power, Memory>
    requires first { HasWhole cx.old sort x.now }
    requires first_small { InRange x.now }
    requires lesser { IsPower cx.old sort x.now m lesser }
    requires sums { m + 1 ≡ n }
    requires exponent { n < 2 ^ 127 }
    requires small { InRange (int_pow x.now n) }
    ensures power { IfOk result (λ p. IsPower cx.new sort x.now n p) }
    ensures grows { Grows cx.old cx.new }
{
    let value = product(&lesser.value, x);
    let by = next_to(cx, sort, x, m, n, lesser, &value)?;
    Ok(Power { value, by })
}

// the rewriting alone, where the product is z
#[tactic(auto, using(crate::proofs::PowerLemmas::powers))]
fn next_to(
    cx: &mut Builder,
    sort: Sort,
    x: &i128,
    m: u128,
    n: u128,
    lesser: Power,
    z: &i128,
) -> Result<Rewriting, Memory>
    requires first { HasWhole cx.old sort x.now }
    requires first_small { InRange x.now }
    requires lesser { IsPower cx.old sort x.now m lesser }
    requires sums { m + 1 ≡ n }
    requires exponent { n < 2 ^ 127 }
    requires small { InRange (int_pow x.now n) }
    requires product { z.now ≡ int_pow x.now n }
    ensures turns { IfOk result (λ r. Turns cx.new sort r (power_tree sort (whole_tree sort x.now) (Lit Nat n)) (whole_tree sort z.now)) }
    ensures grows { Grows cx.old cx.new }
{
    let line = line_of(cx, lesser.by)?;
    let product = whole_product(cx, sort, &lesser.value, x, z)?;
    next_by(cx, sort, x, m, n, line, product)
}

// the row's line, from `x ^ m = y` and `y * x = z`
#[tactic(auto, using(crate::proofs::PowerLemmas::powers))]
fn next_by(
    cx: &mut Builder,
    sort: Sort,
    _x: &i128,
    m: u128,
    n: u128,
    line: usize,
    product: Combined,
) -> Result<Rewriting, Memory>
    requires first { HasWhole cx.old sort _x.now }
    requires sums { m + 1 ≡ n }
    requires exponent { n < 2 ^ 127 }
    requires lesser { Proves cx.old line (power_tree sort (whole_tree sort _x.now) (Lit Nat m)) (whole_tree sort (int_pow _x.now m)) }
    requires multiplies { Combines cx.old Mul sort product (whole_tree sort (int_pow _x.now m)) (whole_tree sort _x.now) (whole_tree sort (int_pow _x.now n)) }
    ensures turns { IfOk result (λ r. Turns cx.new sort r (power_tree sort (whole_tree sort _x.now) (Lit Nat n)) (whole_tree sort (int_pow _x.now n))) }
    ensures grows { Grows cx.old cx.new }
{
    let exponents = sum(cx, Sort::Nat, m, 1, n)?;
    pow_next(
        cx,
        sort,
        product.second,
        product.first,
        product.total,
        exponents.first,
        exponents.total,
        exponents.line,
        line,
        product.line,
    )
}

// the product of two whole numbers
fn product(m: &i128, n: &i128) -> i128
    requires { InRange (m.now *ℤ n.now) }
    ensures { result ≡ m.now *ℤ n.now }
{
    *m * *n
}
