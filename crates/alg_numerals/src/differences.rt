ghost use Rattle.std.specs.Prelude.{◌≡◌, ◌+ℤ◌, ◌-ℤ◌, ◌*ℤ◌, IfOk};
ghost use Rattle.alg_terms.specs.declared.symbols.Sym.TheVariants.{Add, Mul};
ghost use Rattle.alg_terms.specs.Tree.{Tree, sum_tree, product_tree};
ghost use Rattle.alg_num.specs.Range.{InRange};
ghost use Rattle.alg_build.specs.Book.{Grows, Proves};
ghost use Rattle.alg_build.specs.Rewriting.{Stands, Turns};
ghost use Rattle.alg_rows.specs.Operations.{difference_tree};
ghost use Rattle.alg_numerals.specs.Numerals.{Combines, HasSigns, HasWhole};
ghost use Rattle.alg_numerals.specs.WholeTree.{whole_tree};

use crate::combined::Combined;
use crate::integers::{numeral_of_integer, product_of_integers, sum_of_integers};
use alg_build::{Builder, Memory, Rewriting, line_of};
use alg_expr::Sort;
use alg_rows::sums::sub_eq_of_add;

// the line for `x + y`
#[tactic(auto, using(crate::proofs::WholeLemmas::wholes))]
fn sum_line(cx: &mut Builder, sort: Sort, x: &i128, y: &i128) -> Result<usize, Memory>
    requires first { HasWhole cx.old sort x.now }
    requires second { HasWhole cx.old sort y.now }
    requires first_small { InRange x.now }
    requires second_small { InRange y.now }
    requires small { InRange (x.now +ℤ y.now) }
    ensures proves { IfOk result (λ n. Proves cx.new n (sum_tree sort (whole_tree sort x.now) (whole_tree sort y.now)) (whole_tree sort (x.now +ℤ y.now))) }
    ensures grows { Grows cx.old cx.new }
{
    let r = sum_of_integers(cx, sort, x, y)?;
    let line = line_of(cx, r)?;
    Ok(line)
}

// the line for `x * y`
#[tactic(auto, using(crate::proofs::WholeLemmas::wholes))]
fn product_line(cx: &mut Builder, sort: Sort, x: &i128, y: &i128) -> Result<usize, Memory>
    requires first { HasWhole cx.old sort x.now }
    requires second { HasWhole cx.old sort y.now }
    requires first_small { InRange x.now }
    requires second_small { InRange y.now }
    requires small { InRange (x.now *ℤ y.now) }
    ensures proves { IfOk result (λ n. Proves cx.new n (product_tree sort (whole_tree sort x.now) (whole_tree sort y.now)) (whole_tree sort (x.now *ℤ y.now))) }
    ensures grows { Grows cx.old cx.new }
{
    let r = product_of_integers(cx, sort, x, y)?;
    let line = line_of(cx, r)?;
    Ok(line)
}

// the trees of three numerals, beside a line
#[tactic(auto, using(crate::proofs::WholeLemmas::wholes))]
fn wholes_beside(
    cx: &mut Builder,
    sort: Sort,
    x: &i128,
    y: &i128,
    z: &i128,
    line: usize,
) -> Result<Combined, Memory>
    requires has_first { HasWhole cx.old sort x.now }
    requires has_second { HasWhole cx.old sort y.now }
    requires has_total { HasWhole cx.old sort z.now }
    requires first_small { InRange x.now }
    requires second_small { InRange y.now }
    requires small { InRange z.now }
    ensures first { IfOk result (λ q. Stands cx.new sort q.first (whole_tree sort x.now)) }
    ensures second { IfOk result (λ q. Stands cx.new sort q.second (whole_tree sort y.now)) }
    ensures total { IfOk result (λ q. Stands cx.new sort q.total (whole_tree sort z.now)) }
    ensures line { IfOk result (λ q. q.line ≡ line) }
    ensures grows { Grows cx.old cx.new }
{
    let first = numeral_of_integer(cx, sort, x)?;
    let second = numeral_of_integer(cx, sort, y)?;
    let total = numeral_of_integer(cx, sort, z)?;
    Ok(Combined {
        first,
        second,
        total,
        line,
    })
}

/// `x + y = z`, with the trees of the three numerals.
#[tactic(auto, using(crate::proofs::WholeLemmas::wholes))]
pub fn whole_sum(
    cx: &mut Builder,
    sort: Sort,
    x: &i128,
    y: &i128,
    z: &i128,
) -> Result<Combined, Memory>
    requires first { HasWhole cx.old sort x.now }
    requires second { HasWhole cx.old sort y.now }
    requires total { HasWhole cx.old sort z.now }
    requires first_small { InRange x.now }
    requires second_small { InRange y.now }
    requires adds { x.now +ℤ y.now ≡ z.now }
    requires small { InRange z.now }
    ensures combines { IfOk result (λ q. Combines cx.new Add sort q (whole_tree sort x.now) (whole_tree sort y.now) (whole_tree sort z.now)) }
    ensures grows { Grows cx.old cx.new }
{
    let line = sum_line(cx, sort, x, y)?;
    let q = wholes_beside(cx, sort, x, y, z, line)?;
    Ok(q)
}

/// `x * y = z`, with the trees of the three numerals.
#[tactic(auto, using(crate::proofs::WholeLemmas::wholes))]
pub fn whole_product(
    cx: &mut Builder,
    sort: Sort,
    x: &i128,
    y: &i128,
    z: &i128,
) -> Result<Combined, Memory>
    requires first { HasWhole cx.old sort x.now }
    requires second { HasWhole cx.old sort y.now }
    requires total { HasWhole cx.old sort z.now }
    requires first_small { InRange x.now }
    requires second_small { InRange y.now }
    requires multiplies { x.now *ℤ y.now ≡ z.now }
    requires small { InRange z.now }
    ensures combines { IfOk result (λ q. Combines cx.new Mul sort q (whole_tree sort x.now) (whole_tree sort y.now) (whole_tree sort z.now)) }
    ensures grows { Grows cx.old cx.new }
{
    let line = product_line(cx, sort, x, y)?;
    let q = wholes_beside(cx, sort, x, y, z, line)?;
    Ok(q)
}

// `x - y = z`, from `z + y = x`, where z is named
#[tactic(auto, using(crate::proofs::WholeLemmas::wholes))]
fn difference_to(
    cx: &mut Builder,
    sort: Sort,
    x: &i128,
    y: &i128,
    z: &i128,
) -> Result<Rewriting, Memory>
    requires signs { HasSigns cx.old sort }
    requires first_small { InRange x.now }
    requires second_small { InRange y.now }
    requires small { InRange z.now }
    requires adds { z.now +ℤ y.now ≡ x.now }
    ensures turns { IfOk result (λ r. Turns cx.new sort r (difference_tree sort (whole_tree sort x.now) (whole_tree sort y.now)) (whole_tree sort z.now)) }
    ensures grows { Grows cx.old cx.new }
{
    let q = whole_sum(cx, sort, z, y, x)?;
    sub_eq_of_add(cx, sort, q.total, q.second, q.first, q.line)
}

/// `x - y`, in at most three lines.
#[tactic(auto, using(crate::proofs::WholeLemmas::wholes))]
pub fn difference_of_integers(
    cx: &mut Builder,
    sort: Sort,
    x: &i128,
    y: &i128,
) -> Result<Rewriting, Memory>
    requires signs { HasSigns cx.old sort }
    requires first_small { InRange x.now }
    requires second_small { InRange y.now }
    requires small { InRange (x.now -ℤ y.now) }
    ensures turns { IfOk result (λ r. Turns cx.new sort r (difference_tree sort (whole_tree sort x.now) (whole_tree sort y.now)) (whole_tree sort (x.now -ℤ y.now))) }
    ensures grows { Grows cx.old cx.new }
{
    let z = *x - *y;
    difference_to(cx, sort, x, y, &z)
}
