//! The function of each symbol.
ghost use Rattle.std.specs.Prelude.{[], ◌∷◌, IfOk};
ghost use Rattle.alg_terms.specs.Tree.{App, of_list};
ghost use Rattle.alg_build.specs.Book.{Grows};
ghost use Rattle.alg_build.specs.Rewriting.{Turns};
ghost use Rattle.alg_fractions.specs.NumeralTree.{signed_tree};
ghost use Rattle.alg_value_laws.specs.Places.{sorts_over};
ghost use Rattle.alg_arithmetic.specs.Evaluating.{Evaluates};
ghost use Rattle.alg_arithmetic.specs.Operands.{operands};

use crate::multiples::{integer_multiple, multiple};
use crate::powers::{integer_power, power};
use crate::products::{inverse, product, quotient};
use crate::sums::{difference, negation, sum};
use alg_build::{Builder, Memory, Rewriting};
use alg_expr::{Sort, Sym};
use alg_num::Frac;

/// An operation on one numeral.
pub(crate) fn over_one(
    cx: &mut Builder,
    sym: Sym,
    sort: Sort,
    p: Frac,
    z: Frac,
) -> Result<Rewriting, Memory>
    requires { Evaluates cx.old sym sort (p ∷ []) z }
    ensures turns { IfOk result (λ r. Turns cx.new sort r (App sym sort (of_list (operands (sorts_over sym sort) (p ∷ [])))) (signed_tree sort z)) }
    ensures grows { Grows cx.old cx.new }
{
    match sym {
        Sym::Neg => negation(cx, sort, p, z),
        Sym::Inv => inverse(cx, sort, p, z),
        _ => unreachable!(),
    }
}

/// An operation on two numerals.
pub(crate) fn over_two(
    cx: &mut Builder,
    sym: Sym,
    sort: Sort,
    p: Frac,
    q: Frac,
    z: Frac,
) -> Result<Rewriting, Memory>
    requires { Evaluates cx.old sym sort (p ∷ q ∷ []) z }
    ensures turns { IfOk result (λ r. Turns cx.new sort r (App sym sort (of_list (operands (sorts_over sym sort) (p ∷ q ∷ [])))) (signed_tree sort z)) }
    ensures grows { Grows cx.old cx.new }
{
    match sym {
        Sym::Add => sum(cx, sort, p, q, z),
        Sym::Mul => product(cx, sort, p, q, z),
        Sym::Sub => difference(cx, sort, p, q, z),
        Sym::Div => quotient(cx, sort, p, q, z),
        Sym::Npow => power(cx, sort, p, q, z),
        Sym::Zpow => integer_power(cx, sort, p, q, z),
        Sym::Nsmul => multiple(cx, sort, p, q, z),
        Sym::Zsmul => integer_multiple(cx, sort, p, q, z),
        _ => unreachable!(),
    }
}
