ghost use Rattle.std.specs.Prelude.{IfOk};
ghost use Rattle.alg_terms.specs.Tree.{App, of_list};
ghost use Rattle.alg_build.specs.Book.{Grows};
ghost use Rattle.alg_build.specs.Rewriting.{Turns};
ghost use Rattle.alg_values.specs.Numerals.{numeral_tree, signed_tree};
ghost use Rattle.alg_value_laws.specs.Places.{sorts_over};
ghost use Rattle.alg_arithmetic.specs.Evaluating.{Evaluates, HasNumeral, signed_trees};

use crate::dispatch::{over_one, over_two};
use alg_build::{Builder, Memory, Rewriting};
use alg_expr::{Sort, Sym};
use alg_num::Frac;

/// The operation on the numerals of these values, with the numeral of its value.
pub fn evaluated(
    cx: &mut Builder,
    sym: Sym,
    sort: Sort,
    ps: &[Frac],
    z: &Frac,
) -> Result<Rewriting, Memory>
    requires { Evaluates cx.old sym sort ps.now z.now }
    ensures turns { IfOk result (λ r. Turns cx.new sort r (App sym sort (of_list (signed_trees (sorts_over sym sort) ps.now))) (signed_tree sort z.now)) }
    ensures grows { Grows cx.old cx.new }
{
    match ps {
        [p] => over_one(cx, sym, sort, *p, *z),
        [p, q] => over_two(cx, sym, sort, *p, *q, *z),
        _ => unreachable!(),
    }
}

/// From the sign outside to the sign inside, which is how numerals are read. No line where they are one tree.
pub fn shown(cx: &mut Builder, sort: Sort, x: Frac) -> Result<Rewriting, Memory>
    requires { HasNumeral cx.old sort x }
    ensures turns { IfOk result (λ r. Turns cx.new sort r (signed_tree sort x) (numeral_tree sort x)) }
    ensures grows { Grows cx.old cx.new }
{
    alg_fractions::shown(cx, sort, x)
}

/// From the sign inside to the sign outside.
pub fn hidden(cx: &mut Builder, sort: Sort, x: Frac) -> Result<Rewriting, Memory>
    requires { HasNumeral cx.old sort x }
    ensures turns { IfOk result (λ r. Turns cx.new sort r (numeral_tree sort x) (signed_tree sort x)) }
    ensures grows { Grows cx.old cx.new }
{
    alg_fractions::hidden(cx, sort, x)
}
