ghost use Rattle.std.specs.Prelude.{◌≡◌, ◌+◌, ◌*◌, ◌<◌, ◌^◌, IfOk, true};
ghost use Rattle.alg_terms.specs.Tree.{Lit, sum_tree, product_tree};
ghost use Rattle.alg_law.specs.declared.classes.Class.TheVariants.{Semiring};
ghost use Rattle.alg_law.specs.declared.marks.Mark.TheVariants.{Good};
ghost use Rattle.alg_law.specs.Having.{has_class};
ghost use Rattle.alg_law.specs.WellSorted.{sort_mark};
ghost use Rattle.alg_build.specs.Book.{Grows};
ghost use Rattle.alg_build.specs.Rewriting.{Turns};

use crate::builder::Builder;
use crate::rewriting::Rewriting;
use alg_expr::{Memory, Sort};

/// `m + n = r` for literals of the sort.
#[tactic(auto, using(crate::proofs::Rewritings::rewritings))]
pub fn sum_of_literals(cx: &mut Builder, sort: Sort, m: u128, n: u128) -> Result<Rewriting, Memory>
    requires known { sort_mark cx.old.theory.declarations sort ≡ Good }
    requires class { has_class cx.old.theory.declarations sort Semiring ≡ true }
    requires small { m + n < 2 ^ 127 }
    ensures turns { IfOk result (λ q. Turns cx.new sort q (sum_tree sort (Lit sort m) (Lit sort n)) (Lit sort (m + n))) }
    ensures grows { Grows cx.old cx.new }
{
    let line = cx.lit_add(sort, m, n)?;
    let to = cx.concluded(line).rhs;
    Ok(Rewriting {
        to,
        line: Some(line),
    })
}

/// `m * n = r` for literals of the sort.
#[tactic(auto, using(crate::proofs::Rewritings::rewritings))]
pub fn product_of_literals(
    cx: &mut Builder,
    sort: Sort,
    m: u128,
    n: u128,
) -> Result<Rewriting, Memory>
    requires known { sort_mark cx.old.theory.declarations sort ≡ Good }
    requires class { has_class cx.old.theory.declarations sort Semiring ≡ true }
    requires first { m < 2 ^ 127 }
    requires second { n < 2 ^ 127 }
    requires small { m * n < 2 ^ 127 }
    ensures turns { IfOk result (λ q. Turns cx.new sort q (product_tree sort (Lit sort m) (Lit sort n)) (Lit sort (m * n))) }
    ensures grows { Grows cx.old cx.new }
{
    let line = cx.lit_mul(sort, m, n)?;
    let to = cx.concluded(line).rhs;
    Ok(Rewriting {
        to,
        line: Some(line),
    })
}
