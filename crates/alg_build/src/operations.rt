ghost use Rattle.std.specs.Prelude.{◌≡◌, IfOk, true};
ghost use Rattle.alg_terms.specs.Tree.{Tree, sum_tree, product_tree};
ghost use Rattle.alg_law.specs.declared.classes.Class.TheVariants.{AddMonoid, Semigroup};
ghost use Rattle.alg_law.specs.declared.marks.Mark.TheVariants.{Good};
ghost use Rattle.alg_law.specs.Having.{has_class};
ghost use Rattle.alg_law.specs.WellSorted.{sort_mark};
ghost use Rattle.alg_build.specs.Book.{Grows};
ghost use Rattle.alg_build.specs.Rewriting.{Turns, TurnsIn};

use crate::builder::Builder;
use crate::over_parts::under_two;
use crate::rewriting::Rewriting;
use alg_expr::{Memory, Sort, Sym};

/// `a + c = b + d`, from `a = b` and `c = d`.
#[tactic(auto, using(crate::proofs::Rewritings::rewritings))]
pub fn plus(cx: &mut Builder, sort: Sort, r: Rewriting, s: Rewriting) -> Result<Rewriting, Memory>
    requires known { sort_mark cx.old.theory.declarations sort ≡ Good }
    requires class { has_class cx.old.theory.declarations sort AddMonoid ≡ true }
    requires left { TurnsIn cx.old sort r }
    requires right { TurnsIn cx.old sort s }
    ensures turns { IfOk result (λ q. (a b c d : Tree) → Turns cx.old sort r a b → Turns cx.old sort s c d → Turns cx.new sort q (sum_tree sort a c) (sum_tree sort b d)) }
    ensures grows { Grows cx.old cx.new }
{
    let q = under_two(cx, Sym::Add, sort, r, s)?;
    Ok(q)
}

/// `a * c = b * d`, from `a = b` and `c = d`.
#[tactic(auto, using(crate::proofs::Rewritings::rewritings))]
pub fn times(cx: &mut Builder, sort: Sort, r: Rewriting, s: Rewriting) -> Result<Rewriting, Memory>
    requires known { sort_mark cx.old.theory.declarations sort ≡ Good }
    requires class { has_class cx.old.theory.declarations sort Semigroup ≡ true }
    requires left { TurnsIn cx.old sort r }
    requires right { TurnsIn cx.old sort s }
    ensures turns { IfOk result (λ q. (a b c d : Tree) → Turns cx.old sort r a b → Turns cx.old sort s c d → Turns cx.new sort q (product_tree sort a c) (product_tree sort b d)) }
    ensures grows { Grows cx.old cx.new }
{
    let q = under_two(cx, Sym::Mul, sort, r, s)?;
    Ok(q)
}
