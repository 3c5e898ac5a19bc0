//! Inverses in a field.
ghost use Rattle.std.specs.Prelude.{◌≡◌, IfOk, true};
ghost use Rattle.alg_terms.specs.declared.relations.Rel.TheVariants.{Ne};
ghost use Rattle.alg_terms.specs.Tree.{Lit};
ghost use Rattle.alg_expr.specs.Ids.{tree_of};
ghost use Rattle.alg_law.specs.declared.classes.Class.TheVariants.{Field};
ghost use Rattle.alg_law.specs.Having.{has_class};
ghost use Rattle.alg_law.specs.declared.marks.Mark.TheVariants.{Good};
ghost use Rattle.alg_law.specs.WellSorted.{sort_mark};
ghost use Rattle.alg_law.specs.Derivations.{related};
ghost use Rattle.alg_lemma.specs.Library.{HoldsLibrary};
ghost use Rattle.alg_build.specs.Book.{Concludes, Grows, Proves};
ghost use Rattle.alg_build.specs.Rewriting.{Stands, Turns};
ghost use Rattle.alg_rows.specs.Operations.{inverse_tree, negation_tree, quotient_tree};

use alg_build::{Builder, Memory, Rewriting, by_law, by_lemma};
use alg_expr::{ExprId, Sort};
use alg_law::ring_laws::INV_ZERO;
use alg_lemma::inverses::{NEG_INV_LIT, ONE_INV0};
use alg_lemma::quotients::{DIV_INV0, INV_EQ_ONE_DIV, ONE_DIV_INV0};

/// `0⁻¹ = 0`.
#[tactic(auto, using(crate::proofs::RowNames::inverses))]
pub fn inv_zero(cx: &mut Builder, sort: Sort) -> Result<Rewriting, Memory>
    requires known { sort_mark cx.old.theory.declarations sort ≡ Good }
    requires field { has_class cx.old.theory.declarations sort Field ≡ true }
    ensures turns { IfOk result (λ r. Turns cx.new sort r (inverse_tree sort (Lit sort 0)) (Lit sort 0)) }
    ensures grows { Grows cx.old cx.new }
{
    by_law(cx, &INV_ZERO, sort, &[], &[])
}

/// `1⁻¹ = 1`.
#[tactic(auto, using(crate::proofs::RowNames::inverses))]
pub fn one_inv0(cx: &mut Builder, sort: Sort) -> Result<Rewriting, Memory>
    requires known { sort_mark cx.old.theory.declarations sort ≡ Good }
    requires field { has_class cx.old.theory.declarations sort Field ≡ true }
    requires library { HoldsLibrary cx.old.theory.lemmas }
    ensures turns { IfOk result (λ r. Turns cx.new sort r (inverse_tree sort (Lit sort 1)) (Lit sort 1)) }
    ensures grows { Grows cx.old cx.new }
{
    by_lemma(cx, &ONE_INV0, sort, &[], &[])
}

/// `a⁻¹ = 1 / a`.
#[tactic(auto, using(crate::proofs::RowNames::inverses))]
pub fn inv_eq_one_div(cx: &mut Builder, sort: Sort, a: ExprId) -> Result<Rewriting, Memory>
    requires a_stands { Stands cx.old sort a (tree_of cx.old.trees a) }
    requires field { has_class cx.old.theory.declarations sort Field ≡ true }
    requires library { HoldsLibrary cx.old.theory.lemmas }
    ensures turns { IfOk result (λ r. Turns cx.new sort r (inverse_tree sort (tree_of cx.old.trees a)) (quotient_tree sort (Lit sort 1) (tree_of cx.old.trees a))) }
    ensures grows { Grows cx.old cx.new }
{
    by_lemma(cx, &INV_EQ_ONE_DIV, sort, &[a], &[])
}

/// `(a / b)⁻¹ = b / a`, from lines for `a ≠ 0` and `b ≠ 0`.
#[tactic(auto, using(crate::proofs::RowNames::inverses))]
pub fn div_inv0(
    cx: &mut Builder,
    sort: Sort,
    a: ExprId,
    b: ExprId,
    first: usize,
    second: usize,
) -> Result<Rewriting, Memory>
    requires a_stands { Stands cx.old sort a (tree_of cx.old.trees a) }
    requires b_stands { Stands cx.old sort b (tree_of cx.old.trees b) }
    requires first_line { Concludes cx.old first (related Ne sort (tree_of cx.old.trees a) (Lit sort 0)) }
    requires second_line { Concludes cx.old second (related Ne sort (tree_of cx.old.trees b) (Lit sort 0)) }
    requires field { has_class cx.old.theory.declarations sort Field ≡ true }
    requires library { HoldsLibrary cx.old.theory.lemmas }
    ensures turns { IfOk result (λ r. Turns cx.new sort r (inverse_tree sort (quotient_tree sort (tree_of cx.old.trees a) (tree_of cx.old.trees b))) (quotient_tree sort (tree_of cx.old.trees b) (tree_of cx.old.trees a))) }
    ensures grows { Grows cx.old cx.new }
{
    by_lemma(cx, &DIV_INV0, sort, &[a, b], &[first, second])
}

/// `(1 / a)⁻¹ = a`, from a line for `a ≠ 0`.
#[tactic(auto, using(crate::proofs::RowNames::inverses))]
pub fn one_div_inv0(
    cx: &mut Builder,
    sort: Sort,
    a: ExprId,
    first: usize,
) -> Result<Rewriting, Memory>
    requires a_stands { Stands cx.old sort a (tree_of cx.old.trees a) }
    requires first_line { Concludes cx.old first (related Ne sort (tree_of cx.old.trees a) (Lit sort 0)) }
    requires field { has_class cx.old.theory.declarations sort Field ≡ true }
    requires library { HoldsLibrary cx.old.theory.lemmas }
    ensures turns { IfOk result (λ r. Turns cx.new sort r (inverse_tree sort (quotient_tree sort (Lit sort 1) (tree_of cx.old.trees a))) (tree_of cx.old.trees a)) }
    ensures grows { Grows cx.old cx.new }
{
    by_lemma(cx, &ONE_DIV_INV0, sort, &[a], &[first])
}

/// `(-a)⁻¹ = -b`, from lines for `a ≠ 0` and `a⁻¹ = b`.
#[tactic(auto, using(crate::proofs::RowNames::inverses))]
pub fn neg_inv_lit(
    cx: &mut Builder,
    sort: Sort,
    a: ExprId,
    b: ExprId,
    first: usize,
    second: usize,
) -> Result<Rewriting, Memory>
    requires a_stands { Stands cx.old sort a (tree_of cx.old.trees a) }
    requires b_stands { Stands cx.old sort b (tree_of cx.old.trees b) }
    requires first_line { Concludes cx.old first (related Ne sort (tree_of cx.old.trees a) (Lit sort 0)) }
    requires second_line { Proves cx.old second (inverse_tree sort (tree_of cx.old.trees a)) (tree_of cx.old.trees b) }
    requires field { has_class cx.old.theory.declarations sort Field ≡ true }
    requires library { HoldsLibrary cx.old.theory.lemmas }
    ensures turns { IfOk result (λ r. Turns cx.new sort r (inverse_tree sort (negation_tree sort (tree_of cx.old.trees a))) (negation_tree sort (tree_of cx.old.trees b))) }
    ensures grows { Grows cx.old cx.new }
{
    by_lemma(cx, &NEG_INV_LIT, sort, &[a, b], &[first, second])
}
