//! The rows on absolute values, minima and maxima.
ghost use Rattle.std.specs.Prelude.{◌≡◌, IfOk, true};
ghost use Rattle.alg_terms.specs.declared.symbols.Sym.TheVariants.{Min, Max};
ghost use Rattle.alg_terms.specs.declared.relations.Rel.TheVariants.{Le};
ghost use Rattle.alg_terms.specs.Tree.{Lit};
ghost use Rattle.alg_expr.specs.Ids.{tree_of};
ghost use Rattle.alg_law.specs.declared.classes.Class.TheVariants.{IsStrictOrderedRing, LinearOrder, Ring};
ghost use Rattle.alg_law.specs.Having.{has_class};
ghost use Rattle.alg_law.specs.Derivations.{related};
ghost use Rattle.alg_lemma.specs.Library.{HoldsLibrary};
ghost use Rattle.alg_build.specs.Book.{Concludes, Grows};
ghost use Rattle.alg_build.specs.Rewriting.{Stands, Turns, over};
ghost use Rattle.alg_rows.specs.Operations.{negation_tree};
ghost use Rattle.alg_order_exts.specs.Order.{absolute_tree};

use alg_build::{Builder, Memory, Rewriting, by_law, by_lemma};
use alg_expr::{ExprId, Sort};
use alg_law::order_laws::{MAX_EQ_LEFT, MAX_EQ_RIGHT, MIN_EQ_LEFT, MIN_EQ_RIGHT};
use alg_law::ordered_ring_laws::ABS_OF_NONNEG;
use alg_lemma::comparisons::ABS_NEG_LIT;

/// `abs a = a`, from a line for `0 ≤ a`.
#[tactic(auto, using(crate::proofs::RowNames::order_rows))]
pub(crate) fn abs_of_nonneg(
    cx: &mut Builder,
    sort: Sort,
    a: ExprId,
    line: usize,
) -> Result<Rewriting, Memory>
    requires a_stands { Stands cx.old sort a (tree_of cx.old.trees a) }
    requires line { Concludes cx.old line (related Le sort (Lit sort 0) (tree_of cx.old.trees a)) }
    requires ring { has_class cx.old.theory.declarations sort Ring ≡ true }
    requires is_strict_ordered_ring { has_class cx.old.theory.declarations sort IsStrictOrderedRing ≡ true }
    ensures turns { IfOk result (λ r. Turns cx.new sort r (absolute_tree sort (tree_of cx.old.trees a)) (tree_of cx.old.trees a)) }
    ensures grows { Grows cx.old cx.new }
{
    by_law(cx, &ABS_OF_NONNEG, sort, &[a], &[line])
}

/// `abs (-a) = a`, from a line for `0 ≤ a`.
#[tactic(auto, using(crate::proofs::RowNames::order_rows))]
pub(crate) fn abs_neg_lit(
    cx: &mut Builder,
    sort: Sort,
    a: ExprId,
    line: usize,
) -> Result<Rewriting, Memory>
    requires a_stands { Stands cx.old sort a (tree_of cx.old.trees a) }
    requires line { Concludes cx.old line (related Le sort (Lit sort 0) (tree_of cx.old.trees a)) }
    requires ring { has_class cx.old.theory.declarations sort Ring ≡ true }
    requires is_strict_ordered_ring { has_class cx.old.theory.declarations sort IsStrictOrderedRing ≡ true }
    requires library { HoldsLibrary cx.old.theory.lemmas }
    ensures turns { IfOk result (λ r. Turns cx.new sort r (absolute_tree sort (negation_tree sort (tree_of cx.old.trees a))) (tree_of cx.old.trees a)) }
    ensures grows { Grows cx.old cx.new }
{
    by_lemma(cx, &ABS_NEG_LIT, sort, &[a], &[line])
}

/// `min a b = a`, from a line for `a ≤ b`.
#[tactic(auto, using(crate::proofs::RowNames::order_rows))]
pub(crate) fn min_eq_left(
    cx: &mut Builder,
    sort: Sort,
    a: ExprId,
    b: ExprId,
    line: usize,
) -> Result<Rewriting, Memory>
    requires a_stands { Stands cx.old sort a (tree_of cx.old.trees a) }
    requires b_stands { Stands cx.old sort b (tree_of cx.old.trees b) }
    requires line { Concludes cx.old line (related Le sort (tree_of cx.old.trees a) (tree_of cx.old.trees b)) }
    requires linear_order { has_class cx.old.theory.declarations sort LinearOrder ≡ true }
    ensures turns { IfOk result (λ r. Turns cx.new sort r (over Min sort (tree_of cx.old.trees a) (tree_of cx.old.trees b)) (tree_of cx.old.trees a)) }
    ensures grows { Grows cx.old cx.new }
{
    by_law(cx, &MIN_EQ_LEFT, sort, &[a, b], &[line])
}

/// `min a b = b`, from a line for `b ≤ a`.
#[tactic(auto, using(crate::proofs::RowNames::order_rows))]
pub(crate) fn min_eq_right(
    cx: &mut Builder,
    sort: Sort,
    a: ExprId,
    b: ExprId,
    line: usize,
) -> Result<Rewriting, Memory>
    requires a_stands { Stands cx.old sort a (tree_of cx.old.trees a) }
    requires b_stands { Stands cx.old sort b (tree_of cx.old.trees b) }
    requires line { Concludes cx.old line (related Le sort (tree_of cx.old.trees b) (tree_of cx.old.trees a)) }
    requires linear_order { has_class cx.old.theory.declarations sort LinearOrder ≡ true }
    ensures turns { IfOk result (λ r. Turns cx.new sort r (over Min sort (tree_of cx.old.trees a) (tree_of cx.old.trees b)) (tree_of cx.old.trees b)) }
    ensures grows { Grows cx.old cx.new }
{
    by_law(cx, &MIN_EQ_RIGHT, sort, &[a, b], &[line])
}

/// `max a b = a`, from a line for `b ≤ a`.
#[tactic(auto, using(crate::proofs::RowNames::order_rows))]
pub(crate) fn max_eq_left(
    cx: &mut Builder,
    sort: Sort,
    a: ExprId,
    b: ExprId,
    line: usize,
) -> Result<Rewriting, Memory>
    requires a_stands { Stands cx.old sort a (tree_of cx.old.trees a) }
    requires b_stands { Stands cx.old sort b (tree_of cx.old.trees b) }
    requires line { Concludes cx.old line (related Le sort (tree_of cx.old.trees b) (tree_of cx.old.trees a)) }
    requires linear_order { has_class cx.old.theory.declarations sort LinearOrder ≡ true }
    ensures turns { IfOk result (λ r. Turns cx.new sort r (over Max sort (tree_of cx.old.trees a) (tree_of cx.old.trees b)) (tree_of cx.old.trees a)) }
    ensures grows { Grows cx.old cx.new }
{
    by_law(cx, &MAX_EQ_LEFT, sort, &[a, b], &[line])
}

/// `max a b = b`, from a line for `a ≤ b`.
#[tactic(auto, using(crate::proofs::RowNames::order_rows))]
pub(crate) fn max_eq_right(
    cx: &mut Builder,
    sort: Sort,
    a: ExprId,
    b: ExprId,
    line: usize,
) -> Result<Rewriting, Memory>
    requires a_stands { Stands cx.old sort a (tree_of cx.old.trees a) }
    requires b_stands { Stands cx.old sort b (tree_of cx.old.trees b) }
    requires line { Concludes cx.old line (related Le sort (tree_of cx.old.trees a) (tree_of cx.old.trees b)) }
    requires linear_order { has_class cx.old.theory.declarations sort LinearOrder ≡ true }
    ensures turns { IfOk result (λ r. Turns cx.new sort r (over Max sort (tree_of cx.old.trees a) (tree_of cx.old.trees b)) (tree_of cx.old.trees b)) }
    ensures grows { Grows cx.old cx.new }
{
    by_law(cx, &MAX_EQ_RIGHT, sort, &[a, b], &[line])
}
