//! Order.
ghost use Rattle.std.specs.Prelude.{◌≡◌, IfOk, true};
ghost use Rattle.alg_terms.specs.declared.relations.Rel.TheVariants.{Lt, Le};
ghost use Rattle.alg_terms.specs.Tree.{product_tree, Lit};
ghost use Rattle.alg_expr.specs.Ids.{tree_of};
ghost use Rattle.alg_law.specs.declared.classes.Class.TheVariants.{Field, IsStrictOrderedRing, Ring};
ghost use Rattle.alg_law.specs.Having.{has_class};
ghost use Rattle.alg_law.specs.Derivations.{related};
ghost use Rattle.alg_lemma.specs.Library.{HoldsLibrary};
ghost use Rattle.alg_build.specs.Book.{Concludes, Grows};
ghost use Rattle.alg_build.specs.Rewriting.{Stands};
ghost use Rattle.alg_rows.specs.Operations.{negation_tree, quotient_tree};

use alg_build::{Builder, Memory, by_row};
use alg_expr::{ExprId, Sort};
use alg_lemma::comparisons::{
    DIV_POS, LE_OF_MUL, LT_OF_MUL, NEG_LE_NEG, NEG_LE_NONNEG, NEG_LT_NEG, NEG_LT_NONNEG,
};

/// `0 < a / b`, from lines for `0 < a` and `0 < b`.
#[tactic(auto, using(crate::proofs::RowNames::comparisons))]
pub fn div_pos(
    cx: &mut Builder,
    sort: Sort,
    a: ExprId,
    b: ExprId,
    first: usize,
    second: usize,
) -> Result<usize, Memory>
    requires a_stands { Stands cx.old sort a (tree_of cx.old.trees a) }
    requires b_stands { Stands cx.old sort b (tree_of cx.old.trees b) }
    requires first_line { Concludes cx.old first (related Lt sort (Lit sort 0) (tree_of cx.old.trees a)) }
    requires second_line { Concludes cx.old second (related Lt sort (Lit sort 0) (tree_of cx.old.trees b)) }
    requires field { has_class cx.old.theory.declarations sort Field ≡ true }
    requires is_strict_ordered_ring { has_class cx.old.theory.declarations sort IsStrictOrderedRing ≡ true }
    requires library { HoldsLibrary cx.old.theory.lemmas }
    ensures concludes { IfOk result (λ n. Concludes cx.new n (related Lt sort (Lit sort 0) (quotient_tree sort (tree_of cx.old.trees a) (tree_of cx.old.trees b)))) }
    ensures grows { Grows cx.old cx.new }
{
    by_row(cx, &DIV_POS, sort, &[a, b], &[first, second])
}

/// `-a < -b`, from a line for `b < a`.
#[tactic(auto, using(crate::proofs::RowNames::comparisons))]
pub fn neg_lt_neg(
    cx: &mut Builder,
    sort: Sort,
    a: ExprId,
    b: ExprId,
    first: usize,
) -> Result<usize, Memory>
    requires a_stands { Stands cx.old sort a (tree_of cx.old.trees a) }
    requires b_stands { Stands cx.old sort b (tree_of cx.old.trees b) }
    requires first_line { Concludes cx.old first (related Lt sort (tree_of cx.old.trees b) (tree_of cx.old.trees a)) }
    requires ring { has_class cx.old.theory.declarations sort Ring ≡ true }
    requires is_strict_ordered_ring { has_class cx.old.theory.declarations sort IsStrictOrderedRing ≡ true }
    requires library { HoldsLibrary cx.old.theory.lemmas }
    ensures concludes { IfOk result (λ n. Concludes cx.new n (related Lt sort (negation_tree sort (tree_of cx.old.trees a)) (negation_tree sort (tree_of cx.old.trees b)))) }
    ensures grows { Grows cx.old cx.new }
{
    by_row(cx, &NEG_LT_NEG, sort, &[a, b], &[first])
}

/// `-a ≤ -b`, from a line for `b ≤ a`.
#[tactic(auto, using(crate::proofs::RowNames::comparisons))]
pub fn neg_le_neg(
    cx: &mut Builder,
    sort: Sort,
    a: ExprId,
    b: ExprId,
    first: usize,
) -> Result<usize, Memory>
    requires a_stands { Stands cx.old sort a (tree_of cx.old.trees a) }
    requires b_stands { Stands cx.old sort b (tree_of cx.old.trees b) }
    requires first_line { Concludes cx.old first (related Le sort (tree_of cx.old.trees b) (tree_of cx.old.trees a)) }
    requires ring { has_class cx.old.theory.declarations sort Ring ≡ true }
    requires is_strict_ordered_ring { has_class cx.old.theory.declarations sort IsStrictOrderedRing ≡ true }
    requires library { HoldsLibrary cx.old.theory.lemmas }
    ensures concludes { IfOk result (λ n. Concludes cx.new n (related Le sort (negation_tree sort (tree_of cx.old.trees a)) (negation_tree sort (tree_of cx.old.trees b)))) }
    ensures grows { Grows cx.old cx.new }
{
    by_row(cx, &NEG_LE_NEG, sort, &[a, b], &[first])
}

/// `-a < b`, from lines for `0 < a` and `0 ≤ b`.
#[tactic(auto, using(crate::proofs::RowNames::comparisons))]
pub fn neg_lt_nonneg(
    cx: &mut Builder,
    sort: Sort,
    a: ExprId,
    b: ExprId,
    first: usize,
    second: usize,
) -> Result<usize, Memory>
    requires a_stands { Stands cx.old sort a (tree_of cx.old.trees a) }
    requires b_stands { Stands cx.old sort b (tree_of cx.old.trees b) }
    requires first_line { Concludes cx.old first (related Lt sort (Lit sort 0) (tree_of cx.old.trees a)) }
    requires second_line { Concludes cx.old second (related Le sort (Lit sort 0) (tree_of cx.old.trees b)) }
    requires ring { has_class cx.old.theory.declarations sort Ring ≡ true }
    requires is_strict_ordered_ring { has_class cx.old.theory.declarations sort IsStrictOrderedRing ≡ true }
    requires library { HoldsLibrary cx.old.theory.lemmas }
    ensures concludes { IfOk result (λ n. Concludes cx.new n (related Lt sort (negation_tree sort (tree_of cx.old.trees a)) (tree_of cx.old.trees b))) }
    ensures grows { Grows cx.old cx.new }
{
    by_row(cx, &NEG_LT_NONNEG, sort, &[a, b], &[first, second])
}

/// `-a ≤ b`, from lines for `0 < a` and `0 ≤ b`.
#[tactic(auto, using(crate::proofs::RowNames::comparisons))]
pub fn neg_le_nonneg(
    cx: &mut Builder,
    sort: Sort,
    a: ExprId,
    b: ExprId,
    first: usize,
    second: usize,
) -> Result<usize, Memory>
    requires a_stands { Stands cx.old sort a (tree_of cx.old.trees a) }
    requires b_stands { Stands cx.old sort b (tree_of cx.old.trees b) }
    requires first_line { Concludes cx.old first (related Lt sort (Lit sort 0) (tree_of cx.old.trees a)) }
    requires second_line { Concludes cx.old second (related Le sort (Lit sort 0) (tree_of cx.old.trees b)) }
    requires ring { has_class cx.old.theory.declarations sort Ring ≡ true }
    requires is_strict_ordered_ring { has_class cx.old.theory.declarations sort IsStrictOrderedRing ≡ true }
    requires library { HoldsLibrary cx.old.theory.lemmas }
    ensures concludes { IfOk result (λ n. Concludes cx.new n (related Le sort (negation_tree sort (tree_of cx.old.trees a)) (tree_of cx.old.trees b))) }
    ensures grows { Grows cx.old cx.new }
{
    by_row(cx, &NEG_LE_NONNEG, sort, &[a, b], &[first, second])
}

/// `a < b`, from lines for `a * c < b * c` and `0 < c`.
#[tactic(auto, using(crate::proofs::RowNames::comparisons))]
pub fn lt_of_mul(
    cx: &mut Builder,
    sort: Sort,
    a: ExprId,
    b: ExprId,
    c: ExprId,
    first: usize,
    second: usize,
) -> Result<usize, Memory>
    requires a_stands { Stands cx.old sort a (tree_of cx.old.trees a) }
    requires b_stands { Stands cx.old sort b (tree_of cx.old.trees b) }
    requires c_stands { Stands cx.old sort c (tree_of cx.old.trees c) }
    requires first_line { Concludes cx.old first (related Lt sort (product_tree sort (tree_of cx.old.trees a) (tree_of cx.old.trees c)) (product_tree sort (tree_of cx.old.trees b) (tree_of cx.old.trees c))) }
    requires second_line { Concludes cx.old second (related Lt sort (Lit sort 0) (tree_of cx.old.trees c)) }
    requires field { has_class cx.old.theory.declarations sort Field ≡ true }
    requires is_strict_ordered_ring { has_class cx.old.theory.declarations sort IsStrictOrderedRing ≡ true }
    requires library { HoldsLibrary cx.old.theory.lemmas }
    ensures concludes { IfOk result (λ n. Concludes cx.new n (related Lt sort (tree_of cx.old.trees a) (tree_of cx.old.trees b))) }
    ensures grows { Grows cx.old cx.new }
{
    by_row(cx, &LT_OF_MUL, sort, &[a, b, c], &[first, second])
}

/// `a ≤ b`, from lines for `a * c ≤ b * c` and `0 < c`.
#[tactic(auto, using(crate::proofs::RowNames::comparisons))]
pub fn le_of_mul(
    cx: &mut Builder,
    sort: Sort,
    a: ExprId,
    b: ExprId,
    c: ExprId,
    first: usize,
    second: usize,
) -> Result<usize, Memory>
    requires a_stands { Stands cx.old sort a (tree_of cx.old.trees a) }
    requires b_stands { Stands cx.old sort b (tree_of cx.old.trees b) }
    requires c_stands { Stands cx.old sort c (tree_of cx.old.trees c) }
    requires first_line { Concludes cx.old first (related Le sort (product_tree sort (tree_of cx.old.trees a) (tree_of cx.old.trees c)) (product_tree sort (tree_of cx.old.trees b) (tree_of cx.old.trees c))) }
    requires second_line { Concludes cx.old second (related Lt sort (Lit sort 0) (tree_of cx.old.trees c)) }
    requires field { has_class cx.old.theory.declarations sort Field ≡ true }
    requires is_strict_ordered_ring { has_class cx.old.theory.declarations sort IsStrictOrderedRing ≡ true }
    requires library { HoldsLibrary cx.old.theory.lemmas }
    ensures concludes { IfOk result (λ n. Concludes cx.new n (related Le sort (tree_of cx.old.trees a) (tree_of cx.old.trees b))) }
    ensures grows { Grows cx.old cx.new }
{
    by_row(cx, &LE_OF_MUL, sort, &[a, b, c], &[first, second])
}
