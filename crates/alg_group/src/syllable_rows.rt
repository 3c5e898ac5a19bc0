//! The rows of powers by integers.
ghost use Rattle.std.specs.Prelude.{◌≡◌, IfOk, true};
ghost use Rattle.alg_terms.specs.declared.sorts.Sort.TheVariants.{Int};
ghost use Rattle.alg_terms.specs.Tree.{sum_tree, product_tree, Lit};
ghost use Rattle.alg_expr.specs.Ids.{tree_of};
ghost use Rattle.alg_law.specs.declared.classes.Class.TheVariants.{Group};
ghost use Rattle.alg_law.specs.Having.{has_class};
ghost use Rattle.alg_law.specs.declared.marks.Mark.TheVariants.{Good};
ghost use Rattle.alg_law.specs.WellSorted.{sort_mark};
ghost use Rattle.alg_lemma.specs.Library.{HoldsLibrary};
ghost use Rattle.alg_build.specs.Book.{Grows, Proves};
ghost use Rattle.alg_build.specs.Rewriting.{Stands, Turns};
ghost use Rattle.alg_rows.specs.Operations.{integer_power_tree, inverse_tree, negation_tree};

use alg_build::{Builder, Memory, Rewriting, by_lemma};
use alg_expr::{ExprId, Sort};
use alg_lemma::integer_powers::{ONE_MUL_ZPOW, ONE_ZPOW, SYLLABLE_INV, SYLLABLE_ZPOW};
use alg_lemma::word_rows::{SYLLABLE_MUL, ZPOW_NEG_LIT};

/// `a ^ i * a ^ j = b`, from a line for `a ^ (i + j) = b`.
#[tactic(auto, using(crate::proofs::RowNames::syllable_rows))]
pub fn syllable_mul(
    cx: &mut Builder,
    sort: Sort,
    a: ExprId,
    b: ExprId,
    i: ExprId,
    j: ExprId,
    first: usize,
) -> Result<Rewriting, Memory>
    requires a_stands { Stands cx.old sort a (tree_of cx.old.trees a) }
    requires b_stands { Stands cx.old sort b (tree_of cx.old.trees b) }
    requires i_stands { Stands cx.old Int i (tree_of cx.old.trees i) }
    requires j_stands { Stands cx.old Int j (tree_of cx.old.trees j) }
    requires first_line { Proves cx.old first (integer_power_tree sort (tree_of cx.old.trees a) (sum_tree Int (tree_of cx.old.trees i) (tree_of cx.old.trees j))) (tree_of cx.old.trees b) }
    requires group { has_class cx.old.theory.declarations sort Group ≡ true }
    requires library { HoldsLibrary cx.old.theory.lemmas }
    ensures turns { IfOk result (λ r. Turns cx.new sort r (product_tree sort (integer_power_tree sort (tree_of cx.old.trees a) (tree_of cx.old.trees i)) (integer_power_tree sort (tree_of cx.old.trees a) (tree_of cx.old.trees j))) (tree_of cx.old.trees b)) }
    ensures grows { Grows cx.old cx.new }
{
    by_lemma(cx, &SYLLABLE_MUL, sort, &[a, b, i, j], &[first])
}

/// `(a ^ i)⁻¹ = a ^ j`, from a line for `-i = j`.
#[tactic(auto, using(crate::proofs::RowNames::syllable_rows))]
pub fn syllable_inv(
    cx: &mut Builder,
    sort: Sort,
    a: ExprId,
    i: ExprId,
    j: ExprId,
    first: usize,
) -> Result<Rewriting, Memory>
    requires a_stands { Stands cx.old sort a (tree_of cx.old.trees a) }
    requires i_stands { Stands cx.old Int i (tree_of cx.old.trees i) }
    requires j_stands { Stands cx.old Int j (tree_of cx.old.trees j) }
    requires first_line { Proves cx.old first (negation_tree Int (tree_of cx.old.trees i)) (tree_of cx.old.trees j) }
    requires group { has_class cx.old.theory.declarations sort Group ≡ true }
    requires library { HoldsLibrary cx.old.theory.lemmas }
    ensures turns { IfOk result (λ r. Turns cx.new sort r (inverse_tree sort (integer_power_tree sort (tree_of cx.old.trees a) (tree_of cx.old.trees i))) (integer_power_tree sort (tree_of cx.old.trees a) (tree_of cx.old.trees j))) }
    ensures grows { Grows cx.old cx.new }
{
    by_lemma(cx, &SYLLABLE_INV, sort, &[a, i, j], &[first])
}

/// `(a ^ i) ^ j = b`, from a line for `a ^ (i * j) = b`.
#[tactic(auto, using(crate::proofs::RowNames::syllable_rows))]
pub fn syllable_zpow(
    cx: &mut Builder,
    sort: Sort,
    a: ExprId,
    b: ExprId,
    i: ExprId,
    j: ExprId,
    first: usize,
) -> Result<Rewriting, Memory>
    requires a_stands { Stands cx.old sort a (tree_of cx.old.trees a) }
    requires b_stands { Stands cx.old sort b (tree_of cx.old.trees b) }
    requires i_stands { Stands cx.old Int i (tree_of cx.old.trees i) }
    requires j_stands { Stands cx.old Int j (tree_of cx.old.trees j) }
    requires first_line { Proves cx.old first (integer_power_tree sort (tree_of cx.old.trees a) (product_tree Int (tree_of cx.old.trees i) (tree_of cx.old.trees j))) (tree_of cx.old.trees b) }
    requires group { has_class cx.old.theory.declarations sort Group ≡ true }
    requires library { HoldsLibrary cx.old.theory.lemmas }
    ensures turns { IfOk result (λ r. Turns cx.new sort r (integer_power_tree sort (integer_power_tree sort (tree_of cx.old.trees a) (tree_of cx.old.trees i)) (tree_of cx.old.trees j)) (tree_of cx.old.trees b)) }
    ensures grows { Grows cx.old cx.new }
{
    by_lemma(cx, &SYLLABLE_ZPOW, sort, &[a, b, i, j], &[first])
}

/// `(1 * a) ^ i = 1 * b`, from a line for `a ^ i = b`.
#[tactic(auto, using(crate::proofs::RowNames::syllable_rows))]
pub fn one_mul_zpow(
    cx: &mut Builder,
    sort: Sort,
    a: ExprId,
    b: ExprId,
    i: ExprId,
    first: usize,
) -> Result<Rewriting, Memory>
    requires a_stands { Stands cx.old sort a (tree_of cx.old.trees a) }
    requires b_stands { Stands cx.old sort b (tree_of cx.old.trees b) }
    requires i_stands { Stands cx.old Int i (tree_of cx.old.trees i) }
    requires first_line { Proves cx.old first (integer_power_tree sort (tree_of cx.old.trees a) (tree_of cx.old.trees i)) (tree_of cx.old.trees b) }
    requires group { has_class cx.old.theory.declarations sort Group ≡ true }
    requires library { HoldsLibrary cx.old.theory.lemmas }
    ensures turns { IfOk result (λ r. Turns cx.new sort r (integer_power_tree sort (product_tree sort (Lit sort 1) (tree_of cx.old.trees a)) (tree_of cx.old.trees i)) (product_tree sort (Lit sort 1) (tree_of cx.old.trees b))) }
    ensures grows { Grows cx.old cx.new }
{
    by_lemma(cx, &ONE_MUL_ZPOW, sort, &[a, b, i], &[first])
}

/// `1 ^ i = 1`.
#[tactic(auto, using(crate::proofs::RowNames::syllable_rows))]
pub fn one_zpow(cx: &mut Builder, sort: Sort, i: ExprId) -> Result<Rewriting, Memory>
    requires i_stands { Stands cx.old Int i (tree_of cx.old.trees i) }
    requires known { sort_mark cx.old.theory.declarations sort ≡ Good }
    requires group { has_class cx.old.theory.declarations sort Group ≡ true }
    requires library { HoldsLibrary cx.old.theory.lemmas }
    ensures turns { IfOk result (λ r. Turns cx.new sort r (integer_power_tree sort (Lit sort 1) (tree_of cx.old.trees i)) (Lit sort 1)) }
    ensures grows { Grows cx.old cx.new }
{
    by_lemma(cx, &ONE_ZPOW, sort, &[i], &[])
}

/// `a ^ (-i) = c`, from lines for `a ^ i = b` and `b⁻¹ = c`.
#[tactic(auto, using(crate::proofs::RowNames::syllable_rows))]
pub fn zpow_neg_lit(
    cx: &mut Builder,
    sort: Sort,
    a: ExprId,
    b: ExprId,
    c: ExprId,
    i: ExprId,
    first: usize,
    second: usize,
) -> Result<Rewriting, Memory>
    requires a_stands { Stands cx.old sort a (tree_of cx.old.trees a) }
    requires b_stands { Stands cx.old sort b (tree_of cx.old.trees b) }
    requires c_stands { Stands cx.old sort c (tree_of cx.old.trees c) }
    requires i_stands { Stands cx.old Int i (tree_of cx.old.trees i) }
    requires first_line { Proves cx.old first (integer_power_tree sort (tree_of cx.old.trees a) (tree_of cx.old.trees i)) (tree_of cx.old.trees b) }
    requires second_line { Proves cx.old second (inverse_tree sort (tree_of cx.old.trees b)) (tree_of cx.old.trees c) }
    requires group { has_class cx.old.theory.declarations sort Group ≡ true }
    requires library { HoldsLibrary cx.old.theory.lemmas }
    ensures turns { IfOk result (λ r. Turns cx.new sort r (integer_power_tree sort (tree_of cx.old.trees a) (negation_tree Int (tree_of cx.old.trees i))) (tree_of cx.old.trees c)) }
    ensures grows { Grows cx.old cx.new }
{
    by_lemma(cx, &ZPOW_NEG_LIT, sort, &[a, b, c, i], &[first, second])
}
