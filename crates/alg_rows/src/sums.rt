//! Sums, differences and negations.
ghost use Rattle.std.specs.Prelude.{◌≡◌, IfOk, true};
ghost use Rattle.alg_terms.specs.Tree.{sum_tree, Lit};
ghost use Rattle.alg_expr.specs.Ids.{tree_of};
ghost use Rattle.alg_law.specs.declared.classes.Class.TheVariants.{AddCommGroup, AddGroup, AddMonoid};
ghost use Rattle.alg_law.specs.Having.{has_class};
ghost use Rattle.alg_law.specs.declared.marks.Mark.TheVariants.{Good};
ghost use Rattle.alg_law.specs.WellSorted.{sort_mark};
ghost use Rattle.alg_lemma.specs.Library.{HoldsLibrary};
ghost use Rattle.alg_build.specs.Book.{Grows, Proves};
ghost use Rattle.alg_build.specs.Rewriting.{Stands, Turns};
ghost use Rattle.alg_rows.specs.Operations.{difference_tree, negation_tree};

use alg_build::{Builder, Memory, Rewriting, by_law, by_lemma};
use alg_expr::{ExprId, Sort};
use alg_law::additive_laws::{ADD_ZERO, ZERO_ADD};
use alg_lemma::negations::{ADD_NEG_NEG, ADD_NEG_POS, NEG_ADD_NEG_LIT, NEG_NEG, NEG_ZERO};
use alg_lemma::node_products::SUB_OF_NEG;
use alg_lemma::signs::{NEG_ADD_NEGR, NEG_ADD_POS, SUB_EQ_OF_ADD};

/// `0 + a = a`.
#[tactic(auto, using(crate::proofs::RowNames::sums))]
pub fn zero_add(cx: &mut Builder, sort: Sort, a: ExprId) -> Result<Rewriting, Memory>
    requires a_stands { Stands cx.old sort a (tree_of cx.old.trees a) }
    requires add_monoid { has_class cx.old.theory.declarations sort AddMonoid ≡ true }
    ensures turns { IfOk result (λ r. Turns cx.new sort r (sum_tree sort (Lit sort 0) (tree_of cx.old.trees a)) (tree_of cx.old.trees a)) }
    ensures grows { Grows cx.old cx.new }
{
    by_law(cx, &ZERO_ADD, sort, &[a], &[])
}

/// `a + 0 = a`.
#[tactic(auto, using(crate::proofs::RowNames::sums))]
pub fn add_zero(cx: &mut Builder, sort: Sort, a: ExprId) -> Result<Rewriting, Memory>
    requires a_stands { Stands cx.old sort a (tree_of cx.old.trees a) }
    requires add_monoid { has_class cx.old.theory.declarations sort AddMonoid ≡ true }
    ensures turns { IfOk result (λ r. Turns cx.new sort r (sum_tree sort (tree_of cx.old.trees a) (Lit sort 0)) (tree_of cx.old.trees a)) }
    ensures grows { Grows cx.old cx.new }
{
    by_law(cx, &ADD_ZERO, sort, &[a], &[])
}

/// `--a = a`.
#[tactic(auto, using(crate::proofs::RowNames::sums))]
pub fn neg_neg(cx: &mut Builder, sort: Sort, a: ExprId) -> Result<Rewriting, Memory>
    requires a_stands { Stands cx.old sort a (tree_of cx.old.trees a) }
    requires add_group { has_class cx.old.theory.declarations sort AddGroup ≡ true }
    requires library { HoldsLibrary cx.old.theory.lemmas }
    ensures turns { IfOk result (λ r. Turns cx.new sort r (negation_tree sort (negation_tree sort (tree_of cx.old.trees a))) (tree_of cx.old.trees a)) }
    ensures grows { Grows cx.old cx.new }
{
    by_lemma(cx, &NEG_NEG, sort, &[a], &[])
}

/// `-0 = 0`.
#[tactic(auto, using(crate::proofs::RowNames::sums))]
pub fn neg_zero(cx: &mut Builder, sort: Sort) -> Result<Rewriting, Memory>
    requires known { sort_mark cx.old.theory.declarations sort ≡ Good }
    requires add_group { has_class cx.old.theory.declarations sort AddGroup ≡ true }
    requires library { HoldsLibrary cx.old.theory.lemmas }
    ensures turns { IfOk result (λ r. Turns cx.new sort r (negation_tree sort (Lit sort 0)) (Lit sort 0)) }
    ensures grows { Grows cx.old cx.new }
{
    by_lemma(cx, &NEG_ZERO, sort, &[], &[])
}

/// `-a + -b = -c`, from a line for `a + b = c`.
#[tactic(auto, using(crate::proofs::RowNames::sums))]
pub fn neg_add_neg_lit(
    cx: &mut Builder,
    sort: Sort,
    a: ExprId,
    b: ExprId,
    c: ExprId,
    first: usize,
) -> Result<Rewriting, Memory>
    requires a_stands { Stands cx.old sort a (tree_of cx.old.trees a) }
    requires b_stands { Stands cx.old sort b (tree_of cx.old.trees b) }
    requires c_stands { Stands cx.old sort c (tree_of cx.old.trees c) }
    requires first_line { Proves cx.old first (sum_tree sort (tree_of cx.old.trees a) (tree_of cx.old.trees b)) (tree_of cx.old.trees c) }
    requires add_comm_group { has_class cx.old.theory.declarations sort AddCommGroup ≡ true }
    requires library { HoldsLibrary cx.old.theory.lemmas }
    ensures turns { IfOk result (λ r. Turns cx.new sort r (sum_tree sort (negation_tree sort (tree_of cx.old.trees a)) (negation_tree sort (tree_of cx.old.trees b))) (negation_tree sort (tree_of cx.old.trees c))) }
    ensures grows { Grows cx.old cx.new }
{
    by_lemma(cx, &NEG_ADD_NEG_LIT, sort, &[a, b, c], &[first])
}

/// `a + -b = c`, from a line for `c + b = a`.
#[tactic(auto, using(crate::proofs::RowNames::sums))]
pub fn add_neg_pos(
    cx: &mut Builder,
    sort: Sort,
    a: ExprId,
    b: ExprId,
    c: ExprId,
    first: usize,
) -> Result<Rewriting, Memory>
    requires a_stands { Stands cx.old sort a (tree_of cx.old.trees a) }
    requires b_stands { Stands cx.old sort b (tree_of cx.old.trees b) }
    requires c_stands { Stands cx.old sort c (tree_of cx.old.trees c) }
    requires first_line { Proves cx.old first (sum_tree sort (tree_of cx.old.trees c) (tree_of cx.old.trees b)) (tree_of cx.old.trees a) }
    requires add_group { has_class cx.old.theory.declarations sort AddGroup ≡ true }
    requires library { HoldsLibrary cx.old.theory.lemmas }
    ensures turns { IfOk result (λ r. Turns cx.new sort r (sum_tree sort (tree_of cx.old.trees a) (negation_tree sort (tree_of cx.old.trees b))) (tree_of cx.old.trees c)) }
    ensures grows { Grows cx.old cx.new }
{
    by_lemma(cx, &ADD_NEG_POS, sort, &[a, b, c], &[first])
}

/// `a + -b = -c`, from a line for `a + c = b`.
#[tactic(auto, using(crate::proofs::RowNames::sums))]
pub fn add_neg_neg(
    cx: &mut Builder,
    sort: Sort,
    a: ExprId,
    b: ExprId,
    c: ExprId,
    first: usize,
) -> Result<Rewriting, Memory>
    requires a_stands { Stands cx.old sort a (tree_of cx.old.trees a) }
    requires b_stands { Stands cx.old sort b (tree_of cx.old.trees b) }
    requires c_stands { Stands cx.old sort c (tree_of cx.old.trees c) }
    requires first_line { Proves cx.old first (sum_tree sort (tree_of cx.old.trees a) (tree_of cx.old.trees c)) (tree_of cx.old.trees b) }
    requires add_comm_group { has_class cx.old.theory.declarations sort AddCommGroup ≡ true }
    requires library { HoldsLibrary cx.old.theory.lemmas }
    ensures turns { IfOk result (λ r. Turns cx.new sort r (sum_tree sort (tree_of cx.old.trees a) (negation_tree sort (tree_of cx.old.trees b))) (negation_tree sort (tree_of cx.old.trees c))) }
    ensures grows { Grows cx.old cx.new }
{
    by_lemma(cx, &ADD_NEG_NEG, sort, &[a, b, c], &[first])
}

/// `-a + b = c`, from a line for `c + a = b`.
#[tactic(auto, using(crate::proofs::RowNames::sums))]
pub fn neg_add_pos(
    cx: &mut Builder,
    sort: Sort,
    a: ExprId,
    b: ExprId,
    c: ExprId,
    first: usize,
) -> Result<Rewriting, Memory>
    requires a_stands { Stands cx.old sort a (tree_of cx.old.trees a) }
    requires b_stands { Stands cx.old sort b (tree_of cx.old.trees b) }
    requires c_stands { Stands cx.old sort c (tree_of cx.old.trees c) }
    requires first_line { Proves cx.old first (sum_tree sort (tree_of cx.old.trees c) (tree_of cx.old.trees a)) (tree_of cx.old.trees b) }
    requires add_comm_group { has_class cx.old.theory.declarations sort AddCommGroup ≡ true }
    requires library { HoldsLibrary cx.old.theory.lemmas }
    ensures turns { IfOk result (λ r. Turns cx.new sort r (sum_tree sort (negation_tree sort (tree_of cx.old.trees a)) (tree_of cx.old.trees b)) (tree_of cx.old.trees c)) }
    ensures grows { Grows cx.old cx.new }
{
    by_lemma(cx, &NEG_ADD_POS, sort, &[a, b, c], &[first])
}

/// `-a + b = -c`, from a line for `b + c = a`.
#[tactic(auto, using(crate::proofs::RowNames::sums))]
pub fn neg_add_negr(
    cx: &mut Builder,
    sort: Sort,
    a: ExprId,
    b: ExprId,
    c: ExprId,
    first: usize,
) -> Result<Rewriting, Memory>
    requires a_stands { Stands cx.old sort a (tree_of cx.old.trees a) }
    requires b_stands { Stands cx.old sort b (tree_of cx.old.trees b) }
    requires c_stands { Stands cx.old sort c (tree_of cx.old.trees c) }
    requires first_line { Proves cx.old first (sum_tree sort (tree_of cx.old.trees b) (tree_of cx.old.trees c)) (tree_of cx.old.trees a) }
    requires add_comm_group { has_class cx.old.theory.declarations sort AddCommGroup ≡ true }
    requires library { HoldsLibrary cx.old.theory.lemmas }
    ensures turns { IfOk result (λ r. Turns cx.new sort r (sum_tree sort (negation_tree sort (tree_of cx.old.trees a)) (tree_of cx.old.trees b)) (negation_tree sort (tree_of cx.old.trees c))) }
    ensures grows { Grows cx.old cx.new }
{
    by_lemma(cx, &NEG_ADD_NEGR, sort, &[a, b, c], &[first])
}

/// `a - b = c`, from a line for `c + b = a`.
#[tactic(auto, using(crate::proofs::RowNames::sums))]
pub fn sub_eq_of_add(
    cx: &mut Builder,
    sort: Sort,
    a: ExprId,
    b: ExprId,
    c: ExprId,
    first: usize,
) -> Result<Rewriting, Memory>
    requires a_stands { Stands cx.old sort a (tree_of cx.old.trees a) }
    requires b_stands { Stands cx.old sort b (tree_of cx.old.trees b) }
    requires c_stands { Stands cx.old sort c (tree_of cx.old.trees c) }
    requires first_line { Proves cx.old first (sum_tree sort (tree_of cx.old.trees c) (tree_of cx.old.trees b)) (tree_of cx.old.trees a) }
    requires add_group { has_class cx.old.theory.declarations sort AddGroup ≡ true }
    requires library { HoldsLibrary cx.old.theory.lemmas }
    ensures turns { IfOk result (λ r. Turns cx.new sort r (difference_tree sort (tree_of cx.old.trees a) (tree_of cx.old.trees b)) (tree_of cx.old.trees c)) }
    ensures grows { Grows cx.old cx.new }
{
    by_lemma(cx, &SUB_EQ_OF_ADD, sort, &[a, b, c], &[first])
}

/// `a - b = d`, from lines for `-b = c` and `a + c = d`.
#[tactic(auto, using(crate::proofs::RowNames::sums))]
pub fn sub_of_neg(
    cx: &mut Builder,
    sort: Sort,
    a: ExprId,
    b: ExprId,
    c: ExprId,
    d: ExprId,
    first: usize,
    second: usize,
) -> Result<Rewriting, Memory>
    requires a_stands { Stands cx.old sort a (tree_of cx.old.trees a) }
    requires b_stands { Stands cx.old sort b (tree_of cx.old.trees b) }
    requires c_stands { Stands cx.old sort c (tree_of cx.old.trees c) }
    requires d_stands { Stands cx.old sort d (tree_of cx.old.trees d) }
    requires first_line { Proves cx.old first (negation_tree sort (tree_of cx.old.trees b)) (tree_of cx.old.trees c) }
    requires second_line { Proves cx.old second (sum_tree sort (tree_of cx.old.trees a) (tree_of cx.old.trees c)) (tree_of cx.old.trees d) }
    requires add_group { has_class cx.old.theory.declarations sort AddGroup ≡ true }
    requires library { HoldsLibrary cx.old.theory.lemmas }
    ensures turns { IfOk result (λ r. Turns cx.new sort r (difference_tree sort (tree_of cx.old.trees a) (tree_of cx.old.trees b)) (tree_of cx.old.trees d)) }
    ensures grows { Grows cx.old cx.new }
{
    by_lemma(cx, &SUB_OF_NEG, sort, &[a, b, c, d], &[first, second])
}
