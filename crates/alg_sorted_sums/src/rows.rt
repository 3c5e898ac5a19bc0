//! The rows of sums that merging uses.
ghost use Rattle.std.specs.Prelude.{◌≡◌, IfOk, true};
ghost use Rattle.alg_terms.specs.Tree.{sum_tree, Lit};
ghost use Rattle.alg_expr.specs.Ids.{tree_of};
ghost use Rattle.alg_law.specs.declared.classes.Class.TheVariants.{AddCommMonoid, AddMonoid};
ghost use Rattle.alg_law.specs.Having.{has_class};
ghost use Rattle.alg_lemma.specs.Library.{HoldsLibrary};
ghost use Rattle.alg_build.specs.Book.{Grows, Proves};
ghost use Rattle.alg_build.specs.Rewriting.{Stands, Turns};

use alg_build::{Builder, Memory, Rewriting, by_law, by_lemma};
use alg_expr::{ExprId, Sort};
use alg_law::additive_laws::{ADD_ZERO, ZERO_ADD};
use alg_lemma::merges::{MERGE_LEFT, MERGE_RIGHT};
use alg_lemma::multiple_sums::SUM_DROP;
use alg_lemma::rearrangements::ADD_ADD_ADD_COMM;

/// `0 + a = a`.
#[tactic(auto, using(crate::proofs::RowNames::sums))]
pub fn zero_add(cx: &mut Builder, sort: Sort, a: ExprId) -> Result<Rewriting, Memory>
    requires a_stands { Stands cx.old sort a (tree_of cx.old.trees a) }
    requires add_monoid { has_class cx.old.theory.declarations sort AddMonoid ≡ true }
    ensures turns { IfOk result (λ r. Turns cx.new sort r (sum_tree sort (Lit sort 0) (tree_of cx.old.trees a)) (tree_of cx.old.trees a)) }
    ensures grows { Grows cx.old cx.new }
{
    by_law(cx, &ZERO_ADD, sort, &[a], &[])
}

/// `a + 0 = a`.
#[tactic(auto, using(crate::proofs::RowNames::sums))]
pub fn add_zero(cx: &mut Builder, sort: Sort, a: ExprId) -> Result<Rewriting, Memory>
    requires a_stands { Stands cx.old sort a (tree_of cx.old.trees a) }
    requires add_monoid { has_class cx.old.theory.declarations sort AddMonoid ≡ true }
    ensures turns { IfOk result (λ r. Turns cx.new sort r (sum_tree sort (tree_of cx.old.trees a) (Lit sort 0)) (tree_of cx.old.trees a)) }
    ensures grows { Grows cx.old cx.new }
{
    by_law(cx, &ADD_ZERO, sort, &[a], &[])
}

/// `a + b + c = d + b`, from a line for `a + c = d`.
#[tactic(auto, using(crate::proofs::RowNames::sums))]
pub fn merge_left(
    cx: &mut Builder,
    sort: Sort,
    a: ExprId,
    b: ExprId,
    c: ExprId,
    d: ExprId,
    first: usize,
) -> Result<Rewriting, Memory>
    requires a_stands { Stands cx.old sort a (tree_of cx.old.trees a) }
    requires b_stands { Stands cx.old sort b (tree_of cx.old.trees b) }
    requires c_stands { Stands cx.old sort c (tree_of cx.old.trees c) }
    requires d_stands { Stands cx.old sort d (tree_of cx.old.trees d) }
    requires first_line { Proves cx.old first (sum_tree sort (tree_of cx.old.trees a) (tree_of cx.old.trees c)) (tree_of cx.old.trees d) }
    requires add_comm_monoid { has_class cx.old.theory.declarations sort AddCommMonoid ≡ true }
    requires library { HoldsLibrary cx.old.theory.lemmas }
    ensures turns { IfOk result (λ r. Turns cx.new sort r (sum_tree sort (sum_tree sort (tree_of cx.old.trees a) (tree_of cx.old.trees b)) (tree_of cx.old.trees c)) (sum_tree sort (tree_of cx.old.trees d) (tree_of cx.old.trees b))) }
    ensures grows { Grows cx.old cx.new }
{
    by_lemma(cx, &MERGE_LEFT, sort, &[a, b, c, d], &[first])
}

/// `a + (b + c) = d + c`, from a line for `a + b = d`.
#[tactic(auto, using(crate::proofs::RowNames::sums))]
pub fn merge_right(
    cx: &mut Builder,
    sort: Sort,
    a: ExprId,
    b: ExprId,
    c: ExprId,
    d: ExprId,
    first: usize,
) -> Result<Rewriting, Memory>
    requires a_stands { Stands cx.old sort a (tree_of cx.old.trees a) }
    requires b_stands { Stands cx.old sort b (tree_of cx.old.trees b) }
    requires c_stands { Stands cx.old sort c (tree_of cx.old.trees c) }
    requires d_stands { Stands cx.old sort d (tree_of cx.old.trees d) }
    requires first_line { Proves cx.old first (sum_tree sort (tree_of cx.old.trees a) (tree_of cx.old.trees b)) (tree_of cx.old.trees d) }
    requires add_monoid { has_class cx.old.theory.declarations sort AddMonoid ≡ true }
    requires library { HoldsLibrary cx.old.theory.lemmas }
    ensures turns { IfOk result (λ r. Turns cx.new sort r (sum_tree sort (tree_of cx.old.trees a) (sum_tree sort (tree_of cx.old.trees b) (tree_of cx.old.trees c))) (sum_tree sort (tree_of cx.old.trees d) (tree_of cx.old.trees c))) }
    ensures grows { Grows cx.old cx.new }
{
    by_lemma(cx, &MERGE_RIGHT, sort, &[a, b, c, d], &[first])
}

/// `a + b + (c + d) = a + c + (b + d)`.
#[tactic(auto, using(crate::proofs::RowNames::sums))]
pub fn add_add_add_comm(
    cx: &mut Builder,
    sort: Sort,
    a: ExprId,
    b: ExprId,
    c: ExprId,
    d: ExprId,
) -> Result<Rewriting, Memory>
    requires a_stands { Stands cx.old sort a (tree_of cx.old.trees a) }
    requires b_stands { Stands cx.old sort b (tree_of cx.old.trees b) }
    requires c_stands { Stands cx.old sort c (tree_of cx.old.trees c) }
    requires d_stands { Stands cx.old sort d (tree_of cx.old.trees d) }
    requires add_comm_monoid { has_class cx.old.theory.declarations sort AddCommMonoid ≡ true }
    requires library { HoldsLibrary cx.old.theory.lemmas }
    ensures turns { IfOk result (λ r. Turns cx.new sort r (sum_tree sort (sum_tree sort (tree_of cx.old.trees a) (tree_of cx.old.trees b)) (sum_tree sort (tree_of cx.old.trees c) (tree_of cx.old.trees d))) (sum_tree sort (sum_tree sort (tree_of cx.old.trees a) (tree_of cx.old.trees c)) (sum_tree sort (tree_of cx.old.trees b) (tree_of cx.old.trees d)))) }
    ensures grows { Grows cx.old cx.new }
{
    by_lemma(cx, &ADD_ADD_ADD_COMM, sort, &[a, b, c, d], &[])
}

/// `a + b + (c + d) = a + c`, from a line for `b + d = 0`.
#[tactic(auto, using(crate::proofs::RowNames::sums))]
pub fn sum_drop(
    cx: &mut Builder,
    sort: Sort,
    a: ExprId,
    b: ExprId,
    c: ExprId,
    d: ExprId,
    first: usize,
) -> Result<Rewriting, Memory>
    requires a_stands { Stands cx.old sort a (tree_of cx.old.trees a) }
    requires b_stands { Stands cx.old sort b (tree_of cx.old.trees b) }
    requires c_stands { Stands cx.old sort c (tree_of cx.old.trees c) }
    requires d_stands { Stands cx.old sort d (tree_of cx.old.trees d) }
    requires first_line { Proves cx.old first (sum_tree sort (tree_of cx.old.trees b) (tree_of cx.old.trees d)) (Lit sort 0) }
    requires add_comm_monoid { has_class cx.old.theory.declarations sort AddCommMonoid ≡ true }
    requires library { HoldsLibrary cx.old.theory.lemmas }
    ensures turns { IfOk result (λ r. Turns cx.new sort r (sum_tree sort (sum_tree sort (tree_of cx.old.trees a) (tree_of cx.old.trees b)) (sum_tree sort (tree_of cx.old.trees c) (tree_of cx.old.trees d))) (sum_tree sort (tree_of cx.old.trees a) (tree_of cx.old.trees c))) }
    ensures grows { Grows cx.old cx.new }
{
    by_lemma(cx, &SUM_DROP, sort, &[a, b, c, d], &[first])
}
