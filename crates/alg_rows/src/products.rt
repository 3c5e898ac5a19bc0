//! Products.
ghost use Rattle.std.specs.Prelude.{◌≡◌, IfOk, true};
ghost use Rattle.alg_terms.specs.Tree.{sum_tree, product_tree, Lit};
ghost use Rattle.alg_expr.specs.Ids.{tree_of};
ghost use Rattle.alg_law.specs.declared.classes.Class.TheVariants.{Monoid, Ring, Semiring};
ghost use Rattle.alg_law.specs.Having.{has_class};
ghost use Rattle.alg_lemma.specs.Library.{HoldsLibrary};
ghost use Rattle.alg_build.specs.Book.{Grows, Proves};
ghost use Rattle.alg_build.specs.Rewriting.{Stands, Turns};
ghost use Rattle.alg_rows.specs.Operations.{difference_tree, negation_tree};

use alg_build::{Builder, Memory, Rewriting, by_law, by_lemma};
use alg_expr::{ExprId, Sort};
use alg_law::multiplicative_laws::{MUL_ONE, ONE_MUL};
use alg_law::ring_laws::{MUL_ZERO, RIGHT_DISTRIB, ZERO_MUL};
use alg_lemma::factors::SUB_MUL;
use alg_lemma::signs::{MUL_NEG_LIT, NEG_MUL_LIT, NEG_MUL_NEG};

/// `1 * a = a`.
#[tactic(auto, using(crate::proofs::RowNames::products))]
pub fn one_mul(cx: &mut Builder, sort: Sort, a: ExprId) -> Result<Rewriting, Memory>
    requires a_stands { Stands cx.old sort a (tree_of cx.old.trees a) }
    requires monoid { has_class cx.old.theory.declarations sort Monoid ≡ true }
    ensures turns { IfOk result (λ r. Turns cx.new sort r (product_tree sort (Lit sort 1) (tree_of cx.old.trees a)) (tree_of cx.old.trees a)) }
    ensures grows { Grows cx.old cx.new }
{
    by_law(cx, &ONE_MUL, sort, &[a], &[])
}

/// `a * 1 = a`.
#[tactic(auto, using(crate::proofs::RowNames::products))]
pub fn mul_one(cx: &mut Builder, sort: Sort, a: ExprId) -> Result<Rewriting, Memory>
    requires a_stands { Stands cx.old sort a (tree_of cx.old.trees a) }
    requires monoid { has_class cx.old.theory.declarations sort Monoid ≡ true }
    ensures turns { IfOk result (λ r. Turns cx.new sort r (product_tree sort (tree_of cx.old.trees a) (Lit sort 1)) (tree_of cx.old.trees a)) }
    ensures grows { Grows cx.old cx.new }
{
    by_law(cx, &MUL_ONE, sort, &[a], &[])
}

/// `0 * a = 0`.
#[tactic(auto, using(crate::proofs::RowNames::products))]
pub fn zero_mul(cx: &mut Builder, sort: Sort, a: ExprId) -> Result<Rewriting, Memory>
    requires a_stands { Stands cx.old sort a (tree_of cx.old.trees a) }
    requires semiring { has_class cx.old.theory.declarations sort Semiring ≡ true }
    ensures turns { IfOk result (λ r. Turns cx.new sort r (product_tree sort (Lit sort 0) (tree_of cx.old.trees a)) (Lit sort 0)) }
    ensures grows { Grows cx.old cx.new }
{
    by_law(cx, &ZERO_MUL, sort, &[a], &[])
}

/// `a * 0 = 0`.
#[tactic(auto, using(crate::proofs::RowNames::products))]
pub fn mul_zero(cx: &mut Builder, sort: Sort, a: ExprId) -> Result<Rewriting, Memory>
    requires a_stands { Stands cx.old sort a (tree_of cx.old.trees a) }
    requires semiring { has_class cx.old.theory.declarations sort Semiring ≡ true }
    ensures turns { IfOk result (λ r. Turns cx.new sort r (product_tree sort (tree_of cx.old.trees a) (Lit sort 0)) (Lit sort 0)) }
    ensures grows { Grows cx.old cx.new }
{
    by_law(cx, &MUL_ZERO, sort, &[a], &[])
}

/// `(a + b) * c = a * c + b * c`.
#[tactic(auto, using(crate::proofs::RowNames::products))]
pub fn right_distrib(
    cx: &mut Builder,
    sort: Sort,
    a: ExprId,
    b: ExprId,
    c: ExprId,
) -> Result<Rewriting, Memory>
    requires a_stands { Stands cx.old sort a (tree_of cx.old.trees a) }
    requires b_stands { Stands cx.old sort b (tree_of cx.old.trees b) }
    requires c_stands { Stands cx.old sort c (tree_of cx.old.trees c) }
    requires semiring { has_class cx.old.theory.declarations sort Semiring ≡ true }
    ensures turns { IfOk result (λ r. Turns cx.new sort r (product_tree sort (sum_tree sort (tree_of cx.old.trees a) (tree_of cx.old.trees b)) (tree_of cx.old.trees c)) (sum_tree sort (product_tree sort (tree_of cx.old.trees a) (tree_of cx.old.trees c)) (product_tree sort (tree_of cx.old.trees b) (tree_of cx.old.trees c)))) }
    ensures grows { Grows cx.old cx.new }
{
    by_law(cx, &RIGHT_DISTRIB, sort, &[a, b, c], &[])
}

/// `(a - b) * c = a * c - b * c`.
#[tactic(auto, using(crate::proofs::RowNames::products))]
pub fn sub_mul(
    cx: &mut Builder,
    sort: Sort,
    a: ExprId,
    b: ExprId,
    c: ExprId,
) -> Result<Rewriting, Memory>
    requires a_stands { Stands cx.old sort a (tree_of cx.old.trees a) }
    requires b_stands { Stands cx.old sort b (tree_of cx.old.trees b) }
    requires c_stands { Stands cx.old sort c (tree_of cx.old.trees c) }
    requires ring { has_class cx.old.theory.declarations sort Ring ≡ true }
    requires library { HoldsLibrary cx.old.theory.lemmas }
    ensures turns { IfOk result (λ r. Turns cx.new sort r (product_tree sort (difference_tree sort (tree_of cx.old.trees a) (tree_of cx.old.trees b)) (tree_of cx.old.trees c)) (difference_tree sort (product_tree sort (tree_of cx.old.trees a) (tree_of cx.old.trees c)) (product_tree sort (tree_of cx.old.trees b) (tree_of cx.old.trees c)))) }
    ensures grows { Grows cx.old cx.new }
{
    by_lemma(cx, &SUB_MUL, sort, &[a, b, c], &[])
}

/// `-a * b = -c`, from a line for `a * b = c`.
#[tactic(auto, using(crate::proofs::RowNames::products))]
pub fn neg_mul_lit(
    cx: &mut Builder,
    sort: Sort,
    a: ExprId,
    b: ExprId,
    c: ExprId,
    first: usize,
) -> Result<Rewriting, Memory>
    requires a_stands { Stands cx.old sort a (tree_of cx.old.trees a) }
    requires b_stands { Stands cx.old sort b (tree_of cx.old.trees b) }
    requires c_stands { Stands cx.old sort c (tree_of cx.old.trees c) }
    requires first_line { Proves cx.old first (product_tree sort (tree_of cx.old.trees a) (tree_of cx.old.trees b)) (tree_of cx.old.trees c) }
    requires ring { has_class cx.old.theory.declarations sort Ring ≡ true }
    requires library { HoldsLibrary cx.old.theory.lemmas }
    ensures turns { IfOk result (λ r. Turns cx.new sort r (product_tree sort (negation_tree sort (tree_of cx.old.trees a)) (tree_of cx.old.trees b)) (negation_tree sort (tree_of cx.old.trees c))) }
    ensures grows { Grows cx.old cx.new }
{
    by_lemma(cx, &NEG_MUL_LIT, sort, &[a, b, c], &[first])
}

/// `a * -b = -c`, from a line for `a * b = c`.
#[tactic(auto, using(crate::proofs::RowNames::products))]
pub fn mul_neg_lit(
    cx: &mut Builder,
    sort: Sort,
    a: ExprId,
    b: ExprId,
    c: ExprId,
    first: usize,
) -> Result<Rewriting, Memory>
    requires a_stands { Stands cx.old sort a (tree_of cx.old.trees a) }
    requires b_stands { Stands cx.old sort b (tree_of cx.old.trees b) }
    requires c_stands { Stands cx.old sort c (tree_of cx.old.trees c) }
    requires first_line { Proves cx.old first (product_tree sort (tree_of cx.old.trees a) (tree_of cx.old.trees b)) (tree_of cx.old.trees c) }
    requires ring { has_class cx.old.theory.declarations sort Ring ≡ true }
    requires library { HoldsLibrary cx.old.theory.lemmas }
    ensures turns { IfOk result (λ r. Turns cx.new sort r (product_tree sort (tree_of cx.old.trees a) (negation_tree sort (tree_of cx.old.trees b))) (negation_tree sort (tree_of cx.old.trees c))) }
    ensures grows { Grows cx.old cx.new }
{
    by_lemma(cx, &MUL_NEG_LIT, sort, &[a, b, c], &[first])
}

/// `-a * -b = c`, from a line for `a * b = c`.
#[tactic(auto, using(crate::proofs::RowNames::products))]
pub fn neg_mul_neg(
    cx: &mut Builder,
    sort: Sort,
    a: ExprId,
    b: ExprId,
    c: ExprId,
    first: usize,
) -> Result<Rewriting, Memory>
    requires a_stands { Stands cx.old sort a (tree_of cx.old.trees a) }
    requires b_stands { Stands cx.old sort b (tree_of cx.old.trees b) }
    requires c_stands { Stands cx.old sort c (tree_of cx.old.trees c) }
    requires first_line { Proves cx.old first (product_tree sort (tree_of cx.old.trees a) (tree_of cx.old.trees b)) (tree_of cx.old.trees c) }
    requires ring { has_class cx.old.theory.declarations sort Ring ≡ true }
    requires library { HoldsLibrary cx.old.theory.lemmas }
    ensures turns { IfOk result (λ r. Turns cx.new sort r (product_tree sort (negation_tree sort (tree_of cx.old.trees a)) (negation_tree sort (tree_of cx.old.trees b))) (tree_of cx.old.trees c)) }
    ensures grows { Grows cx.old cx.new }
{
    by_lemma(cx, &NEG_MUL_NEG, sort, &[a, b, c], &[first])
}
