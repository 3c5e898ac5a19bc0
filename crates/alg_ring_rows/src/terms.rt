//! Terms as they are written.
ghost use Rattle.std.specs.Prelude.{◌≡◌, IfOk, true};
ghost use Rattle.alg_terms.specs.Tree.{sum_tree, product_tree, Lit};
ghost use Rattle.alg_expr.specs.Ids.{tree_of};
ghost use Rattle.alg_law.specs.declared.classes.Class.TheVariants.{AddMonoid, Ring, Semiring};
ghost use Rattle.alg_law.specs.Having.{has_class};
ghost use Rattle.alg_lemma.specs.Library.{HoldsLibrary};
ghost use Rattle.alg_build.specs.Book.{Grows, Proves};
ghost use Rattle.alg_build.specs.Rewriting.{Stands, Turns};
ghost use Rattle.alg_rows.specs.Operations.{difference_tree, negation_tree};

use alg_build::{Builder, Memory, Rewriting, by_lemma};
use alg_expr::{ExprId, Sort};
use alg_lemma::written_terms::{
    FIRST_CONST, FIRST_NEG, FIRST_NEG_ONE, FIRST_ONE, NEXT_COEF, NEXT_CONST, NEXT_CONST_NEG,
    NEXT_NEG, NEXT_NEG_ONE, NEXT_ONE,
};

/// `0 + a * 1 = a`.
#[tactic(auto, using(crate::proofs::RowNames::terms))]
pub fn first_one(cx: &mut Builder, sort: Sort, a: ExprId) -> Result<Rewriting, Memory>
    requires a_stands { Stands cx.old sort a (tree_of cx.old.trees a) }
    requires semiring { has_class cx.old.theory.declarations sort Semiring ≡ true }
    requires library { HoldsLibrary cx.old.theory.lemmas }
    ensures turns { IfOk result (λ r. Turns cx.new sort r (sum_tree sort (Lit sort 0) (product_tree sort (tree_of cx.old.trees a) (Lit sort 1))) (tree_of cx.old.trees a)) }
    ensures grows { Grows cx.old cx.new }
{
    by_lemma(cx, &FIRST_ONE, sort, &[a], &[])
}

/// `0 + a * -b = -(a * b)`.
#[tactic(auto, using(crate::proofs::RowNames::terms))]
pub fn first_neg(cx: &mut Builder, sort: Sort, a: ExprId, b: ExprId) -> Result<Rewriting, Memory>
    requires a_stands { Stands cx.old sort a (tree_of cx.old.trees a) }
    requires b_stands { Stands cx.old sort b (tree_of cx.old.trees b) }
    requires ring { has_class cx.old.theory.declarations sort Ring ≡ true }
    requires library { HoldsLibrary cx.old.theory.lemmas }
    ensures turns { IfOk result (λ r. Turns cx.new sort r (sum_tree sort (Lit sort 0) (product_tree sort (tree_of cx.old.trees a) (negation_tree sort (tree_of cx.old.trees b)))) (negation_tree sort (product_tree sort (tree_of cx.old.trees a) (tree_of cx.old.trees b)))) }
    ensures grows { Grows cx.old cx.new }
{
    by_lemma(cx, &FIRST_NEG, sort, &[a, b], &[])
}

/// `0 + a * -1 = -a`.
#[tactic(auto, using(crate::proofs::RowNames::terms))]
pub fn first_neg_one(cx: &mut Builder, sort: Sort, a: ExprId) -> Result<Rewriting, Memory>
    requires a_stands { Stands cx.old sort a (tree_of cx.old.trees a) }
    requires ring { has_class cx.old.theory.declarations sort Ring ≡ true }
    requires library { HoldsLibrary cx.old.theory.lemmas }
    ensures turns { IfOk result (λ r. Turns cx.new sort r (sum_tree sort (Lit sort 0) (product_tree sort (tree_of cx.old.trees a) (negation_tree sort (Lit sort 1)))) (negation_tree sort (tree_of cx.old.trees a))) }
    ensures grows { Grows cx.old cx.new }
{
    by_lemma(cx, &FIRST_NEG_ONE, sort, &[a], &[])
}

/// `0 + 1 * a = a`.
#[tactic(auto, using(crate::proofs::RowNames::terms))]
pub fn first_const(cx: &mut Builder, sort: Sort, a: ExprId) -> Result<Rewriting, Memory>
    requires a_stands { Stands cx.old sort a (tree_of cx.old.trees a) }
    requires semiring { has_class cx.old.theory.declarations sort Semiring ≡ true }
    requires library { HoldsLibrary cx.old.theory.lemmas }
    ensures turns { IfOk result (λ r. Turns cx.new sort r (sum_tree sort (Lit sort 0) (product_tree sort (Lit sort 1) (tree_of cx.old.trees a))) (tree_of cx.old.trees a)) }
    ensures grows { Grows cx.old cx.new }
{
    by_lemma(cx, &FIRST_CONST, sort, &[a], &[])
}

/// `a + b = c + b`, from a line for `a = c`.
#[tactic(auto, using(crate::proofs::RowNames::terms))]
pub fn next_coef(
    cx: &mut Builder,
    sort: Sort,
    a: ExprId,
    b: ExprId,
    c: ExprId,
    first: usize,
) -> Result<Rewriting, Memory>
    requires a_stands { Stands cx.old sort a (tree_of cx.old.trees a) }
    requires b_stands { Stands cx.old sort b (tree_of cx.old.trees b) }
    requires c_stands { Stands cx.old sort c (tree_of cx.old.trees c) }
    requires first_line { Proves cx.old first (tree_of cx.old.trees a) (tree_of cx.old.trees c) }
    requires add_monoid { has_class cx.old.theory.declarations sort AddMonoid ≡ true }
    requires library { HoldsLibrary cx.old.theory.lemmas }
    ensures turns { IfOk result (λ r. Turns cx.new sort r (sum_tree sort (tree_of cx.old.trees a) (tree_of cx.old.trees b)) (sum_tree sort (tree_of cx.old.trees c) (tree_of cx.old.trees b))) }
    ensures grows { Grows cx.old cx.new }
{
    by_lemma(cx, &NEXT_COEF, sort, &[a, b, c], &[first])
}

/// `a + b * 1 = c + b`, from a line for `a = c`.
#[tactic(auto, using(crate::proofs::RowNames::terms))]
pub fn next_one(
    cx: &mut Builder,
    sort: Sort,
    a: ExprId,
    b: ExprId,
    c: ExprId,
    first: usize,
) -> Result<Rewriting, Memory>
    requires a_stands { Stands cx.old sort a (tree_of cx.old.trees a) }
    requires b_stands { Stands cx.old sort b (tree_of cx.old.trees b) }
    requires c_stands { Stands cx.old sort c (tree_of cx.old.trees c) }
    requires first_line { Proves cx.old first (tree_of cx.old.trees a) (tree_of cx.old.trees c) }
    requires semiring { has_class cx.old.theory.declarations sort Semiring ≡ true }
    requires library { HoldsLibrary cx.old.theory.lemmas }
    ensures turns { IfOk result (λ r. Turns cx.new sort r (sum_tree sort (tree_of cx.old.trees a) (product_tree sort (tree_of cx.old.trees b) (Lit sort 1))) (sum_tree sort (tree_of cx.old.trees c) (tree_of cx.old.trees b))) }
    ensures grows { Grows cx.old cx.new }
{
    by_lemma(cx, &NEXT_ONE, sort, &[a, b, c], &[first])
}

/// `a + b * -d = c - b * d`, from a line for `a = c`.
#[tactic(auto, using(crate::proofs::RowNames::terms))]
pub fn next_neg(
    cx: &mut Builder,
    sort: Sort,
    a: ExprId,
    b: ExprId,
    c: ExprId,
    d: ExprId,
    first: usize,
) -> Result<Rewriting, Memory>
    requires a_stands { Stands cx.old sort a (tree_of cx.old.trees a) }
    requires b_stands { Stands cx.old sort b (tree_of cx.old.trees b) }
    requires c_stands { Stands cx.old sort c (tree_of cx.old.trees c) }
    requires d_stands { Stands cx.old sort d (tree_of cx.old.trees d) }
    requires first_line { Proves cx.old first (tree_of cx.old.trees a) (tree_of cx.old.trees c) }
    requires ring { has_class cx.old.theory.declarations sort Ring ≡ true }
    requires library { HoldsLibrary cx.old.theory.lemmas }
    ensures turns { IfOk result (λ r. Turns cx.new sort r (sum_tree sort (tree_of cx.old.trees a) (product_tree sort (tree_of cx.old.trees b) (negation_tree sort (tree_of cx.old.trees d)))) (difference_tree sort (tree_of cx.old.trees c) (product_tree sort (tree_of cx.old.trees b) (tree_of cx.old.trees d)))) }
    ensures grows { Grows cx.old cx.new }
{
    by_lemma(cx, &NEXT_NEG, sort, &[a, b, c, d], &[first])
}

/// `a + b * -1 = c - b`, from a line for `a = c`.
#[tactic(auto, using(crate::proofs::RowNames::terms))]
pub fn next_neg_one(
    cx: &mut Builder,
    sort: Sort,
    a: ExprId,
    b: ExprId,
    c: ExprId,
    first: usize,
) -> Result<Rewriting, Memory>
    requires a_stands { Stands cx.old sort a (tree_of cx.old.trees a) }
    requires b_stands { Stands cx.old sort b (tree_of cx.old.trees b) }
    requires c_stands { Stands cx.old sort c (tree_of cx.old.trees c) }
    requires first_line { Proves cx.old first (tree_of cx.old.trees a) (tree_of cx.old.trees c) }
    requires ring { has_class cx.old.theory.declarations sort Ring ≡ true }
    requires library { HoldsLibrary cx.old.theory.lemmas }
    ensures turns { IfOk result (λ r. Turns cx.new sort r (sum_tree sort (tree_of cx.old.trees a) (product_tree sort (tree_of cx.old.trees b) (negation_tree sort (Lit sort 1)))) (difference_tree sort (tree_of cx.old.trees c) (tree_of cx.old.trees b))) }
    ensures grows { Grows cx.old cx.new }
{
    by_lemma(cx, &NEXT_NEG_ONE, sort, &[a, b, c], &[first])
}

/// `a + 1 * b = c + b`, from a line for `a = c`.
#[tactic(auto, using(crate::proofs::RowNames::terms))]
pub fn next_const(
    cx: &mut Builder,
    sort: Sort,
    a: ExprId,
    b: ExprId,
    c: ExprId,
    first: usize,
) -> Result<Rewriting, Memory>
    requires a_stands { Stands cx.old sort a (tree_of cx.old.trees a) }
    requires b_stands { Stands cx.old sort b (tree_of cx.old.trees b) }
    requires c_stands { Stands cx.old sort c (tree_of cx.old.trees c) }
    requires first_line { Proves cx.old first (tree_of cx.old.trees a) (tree_of cx.old.trees c) }
    requires semiring { has_class cx.old.theory.declarations sort Semiring ≡ true }
    requires library { HoldsLibrary cx.old.theory.lemmas }
    ensures turns { IfOk result (λ r. Turns cx.new sort r (sum_tree sort (tree_of cx.old.trees a) (product_tree sort (Lit sort 1) (tree_of cx.old.trees b))) (sum_tree sort (tree_of cx.old.trees c) (tree_of cx.old.trees b))) }
    ensures grows { Grows cx.old cx.new }
{
    by_lemma(cx, &NEXT_CONST, sort, &[a, b, c], &[first])
}

/// `a + 1 * -b = c - b`, from a line for `a = c`.
#[tactic(auto, using(crate::proofs::RowNames::terms))]
pub fn next_const_neg(
    cx: &mut Builder,
    sort: Sort,
    a: ExprId,
    b: ExprId,
    c: ExprId,
    first: usize,
) -> Result<Rewriting, Memory>
    requires a_stands { Stands cx.old sort a (tree_of cx.old.trees a) }
    requires b_stands { Stands cx.old sort b (tree_of cx.old.trees b) }
    requires c_stands { Stands cx.old sort c (tree_of cx.old.trees c) }
    requires first_line { Proves cx.old first (tree_of cx.old.trees a) (tree_of cx.old.trees c) }
    requires ring { has_class cx.old.theory.declarations sort Ring ≡ true }
    requires library { HoldsLibrary cx.old.theory.lemmas }
    ensures turns { IfOk result (λ r. Turns cx.new sort r (sum_tree sort (tree_of cx.old.trees a) (product_tree sort (Lit sort 1) (negation_tree sort (tree_of cx.old.trees b)))) (difference_tree sort (tree_of cx.old.trees c) (tree_of cx.old.trees b))) }
    ensures grows { Grows cx.old cx.new }
{
    by_lemma(cx, &NEXT_CONST_NEG, sort, &[a, b, c], &[first])
}
