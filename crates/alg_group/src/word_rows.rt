//! The rows of words.
ghost use Rattle.std.specs.Prelude.{◌≡◌, IfOk, true};
ghost use Rattle.alg_terms.specs.Tree.{product_tree, Lit};
ghost use Rattle.alg_expr.specs.Ids.{tree_of};
ghost use Rattle.alg_law.specs.declared.classes.Class.TheVariants.{Group, Monoid, Semigroup};
ghost use Rattle.alg_law.specs.Having.{has_class};
ghost use Rattle.alg_lemma.specs.Library.{HoldsLibrary};
ghost use Rattle.alg_build.specs.Book.{Grows, Proves};
ghost use Rattle.alg_build.specs.Rewriting.{Stands, Turns};
ghost use Rattle.alg_rows.specs.Operations.{inverse_tree, quotient_tree};

use alg_build::{Builder, Memory, Rewriting, by_lemma};
use alg_expr::{ExprId, Sort};
use alg_lemma::merges::NODE_MONO;
use alg_lemma::node_products::MUL_SAME;
use alg_lemma::word_rows::{
    ATOM_WORD, DIV_OF_WORD, INV_OF_WORD, WORD_CANCEL, WORD_FIRST, WORD_INV, WORD_INV_END,
};

/// `a = 1 * b`, from a line for `b = a`.
#[tactic(auto, using(crate::proofs::RowNames::word_rows))]
pub fn atom_word(
    cx: &mut Builder,
    sort: Sort,
    a: ExprId,
    b: ExprId,
    first: usize,
) -> Result<Rewriting, Memory>
    requires a_stands { Stands cx.old sort a (tree_of cx.old.trees a) }
    requires b_stands { Stands cx.old sort b (tree_of cx.old.trees b) }
    requires first_line { Proves cx.old first (tree_of cx.old.trees b) (tree_of cx.old.trees a) }
    requires monoid { has_class cx.old.theory.declarations sort Monoid ≡ true }
    requires library { HoldsLibrary cx.old.theory.lemmas }
    ensures turns { IfOk result (λ r. Turns cx.new sort r (tree_of cx.old.trees a) (product_tree sort (Lit sort 1) (tree_of cx.old.trees b))) }
    ensures grows { Grows cx.old cx.new }
{
    by_lemma(cx, &ATOM_WORD, sort, &[a, b], &[first])
}

/// `a * b * c = a`, from a line for `b * c = 1`.
#[tactic(auto, using(crate::proofs::RowNames::word_rows))]
pub fn word_cancel(
    cx: &mut Builder,
    sort: Sort,
    a: ExprId,
    b: ExprId,
    c: ExprId,
    first: usize,
) -> Result<Rewriting, Memory>
    requires a_stands { Stands cx.old sort a (tree_of cx.old.trees a) }
    requires b_stands { Stands cx.old sort b (tree_of cx.old.trees b) }
    requires c_stands { Stands cx.old sort c (tree_of cx.old.trees c) }
    requires first_line { Proves cx.old first (product_tree sort (tree_of cx.old.trees b) (tree_of cx.old.trees c)) (Lit sort 1) }
    requires monoid { has_class cx.old.theory.declarations sort Monoid ≡ true }
    requires library { HoldsLibrary cx.old.theory.lemmas }
    ensures turns { IfOk result (λ r. Turns cx.new sort r (product_tree sort (product_tree sort (tree_of cx.old.trees a) (tree_of cx.old.trees b)) (tree_of cx.old.trees c)) (tree_of cx.old.trees a)) }
    ensures grows { Grows cx.old cx.new }
{
    by_lemma(cx, &WORD_CANCEL, sort, &[a, b, c], &[first])
}

/// `a * b * c = a * d`, from a line for `b * c = d`.
#[tactic(auto, using(crate::proofs::RowNames::word_rows))]
pub fn node_mono(
    cx: &mut Builder,
    sort: Sort,
    a: ExprId,
    b: ExprId,
    c: ExprId,
    d: ExprId,
    first: usize,
) -> Result<Rewriting, Memory>
    requires a_stands { Stands cx.old sort a (tree_of cx.old.trees a) }
    requires b_stands { Stands cx.old sort b (tree_of cx.old.trees b) }
    requires c_stands { Stands cx.old sort c (tree_of cx.old.trees c) }
    requires d_stands { Stands cx.old sort d (tree_of cx.old.trees d) }
    requires first_line { Proves cx.old first (product_tree sort (tree_of cx.old.trees b) (tree_of cx.old.trees c)) (tree_of cx.old.trees d) }
    requires semigroup { has_class cx.old.theory.declarations sort Semigroup ≡ true }
    requires library { HoldsLibrary cx.old.theory.lemmas }
    ensures turns { IfOk result (λ r. Turns cx.new sort r (product_tree sort (product_tree sort (tree_of cx.old.trees a) (tree_of cx.old.trees b)) (tree_of cx.old.trees c)) (product_tree sort (tree_of cx.old.trees a) (tree_of cx.old.trees d))) }
    ensures grows { Grows cx.old cx.new }
{
    by_lemma(cx, &NODE_MONO, sort, &[a, b, c, d], &[first])
}

/// `a * (b * d) = c * d`, from a line for `a * b = c`.
#[tactic(auto, using(crate::proofs::RowNames::word_rows))]
pub fn mul_same(
    cx: &mut Builder,
    sort: Sort,
    a: ExprId,
    b: ExprId,
    c: ExprId,
    d: ExprId,
    first: usize,
) -> Result<Rewriting, Memory>
    requires a_stands { Stands cx.old sort a (tree_of cx.old.trees a) }
    requires b_stands { Stands cx.old sort b (tree_of cx.old.trees b) }
    requires c_stands { Stands cx.old sort c (tree_of cx.old.trees c) }
    requires d_stands { Stands cx.old sort d (tree_of cx.old.trees d) }
    requires first_line { Proves cx.old first (product_tree sort (tree_of cx.old.trees a) (tree_of cx.old.trees b)) (tree_of cx.old.trees c) }
    requires semigroup { has_class cx.old.theory.declarations sort Semigroup ≡ true }
    requires library { HoldsLibrary cx.old.theory.lemmas }
    ensures turns { IfOk result (λ r. Turns cx.new sort r (product_tree sort (tree_of cx.old.trees a) (product_tree sort (tree_of cx.old.trees b) (tree_of cx.old.trees d))) (product_tree sort (tree_of cx.old.trees c) (tree_of cx.old.trees d))) }
    ensures grows { Grows cx.old cx.new }
{
    by_lemma(cx, &MUL_SAME, sort, &[a, b, c, d], &[first])
}

/// `a * (b * c)⁻¹ = a * d * b⁻¹`, from a line for `c⁻¹ = d`.
#[tactic(auto, using(crate::proofs::RowNames::word_rows))]
pub fn word_inv(
    cx: &mut Builder,
    sort: Sort,
    a: ExprId,
    b: ExprId,
    c: ExprId,
    d: ExprId,
    first: usize,
) -> Result<Rewriting, Memory>
    requires a_stands { Stands cx.old sort a (tree_of cx.old.trees a) }
    requires b_stands { Stands cx.old sort b (tree_of cx.old.trees b) }
    requires c_stands { Stands cx.old sort c (tree_of cx.old.trees c) }
    requires d_stands { Stands cx.old sort d (tree_of cx.old.trees d) }
    requires first_line { Proves cx.old first (inverse_tree sort (tree_of cx.old.trees c)) (tree_of cx.old.trees d) }
    requires group { has_class cx.old.theory.declarations sort Group ≡ true }
    requires library { HoldsLibrary cx.old.theory.lemmas }
    ensures turns { IfOk result (λ r. Turns cx.new sort r (product_tree sort (tree_of cx.old.trees a) (inverse_tree sort (product_tree sort (tree_of cx.old.trees b) (tree_of cx.old.trees c)))) (product_tree sort (product_tree sort (tree_of cx.old.trees a) (tree_of cx.old.trees d)) (inverse_tree sort (tree_of cx.old.trees b)))) }
    ensures grows { Grows cx.old cx.new }
{
    by_lemma(cx, &WORD_INV, sort, &[a, b, c, d], &[first])
}

/// `a * 1⁻¹ = a`.
#[tactic(auto, using(crate::proofs::RowNames::word_rows))]
pub fn word_inv_end(cx: &mut Builder, sort: Sort, a: ExprId) -> Result<Rewriting, Memory>
    requires a_stands { Stands cx.old sort a (tree_of cx.old.trees a) }
    requires group { has_class cx.old.theory.declarations sort Group ≡ true }
    requires library { HoldsLibrary cx.old.theory.lemmas }
    ensures turns { IfOk result (λ r. Turns cx.new sort r (product_tree sort (tree_of cx.old.trees a) (inverse_tree sort (Lit sort 1))) (tree_of cx.old.trees a)) }
    ensures grows { Grows cx.old cx.new }
{
    by_lemma(cx, &WORD_INV_END, sort, &[a], &[])
}

/// `a = b`, from a line for `1 * a = b`.
#[tactic(auto, using(crate::proofs::RowNames::word_rows))]
pub fn inv_of_word(
    cx: &mut Builder,
    sort: Sort,
    a: ExprId,
    b: ExprId,
    first: usize,
) -> Result<Rewriting, Memory>
    requires a_stands { Stands cx.old sort a (tree_of cx.old.trees a) }
    requires b_stands { Stands cx.old sort b (tree_of cx.old.trees b) }
    requires first_line { Proves cx.old first (product_tree sort (Lit sort 1) (tree_of cx.old.trees a)) (tree_of cx.old.trees b) }
    requires monoid { has_class cx.old.theory.declarations sort Monoid ≡ true }
    requires library { HoldsLibrary cx.old.theory.lemmas }
    ensures turns { IfOk result (λ r. Turns cx.new sort r (tree_of cx.old.trees a) (tree_of cx.old.trees b)) }
    ensures grows { Grows cx.old cx.new }
{
    by_lemma(cx, &INV_OF_WORD, sort, &[a, b], &[first])
}

/// `a / b = c`, from a line for `a * b⁻¹ = c`.
#[tactic(auto, using(crate::proofs::RowNames::word_rows))]
pub fn div_of_word(
    cx: &mut Builder,
    sort: Sort,
    a: ExprId,
    b: ExprId,
    c: ExprId,
    first: usize,
) -> Result<Rewriting, Memory>
    requires a_stands { Stands cx.old sort a (tree_of cx.old.trees a) }
    requires b_stands { Stands cx.old sort b (tree_of cx.old.trees b) }
    requires c_stands { Stands cx.old sort c (tree_of cx.old.trees c) }
    requires first_line { Proves cx.old first (product_tree sort (tree_of cx.old.trees a) (inverse_tree sort (tree_of cx.old.trees b))) (tree_of cx.old.trees c) }
    requires group { has_class cx.old.theory.declarations sort Group ≡ true }
    requires library { HoldsLibrary cx.old.theory.lemmas }
    ensures turns { IfOk result (λ r. Turns cx.new sort r (quotient_tree sort (tree_of cx.old.trees a) (tree_of cx.old.trees b)) (tree_of cx.old.trees c)) }
    ensures grows { Grows cx.old cx.new }
{
    by_lemma(cx, &DIV_OF_WORD, sort, &[a, b, c], &[first])
}

/// `1 * a = b`, from a line for `a = b`.
#[tactic(auto, using(crate::proofs::RowNames::word_rows))]
pub fn word_first(
    cx: &mut Builder,
    sort: Sort,
    a: ExprId,
    b: ExprId,
    first: usize,
) -> Result<Rewriting, Memory>
    requires a_stands { Stands cx.old sort a (tree_of cx.old.trees a) }
    requires b_stands { Stands cx.old sort b (tree_of cx.old.trees b) }
    requires first_line { Proves cx.old first (tree_of cx.old.trees a) (tree_of cx.old.trees b) }
    requires monoid { has_class cx.old.theory.declarations sort Monoid ≡ true }
    requires library { HoldsLibrary cx.old.theory.lemmas }
    ensures turns { IfOk result (λ r. Turns cx.new sort r (product_tree sort (Lit sort 1) (tree_of cx.old.trees a)) (tree_of cx.old.trees b)) }
    ensures grows { Grows cx.old cx.new }
{
    by_lemma(cx, &WORD_FIRST, sort, &[a, b], &[first])
}
