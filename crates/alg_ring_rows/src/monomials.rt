//! Products with monomials.
ghost use Rattle.std.specs.Prelude.{◌≡◌, IfOk, true};
ghost use Rattle.alg_terms.specs.declared.sorts.Sort.TheVariants.{Nat};
ghost use Rattle.alg_terms.specs.Tree.{sum_tree, product_tree, Lit};
ghost use Rattle.alg_expr.specs.Ids.{tree_of};
ghost use Rattle.alg_law.specs.declared.classes.Class.TheVariants.{CommMonoid, CommSemiring, Monoid, Semigroup, Semiring};
ghost use Rattle.alg_law.specs.Having.{has_class};
ghost use Rattle.alg_lemma.specs.Library.{HoldsLibrary};
ghost use Rattle.alg_build.specs.Book.{Grows, Proves};
ghost use Rattle.alg_build.specs.Rewriting.{Stands, Turns};
ghost use Rattle.alg_rows.specs.Operations.{power_tree};

use alg_build::{Builder, Memory, Rewriting, by_lemma};
use alg_expr::{ExprId, Sort};
use alg_lemma::merges::{
    LEAF_MONO, MONO_AGAIN, MONO_FIRST, MONO_NEXT, MONO_ONE_MORE, NODE_MONO, NODE_MONO_ZERO,
};

/// `a * b = 0 + b * a`.
#[tactic(auto, using(crate::proofs::RowNames::monomials))]
pub fn leaf_mono(cx: &mut Builder, sort: Sort, a: ExprId, b: ExprId) -> Result<Rewriting, Memory>
    requires a_stands { Stands cx.old sort a (tree_of cx.old.trees a) }
    requires b_stands { Stands cx.old sort b (tree_of cx.old.trees b) }
    requires comm_semiring { has_class cx.old.theory.declarations sort CommSemiring ≡ true }
    requires library { HoldsLibrary cx.old.theory.lemmas }
    ensures turns { IfOk result (λ r. Turns cx.new sort r (product_tree sort (tree_of cx.old.trees a) (tree_of cx.old.trees b)) (sum_tree sort (Lit sort 0) (product_tree sort (tree_of cx.old.trees b) (tree_of cx.old.trees a)))) }
    ensures grows { Grows cx.old cx.new }
{
    by_lemma(cx, &LEAF_MONO, sort, &[a, b], &[])
}

/// `a * b * c = a * d`, from a line for `b * c = d`.
#[tactic(auto, using(crate::proofs::RowNames::monomials))]
pub fn node_mono(
    cx: &mut Builder,
    sort: Sort,
    a: ExprId,
    b: ExprId,
    c: ExprId,
    d: ExprId,
    first: usize,
) -> Result<Rewriting, Memory>
    requires a_stands { Stands cx.old sort a (tree_of cx.old.trees a) }
    requires b_stands { Stands cx.old sort b (tree_of cx.old.trees b) }
    requires c_stands { Stands cx.old sort c (tree_of cx.old.trees c) }
    requires d_stands { Stands cx.old sort d (tree_of cx.old.trees d) }
    requires first_line { Proves cx.old first (product_tree sort (tree_of cx.old.trees b) (tree_of cx.old.trees c)) (tree_of cx.old.trees d) }
    requires semigroup { has_class cx.old.theory.declarations sort Semigroup ≡ true }
    requires library { HoldsLibrary cx.old.theory.lemmas }
    ensures turns { IfOk result (λ r. Turns cx.new sort r (product_tree sort (product_tree sort (tree_of cx.old.trees a) (tree_of cx.old.trees b)) (tree_of cx.old.trees c)) (product_tree sort (tree_of cx.old.trees a) (tree_of cx.old.trees d))) }
    ensures grows { Grows cx.old cx.new }
{
    by_lemma(cx, &NODE_MONO, sort, &[a, b, c, d], &[first])
}

/// `(a * b + 0) * c = a * d`, from a line for `b * c = d`.
#[tactic(auto, using(crate::proofs::RowNames::monomials))]
pub fn node_mono_zero(
    cx: &mut Builder,
    sort: Sort,
    a: ExprId,
    b: ExprId,
    c: ExprId,
    d: ExprId,
    first: usize,
) -> Result<Rewriting, Memory>
    requires a_stands { Stands cx.old sort a (tree_of cx.old.trees a) }
    requires b_stands { Stands cx.old sort b (tree_of cx.old.trees b) }
    requires c_stands { Stands cx.old sort c (tree_of cx.old.trees c) }
    requires d_stands { Stands cx.old sort d (tree_of cx.old.trees d) }
    requires first_line { Proves cx.old first (product_tree sort (tree_of cx.old.trees b) (tree_of cx.old.trees c)) (tree_of cx.old.trees d) }
    requires semiring { has_class cx.old.theory.declarations sort Semiring ≡ true }
    requires library { HoldsLibrary cx.old.theory.lemmas }
    ensures turns { IfOk result (λ r. Turns cx.new sort r (product_tree sort (sum_tree sort (product_tree sort (tree_of cx.old.trees a) (tree_of cx.old.trees b)) (Lit sort 0)) (tree_of cx.old.trees c)) (product_tree sort (tree_of cx.old.trees a) (tree_of cx.old.trees d))) }
    ensures grows { Grows cx.old cx.new }
{
    by_lemma(cx, &NODE_MONO_ZERO, sort, &[a, b, c, d], &[first])
}

/// `a ^ 1 * 1 = a`.
#[tactic(auto, using(crate::proofs::RowNames::monomials))]
pub fn mono_first(cx: &mut Builder, sort: Sort, a: ExprId) -> Result<Rewriting, Memory>
    requires a_stands { Stands cx.old sort a (tree_of cx.old.trees a) }
    requires monoid { has_class cx.old.theory.declarations sort Monoid ≡ true }
    requires library { HoldsLibrary cx.old.theory.lemmas }
    ensures turns { IfOk result (λ r. Turns cx.new sort r (product_tree sort (power_tree sort (tree_of cx.old.trees a) (Lit Nat 1)) (Lit sort 1)) (tree_of cx.old.trees a)) }
    ensures grows { Grows cx.old cx.new }
{
    by_lemma(cx, &MONO_FIRST, sort, &[a], &[])
}

/// `a ^ 1 * b = b * a`.
#[tactic(auto, using(crate::proofs::RowNames::monomials))]
pub fn mono_next(cx: &mut Builder, sort: Sort, a: ExprId, b: ExprId) -> Result<Rewriting, Memory>
    requires a_stands { Stands cx.old sort a (tree_of cx.old.trees a) }
    requires b_stands { Stands cx.old sort b (tree_of cx.old.trees b) }
    requires comm_monoid { has_class cx.old.theory.declarations sort CommMonoid ≡ true }
    requires library { HoldsLibrary cx.old.theory.lemmas }
    ensures turns { IfOk result (λ r. Turns cx.new sort r (product_tree sort (power_tree sort (tree_of cx.old.trees a) (Lit Nat 1)) (tree_of cx.old.trees b)) (product_tree sort (tree_of cx.old.trees b) (tree_of cx.old.trees a))) }
    ensures grows { Grows cx.old cx.new }
{
    by_lemma(cx, &MONO_NEXT, sort, &[a, b], &[])
}

/// `b ^ m * b = c`, from a line for `b ^ m * b ^ 1 = c`.
#[tactic(auto, using(crate::proofs::RowNames::monomials))]
pub fn mono_one_more(
    cx: &mut Builder,
    sort: Sort,
    b: ExprId,
    c: ExprId,
    m: ExprId,
    first: usize,
) -> Result<Rewriting, Memory>
    requires b_stands { Stands cx.old sort b (tree_of cx.old.trees b) }
    requires c_stands { Stands cx.old sort c (tree_of cx.old.trees c) }
    requires m_stands { Stands cx.old Nat m (tree_of cx.old.trees m) }
    requires first_line { Proves cx.old first (product_tree sort (power_tree sort (tree_of cx.old.trees b) (tree_of cx.old.trees m)) (power_tree sort (tree_of cx.old.trees b) (Lit Nat 1))) (tree_of cx.old.trees c) }
    requires comm_monoid { has_class cx.old.theory.declarations sort CommMonoid ≡ true }
    requires library { HoldsLibrary cx.old.theory.lemmas }
    ensures turns { IfOk result (λ r. Turns cx.new sort r (product_tree sort (power_tree sort (tree_of cx.old.trees b) (tree_of cx.old.trees m)) (tree_of cx.old.trees b)) (tree_of cx.old.trees c)) }
    ensures grows { Grows cx.old cx.new }
{
    by_lemma(cx, &MONO_ONE_MORE, sort, &[b, c, m], &[first])
}

/// `b * (a * d) = a * c`, from a line for `b * d = c`.
#[tactic(auto, using(crate::proofs::RowNames::monomials))]
pub fn mono_again(
    cx: &mut Builder,
    sort: Sort,
    a: ExprId,
    b: ExprId,
    c: ExprId,
    d: ExprId,
    first: usize,
) -> Result<Rewriting, Memory>
    requires a_stands { Stands cx.old sort a (tree_of cx.old.trees a) }
    requires b_stands { Stands cx.old sort b (tree_of cx.old.trees b) }
    requires c_stands { Stands cx.old sort c (tree_of cx.old.trees c) }
    requires d_stands { Stands cx.old sort d (tree_of cx.old.trees d) }
    requires first_line { Proves cx.old first (product_tree sort (tree_of cx.old.trees b) (tree_of cx.old.trees d)) (tree_of cx.old.trees c) }
    requires comm_monoid { has_class cx.old.theory.declarations sort CommMonoid ≡ true }
    requires library { HoldsLibrary cx.old.theory.lemmas }
    ensures turns { IfOk result (λ r. Turns cx.new sort r (product_tree sort (tree_of cx.old.trees b) (product_tree sort (tree_of cx.old.trees a) (tree_of cx.old.trees d))) (product_tree sort (tree_of cx.old.trees a) (tree_of cx.old.trees c))) }
    ensures grows { Grows cx.old cx.new }
{
    by_lemma(cx, &MONO_AGAIN, sort, &[a, b, c, d], &[first])
}
