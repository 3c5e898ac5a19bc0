//! Powers of one base.
ghost use Rattle.std.specs.Prelude.{◌≡◌, IfOk, true};
ghost use Rattle.alg_terms.specs.declared.sorts.Sort.TheVariants.{Nat};
ghost use Rattle.alg_terms.specs.Tree.{sum_tree, product_tree, Lit};
ghost use Rattle.alg_expr.specs.Ids.{tree_of};
ghost use Rattle.alg_law.specs.declared.classes.Class.TheVariants.{Monoid, Semiring};
ghost use Rattle.alg_law.specs.Having.{has_class};
ghost use Rattle.alg_lemma.specs.Library.{HoldsLibrary};
ghost use Rattle.alg_build.specs.Book.{Grows, Proves};
ghost use Rattle.alg_build.specs.Rewriting.{Stands, Turns};
ghost use Rattle.alg_rows.specs.Operations.{power_tree};

use alg_build::{Builder, Memory, Rewriting, by_lemma};
use alg_expr::{ExprId, Sort};
use alg_lemma::node_pairs::{NODE_JOIN, NODE_SPLIT};
use alg_lemma::node_products::ATOM_NODE;
use alg_lemma::rearrangements::{POW_MUL_OF, POW_POW_OF};

/// `a * c = (a * b ^ m + 0) * b ^ n`, from a line for `b ^ m * b ^ n = c`.
#[tactic(auto, using(crate::proofs::RowNames::splits))]
pub fn node_split(
    cx: &mut Builder,
    sort: Sort,
    a: ExprId,
    b: ExprId,
    c: ExprId,
    m: ExprId,
    n: ExprId,
    first: usize,
) -> Result<Rewriting, Memory>
    requires a_stands { Stands cx.old sort a (tree_of cx.old.trees a) }
    requires b_stands { Stands cx.old sort b (tree_of cx.old.trees b) }
    requires c_stands { Stands cx.old sort c (tree_of cx.old.trees c) }
    requires m_stands { Stands cx.old Nat m (tree_of cx.old.trees m) }
    requires n_stands { Stands cx.old Nat n (tree_of cx.old.trees n) }
    requires first_line { Proves cx.old first (product_tree sort (power_tree sort (tree_of cx.old.trees b) (tree_of cx.old.trees m)) (power_tree sort (tree_of cx.old.trees b) (tree_of cx.old.trees n))) (tree_of cx.old.trees c) }
    requires semiring { has_class cx.old.theory.declarations sort Semiring ≡ true }
    requires library { HoldsLibrary cx.old.theory.lemmas }
    ensures turns { IfOk result (λ r. Turns cx.new sort r (product_tree sort (tree_of cx.old.trees a) (tree_of cx.old.trees c)) (product_tree sort (sum_tree sort (product_tree sort (tree_of cx.old.trees a) (power_tree sort (tree_of cx.old.trees b) (tree_of cx.old.trees m))) (Lit sort 0)) (power_tree sort (tree_of cx.old.trees b) (tree_of cx.old.trees n)))) }
    ensures grows { Grows cx.old cx.new }
{
    by_lemma(cx, &NODE_SPLIT, sort, &[a, b, c, m, n], &[first])
}

/// `(a * b ^ m + 0) * b ^ n = a * c`, from a line for `b ^ m * b ^ n = c`.
#[tactic(auto, using(crate::proofs::RowNames::splits))]
pub fn node_join(
    cx: &mut Builder,
    sort: Sort,
    a: ExprId,
    b: ExprId,
    c: ExprId,
    m: ExprId,
    n: ExprId,
    first: usize,
) -> Result<Rewriting, Memory>
    requires a_stands { Stands cx.old sort a (tree_of cx.old.trees a) }
    requires b_stands { Stands cx.old sort b (tree_of cx.old.trees b) }
    requires c_stands { Stands cx.old sort c (tree_of cx.old.trees c) }
    requires m_stands { Stands cx.old Nat m (tree_of cx.old.trees m) }
    requires n_stands { Stands cx.old Nat n (tree_of cx.old.trees n) }
    requires first_line { Proves cx.old first (product_tree sort (power_tree sort (tree_of cx.old.trees b) (tree_of cx.old.trees m)) (power_tree sort (tree_of cx.old.trees b) (tree_of cx.old.trees n))) (tree_of cx.old.trees c) }
    requires semiring { has_class cx.old.theory.declarations sort Semiring ≡ true }
    requires library { HoldsLibrary cx.old.theory.lemmas }
    ensures turns { IfOk result (λ r. Turns cx.new sort r (product_tree sort (sum_tree sort (product_tree sort (tree_of cx.old.trees a) (power_tree sort (tree_of cx.old.trees b) (tree_of cx.old.trees m))) (Lit sort 0)) (power_tree sort (tree_of cx.old.trees b) (tree_of cx.old.trees n))) (product_tree sort (tree_of cx.old.trees a) (tree_of cx.old.trees c))) }
    ensures grows { Grows cx.old cx.new }
{
    by_lemma(cx, &NODE_JOIN, sort, &[a, b, c, m, n], &[first])
}

/// `a ^ m * a ^ n = b`, from a line for `a ^ (m + n) = b`.
#[tactic(auto, using(crate::proofs::RowNames::splits))]
pub fn pow_mul_of(
    cx: &mut Builder,
    sort: Sort,
    a: ExprId,
    b: ExprId,
    m: ExprId,
    n: ExprId,
    first: usize,
) -> Result<Rewriting, Memory>
    requires a_stands { Stands cx.old sort a (tree_of cx.old.trees a) }
    requires b_stands { Stands cx.old sort b (tree_of cx.old.trees b) }
    requires m_stands { Stands cx.old Nat m (tree_of cx.old.trees m) }
    requires n_stands { Stands cx.old Nat n (tree_of cx.old.trees n) }
    requires first_line { Proves cx.old first (power_tree sort (tree_of cx.old.trees a) (sum_tree Nat (tree_of cx.old.trees m) (tree_of cx.old.trees n))) (tree_of cx.old.trees b) }
    requires monoid { has_class cx.old.theory.declarations sort Monoid ≡ true }
    requires library { HoldsLibrary cx.old.theory.lemmas }
    ensures turns { IfOk result (λ r. Turns cx.new sort r (product_tree sort (power_tree sort (tree_of cx.old.trees a) (tree_of cx.old.trees m)) (power_tree sort (tree_of cx.old.trees a) (tree_of cx.old.trees n))) (tree_of cx.old.trees b)) }
    ensures grows { Grows cx.old cx.new }
{
    by_lemma(cx, &POW_MUL_OF, sort, &[a, b, m, n], &[first])
}

/// `(a ^ m) ^ n = b`, from a line for `a ^ (m * n) = b`.
#[tactic(auto, using(crate::proofs::RowNames::splits))]
pub fn pow_pow_of(
    cx: &mut Builder,
    sort: Sort,
    a: ExprId,
    b: ExprId,
    m: ExprId,
    n: ExprId,
    first: usize,
) -> Result<Rewriting, Memory>
    requires a_stands { Stands cx.old sort a (tree_of cx.old.trees a) }
    requires b_stands { Stands cx.old sort b (tree_of cx.old.trees b) }
    requires m_stands { Stands cx.old Nat m (tree_of cx.old.trees m) }
    requires n_stands { Stands cx.old Nat n (tree_of cx.old.trees n) }
    requires first_line { Proves cx.old first (power_tree sort (tree_of cx.old.trees a) (product_tree Nat (tree_of cx.old.trees m) (tree_of cx.old.trees n))) (tree_of cx.old.trees b) }
    requires monoid { has_class cx.old.theory.declarations sort Monoid ≡ true }
    requires library { HoldsLibrary cx.old.theory.lemmas }
    ensures turns { IfOk result (λ r. Turns cx.new sort r (power_tree sort (power_tree sort (tree_of cx.old.trees a) (tree_of cx.old.trees m)) (tree_of cx.old.trees n)) (tree_of cx.old.trees b)) }
    ensures grows { Grows cx.old cx.new }
{
    by_lemma(cx, &POW_POW_OF, sort, &[a, b, m, n], &[first])
}

/// `a = 1 * a ^ 1 + 0`.
#[tactic(auto, using(crate::proofs::RowNames::splits))]
pub fn atom_node(cx: &mut Builder, sort: Sort, a: ExprId) -> Result<Rewriting, Memory>
    requires a_stands { Stands cx.old sort a (tree_of cx.old.trees a) }
    requires semiring { has_class cx.old.theory.declarations sort Semiring ≡ true }
    requires library { HoldsLibrary cx.old.theory.lemmas }
    ensures turns { IfOk result (λ r. Turns cx.new sort r (tree_of cx.old.trees a) (sum_tree sort (product_tree sort (Lit sort 1) (power_tree sort (tree_of cx.old.trees a) (Lit Nat 1))) (Lit sort 0))) }
    ensures grows { Grows cx.old cx.new }
{
    by_lemma(cx, &ATOM_NODE, sort, &[a], &[])
}
