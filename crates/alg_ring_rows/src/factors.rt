//! Products with products by powers, and their powers.
ghost use Rattle.std.specs.Prelude.{◌≡◌, IfOk, true};
ghost use Rattle.alg_terms.specs.declared.sorts.Sort.TheVariants.{Nat};
ghost use Rattle.alg_terms.specs.Tree.{sum_tree, product_tree, Lit};
ghost use Rattle.alg_expr.specs.Ids.{tree_of};
ghost use Rattle.alg_law.specs.declared.classes.Class.TheVariants.{CommMonoid, CommSemigroup, CommSemiring, Field, Semigroup, Semiring};
ghost use Rattle.alg_law.specs.Having.{has_class};
ghost use Rattle.alg_lemma.specs.Library.{HoldsLibrary};
ghost use Rattle.alg_build.specs.Book.{Grows, Proves};
ghost use Rattle.alg_build.specs.Rewriting.{Stands, Turns};
ghost use Rattle.alg_rows.specs.Operations.{inverse_tree, power_tree, quotient_tree};

use alg_build::{Builder, Memory, Rewriting, by_law, by_lemma};
use alg_expr::{ExprId, Sort};
use alg_law::multiplicative_laws::{DIV_EQ_MUL_INV0, MUL_COMM};
use alg_law::ring_laws::LEFT_DISTRIB;
use alg_lemma::combinations::{DISTRIB_BACK, MUL_UNIT, MUL_UNIT_JOIN};
use alg_lemma::node_products::{
    MUL_NODE, MUL_NODE_ZERO, MUL_SAME, MUL_SAME_ZERO, MUL_SWAP, POW_NODE,
};

/// `a * b = c`, from a line for `b * a = c`.
#[tactic(auto, using(crate::proofs::RowNames::factors))]
pub fn mul_swap(
    cx: &mut Builder,
    sort: Sort,
    a: ExprId,
    b: ExprId,
    c: ExprId,
    first: usize,
) -> Result<Rewriting, Memory>
    requires a_stands { Stands cx.old sort a (tree_of cx.old.trees a) }
    requires b_stands { Stands cx.old sort b (tree_of cx.old.trees b) }
    requires c_stands { Stands cx.old sort c (tree_of cx.old.trees c) }
    requires first_line { Proves cx.old first (product_tree sort (tree_of cx.old.trees b) (tree_of cx.old.trees a)) (tree_of cx.old.trees c) }
    requires comm_semigroup { has_class cx.old.theory.declarations sort CommSemigroup ≡ true }
    requires library { HoldsLibrary cx.old.theory.lemmas }
    ensures turns { IfOk result (λ r. Turns cx.new sort r (product_tree sort (tree_of cx.old.trees a) (tree_of cx.old.trees b)) (tree_of cx.old.trees c)) }
    ensures grows { Grows cx.old cx.new }
{
    by_lemma(cx, &MUL_SWAP, sort, &[a, b, c], &[first])
}

/// `a * d * b = c * d`, from a line for `a * b = c`.
#[tactic(auto, using(crate::proofs::RowNames::factors))]
pub fn mul_node(
    cx: &mut Builder,
    sort: Sort,
    a: ExprId,
    b: ExprId,
    c: ExprId,
    d: ExprId,
    first: usize,
) -> Result<Rewriting, Memory>
    requires a_stands { Stands cx.old sort a (tree_of cx.old.trees a) }
    requires b_stands { Stands cx.old sort b (tree_of cx.old.trees b) }
    requires c_stands { Stands cx.old sort c (tree_of cx.old.trees c) }
    requires d_stands { Stands cx.old sort d (tree_of cx.old.trees d) }
    requires first_line { Proves cx.old first (product_tree sort (tree_of cx.old.trees a) (tree_of cx.old.trees b)) (tree_of cx.old.trees c) }
    requires comm_monoid { has_class cx.old.theory.declarations sort CommMonoid ≡ true }
    requires library { HoldsLibrary cx.old.theory.lemmas }
    ensures turns { IfOk result (λ r. Turns cx.new sort r (product_tree sort (product_tree sort (tree_of cx.old.trees a) (tree_of cx.old.trees d)) (tree_of cx.old.trees b)) (product_tree sort (tree_of cx.old.trees c) (tree_of cx.old.trees d))) }
    ensures grows { Grows cx.old cx.new }
{
    by_lemma(cx, &MUL_NODE, sort, &[a, b, c, d], &[first])
}

/// `(a * d + 0) * b = c * d + 0`, from a line for `a * b = c`.
#[tactic(auto, using(crate::proofs::RowNames::factors))]
pub fn mul_node_zero(
    cx: &mut Builder,
    sort: Sort,
    a: ExprId,
    b: ExprId,
    c: ExprId,
    d: ExprId,
    first: usize,
) -> Result<Rewriting, Memory>
    requires a_stands { Stands cx.old sort a (tree_of cx.old.trees a) }
    requires b_stands { Stands cx.old sort b (tree_of cx.old.trees b) }
    requires c_stands { Stands cx.old sort c (tree_of cx.old.trees c) }
    requires d_stands { Stands cx.old sort d (tree_of cx.old.trees d) }
    requires first_line { Proves cx.old first (product_tree sort (tree_of cx.old.trees a) (tree_of cx.old.trees b)) (tree_of cx.old.trees c) }
    requires comm_semiring { has_class cx.old.theory.declarations sort CommSemiring ≡ true }
    requires library { HoldsLibrary cx.old.theory.lemmas }
    ensures turns { IfOk result (λ r. Turns cx.new sort r (product_tree sort (sum_tree sort (product_tree sort (tree_of cx.old.trees a) (tree_of cx.old.trees d)) (Lit sort 0)) (tree_of cx.old.trees b)) (sum_tree sort (product_tree sort (tree_of cx.old.trees c) (tree_of cx.old.trees d)) (Lit sort 0))) }
    ensures grows { Grows cx.old cx.new }
{
    by_lemma(cx, &MUL_NODE_ZERO, sort, &[a, b, c, d], &[first])
}

/// `a * (b * d) = c * d`, from a line for `a * b = c`.
#[tactic(auto, using(crate::proofs::RowNames::factors))]
pub fn mul_same(
    cx: &mut Builder,
    sort: Sort,
    a: ExprId,
    b: ExprId,
    c: ExprId,
    d: ExprId,
    first: usize,
) -> Result<Rewriting, Memory>
    requires a_stands { Stands cx.old sort a (tree_of cx.old.trees a) }
    requires b_stands { Stands cx.old sort b (tree_of cx.old.trees b) }
    requires c_stands { Stands cx.old sort c (tree_of cx.old.trees c) }
    requires d_stands { Stands cx.old sort d (tree_of cx.old.trees d) }
    requires first_line { Proves cx.old first (product_tree sort (tree_of cx.old.trees a) (tree_of cx.old.trees b)) (tree_of cx.old.trees c) }
    requires semigroup { has_class cx.old.theory.declarations sort Semigroup ≡ true }
    requires library { HoldsLibrary cx.old.theory.lemmas }
    ensures turns { IfOk result (λ r. Turns cx.new sort r (product_tree sort (tree_of cx.old.trees a) (product_tree sort (tree_of cx.old.trees b) (tree_of cx.old.trees d))) (product_tree sort (tree_of cx.old.trees c) (tree_of cx.old.trees d))) }
    ensures grows { Grows cx.old cx.new }
{
    by_lemma(cx, &MUL_SAME, sort, &[a, b, c, d], &[first])
}

/// `a * (b * d + 0) = c * d + 0`, from a line for `a * b = c`.
#[tactic(auto, using(crate::proofs::RowNames::factors))]
pub fn mul_same_zero(
    cx: &mut Builder,
    sort: Sort,
    a: ExprId,
    b: ExprId,
    c: ExprId,
    d: ExprId,
    first: usize,
) -> Result<Rewriting, Memory>
    requires a_stands { Stands cx.old sort a (tree_of cx.old.trees a) }
    requires b_stands { Stands cx.old sort b (tree_of cx.old.trees b) }
    requires c_stands { Stands cx.old sort c (tree_of cx.old.trees c) }
    requires d_stands { Stands cx.old sort d (tree_of cx.old.trees d) }
    requires first_line { Proves cx.old first (product_tree sort (tree_of cx.old.trees a) (tree_of cx.old.trees b)) (tree_of cx.old.trees c) }
    requires semiring { has_class cx.old.theory.declarations sort Semiring ≡ true }
    requires library { HoldsLibrary cx.old.theory.lemmas }
    ensures turns { IfOk result (λ r. Turns cx.new sort r (product_tree sort (tree_of cx.old.trees a) (sum_tree sort (product_tree sort (tree_of cx.old.trees b) (tree_of cx.old.trees d)) (Lit sort 0))) (sum_tree sort (product_tree sort (tree_of cx.old.trees c) (tree_of cx.old.trees d)) (Lit sort 0))) }
    ensures grows { Grows cx.old cx.new }
{
    by_lemma(cx, &MUL_SAME_ZERO, sort, &[a, b, c, d], &[first])
}

/// `a * (1 * b + 0) = a * b + 0`.
#[tactic(auto, using(crate::proofs::RowNames::factors))]
pub fn mul_unit(cx: &mut Builder, sort: Sort, a: ExprId, b: ExprId) -> Result<Rewriting, Memory>
    requires a_stands { Stands cx.old sort a (tree_of cx.old.trees a) }
    requires b_stands { Stands cx.old sort b (tree_of cx.old.trees b) }
    requires semiring { has_class cx.old.theory.declarations sort Semiring ≡ true }
    requires library { HoldsLibrary cx.old.theory.lemmas }
    ensures turns { IfOk result (λ r. Turns cx.new sort r (product_tree sort (tree_of cx.old.trees a) (sum_tree sort (product_tree sort (Lit sort 1) (tree_of cx.old.trees b)) (Lit sort 0))) (sum_tree sort (product_tree sort (tree_of cx.old.trees a) (tree_of cx.old.trees b)) (Lit sort 0))) }
    ensures grows { Grows cx.old cx.new }
{
    by_lemma(cx, &MUL_UNIT, sort, &[a, b], &[])
}

/// `(a * b ^ m + 0) * (1 * b ^ n + 0) = a * c + 0`, from a line for `b ^ m * b ^ n = c`.
#[tactic(auto, using(crate::proofs::RowNames::factors))]
pub fn mul_unit_join(
    cx: &mut Builder,
    sort: Sort,
    a: ExprId,
    b: ExprId,
    c: ExprId,
    m: ExprId,
    n: ExprId,
    first: usize,
) -> Result<Rewriting, Memory>
    requires a_stands { Stands cx.old sort a (tree_of cx.old.trees a) }
    requires b_stands { Stands cx.old sort b (tree_of cx.old.trees b) }
    requires c_stands { Stands cx.old sort c (tree_of cx.old.trees c) }
    requires m_stands { Stands cx.old Nat m (tree_of cx.old.trees m) }
    requires n_stands { Stands cx.old Nat n (tree_of cx.old.trees n) }
    requires first_line { Proves cx.old first (product_tree sort (power_tree sort (tree_of cx.old.trees b) (tree_of cx.old.trees m)) (power_tree sort (tree_of cx.old.trees b) (tree_of cx.old.trees n))) (tree_of cx.old.trees c) }
    requires semiring { has_class cx.old.theory.declarations sort Semiring ≡ true }
    requires library { HoldsLibrary cx.old.theory.lemmas }
    ensures turns { IfOk result (λ r. Turns cx.new sort r (product_tree sort (sum_tree sort (product_tree sort (tree_of cx.old.trees a) (power_tree sort (tree_of cx.old.trees b) (tree_of cx.old.trees m))) (Lit sort 0)) (sum_tree sort (product_tree sort (Lit sort 1) (power_tree sort (tree_of cx.old.trees b) (tree_of cx.old.trees n))) (Lit sort 0))) (sum_tree sort (product_tree sort (tree_of cx.old.trees a) (tree_of cx.old.trees c)) (Lit sort 0))) }
    ensures grows { Grows cx.old cx.new }
{
    by_lemma(cx, &MUL_UNIT_JOIN, sort, &[a, b, c, m, n], &[first])
}

/// `a * (b + c) = a * b + a * c`.
#[tactic(auto, using(crate::proofs::RowNames::factors))]
pub fn left_distrib(
    cx: &mut Builder,
    sort: Sort,
    a: ExprId,
    b: ExprId,
    c: ExprId,
) -> Result<Rewriting, Memory>
    requires a_stands { Stands cx.old sort a (tree_of cx.old.trees a) }
    requires b_stands { Stands cx.old sort b (tree_of cx.old.trees b) }
    requires c_stands { Stands cx.old sort c (tree_of cx.old.trees c) }
    requires semiring { has_class cx.old.theory.declarations sort Semiring ≡ true }
    ensures turns { IfOk result (λ r. Turns cx.new sort r (product_tree sort (tree_of cx.old.trees a) (sum_tree sort (tree_of cx.old.trees b) (tree_of cx.old.trees c))) (sum_tree sort (product_tree sort (tree_of cx.old.trees a) (tree_of cx.old.trees b)) (product_tree sort (tree_of cx.old.trees a) (tree_of cx.old.trees c)))) }
    ensures grows { Grows cx.old cx.new }
{
    by_law(cx, &LEFT_DISTRIB, sort, &[a, b, c], &[])
}

/// `a * b + a * c = a * (b + c)`.
#[tactic(auto, using(crate::proofs::RowNames::factors))]
pub fn distrib_back(
    cx: &mut Builder,
    sort: Sort,
    a: ExprId,
    b: ExprId,
    c: ExprId,
) -> Result<Rewriting, Memory>
    requires a_stands { Stands cx.old sort a (tree_of cx.old.trees a) }
    requires b_stands { Stands cx.old sort b (tree_of cx.old.trees b) }
    requires c_stands { Stands cx.old sort c (tree_of cx.old.trees c) }
    requires semiring { has_class cx.old.theory.declarations sort Semiring ≡ true }
    requires library { HoldsLibrary cx.old.theory.lemmas }
    ensures turns { IfOk result (λ r. Turns cx.new sort r (sum_tree sort (product_tree sort (tree_of cx.old.trees a) (tree_of cx.old.trees b)) (product_tree sort (tree_of cx.old.trees a) (tree_of cx.old.trees c))) (product_tree sort (tree_of cx.old.trees a) (sum_tree sort (tree_of cx.old.trees b) (tree_of cx.old.trees c)))) }
    ensures grows { Grows cx.old cx.new }
{
    by_lemma(cx, &DISTRIB_BACK, sort, &[a, b, c], &[])
}

/// `(a * b + 0) ^ n = c * d + 0`, from lines for `a ^ n = c` and `b ^ n = d`.
#[tactic(auto, using(crate::proofs::RowNames::factors))]
pub fn pow_node(
    cx: &mut Builder,
    sort: Sort,
    a: ExprId,
    b: ExprId,
    c: ExprId,
    d: ExprId,
    n: ExprId,
    first: usize,
    second: usize,
) -> Result<Rewriting, Memory>
    requires a_stands { Stands cx.old sort a (tree_of cx.old.trees a) }
    requires b_stands { Stands cx.old sort b (tree_of cx.old.trees b) }
    requires c_stands { Stands cx.old sort c (tree_of cx.old.trees c) }
    requires d_stands { Stands cx.old sort d (tree_of cx.old.trees d) }
    requires n_stands { Stands cx.old Nat n (tree_of cx.old.trees n) }
    requires first_line { Proves cx.old first (power_tree sort (tree_of cx.old.trees a) (tree_of cx.old.trees n)) (tree_of cx.old.trees c) }
    requires second_line { Proves cx.old second (power_tree sort (tree_of cx.old.trees b) (tree_of cx.old.trees n)) (tree_of cx.old.trees d) }
    requires comm_semiring { has_class cx.old.theory.declarations sort CommSemiring ≡ true }
    requires library { HoldsLibrary cx.old.theory.lemmas }
    ensures turns { IfOk result (λ r. Turns cx.new sort r (power_tree sort (sum_tree sort (product_tree sort (tree_of cx.old.trees a) (tree_of cx.old.trees b)) (Lit sort 0)) (tree_of cx.old.trees n)) (sum_tree sort (product_tree sort (tree_of cx.old.trees c) (tree_of cx.old.trees d)) (Lit sort 0))) }
    ensures grows { Grows cx.old cx.new }
{
    by_lemma(cx, &POW_NODE, sort, &[a, b, c, d, n], &[first, second])
}

/// `a * b = b * a`.
#[tactic(auto, using(crate::proofs::RowNames::factors))]
pub fn mul_comm(cx: &mut Builder, sort: Sort, a: ExprId, b: ExprId) -> Result<Rewriting, Memory>
    requires a_stands { Stands cx.old sort a (tree_of cx.old.trees a) }
    requires b_stands { Stands cx.old sort b (tree_of cx.old.trees b) }
    requires comm_semigroup { has_class cx.old.theory.declarations sort CommSemigroup ≡ true }
    ensures turns { IfOk result (λ r. Turns cx.new sort r (product_tree sort (tree_of cx.old.trees a) (tree_of cx.old.trees b)) (product_tree sort (tree_of cx.old.trees b) (tree_of cx.old.trees a))) }
    ensures grows { Grows cx.old cx.new }
{
    by_law(cx, &MUL_COMM, sort, &[a, b], &[])
}

/// `a / b = a * b⁻¹`.
#[tactic(auto, using(crate::proofs::RowNames::factors))]
pub fn div_eq_mul_inv0(
    cx: &mut Builder,
    sort: Sort,
    a: ExprId,
    b: ExprId,
) -> Result<Rewriting, Memory>
    requires a_stands { Stands cx.old sort a (tree_of cx.old.trees a) }
    requires b_stands { Stands cx.old sort b (tree_of cx.old.trees b) }
    requires field { has_class cx.old.theory.declarations sort Field ≡ true }
    ensures turns { IfOk result (λ r. Turns cx.new sort r (quotient_tree sort (tree_of cx.old.trees a) (tree_of cx.old.trees b)) (product_tree sort (tree_of cx.old.trees a) (inverse_tree sort (tree_of cx.old.trees b)))) }
    ensures grows { Grows cx.old cx.new }
{
    by_law(cx, &DIV_EQ_MUL_INV0, sort, &[a, b], &[])
}
