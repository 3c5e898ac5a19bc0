//! Sums of products by powers.
ghost use Rattle.std.specs.Prelude.{◌≡◌, IfOk, true};
ghost use Rattle.alg_terms.specs.Tree.{sum_tree, product_tree, Lit};
ghost use Rattle.alg_expr.specs.Ids.{tree_of};
ghost use Rattle.alg_law.specs.declared.classes.Class.TheVariants.{AddCommMonoid, AddMonoid, Semiring};
ghost use Rattle.alg_law.specs.Having.{has_class};
ghost use Rattle.alg_lemma.specs.Library.{HoldsLibrary};
ghost use Rattle.alg_build.specs.Book.{Grows, Proves};
ghost use Rattle.alg_build.specs.Rewriting.{Stands, Turns};

use alg_build::{Builder, Memory, Rewriting, by_lemma};
use alg_expr::{ExprId, Sort};
use alg_lemma::combinations::{ADD_NODES, ADD_NODES_ZERO};
use alg_lemma::node_pairs::{ADD_FRONT, ADD_FRONT_DROP, ADD_PAIR_DROP, ADD_PAIR_RIGHT};
use alg_lemma::node_sums::{
    ADD_HEAD, ADD_HEAD_ZERO, ADD_MUL_RIGHT, ADD_MUL_RIGHT_ZERO, ADD_PAIR_LEFT, ADD_TAIL,
    ADD_TAIL_ZERO,
};
use alg_lemma::rearrangements::ADD_ADD_ADD_COMM;

/// `a + b + c = a + d`, from a line for `b + c = d`.
#[tactic(auto, using(crate::proofs::RowNames::nodes))]
pub fn add_tail(
    cx: &mut Builder,
    sort: Sort,
    a: ExprId,
    b: ExprId,
    c: ExprId,
    d: ExprId,
    first: usize,
) -> Result<Rewriting, Memory>
    requires a_stands { Stands cx.old sort a (tree_of cx.old.trees a) }
    requires b_stands { Stands cx.old sort b (tree_of cx.old.trees b) }
    requires c_stands { Stands cx.old sort c (tree_of cx.old.trees c) }
    requires d_stands { Stands cx.old sort d (tree_of cx.old.trees d) }
    requires first_line { Proves cx.old first (sum_tree sort (tree_of cx.old.trees b) (tree_of cx.old.trees c)) (tree_of cx.old.trees d) }
    requires add_monoid { has_class cx.old.theory.declarations sort AddMonoid ≡ true }
    requires library { HoldsLibrary cx.old.theory.lemmas }
    ensures turns { IfOk result (λ r. Turns cx.new sort r (sum_tree sort (sum_tree sort (tree_of cx.old.trees a) (tree_of cx.old.trees b)) (tree_of cx.old.trees c)) (sum_tree sort (tree_of cx.old.trees a) (tree_of cx.old.trees d))) }
    ensures grows { Grows cx.old cx.new }
{
    by_lemma(cx, &ADD_TAIL, sort, &[a, b, c, d], &[first])
}

/// `a + 0 + b = a + b`.
#[tactic(auto, using(crate::proofs::RowNames::nodes))]
pub fn add_tail_zero(
    cx: &mut Builder,
    sort: Sort,
    a: ExprId,
    b: ExprId,
) -> Result<Rewriting, Memory>
    requires a_stands { Stands cx.old sort a (tree_of cx.old.trees a) }
    requires b_stands { Stands cx.old sort b (tree_of cx.old.trees b) }
    requires add_monoid { has_class cx.old.theory.declarations sort AddMonoid ≡ true }
    requires library { HoldsLibrary cx.old.theory.lemmas }
    ensures turns { IfOk result (λ r. Turns cx.new sort r (sum_tree sort (sum_tree sort (tree_of cx.old.trees a) (Lit sort 0)) (tree_of cx.old.trees b)) (sum_tree sort (tree_of cx.old.trees a) (tree_of cx.old.trees b))) }
    ensures grows { Grows cx.old cx.new }
{
    by_lemma(cx, &ADD_TAIL_ZERO, sort, &[a, b], &[])
}

/// `b + (a + c) = a + d`, from a line for `b + c = d`.
#[tactic(auto, using(crate::proofs::RowNames::nodes))]
pub fn add_head(
    cx: &mut Builder,
    sort: Sort,
    a: ExprId,
    b: ExprId,
    c: ExprId,
    d: ExprId,
    first: usize,
) -> Result<Rewriting, Memory>
    requires a_stands { Stands cx.old sort a (tree_of cx.old.trees a) }
    requires b_stands { Stands cx.old sort b (tree_of cx.old.trees b) }
    requires c_stands { Stands cx.old sort c (tree_of cx.old.trees c) }
    requires d_stands { Stands cx.old sort d (tree_of cx.old.trees d) }
    requires first_line { Proves cx.old first (sum_tree sort (tree_of cx.old.trees b) (tree_of cx.old.trees c)) (tree_of cx.old.trees d) }
    requires add_comm_monoid { has_class cx.old.theory.declarations sort AddCommMonoid ≡ true }
    requires library { HoldsLibrary cx.old.theory.lemmas }
    ensures turns { IfOk result (λ r. Turns cx.new sort r (sum_tree sort (tree_of cx.old.trees b) (sum_tree sort (tree_of cx.old.trees a) (tree_of cx.old.trees c))) (sum_tree sort (tree_of cx.old.trees a) (tree_of cx.old.trees d))) }
    ensures grows { Grows cx.old cx.new }
{
    by_lemma(cx, &ADD_HEAD, sort, &[a, b, c, d], &[first])
}

/// `b + (a + 0) = a + b`.
#[tactic(auto, using(crate::proofs::RowNames::nodes))]
pub fn add_head_zero(
    cx: &mut Builder,
    sort: Sort,
    a: ExprId,
    b: ExprId,
) -> Result<Rewriting, Memory>
    requires a_stands { Stands cx.old sort a (tree_of cx.old.trees a) }
    requires b_stands { Stands cx.old sort b (tree_of cx.old.trees b) }
    requires add_comm_monoid { has_class cx.old.theory.declarations sort AddCommMonoid ≡ true }
    requires library { HoldsLibrary cx.old.theory.lemmas }
    ensures turns { IfOk result (λ r. Turns cx.new sort r (sum_tree sort (tree_of cx.old.trees b) (sum_tree sort (tree_of cx.old.trees a) (Lit sort 0))) (sum_tree sort (tree_of cx.old.trees a) (tree_of cx.old.trees b))) }
    ensures grows { Grows cx.old cx.new }
{
    by_lemma(cx, &ADD_HEAD_ZERO, sort, &[a, b], &[])
}

/// `a * d + b * d = c * d`, from a line for `a + b = c`.
#[tactic(auto, using(crate::proofs::RowNames::nodes))]
pub fn add_mul_right(
    cx: &mut Builder,
    sort: Sort,
    a: ExprId,
    b: ExprId,
    c: ExprId,
    d: ExprId,
    first: usize,
) -> Result<Rewriting, Memory>
    requires a_stands { Stands cx.old sort a (tree_of cx.old.trees a) }
    requires b_stands { Stands cx.old sort b (tree_of cx.old.trees b) }
    requires c_stands { Stands cx.old sort c (tree_of cx.old.trees c) }
    requires d_stands { Stands cx.old sort d (tree_of cx.old.trees d) }
    requires first_line { Proves cx.old first (sum_tree sort (tree_of cx.old.trees a) (tree_of cx.old.trees b)) (tree_of cx.old.trees c) }
    requires semiring { has_class cx.old.theory.declarations sort Semiring ≡ true }
    requires library { HoldsLibrary cx.old.theory.lemmas }
    ensures turns { IfOk result (λ r. Turns cx.new sort r (sum_tree sort (product_tree sort (tree_of cx.old.trees a) (tree_of cx.old.trees d)) (product_tree sort (tree_of cx.old.trees b) (tree_of cx.old.trees d))) (product_tree sort (tree_of cx.old.trees c) (tree_of cx.old.trees d))) }
    ensures grows { Grows cx.old cx.new }
{
    by_lemma(cx, &ADD_MUL_RIGHT, sort, &[a, b, c, d], &[first])
}

/// `a * d + b * d = 0`, from a line for `a + b = 0`.
#[tactic(auto, using(crate::proofs::RowNames::nodes))]
pub fn add_mul_right_zero(
    cx: &mut Builder,
    sort: Sort,
    a: ExprId,
    b: ExprId,
    d: ExprId,
    first: usize,
) -> Result<Rewriting, Memory>
    requires a_stands { Stands cx.old sort a (tree_of cx.old.trees a) }
    requires b_stands { Stands cx.old sort b (tree_of cx.old.trees b) }
    requires d_stands { Stands cx.old sort d (tree_of cx.old.trees d) }
    requires first_line { Proves cx.old first (sum_tree sort (tree_of cx.old.trees a) (tree_of cx.old.trees b)) (Lit sort 0) }
    requires semiring { has_class cx.old.theory.declarations sort Semiring ≡ true }
    requires library { HoldsLibrary cx.old.theory.lemmas }
    ensures turns { IfOk result (λ r. Turns cx.new sort r (sum_tree sort (product_tree sort (tree_of cx.old.trees a) (tree_of cx.old.trees d)) (product_tree sort (tree_of cx.old.trees b) (tree_of cx.old.trees d))) (Lit sort 0)) }
    ensures grows { Grows cx.old cx.new }
{
    by_lemma(cx, &ADD_MUL_RIGHT_ZERO, sort, &[a, b, d], &[first])
}

/// `a + 0 + (b + d) = c + d`, from a line for `a + b = c`.
#[tactic(auto, using(crate::proofs::RowNames::nodes))]
pub fn add_pair_left(
    cx: &mut Builder,
    sort: Sort,
    a: ExprId,
    b: ExprId,
    c: ExprId,
    d: ExprId,
    first: usize,
) -> Result<Rewriting, Memory>
    requires a_stands { Stands cx.old sort a (tree_of cx.old.trees a) }
    requires b_stands { Stands cx.old sort b (tree_of cx.old.trees b) }
    requires c_stands { Stands cx.old sort c (tree_of cx.old.trees c) }
    requires d_stands { Stands cx.old sort d (tree_of cx.old.trees d) }
    requires first_line { Proves cx.old first (sum_tree sort (tree_of cx.old.trees a) (tree_of cx.old.trees b)) (tree_of cx.old.trees c) }
    requires add_comm_monoid { has_class cx.old.theory.declarations sort AddCommMonoid ≡ true }
    requires library { HoldsLibrary cx.old.theory.lemmas }
    ensures turns { IfOk result (λ r. Turns cx.new sort r (sum_tree sort (sum_tree sort (tree_of cx.old.trees a) (Lit sort 0)) (sum_tree sort (tree_of cx.old.trees b) (tree_of cx.old.trees d))) (sum_tree sort (tree_of cx.old.trees c) (tree_of cx.old.trees d))) }
    ensures grows { Grows cx.old cx.new }
{
    by_lemma(cx, &ADD_PAIR_LEFT, sort, &[a, b, c, d], &[first])
}

/// `a + d + (b + 0) = c + d`, from a line for `a + b = c`.
#[tactic(auto, using(crate::proofs::RowNames::nodes))]
pub fn add_pair_right(
    cx: &mut Builder,
    sort: Sort,
    a: ExprId,
    b: ExprId,
    c: ExprId,
    d: ExprId,
    first: usize,
) -> Result<Rewriting, Memory>
    requires a_stands { Stands cx.old sort a (tree_of cx.old.trees a) }
    requires b_stands { Stands cx.old sort b (tree_of cx.old.trees b) }
    requires c_stands { Stands cx.old sort c (tree_of cx.old.trees c) }
    requires d_stands { Stands cx.old sort d (tree_of cx.old.trees d) }
    requires first_line { Proves cx.old first (sum_tree sort (tree_of cx.old.trees a) (tree_of cx.old.trees b)) (tree_of cx.old.trees c) }
    requires add_comm_monoid { has_class cx.old.theory.declarations sort AddCommMonoid ≡ true }
    requires library { HoldsLibrary cx.old.theory.lemmas }
    ensures turns { IfOk result (λ r. Turns cx.new sort r (sum_tree sort (sum_tree sort (tree_of cx.old.trees a) (tree_of cx.old.trees d)) (sum_tree sort (tree_of cx.old.trees b) (Lit sort 0))) (sum_tree sort (tree_of cx.old.trees c) (tree_of cx.old.trees d))) }
    ensures grows { Grows cx.old cx.new }
{
    by_lemma(cx, &ADD_PAIR_RIGHT, sort, &[a, b, c, d], &[first])
}

/// `a + c + (b + d) = c + d`, from a line for `a + b = 0`.
#[tactic(auto, using(crate::proofs::RowNames::nodes))]
pub fn add_pair_drop(
    cx: &mut Builder,
    sort: Sort,
    a: ExprId,
    b: ExprId,
    c: ExprId,
    d: ExprId,
    first: usize,
) -> Result<Rewriting, Memory>
    requires a_stands { Stands cx.old sort a (tree_of cx.old.trees a) }
    requires b_stands { Stands cx.old sort b (tree_of cx.old.trees b) }
    requires c_stands { Stands cx.old sort c (tree_of cx.old.trees c) }
    requires d_stands { Stands cx.old sort d (tree_of cx.old.trees d) }
    requires first_line { Proves cx.old first (sum_tree sort (tree_of cx.old.trees a) (tree_of cx.old.trees b)) (Lit sort 0) }
    requires add_comm_monoid { has_class cx.old.theory.declarations sort AddCommMonoid ≡ true }
    requires library { HoldsLibrary cx.old.theory.lemmas }
    ensures turns { IfOk result (λ r. Turns cx.new sort r (sum_tree sort (sum_tree sort (tree_of cx.old.trees a) (tree_of cx.old.trees c)) (sum_tree sort (tree_of cx.old.trees b) (tree_of cx.old.trees d))) (sum_tree sort (tree_of cx.old.trees c) (tree_of cx.old.trees d))) }
    ensures grows { Grows cx.old cx.new }
{
    by_lemma(cx, &ADD_PAIR_DROP, sort, &[a, b, c, d], &[first])
}

/// `a + (b + d) = c + d`, from a line for `a + b = c`.
#[tactic(auto, using(crate::proofs::RowNames::nodes))]
pub fn add_front(
    cx: &mut Builder,
    sort: Sort,
    a: ExprId,
    b: ExprId,
    c: ExprId,
    d: ExprId,
    first: usize,
) -> Result<Rewriting, Memory>
    requires a_stands { Stands cx.old sort a (tree_of cx.old.trees a) }
    requires b_stands { Stands cx.old sort b (tree_of cx.old.trees b) }
    requires c_stands { Stands cx.old sort c (tree_of cx.old.trees c) }
    requires d_stands { Stands cx.old sort d (tree_of cx.old.trees d) }
    requires first_line { Proves cx.old first (sum_tree sort (tree_of cx.old.trees a) (tree_of cx.old.trees b)) (tree_of cx.old.trees c) }
    requires add_monoid { has_class cx.old.theory.declarations sort AddMonoid ≡ true }
    requires library { HoldsLibrary cx.old.theory.lemmas }
    ensures turns { IfOk result (λ r. Turns cx.new sort r (sum_tree sort (tree_of cx.old.trees a) (sum_tree sort (tree_of cx.old.trees b) (tree_of cx.old.trees d))) (sum_tree sort (tree_of cx.old.trees c) (tree_of cx.old.trees d))) }
    ensures grows { Grows cx.old cx.new }
{
    by_lemma(cx, &ADD_FRONT, sort, &[a, b, c, d], &[first])
}

/// `a + (b + d) = d`, from a line for `a + b = 0`.
#[tactic(auto, using(crate::proofs::RowNames::nodes))]
pub fn add_front_drop(
    cx: &mut Builder,
    sort: Sort,
    a: ExprId,
    b: ExprId,
    d: ExprId,
    first: usize,
) -> Result<Rewriting, Memory>
    requires a_stands { Stands cx.old sort a (tree_of cx.old.trees a) }
    requires b_stands { Stands cx.old sort b (tree_of cx.old.trees b) }
    requires d_stands { Stands cx.old sort d (tree_of cx.old.trees d) }
    requires first_line { Proves cx.old first (sum_tree sort (tree_of cx.old.trees a) (tree_of cx.old.trees b)) (Lit sort 0) }
    requires add_monoid { has_class cx.old.theory.declarations sort AddMonoid ≡ true }
    requires library { HoldsLibrary cx.old.theory.lemmas }
    ensures turns { IfOk result (λ r. Turns cx.new sort r (sum_tree sort (tree_of cx.old.trees a) (sum_tree sort (tree_of cx.old.trees b) (tree_of cx.old.trees d))) (tree_of cx.old.trees d)) }
    ensures grows { Grows cx.old cx.new }
{
    by_lemma(cx, &ADD_FRONT_DROP, sort, &[a, b, d], &[first])
}

/// `a * d + 0 + (b * d + 0) = c * d + 0`, from a line for `a + b = c`.
#[tactic(auto, using(crate::proofs::RowNames::nodes))]
pub fn add_nodes(
    cx: &mut Builder,
    sort: Sort,
    a: ExprId,
    b: ExprId,
    c: ExprId,
    d: ExprId,
    first: usize,
) -> Result<Rewriting, Memory>
    requires a_stands { Stands cx.old sort a (tree_of cx.old.trees a) }
    requires b_stands { Stands cx.old sort b (tree_of cx.old.trees b) }
    requires c_stands { Stands cx.old sort c (tree_of cx.old.trees c) }
    requires d_stands { Stands cx.old sort d (tree_of cx.old.trees d) }
    requires first_line { Proves cx.old first (sum_tree sort (tree_of cx.old.trees a) (tree_of cx.old.trees b)) (tree_of cx.old.trees c) }
    requires semiring { has_class cx.old.theory.declarations sort Semiring ≡ true }
    requires library { HoldsLibrary cx.old.theory.lemmas }
    ensures turns { IfOk result (λ r. Turns cx.new sort r (sum_tree sort (sum_tree sort (product_tree sort (tree_of cx.old.trees a) (tree_of cx.old.trees d)) (Lit sort 0)) (sum_tree sort (product_tree sort (tree_of cx.old.trees b) (tree_of cx.old.trees d)) (Lit sort 0))) (sum_tree sort (product_tree sort (tree_of cx.old.trees c) (tree_of cx.old.trees d)) (Lit sort 0))) }
    ensures grows { Grows cx.old cx.new }
{
    by_lemma(cx, &ADD_NODES, sort, &[a, b, c, d], &[first])
}

/// `a * d + 0 + (b * d + 0) = 0`, from a line for `a + b = 0`.
#[tactic(auto, using(crate::proofs::RowNames::nodes))]
pub fn add_nodes_zero(
    cx: &mut Builder,
    sort: Sort,
    a: ExprId,
    b: ExprId,
    d: ExprId,
    first: usize,
) -> Result<Rewriting, Memory>
    requires a_stands { Stands cx.old sort a (tree_of cx.old.trees a) }
    requires b_stands { Stands cx.old sort b (tree_of cx.old.trees b) }
    requires d_stands { Stands cx.old sort d (tree_of cx.old.trees d) }
    requires first_line { Proves cx.old first (sum_tree sort (tree_of cx.old.trees a) (tree_of cx.old.trees b)) (Lit sort 0) }
    requires semiring { has_class cx.old.theory.declarations sort Semiring ≡ true }
    requires library { HoldsLibrary cx.old.theory.lemmas }
    ensures turns { IfOk result (λ r. Turns cx.new sort r (sum_tree sort (sum_tree sort (product_tree sort (tree_of cx.old.trees a) (tree_of cx.old.trees d)) (Lit sort 0)) (sum_tree sort (product_tree sort (tree_of cx.old.trees b) (tree_of cx.old.trees d)) (Lit sort 0))) (Lit sort 0)) }
    ensures grows { Grows cx.old cx.new }
{
    by_lemma(cx, &ADD_NODES_ZERO, sort, &[a, b, d], &[first])
}

/// `a + b + (c + d) = a + c + (b + d)`.
#[tactic(auto, using(crate::proofs::RowNames::nodes))]
pub fn add_add_add_comm(
    cx: &mut Builder,
    sort: Sort,
    a: ExprId,
    b: ExprId,
    c: ExprId,
    d: ExprId,
) -> Result<Rewriting, Memory>
    requires a_stands { Stands cx.old sort a (tree_of cx.old.trees a) }
    requires b_stands { Stands cx.old sort b (tree_of cx.old.trees b) }
    requires c_stands { Stands cx.old sort c (tree_of cx.old.trees c) }
    requires d_stands { Stands cx.old sort d (tree_of cx.old.trees d) }
    requires add_comm_monoid { has_class cx.old.theory.declarations sort AddCommMonoid ≡ true }
    requires library { HoldsLibrary cx.old.theory.lemmas }
    ensures turns { IfOk result (λ r. Turns cx.new sort r (sum_tree sort (sum_tree sort (tree_of cx.old.trees a) (tree_of cx.old.trees b)) (sum_tree sort (tree_of cx.old.trees c) (tree_of cx.old.trees d))) (sum_tree sort (sum_tree sort (tree_of cx.old.trees a) (tree_of cx.old.trees c)) (sum_tree sort (tree_of cx.old.trees b) (tree_of cx.old.trees d)))) }
    ensures grows { Grows cx.old cx.new }
{
    by_lemma(cx, &ADD_ADD_ADD_COMM, sort, &[a, b, c, d], &[])
}
