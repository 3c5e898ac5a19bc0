//! What is unequal.
ghost use Rattle.std.specs.Prelude.{◌≡◌, IfOk, true};
ghost use Rattle.alg_terms.specs.declared.relations.Rel.TheVariants.{Ne};
ghost use Rattle.alg_terms.specs.Tree.{sum_tree, product_tree, Lit};
ghost use Rattle.alg_expr.specs.Ids.{tree_of};
ghost use Rattle.alg_law.specs.declared.classes.Class.TheVariants.{AddCommGroup, Field};
ghost use Rattle.alg_law.specs.Having.{has_class};
ghost use Rattle.alg_law.specs.Derivations.{related};
ghost use Rattle.alg_lemma.specs.Library.{HoldsLibrary};
ghost use Rattle.alg_build.specs.Book.{Concludes, Grows, Proves};
ghost use Rattle.alg_build.specs.Rewriting.{Stands};
ghost use Rattle.alg_rows.specs.Operations.{negation_tree, quotient_tree};

use alg_build::{Builder, Memory, by_row};
use alg_expr::{ExprId, Sort};
use alg_lemma::inequations::{NE_OF_MUL, NEG_NE_NEG, NEG_NE_POS, POS_NE_NEG};
use alg_lemma::quotients::DIV_NE_ZERO;

/// `a / b ≠ 0`, from lines for `a ≠ 0` and `b ≠ 0`.
#[tactic(auto, using(crate::proofs::RowNames::inequations))]
pub fn div_ne_zero(
    cx: &mut Builder,
    sort: Sort,
    a: ExprId,
    b: ExprId,
    first: usize,
    second: usize,
) -> Result<usize, Memory>
    requires a_stands { Stands cx.old sort a (tree_of cx.old.trees a) }
    requires b_stands { Stands cx.old sort b (tree_of cx.old.trees b) }
    requires first_line { Concludes cx.old first (related Ne sort (tree_of cx.old.trees a) (Lit sort 0)) }
    requires second_line { Concludes cx.old second (related Ne sort (tree_of cx.old.trees b) (Lit sort 0)) }
    requires field { has_class cx.old.theory.declarations sort Field ≡ true }
    requires library { HoldsLibrary cx.old.theory.lemmas }
    ensures concludes { IfOk result (λ n. Concludes cx.new n (related Ne sort (quotient_tree sort (tree_of cx.old.trees a) (tree_of cx.old.trees b)) (Lit sort 0))) }
    ensures grows { Grows cx.old cx.new }
{
    by_row(cx, &DIV_NE_ZERO, sort, &[a, b], &[first, second])
}

/// `-a ≠ -b`, from a line for `a ≠ b`.
#[tactic(auto, using(crate::proofs::RowNames::inequations))]
pub fn neg_ne_neg(
    cx: &mut Builder,
    sort: Sort,
    a: ExprId,
    b: ExprId,
    first: usize,
) -> Result<usize, Memory>
    requires a_stands { Stands cx.old sort a (tree_of cx.old.trees a) }
    requires b_stands { Stands cx.old sort b (tree_of cx.old.trees b) }
    requires first_line { Concludes cx.old first (related Ne sort (tree_of cx.old.trees a) (tree_of cx.old.trees b)) }
    requires add_comm_group { has_class cx.old.theory.declarations sort AddCommGroup ≡ true }
    requires library { HoldsLibrary cx.old.theory.lemmas }
    ensures concludes { IfOk result (λ n. Concludes cx.new n (related Ne sort (negation_tree sort (tree_of cx.old.trees a)) (negation_tree sort (tree_of cx.old.trees b)))) }
    ensures grows { Grows cx.old cx.new }
{
    by_row(cx, &NEG_NE_NEG, sort, &[a, b], &[first])
}

/// `-a ≠ b`, from lines for `a + b = c` and `c ≠ 0`.
#[tactic(auto, using(crate::proofs::RowNames::inequations))]
pub fn neg_ne_pos(
    cx: &mut Builder,
    sort: Sort,
    a: ExprId,
    b: ExprId,
    c: ExprId,
    first: usize,
    second: usize,
) -> Result<usize, Memory>
    requires a_stands { Stands cx.old sort a (tree_of cx.old.trees a) }
    requires b_stands { Stands cx.old sort b (tree_of cx.old.trees b) }
    requires c_stands { Stands cx.old sort c (tree_of cx.old.trees c) }
    requires first_line { Proves cx.old first (sum_tree sort (tree_of cx.old.trees a) (tree_of cx.old.trees b)) (tree_of cx.old.trees c) }
    requires second_line { Concludes cx.old second (related Ne sort (tree_of cx.old.trees c) (Lit sort 0)) }
    requires add_comm_group { has_class cx.old.theory.declarations sort AddCommGroup ≡ true }
    requires library { HoldsLibrary cx.old.theory.lemmas }
    ensures concludes { IfOk result (λ n. Concludes cx.new n (related Ne sort (negation_tree sort (tree_of cx.old.trees a)) (tree_of cx.old.trees b))) }
    ensures grows { Grows cx.old cx.new }
{
    by_row(cx, &NEG_NE_POS, sort, &[a, b, c], &[first, second])
}

/// `b ≠ -a`, from lines for `a + b = c` and `c ≠ 0`.
#[tactic(auto, using(crate::proofs::RowNames::inequations))]
pub fn pos_ne_neg(
    cx: &mut Builder,
    sort: Sort,
    a: ExprId,
    b: ExprId,
    c: ExprId,
    first: usize,
    second: usize,
) -> Result<usize, Memory>
    requires a_stands { Stands cx.old sort a (tree_of cx.old.trees a) }
    requires b_stands { Stands cx.old sort b (tree_of cx.old.trees b) }
    requires c_stands { Stands cx.old sort c (tree_of cx.old.trees c) }
    requires first_line { Proves cx.old first (sum_tree sort (tree_of cx.old.trees a) (tree_of cx.old.trees b)) (tree_of cx.old.trees c) }
    requires second_line { Concludes cx.old second (related Ne sort (tree_of cx.old.trees c) (Lit sort 0)) }
    requires add_comm_group { has_class cx.old.theory.declarations sort AddCommGroup ≡ true }
    requires library { HoldsLibrary cx.old.theory.lemmas }
    ensures concludes { IfOk result (λ n. Concludes cx.new n (related Ne sort (tree_of cx.old.trees b) (negation_tree sort (tree_of cx.old.trees a)))) }
    ensures grows { Grows cx.old cx.new }
{
    by_row(cx, &POS_NE_NEG, sort, &[a, b, c], &[first, second])
}

/// `a ≠ b`, from lines for `a * c ≠ b * c` and `c ≠ 0`.
#[tactic(auto, using(crate::proofs::RowNames::inequations))]
pub fn ne_of_mul(
    cx: &mut Builder,
    sort: Sort,
    a: ExprId,
    b: ExprId,
    c: ExprId,
    first: usize,
    second: usize,
) -> Result<usize, Memory>
    requires a_stands { Stands cx.old sort a (tree_of cx.old.trees a) }
    requires b_stands { Stands cx.old sort b (tree_of cx.old.trees b) }
    requires c_stands { Stands cx.old sort c (tree_of cx.old.trees c) }
    requires first_line { Concludes cx.old first (related Ne sort (product_tree sort (tree_of cx.old.trees a) (tree_of cx.old.trees c)) (product_tree sort (tree_of cx.old.trees b) (tree_of cx.old.trees c))) }
    requires second_line { Concludes cx.old second (related Ne sort (tree_of cx.old.trees c) (Lit sort 0)) }
    requires field { has_class cx.old.theory.declarations sort Field ≡ true }
    requires library { HoldsLibrary cx.old.theory.lemmas }
    ensures concludes { IfOk result (λ n. Concludes cx.new n (related Ne sort (tree_of cx.old.trees a) (tree_of cx.old.trees b))) }
    ensures grows { Grows cx.old cx.new }
{
    by_row(cx, &NE_OF_MUL, sort, &[a, b, c], &[first, second])
}
