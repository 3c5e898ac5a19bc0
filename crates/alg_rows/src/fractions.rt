//! Sums and products of quotients in a field.
ghost use Rattle.std.specs.Prelude.{◌≡◌, IfOk, true};
ghost use Rattle.alg_terms.specs.declared.relations.Rel.TheVariants.{Ne};
ghost use Rattle.alg_terms.specs.Tree.{sum_tree, product_tree, Lit};
ghost use Rattle.alg_expr.specs.Ids.{tree_of};
ghost use Rattle.alg_law.specs.declared.classes.Class.TheVariants.{Field};
ghost use Rattle.alg_law.specs.Having.{has_class};
ghost use Rattle.alg_law.specs.Derivations.{related};
ghost use Rattle.alg_lemma.specs.Library.{HoldsLibrary};
ghost use Rattle.alg_build.specs.Book.{Concludes, Grows, Proves};
ghost use Rattle.alg_build.specs.Rewriting.{Stands, Turns};
ghost use Rattle.alg_rows.specs.Operations.{quotient_tree};

use alg_build::{Builder, Memory, Rewriting, by_lemma};
use alg_expr::{ExprId, Sort};
use alg_lemma::fraction_products::{
    DIV_MUL_DIV, DIV_MUL_SWAP, MUL_DIV_COMM, MUL_DIV_LEFT, MUL_DIV_RIGHT,
};
use alg_lemma::fractions::DIV_ADD_SAME;

/// `a / d + b / d = c / d`, from a line for `a + b = c`.
#[tactic(auto, using(crate::proofs::RowNames::fractions))]
pub fn div_add_same(
    cx: &mut Builder,
    sort: Sort,
    a: ExprId,
    b: ExprId,
    c: ExprId,
    d: ExprId,
    first: usize,
) -> Result<Rewriting, Memory>
    requires a_stands { Stands cx.old sort a (tree_of cx.old.trees a) }
    requires b_stands { Stands cx.old sort b (tree_of cx.old.trees b) }
    requires c_stands { Stands cx.old sort c (tree_of cx.old.trees c) }
    requires d_stands { Stands cx.old sort d (tree_of cx.old.trees d) }
    requires first_line { Proves cx.old first (sum_tree sort (tree_of cx.old.trees a) (tree_of cx.old.trees b)) (tree_of cx.old.trees c) }
    requires field { has_class cx.old.theory.declarations sort Field ≡ true }
    requires library { HoldsLibrary cx.old.theory.lemmas }
    ensures turns { IfOk result (λ r. Turns cx.new sort r (sum_tree sort (quotient_tree sort (tree_of cx.old.trees a) (tree_of cx.old.trees d)) (quotient_tree sort (tree_of cx.old.trees b) (tree_of cx.old.trees d))) (quotient_tree sort (tree_of cx.old.trees c) (tree_of cx.old.trees d))) }
    ensures grows { Grows cx.old cx.new }
{
    by_lemma(cx, &DIV_ADD_SAME, sort, &[a, b, c, d], &[first])
}

/// `a / b * (c / d) = a / d * (c / b)`.
#[tactic(auto, using(crate::proofs::RowNames::fractions))]
pub fn div_mul_swap(
    cx: &mut Builder,
    sort: Sort,
    a: ExprId,
    b: ExprId,
    c: ExprId,
    d: ExprId,
) -> Result<Rewriting, Memory>
    requires a_stands { Stands cx.old sort a (tree_of cx.old.trees a) }
    requires b_stands { Stands cx.old sort b (tree_of cx.old.trees b) }
    requires c_stands { Stands cx.old sort c (tree_of cx.old.trees c) }
    requires d_stands { Stands cx.old sort d (tree_of cx.old.trees d) }
    requires field { has_class cx.old.theory.declarations sort Field ≡ true }
    requires library { HoldsLibrary cx.old.theory.lemmas }
    ensures turns { IfOk result (λ r. Turns cx.new sort r (product_tree sort (quotient_tree sort (tree_of cx.old.trees a) (tree_of cx.old.trees b)) (quotient_tree sort (tree_of cx.old.trees c) (tree_of cx.old.trees d))) (product_tree sort (quotient_tree sort (tree_of cx.old.trees a) (tree_of cx.old.trees d)) (quotient_tree sort (tree_of cx.old.trees c) (tree_of cx.old.trees b)))) }
    ensures grows { Grows cx.old cx.new }
{
    by_lemma(cx, &DIV_MUL_SWAP, sort, &[a, b, c, d], &[])
}

/// `a / b * (c / d) = a * c / (b * d)`, from lines for `b ≠ 0` and `d ≠ 0`.
#[tactic(auto, using(crate::proofs::RowNames::fractions))]
pub fn div_mul_div(
    cx: &mut Builder,
    sort: Sort,
    a: ExprId,
    b: ExprId,
    c: ExprId,
    d: ExprId,
    first: usize,
    second: usize,
) -> Result<Rewriting, Memory>
    requires a_stands { Stands cx.old sort a (tree_of cx.old.trees a) }
    requires b_stands { Stands cx.old sort b (tree_of cx.old.trees b) }
    requires c_stands { Stands cx.old sort c (tree_of cx.old.trees c) }
    requires d_stands { Stands cx.old sort d (tree_of cx.old.trees d) }
    requires first_line { Concludes cx.old first (related Ne sort (tree_of cx.old.trees b) (Lit sort 0)) }
    requires second_line { Concludes cx.old second (related Ne sort (tree_of cx.old.trees d) (Lit sort 0)) }
    requires field { has_class cx.old.theory.declarations sort Field ≡ true }
    requires library { HoldsLibrary cx.old.theory.lemmas }
    ensures turns { IfOk result (λ r. Turns cx.new sort r (product_tree sort (quotient_tree sort (tree_of cx.old.trees a) (tree_of cx.old.trees b)) (quotient_tree sort (tree_of cx.old.trees c) (tree_of cx.old.trees d))) (quotient_tree sort (product_tree sort (tree_of cx.old.trees a) (tree_of cx.old.trees c)) (product_tree sort (tree_of cx.old.trees b) (tree_of cx.old.trees d)))) }
    ensures grows { Grows cx.old cx.new }
{
    by_lemma(cx, &DIV_MUL_DIV, sort, &[a, b, c, d], &[first, second])
}

/// `a * (c / d) = b / d`, from a line for `a * c = b`.
#[tactic(auto, using(crate::proofs::RowNames::fractions))]
pub fn mul_div_right(
    cx: &mut Builder,
    sort: Sort,
    a: ExprId,
    b: ExprId,
    c: ExprId,
    d: ExprId,
    first: usize,
) -> Result<Rewriting, Memory>
    requires a_stands { Stands cx.old sort a (tree_of cx.old.trees a) }
    requires b_stands { Stands cx.old sort b (tree_of cx.old.trees b) }
    requires c_stands { Stands cx.old sort c (tree_of cx.old.trees c) }
    requires d_stands { Stands cx.old sort d (tree_of cx.old.trees d) }
    requires first_line { Proves cx.old first (product_tree sort (tree_of cx.old.trees a) (tree_of cx.old.trees c)) (tree_of cx.old.trees b) }
    requires field { has_class cx.old.theory.declarations sort Field ≡ true }
    requires library { HoldsLibrary cx.old.theory.lemmas }
    ensures turns { IfOk result (λ r. Turns cx.new sort r (product_tree sort (tree_of cx.old.trees a) (quotient_tree sort (tree_of cx.old.trees c) (tree_of cx.old.trees d))) (quotient_tree sort (tree_of cx.old.trees b) (tree_of cx.old.trees d))) }
    ensures grows { Grows cx.old cx.new }
{
    by_lemma(cx, &MUL_DIV_RIGHT, sort, &[a, b, c, d], &[first])
}

/// `a / d * c = b / d`, from a line for `a * c = b`.
#[tactic(auto, using(crate::proofs::RowNames::fractions))]
pub fn mul_div_left(
    cx: &mut Builder,
    sort: Sort,
    a: ExprId,
    b: ExprId,
    c: ExprId,
    d: ExprId,
    first: usize,
) -> Result<Rewriting, Memory>
    requires a_stands { Stands cx.old sort a (tree_of cx.old.trees a) }
    requires b_stands { Stands cx.old sort b (tree_of cx.old.trees b) }
    requires c_stands { Stands cx.old sort c (tree_of cx.old.trees c) }
    requires d_stands { Stands cx.old sort d (tree_of cx.old.trees d) }
    requires first_line { Proves cx.old first (product_tree sort (tree_of cx.old.trees a) (tree_of cx.old.trees c)) (tree_of cx.old.trees b) }
    requires field { has_class cx.old.theory.declarations sort Field ≡ true }
    requires library { HoldsLibrary cx.old.theory.lemmas }
    ensures turns { IfOk result (λ r. Turns cx.new sort r (product_tree sort (quotient_tree sort (tree_of cx.old.trees a) (tree_of cx.old.trees d)) (tree_of cx.old.trees c)) (quotient_tree sort (tree_of cx.old.trees b) (tree_of cx.old.trees d))) }
    ensures grows { Grows cx.old cx.new }
{
    by_lemma(cx, &MUL_DIV_LEFT, sort, &[a, b, c, d], &[first])
}

/// `a * (c / d) = a / d * c`.
#[tactic(auto, using(crate::proofs::RowNames::fractions))]
pub fn mul_div_comm(
    cx: &mut Builder,
    sort: Sort,
    a: ExprId,
    c: ExprId,
    d: ExprId,
) -> Result<Rewriting, Memory>
    requires a_stands { Stands cx.old sort a (tree_of cx.old.trees a) }
    requires c_stands { Stands cx.old sort c (tree_of cx.old.trees c) }
    requires d_stands { Stands cx.old sort d (tree_of cx.old.trees d) }
    requires field { has_class cx.old.theory.declarations sort Field ≡ true }
    requires library { HoldsLibrary cx.old.theory.lemmas }
    ensures turns { IfOk result (λ r. Turns cx.new sort r (product_tree sort (tree_of cx.old.trees a) (quotient_tree sort (tree_of cx.old.trees c) (tree_of cx.old.trees d))) (product_tree sort (quotient_tree sort (tree_of cx.old.trees a) (tree_of cx.old.trees d)) (tree_of cx.old.trees c))) }
    ensures grows { Grows cx.old cx.new }
{
    by_lemma(cx, &MUL_DIV_COMM, sort, &[a, c, d], &[])
}
