//! Quotients in a field.
ghost use Rattle.std.specs.Prelude.{◌≡◌, IfOk, true};
ghost use Rattle.alg_terms.specs.declared.relations.Rel.TheVariants.{Ne};
ghost use Rattle.alg_terms.specs.Tree.{product_tree, Lit};
ghost use Rattle.alg_expr.specs.Ids.{tree_of};
ghost use Rattle.alg_law.specs.declared.classes.Class.TheVariants.{Field};
ghost use Rattle.alg_law.specs.Having.{has_class};
ghost use Rattle.alg_law.specs.Derivations.{related};
ghost use Rattle.alg_lemma.specs.Library.{HoldsLibrary};
ghost use Rattle.alg_build.specs.Book.{Concludes, Grows, Proves};
ghost use Rattle.alg_build.specs.Rewriting.{Stands, Turns};
ghost use Rattle.alg_rows.specs.Operations.{inverse_tree, negation_tree, quotient_tree};

use alg_build::{Builder, Memory, Rewriting, by_lemma};
use alg_expr::{ExprId, Sort};
use alg_lemma::fraction_powers::{DIV_OF_INV, NEG_DIV};
use alg_lemma::fractions::{DIV_EXPAND, DIV_JOIN, DIV_SPLIT, EQ_DIV_OF_MUL, EQ_OF_MUL};
use alg_lemma::quotients::{DIV_MUL_LIT, DIV_ONE0};

/// `a = b`, from lines for `a * c = d`, `b * c = d` and `c ≠ 0`.
#[tactic(auto, using(crate::proofs::RowNames::quotients))]
pub fn eq_of_mul(
    cx: &mut Builder,
    sort: Sort,
    a: ExprId,
    b: ExprId,
    c: ExprId,
    d: ExprId,
    first: usize,
    second: usize,
    third: usize,
) -> Result<Rewriting, Memory>
    requires a_stands { Stands cx.old sort a (tree_of cx.old.trees a) }
    requires b_stands { Stands cx.old sort b (tree_of cx.old.trees b) }
    requires c_stands { Stands cx.old sort c (tree_of cx.old.trees c) }
    requires d_stands { Stands cx.old sort d (tree_of cx.old.trees d) }
    requires first_line { Proves cx.old first (product_tree sort (tree_of cx.old.trees a) (tree_of cx.old.trees c)) (tree_of cx.old.trees d) }
    requires second_line { Proves cx.old second (product_tree sort (tree_of cx.old.trees b) (tree_of cx.old.trees c)) (tree_of cx.old.trees d) }
    requires third_line { Concludes cx.old third (related Ne sort (tree_of cx.old.trees c) (Lit sort 0)) }
    requires field { has_class cx.old.theory.declarations sort Field ≡ true }
    requires library { HoldsLibrary cx.old.theory.lemmas }
    ensures turns { IfOk result (λ r. Turns cx.new sort r (tree_of cx.old.trees a) (tree_of cx.old.trees b)) }
    ensures grows { Grows cx.old cx.new }
{
    by_lemma(cx, &EQ_OF_MUL, sort, &[a, b, c, d], &[first, second, third])
}

/// `a / 1 = a`.
#[tactic(auto, using(crate::proofs::RowNames::quotients))]
pub fn div_one0(cx: &mut Builder, sort: Sort, a: ExprId) -> Result<Rewriting, Memory>
    requires a_stands { Stands cx.old sort a (tree_of cx.old.trees a) }
    requires field { has_class cx.old.theory.declarations sort Field ≡ true }
    requires library { HoldsLibrary cx.old.theory.lemmas }
    ensures turns { IfOk result (λ r. Turns cx.new sort r (quotient_tree sort (tree_of cx.old.trees a) (Lit sort 1)) (tree_of cx.old.trees a)) }
    ensures grows { Grows cx.old cx.new }
{
    by_lemma(cx, &DIV_ONE0, sort, &[a], &[])
}

/// `a / b = c`, from lines for `b⁻¹ = d` and `a * d = c`.
#[tactic(auto, using(crate::proofs::RowNames::quotients))]
pub fn div_of_inv(
    cx: &mut Builder,
    sort: Sort,
    a: ExprId,
    b: ExprId,
    c: ExprId,
    d: ExprId,
    first: usize,
    second: usize,
) -> Result<Rewriting, Memory>
    requires a_stands { Stands cx.old sort a (tree_of cx.old.trees a) }
    requires b_stands { Stands cx.old sort b (tree_of cx.old.trees b) }
    requires c_stands { Stands cx.old sort c (tree_of cx.old.trees c) }
    requires d_stands { Stands cx.old sort d (tree_of cx.old.trees d) }
    requires first_line { Proves cx.old first (inverse_tree sort (tree_of cx.old.trees b)) (tree_of cx.old.trees d) }
    requires second_line { Proves cx.old second (product_tree sort (tree_of cx.old.trees a) (tree_of cx.old.trees d)) (tree_of cx.old.trees c) }
    requires field { has_class cx.old.theory.declarations sort Field ≡ true }
    requires library { HoldsLibrary cx.old.theory.lemmas }
    ensures turns { IfOk result (λ r. Turns cx.new sort r (quotient_tree sort (tree_of cx.old.trees a) (tree_of cx.old.trees b)) (tree_of cx.old.trees c)) }
    ensures grows { Grows cx.old cx.new }
{
    by_lemma(cx, &DIV_OF_INV, sort, &[a, b, c, d], &[first, second])
}

/// `-(a / b) = -a / b`.
#[tactic(auto, using(crate::proofs::RowNames::quotients))]
pub fn neg_div(cx: &mut Builder, sort: Sort, a: ExprId, b: ExprId) -> Result<Rewriting, Memory>
    requires a_stands { Stands cx.old sort a (tree_of cx.old.trees a) }
    requires b_stands { Stands cx.old sort b (tree_of cx.old.trees b) }
    requires field { has_class cx.old.theory.declarations sort Field ≡ true }
    requires library { HoldsLibrary cx.old.theory.lemmas }
    ensures turns { IfOk result (λ r. Turns cx.new sort r (negation_tree sort (quotient_tree sort (tree_of cx.old.trees a) (tree_of cx.old.trees b))) (quotient_tree sort (negation_tree sort (tree_of cx.old.trees a)) (tree_of cx.old.trees b))) }
    ensures grows { Grows cx.old cx.new }
{
    by_lemma(cx, &NEG_DIV, sort, &[a, b], &[])
}

/// `d / b = a * (c / b)`, from a line for `a * c = d`.
#[tactic(auto, using(crate::proofs::RowNames::quotients))]
pub fn div_split(
    cx: &mut Builder,
    sort: Sort,
    a: ExprId,
    b: ExprId,
    c: ExprId,
    d: ExprId,
    first: usize,
) -> Result<Rewriting, Memory>
    requires a_stands { Stands cx.old sort a (tree_of cx.old.trees a) }
    requires b_stands { Stands cx.old sort b (tree_of cx.old.trees b) }
    requires c_stands { Stands cx.old sort c (tree_of cx.old.trees c) }
    requires d_stands { Stands cx.old sort d (tree_of cx.old.trees d) }
    requires first_line { Proves cx.old first (product_tree sort (tree_of cx.old.trees a) (tree_of cx.old.trees c)) (tree_of cx.old.trees d) }
    requires field { has_class cx.old.theory.declarations sort Field ≡ true }
    requires library { HoldsLibrary cx.old.theory.lemmas }
    ensures turns { IfOk result (λ r. Turns cx.new sort r (quotient_tree sort (tree_of cx.old.trees d) (tree_of cx.old.trees b)) (product_tree sort (tree_of cx.old.trees a) (quotient_tree sort (tree_of cx.old.trees c) (tree_of cx.old.trees b)))) }
    ensures grows { Grows cx.old cx.new }
{
    by_lemma(cx, &DIV_SPLIT, sort, &[a, b, c, d], &[first])
}

/// `a * (c / d) = a / b`, from lines for `b * c = d`, `b ≠ 0` and `c ≠ 0`.
#[tactic(auto, using(crate::proofs::RowNames::quotients))]
pub fn div_join(
    cx: &mut Builder,
    sort: Sort,
    a: ExprId,
    b: ExprId,
    c: ExprId,
    d: ExprId,
    first: usize,
    second: usize,
    third: usize,
) -> Result<Rewriting, Memory>
    requires a_stands { Stands cx.old sort a (tree_of cx.old.trees a) }
    requires b_stands { Stands cx.old sort b (tree_of cx.old.trees b) }
    requires c_stands { Stands cx.old sort c (tree_of cx.old.trees c) }
    requires d_stands { Stands cx.old sort d (tree_of cx.old.trees d) }
    requires first_line { Proves cx.old first (product_tree sort (tree_of cx.old.trees b) (tree_of cx.old.trees c)) (tree_of cx.old.trees d) }
    requires second_line { Concludes cx.old second (related Ne sort (tree_of cx.old.trees b) (Lit sort 0)) }
    requires third_line { Concludes cx.old third (related Ne sort (tree_of cx.old.trees c) (Lit sort 0)) }
    requires field { has_class cx.old.theory.declarations sort Field ≡ true }
    requires library { HoldsLibrary cx.old.theory.lemmas }
    ensures turns { IfOk result (λ r. Turns cx.new sort r (product_tree sort (tree_of cx.old.trees a) (quotient_tree sort (tree_of cx.old.trees c) (tree_of cx.old.trees d))) (quotient_tree sort (tree_of cx.old.trees a) (tree_of cx.old.trees b))) }
    ensures grows { Grows cx.old cx.new }
{
    by_lemma(cx, &DIV_JOIN, sort, &[a, b, c, d], &[first, second, third])
}

/// `a / b = a * c / d`, from lines for `b * c = d`, `b ≠ 0` and `c ≠ 0`.
#[tactic(auto, using(crate::proofs::RowNames::quotients))]
pub fn div_expand(
    cx: &mut Builder,
    sort: Sort,
    a: ExprId,
    b: ExprId,
    c: ExprId,
    d: ExprId,
    first: usize,
    second: usize,
    third: usize,
) -> Result<Rewriting, Memory>
    requires a_stands { Stands cx.old sort a (tree_of cx.old.trees a) }
    requires b_stands { Stands cx.old sort b (tree_of cx.old.trees b) }
    requires c_stands { Stands cx.old sort c (tree_of cx.old.trees c) }
    requires d_stands { Stands cx.old sort d (tree_of cx.old.trees d) }
    requires first_line { Proves cx.old first (product_tree sort (tree_of cx.old.trees b) (tree_of cx.old.trees c)) (tree_of cx.old.trees d) }
    requires second_line { Concludes cx.old second (related Ne sort (tree_of cx.old.trees b) (Lit sort 0)) }
    requires third_line { Concludes cx.old third (related Ne sort (tree_of cx.old.trees c) (Lit sort 0)) }
    requires field { has_class cx.old.theory.declarations sort Field ≡ true }
    requires library { HoldsLibrary cx.old.theory.lemmas }
    ensures turns { IfOk result (λ r. Turns cx.new sort r (quotient_tree sort (tree_of cx.old.trees a) (tree_of cx.old.trees b)) (quotient_tree sort (product_tree sort (tree_of cx.old.trees a) (tree_of cx.old.trees c)) (tree_of cx.old.trees d))) }
    ensures grows { Grows cx.old cx.new }
{
    by_lemma(
        cx,
        &DIV_EXPAND,
        sort,
        &[a, b, c, d],
        &[first, second, third],
    )
}

/// `a = c / b`, from lines for `a * b = c` and `b ≠ 0`.
#[tactic(auto, using(crate::proofs::RowNames::quotients))]
pub fn eq_div_of_mul(
    cx: &mut Builder,
    sort: Sort,
    a: ExprId,
    b: ExprId,
    c: ExprId,
    first: usize,
    second: usize,
) -> Result<Rewriting, Memory>
    requires a_stands { Stands cx.old sort a (tree_of cx.old.trees a) }
    requires b_stands { Stands cx.old sort b (tree_of cx.old.trees b) }
    requires c_stands { Stands cx.old sort c (tree_of cx.old.trees c) }
    requires first_line { Proves cx.old first (product_tree sort (tree_of cx.old.trees a) (tree_of cx.old.trees b)) (tree_of cx.old.trees c) }
    requires second_line { Concludes cx.old second (related Ne sort (tree_of cx.old.trees b) (Lit sort 0)) }
    requires field { has_class cx.old.theory.declarations sort Field ≡ true }
    requires library { HoldsLibrary cx.old.theory.lemmas }
    ensures turns { IfOk result (λ r. Turns cx.new sort r (tree_of cx.old.trees a) (quotient_tree sort (tree_of cx.old.trees c) (tree_of cx.old.trees b))) }
    ensures grows { Grows cx.old cx.new }
{
    by_lemma(cx, &EQ_DIV_OF_MUL, sort, &[a, b, c], &[first, second])
}

/// `a / b * d = a * c`, from lines for `b * c = d` and `b ≠ 0`.
#[tactic(auto, using(crate::proofs::RowNames::quotients))]
pub fn div_mul_lit(
    cx: &mut Builder,
    sort: Sort,
    a: ExprId,
    b: ExprId,
    c: ExprId,
    d: ExprId,
    first: usize,
    second: usize,
) -> Result<Rewriting, Memory>
    requires a_stands { Stands cx.old sort a (tree_of cx.old.trees a) }
    requires b_stands { Stands cx.old sort b (tree_of cx.old.trees b) }
    requires c_stands { Stands cx.old sort c (tree_of cx.old.trees c) }
    requires d_stands { Stands cx.old sort d (tree_of cx.old.trees d) }
    requires first_line { Proves cx.old first (product_tree sort (tree_of cx.old.trees b) (tree_of cx.old.trees c)) (tree_of cx.old.trees d) }
    requires second_line { Concludes cx.old second (related Ne sort (tree_of cx.old.trees b) (Lit sort 0)) }
    requires field { has_class cx.old.theory.declarations sort Field ≡ true }
    requires library { HoldsLibrary cx.old.theory.lemmas }
    ensures turns { IfOk result (λ r. Turns cx.new sort r (product_tree sort (quotient_tree sort (tree_of cx.old.trees a) (tree_of cx.old.trees b)) (tree_of cx.old.trees d)) (product_tree sort (tree_of cx.old.trees a) (tree_of cx.old.trees c))) }
    ensures grows { Grows cx.old cx.new }
{
    by_lemma(cx, &DIV_MUL_LIT, sort, &[a, b, c, d], &[first, second])
}
