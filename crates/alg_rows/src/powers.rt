//! Powers, and multiples by integers below 0.
ghost use Rattle.std.specs.Prelude.{◌≡◌, IfOk, true};
ghost use Rattle.alg_terms.specs.declared.sorts.Sort.TheVariants.{Nat, Int};
ghost use Rattle.alg_terms.specs.declared.relations.Rel.TheVariants.{Ne};
ghost use Rattle.alg_terms.specs.Tree.{sum_tree, product_tree, Lit};
ghost use Rattle.alg_expr.specs.Ids.{tree_of};
ghost use Rattle.alg_law.specs.declared.classes.Class.TheVariants.{AddGroup, Field, Monoid};
ghost use Rattle.alg_law.specs.Having.{has_class};
ghost use Rattle.alg_law.specs.declared.marks.Mark.TheVariants.{Good};
ghost use Rattle.alg_law.specs.WellSorted.{sort_mark};
ghost use Rattle.alg_law.specs.Derivations.{related};
ghost use Rattle.alg_lemma.specs.Library.{HoldsLibrary};
ghost use Rattle.alg_build.specs.Book.{Concludes, Grows, Proves};
ghost use Rattle.alg_build.specs.Rewriting.{Stands, Turns};
ghost use Rattle.alg_rows.specs.Operations.{integer_multiple_tree, integer_power_tree, inverse_tree, negation_tree, power_tree, quotient_tree};

use alg_build::{Builder, Memory, Rewriting, by_law, by_lemma};
use alg_expr::{ExprId, Sort};
use alg_law::multiplicative_laws::{ONE_POW, POW_ZERO};
use alg_lemma::fraction_powers::{DIV_POW, ZPOW_NEG_LIT0, ZSMUL_NEG_LIT};
use alg_lemma::signs::{POW_DOUBLE, POW_NEXT, POW_ONE};

/// `a ^ 0 = 1`.
#[tactic(auto, using(crate::proofs::RowNames::powers))]
pub fn pow_zero(cx: &mut Builder, sort: Sort, a: ExprId) -> Result<Rewriting, Memory>
    requires a_stands { Stands cx.old sort a (tree_of cx.old.trees a) }
    requires monoid { has_class cx.old.theory.declarations sort Monoid ≡ true }
    ensures turns { IfOk result (λ r. Turns cx.new sort r (power_tree sort (tree_of cx.old.trees a) (Lit Nat 0)) (Lit sort 1)) }
    ensures grows { Grows cx.old cx.new }
{
    by_law(cx, &POW_ZERO, sort, &[a], &[])
}

/// `a ^ 1 = a`.
#[tactic(auto, using(crate::proofs::RowNames::powers))]
pub fn pow_one(cx: &mut Builder, sort: Sort, a: ExprId) -> Result<Rewriting, Memory>
    requires a_stands { Stands cx.old sort a (tree_of cx.old.trees a) }
    requires monoid { has_class cx.old.theory.declarations sort Monoid ≡ true }
    requires library { HoldsLibrary cx.old.theory.lemmas }
    ensures turns { IfOk result (λ r. Turns cx.new sort r (power_tree sort (tree_of cx.old.trees a) (Lit Nat 1)) (tree_of cx.old.trees a)) }
    ensures grows { Grows cx.old cx.new }
{
    by_lemma(cx, &POW_ONE, sort, &[a], &[])
}

/// `1 ^ n = 1`.
#[tactic(auto, using(crate::proofs::RowNames::powers))]
pub fn one_pow(cx: &mut Builder, sort: Sort, n: ExprId) -> Result<Rewriting, Memory>
    requires n_stands { Stands cx.old Nat n (tree_of cx.old.trees n) }
    requires known { sort_mark cx.old.theory.declarations sort ≡ Good }
    requires monoid { has_class cx.old.theory.declarations sort Monoid ≡ true }
    ensures turns { IfOk result (λ r. Turns cx.new sort r (power_tree sort (Lit sort 1) (tree_of cx.old.trees n)) (Lit sort 1)) }
    ensures grows { Grows cx.old cx.new }
{
    by_law(cx, &ONE_POW, sort, &[n], &[])
}

/// `a ^ n = c`, from lines for `m + m = n`, `a ^ m = b` and `b * b = c`.
#[tactic(auto, using(crate::proofs::RowNames::powers))]
pub fn pow_double(
    cx: &mut Builder,
    sort: Sort,
    a: ExprId,
    b: ExprId,
    c: ExprId,
    m: ExprId,
    n: ExprId,
    first: usize,
    second: usize,
    third: usize,
) -> Result<Rewriting, Memory>
    requires a_stands { Stands cx.old sort a (tree_of cx.old.trees a) }
    requires b_stands { Stands cx.old sort b (tree_of cx.old.trees b) }
    requires c_stands { Stands cx.old sort c (tree_of cx.old.trees c) }
    requires m_stands { Stands cx.old Nat m (tree_of cx.old.trees m) }
    requires n_stands { Stands cx.old Nat n (tree_of cx.old.trees n) }
    requires first_line { Proves cx.old first (sum_tree Nat (tree_of cx.old.trees m) (tree_of cx.old.trees m)) (tree_of cx.old.trees n) }
    requires second_line { Proves cx.old second (power_tree sort (tree_of cx.old.trees a) (tree_of cx.old.trees m)) (tree_of cx.old.trees b) }
    requires third_line { Proves cx.old third (product_tree sort (tree_of cx.old.trees b) (tree_of cx.old.trees b)) (tree_of cx.old.trees c) }
    requires monoid { has_class cx.old.theory.declarations sort Monoid ≡ true }
    requires library { HoldsLibrary cx.old.theory.lemmas }
    ensures turns { IfOk result (λ r. Turns cx.new sort r (power_tree sort (tree_of cx.old.trees a) (tree_of cx.old.trees n)) (tree_of cx.old.trees c)) }
    ensures grows { Grows cx.old cx.new }
{
    by_lemma(
        cx,
        &POW_DOUBLE,
        sort,
        &[a, b, c, m, n],
        &[first, second, third],
    )
}

/// `a ^ n = c`, from lines for `m + 1 = n`, `a ^ m = b` and `b * a = c`.
#[tactic(auto, using(crate::proofs::RowNames::powers))]
pub fn pow_next(
    cx: &mut Builder,
    sort: Sort,
    a: ExprId,
    b: ExprId,
    c: ExprId,
    m: ExprId,
    n: ExprId,
    first: usize,
    second: usize,
    third: usize,
) -> Result<Rewriting, Memory>
    requires a_stands { Stands cx.old sort a (tree_of cx.old.trees a) }
    requires b_stands { Stands cx.old sort b (tree_of cx.old.trees b) }
    requires c_stands { Stands cx.old sort c (tree_of cx.old.trees c) }
    requires m_stands { Stands cx.old Nat m (tree_of cx.old.trees m) }
    requires n_stands { Stands cx.old Nat n (tree_of cx.old.trees n) }
    requires first_line { Proves cx.old first (sum_tree Nat (tree_of cx.old.trees m) (Lit Nat 1)) (tree_of cx.old.trees n) }
    requires second_line { Proves cx.old second (power_tree sort (tree_of cx.old.trees a) (tree_of cx.old.trees m)) (tree_of cx.old.trees b) }
    requires third_line { Proves cx.old third (product_tree sort (tree_of cx.old.trees b) (tree_of cx.old.trees a)) (tree_of cx.old.trees c) }
    requires monoid { has_class cx.old.theory.declarations sort Monoid ≡ true }
    requires library { HoldsLibrary cx.old.theory.lemmas }
    ensures turns { IfOk result (λ r. Turns cx.new sort r (power_tree sort (tree_of cx.old.trees a) (tree_of cx.old.trees n)) (tree_of cx.old.trees c)) }
    ensures grows { Grows cx.old cx.new }
{
    by_lemma(
        cx,
        &POW_NEXT,
        sort,
        &[a, b, c, m, n],
        &[first, second, third],
    )
}

/// `(a / b) ^ n = c / d`, from lines for `a ^ n = c`, `b ^ n = d` and `b ≠ 0`.
#[tactic(auto, using(crate::proofs::RowNames::powers))]
pub fn div_pow(
    cx: &mut Builder,
    sort: Sort,
    a: ExprId,
    b: ExprId,
    c: ExprId,
    d: ExprId,
    n: ExprId,
    first: usize,
    second: usize,
    third: usize,
) -> Result<Rewriting, Memory>
    requires a_stands { Stands cx.old sort a (tree_of cx.old.trees a) }
    requires b_stands { Stands cx.old sort b (tree_of cx.old.trees b) }
    requires c_stands { Stands cx.old sort c (tree_of cx.old.trees c) }
    requires d_stands { Stands cx.old sort d (tree_of cx.old.trees d) }
    requires n_stands { Stands cx.old Nat n (tree_of cx.old.trees n) }
    requires first_line { Proves cx.old first (power_tree sort (tree_of cx.old.trees a) (tree_of cx.old.trees n)) (tree_of cx.old.trees c) }
    requires second_line { Proves cx.old second (power_tree sort (tree_of cx.old.trees b) (tree_of cx.old.trees n)) (tree_of cx.old.trees d) }
    requires third_line { Concludes cx.old third (related Ne sort (tree_of cx.old.trees b) (Lit sort 0)) }
    requires field { has_class cx.old.theory.declarations sort Field ≡ true }
    requires library { HoldsLibrary cx.old.theory.lemmas }
    ensures turns { IfOk result (λ r. Turns cx.new sort r (power_tree sort (quotient_tree sort (tree_of cx.old.trees a) (tree_of cx.old.trees b)) (tree_of cx.old.trees n)) (quotient_tree sort (tree_of cx.old.trees c) (tree_of cx.old.trees d))) }
    ensures grows { Grows cx.old cx.new }
{
    by_lemma(
        cx,
        &DIV_POW,
        sort,
        &[a, b, c, d, n],
        &[first, second, third],
    )
}

/// `a ^ (-i) = c`, from lines for `a ^ i = b` and `b⁻¹ = c`.
#[tactic(auto, using(crate::proofs::RowNames::powers))]
pub fn zpow_neg_lit0(
    cx: &mut Builder,
    sort: Sort,
    a: ExprId,
    b: ExprId,
    c: ExprId,
    i: ExprId,
    first: usize,
    second: usize,
) -> Result<Rewriting, Memory>
    requires a_stands { Stands cx.old sort a (tree_of cx.old.trees a) }
    requires b_stands { Stands cx.old sort b (tree_of cx.old.trees b) }
    requires c_stands { Stands cx.old sort c (tree_of cx.old.trees c) }
    requires i_stands { Stands cx.old Int i (tree_of cx.old.trees i) }
    requires first_line { Proves cx.old first (integer_power_tree sort (tree_of cx.old.trees a) (tree_of cx.old.trees i)) (tree_of cx.old.trees b) }
    requires second_line { Proves cx.old second (inverse_tree sort (tree_of cx.old.trees b)) (tree_of cx.old.trees c) }
    requires field { has_class cx.old.theory.declarations sort Field ≡ true }
    requires library { HoldsLibrary cx.old.theory.lemmas }
    ensures turns { IfOk result (λ r. Turns cx.new sort r (integer_power_tree sort (tree_of cx.old.trees a) (negation_tree Int (tree_of cx.old.trees i))) (tree_of cx.old.trees c)) }
    ensures grows { Grows cx.old cx.new }
{
    by_lemma(cx, &ZPOW_NEG_LIT0, sort, &[a, b, c, i], &[first, second])
}

/// `(-i) • a = c`, from lines for `i • a = b` and `-b = c`.
#[tactic(auto, using(crate::proofs::RowNames::powers))]
pub fn zsmul_neg_lit(
    cx: &mut Builder,
    sort: Sort,
    a: ExprId,
    b: ExprId,
    c: ExprId,
    i: ExprId,
    first: usize,
    second: usize,
) -> Result<Rewriting, Memory>
    requires a_stands { Stands cx.old sort a (tree_of cx.old.trees a) }
    requires b_stands { Stands cx.old sort b (tree_of cx.old.trees b) }
    requires c_stands { Stands cx.old sort c (tree_of cx.old.trees c) }
    requires i_stands { Stands cx.old Int i (tree_of cx.old.trees i) }
    requires first_line { Proves cx.old first (integer_multiple_tree sort (tree_of cx.old.trees i) (tree_of cx.old.trees a)) (tree_of cx.old.trees b) }
    requires second_line { Proves cx.old second (negation_tree sort (tree_of cx.old.trees b)) (tree_of cx.old.trees c) }
    requires add_group { has_class cx.old.theory.declarations sort AddGroup ≡ true }
    requires library { HoldsLibrary cx.old.theory.lemmas }
    ensures turns { IfOk result (λ r. Turns cx.new sort r (integer_multiple_tree sort (negation_tree Int (tree_of cx.old.trees i)) (tree_of cx.old.trees a)) (tree_of cx.old.trees c)) }
    ensures grows { Grows cx.old cx.new }
{
    by_lemma(cx, &ZSMUL_NEG_LIT, sort, &[a, b, c, i], &[first, second])
}
