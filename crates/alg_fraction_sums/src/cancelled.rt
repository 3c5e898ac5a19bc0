ghost use Rattle.std.specs.Prelude.{◌≡◌, ◌<◌, ◌^◌, IfOk, true};
ghost use Rattle.alg_terms.specs.Tree.{Lit, product_tree};
ghost use Rattle.alg_terms.specs.declared.relations.Rel.TheVariants.{Le, Lt, Ne};
ghost use Rattle.alg_expr.specs.Ids.{tree_of};
ghost use Rattle.alg_law.specs.declared.classes.Class.TheVariants.{IsStrictOrderedRing};
ghost use Rattle.alg_law.specs.Derivations.{related};
ghost use Rattle.alg_law.specs.Having.{has_class};
ghost use Rattle.alg_proof.specs.LiteralLines.{relation_class};
ghost use Rattle.alg_build.specs.Book.{Concludes, Grows};
ghost use Rattle.alg_build.specs.Rewriting.{Stands};
ghost use Rattle.alg_fractions.specs.Fractions.{HasQuotients};
ghost use Rattle.alg_fraction_sums.specs.Comparing.{is_order};

use alg_build::{Builder, Memory};
use alg_expr::{ExprId, Rel, Sort};
use alg_numerals::relations::compared_literals;
use alg_rows::comparisons::{le_of_mul, lt_of_mul};
use alg_rows::inequations::ne_of_mul;

/// `a R b`, from `a * c R b * c`
#[tactic(auto, using(crate::proofs::ComparisonLemmas::comparisons))]
pub fn cancelled(
    cx: &mut Builder,
    rel: Rel,
    sort: Sort,
    a: ExprId,
    b: ExprId,
    c: u128,
    line: usize,
) -> Result<usize, Memory>
    requires quotients { HasQuotients cx.old sort }
    requires order { is_order rel ≡ true }
    requires class { relation_class cx.old.theory.declarations rel sort ≡ true }
    requires a_stands { Stands cx.old sort a (tree_of cx.old.trees a) }
    requires b_stands { Stands cx.old sort b (tree_of cx.old.trees b) }
    requires above { 0 < c }
    requires small { c < 2 ^ 127 }
    requires relation { Concludes cx.old line (related rel sort (product_tree sort (tree_of cx.old.trees a) (Lit sort c)) (product_tree sort (tree_of cx.old.trees b) (Lit sort c))) }
    ensures concludes { IfOk result (λ n. Concludes cx.new n (related rel sort (tree_of cx.old.trees a) (tree_of cx.old.trees b))) }
    ensures grows { Grows cx.old cx.new }
{
    match rel {
        Rel::Ne => differs_by(cx, sort, a, b, c, line),
        Rel::Lt => below_by(cx, sort, a, b, c, line),
        Rel::Le => at_most_by(cx, sort, a, b, c, line),
        Rel::Eq | Rel::Dvd => unreachable!(),
    }
}

// `a ≠ b`, from `a * c ≠ b * c`
#[tactic(auto, using(crate::proofs::ComparisonLemmas::comparisons))]
fn differs_by(
    cx: &mut Builder,
    sort: Sort,
    a: ExprId,
    b: ExprId,
    c: u128,
    line: usize,
) -> Result<usize, Memory>
    requires quotients { HasQuotients cx.old sort }
    requires a_stands { Stands cx.old sort a (tree_of cx.old.trees a) }
    requires b_stands { Stands cx.old sort b (tree_of cx.old.trees b) }
    requires above { 0 < c }
    requires small { c < 2 ^ 127 }
    requires relation { Concludes cx.old line (related Ne sort (product_tree sort (tree_of cx.old.trees a) (Lit sort c)) (product_tree sort (tree_of cx.old.trees b) (Lit sort c))) }
    ensures concludes { IfOk result (λ n. Concludes cx.new n (related Ne sort (tree_of cx.old.trees a) (tree_of cx.old.trees b))) }
    ensures grows { Grows cx.old cx.new }
{
    let some = compared_literals(cx, Rel::Ne, sort, c, 0)?;
    ne_of_mul(cx, sort, a, b, some.first, line, some.line)
}

// `a < b`, from `a * c < b * c`
#[tactic(auto, using(crate::proofs::ComparisonLemmas::comparisons))]
fn below_by(
    cx: &mut Builder,
    sort: Sort,
    a: ExprId,
    b: ExprId,
    c: u128,
    line: usize,
) -> Result<usize, Memory>
    requires quotients { HasQuotients cx.old sort }
    requires ordered { has_class cx.old.theory.declarations sort IsStrictOrderedRing ≡ true }
    requires a_stands { Stands cx.old sort a (tree_of cx.old.trees a) }
    requires b_stands { Stands cx.old sort b (tree_of cx.old.trees b) }
    requires above { 0 < c }
    requires small { c < 2 ^ 127 }
    requires relation { Concludes cx.old line (related Lt sort (product_tree sort (tree_of cx.old.trees a) (Lit sort c)) (product_tree sort (tree_of cx.old.trees b) (Lit sort c))) }
    ensures concludes { IfOk result (λ n. Concludes cx.new n (related Lt sort (tree_of cx.old.trees a) (tree_of cx.old.trees b))) }
    ensures grows { Grows cx.old cx.new }
{
    let some = compared_literals(cx, Rel::Lt, sort, 0, c)?;
    lt_of_mul(cx, sort, a, b, some.second, line, some.line)
}

// `a ≤ b`, from `a * c ≤ b * c`
#[tactic(auto, using(crate::proofs::ComparisonLemmas::comparisons))]
fn at_most_by(
    cx: &mut Builder,
    sort: Sort,
    a: ExprId,
    b: ExprId,
    c: u128,
    line: usize,
) -> Result<usize, Memory>
    requires quotients { HasQuotients cx.old sort }
    requires ordered { has_class cx.old.theory.declarations sort IsStrictOrderedRing ≡ true }
    requires a_stands { Stands cx.old sort a (tree_of cx.old.trees a) }
    requires b_stands { Stands cx.old sort b (tree_of cx.old.trees b) }
    requires above { 0 < c }
    requires small { c < 2 ^ 127 }
    requires relation { Concludes cx.old line (related Le sort (product_tree sort (tree_of cx.old.trees a) (Lit sort c)) (product_tree sort (tree_of cx.old.trees b) (Lit sort c))) }
    ensures concludes { IfOk result (λ n. Concludes cx.new n (related Le sort (tree_of cx.old.trees a) (tree_of cx.old.trees b))) }
    ensures grows { Grows cx.old cx.new }
{
    let some = compared_literals(cx, Rel::Lt, sort, 0, c)?;
    le_of_mul(cx, sort, a, b, some.second, line, some.line)
}
