//! Negations of products by powers.
ghost use Rattle.std.specs.Prelude.{◌≡◌, IfOk, true};
ghost use Rattle.alg_terms.specs.Tree.{sum_tree, product_tree, Lit};
ghost use Rattle.alg_expr.specs.Ids.{tree_of};
ghost use Rattle.alg_law.specs.declared.classes.Class.TheVariants.{AddCommGroup, Ring};
ghost use Rattle.alg_law.specs.Having.{has_class};
ghost use Rattle.alg_lemma.specs.Library.{HoldsLibrary};
ghost use Rattle.alg_build.specs.Book.{Grows, Proves};
ghost use Rattle.alg_build.specs.Rewriting.{Stands, Turns};
ghost use Rattle.alg_rows.specs.Operations.{negation_tree};

use alg_build::{Builder, Memory, Rewriting, by_lemma};
use alg_expr::{ExprId, Sort};
use alg_lemma::node_products::{NEG_NODE, NEG_NODE_ZERO, NEG_SUM};

/// `-(a + b) = c + d`, from lines for `-a = c` and `-b = d`.
#[tactic(auto, using(crate::proofs::RowNames::negations))]
pub fn neg_sum(
    cx: &mut Builder,
    sort: Sort,
    a: ExprId,
    b: ExprId,
    c: ExprId,
    d: ExprId,
    first: usize,
    second: usize,
) -> Result<Rewriting, Memory>
    requires a_stands { Stands cx.old sort a (tree_of cx.old.trees a) }
    requires b_stands { Stands cx.old sort b (tree_of cx.old.trees b) }
    requires c_stands { Stands cx.old sort c (tree_of cx.old.trees c) }
    requires d_stands { Stands cx.old sort d (tree_of cx.old.trees d) }
    requires first_line { Proves cx.old first (negation_tree sort (tree_of cx.old.trees a)) (tree_of cx.old.trees c) }
    requires second_line { Proves cx.old second (negation_tree sort (tree_of cx.old.trees b)) (tree_of cx.old.trees d) }
    requires add_comm_group { has_class cx.old.theory.declarations sort AddCommGroup ≡ true }
    requires library { HoldsLibrary cx.old.theory.lemmas }
    ensures turns { IfOk result (λ r. Turns cx.new sort r (negation_tree sort (sum_tree sort (tree_of cx.old.trees a) (tree_of cx.old.trees b))) (sum_tree sort (tree_of cx.old.trees c) (tree_of cx.old.trees d))) }
    ensures grows { Grows cx.old cx.new }
{
    by_lemma(cx, &NEG_SUM, sort, &[a, b, c, d], &[first, second])
}

/// `-(a * c) = b * c`, from a line for `-a = b`.
#[tactic(auto, using(crate::proofs::RowNames::negations))]
pub fn neg_node(
    cx: &mut Builder,
    sort: Sort,
    a: ExprId,
    b: ExprId,
    c: ExprId,
    first: usize,
) -> Result<Rewriting, Memory>
    requires a_stands { Stands cx.old sort a (tree_of cx.old.trees a) }
    requires b_stands { Stands cx.old sort b (tree_of cx.old.trees b) }
    requires c_stands { Stands cx.old sort c (tree_of cx.old.trees c) }
    requires first_line { Proves cx.old first (negation_tree sort (tree_of cx.old.trees a)) (tree_of cx.old.trees b) }
    requires ring { has_class cx.old.theory.declarations sort Ring ≡ true }
    requires library { HoldsLibrary cx.old.theory.lemmas }
    ensures turns { IfOk result (λ r. Turns cx.new sort r (negation_tree sort (product_tree sort (tree_of cx.old.trees a) (tree_of cx.old.trees c))) (product_tree sort (tree_of cx.old.trees b) (tree_of cx.old.trees c))) }
    ensures grows { Grows cx.old cx.new }
{
    by_lemma(cx, &NEG_NODE, sort, &[a, b, c], &[first])
}

/// `-(a * c + 0) = b * c + 0`, from a line for `-a = b`.
#[tactic(auto, using(crate::proofs::RowNames::negations))]
pub fn neg_node_zero(
    cx: &mut Builder,
    sort: Sort,
    a: ExprId,
    b: ExprId,
    c: ExprId,
    first: usize,
) -> Result<Rewriting, Memory>
    requires a_stands { Stands cx.old sort a (tree_of cx.old.trees a) }
    requires b_stands { Stands cx.old sort b (tree_of cx.old.trees b) }
    requires c_stands { Stands cx.old sort c (tree_of cx.old.trees c) }
    requires first_line { Proves cx.old first (negation_tree sort (tree_of cx.old.trees a)) (tree_of cx.old.trees b) }
    requires ring { has_class cx.old.theory.declarations sort Ring ≡ true }
    requires library { HoldsLibrary cx.old.theory.lemmas }
    ensures turns { IfOk result (λ r. Turns cx.new sort r (negation_tree sort (sum_tree sort (product_tree sort (tree_of cx.old.trees a) (tree_of cx.old.trees c)) (Lit sort 0))) (sum_tree sort (product_tree sort (tree_of cx.old.trees b) (tree_of cx.old.trees c)) (Lit sort 0))) }
    ensures grows { Grows cx.old cx.new }
{
    by_lemma(cx, &NEG_NODE_ZERO, sort, &[a, b, c], &[first])
}
