ghost use Rattle.std.specs.Prelude.{◌≡◌, IfOk, true};
ghost use Rattle.alg_terms.specs.Tree.{product_tree};
ghost use Rattle.alg_expr.specs.Ids.{tree_of};
ghost use Rattle.alg_law.specs.declared.classes.Class.TheVariants.{CommMonoid};
ghost use Rattle.alg_law.specs.Having.{has_class};
ghost use Rattle.alg_lemma.specs.Library.{HoldsLibrary};
ghost use Rattle.alg_build.specs.Book.{Grows};
ghost use Rattle.alg_build.specs.Rewriting.{Stands, Turns};

use alg_build::{Builder, Memory, Rewriting, by_lemma};
use alg_expr::{ExprId, Sort};
use alg_lemma::rearrangements::MUL_RIGHT_COMM;

/// `a * b * c = a * c * b`.
#[tactic(auto, using(crate::proofs::RowNames::rearranging))]
pub fn mul_right_comm(
    cx: &mut Builder,
    sort: Sort,
    a: ExprId,
    b: ExprId,
    c: ExprId,
) -> Result<Rewriting, Memory>
    requires a_stands { Stands cx.old sort a (tree_of cx.old.trees a) }
    requires b_stands { Stands cx.old sort b (tree_of cx.old.trees b) }
    requires c_stands { Stands cx.old sort c (tree_of cx.old.trees c) }
    requires comm_monoid { has_class cx.old.theory.declarations sort CommMonoid ≡ true }
    requires library { HoldsLibrary cx.old.theory.lemmas }
    ensures turns { IfOk result (λ r. Turns cx.new sort r (product_tree sort (product_tree sort (tree_of cx.old.trees a) (tree_of cx.old.trees b)) (tree_of cx.old.trees c)) (product_tree sort (product_tree sort (tree_of cx.old.trees a) (tree_of cx.old.trees c)) (tree_of cx.old.trees b))) }
    ensures grows { Grows cx.old cx.new }
{
    by_lemma(cx, &MUL_RIGHT_COMM, sort, &[a, b, c], &[])
}
