//! Equations from differences.
ghost use Rattle.std.specs.Prelude.{◌≡◌, IfOk, true};
ghost use Rattle.alg_terms.specs.Tree.{Lit};
ghost use Rattle.alg_expr.specs.Ids.{tree_of};
ghost use Rattle.alg_law.specs.declared.classes.Class.TheVariants.{AddGroup};
ghost use Rattle.alg_law.specs.Having.{has_class};
ghost use Rattle.alg_lemma.specs.Library.{HoldsLibrary};
ghost use Rattle.alg_build.specs.Book.{Grows, Proves};
ghost use Rattle.alg_build.specs.Rewriting.{Stands, Turns};
ghost use Rattle.alg_rows.specs.Operations.{difference_tree};

use alg_build::{Builder, Memory, Rewriting, by_lemma};
use alg_expr::{ExprId, Sort};
use alg_lemma::combinations::EQ_OF_COMBO;

/// `a = b`, from lines for `c = d` and `a - b - (c - d) = 0`.
#[tactic(auto, using(crate::proofs::RowNames::combinations))]
pub fn eq_of_combo(
    cx: &mut Builder,
    sort: Sort,
    a: ExprId,
    b: ExprId,
    c: ExprId,
    d: ExprId,
    first: usize,
    second: usize,
) -> Result<Rewriting, Memory>
    requires a_stands { Stands cx.old sort a (tree_of cx.old.trees a) }
    requires b_stands { Stands cx.old sort b (tree_of cx.old.trees b) }
    requires c_stands { Stands cx.old sort c (tree_of cx.old.trees c) }
    requires d_stands { Stands cx.old sort d (tree_of cx.old.trees d) }
    requires first_line { Proves cx.old first (tree_of cx.old.trees c) (tree_of cx.old.trees d) }
    requires second_line { Proves cx.old second (difference_tree sort (difference_tree sort (tree_of cx.old.trees a) (tree_of cx.old.trees b)) (difference_tree sort (tree_of cx.old.trees c) (tree_of cx.old.trees d))) (Lit sort 0) }
    requires add_group { has_class cx.old.theory.declarations sort AddGroup ≡ true }
    requires library { HoldsLibrary cx.old.theory.lemmas }
    ensures turns { IfOk result (λ r. Turns cx.new sort r (tree_of cx.old.trees a) (tree_of cx.old.trees b)) }
    ensures grows { Grows cx.old cx.new }
{
    by_lemma(cx, &EQ_OF_COMBO, sort, &[a, b, c, d], &[first, second])
}
