//! The next term of one sum.
ghost use Rattle.std.specs.Prelude.{◌≡◌, IfOk};
ghost use Rattle.alg_terms.specs.Tree.{sum_tree};
ghost use Rattle.alg_expr.specs.Ids.{tree_of};
ghost use Rattle.alg_build.specs.Book.{Grows, Proves};
ghost use Rattle.alg_build.specs.Rewriting.{Stands};
ghost use Rattle.alg_sorted_sums.specs.Sums.{CanSum};

use crate::rows::{merge_left, merge_right};
use alg_build::{Builder, Memory, line_of};
use alg_expr::{ExprId, Sort};

/// The tree of what is done with one term more, and the line for the sum.
#[derive(Clone, Copy, Debug)]
pub struct Taken {
    pub sum: ExprId,
    pub line: usize,
}

/// `(a + b) + c = d + b`, from a line for `a + c = d`.
#[tactic(auto, using(crate::proofs::Growing::growing))]
pub fn left_taken(
    cx: &mut Builder,
    sort: Sort,
    a: ExprId,
    b: ExprId,
    c: ExprId,
    d: ExprId,
    line: usize,
) -> Result<Taken, Memory>
    requires a_in { Stands cx.old sort a (tree_of cx.old.trees a) }
    requires b_in { Stands cx.old sort b (tree_of cx.old.trees b) }
    requires c_in { Stands cx.old sort c (tree_of cx.old.trees c) }
    requires d_in { Stands cx.old sort d (tree_of cx.old.trees d) }
    requires premise { Proves cx.old line (sum_tree sort (tree_of cx.old.trees a) (tree_of cx.old.trees c)) (tree_of cx.old.trees d) }
    requires ready { CanSum cx.old.theory sort }
    ensures sum { IfOk result (λ r. Stands cx.new sort r.sum (sum_tree sort (tree_of cx.old.trees d) (tree_of cx.old.trees b))) }
    ensures line { IfOk result (λ r. Proves cx.new r.line (sum_tree sort (sum_tree sort (tree_of cx.old.trees a) (tree_of cx.old.trees b)) (tree_of cx.old.trees c)) (sum_tree sort (tree_of cx.old.trees d) (tree_of cx.old.trees b))) }
    ensures grows { Grows cx.old cx.new }
{
    let r = merge_left(cx, sort, a, b, c, d, line)?;
    let line = line_of(cx, r)?;
    Ok(Taken { sum: r.to, line })
}

/// `a + (b + c) = d + c`, from a line for `a + b = d`.
#[tactic(auto, using(crate::proofs::Growing::growing))]
pub fn right_taken(
    cx: &mut Builder,
    sort: Sort,
    a: ExprId,
    b: ExprId,
    c: ExprId,
    d: ExprId,
    line: usize,
) -> Result<Taken, Memory>
    requires a_in { Stands cx.old sort a (tree_of cx.old.trees a) }
    requires b_in { Stands cx.old sort b (tree_of cx.old.trees b) }
    requires c_in { Stands cx.old sort c (tree_of cx.old.trees c) }
    requires d_in { Stands cx.old sort d (tree_of cx.old.trees d) }
    requires premise { Proves cx.old line (sum_tree sort (tree_of cx.old.trees a) (tree_of cx.old.trees b)) (tree_of cx.old.trees d) }
    requires ready { CanSum cx.old.theory sort }
    ensures sum { IfOk result (λ r. Stands cx.new sort r.sum (sum_tree sort (tree_of cx.old.trees d) (tree_of cx.old.trees c))) }
    ensures line { IfOk result (λ r. Proves cx.new r.line (sum_tree sort (tree_of cx.old.trees a) (sum_tree sort (tree_of cx.old.trees b) (tree_of cx.old.trees c))) (sum_tree sort (tree_of cx.old.trees d) (tree_of cx.old.trees c))) }
    ensures grows { Grows cx.old cx.new }
{
    let r = merge_right(cx, sort, a, b, c, d, line)?;
    let line = line_of(cx, r)?;
    Ok(Taken { sum: r.to, line })
}
