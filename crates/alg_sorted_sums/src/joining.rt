//! The next terms of two sums, of one monomial.
ghost use Rattle.std.specs.Prelude.{◌≡◌, IfOk};
ghost use Rattle.alg_terms.specs.Tree.{Lit, sum_tree};
ghost use Rattle.alg_expr.specs.Ids.{tree_of};
ghost use Rattle.alg_build.specs.Book.{Grows, Proves};
ghost use Rattle.alg_build.specs.Rewriting.{Stands, Turns};
ghost use Rattle.alg_sorted_sums.specs.Sums.{CanSum};

use crate::rows::{add_add_add_comm, sum_drop};
use crate::taking::Taken;
use alg_build::{Builder, Memory, Rewriting, line_of, plus, then};
use alg_expr::{ExprId, Sort};

/// `(a + b) + (c + d) = e + f`, from `a + c = e` and `b + d = f`.
#[tactic(auto, using(crate::proofs::Growing::growing))]
pub fn both_next(
    cx: &mut Builder,
    sort: Sort,
    a: ExprId,
    b: ExprId,
    c: ExprId,
    d: ExprId,
    r: Rewriting,
    s: Rewriting,
) -> Result<Rewriting, Memory>
    requires a_in { Stands cx.old sort a (tree_of cx.old.trees a) }
    requires b_in { Stands cx.old sort b (tree_of cx.old.trees b) }
    requires c_in { Stands cx.old sort c (tree_of cx.old.trees c) }
    requires d_in { Stands cx.old sort d (tree_of cx.old.trees d) }
    requires before { Turns cx.old sort r (sum_tree sort (tree_of cx.old.trees a) (tree_of cx.old.trees c)) (tree_of cx.old.trees r.to) }
    requires sum { Turns cx.old sort s (sum_tree sort (tree_of cx.old.trees b) (tree_of cx.old.trees d)) (tree_of cx.old.trees s.to) }
    requires ready { CanSum cx.old.theory sort }
    ensures turns { IfOk result (λ q. Turns cx.new sort q (sum_tree sort (sum_tree sort (tree_of cx.old.trees a) (tree_of cx.old.trees b)) (sum_tree sort (tree_of cx.old.trees c) (tree_of cx.old.trees d))) (sum_tree sort (tree_of cx.old.trees r.to) (tree_of cx.old.trees s.to))) }
    ensures grows { Grows cx.old cx.new }
{
    let across = add_add_add_comm(cx, sort, a, b, c, d)?;
    let inner = plus(cx, sort, r, s)?;
    let q = then(cx, across, inner)?;
    Ok(q)
}

/// `(a + b) + (c + d) = e`, from `a + c = e` and a line for `b + d = 0`.
#[tactic(auto, using(crate::proofs::Growing::growing))]
pub fn both_gone(
    cx: &mut Builder,
    sort: Sort,
    a: ExprId,
    b: ExprId,
    c: ExprId,
    d: ExprId,
    r: Rewriting,
    line: usize,
) -> Result<Rewriting, Memory>
    requires a_in { Stands cx.old sort a (tree_of cx.old.trees a) }
    requires b_in { Stands cx.old sort b (tree_of cx.old.trees b) }
    requires c_in { Stands cx.old sort c (tree_of cx.old.trees c) }
    requires d_in { Stands cx.old sort d (tree_of cx.old.trees d) }
    requires before { Turns cx.old sort r (sum_tree sort (tree_of cx.old.trees a) (tree_of cx.old.trees c)) (tree_of cx.old.trees r.to) }
    requires sum { Proves cx.old line (sum_tree sort (tree_of cx.old.trees b) (tree_of cx.old.trees d)) (Lit sort 0) }
    requires ready { CanSum cx.old.theory sort }
    ensures turns { IfOk result (λ q. Turns cx.new sort q (sum_tree sort (sum_tree sort (tree_of cx.old.trees a) (tree_of cx.old.trees b)) (sum_tree sort (tree_of cx.old.trees c) (tree_of cx.old.trees d))) (tree_of cx.old.trees r.to)) }
    ensures grows { Grows cx.old cx.new }
{
    let dropped = sum_drop(cx, sort, a, b, c, d, line)?;
    let q = then(cx, dropped, r)?;
    Ok(q)
}

/// `(a + b) + (c + d) = e + v`, from a line for `a + c = e` and from `b + d = v`.
#[tactic(auto, using(crate::proofs::Growing::growing))]
pub fn joined(
    cx: &mut Builder,
    sort: Sort,
    a: ExprId,
    b: ExprId,
    c: ExprId,
    d: ExprId,
    e: ExprId,
    line: usize,
    r: Rewriting,
) -> Result<Taken, Memory>
    requires a_in { Stands cx.old sort a (tree_of cx.old.trees a) }
    requires b_in { Stands cx.old sort b (tree_of cx.old.trees b) }
    requires c_in { Stands cx.old sort c (tree_of cx.old.trees c) }
    requires d_in { Stands cx.old sort d (tree_of cx.old.trees d) }
    requires e_in { Stands cx.old sort e (tree_of cx.old.trees e) }
    requires before { Proves cx.old line (sum_tree sort (tree_of cx.old.trees a) (tree_of cx.old.trees c)) (tree_of cx.old.trees e) }
    requires sum { Turns cx.old sort r (sum_tree sort (tree_of cx.old.trees b) (tree_of cx.old.trees d)) (tree_of cx.old.trees r.to) }
    requires ready { CanSum cx.old.theory sort }
    ensures sum { IfOk result (λ q. Stands cx.new sort q.sum (sum_tree sort (tree_of cx.old.trees e) (tree_of cx.old.trees r.to))) }
    ensures line { IfOk result (λ q. Proves cx.new q.line (sum_tree sort (sum_tree sort (tree_of cx.old.trees a) (tree_of cx.old.trees b)) (sum_tree sort (tree_of cx.old.trees c) (tree_of cx.old.trees d))) (sum_tree sort (tree_of cx.old.trees e) (tree_of cx.old.trees r.to))) }
    ensures grows { Grows cx.old cx.new }
{
    let before = Rewriting {
        to: e,
        line: Some(line),
    };
    let q = both_next(cx, sort, a, b, c, d, before, r)?;
    let line = line_of(cx, q)?;
    Ok(Taken { sum: q.to, line })
}

/// `(a + b) + (c + d) = e`, from a line for `a + c = e` and from `b + d = 0`.
#[tactic(auto, using(crate::proofs::Growing::growing))]
pub fn vanished(
    cx: &mut Builder,
    sort: Sort,
    a: ExprId,
    b: ExprId,
    c: ExprId,
    d: ExprId,
    e: ExprId,
    line: usize,
    none: usize,
) -> Result<usize, Memory>
    requires a_in { Stands cx.old sort a (tree_of cx.old.trees a) }
    requires b_in { Stands cx.old sort b (tree_of cx.old.trees b) }
    requires c_in { Stands cx.old sort c (tree_of cx.old.trees c) }
    requires d_in { Stands cx.old sort d (tree_of cx.old.trees d) }
    requires e_in { Stands cx.old sort e (tree_of cx.old.trees e) }
    requires before { Proves cx.old line (sum_tree sort (tree_of cx.old.trees a) (tree_of cx.old.trees c)) (tree_of cx.old.trees e) }
    requires sum { Proves cx.old none (sum_tree sort (tree_of cx.old.trees b) (tree_of cx.old.trees d)) (Lit sort 0) }
    requires ready { CanSum cx.old.theory sort }
    ensures line { IfOk result (λ n. Proves cx.new n (sum_tree sort (sum_tree sort (tree_of cx.old.trees a) (tree_of cx.old.trees b)) (sum_tree sort (tree_of cx.old.trees c) (tree_of cx.old.trees d))) (tree_of cx.old.trees e)) }
    ensures grows { Grows cx.old cx.new }
{
    let before = Rewriting {
        to: e,
        line: Some(line),
    };
    let q = both_gone(cx, sort, a, b, c, d, before, none)?;
    let n = line_of(cx, q)?;
    Ok(n)
}
