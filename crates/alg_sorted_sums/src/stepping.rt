//! One step of a merge.
ghost use Rattle.std.specs.Prelude.{◌≡◌, ◌≢◌, ◌+◌, ◌≤◌, List, IfOk, length, get_or};
ghost use Rattle.alg_terms.specs.Tree.{Tree, Lit, sum_tree};
ghost use Rattle.alg_expr.specs.Ids.{tree_of};
ghost use Rattle.alg_sums.specs.Rational.{rational};
ghost use Rattle.alg_build.specs.Book.{Grows, Proves};
ghost use Rattle.alg_build.specs.Rewriting.{Turns};
ghost use Rattle.alg_monomials.specs.Terms.{no_term, TakesLeft, TakesRight, TakesBoth};
ghost use Rattle.alg_sorted_sums.specs.Sums.{CanSum, sum_at, monomial_at};
ghost use Rattle.alg_sorted_sums.specs.Merging.{IsMerging, AreMerging};

use crate::joining::{joined, vanished};
use crate::summand::Summand;
use crate::taking::{left_taken, right_taken};
use alg_build::{Builder, Memory, Rewriting};
use alg_expr::{ExprId, Sort};
use alg_monomials::{Monomial, Term};
use alg_num::Frac;

/// Terms of both sums are merged: how many of each, what they give, and the line that says so.
#[derive(Drop)]
pub struct Merging {
    pub done: Vec<Term>,
    pub left: usize,
    pub right: usize,
    /// the tree of what is done
    pub sum: ExprId,
    pub line: usize,
}

/// The tree of the first k terms.
pub fn sum_at(zero: ExprId, terms: &[Term], k: usize) -> ExprId
    requires { k ≤ length terms.now }
    ensures { result ≡ sum_at zero terms.now k }
{
    if k == 0 { zero } else { terms[k - 1].sum }
}

/// The next term of the left sum is taken over.
#[tactic(auto, using(crate::proofs::Growing::growing))]
pub fn left_step<S: Summand>(
    cx: &mut Builder,
    sort: Sort,
    zero: ExprId,
    table: &[Monomial],
    p: &[Term],
    q: &[Term],
    m: Merging,
) -> Result<Merging, Memory>
    requires merging { AreMerging S.writing cx.old sort table.now zero p.now q.now m.done.items m.left m.right m.sum m.line }
    requires takes { TakesLeft table.now p.now q.now m.left m.right }
    requires ready { CanSum cx.old.theory sort }
    ensures left { IfOk result (λ r. r.left ≡ m.left + 1) }
    ensures right { IfOk result (λ r. r.right ≡ m.right) }
    ensures merging { IfOk result (λ r. (keys : List Tree) → IsMerging S.writing cx.old sort keys table.now zero p.now q.now m.done.items m.left m.right m.sum m.line → IsMerging S.writing cx.new sort keys table.now zero p.now q.now r.done.items r.left r.right r.sum r.line) }
    ensures grows { Grows cx.old cx.new }
{
    let t = &p[m.left];
    let a = sum_at(zero, p, m.left);
    let c = sum_at(zero, q, m.right);
    let taken = left_taken(cx, sort, a, t.tree, c, m.sum, m.line)?;
    let mut done = m.done;
    done.push(Term {
        monomial: t.monomial,
        value: t.value,
        tree: t.tree,
        sum: taken.sum,
    })?;
    Ok(Merging {
        done,
        left: m.left + 1,
        right: m.right,
        sum: taken.sum,
        line: taken.line,
    })
}

/// The next term of the right sum is taken over.
#[tactic(auto, using(crate::proofs::Growing::growing))]
pub fn right_step<S: Summand>(
    cx: &mut Builder,
    sort: Sort,
    zero: ExprId,
    table: &[Monomial],
    p: &[Term],
    q: &[Term],
    m: Merging,
) -> Result<Merging, Memory>
    requires merging { AreMerging S.writing cx.old sort table.now zero p.now q.now m.done.items m.left m.right m.sum m.line }
    requires takes { TakesRight table.now p.now q.now m.left m.right }
    requires ready { CanSum cx.old.theory sort }
    ensures left { IfOk result (λ r. r.left ≡ m.left) }
    ensures right { IfOk result (λ r. r.right ≡ m.right + 1) }
    ensures merging { IfOk result (λ r. (keys : List Tree) → IsMerging S.writing cx.old sort keys table.now zero p.now q.now m.done.items m.left m.right m.sum m.line → IsMerging S.writing cx.new sort keys table.now zero p.now q.now r.done.items r.left r.right r.sum r.line) }
    ensures grows { Grows cx.old cx.new }
{
    let t = &q[m.right];
    let a = sum_at(zero, p, m.left);
    let c = sum_at(zero, q, m.right);
    let taken = right_taken(cx, sort, a, c, t.tree, m.sum, m.line)?;
    let mut done = m.done;
    done.push(Term {
        monomial: t.monomial,
        value: t.value,
        tree: t.tree,
        sum: taken.sum,
    })?;
    Ok(Merging {
        done,
        left: m.left,
        right: m.right + 1,
        sum: taken.sum,
        line: taken.line,
    })
}

/// The next terms of both sums, of one monomial, give one term.
#[tactic(auto, using(crate::proofs::Growing::growing))]
pub fn joined_step<S: Summand>(
    cx: &mut Builder,
    sort: Sort,
    zero: ExprId,
    table: &[Monomial],
    p: &[Term],
    q: &[Term],
    m: Merging,
    value: Frac,
    r: Rewriting,
) -> Result<Merging, Memory>
    requires merging { AreMerging S.writing cx.old sort table.now zero p.now q.now m.done.items m.left m.right m.sum m.line }
    requires takes { TakesBoth table.now p.now q.now m.left m.right }
    requires sum { Turns cx.old sort r (sum_tree sort (tree_of cx.old.trees (get_or p.now m.left no_term).tree) (tree_of cx.old.trees (get_or q.now m.right no_term).tree)) (tree_of cx.old.trees r.to) }
    requires value { S.writing.meaning value ≡ rational.plus (S.writing.meaning (get_or p.now m.left no_term).value) (S.writing.meaning (get_or q.now m.right no_term).value) }
    requires nonzero { S.writing.meaning value ≢ rational.nil }
    requires ready { CanSum cx.old.theory sort }
    ensures left { IfOk result (λ r. r.left ≡ m.left + 1) }
    ensures right { IfOk result (λ r. r.right ≡ m.right + 1) }
    ensures merging { IfOk result (λ n. (keys : List Tree) → IsMerging S.writing cx.old sort keys table.now zero p.now q.now m.done.items m.left m.right m.sum m.line → tree_of cx.old.trees r.to ≡ S.writing.term sort (monomial_at sort keys (get_or p.now m.left no_term)) value → IsMerging S.writing cx.new sort keys table.now zero p.now q.now n.done.items n.left n.right n.sum n.line) }
    ensures grows { Grows cx.old cx.new }
{
    let t = &p[m.left];
    let u = &q[m.right];
    let a = sum_at(zero, p, m.left);
    let c = sum_at(zero, q, m.right);
    let taken = joined(cx, sort, a, t.tree, c, u.tree, m.sum, m.line, r)?;
    let mut done = m.done;
    done.push(Term {
        monomial: t.monomial,
        value,
        tree: r.to,
        sum: taken.sum,
    })?;
    Ok(Merging {
        done,
        left: m.left + 1,
        right: m.right + 1,
        sum: taken.sum,
        line: taken.line,
    })
}

/// The next terms of both sums, of one monomial, cancel.
#[tactic(auto, using(crate::proofs::Growing::growing))]
pub fn gone_step<S: Summand>(
    cx: &mut Builder,
    sort: Sort,
    zero: ExprId,
    table: &[Monomial],
    p: &[Term],
    q: &[Term],
    m: Merging,
    none: usize,
) -> Result<Merging, Memory>
    requires merging { AreMerging S.writing cx.old sort table.now zero p.now q.now m.done.items m.left m.right m.sum m.line }
    requires takes { TakesBoth table.now p.now q.now m.left m.right }
    requires sum { Proves cx.old none (sum_tree sort (tree_of cx.old.trees (get_or p.now m.left no_term).tree) (tree_of cx.old.trees (get_or q.now m.right no_term).tree)) (Lit sort 0) }
    requires nothing { rational.plus (S.writing.meaning (get_or p.now m.left no_term).value) (S.writing.meaning (get_or q.now m.right no_term).value) ≡ rational.nil }
    requires ready { CanSum cx.old.theory sort }
    ensures left { IfOk result (λ r. r.left ≡ m.left + 1) }
    ensures right { IfOk result (λ r. r.right ≡ m.right + 1) }
    ensures merging { IfOk result (λ r. (keys : List Tree) → IsMerging S.writing cx.old sort keys table.now zero p.now q.now m.done.items m.left m.right m.sum m.line → IsMerging S.writing cx.new sort keys table.now zero p.now q.now r.done.items r.left r.right r.sum r.line) }
    ensures grows { Grows cx.old cx.new }
{
    let t = &p[m.left];
    let u = &q[m.right];
    let a = sum_at(zero, p, m.left);
    let c = sum_at(zero, q, m.right);
    let line = vanished(cx, sort, a, t.tree, c, u.tree, m.sum, m.line, none)?;
    Ok(Merging {
        done: m.done,
        left: m.left + 1,
        right: m.right + 1,
        sum: m.sum,
        line,
    })
}
