//! The sum of two sorted sums.
ghost use Rattle.std.specs.Prelude.{◌≡◌, ◌<◌, ◌≤◌, ◌+◌, List, length, IfOk, ◌⊎◌};
ghost use Rattle.alg_terms.specs.Tree.{Tree};
ghost use Rattle.alg_build.specs.Book.{Grows};
ghost use Rattle.alg_monomials.specs.Monomials.{AreMeasured};
ghost use Rattle.alg_monomials.specs.Terms.{TakesBoth, ComeBefore};
ghost use Rattle.alg_sorted_sums.specs.Sums.{CanSum};
ghost use Rattle.alg_sorted_sums.specs.Merging.{CanAddAll, IsMerging, AreMerging, AreSums, BothSums, IsSumOf};

use crate::rows::{add_zero, zero_add};
use crate::stepping::{Merging, gone_step, joined_step, left_step, right_step, sum_at};
use crate::summand::{Collected, Summand};
use alg_build::{Builder, Memory, line_of};
use alg_expr::{ExprId, Sort};
use alg_monomials::{Monomial, Side, Term, leading, next_side};

// the next terms of both sums are of one monomial
#[tactic(auto, using(crate::proofs::Growing::growing))]
fn both_step<S: Summand>(
    cx: &mut Builder,
    sort: Sort,
    zero: ExprId,
    table: &[Monomial],
    p: &[Term],
    q: &[Term],
    m: Merging,
) -> Result<Merging, Memory>
    requires merging { AreMerging S.writing cx.old sort table.now zero p.now q.now m.done.items m.left m.right m.sum m.line }
    requires takes { TakesBoth table.now p.now q.now m.left m.right }
    requires adds { CanAddAll S.can_add cx.old.theory sort table.now p.now q.now }
    requires ready { CanSum cx.old.theory sort }
    ensures left { IfOk result (λ r. r.left ≡ m.left + 1) }
    ensures right { IfOk result (λ r. r.right ≡ m.right + 1) }
    ensures merging { IfOk result (λ r. (keys : List Tree) → IsMerging S.writing cx.old sort keys table.now zero p.now q.now m.done.items m.left m.right m.sum m.line → IsMerging S.writing cx.new sort keys table.now zero p.now q.now r.done.items r.left r.right r.sum r.line) }
    ensures grows { Grows cx.old cx.new }
{
    let t = &p[m.left];
    let u = &q[m.right];
    let collected = S::collect(cx, sort, table[t.monomial].tree, t.value, u.value)?;
    if collected.is_zero {
        let none = line_of(cx, collected.sum)?;
        let next = gone_step::<S>(cx, sort, zero, table, p, q, m, none)?;
        Ok(next)
    } else {
        let next = joined_step::<S>(
            cx,
            sort,
            zero,
            table,
            p,
            q,
            m,
            collected.value,
            collected.sum,
        )?;
        Ok(next)
    }
}

// one step more
#[tactic(auto, using(crate::proofs::Growing::growing))]
fn advance<S: Summand>(
    cx: &mut Builder,
    sort: Sort,
    zero: ExprId,
    table: &[Monomial],
    p: &[Term],
    q: &[Term],
    m: Merging,
) -> Result<Merging, Memory>
    requires measured { AreMeasured table.now }
    requires merging { AreMerging S.writing cx.old sort table.now zero p.now q.now m.done.items m.left m.right m.sum m.line }
    requires more { (m.left < length p.now) ⊎ (m.right < length q.now) }
    requires adds { CanAddAll S.can_add cx.old.theory sort table.now p.now q.now }
    requires ready { CanSum cx.old.theory sort }
    ensures less { IfOk result (λ r. m.left + m.right < r.left + r.right) }
    ensures merging { IfOk result (λ r. (keys : List Tree) → IsMerging S.writing cx.old sort keys table.now zero p.now q.now m.done.items m.left m.right m.sum m.line → IsMerging S.writing cx.new sort keys table.now zero p.now q.now r.done.items r.left r.right r.sum r.line) }
    ensures grows { Grows cx.old cx.new }
{
    match next_side(table, p, q, m.left, m.right) {
        Side::Left => left_step::<S>(cx, sort, zero, table, p, q, m),
        Side::Right => right_step::<S>(cx, sort, zero, table, p, q, m),
        Side::Both => both_step::<S>(cx, sort, zero, table, p, q, m),
    }
}

/// The sum of two sorted sums over one table of monomials: the terms that it has, the id of its tree, and a line that the
/// sum of the two trees equals it. The terms are those of the normal list of the sum.
#[tactic(auto, using(crate::proofs::Growing::growing))]
pub fn merge<S: Summand>(
    cx: &mut Builder,
    sort: Sort,
    zero: ExprId,
    table: &[Monomial],
    p: &[Term],
    q: &[Term],
) -> Result<Merging, Memory>
    requires measured { AreMeasured table.now }
    requires sums { AreSums S.writing cx.old sort table.now zero p.now q.now }
    requires adds { CanAddAll S.can_add cx.old.theory sort table.now p.now q.now }
    requires ready { CanSum cx.old.theory sort }
    ensures sum { IfOk result (λ r. (keys : List Tree) → BothSums S.writing cx.old sort keys table.now zero p.now q.now → IsSumOf S.writing cx.new sort keys table.now zero p.now q.now r.done.items r.sum r.line) }
    ensures grows { Grows cx.old cx.new }
{
    let mut m = start::<S>(cx, sort, zero, table, p, q)?;
    'terms: while m.left < p.len() || m.right < q.len() {
        m = advance::<S>(cx, sort, zero, table, p, q, m)?;
    }
    Ok(m)
}

// the first terms of one sum need no line where they come before all of the other
#[tactic(auto, using(crate::proofs::Growing::growing))]
fn start<S: Summand>(
    cx: &mut Builder,
    sort: Sort,
    zero: ExprId,
    table: &[Monomial],
    p: &[Term],
    q: &[Term],
) -> Result<Merging, Memory>
    requires measured { AreMeasured table.now }
    requires sums { AreSums S.writing cx.old sort table.now zero p.now q.now }
    requires ready { CanSum cx.old.theory sort }
    ensures merging { IfOk result (λ r. (keys : List Tree) → BothSums S.writing cx.old sort keys table.now zero p.now q.now → IsMerging S.writing cx.new sort keys table.now zero p.now q.now r.done.items r.left r.right r.sum r.line) }
    ensures grows { Grows cx.old cx.new }
{
    let left = leading(table, p, q);
    if left > 0 {
        return start_left::<S>(cx, sort, zero, table, p, q, left);
    }
    let right = leading(table, q, p);
    start_right::<S>(cx, sort, zero, table, p, q, right)
}

// a + 0 = a
#[tactic(auto, using(crate::proofs::Growing::growing))]
fn start_left<S: Summand>(
    cx: &mut Builder,
    sort: Sort,
    zero: ExprId,
    table: &[Monomial],
    p: &[Term],
    q: &[Term],
    left: usize,
) -> Result<Merging, Memory>
    requires sums { AreSums S.writing cx.old sort table.now zero p.now q.now }
    requires within { left ≤ length p.now }
    requires before { ComeBefore table.now p.now q.now left }
    requires ready { CanSum cx.old.theory sort }
    ensures merging { IfOk result (λ r. (keys : List Tree) → BothSums S.writing cx.old sort keys table.now zero p.now q.now → IsMerging S.writing cx.new sort keys table.now zero p.now q.now r.done.items r.left r.right r.sum r.line) }
    ensures grows { Grows cx.old cx.new }
{
    let sum = sum_at(zero, p, left);
    let r = add_zero(cx, sort, sum)?;
    let line = line_of(cx, r)?;
    let done = p[..left].to_vec(cx.alloc())?;
    Ok(Merging {
        done,
        left,
        right: 0,
        sum,
        line,
    })
}

// 0 + a = a
#[tactic(auto, using(crate::proofs::Growing::growing))]
fn start_right<S: Summand>(
    cx: &mut Builder,
    sort: Sort,
    zero: ExprId,
    table: &[Monomial],
    p: &[Term],
    q: &[Term],
    right: usize,
) -> Result<Merging, Memory>
    requires sums { AreSums S.writing cx.old sort table.now zero p.now q.now }
    requires within { right ≤ length q.now }
    requires before { ComeBefore table.now q.now p.now right }
    requires ready { CanSum cx.old.theory sort }
    ensures merging { IfOk result (λ r. (keys : List Tree) → BothSums S.writing cx.old sort keys table.now zero p.now q.now → IsMerging S.writing cx.new sort keys table.now zero p.now q.now r.done.items r.left r.right r.sum r.line) }
    ensures grows { Grows cx.old cx.new }
{
    let sum = sum_at(zero, q, right);
    let r = zero_add(cx, sort, sum)?;
    let line = line_of(cx, r)?;
    let done = q[..right].to_vec(cx.alloc())?;
    Ok(Merging {
        done,
        left: 0,
        right,
        sum,
        line,
    })
}
