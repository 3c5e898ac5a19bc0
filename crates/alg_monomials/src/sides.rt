ghost use Rattle.std.specs.Prelude.{◌≡◌, ◌<◌, ◌≤◌, length, ◌⊎◌};
ghost use Rattle.alg_monomials.specs.Monomials.{AreMeasured};
ghost use Rattle.alg_monomials.specs.Terms.{AreKnown, Takes};

use crate::monomials::{Monomial, compare};
use crate::terms::Term;
use std::cmp::Ordering;

/// Which of two sums gives the next term.
#[derive(Clone, Copy, Debug)]
pub enum Side {
    Left,
    Right,
    Both,
}

/// The sum whose next monomial comes first, after i terms of the one and j of the other, or both where the next monomials
/// are one.
#[tactic(auto, using(crate::proofs::Ordered::ordered))]
pub fn next_side(table: &[Monomial], p: &[Term], q: &[Term], i: usize, j: usize) -> Side
    requires measured { AreMeasured table.now }
    requires left_known { AreKnown table.now p.now }
    requires right_known { AreKnown table.now q.now }
    requires left_in { i ≤ length p.now }
    requires right_in { j ≤ length q.now }
    requires more { (i < length p.now) ⊎ (j < length q.now) }
    ensures { Takes table.now p.now q.now i j result }
{
    if i == p.len() {
        return Side::Right;
    }
    if j == q.len() {
        return Side::Left;
    }
    let x = p[i].monomial;
    let y = q[j].monomial;
    match compare(&table[x], &table[y]) {
        Ordering::Less => Side::Left,
        Ordering::Equal => Side::Both,
        Ordering::Greater => Side::Right,
    }
}
