ghost use Rattle.std.specs.Prelude.{◌≡◌, ◌≤◌, length};
ghost use Rattle.alg_monomials.specs.Terms.{AreKnown, ComeBefore};
ghost use Rattle.alg_monomials.specs.Monomials.{AreMeasured};

use crate::monomials::{Monomial, compare};
use crate::terms::Term;
use std::cmp::Ordering;

/// How many terms of `p` come before the first of `q`: all of them where `q` has none.
#[tactic(auto, using(crate::proofs::Leads::leads))]
pub fn leading(table: &[Monomial], p: &[Term], q: &[Term]) -> usize
    requires measured { AreMeasured table.now }
    requires left_known { AreKnown table.now p.now }
    requires right_known { AreKnown table.now q.now }
    ensures within { result ≤ length p.now }
    ensures before { ComeBefore table.now p.now q.now result }
{
    if q.is_empty() {
        return p.len();
    }
    let first = q[0].monomial;
    let mut k = 0;
    'terms: while k < p.len() {
        let x = p[k].monomial;
        if compare(&table[x], &table[first]) != Ordering::Less {
            return k;
        }
        k += 1;
    }
    k
}
