//! What two values say of a relation between them.
ghost use Rattle.std.specs.Prelude.{◌≡◌, true};
ghost use Rattle.alg_terms.specs.declared.relations.Rel.TheVariants.{Eq, Ne, Lt, Le};
ghost use Rattle.alg_num.specs.Order.{order_of};
ghost use Rattle.alg_law.specs.Having.{has_class};
ghost use Rattle.alg_values.specs.Ranges.{cross_products_in_range, difference_in_range};
ghost use Rattle.alg_values.specs.Comparing.{is_same, comparison_in_range, known_if, decided};

use crate::operations::size;
use alg_compute::divides;
use alg_law::{Base, Class, has};
use alg_num::Frac;
use alg_terms::{Rel, Sort};
use std::cmp::Ordering;

fn is_same(p: &Frac, q: &Frac) -> bool
    ensures { result ≡ is_same p.now q.now }
{
    p.num() == q.num() && p.den() == q.den()
}

fn cross_products_fit(p: &Frac, q: &Frac) -> bool
    ensures { result ≡ cross_products_in_range p.now q.now }
{
    p.cmp(q).is_some()
}

fn difference_fits(p: &Frac, q: &Frac) -> bool
    ensures { result ≡ difference_in_range p.now q.now }
{
    p.differs(q).is_some()
}

/// Whether the numbers that a comparison computes are at most 2^127 - 1 in absolute value: both cross products for `<`
/// and `≤`, and their difference too for `≠`.
pub fn is_in_range(rel: Rel, p: &Frac, q: &Frac) -> bool
    ensures { result ≡ comparison_in_range rel p.now q.now }
{
    match rel {
        Rel::Eq => true,
        Rel::Ne => difference_fits(p, q),
        Rel::Lt => cross_products_fit(p, q),
        Rel::Le => cross_products_fit(p, q),
        Rel::Dvd => true,
    }
}

fn known_if(there: bool, answer: bool) -> Option<bool>
    ensures { result ≡ known_if there answer }
{
    if there { Some(answer) } else { None }
}

// the order of two fractions whose cross products are in range
fn order(p: &Frac, q: &Frac) -> Ordering
    requires { cross_products_in_range p.now q.now ≡ true }
    ensures { result ≡ order_of p.now q.now }
{
    match p.cmp(q) {
        Some(order) => order,
        None => unreachable!(),
    }
}

fn decided_equal(base: &Base, sort: Sort, p: &Frac, q: &Frac) -> Option<bool>
    ensures { result ≡ decided (has_class base.now) Eq sort p.now q.now }
{
    if is_same(p, q) {
        return Some(true);
    }
    known_if(has(base, sort, Class::CharZero), false)
}

fn decided_unequal(base: &Base, sort: Sort, p: &Frac, q: &Frac) -> Option<bool>
    ensures { result ≡ decided (has_class base.now) Ne sort p.now q.now }
{
    if is_same(p, q) {
        return Some(false);
    }
    known_if(has(base, sort, Class::CharZero), true)
}

fn decided_less(base: &Base, sort: Sort, p: &Frac, q: &Frac) -> Option<bool>
    requires { cross_products_in_range p.now q.now ≡ true }
    ensures { result ≡ decided (has_class base.now) Lt sort p.now q.now }
{
    if is_same(p, q) {
        return Some(false);
    }
    known_if(
        has(base, sort, Class::IsStrictOrderedRing),
        order(p, q).is_lt(),
    )
}

fn decided_at_most(base: &Base, sort: Sort, p: &Frac, q: &Frac) -> Option<bool>
    requires { cross_products_in_range p.now q.now ≡ true }
    ensures { result ≡ decided (has_class base.now) Le sort p.now q.now }
{
    if is_same(p, q) {
        return Some(true);
    }
    known_if(
        has(base, sort, Class::IsStrictOrderedRing),
        order(p, q).is_le(),
    )
}

/// Whether the relation holds between two values of the sort. `None` where the sort lacks the class that tells: CharZero
/// for `=` and `≠` of unequal values, IsStrictOrderedRing for `<` and `≤` of those.
pub fn decided(base: &Base, rel: Rel, sort: Sort, p: &Frac, q: &Frac) -> Option<bool>
    requires { comparison_in_range rel p.now q.now ≡ true }
    ensures { result ≡ decided (has_class base.now) rel sort p.now q.now }
{
    match rel {
        Rel::Eq => decided_equal(base, sort, p, q),
        Rel::Ne => decided_unequal(base, sort, p, q),
        Rel::Lt => decided_less(base, sort, p, q),
        Rel::Le => decided_at_most(base, sort, p, q),
        Rel::Dvd => Some(divides(size(p), size(q))),
    }
}
