ghost use Rattle.std.specs.Prelude.{◌≡◌, ◌↔◌, All};
ghost use Rattle.std.specs.declared.cmp.Ordering.TheVariants.{Equal};
ghost use Rattle.alg_terms.specs.Order.{tree_cmp};
ghost use Rattle.alg_expr.specs.Ids.{tree_of, IsIn};
ghost use Rattle.alg_expr.specs.Distinct.{AreDistinct};
ghost use Rattle.alg_expr.specs.Steps.{Steps, StepsInto};

use crate::arena::Arena;
use crate::ids::{ExprId, View};
use std::cmp::Ordering;

/// What one look tells of an order: the order, or two parts that have it.
enum Step {
    Decided(Ordering),
    Deeper(ExprId, ExprId),
}

impl Arena {
    /// The order of trees: literals by number, then variables by declaration, then compounds by symbol and arguments,
    /// each by sort last.
    ///
    /// It goes down the first pair of arguments with different ids, and needs neither memory nor a deep stack.
    pub fn compare(&self, a: ExprId, b: ExprId) -> Ordering
        requires left { IsIn self.now a }
        requires right { IsIn self.now b }
        ensures order { result ≡ tree_cmp (tree_of self.now a) (tree_of self.now b) }
        ensures equal { (result ≡ Equal) ↔ (a ≡ b) }
    {
        let mut left = a;
        let mut right = b;
        'walk: loop {
            match self.step(left, right) {
                Step::Decided(order) => return order,
                Step::Deeper(x, y) => {
                    left = x;
                    right = y;
                }
            }
        }
    }

    // the order of two trees, or two parts that have it
    fn step(&self, a: ExprId, b: ExprId) -> Step
        requires left { IsIn self.now a }
        requires right { IsIn self.now b }
        ensures steps { Steps self.now a b result }
        ensures distinct { AreDistinct self.now }
    {
        match (self.view(a), self.view(b)) {
            (View::Lit { sort: s, value: m }, View::Lit { sort: t, value: n }) => Step::Decided(
                m.cmp(&n).then(s.compare(t)),
            ),
            (View::Lit { .. }, _) => Step::Decided(Ordering::Less),
            (_, View::Lit { .. }) => Step::Decided(Ordering::Greater),
            (View::Var { decl: m, sort: s }, View::Var { decl: n, sort: t }) => Step::Decided(
                m.cmp(&n).then(s.compare(t)),
            ),
            (View::Var { .. }, _) => Step::Decided(Ordering::Less),
            (_, View::Var { .. }) => Step::Decided(Ordering::Greater),
            (
                View::App {
                    sym: f,
                    sort: s,
                    args: xs,
                },
                View::App {
                    sym: g,
                    sort: t,
                    args: ys,
                },
            ) => match f.compare(g) {
                Ordering::Equal => match self.first_apart(xs, ys) {
                    Step::Decided(order) => Step::Decided(order.then(s.compare(t))),
                    Step::Deeper(x, y) => Step::Deeper(x, y),
                },
                order => Step::Decided(order),
            },
        }
    }

    // the order of two lists of trees, or the first two parts that differ
    fn first_apart(&self, xs: &[ExprId], ys: &[ExprId]) -> Step
        requires left { All (IsIn self.now) xs.now }
        requires right { All (IsIn self.now) ys.now }
        requires distinct { AreDistinct self.now }
        ensures { StepsInto self.now xs.now ys.now result }
    {
        let mut i: usize = 0;
        while i < xs.len() && i < ys.len() {
            if xs[i].index != ys[i].index {
                return Step::Deeper(xs[i], ys[i]);
            }
            i += 1;
        }
        if i < xs.len() {
            return Step::Decided(Ordering::Greater);
        }
        if i < ys.len() {
            return Step::Decided(Ordering::Less);
        }
        Step::Decided(Ordering::Equal)
    }
}
