//! The cases of a sum of two forms.
ghost use Rattle.std.specs.Prelude.{◌≡◌, ℕ, ◌+◌, ◌≤◌, ◌^◌, List, IfOk};
ghost use Rattle.alg_terms.specs.Tree.{Tree};
ghost use Rattle.alg_sums.specs.Ratio.{Ratio};
ghost use Rattle.alg_sums.specs.Rational.{rational};
ghost use Rattle.alg_horner.specs.FractionMeaning.{ratio_at};
ghost use Rattle.alg_horner.specs.Facts.{CanAdd, IsNormalOf};
ghost use Rattle.alg_horner.specs.Form.{Form, constant, skip, sum, atoms, IsSound};
ghost use Rattle.alg_build.specs.Book.{Grows};
ghost use Rattle.alg_node_sums.specs.Polynomials.{HasPolynomials};
ghost use Rattle.alg_shown_forms.specs.Showing.{IsSumLine};
ghost use Rattle.alg_form_sums.specs.Cases.{AreNodes, AreNodesSome, IsAheadSum, IsBeside, IsBesideSome, IsBesideSum};

use alg_build::{Builder, Memory};
use alg_expr::{ExprId, Sort};
use alg_horner::{Coeff, Horner};
use alg_node_sums::beside::{head, tail};
use alg_node_sums::nodes::{both, rests_alone};
use alg_node_sums::{Derived, Pair};
use alg_num::Frac;
use alg_shown_forms::{Constants, Number, Shown, Told};

/// Two constants.
#[tactic(auto, using(alg_node_sums::proofs::Deriving::derived_facts))]
pub fn constants_sum<N: Constants>(
    cx: &mut Builder,
    sort: Sort,
    first: Number,
    second: Number,
) -> Result<Told, Memory>
    requires ready { HasPolynomials cx.old.theory sort }
    requires has_first { N.lacks cx.old.theory sort (ratio_at first.value) ≡ 0 }
    requires has_second { N.lacks cx.old.theory sort (ratio_at second.value) ≡ 0 }
    requires adds { CanAdd rational (ratio_at first.value) (ratio_at second.value) }
    ensures form { IfOk result (λ r. r.shown.form ≡ constant (rational.plus (ratio_at first.value) (ratio_at second.value))) }
    ensures line { IfOk result (λ r. (names : List Tree) → (k : ℕ) → IsSumLine (N.leaf sort) cx.new sort names k (constant (ratio_at first.value)) (constant (ratio_at second.value)) r) }
    ensures grows { Grows cx.old cx.new }
{
    let made = N::sum(cx, sort, first.value, second.value)?;
    let form = Horner::constant(cx.alloc(), Coeff::add(&first.value, &second.value))?;
    let shown = Shown {
        form,
        tree: made.tree,
    };
    Ok(Told {
        shown,
        line: made.line,
    })
}

/// A node and a form over later atoms: `(p * x ^ i + q) + t`, from `q + t`.
#[tactic(auto, using(alg_node_sums::proofs::Deriving::derived_facts))]
pub fn beside_sum<N: Constants>(
    cx: &mut Builder,
    sort: Sort,
    inner: Horner<Frac>,
    power: u128,
    product: ExprId,
    rest: ExprId,
    other: ExprId,
    later: Told,
) -> Result<Told, Memory>
    requires ready { HasPolynomials cx.old.theory sort }
    requires parts { IsBesideSome (N.leaf sort) cx.old sort inner power product rest other later }
    requires sound { IsSound rational (sum inner power later.shown.form) }
    ensures form { IfOk result (λ r. r.shown.form ≡ sum inner power later.shown.form) }
    ensures line { IfOk result (λ r. (names : List Tree) → (k : ℕ) → (q t : Form Ratio) → IsBeside (N.leaf sort) cx.old sort names k inner power q t product rest other later → IsBesideSum (N.leaf sort) cx.new sort names k inner power q t later.shown.form r) }
    ensures grows { Grows cx.old cx.new }
{
    let known = Derived {
        tree: later.shown.tree,
        line: later.line,
    };
    let made = tail(cx, sort, product, rest, other, known)?;
    let form = Horner::sum(cx.alloc(), inner, power, later.shown.form)?;
    let shown = Shown {
        form,
        tree: made.tree,
    };
    Ok(Told {
        shown,
        line: made.line,
    })
}

/// A form over later atoms and a node: `t + (p * x ^ i + q)`, from `t + q`.
#[tactic(auto, using(alg_node_sums::proofs::Deriving::derived_facts))]
pub fn ahead_sum<N: Constants>(
    cx: &mut Builder,
    sort: Sort,
    inner: Horner<Frac>,
    power: u128,
    product: ExprId,
    rest: ExprId,
    other: ExprId,
    later: Told,
) -> Result<Told, Memory>
    requires ready { HasPolynomials cx.old.theory sort }
    requires parts { IsBesideSome (N.leaf sort) cx.old sort inner power product other rest later }
    requires sound { IsSound rational (sum inner power later.shown.form) }
    ensures form { IfOk result (λ r. r.shown.form ≡ sum inner power later.shown.form) }
    ensures line { IfOk result (λ r. (names : List Tree) → (k : ℕ) → (t q : Form Ratio) → IsBeside (N.leaf sort) cx.old sort names k inner power t q product other rest later → IsAheadSum (N.leaf sort) cx.new sort names k inner power q t later.shown.form r) }
    ensures grows { Grows cx.old cx.new }
{
    let known = Derived {
        tree: later.shown.tree,
        line: later.line,
    };
    let made = head(cx, sort, product, other, rest, known)?;
    let form = Horner::sum(cx.alloc(), inner, power, later.shown.form)?;
    let shown = Shown {
        form,
        tree: made.tree,
    };
    Ok(Told {
        shown,
        line: made.line,
    })
}

/// Two nodes of one power whose inner forms have a sum that isn't 0 and that x doesn't divide.
#[tactic(auto, using(alg_node_sums::proofs::Deriving::derived_facts))]
pub fn nodes_sum<N: Constants>(
    cx: &mut Builder,
    sort: Sort,
    power: u128,
    pair: Pair,
    rest: ExprId,
    other: ExprId,
    inner: Told,
    later: Told,
) -> Result<Told, Memory>
    requires ready { HasPolynomials cx.old.theory sort }
    requires parts { AreNodesSome (N.leaf sort) cx.old sort power pair rest other inner later }
    requires sound { IsSound rational (sum inner.shown.form power later.shown.form) }
    ensures form { IfOk result (λ r. r.shown.form ≡ sum inner.shown.form power later.shown.form) }
    ensures line { IfOk result (λ r. (names : List Tree) → (k : ℕ) → (p o q t : Form Ratio) → AreNodes (N.leaf sort) cx.old sort names k p o power q t pair rest other inner later → IsSumLine (N.leaf sort) cx.new sort names k (sum p power q) (sum o power t) r) }
    ensures grows { Grows cx.old cx.new }
{
    let above = Derived {
        tree: inner.shown.tree,
        line: inner.line,
    };
    let known = Derived {
        tree: later.shown.tree,
        line: later.line,
    };
    let made = both(cx, sort, pair, rest, other, above, known)?;
    let form = Horner::sum(cx.alloc(), inner.shown.form, power, later.shown.form)?;
    let shown = Shown {
        form,
        tree: made.tree,
    };
    Ok(Told {
        shown,
        line: made.line,
    })
}

/// Two nodes of one power whose inner forms have the sum 0: the sum of the rests is left, over the atoms after the first.
#[tactic(auto, using(alg_node_sums::proofs::Deriving::derived_facts))]
pub fn rests_sum<N: Constants>(
    cx: &mut Builder,
    sort: Sort,
    power: u128,
    pair: Pair,
    rest: ExprId,
    other: ExprId,
    inner: Told,
    later: Told,
) -> Result<Told, Memory>
    requires ready { HasPolynomials cx.old.theory sort }
    requires parts { AreNodesSome (N.leaf sort) cx.old sort power pair rest other inner later }
    requires none { inner.shown.form ≡ constant rational.nil }
    requires atoms { atoms later.shown.form + 1 ≤ 2 ^ 32 }
    ensures form { IfOk result (λ r. IsNormalOf rational (skip 1 later.shown.form) r.shown.form) }
    ensures line { IfOk result (λ r. (names : List Tree) → (k : ℕ) → (p o q t : Form Ratio) → AreNodes (N.leaf sort) cx.old sort names k p o power q t pair rest other inner later → IsSumLine (N.leaf sort) cx.new sort names k (sum p power q) (sum o power t) r) }
    ensures grows { Grows cx.old cx.new }
{
    N::told();
    later.shown.form.told();
    let known = Derived {
        tree: later.shown.tree,
        line: later.line,
    };
    let made = rests_alone(cx, sort, pair, rest, other, inner.line, known)?;
    let form = Horner::skip(cx.alloc(), 1, later.shown.form)?;
    form.told();
    let shown = Shown {
        form,
        tree: made.tree,
    };
    Ok(Told {
        shown,
        line: made.line,
    })
}
