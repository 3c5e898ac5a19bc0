ghost use Rattle.std.specs.Prelude.{◌≡◌, IfOk};
ghost use Rattle.alg_terms.specs.Tree.{sum_tree};
ghost use Rattle.alg_terms.specs.declared.sorts.Sort.{Sort as SortKind};
ghost use Rattle.alg_expr.specs.Ids.{tree_of};
ghost use Rattle.alg_num.specs.Fraction.{Fraction};
ghost use Rattle.alg_proof.specs.Steps.{Theory};
ghost use Rattle.alg_sums.specs.Rational.{rational};
ghost use Rattle.alg_build.specs.Book.{Grows};
ghost use Rattle.alg_build.specs.Rewriting.{Stands, Turns};
ghost use Rattle.alg_sorted_sums.specs.Writing.{Writing, written};

use alg_build::{Builder, Memory, Rewriting};
use alg_expr::{ExprId, Sort};
use alg_num::Frac;

/// What two terms of one monomial give: a coefficient, whether it is 0, and the line for the sum.
#[derive(Clone, Copy, Debug)]
pub struct Collected {
    pub value: Frac,
    pub is_zero: bool,
    pub sum: Rewriting,
}

/// How the terms of a sum are written, and how two of one monomial are put together.
///
/// Sums of polynomials write `m * c`, where m is the tree of the monomial and c the numeral of the coefficient with its
/// sign, and add coefficients by `m * c + m * d = m * (c + d)`. Sums in commutative groups write `n • x` and `-(n • x)`,
/// where the monomial is the atom x alone, and add by `m • x + n • x = (m + n) • x` and its forms with signs: their
/// coefficients are whole, which `can_add` asks, as it asks that the sort has a negation where one is below 0.
pub trait Summand {
    /// What a coefficient means, and the tree of a term by that of its monomial.
    ghost writing: { Writing };

    /// Two coefficients have a sum, and the sort has what its line rests on.
    ghost can_add: { Theory → SortKind → Fraction → Fraction → Type 0 };

    /// The sum of two terms, whose tree is 0 where the coefficients cancel.
    fn collect(
        cx: &mut Builder,
        sort: Sort,
        monomial: ExprId,
        x: Frac,
        y: Frac,
    ) -> Result<Collected, Memory>
        requires monomial { Stands cx.old sort monomial (tree_of cx.old.trees monomial) }
        requires adds { can_add cx.old.theory sort x y }
        ensures value { IfOk result (λ r. writing.meaning r.value ≡ rational.plus (writing.meaning x) (writing.meaning y)) }
        ensures zero { IfOk result (λ r. r.is_zero ≡ rational.is_nil (writing.meaning r.value)) }
        ensures turns { IfOk result (λ r. Turns cx.new sort r.sum (sum_tree sort (writing.term sort (tree_of cx.old.trees monomial) x) (writing.term sort (tree_of cx.old.trees monomial) y)) (written writing sort (tree_of cx.old.trees monomial) r.is_zero r.value)) }
        ensures grows { Grows cx.old cx.new };
}
