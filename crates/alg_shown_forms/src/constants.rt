ghost use Rattle.std.specs.Prelude.{◌≡◌, ℕ, IfOk};
ghost use Rattle.alg_terms.specs.declared.sorts.Sort.{Sort as SortKind};
ghost use Rattle.alg_terms.specs.Tree.{Tree, Lit, sort_of_tree, sum_tree, product_tree};
ghost use Rattle.alg_num.specs.Fraction.{Fraction};
ghost use Rattle.alg_proof.specs.Steps.{Theory};
ghost use Rattle.alg_sums.specs.Ratio.{Ratio};
ghost use Rattle.alg_sums.specs.Rational.{rational};
ghost use Rattle.alg_horner.specs.FractionMeaning.{ratio_at};
ghost use Rattle.alg_horner.specs.Facts.{CanAdd, CanMultiply, CanNegate};
ghost use Rattle.alg_horner.specs.Form.{IsSubadditive};
ghost use Rattle.alg_build.specs.Book.{Grows};
ghost use Rattle.alg_build.specs.Rewriting.{Stands};
ghost use Rattle.alg_rows.specs.Operations.{negation_tree};
ghost use Rattle.alg_node_sums.specs.Polynomials.{HasPolynomials, HasNegations};
ghost use Rattle.alg_node_sums.specs.Deriving.{Derives};

use alg_build::{Builder, Memory};
use alg_expr::{ExprId, Sort};
use alg_node_sums::Derived;
use alg_num::Frac;

/// How the constants of forms are written, and the lines of their operations.
///
/// What a sort lacks is counted as a weight of coefficients: 0 for a number whose numeral the sort has, and else 1. So
/// what forms say of weights says that the results of their operations can be written too.
pub trait Constants {
    /// The numeral of a number.
    ghost leaf: { SortKind → Ratio → Tree };

    /// 0 where the sort has the numeral and the lines of its operations, else 1.
    ghost lacks: { Theory → SortKind → Ratio → ℕ };

    /// What holds of all numerals: for callers that take trees apart. It does nothing.
    fn told()
        ensures zero { (s : SortKind) → leaf s rational.nil ≡ Lit s 0 }
        ensures one { (s : SortKind) → leaf s rational.one ≡ Lit s 1 }
        ensures sorts { (s : SortKind) → (c : Ratio) → sort_of_tree (leaf s c) ≡ s }
        ensures sums { (t : Theory) → (s : SortKind) → IsSubadditive rational (lacks t s) }
        ensures unit { (t : Theory) → (s : SortKind) → lacks t s rational.one ≡ 0 }
        ensures negatives { (t : Theory) → (s : SortKind) → HasNegations t s → (c : Ratio) → lacks t s c ≡ 0 → lacks t s (rational.minus c) ≡ 0 }
        ensures products { (t : Theory) → (s : SortKind) → (c d : Ratio) → lacks t s c ≡ 0 → lacks t s d ≡ 0 → lacks t s (rational.times c d) ≡ 0 };

    /// The numeral.
    fn numeral(cx: &mut Builder, sort: Sort, x: Frac) -> Result<ExprId, Memory>
        requires ready { HasPolynomials cx.old.theory sort }
        requires has { lacks cx.old.theory sort (ratio_at x) ≡ 0 }
        ensures stands { IfOk result (λ e. Stands cx.new sort e (leaf sort (ratio_at x))) }
        ensures grows { Grows cx.old cx.new };

    /// `c + d`
    fn sum(cx: &mut Builder, sort: Sort, x: Frac, y: Frac) -> Result<Derived, Memory>
        requires ready { HasPolynomials cx.old.theory sort }
        requires first { lacks cx.old.theory sort (ratio_at x) ≡ 0 }
        requires second { lacks cx.old.theory sort (ratio_at y) ≡ 0 }
        requires adds { CanAdd rational (ratio_at x) (ratio_at y) }
        ensures derives { IfOk result (λ d. Derives cx.new sort d (sum_tree sort (leaf sort (ratio_at x)) (leaf sort (ratio_at y))) (leaf sort (rational.plus (ratio_at x) (ratio_at y)))) }
        ensures grows { Grows cx.old cx.new };

    /// `c * d`
    fn product(cx: &mut Builder, sort: Sort, x: Frac, y: Frac) -> Result<Derived, Memory>
        requires ready { HasPolynomials cx.old.theory sort }
        requires first { lacks cx.old.theory sort (ratio_at x) ≡ 0 }
        requires second { lacks cx.old.theory sort (ratio_at y) ≡ 0 }
        requires multiplies { CanMultiply rational (ratio_at x) (ratio_at y) }
        ensures derives { IfOk result (λ d. Derives cx.new sort d (product_tree sort (leaf sort (ratio_at x)) (leaf sort (ratio_at y))) (leaf sort (rational.times (ratio_at x) (ratio_at y)))) }
        ensures grows { Grows cx.old cx.new };

    /// `-c`
    fn negation(cx: &mut Builder, sort: Sort, x: Frac) -> Result<Derived, Memory>
        requires ready { HasNegations cx.old.theory sort }
        requires first { lacks cx.old.theory sort (ratio_at x) ≡ 0 }
        requires negates { CanNegate rational (ratio_at x) }
        ensures derives { IfOk result (λ d. Derives cx.new sort d (negation_tree sort (leaf sort (ratio_at x))) (leaf sort (rational.minus (ratio_at x)))) }
        ensures grows { Grows cx.old cx.new };
}
