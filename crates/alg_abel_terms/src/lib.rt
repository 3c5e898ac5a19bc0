//! What a tree of a commutative additive monoid denotes, its normal form, and when its combination is too great to make.
//! Definitions and lemmas, and one function whose contract is the laws.
#![tactic(auto)]

ghost use Rattle.alg_abel_terms.specs.Laws.{NormalFormsStay, NormalFormsDenote, NormalFormsDecide, NormalFormsAreWellSorted, WeightsBound, NumbersReadLiterals};

/// The laws of combinations and normal forms, as a contract: the function itself does nothing. The combination is that of
/// Mathlib's `abel`, the normal form is its `abel_nf`'s.
pub fn abel_laws()
    ensures stay { NormalFormsStay }
    ensures denote { NormalFormsDenote }
    ensures decide { NormalFormsDecide }
    ensures well_sorted { NormalFormsAreWellSorted }
    ensures weights { WeightsBound }
    ensures literals { NumbersReadLiterals }
{}
