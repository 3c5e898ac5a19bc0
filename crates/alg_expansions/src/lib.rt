//! What a tree of a commutative ring denotes, its normal form, and when expanding it is too much. Definitions and lemmas,
//! and one function whose contract is the laws.
#![tactic(auto)]

ghost use Rattle.alg_expansions.specs.Laws.{NormalFormsStay, NormalFormsAreWellSorted, NormalFormsDenote, NormalTreesDecide, WeightsBound, DegreesBound, NumeralsStay};

/// The laws of expansions and normal forms, as a contract: the function itself does nothing. The expansion is that of
/// Mathlib's `ring`, in fields of characteristic zero with fractions as coefficients; the normal form is its `ring_nf`'s.
pub fn expansion_laws()
    ensures stay { NormalFormsStay }
    ensures well_sorted { NormalFormsAreWellSorted }
    ensures denote { NormalFormsDenote }
    ensures decide { NormalTreesDecide }
    ensures weights { WeightsBound }
    ensures degrees { DegreesBound }
    ensures numerals { NumeralsStay }
{}
