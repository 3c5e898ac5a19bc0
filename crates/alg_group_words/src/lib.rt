//! Words of letters in groups: cancelling in any order, syllables, and the normal trees of words. Definitions and lemmas,
//! and one function whose contract is the laws.
#![tactic(auto)]

ghost use Rattle.alg_group_words.specs.Laws.{EveryOrderEndsAtOneWord, WordsAreReduced, SyllablesDecide, NormalFormsStay, NormalFormsDenote, NormalFormsDecide, NormalFormsAreWellSorted, WeightsCount, ExponentsAreBounded};

/// The laws of words and normal forms, as a contract: the function itself does nothing. The word of a tree is that of
/// Mathlib's `group`, with each power written out; `value` is the integer that an exponent denotes.
pub fn word_laws()
    ensures order { EveryOrderEndsAtOneWord }
    ensures reached { WordsAreReduced }
    ensures syllables { SyllablesDecide }
    ensures stay { NormalFormsStay }
    ensures denote { NormalFormsDenote }
    ensures decide { NormalFormsDecide }
    ensures well_sorted { NormalFormsAreWellSorted }
    ensures weights { WeightsCount }
    ensures exponents { ExponentsAreBounded }
{}
