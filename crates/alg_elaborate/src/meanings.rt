ghost use Rattle.std.specs.Prelude.{◌≡◌, length, option_map, slice_get};
ghost use Rattle.alg_elaborate.specs.Meanings as spec;

use alg_expr::{Sort, Sym};
use alg_names::Meaning;

/// The sort that a name stands for.
pub fn type_of(meaning: Option<&Meaning>) -> Option<Sort>
    ensures { result ≡ spec.type_of (option_map (λ m. m.now) meaning.entry) }
{
    match meaning {
        Some(Meaning::SortName(sort)) => Some(*sort),
        _ => None,
    }
}

/// The sort of the value of a variable or a function.
pub fn value_sort(meaning: Option<&Meaning>) -> Option<Sort>
    ensures { result ≡ spec.value_sort (option_map (λ m. m.now) meaning.entry) }
{
    match meaning {
        Some(Meaning::Variable(_, sort)) => Some(*sort),
        Some(Meaning::Function(_, _, sort)) => Some(*sort),
        _ => None,
    }
}

/// Whether a function's arguments are of the sort of its value, whichever it is.
pub fn is_shared(meaning: Option<&Meaning>) -> bool
    ensures { result ≡ spec.is_shared (option_map (λ m. m.now) meaning.entry) }
{
    match meaning {
        Some(Meaning::Shared(_, _)) => true,
        _ => false,
    }
}

pub fn is_hypothesis(meaning: Option<&Meaning>) -> bool
    ensures { result ≡ spec.is_hypothesis (option_map (λ m. m.now) meaning.entry) }
{
    match meaning {
        Some(Meaning::Hypothesis(_, _, _)) => true,
        _ => false,
    }
}

/// How many arguments a function takes, 0 for what is none.
#[tactic(auto, using(crate::proofs::Sorts::length_times))]
pub fn arity(meaning: Option<&Meaning>, sort: Sort) -> usize
    ensures { result ≡ length (spec.argument_sorts sort (option_map (λ m. m.now) meaning.entry)) }
{
    match meaning {
        Some(Meaning::Function(_, sorts, _)) => sorts.as_slice().len(),
        Some(Meaning::Shared(_, count)) => *count,
        _ => 0,
    }
}

/// The sort of a function's argument, where its value has the given sort.
#[tactic(auto, using(crate::proofs::Sorts::get_times, crate::proofs::Sorts::get_past))]
pub fn argument_sort(meaning: Option<&Meaning>, sort: Sort, index: usize) -> Option<Sort>
    ensures { result ≡ slice_get (spec.argument_sorts sort (option_map (λ m. m.now) meaning.entry)) index }
{
    match meaning {
        Some(Meaning::Function(_, sorts, _)) => sorts.as_slice().get(index).copied(),
        Some(Meaning::Shared(_, count)) => { if index < *count { Some(sort) } else { None } }
        _ => None,
    }
}

/// The symbol of a function.
pub fn symbol_of(meaning: Option<&Meaning>) -> Sym
    ensures { result ≡ spec.symbol_of (option_map (λ m. m.now) meaning.entry) }
{
    match meaning {
        Some(Meaning::Function(sym, _, _)) => *sym,
        Some(Meaning::Shared(sym, _)) => *sym,
        _ => Sym::Add,
    }
}
