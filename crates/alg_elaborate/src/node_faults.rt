ghost use Rattle.std.specs.Prelude.{◌≡◌, ◌<◌, ◌++◌, ◌&&◌, List, length, true, IfNone, option_map};
ghost use Rattle.alg_syntax.specs.Nodes.{tree_at};
ghost use Rattle.alg_elaborate.specs.declared.causes.Cause as causes;
ghost use Rattle.alg_elaborate.specs.declared.causes.Cause.TheVariants as cause;
ghost use Rattle.alg_elaborate.specs.Raw.{meant, arguments, none, operation};
ghost use Rattle.alg_elaborate.specs.Combinations.{any_proof, is_proof};
ghost use Rattle.alg_elaborate.specs.Meanings.{argument_sorts};
ghost use Rattle.alg_elaborate.specs.Faults.{first, when, miscombines};
ghost use Rattle.alg_elaborate.specs.Faults as spec;
ghost use Rattle.alg_elaborate.specs.Tasks.{first_or, proofs_in};

use crate::causes::Cause;
use crate::combinations::{any_argument_is_proof, combines, is_proof};
use crate::settings::Setting;
use alg_expr::{Rel, Sort, Sym};
use alg_law::literal_class;
use alg_names::{Meaning, Scope};
use alg_syntax::signs::Operator;
use alg_terms::GREATEST_LITERAL;

/// A symbol that the sort hasn't.
pub fn lacks(scope: &Scope, sym: Sym, sort: Sort) -> Option<Cause>
    ensures { (rest : List causes.Cause) → first (spec.lacks scope.now sym sort ++ rest) ≡ first_or result rest }
{
    if scope.supports(sym, sort) {
        None
    } else {
        Some(Cause::NoInstance)
    }
}

/// A power or a multiple that the sort hasn't, where `exponent` is ℕ or ℤ.
pub fn lacks_by(scope: &Scope, exponent: Sort, sym: Sym, sort: Sort) -> Option<Cause>
    ensures { (rest : List causes.Cause) → first (spec.lacks_by scope.now exponent sym sort ++ rest) ≡ first_or result rest }
{
    if exponent.is_integral() && !scope.supports(sym, sort) {
        Some(Cause::NoInstance)
    } else {
        None
    }
}

/// A sort that is neither ℕ nor ℤ.
pub fn not_integral(sort: Sort) -> Option<Cause>
    ensures { (rest : List causes.Cause) → first (spec.not_integral sort ++ rest) ≡ first_or result rest }
{
    if sort.is_integral() {
        None
    } else {
        Some(Cause::SortMismatch)
    }
}

/// A literal that is too great, or that the sort hasn't.
pub fn literal_fault(scope: &Scope, sort: Sort, value: u128) -> Option<Cause>
    ensures { (rest : List causes.Cause) → first (spec.literal_faults scope.now sort value ++ rest) ≡ first_or result rest }
{
    if value > GREATEST_LITERAL {
        return Some(Cause::LiteralTooWide);
    }
    if scope.has(sort, literal_class(value)) {
        None
    } else {
        Some(Cause::NoInstance)
    }
}

fn differs(sort: Sort, other: Sort) -> Option<Cause>
    ensures { (rest : List causes.Cause) → first (spec.differs sort other ++ rest) ≡ first_or result rest }
{
    if sort.is(other) {
        None
    } else {
        Some(Cause::SortMismatch)
    }
}

fn hypothesis_fault(combining: bool, sort: Sort, rel: Rel, other: Sort) -> Option<Cause>
    ensures { (rest : List causes.Cause) → first (spec.hypothesis_faults combining sort rel other ++ rest) ≡ first_or result rest }
{
    if !combining {
        return Some(Cause::SortMismatch);
    }
    if rel.is(Rel::Eq) && sort.is(other) {
        None
    } else {
        Some(Cause::BadCombination)
    }
}

/// A name that doesn't stand for what has the sort.
pub fn name_fault(combining: bool, sort: Sort, meaning: Option<&Meaning>) -> Option<Cause>
    ensures { (rest : List causes.Cause) → first (spec.name_faults combining sort (option_map (λ m. m.now) meaning.entry) ++ rest) ≡ first_or result rest }
{
    match meaning {
        None => Some(Cause::UnknownName),
        Some(Meaning::Variable(_, other)) => differs(sort, *other),
        Some(Meaning::Hypothesis(_, rel, other)) => hypothesis_fault(combining, sort, *rel, *other),
        Some(_) => Some(Cause::SortMismatch),
    }
}

/// A name that doesn't stand for the sort.
pub fn sort_name_fault(sort: Sort, meaning: Option<&Meaning>) -> Option<Cause>
    ensures { (rest : List causes.Cause) → first (spec.sort_name_faults sort (option_map (λ m. m.now) meaning.entry) ++ rest) ≡ first_or result rest }
{
    match meaning {
        None => Some(Cause::UnknownName),
        Some(Meaning::SortName(other)) => differs(sort, *other),
        Some(_) => Some(Cause::SortMismatch),
    }
}

/// A name that can't be applied to so many arguments, with a value of the sort.
#[tactic(auto, using(crate::proofs::Sorts::length_times))]
pub fn applied_fault(
    scope: &Scope,
    sort: Sort,
    meaning: Option<&Meaning>,
    count: usize,
) -> Option<Cause>
    ensures first { (rest : List causes.Cause) → first (spec.applied_faults scope.now sort (option_map (λ m. m.now) meaning.entry) count ++ rest) ≡ first_or result rest }
    ensures arity { IfNone result (count ≡ length (argument_sorts sort (option_map (λ m. m.now) meaning.entry))) }
{
    match meaning {
        None => Some(Cause::UnknownName),
        Some(Meaning::Function(_, sorts, other)) => {
            if count != sorts.as_slice().len() {
                return Some(Cause::SortMismatch);
            }
            differs(sort, *other)
        }
        Some(Meaning::Shared(sym, arity)) => {
            if count != *arity {
                return Some(Cause::SortMismatch);
            }
            lacks(scope, *sym, sort)
        }
        Some(_) => Some(Cause::SortMismatch),
    }
}

/// A part that is a proof, in an expression that is none.
pub fn misused<'a>(setting: &Setting<'_, 'a>, id: usize) -> Option<Cause>
    requires here { id < length setting.now.nodes.now }
    requires found { setting.now.combining ≡ true → setting.now.proofs.now ≡ proofs_in setting.now.scope.now setting.now.nodes.now }
    ensures { (rest : List causes.Cause) → first (when (setting.now.combining && is_proof setting.now.scope.now (meant (tree_at setting.now.nodes.now id))) cause.BadCombination ++ rest) ≡ first_or result rest }
{
    if setting.combining && is_proof(setting.nodes, setting.scope, setting.proofs, id) {
        Some(Cause::BadCombination)
    } else {
        None
    }
}

/// An operation that is no proof on parts that are.
pub fn miscombined<'a>(
    setting: &Setting<'_, 'a>,
    operator: Operator,
    parts: (usize, usize),
) -> Option<Cause>
    requires here { (parts.0 < length setting.now.nodes.now) × (parts.1 < length setting.now.nodes.now) }
    requires found { setting.now.combining ≡ true → setting.now.proofs.now ≡ proofs_in setting.now.scope.now setting.now.nodes.now }
    ensures { (rest : List causes.Cause) → first (miscombines setting.now.scope.now setting.now.combining (operation operator (meant (tree_at setting.now.nodes.now parts.0)) (meant (tree_at setting.now.nodes.now parts.1))) ++ rest) ≡ first_or result rest }
{
    if !setting.combining {
        return None;
    }
    let left = is_proof(setting.nodes, setting.scope, setting.proofs, parts.0);
    let right = is_proof(setting.nodes, setting.scope, setting.proofs, parts.1);
    if (left || right) && !combines(operator, left, right) {
        Some(Cause::BadCombination)
    } else {
        None
    }
}

/// An argument that is a proof.
pub fn argument_misused<'a>(setting: &Setting<'_, 'a>, id: usize) -> Option<Cause>
    requires here { id < length setting.now.nodes.now }
    requires found { setting.now.combining ≡ true → setting.now.proofs.now ≡ proofs_in setting.now.scope.now setting.now.nodes.now }
    ensures { (rest : List causes.Cause) → first (when (setting.now.combining && any_proof setting.now.scope.now (arguments (tree_at setting.now.nodes.now id) none)) cause.BadCombination ++ rest) ≡ first_or result rest }
{
    if setting.combining
        && any_argument_is_proof(setting.nodes, setting.scope, setting.proofs, id)
    {
        Some(Cause::BadCombination)
    } else {
        None
    }
}
