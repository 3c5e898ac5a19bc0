ghost use Rattle.std.specs.Prelude.{◌≡◌, ℕ, List, [], ◌∷◌, Some, IfOk, IfSome, IfNone};
ghost use Rattle.alg_elaborate.specs.Faults.{first};
ghost use Rattle.alg_binders.specs.Binders.{names_of, taken_faults};
ghost use Rattle.alg_binders.specs.Texts.{texts, texts_of};

use alg_elaborate::Cause;
use alg_expr::{Memory, Sort};
use alg_names::{Meaning, Names, Scope};
use alg_syntax::binders::Typed;
use alg_syntax::signs::Name;
use std::alloc::Global;

// Puts a name among those before, where it isn't taken.
#[tactic(auto, using(crate::proofs::TakenLaws::taken_in_force, crate::proofs::TakenLaws::taken_before, crate::proofs::TakenLaws::not_taken))]
fn next_taken<'a>(
    alloc: Global,
    scope: &Scope,
    before: &mut Names,
    name: &Name<'a>,
) -> Result<Option<Cause>, Memory>
    ensures found { IfOk result (λ o. IfSome o (λ cause. (xs : List (List ℕ)) → first (taken_faults scope.now (texts before.old) (name.now.text ∷ xs)) ≡ Some cause)) }
    ensures on { IfOk result (λ o. IfNone o ((xs : List (List ℕ)) → taken_faults scope.now (texts before.old) (name.now.text ∷ xs) ≡ taken_faults scope.now (texts before.new) xs)) }
{
    if scope.meaning(name.text()).is_some() {
        return Ok(Some(Cause::NameTaken));
    }
    if before.lookup(name.text()).is_some() {
        return Ok(Some(Cause::NameTaken));
    }
    before.declare(
        String::from_str(alloc, name.text())?,
        Meaning::SortName(Sort::Nat),
    )?;
    Ok(None)
}

// The first of these names that is in force, or stands before.
fn more_taken<'a>(
    alloc: Global,
    scope: &Scope,
    before: &mut Names,
    names: &[Name<'a>],
) -> Result<Option<Cause>, Memory>
    ensures found { IfOk result (λ o. IfSome o (λ cause. first (taken_faults scope.now (texts before.old) (texts_of names.now)) ≡ Some cause)) }
    ensures none { IfOk result (λ o. IfNone o (taken_faults scope.now (texts before.old) (texts_of names.now) ≡ [])) }
{
    for name in names {
        if let Some(cause) = next_taken(alloc, scope, before, name)? {
            return Ok(Some(cause));
        }
    }
    Ok(None)
}

/// `NameTaken` where a name of the binder is in force, or stands twice.
pub fn taken_fault<'a>(
    alloc: Global,
    scope: &Scope,
    typed: &Typed<'a>,
) -> Result<Option<Cause>, Memory>
    ensures found { IfOk result (λ o. IfSome o (λ cause. first (taken_faults scope.now [] (names_of typed.now)) ≡ Some cause)) }
    ensures none { IfOk result (λ o. IfNone o (taken_faults scope.now [] (names_of typed.now) ≡ [])) }
{
    let mut before = Names::new(alloc);
    if let Some(cause) = next_taken(alloc, scope, &mut before, &typed.first)? {
        return Ok(Some(cause));
    }
    more_taken(alloc, scope, &mut before, typed.more.as_slice())
}
