ghost use Rattle.std.specs.Prelude.{◌≡◌, ◌++◌, List, [], ◌∷◌, map, false, All, IfOk, OnOk};
ghost use Rattle.alg_terms.specs.Tree.{Tree};
ghost use Rattle.alg_law.specs.Declarations.{declaration_of, declarations_of, IsDeclaredIn};
ghost use Rattle.alg_names.specs.Entering.{enter, entered};
ghost use Rattle.alg_binders.specs.Binders.{is_among};
ghost use Rattle.alg_binders.specs.Said.{said_of, IsSaidIn};
ghost use Rattle.alg_binders.specs.Texts.{texts, texts_of, AreNew};

use crate::domains::Said;
use alg_expr::{Arena, Items, Memory, Text};
use alg_law::Declared;
use alg_names::Scope;
use alg_syntax::signs::Name;
use std::alloc::Global;

// The declaration of a name.
#[tactic(auto, using(crate::proofs::Signatures::without_arguments, crate::proofs::Signatures::with_arguments))]
fn declaration<'a>(alloc: Global, said: &Said, name: &Name<'a>) -> Result<Declared, Memory>
    ensures told { IfOk result (λ d. (ts : List Tree) → declaration_of ts d ≡ said_of ts said.now name.now.text) }
    ensures here { IfOk result (λ d. (ts : List Tree) → IsSaidIn ts said.now → IsDeclaredIn ts d) }
{
    let name = Text::of(String::from_str(alloc, name.text())?);
    match said {
        Said::Carrier => Ok(Declared::Carrier { name }),
        Said::Sorts(args, value) => {
            if args.as_slice().len() == 0 {
                return Ok(Declared::Variable { name, sort: *value });
            }
            let args = Items::of(args.as_slice().to_vec(alloc)?);
            Ok(Declared::Function {
                name,
                args,
                result: *value,
            })
        }
        Said::Holds(stmt) => Ok(Declared::Hypothesis { name, stmt: *stmt }),
    }
}

// Declares a name that isn't in force.
#[tactic(auto, using(crate::proofs::Signatures::fresh_as, crate::proofs::Kept::kept_on, crate::proofs::Kept::told_on))]
fn add_name<'a>(
    arena: &Arena,
    scope: &mut Scope,
    local: &mut Vec<Declared>,
    said: &Said,
    name: &Name<'a>,
) -> Result<(), Memory>
    requires fresh { is_among (texts scope.old.names) name.now.text ≡ false }
    requires said { IsSaidIn arena.now said.now }
    requires local { All (IsDeclaredIn arena.now) local.old.items }
    ensures entered { OnOk result (scope.new ≡ enter scope.old (said_of arena.now said.now name.now.text)) }
    ensures local { OnOk result (declarations_of arena.now local.new.items ≡ declarations_of arena.now local.old.items ++ said_of arena.now said.now name.now.text ∷ []) }
    ensures here { OnOk result (All (IsDeclaredIn arena.now) local.new.items) }
{
    let declared = declaration(arena.alloc(), said, name)?;
    scope.enter(arena, &declared)?;
    local.push(declared)?;
    Ok(())
}

// Declares names that are new.
fn add_more<'a>(
    arena: &Arena,
    scope: &mut Scope,
    local: &mut Vec<Declared>,
    said: &Said,
    names: &[Name<'a>],
) -> Result<(), Memory>
    requires fresh { AreNew (texts scope.old.names) (texts_of names.now) }
    requires said { IsSaidIn arena.now said.now }
    requires local { All (IsDeclaredIn arena.now) local.old.items }
    ensures entered { OnOk result (scope.new ≡ entered scope.old (map (said_of arena.now said.now) (texts_of names.now))) }
    ensures local { OnOk result (declarations_of arena.now local.new.items ≡ declarations_of arena.now local.old.items ++ map (said_of arena.now said.now) (texts_of names.now)) }
    ensures here { OnOk result (All (IsDeclaredIn arena.now) local.new.items) }
{
    for name in names {
        add_name(arena, scope, local, said, name)?;
    }
    Ok(())
}

/// Declares a name and further ones that are new, as what is said of each.
#[tactic(auto, using(crate::proofs::Signatures::texts_entered))]
pub fn add_names<'a>(
    arena: &Arena,
    scope: &mut Scope,
    local: &mut Vec<Declared>,
    said: &Said,
    first: &Name<'a>,
    more: &[Name<'a>],
) -> Result<(), Memory>
    requires fresh { AreNew (texts scope.old.names) (first.now.text ∷ texts_of more.now) }
    requires said { IsSaidIn arena.now said.now }
    requires local { All (IsDeclaredIn arena.now) local.old.items }
    ensures entered { OnOk result (scope.new ≡ entered scope.old (map (said_of arena.now said.now) (first.now.text ∷ texts_of more.now))) }
    ensures local { OnOk result (declarations_of arena.now local.new.items ≡ declarations_of arena.now local.old.items ++ map (said_of arena.now said.now) (first.now.text ∷ texts_of more.now)) }
    ensures here { OnOk result (All (IsDeclaredIn arena.now) local.new.items) }
{
    add_name(arena, scope, local, said, first)?;
    add_more(arena, scope, local, said, more)
}
