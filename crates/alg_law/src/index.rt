ghost use Rattle.std.specs.Prelude.{◌≡◌, ◌+◌, ◌*◌, ◌<◌, ◌≤◌, [], ◌∷◌, ◌++◌, length, vec_len, OnOk};
ghost use Rattle.std.specs.Vec.{vec_capacity};
ghost use Rattle.alg_law.specs.Classes.{all_of};
ghost use Rattle.alg_law.specs.Declarations.{declaration_of};
ghost use Rattle.alg_law.specs.Firsts.{cell, noted, IsPadded};
ghost use Rattle.alg_law.specs.Noting.{TellsPlace, TellsInstance, HasRoom, placed, noted_for};

use crate::classes::Class;
use crate::declarations::Declared;
use alg_expr::{Arena, Memory};

/// Whether it is a hypothesis.
pub(crate) fn is_hypothesis(_arena: &Arena, d: &Declared) -> bool
    ensures { TellsPlace (declaration_of _arena.now d.now) result }
{
    matches!(d, Declared::Hypothesis { .. })
}

/// The place of a type variable and a class in the table, which has twenty for each declaration.
pub fn cell(sort: u32, class: Class) -> usize
    ensures cell { result ≡ cell sort class }
    ensures row { result < 20 * sort + 20 }
{
    20 * sort as usize + class.number() as usize
}

// declaration `at` gives the class, and what follows from it, to the type variable `sort`
fn note(first: &mut [u32], sort: u32, class: Class, at: u32)
    requires { 20 * sort + 20 ≤ length first.old }
    ensures len { length first.new ≡ length first.old }
    ensures noted { first.new ≡ noted first.old sort (all_of class) at }
{
    for c in class.all() {
        let i = cell(sort, *c);
        if at < first[i] {
            first[i] = at;
        }
    }
}

/// The type variable and its class, of an instance.
pub(crate) fn instance_of(_arena: &Arena, d: &Declared) -> Option<(u32, Class)>
    ensures { TellsInstance (declaration_of _arena.now d.now) result }
{
    match d {
        Declared::Instance { sort, class } => Some((*sort, *class)),
        _ => None,
    }
}

// makes the table long enough for a type variable
fn make_room(first: &mut Vec<u32>, sort: u32) -> Result<(), Memory>
    ensures room { OnOk result (20 * sort + 20 ≤ length first.new.items) }
    ensures same { IsPadded first.old.items first.new.items }
{
    let wanted = 20 * sort as usize + 20;
    if first.len() < wanted {
        first.resize(wanted, u32::MAX)?;
    }
    Ok(())
}

/// Makes the table long enough for an instance.
pub fn make_room_for(first: &mut Vec<u32>, instance: Option<(u32, Class)>) -> Result<(), Memory>
    ensures room { OnOk result (HasRoom first.new.items instance) }
    ensures same { IsPadded first.old.items first.new.items }
{
    match instance {
        Some((sort, _)) => make_room(first, sort),
        None => Ok(()),
    }
}

/// Declaration `at` gives what an instance gives.
pub fn note_for(first: &mut Vec<u32>, instance: Option<(u32, Class)>, at: u32)
    requires { HasRoom first.old.items instance }
    ensures { first.new.items ≡ noted_for first.old.items instance at }
{
    if let Some((sort, class)) = instance {
        note(first, sort, class, at);
    }
}

/// Adds a number where there is room.
pub(crate) fn put(numbers: &mut Vec<usize>, n: usize)
    requires { vec_len numbers.old < vec_capacity numbers.old }
    ensures { numbers.new.items ≡ numbers.old.items ++ n ∷ [] }
{
    match numbers.push(n) {
        Ok(()) => (),
        Err(_) => (),
    }
}

/// Adds the place of a hypothesis.
pub(crate) fn put_place(places: &mut Vec<usize>, given: bool, at: usize)
    requires { vec_len places.old < vec_capacity places.old }
    ensures { places.new.items ≡ placed places.old.items given at }
{
    if given {
        put(places, at);
    }
}
