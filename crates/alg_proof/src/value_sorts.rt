ghost use Rattle.std.specs.Prelude.{◌≡◌, All};
ghost use Rattle.alg_expr.specs.Applying.{sorts_at};
ghost use Rattle.alg_expr.specs.Ids.{IsIn};
ghost use Rattle.alg_proof.specs.Places.{is_same};
ghost use Rattle.alg_proof.specs.Steps.{same_sort, value_sort};

use alg_expr::{Arena, ExprId, Place, Sort, Sym};
use alg_law::Base;

/// The sort of the value of a symbol over these arguments: of a declared function as it is declared, else that of the
/// first argument that has the sort of the value.
pub fn value_sort(base: &Base, arena: &Arena, sym: Sym, args: &[ExprId]) -> Option<Sort>
    requires { All (IsIn arena.now) args.now }
    ensures { result ≡ value_sort base.now sym (sorts_at arena.now args.now) }
{
    match sym {
        Sym::Apply(k) => match base.function(k) {
            None => None,
            Some(f) => Some(f.result),
        },
        _ => first_same(arena, sym.places(), args),
    }
}

// the sort of the first argument that has the sort of the value
fn first_same(arena: &Arena, places: &[Place], args: &[ExprId]) -> Option<Sort>
    requires { All (IsIn arena.now) args.now }
    ensures { result ≡ same_sort places.now (sorts_at arena.now args.now) }
{
    for (i, place) in places.iter().enumerate() {
        if i == args.len() {
            return None;
        }
        if is_same(*place) {
            return Some(arena.sort_of(args[i]));
        }
    }
    None
}

fn is_same(place: Place) -> bool
    ensures { result ≡ is_same place }
{
    matches!(place, Place::Same)
}
