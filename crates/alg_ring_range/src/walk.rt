//! The numbers of trees, each found once, parts before wholes.
ghost use Rattle.std.specs.List.{list_any};
ghost use Rattle.std.specs.Prelude.{◌≡◌, ◌<◌, ◌≤◌, [], ◌∷◌, ◌++◌, IfOk, IfSome, IsNone, length, get_or, true, false, ◌≢◌, All};
ghost use Rattle.alg_terms.specs.declared.sorts.Sort.TheVariants.{Nat};
ghost use Rattle.alg_terms.specs.Tree.{Lit};
ghost use Rattle.alg_expr.specs.Ids.{tree_of, trees_at, IsIn};
ghost use Rattle.alg_sums.specs.Rational.{rational};
ghost use Rattle.alg_expansions.specs.Setting.{setting_of};
ghost use Rattle.alg_expansions.specs.Range.{are_out_of_range};
ghost use Rattle.alg_ring_range.specs.Numbers.{Numbers, atom, over, numbers};
ghost use Rattle.alg_ring_range.specs.Found.{IsFound, AreFound, HasParts, is_lost};
ghost use Rattle.alg_ring_range.specs.Marks.{AreWanted};

use crate::marks::marked;
use crate::rows::{
    Found, atom, difference, inverse, literal, negation, power, product, quotient, sum,
};
use alg_expr::{Arena, ExprId, Memory, View};
use alg_law::{Base, Class, has};
use alg_terms::{Sort, Sym};

// whether a literal of this sort is closed: in a field of characteristic zero
fn is_exact(base: &Base, sort: Sort) -> bool
    ensures { result ≡ (setting_of base.now).is_exact sort }
{
    if has(base, sort, Class::Field) {
        has(base, sort, Class::CharZero)
    } else {
        false
    }
}

fn over_one(sym: Sym, a: &Found) -> Found
    ensures { (x : Numbers) → IsFound a.now x → IsFound result (over sym (x ∷ [])) }
{
    match sym {
        Sym::Neg => negation(a),
        Sym::Inv => inverse(a),
        _ => atom(),
    }
}

fn over_two(sym: Sym, a: &Found, b: &Found) -> Found
    ensures { (x y : Numbers) → IsFound a.now x → IsFound b.now y → IsFound result (over sym (x ∷ y ∷ [])) }
{
    match sym {
        Sym::Add => sum(a, b),
        Sym::Sub => difference(a, b),
        Sym::Mul => product(a, b),
        Sym::Npow => power(a, b),
        Sym::Div => quotient(a, b),
        _ => atom(),
    }
}

// the part of a symbol over one
pub(crate) fn one(args: &[ExprId]) -> Option<ExprId>
    ensures some { IfSome result (λ a. args.now ≡ a ∷ []) }
    ensures none { IsNone result → length args.now ≢ 1 }
{
    match args {
        [a] => Some(*a),
        _ => None,
    }
}

// the parts of a symbol over two
pub(crate) fn two(args: &[ExprId]) -> Option<(ExprId, ExprId)>
    ensures some { IfSome result (λ p. args.now ≡ p.0 ∷ p.1 ∷ []) }
    ensures none { IsNone result → length args.now ≢ 2 }
{
    match args {
        [a, b] => Some((*a, *b)),
        _ => None,
    }
}

// the numbers of one node, whose parts are found
fn node(base: &Base, arena: &Arena, found: &[Found], e: ExprId) -> Found
    requires here { IsIn arena.now e }
    requires parts { HasParts (setting_of base.now) arena.now found.now e }
    ensures { IsFound result (numbers (setting_of base.now) (tree_of arena.now e)) }
{
    match arena.view(e) {
        View::Lit { sort, value } => literal(is_exact(base, sort), value),
        View::Var { .. } => atom(),
        View::App { sym, args, .. } => match one(args) {
            Some(a) => over_one(sym, &found[a.number()]),
            None => match two(args) {
                Some((a, b)) => over_two(sym, &found[a.number()], &found[b.number()]),
                None => atom(),
            },
        },
    }
}

fn push(found: &mut Vec<Found>, f: Found) -> Result<(), Memory>
    ensures { IfOk result (λ _. found.new.items ≡ found.old.items ++ f ∷ []) }
{
    match found.push(f) {
        Ok(()) => Ok(()),
        Err(_) => Err(Memory),
    }
}

// what is found of the next tree, if it is wanted
fn next(base: &Base, arena: &Arena, wanted: &[bool], found: &[Found]) -> Found
    requires wanted { AreWanted arena.now wanted.now }
    requires found { AreFound (setting_of base.now) arena.now wanted.now found.now }
    requires room { length found.now < length arena.now }
    ensures { get_or wanted.now (length found.now) false ≡ true → IsFound result (numbers (setting_of base.now) (get_or arena.now (length found.now) (Lit Nat 0))) }
{
    let number = found.len();
    if wanted[number] {
        node(base, arena, found, arena.id(number))
    } else {
        atom()
    }
}

pub(crate) fn all_found(base: &Base, arena: &Arena, wanted: &[bool]) -> Result<Vec<Found>, Memory>
    requires { AreWanted arena.now wanted.now }
    ensures found { IfOk result (λ v. AreFound (setting_of base.now) arena.now wanted.now v.items) }
    ensures all { IfOk result (λ v. length v.items ≡ length arena.now) }
{
    let mut found: Vec<Found> = Vec::new(arena.alloc());
    for _ in 0..wanted.len() {
        let f = next(base, arena, wanted, found.as_slice());
        push(&mut found, f)?;
    }
    Ok(found)
}

// whether one of the trees was lost on the way
fn any_lost(found: &[Found], roots: &[ExprId]) -> bool
    requires { All (λ e. e.index < length found.now) roots.now }
    ensures { result ≡ list_any (is_lost found.now) roots.now }
{
    for e in roots {
        if found[e.number()].sizes.is_none() {
            return true;
        }
    }
    false
}

/// Whether some visited node of one of the trees has a denominator or weight above 2^126, or a degree above 2^32 - 1.
/// The numbers are those of the text: nothing is expanded, and towers of powers are not computed.
pub fn are_out_of_range(base: &Base, arena: &Arena, roots: &[ExprId]) -> Result<bool, Memory>
    requires { All (IsIn arena.now) roots.now }
    ensures { IfOk result (λ b. b ≡ are_out_of_range rational (setting_of base.now) (trees_at arena.now roots.now)) }
{
    let wanted = marked(arena, roots)?;
    let found = all_found(base, arena, wanted.as_slice())?;
    let lost = any_lost(found.as_slice(), roots);
    Ok(lost)
}
