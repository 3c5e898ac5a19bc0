//! The distinct atoms of trees.
ghost use Rattle.std.specs.Prelude.{◌≡◌, ℕ, ◌≢◌, ◌<◌, ◌≤◌, ◌||◌, ◌&&◌, [], ◌∷◌, ◌++◌, IsTrue, IsFalse, IfOk, All, length, get_or, List, flat_map, Bool, true, false, Some, None, is_some, nat_lt};
ghost use Rattle.alg_terms.specs.declared.symbols.Sym.TheVariants.{Inv as inv};
ghost use Rattle.alg_terms.specs.Tree.{Tree, App, Cons, Nil};
ghost use Rattle.alg_terms.specs.Order.{tree_same};
ghost use Rattle.alg_expr.specs.Ids.{tree_of, trees_at, IsIn};
ghost use Rattle.alg_sums.specs.Rational.{rational};
ghost use Rattle.alg_expansions.specs.Setting.{Setting, setting_of};
ghost use Rattle.alg_expansions.specs.Visited.{is_listed, distinct};
ghost use Rattle.alg_expansions.specs.Cost.{have_many_atoms};
ghost use Rattle.alg_ring_range.specs.Numbers.{Numbers};
ghost use Rattle.alg_ring_range.specs.Found.{IsFound, AreFound, HasParts};
ghost use Rattle.alg_ring_range.specs.Marks.{AreWanted};
ghost use Rattle.alg_ring_range.specs.Atoms.{visited_atoms, visited_atoms_over, in_part, is_atom, tree_of_atom, atom_trees, IsAtomIn, IsBefore, IsPlan, IsWantedPart, Adds, flagged};
ghost use Rattle.alg_ring_range.specs.declared.atoms.Atom.TheVariants.{Inverse};

use crate::marks::{mark_all, marked};
use crate::rows::Found;
use crate::walk::{all_found, one, two};
use alg_expr::{Arena, ExprId, Memory, View};
use alg_law::Base;
use alg_terms::{Sort, Sym};

/// An atom: a tree of the arena, or the inverse of one, of this sort.
#[derive(Clone, Copy, Debug)]
pub(crate) enum Atom {
    Plain(ExprId),
    Inverse(ExprId, Sort),
}

/// Where the atoms of a node are: in its visited parts, and one that it is or has.
#[derive(Clone, Copy, Debug)]
pub(crate) struct Plan {
    pub(crate) first: Option<ExprId>,
    pub(crate) second: Option<ExprId>,
    pub(crate) atom: Option<Atom>,
}

fn only(atom: Atom) -> Plan
    ensures { result ≡ record { first = None; second = None; atom = Some atom } }
{
    Plan {
        first: None,
        second: None,
        atom: Some(atom),
    }
}

fn part(a: ExprId) -> Plan
    ensures { result ≡ record { first = Some a; second = None; atom = None } }
{
    Plan {
        first: Some(a),
        second: None,
        atom: None,
    }
}

fn parts(a: ExprId, b: ExprId) -> Plan
    ensures { result ≡ record { first = Some a; second = Some b; atom = None } }
{
    Plan {
        first: Some(a),
        second: Some(b),
        atom: None,
    }
}

#[tactic(auto, using(crate::proofs::Plans::plans))]
fn plan_one(sym: Sym, sort: Sort, found: &Found, e: ExprId, a: ExprId) -> Plan
    ensures same { (k : Setting) (trees : List Tree) (x : Numbers) (t : Tree) → tree_of trees e ≡ App sym sort (Cons (tree_of trees a) Nil) → IsFound found.now x → is_listed t (visited_atoms_over sym sort (Cons (tree_of trees a) Nil) (x ∷ []) (visited_atoms k (tree_of trees a) ∷ [])) ≡ (in_part k trees t result.first || (in_part k trees t result.second || is_atom trees t result.atom)) }
    ensures before { (n : ℕ) → a.index < n → IsBefore n result.first × IsBefore n result.second }
    ensures wanted { (w : List Bool) → get_or w a.index false ≡ true → IsWantedPart w result.first × IsWantedPart w result.second }
    ensures atom { (n : ℕ) → a.index < n → e.index < n → IsAtomIn n result.atom }
{
    match sym {
        Sym::Neg => part(a),
        Sym::Inv => {
            if found.closed {
                part(a)
            } else {
                only(Atom::Inverse(a, sort))
            }
        }
        _ => only(Atom::Plain(e)),
    }
}

#[tactic(auto, using(crate::proofs::Plans::plans))]
fn plan_quotient(closed: bool, sort: Sort, a: ExprId, b: ExprId) -> Plan
    ensures closed { IsTrue closed → result ≡ record { first = Some a; second = Some b; atom = None } }
    ensures open { IsFalse closed → result ≡ record { first = Some a; second = None; atom = Some (Inverse b sort) } }
{
    if closed {
        return parts(a, b);
    }
    Plan {
        first: Some(a),
        second: None,
        atom: Some(Atom::Inverse(b, sort)),
    }
}

#[tactic(auto, using(crate::proofs::Plans::plans))]
fn plan_two(sym: Sym, sort: Sort, found: &Found, e: ExprId, a: ExprId, b: ExprId) -> Plan
    ensures same { (k : Setting) (trees : List Tree) (x y : Numbers) (t : Tree) → tree_of trees e ≡ App sym sort (Cons (tree_of trees a) (Cons (tree_of trees b) Nil)) → IsFound found.now y → is_listed t (visited_atoms_over sym sort (Cons (tree_of trees a) (Cons (tree_of trees b) Nil)) (x ∷ y ∷ []) (visited_atoms k (tree_of trees a) ∷ visited_atoms k (tree_of trees b) ∷ [])) ≡ (in_part k trees t result.first || (in_part k trees t result.second || is_atom trees t result.atom)) }
    ensures before { (n : ℕ) → a.index < n → b.index < n → IsBefore n result.first × IsBefore n result.second }
    ensures wanted { (w : List Bool) → get_or w a.index false ≡ true → get_or w b.index false ≡ true → IsWantedPart w result.first × IsWantedPart w result.second }
    ensures atom { (n : ℕ) → a.index < n → b.index < n → e.index < n → IsAtomIn n result.atom }
{
    match sym {
        Sym::Add => parts(a, b),
        Sym::Sub => parts(a, b),
        Sym::Mul => parts(a, b),
        Sym::Npow => {
            if found.numeral.is_some() {
                parts(a, b)
            } else {
                only(Atom::Plain(e))
            }
        }
        Sym::Div => plan_quotient(found.closed, sort, a, b),
        _ => only(Atom::Plain(e)),
    }
}

fn same_id(arena: &Arena, e: ExprId, f: ExprId) -> bool
    requires left { IsIn arena.now e }
    requires right { IsIn arena.now f }
    ensures yes { IsTrue result → tree_of arena.now e ≡ tree_of arena.now f }
    ensures no { IsFalse result → tree_of arena.now e ≢ tree_of arena.now f }
{
    let _distinct = arena.len();
    e.number() == f.number()
}

// whether the tree is the inverse of that one, of this sort
fn is_inverse(arena: &Arena, e: ExprId, b: ExprId, s: Sort) -> bool
    requires left { IsIn arena.now e }
    requires right { IsIn arena.now b }
    ensures yes { IsTrue result → tree_of arena.now e ≡ App inv s (Cons (tree_of arena.now b) Nil) }
    ensures no { IsFalse result → tree_of arena.now e ≢ App inv s (Cons (tree_of arena.now b) Nil) }
{
    match arena.view(e) {
        View::Lit { .. } => false,
        View::Var { .. } => false,
        View::App { sym, sort, args } => match one(args) {
            Some(a) => match sym {
                Sym::Inv => both(sort.is(s), same_id(arena, a, b)),
                _ => false,
            },
            None => false,
        },
    }
}

fn both(a: bool, b: bool) -> bool
    ensures { result ≡ (a && b) }
{
    if a { b } else { false }
}

fn same_atom(arena: &Arena, x: Atom, y: Atom) -> bool
    requires left { IsAtomIn (length arena.now) (Some x) }
    requires right { IsAtomIn (length arena.now) (Some y) }
    ensures yes { IsTrue result → tree_of_atom arena.now x ≡ tree_of_atom arena.now y }
    ensures no { IsFalse result → tree_of_atom arena.now x ≢ tree_of_atom arena.now y }
{
    match x {
        Atom::Plain(e) => match y {
            Atom::Plain(f) => same_id(arena, e, f),
            Atom::Inverse(b, s) => is_inverse(arena, e, b, s),
        },
        Atom::Inverse(a, s) => match y {
            Atom::Plain(f) => is_inverse(arena, f, a, s),
            Atom::Inverse(b, t) => both(s.is(t), same_id(arena, a, b)),
        },
    }
}

fn matches(arena: &Arena, x: Atom, y: Atom) -> bool
    requires left { IsAtomIn (length arena.now) (Some x) }
    requires right { IsAtomIn (length arena.now) (Some y) }
    ensures { result ≡ tree_same (tree_of_atom arena.now x) (tree_of_atom arena.now y) }
{
    let same = same_atom(arena, x, y);
    same
}

fn is_seen(arena: &Arena, seen: &[Atom], a: Atom) -> bool
    requires seen { All (λ x. IsAtomIn (length arena.now) (Some x)) seen.now }
    requires atom { IsAtomIn (length arena.now) (Some a) }
    ensures { result ≡ is_listed (tree_of_atom arena.now a) (atom_trees arena.now seen.now) }
{
    for x in seen {
        if matches(arena, *x, a) {
            return true;
        }
    }
    false
}

fn push(seen: &mut Vec<Atom>, a: Atom) -> Result<(), Memory>
    ensures { IfOk result (λ _. seen.new.items ≡ seen.old.items ++ a ∷ []) }
{
    match seen.push(a) {
        Ok(()) => Ok(()),
        Err(_) => Err(Memory),
    }
}

// puts in an atom that isn't there yet
#[tactic(auto, using(crate::proofs::Adding::adding))]
fn add(arena: &Arena, seen: &mut Vec<Atom>, atom: Option<Atom>) -> Result<(), Memory>
    requires seen { All (λ x. IsAtomIn (length arena.now) (Some x)) seen.old.items }
    requires atom { IsAtomIn (length arena.now) atom }
    ensures { IfOk result (λ _. Adds arena.now seen.old.items seen.new.items atom) }
{
    match atom {
        Some(a) => {
            if is_seen(arena, seen.as_slice(), a) {
                Ok(())
            } else {
                push(seen, a)
            }
        }
        None => Ok(()),
    }
}

// where the atoms of one node are
#[tactic(auto, using(crate::proofs::WalkLemmas::below))]
fn plan_of(base: &Base, arena: &Arena, found: &[Found], e: ExprId) -> Plan
    requires here { IsIn arena.now e }
    requires found { e.index ≤ length found.now }
    requires parts { HasParts (setting_of base.now) arena.now found.now e }
    ensures plan { IsPlan (setting_of base.now) arena.now e result }
    ensures wanted { (w : List Bool) → AreWanted arena.now w → get_or w e.index false ≡ true → IsWantedPart w result.first × IsWantedPart w result.second }
{
    match arena.view(e) {
        View::Lit { .. } => Plan {
            first: None,
            second: None,
            atom: None,
        },
        View::Var { .. } => only(Atom::Plain(e)),
        View::App { sym, sort, args } => match one(args) {
            Some(a) => plan_one(sym, sort, &found[a.number()], e, a),
            None => match two(args) {
                Some((a, b)) => plan_two(sym, sort, &found[b.number()], e, a, b),
                None => only(Atom::Plain(e)),
            },
        },
    }
}

fn flag(flags: &mut Vec<bool>, p: Option<ExprId>)
    requires { IsBefore (length flags.old.items) p }
    ensures { flags.new.items ≡ flagged flags.old.items p }
{
    match p {
        Some(a) => flags[a.number()] = true,
        None => {}
    }
}

// whether trees have more than 256 distinct atoms together; it stops where it has seen so many
fn exceed(
    base: &Base,
    arena: &Arena,
    wanted: &[bool],
    found: &[Found],
    roots: &[ExprId],
) -> Result<bool, Memory>
    requires here { All (IsIn arena.now) roots.now }
    requires wanted { AreWanted arena.now wanted.now }
    requires roots { All (λ e. get_or wanted.now e.index false ≡ true) roots.now }
    requires all { length found.now ≡ length arena.now }
    requires found { AreFound (setting_of base.now) arena.now wanted.now found.now }
    ensures { IfOk result (λ b. b ≡ nat_lt 256 (length (distinct (flat_map (visited_atoms (setting_of base.now)) (trees_at arena.now roots.now))))) }
{
    let count = arena.len();
    let mut flags = Vec::from_elem(arena.alloc(), false, count)?;
    mark_all(&mut flags, roots);
    let mut seen: Vec<Atom> = Vec::new(arena.alloc());
    let mut i = count;
    while i > 0 {
        i -= 1;
        if flags[i] {
            let p = plan_of(base, arena, found, arena.id(i));
            flag(&mut flags, p.first);
            flag(&mut flags, p.second);
            add(arena, &mut seen, p.atom)?;
            if seen.len() > 256 {
                return Ok(true);
            }
        }
    }
    Ok(false)
}

/// Whether trees have more than 256 distinct atoms together. An atom is a tree that the expansion takes as it is, and
/// beside them the inverse of each divisor that isn't closed.
pub fn have_many_atoms(base: &Base, arena: &Arena, roots: &[ExprId]) -> Result<bool, Memory>
    requires { All (IsIn arena.now) roots.now }
    ensures { IfOk result (λ b. b ≡ have_many_atoms rational (setting_of base.now) (trees_at arena.now roots.now)) }
{
    let wanted = marked(arena, roots)?;
    let found = all_found(base, arena, wanted.as_slice())?;
    let many = exceed(base, arena, wanted.as_slice(), found.as_slice(), roots)?;
    Ok(many)
}
