ghost use Rattle.std.specs.Prelude.{◌≡◌, All, slice_get, option_and_then};
ghost use Rattle.alg_law.specs.Declarations.{hypotheses, declaration_of, declarations_of, IsDeclaredIn};
ghost use Rattle.alg_law.specs.Having.{is_decl, instance_gives, instances_give};
ghost use Rattle.alg_law.specs.Lending.{IsLent, IsGiven, TellsHypothesis};
ghost use Rattle.alg_law.specs.Places.{statement_in};

use crate::classes::Class;
use crate::declarations::Declared;
use crate::masks::follows;
use alg_expr::{Arena, Sort, Stmt};

/// A declaration, lent with the arena that its statement is of.
#[derive(Clone, Copy)]
pub struct Lent<'a> {
    pub arena: &'a Arena,
    pub declared: &'a Declared,
}

/// The statement of a hypothesis, with the arena that it is of.
#[derive(Clone, Copy)]
pub struct Given<'a> {
    pub arena: &'a Arena,
    pub stmt: Stmt,
}

// declaration k of a list
pub(crate) fn declared_at<'a>(arena: &'a Arena, list: &'a [Declared], k: usize) -> Option<Lent<'a>>
    requires { All (IsDeclaredIn arena.now) list.now }
    ensures { IsLent result (slice_get (declarations_of arena.now list.now) k) }
{
    match list.get(k) {
        Some(declared) => Some(Lent { arena, declared }),
        None => None,
    }
}

// the statement of declaration k of a list, if it is a hypothesis
pub(crate) fn statement_at<'a>(
    arena: &'a Arena,
    list: &'a [Declared],
    k: usize,
) -> Option<Given<'a>>
    requires { All (IsDeclaredIn arena.now) list.now }
    ensures { IsGiven result (option_and_then statement_in (slice_get (declarations_of arena.now list.now) k)) }
{
    match declared_at(arena, list, k) {
        Some(lent) => match lent.declared {
            Declared::Hypothesis { stmt, .. } => Some(Given {
                arena: lent.arena,
                stmt: *stmt,
            }),
            _ => None,
        },
        None => None,
    }
}

// the statement of hypothesis i of a list, from 0
pub(crate) fn nth<'a>(arena: &'a Arena, list: &'a [Declared], i: u128) -> Option<Given<'a>>
    requires { All (IsDeclaredIn arena.now) list.now }
    ensures { IsGiven result (slice_get (hypotheses (declarations_of arena.now list.now)) i) }
{
    let mut left = i;
    for d in list {
        if let Some(stmt) = hypothesis_of(arena, d) {
            if left == 0 {
                return Some(Given { arena, stmt });
            }
            left -= 1;
        }
    }
    None
}

fn hypothesis_of(_arena: &Arena, d: &Declared) -> Option<Stmt>
    requires { IsDeclaredIn _arena.now d.now }
    ensures { TellsHypothesis _arena.now d.now result }
{
    match d {
        Declared::Hypothesis { stmt, .. } => Some(*stmt),
        _ => None,
    }
}

// whether one of the declarations is an instance that gives the class
pub(crate) fn any_grants(arena: &Arena, ds: &[Declared], sort: Sort, class: Class) -> bool
    ensures { result ≡ instances_give (declarations_of arena.now ds.now) sort class }
{
    for d in ds {
        if grants(arena, d, sort, class) {
            return true;
        }
    }
    false
}

fn grants(_arena: &Arena, d: &Declared, sort: Sort, class: Class) -> bool
    ensures { result ≡ instance_gives (declaration_of _arena.now d.now) sort class }
{
    match d {
        Declared::Instance { sort: k, class: b } => is_number(sort, *k) && follows(class, *b),
        _ => false,
    }
}

fn is_number(sort: Sort, number: u32) -> bool
    ensures { result ≡ is_decl sort number }
{
    match sort {
        Sort::Decl(k) => k == number,
        _ => false,
    }
}
