//! Forms with the ids of their trees, and how they are taken apart.
ghost use Rattle.std.specs.Prelude.{◌≡◌, ◌≢◌, ℕ, List, [], ◌∷◌, length, IfSome, IsNone};
ghost use Rattle.alg_terms.specs.declared.sorts.Sort.{Sort as SortKind};
ghost use Rattle.alg_terms.specs.declared.symbols.Sym.{Sym as Symbol};
ghost use Rattle.alg_terms.specs.Tree.{Tree};
ghost use Rattle.alg_expr.specs.Ids.{IsIn};
ghost use Rattle.alg_build.specs.Rewriting.{Stands};
ghost use Rattle.alg_shown_forms.specs.Showing.{IsOneShown, IsOpened, IsShown};
ghost use Rattle.alg_shown_forms.specs.Parts.{AreArguments, IsOver, IsOverTwo};

use crate::constants::Constants;
use alg_build::Builder;
use alg_expr::{ExprId, Sort, View};
use alg_horner::{Horner, Split};
use alg_num::Frac;

/// A polynomial with the id of its tree.
#[derive(Drop)]
pub struct Shown {
    pub form: Horner<Frac>,
    pub tree: ExprId,
}

/// A polynomial with the id of its tree, and a line that says of what it is the result.
#[derive(Drop)]
pub struct Told {
    pub shown: Shown,
    pub line: usize,
}

/// A coefficient.
#[derive(Clone, Copy, Debug)]
pub struct Number {
    pub value: Frac,
}

/// The parts of a polynomial, each with the id of its tree.
#[derive(Drop)]
pub enum Opened {
    Constant(Number),
    Skip {
        by: u32,
        rest: Shown,
    },
    Sum {
        inner: Shown,
        raised: ExprId,
        product: ExprId,
        power: u128,
        rest: Shown,
    },
}

// the two of a list of two
fn pair(args: &[ExprId]) -> Option<(ExprId, ExprId)>
    ensures some { IfSome result (λ p. args.now ≡ p.0 ∷ p.1 ∷ []) }
    ensures none { IsNone result → length args.now ≢ 2 }
{
    match args {
        [a, b] => Some((*a, *b)),
        _ => None,
    }
}

// the two arguments, where there are two
fn arguments(cx: &Builder, tree: ExprId) -> Option<(ExprId, ExprId)>
    requires { IsIn cx.now.trees tree }
    ensures { AreArguments cx.now tree result }
{
    match cx.arena().view(tree) {
        View::App { args, .. } => pair(args),
        _ => None,
    }
}

/// The two parts of a sum or product.
pub fn two(cx: &Builder, tree: ExprId) -> (ExprId, ExprId)
    requires { IsOverTwo cx.now tree }
    ensures first { (s : SortKind) → (f : Symbol) → (x y : Tree) → IsOver cx.now s tree f x y → Stands cx.now s result.0 x }
    ensures second { (s : SortKind) → (f : Symbol) → (x y : Tree) → IsOver cx.now s tree f x y → Stands cx.now s result.1 y }
{
    match arguments(cx, tree) {
        Some(both) => both,
        None => (tree, tree),
    }
}

/// Takes a polynomial apart. Its tree is read one level, and two at a sum.
pub fn open<N: Constants>(cx: &Builder, sort: Sort, f: Shown) -> Opened
    requires { IsOneShown (N.leaf sort) cx.now sort f }
    ensures { (names : List Tree) → (k : ℕ) → IsShown (N.leaf sort) cx.now sort names k f → IsOpened (N.leaf sort) cx.now sort names k f.form result }
{
    match f.form.split() {
        Split::Constant(value) => Opened::Constant(Number { value }),
        Split::Skip { by, rest } => {
            let rest = Shown {
                form: rest,
                tree: f.tree,
            };
            Opened::Skip { by, rest }
        }
        Split::Sum { inner, power, rest } => {
            let (product, later) = two(cx, f.tree);
            let (first, raised) = two(cx, product);
            let inner = Shown {
                form: inner,
                tree: first,
            };
            let rest = Shown {
                form: rest,
                tree: later,
            };
            Opened::Sum {
                inner,
                raised,
                product,
                power,
                rest,
            }
        }
    }
}
