//! What a tree is made of, as the words of groups take it.
ghost use Rattle.std.specs.Prelude.{◌≡◌, ◌≢◌, ◌<◌, ◌∷◌, [], List, IfSome, IsNone, length, All};
ghost use Rattle.alg_terms.specs.declared.sorts.Sort.{Sort as SortKind};
ghost use Rattle.alg_terms.specs.Tree.{Tree, Lit, App, Cons, Nil, of_list, sort_of_tree};
ghost use Rattle.alg_expr.specs.declared.ids.ExprId.{ExprId as Id};
ghost use Rattle.alg_expr.specs.Ids.{tree_of, trees_at, IsIn};
ghost use Rattle.alg_group_found.specs.Shapes.{IsShape};

use alg_build::Builder;
use alg_expr::{ExprId, Sym, View};

/// The literal 1, an operation of groups over its parts, or an atom. A power is an atom too where its exponent has no number.
#[derive(Clone, Copy, Debug, Drop)]
pub enum Shape {
    One,
    Atom,
    Product(ExprId, ExprId),
    Quotient(ExprId, ExprId),
    Inverse(ExprId),
    Power(ExprId, ExprId),
    IntegerPower(ExprId, ExprId),
}

// a symbol over one part
#[tactic(auto, using(crate::proofs::ShapeLemmas::shapes))]
fn over_one(sym: Sym, a: ExprId) -> Shape
    ensures { (ts : List Tree) (e : Id) (s : SortKind) → tree_of ts e ≡ App sym s (Cons (tree_of ts a) Nil) → a.index < e.index → IsShape ts e s result }
{
    match sym {
        Sym::Inv => Shape::Inverse(a),
        _ => Shape::Atom,
    }
}

// a symbol over two parts
#[tactic(auto, using(crate::proofs::ShapeLemmas::shapes))]
fn over_two(sym: Sym, a: ExprId, b: ExprId) -> Shape
    ensures { (ts : List Tree) (e : Id) (s : SortKind) → tree_of ts e ≡ App sym s (Cons (tree_of ts a) (Cons (tree_of ts b) Nil)) → a.index < e.index → b.index < e.index → IsShape ts e s result }
{
    match sym {
        Sym::Mul => Shape::Product(a, b),
        Sym::Div => Shape::Quotient(a, b),
        Sym::Npow => Shape::Power(a, b),
        Sym::Zpow => Shape::IntegerPower(a, b),
        _ => Shape::Atom,
    }
}

// the part of a symbol over one
fn one(args: &[ExprId]) -> Option<ExprId>
    ensures some { IfSome result (λ a. args.now ≡ a ∷ []) }
    ensures none { IsNone result → length args.now ≢ 1 }
{
    match args {
        [a] => Some(*a),
        _ => None,
    }
}

// the parts of a symbol over two
fn two(args: &[ExprId]) -> Option<(ExprId, ExprId)>
    ensures some { IfSome result (λ p. args.now ≡ p.0 ∷ p.1 ∷ []) }
    ensures none { IsNone result → length args.now ≢ 2 }
{
    match args {
        [a, b] => Some((*a, *b)),
        _ => None,
    }
}

// a symbol over any number of parts
fn over(sym: Sym, args: &[ExprId]) -> Shape
    ensures { (ts : List Tree) (e : Id) (s : SortKind) → tree_of ts e ≡ App sym s (of_list (trees_at ts args.now)) → All (λ a. a.index < e.index) args.now → IsShape ts e s result }
{
    match one(args) {
        Some(a) => over_one(sym, a),
        None => match two(args) {
            Some((a, b)) => over_two(sym, a, b),
            None => Shape::Atom,
        },
    }
}

// a literal
fn of_literal(value: u128) -> Shape
    ensures { (ts : List Tree) (e : Id) (s : SortKind) → tree_of ts e ≡ Lit s value → IsShape ts e s result }
{
    if value == 1 { Shape::One } else { Shape::Atom }
}

/// What the tree is made of.
pub fn shape_of(cx: &Builder, e: ExprId) -> Shape
    requires here { IsIn cx.now.trees e }
    ensures { IsShape cx.now.trees e (sort_of_tree (tree_of cx.now.trees e)) result }
{
    match cx.arena().view(e) {
        View::Lit { value, .. } => of_literal(value),
        View::Var { .. } => Shape::Atom,
        View::App { sym, args, .. } => over(sym, args),
    }
}
