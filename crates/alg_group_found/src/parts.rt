//! What is found of the literal 1, of atoms, products, quotients and inverses.
ghost use Rattle.std.specs.Prelude.{◌≡◌, IfOk};
ghost use Rattle.alg_terms.specs.Tree.{Lit, product_tree};
ghost use Rattle.alg_expr.specs.Ids.{tree_of};
ghost use Rattle.alg_build.specs.Book.{Grows};
ghost use Rattle.alg_build.specs.Rewriting.{Stands};
ghost use Rattle.alg_rows.specs.Operations.{inverse_tree, quotient_tree};
ghost use Rattle.alg_group_stack.specs.Words.{IsHome};
ghost use Rattle.alg_group_found.specs.Found.{IsAtom, IsFound, IsReached};

use crate::atoms::{atoms_together, copied, single};
use crate::found::{Found, Reach, Within};
use crate::letters::sum_of_letters;
use crate::words::{inverse, product, quotient};
use alg_build::{Builder, Memory};
use alg_expr::ExprId;
use alg_group_spelling::spelling::{spell_atom, spell_one};
use alg_group_stack::Home;

/// What is found of the literal 1.
pub fn found_one(cx: &Builder, h: Home) -> Found
    requires home { IsHome cx.now h }
    ensures { IsFound cx.now.theory.declarations cx.now h (Lit h.sort 1) result }
{
    let spelled = spell_one(cx, h);
    Found {
        atoms: Vec::new(cx.alloc()),
        reach: Reach::Within(Within {
            weight: 0,
            count: 0,
            spelled,
        }),
    }
}

/// What is found of an atom.
pub fn found_atom(cx: &mut Builder, h: Home, e: ExprId) -> Result<Found, Memory>
    requires home { IsHome cx.old h }
    requires stands { Stands cx.old h.sort e (tree_of cx.old.trees e) }
    requires atom { IsAtom cx.old.theory.declarations (tree_of cx.old.trees e) }
    ensures found { IfOk result (λ f. IsFound cx.old.theory.declarations cx.new h (tree_of cx.old.trees e) f) }
    ensures grows { Grows cx.old cx.new }
{
    let atoms = single(cx, e)?;
    let spelled = spell_atom(cx, h, e)?;
    Ok(Found {
        atoms,
        reach: Reach::Within(Within {
            weight: 1,
            count: 1,
            spelled,
        }),
    })
}

fn reach_of_product(
    cx: &mut Builder,
    h: Home,
    a: ExprId,
    x: &Reach,
    b: ExprId,
    y: &Reach,
) -> Result<Reach, Memory>
    requires home { IsHome cx.old h }
    requires left { IsReached cx.old.theory.declarations cx.old h (tree_of cx.old.trees a) x.now }
    requires right { IsReached cx.old.theory.declarations cx.old h (tree_of cx.old.trees b) y.now }
    ensures reached { IfOk result (λ r. IsReached cx.old.theory.declarations cx.new h (product_tree h.sort (tree_of cx.old.trees a) (tree_of cx.old.trees b)) r) }
    ensures grows { Grows cx.old cx.new }
{
    match sum_of_letters(x, y) {
        None => Ok(Reach::Out),
        Some(weight) => match x {
            Reach::Out => Ok(Reach::Out),
            Reach::Large(_) => Ok(Reach::Large(weight)),
            Reach::Within(v) => match y {
                Reach::Out => Ok(Reach::Out),
                Reach::Large(_) => Ok(Reach::Large(weight)),
                Reach::Within(w) => product(cx, h, a, v, b, w, weight),
            },
        },
    }
}

/// What is found of a product.
pub fn found_product(
    cx: &mut Builder,
    h: Home,
    a: ExprId,
    x: &Found,
    b: ExprId,
    y: &Found,
) -> Result<Found, Memory>
    requires home { IsHome cx.old h }
    requires left { IsFound cx.old.theory.declarations cx.old h (tree_of cx.old.trees a) x.now }
    requires right { IsFound cx.old.theory.declarations cx.old h (tree_of cx.old.trees b) y.now }
    ensures found { IfOk result (λ f. IsFound cx.old.theory.declarations cx.new h (product_tree h.sort (tree_of cx.old.trees a) (tree_of cx.old.trees b)) f) }
    ensures grows { Grows cx.old cx.new }
{
    let atoms = atoms_together(cx, &y.atoms, &x.atoms)?;
    let reach = reach_of_product(cx, h, a, &x.reach, b, &y.reach)?;
    Ok(Found { atoms, reach })
}

fn reach_of_quotient(
    cx: &mut Builder,
    h: Home,
    a: ExprId,
    x: &Reach,
    b: ExprId,
    y: &Reach,
) -> Result<Reach, Memory>
    requires home { IsHome cx.old h }
    requires left_stands { Stands cx.old h.sort a (tree_of cx.old.trees a) }
    requires right_stands { Stands cx.old h.sort b (tree_of cx.old.trees b) }
    requires left { IsReached cx.old.theory.declarations cx.old h (tree_of cx.old.trees a) x.now }
    requires right { IsReached cx.old.theory.declarations cx.old h (tree_of cx.old.trees b) y.now }
    ensures reached { IfOk result (λ r. IsReached cx.old.theory.declarations cx.new h (quotient_tree h.sort (tree_of cx.old.trees a) (tree_of cx.old.trees b)) r) }
    ensures grows { Grows cx.old cx.new }
{
    match sum_of_letters(x, y) {
        None => Ok(Reach::Out),
        Some(weight) => match x {
            Reach::Out => Ok(Reach::Out),
            Reach::Large(_) => Ok(Reach::Large(weight)),
            Reach::Within(v) => match y {
                Reach::Out => Ok(Reach::Out),
                Reach::Large(_) => Ok(Reach::Large(weight)),
                Reach::Within(w) => quotient(cx, h, a, v, b, w, weight),
            },
        },
    }
}

/// What is found of a quotient.
pub fn found_quotient(
    cx: &mut Builder,
    h: Home,
    a: ExprId,
    x: &Found,
    b: ExprId,
    y: &Found,
) -> Result<Found, Memory>
    requires home { IsHome cx.old h }
    requires left_stands { Stands cx.old h.sort a (tree_of cx.old.trees a) }
    requires right_stands { Stands cx.old h.sort b (tree_of cx.old.trees b) }
    requires left { IsFound cx.old.theory.declarations cx.old h (tree_of cx.old.trees a) x.now }
    requires right { IsFound cx.old.theory.declarations cx.old h (tree_of cx.old.trees b) y.now }
    ensures found { IfOk result (λ f. IsFound cx.old.theory.declarations cx.new h (quotient_tree h.sort (tree_of cx.old.trees a) (tree_of cx.old.trees b)) f) }
    ensures grows { Grows cx.old cx.new }
{
    let atoms = atoms_together(cx, &y.atoms, &x.atoms)?;
    let reach = reach_of_quotient(cx, h, a, &x.reach, b, &y.reach)?;
    Ok(Found { atoms, reach })
}

fn reach_of_inverse(cx: &mut Builder, h: Home, a: ExprId, x: &Reach) -> Result<Reach, Memory>
    requires home { IsHome cx.old h }
    requires part { IsReached cx.old.theory.declarations cx.old h (tree_of cx.old.trees a) x.now }
    ensures reached { IfOk result (λ r. IsReached cx.old.theory.declarations cx.new h (inverse_tree h.sort (tree_of cx.old.trees a)) r) }
    ensures grows { Grows cx.old cx.new }
{
    match x {
        Reach::Out => Ok(Reach::Out),
        Reach::Large(weight) => Ok(Reach::Large(*weight)),
        Reach::Within(w) => inverse(cx, h, a, w),
    }
}

/// What is found of an inverse.
pub fn found_inverse(cx: &mut Builder, h: Home, a: ExprId, x: &Found) -> Result<Found, Memory>
    requires home { IsHome cx.old h }
    requires part { IsFound cx.old.theory.declarations cx.old h (tree_of cx.old.trees a) x.now }
    ensures found { IfOk result (λ f. IsFound cx.old.theory.declarations cx.new h (inverse_tree h.sort (tree_of cx.old.trees a)) f) }
    ensures grows { Grows cx.old cx.new }
{
    let atoms = copied(cx, &x.atoms)?;
    let reach = reach_of_inverse(cx, h, a, &x.reach)?;
    Ok(Found { atoms, reach })
}
