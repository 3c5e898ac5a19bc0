//! What is found of powers.
ghost use Rattle.std.specs.Prelude.{◌≡◌, Some, None, IfOk};
ghost use Rattle.alg_terms.specs.declared.sorts.Sort.TheVariants.{Nat, Int};
ghost use Rattle.alg_terms.specs.Tree.{Lit, sort_of_tree};
ghost use Rattle.alg_expr.specs.Ids.{tree_of};
ghost use Rattle.alg_build.specs.Book.{Grows};
ghost use Rattle.alg_build.specs.Rewriting.{Stands};
ghost use Rattle.alg_rows.specs.Operations.{integer_power_tree, power_tree};
ghost use Rattle.alg_group_stack.specs.Words.{IsHome};
ghost use Rattle.alg_group_found.specs.Exponents.{HasInteger, IsExponent, exponent, past};
ghost use Rattle.alg_group_found.specs.Found.{IsFound, IsReached, IsUnraised};

use crate::atoms::{copied, single};
use crate::found::{Exponent, Found, Reach};
use crate::letters::letters_of_power;
use crate::parts::found_atom;
use crate::words::{Raising, integer_power, power};
use alg_build::{Builder, Memory};
use alg_expr::ExprId;
use alg_group_stack::Home;

// a power whose exponent has no number is an atom, unless the exponent is past the range
fn found_unraised(cx: &mut Builder, h: Home, e: ExprId, is_past: bool) -> Result<Found, Memory>
    requires home { IsHome cx.old h }
    requires stands { Stands cx.old h.sort e (tree_of cx.old.trees e) }
    requires unraised { IsUnraised cx.old.theory.declarations (tree_of cx.old.trees e) is_past }
    ensures found { IfOk result (λ f. IsFound cx.old.theory.declarations cx.new h (tree_of cx.old.trees e) f) }
    ensures grows { Grows cx.old cx.new }
{
    if is_past {
        let atoms = single(cx, e)?;
        return Ok(Found {
            atoms,
            reach: Reach::Out,
        });
    }
    found_atom(cx, h, e)
}

fn reach_of_power(
    cx: &mut Builder,
    h: Home,
    a: ExprId,
    x: &Reach,
    k: Raising,
) -> Result<Reach, Memory>
    requires home { IsHome cx.old h }
    requires part { IsReached cx.old.theory.declarations cx.old h (tree_of cx.old.trees a) x.now }
    requires natural { sort_of_tree (tree_of cx.old.trees k.exponent) ≡ Nat }
    requires number { exponent cx.old.theory.declarations (tree_of cx.old.trees k.exponent) ≡ Some k.number }
    requires exponent { HasInteger cx.old (past cx.old.theory.declarations (tree_of cx.old.trees k.exponent)) (tree_of cx.old.trees k.exponent) k.by k.number }
    ensures reached { IfOk result (λ r. IsReached cx.old.theory.declarations cx.new h (power_tree h.sort (tree_of cx.old.trees a) (tree_of cx.old.trees k.exponent)) r) }
    ensures grows { Grows cx.old cx.new }
{
    match letters_of_power(&k.number, x) {
        None => Ok(Reach::Out),
        Some(weight) => match x {
            Reach::Out => Ok(Reach::Out),
            Reach::Large(_) => Ok(Reach::Large(weight)),
            Reach::Within(w) => power(cx, h, a, w, k, weight),
        },
    }
}

fn reach_of_integer_power(
    cx: &mut Builder,
    h: Home,
    a: ExprId,
    x: &Reach,
    k: Raising,
) -> Result<Reach, Memory>
    requires home { IsHome cx.old h }
    requires part { IsReached cx.old.theory.declarations cx.old h (tree_of cx.old.trees a) x.now }
    requires integral { sort_of_tree (tree_of cx.old.trees k.exponent) ≡ Int }
    requires number { exponent cx.old.theory.declarations (tree_of cx.old.trees k.exponent) ≡ Some k.number }
    requires exponent { HasInteger cx.old (past cx.old.theory.declarations (tree_of cx.old.trees k.exponent)) (tree_of cx.old.trees k.exponent) k.by k.number }
    ensures reached { IfOk result (λ r. IsReached cx.old.theory.declarations cx.new h (integer_power_tree h.sort (tree_of cx.old.trees a) (tree_of cx.old.trees k.exponent)) r) }
    ensures grows { Grows cx.old cx.new }
{
    match letters_of_power(&k.number, x) {
        None => Ok(Reach::Out),
        Some(weight) => match x {
            Reach::Out => Ok(Reach::Out),
            Reach::Large(_) => Ok(Reach::Large(weight)),
            Reach::Within(w) => integer_power(cx, h, a, w, k, weight),
        },
    }
}

/// What is found of a power by an exponent of ℕ: e is the whole tree, k the exponent.
pub fn found_power(
    cx: &mut Builder,
    h: Home,
    e: ExprId,
    a: ExprId,
    x: &Found,
    k: ExprId,
    y: Exponent,
) -> Result<Found, Memory>
    requires home { IsHome cx.old h }
    requires stands { Stands cx.old h.sort e (power_tree h.sort (tree_of cx.old.trees a) (tree_of cx.old.trees k)) }
    requires part { IsFound cx.old.theory.declarations cx.old h (tree_of cx.old.trees a) x.now }
    requires natural { sort_of_tree (tree_of cx.old.trees k) ≡ Nat }
    requires exponent { IsExponent cx.old.theory.declarations cx.old (tree_of cx.old.trees k) y }
    ensures found { IfOk result (λ f. IsFound cx.old.theory.declarations cx.new h (power_tree h.sort (tree_of cx.old.trees a) (tree_of cx.old.trees k)) f) }
    ensures grows { Grows cx.old cx.new }
{
    match y.value {
        None => {
            let f = found_unraised(cx, h, e, y.past)?;
            Ok(f)
        }
        Some(number) => {
            let atoms = copied(cx, &x.atoms)?;
            let raising = Raising {
                exponent: k,
                number,
                by: y.by,
            };
            let reach = reach_of_power(cx, h, a, &x.reach, raising)?;
            Ok(Found { atoms, reach })
        }
    }
}

/// What is found of a power by an exponent of ℤ: e is the whole tree, k the exponent.
pub fn found_integer_power(
    cx: &mut Builder,
    h: Home,
    e: ExprId,
    a: ExprId,
    x: &Found,
    k: ExprId,
    y: Exponent,
) -> Result<Found, Memory>
    requires home { IsHome cx.old h }
    requires stands { Stands cx.old h.sort e (integer_power_tree h.sort (tree_of cx.old.trees a) (tree_of cx.old.trees k)) }
    requires part { IsFound cx.old.theory.declarations cx.old h (tree_of cx.old.trees a) x.now }
    requires integral { sort_of_tree (tree_of cx.old.trees k) ≡ Int }
    requires exponent { IsExponent cx.old.theory.declarations cx.old (tree_of cx.old.trees k) y }
    ensures found { IfOk result (λ f. IsFound cx.old.theory.declarations cx.new h (integer_power_tree h.sort (tree_of cx.old.trees a) (tree_of cx.old.trees k)) f) }
    ensures grows { Grows cx.old cx.new }
{
    match y.value {
        None => {
            let f = found_unraised(cx, h, e, y.past)?;
            Ok(f)
        }
        Some(number) => {
            let atoms = copied(cx, &x.atoms)?;
            let raising = Raising {
                exponent: k,
                number,
                by: y.by,
            };
            let reach = reach_of_integer_power(cx, h, a, &x.reach, raising)?;
            Ok(Found { atoms, reach })
        }
    }
}
