//! What is found of a symbol over parts.
ghost use Rattle.std.specs.Prelude.{◌≡◌, ◌≢◌, ◌||◌, Bool, IfOk, length, false, pos};
ghost use Rattle.std.specs.List.{list_any};
ghost use Rattle.alg_terms.specs.declared.symbols.Sym.{Sym as SymKind};
ghost use Rattle.alg_terms.specs.Tree.{App, of_list};
ghost use Rattle.alg_expr.specs.Ids.{tree_of};
ghost use Rattle.alg_law.specs.Having.{has_class};
ghost use Rattle.alg_build.specs.Book.{Grows};
ghost use Rattle.alg_build.specs.Rewriting.{Turns};
ghost use Rattle.alg_values.specs.Arithmetic.{arithmetic_of, whole_number};
ghost use Rattle.alg_values.specs.Values.{value, is_past};
ghost use Rattle.alg_values.specs.Functions.{is_named};
ghost use Rattle.alg_values.specs.Normal.{normals};
ghost use Rattle.alg_values.specs.Setting.{setting};
ghost use Rattle.alg_values.specs.declared.value.Value.TheVariants.{Num};
ghost use Rattle.alg_exts.specs.Covers.{covered_by};
ghost use Rattle.alg_values.specs.Numerals.{signed_tree};
ghost use Rattle.alg_evaluation.specs.Found.{IsFound, worth_of};
ghost use Rattle.alg_evaluation.specs.Applied.{IsApplied, IsNumbered};

use crate::found::{Found, Kind};
use crate::gathering::{have_past, numbers, numerals, shown};
use crate::head::Head;
use crate::naming::by_extension;
use alg_arithmetic::{evaluated, shown as shown_numeral};
use alg_build::{Builder, Rewriting, then, under};
use alg_expr::Memory;
use alg_exts::NumExt;
use alg_num::Frac;
use alg_values::{Value, arithmetic, is_named};

/// The tree with the numerals of its parts, where these have values.
pub fn with_shown_parts(cx: &mut Builder, head: Head, parts: &[Found]) -> Result<Rewriting, Memory>
    requires applied { (covers : SymKind → Bool) × IsApplied covers cx.old head parts.now }
    ensures turns { IfOk result (λ r. (covers : SymKind → Bool) → (a : IsApplied covers cx.old head parts.now) → Turns cx.new head.sort r (App head.sym head.sort (of_list a.trees)) (App head.sym head.sort (normals (setting cx.old.theory.declarations covers) (of_list a.trees)))) }
    ensures grows { Grows cx.old cx.new }
{
    let turned = shown(cx.alloc(), parts)?;
    let r = under(cx, head.expr, head.sym, &turned)?;
    Ok(r)
}

// the numeral of an operation on numbers
fn numeral(
    cx: &mut Builder,
    head: Head,
    parts: &[Found],
    ps: &[Frac],
    z: &Frac,
) -> Result<Rewriting, Memory>
    requires numbered { (covers : SymKind → Bool) × IsNumbered covers cx.old head parts.now ps.now }
    requires value { arithmetic_of (has_class cx.old.theory.declarations) head.sym head.sort ps.now ≡ Num z.now }
    ensures turns { IfOk result (λ r. (covers : SymKind → Bool) → (a : IsApplied covers cx.old head parts.now) → Turns cx.new head.sort r (App head.sym head.sort (of_list a.trees)) (signed_tree head.sort z.now)) }
    ensures grows { Grows cx.old cx.new }
{
    let turned = numerals(cx.alloc(), parts)?;
    let over = under(cx, head.expr, head.sym, &turned)?;
    let line = evaluated(cx, head.sym, head.sort, ps, z)?;
    let r = then(cx, over, line)?;
    Ok(r)
}

// an operation that has this value
fn valued(
    cx: &mut Builder,
    head: Head,
    parts: &[Found],
    ps: &[Frac],
    z: Frac,
) -> Result<Found, Memory>
    requires numbered { (covers : SymKind → Bool) × IsNumbered covers cx.old head parts.now ps.now }
    requires unnamed { is_named head.sym ≡ false }
    requires value { arithmetic_of (has_class cx.old.theory.declarations) head.sym head.sort ps.now ≡ Num z }
    ensures found { IfOk result (λ f. (covers : SymKind → Bool) → (n : IsNumbered covers cx.old head parts.now ps.now) → IsFound covers cx.new (App head.sym head.sort (of_list n.applied.trees)) f) }
    ensures grows { Grows cx.old cx.new }
{
    let by = numeral(cx, head, parts, ps, &z)?;
    let last = shown_numeral(cx, head.sort, z)?;
    let shown = then(cx, by, last)?;
    Ok(Found {
        expr: head.expr,
        kind: Kind::Num,
        value: z,
        by,
        shown,
        past: have_past(parts),
    })
}

fn is_past(kind: Kind) -> bool
    ensures { result ≡ is_past (worth_of kind (whole_number (pos 0))) }
{
    match kind {
        Kind::Num => false,
        Kind::Past => true,
        Kind::Without => false,
    }
}

// whether a tree of this kind over these parts has a node that is past the range
fn is_past_within(kind: Kind, parts: &[Found]) -> bool
    ensures { result ≡ (is_past (worth_of kind (whole_number (pos 0))) || list_any (λ f. f.past) parts.now) }
{
    is_past(kind) || have_past(parts)
}

/// What is found of a symbol over parts that has no value.
pub fn unvalued(cx: &mut Builder, head: Head, parts: &[Found], kind: Kind) -> Result<Found, Memory>
    requires applied { (covers : SymKind → Bool) × IsApplied covers cx.old head parts.now }
    requires valueless { kind ≢ Kind.Num }
    ensures found { IfOk result (λ f. (covers : SymKind → Bool) → (a : IsApplied covers cx.old head parts.now) → worth_of kind (whole_number (pos 0)) ≡ value (setting cx.old.theory.declarations covers) (App head.sym head.sort (of_list a.trees)) → IsFound covers cx.new (App head.sym head.sort (of_list a.trees)) f) }
    ensures grows { Grows cx.old cx.new }
{
    let shown = with_shown_parts(cx, head, parts)?;
    Ok(Found {
        expr: head.expr,
        kind,
        value: Frac::whole(0),
        by: shown,
        shown,
        past: is_past_within(kind, parts),
    })
}

// what is found of an operation on numbers
fn operation(cx: &mut Builder, head: Head, parts: &[Found], ps: &[Frac]) -> Result<Found, Memory>
    requires numbered { (covers : SymKind → Bool) × IsNumbered covers cx.old head parts.now ps.now }
    requires unnamed { is_named head.sym ≡ false }
    ensures found { IfOk result (λ f. (covers : SymKind → Bool) → (n : IsNumbered covers cx.old head parts.now ps.now) → IsFound covers cx.new (App head.sym head.sort (of_list n.applied.trees)) f) }
    ensures grows { Grows cx.old cx.new }
{
    match arithmetic(cx.base(), head.sym, head.sort, ps) {
        Value::Num(z) => valued(cx, head, parts, ps, z),
        Value::Past => {
            let f = unvalued(cx, head, parts, Kind::Past)?;
            Ok(f)
        }
        Value::Without => {
            let f = unvalued(cx, head, parts, Kind::Without)?;
            Ok(f)
        }
    }
}

// what is found of a symbol over numbers
fn numbered(
    cx: &mut Builder,
    head: Head,
    parts: &[Found],
    ps: &[Frac],
    exts: &[Box<dyn NumExt>],
    on: &[bool],
) -> Result<Found, Memory>
    requires even { length on.now ≡ length exts.now }
    requires numbered { IsNumbered (covered_by (λ x f. covered x f) exts.now on.now) cx.old head parts.now ps.now }
    ensures found { IfOk result (λ f. IsFound (covered_by (λ x f. covered x f) exts.now on.now) cx.new (tree_of cx.old.trees head.expr) f) }
    ensures grows { Grows cx.old cx.new }
{
    if is_named(head.sym) {
        return by_extension(cx, head, parts, ps, exts, on);
    }
    let f = operation(cx, head, parts, ps)?;
    Ok(f)
}

/// What is found of a symbol over parts.
pub fn applied(
    cx: &mut Builder,
    head: Head,
    parts: &[Found],
    exts: &[Box<dyn NumExt>],
    on: &[bool],
) -> Result<Found, Memory>
    requires even { length on.now ≡ length exts.now }
    requires applied { IsApplied (covered_by (λ x f. covered x f) exts.now on.now) cx.old head parts.now }
    ensures found { IfOk result (λ f. IsFound (covered_by (λ x f. covered x f) exts.now on.now) cx.new (tree_of cx.old.trees head.expr) f) }
    ensures grows { Grows cx.old cx.new }
{
    match numbers(cx.alloc(), parts)? {
        Some(ps) => numbered(cx, head, parts, ps.as_slice(), exts, on),
        None => {
            let f = unvalued(cx, head, parts, Kind::Without)?;
            Ok(f)
        }
    }
}
