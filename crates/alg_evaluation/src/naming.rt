//! What is found of a named function over numbers, by the extensions.
ghost use Rattle.std.specs.Prelude.{◌≡◌, [], ◌∷◌, ◌++◌, Bool, IfOk, length, true};
ghost use Rattle.alg_terms.specs.declared.symbols.Sym.{Sym as SymKind};
ghost use Rattle.alg_terms.specs.Tree.{App, of_list};
ghost use Rattle.alg_expr.specs.Ids.{tree_of};
ghost use Rattle.alg_build.specs.Book.{Grows};
ghost use Rattle.alg_values.specs.Functions.{is_named};
ghost use Rattle.alg_values.specs.Setting.{setting};
ghost use Rattle.alg_values.specs.Values.{value};
ghost use Rattle.alg_values.specs.declared.value.Value.TheVariants.{Num};
ghost use Rattle.alg_exts.specs.Covers.{covered_by};
ghost use Rattle.alg_exts.specs.Valuing.{IsOver, IsValued, fractions_of};
ghost use Rattle.alg_evaluation.specs.Found.{IsFound};
ghost use Rattle.alg_evaluation.specs.Applied.{IsApplied, IsNumbered};
ghost use Rattle.alg_evaluation.specs.Parts.{valued_with};

use crate::found::{Found, Kind};
use crate::gathering::{have_past, shown};
use crate::head::Head;
use crate::nodes::unvalued;
use alg_arithmetic::hidden;
use alg_build::over_parts::lines_of;
use alg_build::{Builder, by_line, then};
use alg_expr::Memory;
use alg_exts::{NumExt, NumFault, Valued, value_by};
use alg_num::Frac;
use std::alloc::Global;

fn push(args: &mut Vec<Valued>, v: Valued) -> Result<(), Memory>
    ensures { IfOk result (λ _. args.new.items ≡ args.old.items ++ v ∷ []) }
{
    match args.push(v) {
        Ok(()) => Ok(()),
        Err(_) => Err(Memory),
    }
}

// the parts with their values and these lines
fn joined(alloc: Global, parts: &[Found], lines: &[usize]) -> Result<Vec<Valued>, Memory>
    requires { length lines.now ≡ length parts.now }
    ensures { IfOk result (λ v. v.items ≡ valued_with parts.now lines.now) }
{
    let mut args: Vec<Valued> = Vec::new(alloc);
    let mut i = 0;
    for f in parts {
        let line = lines[i];
        push(
            &mut args,
            Valued {
                expr: f.expr,
                value: f.value,
                line,
            },
        )?;
        i += 1;
    }
    Ok(args)
}

// the parts with their values, and lines for them
fn evaluated_parts(
    cx: &mut Builder,
    head: Head,
    parts: &[Found],
    ps: &[Frac],
) -> Result<Vec<Valued>, Memory>
    requires numbered { (covers : SymKind → Bool) × IsNumbered covers cx.old head parts.now ps.now }
    ensures over { IfOk result (λ v. IsOver cx.new head.expr head.sym head.sort v.items) }
    ensures numbers { IfOk result (λ v. fractions_of v.items ≡ ps.now) }
    ensures grows { Grows cx.old cx.new }
{
    let turned = shown(cx.alloc(), parts)?;
    let lines = lines_of(cx, &turned)?;
    let args = joined(cx.alloc(), parts, lines.as_slice())?;
    Ok(args)
}

// a named function that has this value
fn named(cx: &mut Builder, head: Head, parts: &[Found], v: Valued) -> Result<Found, Memory>
    requires applied { (covers : SymKind → Bool) × IsApplied covers cx.old head parts.now }
    requires same { v.expr ≡ head.expr }
    requires valued { IsValued cx.old v }
    requires has { (covers : SymKind → Bool) × (a : IsApplied covers cx.old head parts.now) × (value (setting cx.old.theory.declarations covers) (App head.sym head.sort (of_list a.trees)) ≡ Num v.value) }
    ensures found { IfOk result (λ f. (covers : SymKind → Bool) → (a : IsApplied covers cx.old head parts.now) → value (setting cx.old.theory.declarations covers) (App head.sym head.sort (of_list a.trees)) ≡ Num v.value → IsFound covers cx.new (App head.sym head.sort (of_list a.trees)) f) }
    ensures grows { Grows cx.old cx.new }
{
    let shown = by_line(cx, v.line);
    let last = hidden(cx, head.sort, v.value)?;
    let by = then(cx, shown, last)?;
    Ok(Found {
        expr: head.expr,
        kind: Kind::Num,
        value: v.value,
        by,
        shown,
        past: have_past(parts),
    })
}

/// What is found of a named function over numbers.
pub fn by_extension(
    cx: &mut Builder,
    head: Head,
    parts: &[Found],
    ps: &[Frac],
    exts: &[Box<dyn NumExt>],
    on: &[bool],
) -> Result<Found, Memory>
    requires even { length on.now ≡ length exts.now }
    requires numbered { IsNumbered (covered_by (λ x f. covered x f) exts.now on.now) cx.old head parts.now ps.now }
    requires named { is_named head.sym ≡ true }
    ensures found { IfOk result (λ f. IsFound (covered_by (λ x f. covered x f) exts.now on.now) cx.new (tree_of cx.old.trees head.expr) f) }
    ensures grows { Grows cx.old cx.new }
{
    let args = evaluated_parts(cx, head, parts, ps)?;
    match value_by(exts, on, cx, head.sym, head.expr, args.as_slice()) {
        Ok(Some(v)) => {
            let f = named(cx, head, parts, v)?;
            Ok(f)
        }
        Ok(None) => {
            let f = unvalued(cx, head, parts, Kind::Without)?;
            Ok(f)
        }
        Err(NumFault::Range) => {
            let f = unvalued(cx, head, parts, Kind::Past)?;
            Ok(f)
        }
        Err(NumFault::Memory) => Err(Memory),
    }
}
