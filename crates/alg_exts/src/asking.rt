ghost use Rattle.std.specs.Prelude.{◌≡◌, length, None, if◌then◌else◌};
ghost use Rattle.alg_terms.specs.declared.sorts.Sort.{Sort as SortKind};
ghost use Rattle.alg_expr.specs.Ids.{tree_of};
ghost use Rattle.alg_law.specs.Having.{has_class};
ghost use Rattle.alg_lemma.specs.Library.{HoldsLibrary};
ghost use Rattle.alg_build.specs.Book.{Grows};
ghost use Rattle.alg_values.specs.declared.value.Value.TheVariants.{Without};
ghost use Rattle.alg_exts.specs.Covers.{covered_by};
ghost use Rattle.alg_exts.specs.Valuing.{IsCalled, IsOver, GivesValue, value_over, fractions_of};
ghost use Rattle.alg_exts.specs.Signing.{IsAsked, IsSignedOver, GivesSign, sign_over, kinds_of};

use crate::num_ext::{NumExt, NumFault, Valued};
use crate::sign_ext::{SignExt, Signed};
use alg_build::Builder;
use alg_expr::{ExprId, Memory, Sym};

fn is_covering(ext: &Box<dyn NumExt>, sym: Sym) -> bool
    ensures { result ≡ covered ext.now sym }
{
    ext.covers(sym)
}

fn ask_value(
    ext: &Box<dyn NumExt>,
    cx: &mut Builder,
    e: ExprId,
    args: &[Valued],
) -> Result<Option<Valued>, NumFault>
    requires called { IsCalled cx.old (λ f. covered ext.now f) e args.now }
    requires lemmas { HoldsLibrary cx.old.theory.lemmas }
    ensures gives { GivesValue cx.new e result (value_over (has_class cx.old.theory.declarations) (tree_of cx.old.trees e) (fractions_of args.now)) }
    ensures grows { Grows cx.old cx.new }
{
    ext.eval(cx, e, args)
}

/// The value that the first extension finds that is on and covers the symbol, or none where no extension does.
pub fn value_by(
    exts: &[Box<dyn NumExt>],
    on: &[bool],
    cx: &mut Builder,
    sym: Sym,
    e: ExprId,
    args: &[Valued],
) -> Result<Option<Valued>, NumFault>
    requires even { length on.now ≡ length exts.now }
    requires over { (s : SortKind) × IsOver cx.old e sym s args.now }
    requires lemmas { HoldsLibrary cx.old.theory.lemmas }
    ensures gives { GivesValue cx.new e result (if covered_by (λ x f. covered x f) exts.now on.now sym then value_over (has_class cx.old.theory.declarations) (tree_of cx.old.trees e) (fractions_of args.now) else Without) }
    ensures grows { Grows cx.old cx.new }
{
    let mut i = 0;
    for ext in exts {
        if on[i] && is_covering(ext, sym) {
            return ask_value(ext, cx, e, args);
        }
        i += 1;
    }
    Ok(None)
}

fn is_handling(ext: &Box<dyn SignExt>, sym: Sym) -> bool
    ensures { result ≡ handled ext.now sym }
{
    ext.handles(sym)
}

fn ask_sign(
    ext: &Box<dyn SignExt>,
    cx: &mut Builder,
    e: ExprId,
    parts: &[Signed],
) -> Result<Option<Signed>, Memory>
    requires asked { IsAsked cx.old (λ f. handled ext.now f) e parts.now }
    requires lemmas { HoldsLibrary cx.old.theory.lemmas }
    ensures gives { GivesSign cx.new e result (sign_over (has_class cx.old.theory.declarations) (tree_of cx.old.trees e) (kinds_of parts.now)) }
    ensures grows { Grows cx.old cx.new }
{
    ext.sign(cx, e, parts)
}

/// The sign that the first extension finds that is on and handles the symbol, or none where no extension does.
pub fn sign_by(
    exts: &[Box<dyn SignExt>],
    on: &[bool],
    cx: &mut Builder,
    sym: Sym,
    e: ExprId,
    parts: &[Signed],
) -> Result<Option<Signed>, Memory>
    requires even { length on.now ≡ length exts.now }
    requires over { (s : SortKind) × IsSignedOver cx.old e sym s parts.now }
    requires lemmas { HoldsLibrary cx.old.theory.lemmas }
    ensures gives { GivesSign cx.new e result (if covered_by (λ x f. handled x f) exts.now on.now sym then sign_over (has_class cx.old.theory.declarations) (tree_of cx.old.trees e) (kinds_of parts.now) else None) }
    ensures grows { Grows cx.old cx.new }
{
    let mut i = 0;
    for ext in exts {
        if on[i] && is_handling(ext, sym) {
            return ask_sign(ext, cx, e, parts);
        }
        i += 1;
    }
    Ok(None)
}
