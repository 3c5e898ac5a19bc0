//! Evaluated parts with the sign of their numeral outside, and values whose sign is inside again.
ghost use Rattle.std.specs.Prelude.{◌≡◌, IfOk, true};
ghost use Rattle.alg_terms.specs.Tree.{sort_of_tree};
ghost use Rattle.alg_expr.specs.Ids.{tree_of, IsIn};
ghost use Rattle.alg_law.specs.declared.classes.Class.TheVariants.{IsStrictOrderedRing};
ghost use Rattle.alg_law.specs.Having.{has_class};
ghost use Rattle.alg_lemma.specs.Library.{HoldsLibrary};
ghost use Rattle.alg_build.specs.Book.{Grows};
ghost use Rattle.alg_build.specs.Rewriting.{Turns};
ghost use Rattle.alg_fractions.specs.Fractions.{HasFraction};
ghost use Rattle.alg_fractions.specs.NumeralTree.{signed_tree};
ghost use Rattle.alg_values.specs.declared.value.Value.TheVariants.{Num};
ghost use Rattle.alg_exts.specs.Valuing.{IsValued, GivesValue};

use alg_build::{Builder, Memory, Rewriting, by_line, line_of, then};
use alg_expr::{ExprId, Sort};
use alg_exts::{NumFault, Valued};
use alg_fractions::{hidden, shown};
use alg_num::Frac;

// the sort has the numeral that the line is on
fn has_numeral(cx: &Builder, sort: Sort, v: &Valued)
    requires valued { IsValued cx.now v.now }
    requires sort { sort_of_tree (tree_of cx.now.trees v.now.expr) ≡ sort }
    requires ordered { has_class cx.now.theory.declarations sort IsStrictOrderedRing ≡ true }
    requires library { HoldsLibrary cx.now.theory.lemmas }
    ensures { HasFraction cx.now sort v.now.value }
{
    // says that the numeral is well sorted
    let _numeral = cx.concluded(v.line);
    // says that a sort with an order and differences has a ring
    let _declarations = cx.base().len();
}

/// `t = p`, where the tree is worth p.
#[tactic(auto, using(crate::proofs::Orders::orders))]
pub(crate) fn operand(cx: &mut Builder, sort: Sort, v: &Valued) -> Result<Rewriting, Memory>
    requires valued { IsValued cx.old v.now }
    requires sort { sort_of_tree (tree_of cx.old.trees v.now.expr) ≡ sort }
    requires ordered { has_class cx.old.theory.declarations sort IsStrictOrderedRing ≡ true }
    requires library { HoldsLibrary cx.old.theory.lemmas }
    ensures turns { IfOk result (λ r. Turns cx.new sort r (tree_of cx.old.trees v.now.expr) (signed_tree sort v.now.value)) }
    ensures has { IfOk result (λ r. HasFraction cx.new sort v.now.value) }
    ensures grows { Grows cx.old cx.new }
{
    has_numeral(cx, sort, v);
    let r = by_line(cx, v.line);
    let s = hidden(cx, sort, v.value)?;
    let q = then(cx, r, s)?;
    Ok(q)
}

/// The value of the tree, which equals it.
#[tactic(auto, using(crate::proofs::Orders::orders))]
pub(crate) fn found(
    cx: &mut Builder,
    e: ExprId,
    sort: Sort,
    r: Rewriting,
    value: Frac,
) -> Result<Option<Valued>, NumFault>
    requires here { IsIn cx.old.trees e }
    requires turns { Turns cx.old sort r (tree_of cx.old.trees e) (signed_tree sort value) }
    requires has { HasFraction cx.old sort value }
    ensures gives { GivesValue cx.new e result (Num value) }
    ensures grows { Grows cx.old cx.new }
{
    let s = shown(cx, sort, value)?;
    let q = then(cx, r, s)?;
    let line = line_of(cx, q)?;
    Ok(Some(Valued {
        expr: e,
        value,
        line,
    }))
}
