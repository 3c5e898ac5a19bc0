ghost use Rattle.std.specs.Prelude.{◌≡◌, IfOk, ◌≤◌, ◌∷◌, [], ℕ, List, All, option_map, decimal};
ghost use Rattle.alg_terms.specs.Tree.{Tree, Cons, Nil};
ghost use Rattle.alg_expr.specs.Arena.{Extends};
ghost use Rattle.alg_expr.specs.Ids.{IsIn, trees_at};
ghost use Rattle.alg_proof.specs.declared.lines.BridgeKind.{BridgeKind as Kinds};
ghost use Rattle.alg_proof.specs.Lines.{IsLineIn};
ghost use Rattle.alg_proof.specs.Steps.{Refl, Bridge};
ghost use Rattle.alg_certificate.specs.Spelling.{TreeFits, bytes, spell_items, tree, word};
ghost use Rattle.alg_certificate.specs.Numbers.{max_number};
ghost use Rattle.alg_certificate.specs.Words.{bridge_bytes};
ghost use Rattle.alg_certificate_lines.specs.Steps.{over_one, over_tree, trees_read, GivesLine};
ghost use Rattle.alg_certificate_lines.specs.Texts.{bridge_cut};

use crate::building::split_ids;
use crate::classes::read_good;
use crate::faults::LineFault;
use crate::items::{next_number, next_word};
use crate::words::bridge_named;
use alg_expr::{Arena, ExprId};
use alg_law::Base;
use alg_proof::{BridgeKind, Line};

fn refl_over(ids: &[ExprId]) -> Result<Line, LineFault>
    ensures here { (new : List Tree) → All (IsIn new) ids.now → IfOk result (λ x. IsLineIn new x) }
    ensures gives { (new : List Tree) → All (IsIn new) ids.now → GivesLine new (over_one Refl (trees_at new ids.now)) result }
{
    let Some((id, rest)) = split_ids(ids) else {
        return Err(LineFault::BadSort);
    };
    if rest.is_empty() {
        Ok(Line::Refl(id))
    } else {
        Err(LineFault::BadSort)
    }
}

pub(crate) fn read_refl(arena: &mut Arena, base: &Base, text: &[u8]) -> Result<Line, LineFault>
    ensures keeps { Extends arena.old arena.new }
    ensures here { IfOk result (λ x. IsLineIn arena.new x) }
    ensures gives { (t : Tree) → TreeFits t → bytes (spell_items (tree t ∷ [])) ≡ text.now → GivesLine arena.new (over_tree Refl (trees_read base.now (Cons t Nil))) result }
{
    match read_good(arena, base, text) {
        Ok(ids) => refl_over(ids.as_slice()),
        Err(fault) => Err(fault),
    }
}

// The bridge, its number, and what follows them.
fn cut_bridge(text: &[u8]) -> Option<(BridgeKind, u128, &[u8])>
    ensures { option_map {U = Kinds × ℕ × List ℕ} (λ x. (x.0, x.1, x.2.now)) result ≡ bridge_cut text.now }
{
    let (word, rest) = next_word(text)?;
    let kind = bridge_named(word)?;
    let (number, rest) = next_number(rest)?;
    Some((kind, number, rest))
}

fn bridge_over(kind: BridgeKind, number: u128, ids: &[ExprId]) -> Result<Line, LineFault>
    ensures here { (new : List Tree) → All (IsIn new) ids.now → IfOk result (λ x. IsLineIn new x) }
    ensures gives { (new : List Tree) → All (IsIn new) ids.now → GivesLine new (over_one (λ u. Bridge kind number u) (trees_at new ids.now)) result }
{
    let Some((id, rest)) = split_ids(ids) else {
        return Err(LineFault::BadSort);
    };
    if rest.is_empty() {
        Ok(Line::Bridge(kind, number, id))
    } else {
        Err(LineFault::BadSort)
    }
}

fn read_bridged(
    arena: &mut Arena,
    base: &Base,
    kind: BridgeKind,
    number: u128,
    text: &[u8],
) -> Result<Line, LineFault>
    ensures keeps { Extends arena.old arena.new }
    ensures here { IfOk result (λ x. IsLineIn arena.new x) }
    ensures gives { (t : Tree) → TreeFits t → bytes (spell_items (tree t ∷ [])) ≡ text.now → GivesLine arena.new (over_tree (λ u. Bridge kind number u) (trees_read base.now (Cons t Nil))) result }
{
    match read_good(arena, base, text) {
        Ok(ids) => bridge_over(kind, number, ids.as_slice()),
        Err(fault) => Err(fault),
    }
}

pub(crate) fn read_bridge(arena: &mut Arena, base: &Base, text: &[u8]) -> Result<Line, LineFault>
    ensures keeps { Extends arena.old arena.new }
    ensures here { IfOk result (λ x. IsLineIn arena.new x) }
    ensures gives { (k : Kinds) (n : ℕ) (t : Tree) → n ≤ max_number → TreeFits t → bytes (spell_items (word (bridge_bytes k) ∷ word (decimal n) ∷ tree t ∷ [])) ≡ text.now → GivesLine arena.new (over_tree (λ u. Bridge k n u) (trees_read base.now (Cons t Nil))) result }
{
    match cut_bridge(text) {
        Some((kind, number, trees)) => read_bridged(arena, base, kind, number, trees),
        None => Err(LineFault::BadName),
    }
}
