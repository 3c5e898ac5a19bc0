ghost use Rattle.std.specs.Prelude.{◌≡◌, ◌≤◌, ◌^◌, length, IfOk, Ok};
ghost use Rattle.alg_expr.specs.Arena.{Extends};
ghost use Rattle.alg_law.specs.declared.marks.Mark.TheVariants.{Good};
ghost use Rattle.alg_proof.specs.Lines.{IsLineIn};
ghost use Rattle.alg_proof.specs.Steps.{Step, step_mark};
ghost use Rattle.alg_certificate.specs.Spelling.{HasSpelling, step_bytes};
ghost use Rattle.alg_certificate_lines.specs.Kinds.{Spells};
ghost use Rattle.alg_certificate_lines.specs.Steps.{step_read, GivesLine};

use crate::faults::LineFault;
use crate::functions::{read_compute, read_cong};
use crate::kinds::{Kind, cut_head};
use crate::numbers::{
    read_hypothesis, read_product, read_relation, read_subst, read_sum, read_symm, read_trans,
};
use crate::one_tree::{read_bridge, read_refl};
use crate::rows::read_row;
use alg_expr::Arena;
use alg_law::Base;
use alg_proof::Line;

fn read_line(arena: &mut Arena, base: &Base, kind: Kind, text: &[u8]) -> Result<Line, LineFault>
    ensures keeps { Extends arena.old arena.new }
    ensures here { IfOk result (λ x. IsLineIn arena.new x) }
    ensures gives { (l : Step) → Spells kind text.now l → GivesLine arena.new (step_read base.now l) result }
{
    match kind {
        Kind::Refl => read_refl(arena, base, text),
        Kind::Symm => read_symm(text),
        Kind::Trans => read_trans(text),
        Kind::Cong => read_cong(arena.alloc(), base, text),
        Kind::Subst => read_subst(text),
        Kind::Law => read_row(arena, base, false, text),
        Kind::Lemma => read_row(arena, base, true, text),
        Kind::Hyp => read_hypothesis(text),
        Kind::Rest => Ok(Line::Rest),
        Kind::LitAdd => read_sum(base, text),
        Kind::LitMul => read_product(base, text),
        Kind::LitRel => read_relation(base, text),
        Kind::Bridge => read_bridge(arena, base, text),
        Kind::Compute => read_compute(arena.alloc(), base, text),
    }
}

/// Reads the text of a proof line, as `CertReader` gives it, into the arena, by the first look at a line: at the
/// sorts, symbols and trees that it names itself. Variables and declared functions have the sorts that the base gives
/// them. The first cause is looked for in the whole line before the next one: a number that the base hasn't, sorts
/// that don't fit, a class that is missing. Numbers that stand alone are no trees here. What `write_line` wrote of a
/// line whose own sorts, symbols and trees are well sorted is read as that line. The arena only grows, also before a
/// fault.
pub fn build_line(arena: &mut Arena, base: &Base, text: &[u8]) -> Result<Line, LineFault>
    ensures keeps { Extends arena.old arena.new }
    ensures here { IfOk result (λ x. IsLineIn arena.new x) }
    ensures gives { (l : Step) → HasSpelling l → step_bytes l ≡ text.now → GivesLine arena.new (step_read base.now l) result }
    ensures back { (l : Step) → length base.now ≤ 2 ^ 32 → step_mark base.now l ≡ Good → HasSpelling l → step_bytes l ≡ text.now → GivesLine arena.new (Ok l) result }
{
    match cut_head(text) {
        Some((kind, rest)) => read_line(arena, base, kind, rest),
        None => Err(LineFault::BadName),
    }
}
