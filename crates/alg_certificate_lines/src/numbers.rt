ghost use Rattle.std.specs.Prelude.{◌≡◌, ℕ, List, option_map};
ghost use Rattle.alg_terms.specs.declared.relations.Rel.{Rel as Rels};
ghost use Rattle.alg_terms.specs.Tree.{Tree};
ghost use Rattle.alg_proof.specs.Steps.{Symm, Hyp, LitAdd, LitMul, LitRel};
ghost use Rattle.alg_certificate_lines.specs.Following.{one_number, two_numbers, three_numbers};
ghost use Rattle.alg_certificate_lines.specs.Steps.{GivesLine};
ghost use Rattle.alg_certificate_lines.specs.Texts.{over_number, over_pair, over_triple, sort_there, literals_there, over_literals, relation_cut, over_relation};

use crate::faults::LineFault;
use crate::items::{next_word, one_number, three_numbers, two_numbers, word_and_two};
use crate::known::has_sort;
use crate::words::{relation_named, sort_named};
use alg_expr::{Rel, Sort};
use alg_law::Base;
use alg_proof::Line;

pub(crate) fn read_symm(text: &[u8]) -> Result<Line, LineFault>
    ensures { (new : List Tree) → GivesLine new (over_number Symm (one_number text.now)) result }
{
    match one_number(text) {
        Some(i) => Ok(Line::Symm(i)),
        None => Err(LineFault::BadName),
    }
}

pub(crate) fn read_hypothesis(text: &[u8]) -> Result<Line, LineFault>
    ensures { (new : List Tree) → GivesLine new (over_number Hyp (one_number text.now)) result }
{
    match one_number(text) {
        Some(n) => Ok(Line::Hyp(n)),
        None => Err(LineFault::BadName),
    }
}

pub(crate) fn read_trans(text: &[u8]) -> Result<Line, LineFault>
    ensures { (new : List Tree) → GivesLine new (over_pair (two_numbers text.now)) result }
{
    match two_numbers(text) {
        Some((i, j)) => Ok(Line::Trans(i, j)),
        None => Err(LineFault::BadName),
    }
}

pub(crate) fn read_subst(text: &[u8]) -> Result<Line, LineFault>
    ensures { (new : List Tree) → GivesLine new (over_triple (three_numbers text.now)) result }
{
    match three_numbers(text) {
        Some((i, j, k)) => Ok(Line::Subst(i, j, k)),
        None => Err(LineFault::BadName),
    }
}

// The sort that the word names, where the base has it.
pub(crate) fn sort_there(base: &Base, word: &[u8]) -> Option<Sort>
    ensures { result ≡ sort_there base.now word.now }
{
    if has_sort(base, word) {
        sort_named(word)
    } else {
        None
    }
}

// A sort and two numbers.
fn read_literals(base: &Base, text: &[u8]) -> Option<(Sort, u128, u128)>
    ensures { result ≡ literals_there base.now text.now }
{
    let (word, first, second) = word_and_two(text)?;
    let sort = sort_there(base, word)?;
    Some((sort, first, second))
}

pub(crate) fn read_sum(base: &Base, text: &[u8]) -> Result<Line, LineFault>
    ensures { (new : List Tree) → GivesLine new (over_literals LitAdd (literals_there base.now text.now)) result }
{
    match read_literals(base, text) {
        Some((sort, m, n)) => Ok(Line::LitAdd(sort, m, n)),
        None => Err(LineFault::BadName),
    }
}

pub(crate) fn read_product(base: &Base, text: &[u8]) -> Result<Line, LineFault>
    ensures { (new : List Tree) → GivesLine new (over_literals LitMul (literals_there base.now text.now)) result }
{
    match read_literals(base, text) {
        Some((sort, m, n)) => Ok(Line::LitMul(sort, m, n)),
        None => Err(LineFault::BadName),
    }
}

fn read_related(base: &Base, rel: Rel, text: &[u8]) -> Result<Line, LineFault>
    ensures { (new : List Tree) → GivesLine new (over_literals (LitRel rel) (literals_there base.now text.now)) result }
{
    match read_literals(base, text) {
        Some((sort, m, n)) => Ok(Line::LitRel(rel, sort, m, n)),
        None => Err(LineFault::BadName),
    }
}

fn cut_relation(text: &[u8]) -> Option<(Rel, &[u8])>
    ensures { option_map {U = Rels × List ℕ} (λ x. (x.0, x.1.now)) result ≡ relation_cut text.now }
{
    let (word, rest) = next_word(text)?;
    let rel = relation_named(word)?;
    Some((rel, rest))
}

pub(crate) fn read_relation(base: &Base, text: &[u8]) -> Result<Line, LineFault>
    ensures { (new : List Tree) → GivesLine new (over_relation base.now (relation_cut text.now)) result }
{
    match cut_relation(text) {
        Some((rel, rest)) => read_related(base, rel, rest),
        None => Err(LineFault::BadName),
    }
}
