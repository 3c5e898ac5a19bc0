ghost use Rattle.std.specs.Prelude.{◌≡◌, IfOk, ◌∷◌, ◌++◌, ℕ, List, All, Ok, option_map};
ghost use Rattle.alg_terms.specs.Tree.{Tree, of_list};
ghost use Rattle.alg_terms.specs.declared.sorts.Sort.{Sort as Sorts};
ghost use Rattle.alg_expr.specs.Arena.{Extends};
ghost use Rattle.alg_expr.specs.Ids.{IsIn, trees_at};
ghost use Rattle.alg_proof.specs.Lines.{IsLineIn};
ghost use Rattle.alg_proof.specs.Names.{IsName};
ghost use Rattle.alg_certificate.specs.Words.{sort_bytes};
ghost use Rattle.alg_certificate.specs.Spelling.{IsInRange, TreeFits, SortFits, bytes, spell_all, spell_items, trees_before, word, semicolon, numbers};
ghost use Rattle.alg_certificate_lines.specs.Steps.{step_read, over_trees, trees_read, GivesLine};
ghost use Rattle.alg_certificate_lines.specs.Texts.{row_cut, row_step, IsListOf};

use crate::classes::read_good;
use crate::faults::LineFault;
use crate::functions::cut_sort;
use crate::items::{behind_semicolon, next_word};
use crate::lists::read_numbers;
use alg_certificate::words::is_name;
use alg_expr::{Arena, ExprId, Items, Sort};
use alg_law::Base;
use alg_proof::{Line, RowName};
use std::alloc::Global;
use std::str;

// The name, the sort, the text of the trees, and that of the premises.
fn cut_row<'a>(base: &Base, text: &'a [u8]) -> Option<(&'a [u8], Sort, &'a [u8], &'a [u8])>
    ensures { option_map {U = List ℕ × Sorts × List ℕ × List ℕ} (λ x. (x.0.now, x.1, x.2.now, x.3.now)) result ≡ row_cut base.now text.now }
{
    let (name, rest) = next_word(text)?;
    let (sort, trees) = cut_sort(base, rest)?;
    let from = behind_semicolon(trees)?;
    Some((name, sort, trees, from))
}

fn read_name(alloc: Global, word: &[u8]) -> Result<RowName, LineFault>
    ensures { IsName word.now → IsListOf word.now result }
{
    if !is_name(word) {
        return Err(LineFault::BadName);
    }
    let Ok(text) = str::from_utf8(word) else {
        return Err(LineFault::BadName);
    };
    match RowName::new(alloc, text) {
        Ok(name) => Ok(name),
        Err(_) => Err(LineFault::Memory),
    }
}

fn row_line(lemma: bool, name: RowName, sort: Sort, ids: Items<ExprId>, from: Items<u128>) -> Line
    ensures { (new : List Tree) → All (IsIn new) ids → GivesLine new (Ok (row_step lemma name sort (trees_at new ids) from)) (Ok result) }
{
    if lemma {
        Line::Lemma(name, sort, ids, from)
    } else {
        Line::Law(name, sort, ids, from)
    }
}

fn row_over(
    alloc: Global,
    lemma: bool,
    word: &[u8],
    sort: Sort,
    ids: Items<ExprId>,
    text: &[u8],
) -> Result<Line, LineFault>
    ensures here { (new : List Tree) → All (IsIn new) ids → IfOk result (λ x. IsLineIn new x) }
    ensures gives { (new : List Tree) (is : List ℕ) → All (IsIn new) ids → IsName word.now → All IsInRange is → bytes (spell_items (numbers is)) ≡ text.now → GivesLine new (Ok (row_step lemma word.now sort (trees_at new ids) is)) result }
{
    match read_name(alloc, word) {
        Ok(name) => match read_numbers(alloc, text) {
            Ok(from) => Ok(row_line(lemma, name, sort, ids, from)),
            Err(fault) => Err(fault),
        },
        Err(fault) => Err(fault),
    }
}

fn read_instance(
    arena: &mut Arena,
    base: &Base,
    lemma: bool,
    word: &[u8],
    sort: Sort,
    trees: &[u8],
    from: &[u8],
) -> Result<Line, LineFault>
    ensures keeps { Extends arena.old arena.new }
    ensures here { IfOk result (λ x. IsLineIn arena.new x) }
    ensures gives { (ts : List Tree) (is : List ℕ) → IsName word.now → All TreeFits ts → All IsInRange is → bytes (spell_items (trees_before ts (semicolon ∷ numbers is))) ≡ trees.now → bytes (spell_items (numbers is)) ≡ from.now → GivesLine arena.new (over_trees (λ us. row_step lemma word.now sort us is) (trees_read base.now (of_list ts))) result }
{
    let alloc = arena.alloc();
    match read_good(arena, base, trees) {
        Ok(ids) => row_over(alloc, lemma, word, sort, ids, from),
        Err(fault) => Err(fault),
    }
}

pub(crate) fn read_row(
    arena: &mut Arena,
    base: &Base,
    lemma: bool,
    text: &[u8],
) -> Result<Line, LineFault>
    ensures keeps { Extends arena.old arena.new }
    ensures here { IfOk result (λ x. IsLineIn arena.new x) }
    ensures gives { (n : List ℕ) (s : Sorts) (ts : List Tree) (is : List ℕ) → IsName n → SortFits s → All TreeFits ts → All IsInRange is → bytes (spell_items (word n ∷ word (sort_bytes s) ∷ trees_before ts (semicolon ∷ numbers is))) ≡ text.now → GivesLine arena.new (step_read base.now (row_step lemma n s ts is)) result }
{
    match cut_row(base, text) {
        Some((name, sort, trees, from)) => {
            read_instance(arena, base, lemma, name, sort, trees, from)
        }
        None => Err(LineFault::BadName),
    }
}
