ghost use Rattle.std.specs.Prelude.{◌≡◌, ◌∷◌, IfOk, ℕ, ℤ, List, All, Ok, Some, option_map, unsigned_abs};
ghost use Rattle.alg_terms.specs.Tree.{Tree};
ghost use Rattle.alg_terms.specs.declared.sorts.Sort.{Sort as Sorts};
ghost use Rattle.alg_terms.specs.declared.symbols.Sym.{Sym as Symbols};
ghost use Rattle.alg_proof.specs.declared.lines.ComputeHead.{ComputeHead as Heads};
ghost use Rattle.alg_proof.specs.Lines.{IsLineIn};
ghost use Rattle.alg_proof.specs.Steps.{Cong, Compute, compute_mark};
ghost use Rattle.alg_certificate.specs.Words.{symbol_bytes, head_bytes, sort_bytes};
ghost use Rattle.alg_certificate.specs.Spelling.{IsInRange, SymbolFits, HeadFits, SortFits, bytes, spell_items, word, numbers, numerals};
ghost use Rattle.alg_certificate_lines.specs.Known.{has_symbol, is_good};
ghost use Rattle.alg_certificate_lines.specs.Steps.{step_read, has_head, GivesLine};
ghost use Rattle.alg_certificate_lines.specs.Words.{head_named};
ghost use Rattle.alg_certificate_lines.specs.Texts.{symbol_there, symbol_cut, head_there, sort_cut, computation_cut};

use crate::faults::LineFault;
use crate::items::next_word;
use crate::known::{has_symbol, is_function};
use crate::lists::{read_numbers, read_numerals};
use crate::numbers::sort_there;
use crate::symbols::{head_named, symbol_named};
use alg_expr::{Sort, Sym};
use alg_law::Base;
use alg_proof::{ComputeHead, Line};
use std::alloc::Global;

// The symbol that the word names, where the base has it.
fn symbol_there(base: &Base, word: &[u8]) -> Option<Sym>
    ensures { result ≡ symbol_there base.now word.now }
{
    if has_symbol(base, word) {
        symbol_named(word)
    } else {
        None
    }
}

fn cut_symbol<'a>(base: &Base, text: &'a [u8]) -> Option<(Sym, &'a [u8])>
    ensures { option_map {U = Symbols × List ℕ} (λ x. (x.0, x.1.now)) result ≡ symbol_cut base.now text.now }
{
    let (word, rest) = next_word(text)?;
    let sym = symbol_there(base, word)?;
    Some((sym, rest))
}

fn cong_over(alloc: Global, sym: Sym, text: &[u8]) -> Result<Line, LineFault>
    ensures here { (new : List Tree) → IfOk result (λ x. IsLineIn new x) }
    ensures gives { (new : List Tree) (is : List ℕ) → All IsInRange is → bytes (spell_items (numbers is)) ≡ text.now → GivesLine new (Ok (Cong sym is)) result }
{
    match read_numbers(alloc, text) {
        Ok(from) => Ok(Line::Cong(sym, from)),
        Err(fault) => Err(fault),
    }
}

pub(crate) fn read_cong(alloc: Global, base: &Base, text: &[u8]) -> Result<Line, LineFault>
    ensures here { (new : List Tree) → IfOk result (λ x. IsLineIn new x) }
    ensures gives { (new : List Tree) (f : Symbols) (is : List ℕ) → SymbolFits f → All IsInRange is → bytes (spell_items (word (symbol_bytes f) ∷ numbers is)) ≡ text.now → GivesLine new (step_read base.now (Cong f is)) result }
{
    match cut_symbol(base, text) {
        Some((sym, from)) => cong_over(alloc, sym, from),
        None => Err(LineFault::BadName),
    }
}

fn is_head(base: &Base, head: ComputeHead) -> bool
    ensures { result ≡ is_good (compute_mark base.now head) }
{
    match head {
        ComputeHead::Named(sym) => is_function(base, sym),
        ComputeHead::Dvd => true,
    }
}

fn has_head(base: &Base, word: &[u8]) -> bool
    ensures { result ≡ has_head base.now (head_named word.now) }
{
    match head_named(word) {
        Some(head) => is_head(base, head),
        None => false,
    }
}

// The head that the word names, where the base has it.
fn head_there(base: &Base, word: &[u8]) -> Option<ComputeHead>
    ensures { result ≡ head_there base.now word.now }
{
    if has_head(base, word) {
        head_named(word)
    } else {
        None
    }
}

// A sort that the base has, and what follows it.
pub(crate) fn cut_sort<'a>(base: &Base, text: &'a [u8]) -> Option<(Sort, &'a [u8])>
    ensures { option_map {U = Sorts × List ℕ} (λ x. (x.0, x.1.now)) result ≡ sort_cut base.now text.now }
{
    let (word, rest) = next_word(text)?;
    let sort = sort_there(base, word)?;
    Some((sort, rest))
}

fn cut_computation<'a>(base: &Base, text: &'a [u8]) -> Option<(ComputeHead, Sort, &'a [u8])>
    ensures { option_map {U = Heads × Sorts × List ℕ} (λ x. (x.0, x.1, x.2.now)) result ≡ computation_cut base.now text.now }
{
    let (word, rest) = next_word(text)?;
    let head = head_there(base, word)?;
    let (sort, rest) = cut_sort(base, rest)?;
    Some((head, sort, rest))
}

fn compute_over(
    alloc: Global,
    head: ComputeHead,
    sort: Sort,
    text: &[u8],
) -> Result<Line, LineFault>
    ensures here { (new : List Tree) → IfOk result (λ x. IsLineIn new x) }
    ensures gives { (new : List Tree) (xs : List ℤ) → All (λ x. IsInRange (unsigned_abs x)) xs → bytes (spell_items (numerals xs)) ≡ text.now → GivesLine new (Ok (Compute head sort xs)) result }
{
    match read_numerals(alloc, text) {
        Ok(numerals) => Ok(Line::Compute(head, sort, numerals)),
        Err(fault) => Err(fault),
    }
}

pub(crate) fn read_compute(alloc: Global, base: &Base, text: &[u8]) -> Result<Line, LineFault>
    ensures here { (new : List Tree) → IfOk result (λ x. IsLineIn new x) }
    ensures gives { (new : List Tree) (h : Heads) (s : Sorts) (xs : List ℤ) → HeadFits h → SortFits s → All (λ x. IsInRange (unsigned_abs x)) xs → bytes (spell_items (word (head_bytes h) ∷ word (sort_bytes s) ∷ numerals xs)) ≡ text.now → GivesLine new (step_read base.now (Compute h s xs)) result }
{
    match cut_computation(base, text) {
        Some((head, sort, numerals)) => compute_over(alloc, head, sort, numerals),
        None => Err(LineFault::BadName),
    }
}
