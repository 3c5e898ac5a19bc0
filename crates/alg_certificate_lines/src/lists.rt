ghost use Rattle.std.specs.Prelude.{◌≡◌, ◌++◌, ◌∷◌, [], ℕ, ℤ, List, All, unsigned_abs};
ghost use Rattle.alg_certificate.specs.Spelling.{IsInRange, bytes, spell_items, numbers, numerals};
ghost use Rattle.alg_certificate_lines.specs.Texts.{IsListOf, IsKept};

use crate::faults::LineFault;
use crate::items::{next_number, next_numeral};
use alg_expr::Items;
use std::alloc::Global;

// The numbers of the text, each behind a blank.
pub(crate) fn read_numbers(alloc: Global, text: &[u8]) -> Result<Items<u128>, LineFault>
    ensures { (ns : List ℕ) → All IsInRange ns → bytes (spell_items (numbers ns)) ≡ text.now → IsListOf ns result }
{
    let mut found: Vec<u128> = Vec::new(alloc);
    let mut left = text;
    'numbers: while let Some((number, rest)) = next_number(left) {
        match found.push(number) {
            Ok(()) => {}
            Err(_) => return Err(LineFault::Memory),
        }
        left = rest;
    }
    Ok(Items::of(found))
}

fn keep_numeral(found: &mut Vec<i128>, numeral: i128) -> Result<(), LineFault>
    ensures { IsKept result (found.new.items ≡ found.old.items ++ numeral ∷ []) }
{
    match found.push(numeral) {
        Ok(()) => Ok(()),
        Err(_) => Err(LineFault::Memory),
    }
}

// The numerals of the text, each behind a blank.
pub(crate) fn read_numerals(alloc: Global, text: &[u8]) -> Result<Items<i128>, LineFault>
    ensures { (xs : List ℤ) → All (λ x. IsInRange (unsigned_abs x)) xs → bytes (spell_items (numerals xs)) ≡ text.now → IsListOf xs result }
{
    let mut found: Vec<i128> = Vec::new(alloc);
    let mut left = text;
    'numerals: while let Some((numeral, rest)) = next_numeral(left) {
        match keep_numeral(&mut found, numeral) {
            Ok(()) => {}
            Err(fault) => return Err(fault),
        }
        left = rest;
    }
    Ok(Items::of(found))
}
