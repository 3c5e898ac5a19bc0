ghost use Rattle.std.specs.Prelude.{◌≡◌, ◌||◌, ◌+◌, ◌≤◌, ◌^◌, ◌∷◌, [], ℕ, ◌<◌, List, false, get_or, nat_eq, if◌then◌else◌, ◌++◌, IfOk, length, map};
ghost use Rattle.alg_law.specs.declared.patterns.Pat.{Pat as Node};
ghost use Rattle.alg_law.specs.LawRows.{pattern_of, row_of};
ghost use Rattle.alg_law.specs.Patterns.{occurs_in, occurs_in_any};
ghost use Rattle.alg_law.specs.Rows.{letters_of};
ghost use Rattle.alg_kernel.specs.Letters.{occurs_early};

use alg_expr::Memory;
use alg_law::{Law, Pat, PatStmt};
use smallvec::SmallVec;
use std::alloc::Global;

/// The letters of a row, in their order.
pub(crate) fn letters_of(alloc: Global, row: &Law) -> Result<SmallVec<u8, 8>, Memory>
    ensures { IfOk result (λ v. v.items ≡ letters_of (row_of row.now)) }
{
    let all: [u8; 8] = [0, 1, 2, 3, 4, 5, 6, 7];
    let mut flags: [bool; 8] = [false; 8];
    flag(&mut flags, row);
    let mut found: SmallVec<u8, 8> = SmallVec::new(alloc);
    for letter in all {
        push_if(&mut found, letter, flags[letter as usize])?;
    }
    Ok(found)
}

// adds the letter where it is there
fn push_if(found: &mut SmallVec<u8, 8>, letter: u8, there: bool) -> Result<(), Memory>
    ensures { IfOk result (λ _. found.new.items ≡ (if there then found.old.items ++ letter ∷ [] else found.old.items)) }
{
    if there {
        found.push(letter)?;
    }
    Ok(())
}

// sets the flags of the letters that occur in the conclusion or a premise
fn flag(flags: &mut [bool], row: &Law)
    ensures { (k : ℕ) → k < length flags.old → get_or flags.new k false ≡ (get_or flags.old k false || occurs_in_any k (pattern_of row.now.conclusion ∷ map pattern_of row.now.premises.now)) }
{
    flag_sides(flags, &row.conclusion);
    for premise in row.premises {
        flag_sides(flags, premise);
    }
}

// sets the flags of the letters of both sides of the pattern
fn flag_sides(flags: &mut [bool], pattern: &PatStmt)
    ensures { (k : ℕ) → k < length flags.old → get_or flags.new k false ≡ (get_or flags.old k false || occurs_in k (pattern_of pattern.now)) }
{
    let mut due: usize = 2;
    for node in pattern.nodes {
        if due == 0 {
            return;
        }
        due = flag_node(flags, due, *node);
    }
}

// One more node: it begins a pattern that was due, and a symbol's arguments are due after it. Gives how many patterns
// are still due.
fn flag_node(flags: &mut [bool], due: usize, node: Pat) -> usize
    requires some { 0 < due }
    requires few { due < 2 ^ 62 }
    ensures due { result ≤ due + 1 }
    ensures flags { (k : ℕ) (ns : List Node) → k < length flags.old → (get_or flags.new k false || occurs_early k result ns) ≡ (get_or flags.old k false || occurs_early k due (node ∷ ns)) }
{
    match node {
        Pat::Letter(letter) => {
            flag_letter(flags, letter);
            due - 1
        }
        Pat::Lit { .. } => due - 1,
        Pat::App { sym, .. } => due - 1 + sym.places().len(),
    }
}

fn flag_letter(flags: &mut [bool], letter: u8)
    ensures { (k : ℕ) → k < length flags.old → get_or flags.new k false ≡ (nat_eq k letter || get_or flags.old k false) }
{
    let at = letter as usize;
    if at < flags.len() {
        flags[at] = true;
    }
}
