ghost use Rattle.std.specs.Prelude.{◌≡◌, ◌&&◌, MatchOption, IfOk, ◌<◌, ◌≤◌, ◌^◌, ◌++◌, ◌∷◌, [], ℕ, List, All, OnOk, Option, Some, length, take, drop};
ghost use Rattle.alg_terms.specs.Tree.{Tree, Trees};
ghost use Rattle.alg_certificate.specs.Spelling.{Item, bytes, spell_all, spell_items, TreesFit};
ghost use Rattle.alg_expr.specs.Arena.{Extends};
ghost use Rattle.alg_expr.specs.Ids.{IsIn, tree_of, trees_at};
ghost use Rattle.alg_certificate.specs.Numbers.{max_number};
ghost use Rattle.alg_certificate.specs.Seen.{seen};
ghost use Rattle.alg_certificate.specs.Tokens.{Good};
ghost use Rattle.alg_certificate.specs.Lexed.{tokens};
ghost use Rattle.alg_law.specs.WellSorted.{mark_of};
ghost use Rattle.alg_certificate_lines.specs.Words.{sort_named, symbol_named};
ghost use Rattle.alg_certificate_lines.specs.Known.{variable_sort};
ghost use Rattle.alg_certificate_lines.specs.Typed.{is_sorted, node_of, variable_of_sort};
ghost use Rattle.alg_certificate_lines.specs.Taking.{literal_in, with_tree, opening, closing, taken, all_taken, newest};
ghost use Rattle.alg_certificate_lines.specs.Heads.{head_good};
ghost use Rattle.alg_certificate_lines.specs.Known.{is_good};
ghost use Rattle.alg_certificate_lines.specs.Steps.{all_good};
ghost use Rattle.alg_certificate_lines.specs.Adding.{Makes, Takes, Pushes, MakesAll, ReadsTrees, AreWords};

use crate::faults::LineFault;
use crate::heads::is_good_literal;
use crate::known::{are_known, is_good, variable_sort};
use crate::symbols::symbol_named;
use crate::words::sort_named;
use alg_certificate::tokens::{Token, next_token};
use alg_expr::{Arena, ExprFault, ExprId, Items, Sym};
use alg_law::{Base, Mark, mark_for_head, mark_for_sort};
use alg_proof::value_sort;

// The first id, and the rest.
pub(crate) fn split_ids(ids: &[ExprId]) -> Option<(ExprId, &[ExprId])>
    ensures { MatchOption result (ids.now ≡ []) (λ x. ids.now ≡ x.0 ∷ x.1.now) }
{
    match ids.split_first() {
        Some((first, rest)) => Some((*first, rest)),
        None => None,
    }
}

fn is_sorted(mark: Mark) -> bool
    ensures { result ≡ is_sorted mark }
{
    matches!(mark, Mark::Good | Mark::NoInstance)
}

// The flag stays true only where this holds too.
fn narrow(classed: &mut bool, good: bool)
    ensures { classed.new ≡ (classed.old && good) }
{
    *classed = *classed && good;
}

// The symbol over these trees, where arities and sorts fit. The flag stays true where the symbol has its classes.
fn build_node(
    arena: &mut Arena,
    base: &Base,
    sym: Sym,
    args: &[ExprId],
    classed: &mut bool,
) -> Result<ExprId, LineFault>
    requires { All (IsIn arena.old) args.now }
    ensures keeps { Extends arena.old arena.new }
    ensures makes { Makes arena.new (node_of base.now sym (trees_at arena.old args.now)) result }
    ensures flag { IfOk result (λ e. classed.new ≡ (classed.old && head_good base.now (tree_of arena.new e))) }
{
    let Some(sort) = value_sort(base, arena, sym, args) else {
        return Err(LineFault::BadSort);
    };
    let mark = mark_for_head(base, arena, sym, sort, args);
    if !is_sorted(mark) {
        return Err(LineFault::BadSort);
    }
    narrow(classed, is_good(mark));
    match arena.app(sym, sort, args) {
        Ok(id) => Ok(id),
        Err(ExprFault::Memory) => Err(LineFault::Memory),
        Err(ExprFault::BadArity) => Err(LineFault::BadSort),
        Err(ExprFault::BadSort) => Err(LineFault::BadSort),
    }
}

// The flag stays true where the literal has its class.
fn build_literal(
    arena: &mut Arena,
    base: &Base,
    word: &[u8],
    value: u128,
    classed: &mut bool,
) -> Result<ExprId, LineFault>
    requires { value < 2 ^ 127 }
    ensures keeps { Extends arena.old arena.new }
    ensures makes { Makes arena.new (literal_in (sort_named word.now) value) result }
    ensures flag { IfOk result (λ e. classed.new ≡ (classed.old && is_good (mark_of base.now (tree_of arena.new e)))) }
{
    let Some(sort) = sort_named(word) else {
        return Err(LineFault::BadSort);
    };
    narrow(classed, is_good_literal(base, sort, value));
    match arena.lit(sort, value) {
        Ok(id) => Ok(id),
        Err(_) => Err(LineFault::Memory),
    }
}

// The flag stays true where the base has the variable's sort.
fn build_variable(
    arena: &mut Arena,
    base: &Base,
    number: u128,
    classed: &mut bool,
) -> Result<ExprId, LineFault>
    ensures keeps { Extends arena.old arena.new }
    ensures makes { Makes arena.new (variable_of_sort number (variable_sort base.now number)) result }
    ensures flag { IfOk result (λ e. classed.new ≡ (classed.old && is_good (mark_of base.now (tree_of arena.new e)))) }
{
    let Some(sort) = variable_sort(base, number) else {
        return Err(LineFault::BadSort);
    };
    narrow(classed, is_good(mark_for_sort(base, sort)));
    match arena.var(number as u32, sort) {
        Ok(id) => Ok(id),
        Err(_) => Err(LineFault::Memory),
    }
}

// Keeps what was built behind the others.
fn keep(
    arena: &Arena,
    built: Result<ExprId, LineFault>,
    ids: &mut Vec<ExprId>,
) -> Result<(), LineFault>
    requires { All (IsIn arena.now) ids.old.items }
    ensures takes { (o : Option Tree) (os : List (Sym × ℕ)) → Makes arena.now o built → Takes arena.now ids.new.items os (with_tree (trees_at arena.now ids.old.items) os o) result }
    ensures pushes { Pushes ids.old.items ids.new.items built result }
{
    match built {
        Err(fault) => Err(fault),
        Ok(id) => match ids.push(id) {
            Ok(()) => Ok(()),
            Err(_) => Err(LineFault::Memory),
        },
    }
}

// The ids from this number on.
fn ids_from(ids: &[ExprId], start: usize) -> &[ExprId]
    requires { start ≤ length ids.now }
    ensures { result.now ≡ drop start ids.now }
{
    let (_, rest) = ids.split_at(start);
    rest
}

// Closes the node whose arguments are the trees from this number on. The flag tells whether each tree has all its
// classes, before the call and after it.
fn close_at(
    arena: &mut Arena,
    base: &Base,
    sym: Sym,
    start: usize,
    ids: &mut Vec<ExprId>,
    classed: &mut bool,
) -> Result<(), LineFault>
    requires here { All (IsIn arena.old) ids.old.items }
    requires flag { classed.old ≡ all_good base.now (trees_at arena.old ids.old.items) }
    ensures keeps { Extends arena.old arena.new }
    ensures takes { (os : List (Sym × ℕ)) → Takes arena.new ids.new.items os (closing base.now (trees_at arena.old ids.old.items) ((sym, start) ∷ os)) result }
    ensures flag { IfOk result (λ u. classed.new ≡ all_good base.now (trees_at arena.new ids.new.items)) }
{
    if start > ids.len() {
        return Err(LineFault::BadSort);
    }
    let built = build_node(arena, base, sym, ids_from(ids.as_slice(), start), classed);
    ids.truncate(start);
    keep(arena, built, ids)
}

fn close_node(
    arena: &mut Arena,
    base: &Base,
    ids: &mut Vec<ExprId>,
    opened: &mut Vec<(Sym, usize)>,
    classed: &mut bool,
) -> Result<(), LineFault>
    requires here { All (IsIn arena.old) ids.old.items }
    requires flag { classed.old ≡ all_good base.now (trees_at arena.old ids.old.items) }
    ensures keeps { Extends arena.old arena.new }
    ensures takes { Takes arena.new ids.new.items (newest opened.new.items) (closing base.now (trees_at arena.old ids.old.items) (newest opened.old.items)) result }
    ensures flag { IfOk result (λ u. classed.new ≡ all_good base.now (trees_at arena.new ids.new.items)) }
{
    let Some((sym, start)) = opened.pop() else {
        return Err(LineFault::BadSort);
    };
    close_at(arena, base, sym, start, ids, classed)
}

fn open_node(
    _arena: &Arena,
    word: &[u8],
    ids: &[ExprId],
    opened: &mut Vec<(Sym, usize)>,
) -> Result<(), LineFault>
    requires { All (IsIn _arena.now) ids.now }
    ensures { Takes _arena.now ids.now (newest opened.new.items) (opening (trees_at _arena.now ids.now) (newest opened.old.items) (symbol_named word.now)) result }
{
    let Some(sym) = symbol_named(word) else {
        return Err(LineFault::BadSort);
    };
    match opened.push((sym, ids.len())) {
        Ok(()) => Ok(()),
        Err(_) => Err(LineFault::Memory),
    }
}

// Goes on with a token. The flag tells whether each tree has all its classes, before the call and after it.
fn take_token(
    arena: &mut Arena,
    base: &Base,
    token: Token,
    ids: &mut Vec<ExprId>,
    opened: &mut Vec<(Sym, usize)>,
    classed: &mut bool,
) -> Result<(), LineFault>
    requires here { All (IsIn arena.old) ids.old.items }
    requires flag { classed.old ≡ all_good base.now (trees_at arena.old ids.old.items) }
    requires good { Good (seen token) }
    ensures keeps { Extends arena.old arena.new }
    ensures takes { Takes arena.new ids.new.items (newest opened.new.items) (taken base.now (seen token.entry) (trees_at arena.old ids.old.items) (newest opened.old.items)) result }
    ensures flag { IfOk result (λ u. classed.new ≡ all_good base.now (trees_at arena.new ids.new.items)) }
{
    match token {
        Token::Blank => Ok(()),
        Token::Semi => Ok(()),
        Token::Word(_) => Ok(()),
        Token::Close => close_node(arena, base, ids, opened, classed),
        Token::Open(word) => open_node(arena, word, ids.as_slice(), opened),
        Token::Lit(word, value) => {
            let built = build_literal(arena, base, word, value, classed);
            keep(arena, built, ids)
        }
        Token::Var(number) => {
            let built = build_variable(arena, base, number, classed);
            keep(arena, built, ids)
        }
    }
}

// The trees that the tokens build, and whether each has all its classes.
fn build_trees(
    arena: &mut Arena,
    base: &Base,
    text: &[u8],
) -> Result<(Items<ExprId>, bool), LineFault>
    ensures keeps { Extends arena.old arena.new }
    ensures makes { MakesAll base.now arena.new (all_taken base.now (tokens text.now).0 [] []) result }
{
    let mut ids: Vec<ExprId> = Vec::new(arena.alloc());
    let mut opened: Vec<(Sym, usize)> = Vec::new(arena.alloc());
    let mut classed = true;
    let mut left = text;
    'tokens: while let Some((token, rest)) = next_token(left) {
        match take_token(arena, base, token, &mut ids, &mut opened, &mut classed) {
            Ok(()) => {}
            Err(fault) => return Err(fault),
        }
        left = rest;
    }
    Ok((Items::of(ids), classed))
}

/// Reads trees, each behind a blank, into the arena: with the sorts that the base gives their variables and declared
/// functions. First all names are looked at, then arities and sorts; the flag beside the trees tells whether each has
/// all its classes. The arena only grows, also before a fault. Words and semicolons behind the trees are passed over.
pub fn read_trees(
    arena: &mut Arena,
    base: &Base,
    text: &[u8],
) -> Result<(Items<ExprId>, bool), LineFault>
    ensures keeps { Extends arena.old arena.new }
    ensures here { IfOk result (λ x. All (IsIn arena.new) x.0) }
    ensures flag { IfOk result (λ x. x.1 ≡ all_good base.now (trees_at arena.new x.0)) }
    ensures reads { (ts : Trees) → TreesFit ts → bytes (spell_all ts) ≡ text.now → ReadsTrees base.now arena.new ts result }
    ensures before { (ts : Trees) (is : List Item) → TreesFit ts → AreWords is → bytes (spell_all ts ++ spell_items is) ≡ text.now → ReadsTrees base.now arena.new ts result }
{
    if !are_known(base, text) {
        return Err(LineFault::BadName);
    }
    build_trees(arena, base, text)
}
