ghost use Rattle.std.specs.Prelude.{◌≡◌, ◌++◌, ◌∷◌, ◌≤◌, [], All, OnOk, OnErr, codes, decimal};
ghost use Rattle.alg_expr.specs.Ids.{IsIn, tree_of, trees_at, statement_of, IsStatementIn};
ghost use Rattle.alg_proof.specs.Lines.{step_of, IsLineIn};
ghost use Rattle.alg_proof.specs.Names.{IsName};
ghost use Rattle.alg_certificate.specs.Numbers.{max_number};
ghost use Rattle.alg_certificate.specs.Words.{sort_bytes, symbol_bytes, relation_bytes, bridge_bytes, head_bytes};
ghost use Rattle.alg_certificate.specs.Spelling.{bytes, spell_items, word, tree, semicolon, numbers, numerals, trees_before, step_bytes, given_bytes, goal_bytes, SortFits, SymbolFits, HeadFits};
ghost use Rattle.alg_certificate.specs.InRange.{TreeInRange, StepInRange, StatementInRange};

use crate::trees::put_trees;
use crate::writing::{
    bridge_word, put, put_head, put_number, put_numbers, put_numerals, put_sort, put_symbol,
    relation_word,
};
use alg_expr::{Arena, ExprId, Memory, Rel, Sort, Stmt, Sym};
use alg_proof::{BridgeKind, ComputeHead, Line, RowName};
use itoa::Buffer;

// A word, and numbers after it.
fn put_rule(text: &mut Vec<u8>, word: &[u8], ns: &[u128]) -> Result<(), Memory>
    ensures { OnOk result (text.new.items ≡ text.old.items ++ (word.now ++ bytes (spell_items (numbers ns.now)))) }
{
    put(text, word)?;
    put_numbers(text, ns)?;
    Ok(())
}

// A word behind a blank, and a sort behind another.
fn put_with_sort(text: &mut Vec<u8>, piece: &[u8], sort: Sort) -> Result<(), Memory>
    ensures written { OnOk result (text.new.items ≡ text.old.items ++ (32 ∷ (piece.now ++ (32 ∷ sort_bytes sort)))) }
    ensures in_range { OnOk result (SortFits sort) }
{
    put(text, b" ")?;
    put(text, piece)?;
    put(text, b" ")?;
    put_sort(text, sort)?;
    Ok(())
}

fn put_refl(arena: &Arena, id: ExprId, text: &mut Vec<u8>) -> Result<(), Memory>
    requires { IsIn arena.now id }
    ensures written { OnOk result (text.new.items ≡ text.old.items ++ (codes "refl" ++ bytes (spell_items (tree (tree_of arena.now id) ∷ [])))) }
    ensures in_range { OnOk result (TreeInRange (tree_of arena.now id)) }
{
    put(text, b"refl")?;
    put_trees(arena, &[id], text)?;
    Ok(())
}

fn put_cong(text: &mut Vec<u8>, sym: Sym, ns: &[u128]) -> Result<(), Memory>
    ensures written { OnOk result (text.new.items ≡ text.old.items ++ (codes "cong" ++ bytes (spell_items (word (symbol_bytes sym) ∷ numbers ns.now)))) }
    ensures in_range { OnOk result (SymbolFits sym) }
{
    put(text, b"cong ")?;
    put_symbol(text, sym)?;
    put_numbers(text, ns)?;
    Ok(())
}

// The end of a line for a law or lemma, behind its sort.
fn put_instance(
    arena: &Arena,
    ids: &[ExprId],
    from: &[u128],
    text: &mut Vec<u8>,
) -> Result<(), Memory>
    requires { All (IsIn arena.now) ids.now }
    ensures written { OnOk result (text.new.items ≡ text.old.items ++ bytes (spell_items (trees_before (trees_at arena.now ids.now) (semicolon ∷ numbers from.now)))) }
    ensures in_range { OnOk result (All TreeInRange (trees_at arena.now ids.now)) }
{
    put_trees(arena, ids, text)?;
    put(text, b" ;")?;
    put_numbers(text, from)?;
    Ok(())
}

fn put_literals(
    text: &mut Vec<u8>,
    head: &[u8],
    sort: Sort,
    first: u128,
    second: u128,
) -> Result<(), Memory>
    ensures written { OnOk result (text.new.items ≡ text.old.items ++ (head.now ++ bytes (spell_items (word (sort_bytes sort) ∷ numbers (first ∷ second ∷ []))))) }
    ensures in_range { OnOk result (SortFits sort) }
{
    put(text, head)?;
    put(text, b" ")?;
    put_sort(text, sort)?;
    put_numbers(text, &[first, second])?;
    Ok(())
}

fn put_bridge(
    arena: &Arena,
    kind: BridgeKind,
    number: u128,
    id: ExprId,
    text: &mut Vec<u8>,
) -> Result<(), Memory>
    requires { IsIn arena.now id }
    ensures written { OnOk result (text.new.items ≡ text.old.items ++ (codes "bridge" ++ bytes (spell_items (word (bridge_bytes kind) ∷ word (decimal number) ∷ tree (tree_of arena.now id) ∷ [])))) }
    ensures in_range { OnOk result (TreeInRange (tree_of arena.now id)) }
{
    put(text, b"bridge ")?;
    put(text, bridge_word(kind))?;
    put(text, b" ")?;
    put_number(text, number)?;
    put_trees(arena, &[id], text)?;
    Ok(())
}

fn put_compute(text: &mut Vec<u8>, head: ComputeHead, sort: Sort, xs: &[i128]) -> Result<(), Memory>
    ensures written { OnOk result (text.new.items ≡ text.old.items ++ (codes "compute" ++ bytes (spell_items (word (head_bytes head) ∷ word (sort_bytes sort) ∷ numerals xs.now)))) }
    ensures in_range { OnOk result (HeadFits head × SortFits sort) }
{
    put(text, b"compute ")?;
    put_head(text, head)?;
    put(text, b" ")?;
    put_sort(text, sort)?;
    put_numerals(text, xs)?;
    Ok(())
}

// A line for a law or lemma.
fn put_row(
    arena: &Arena,
    head: &[u8],
    name: &RowName,
    sort: Sort,
    ids: &[ExprId],
    from: &[u128],
    text: &mut Vec<u8>,
) -> Result<(), Memory>
    requires { All (IsIn arena.now) ids.now }
    ensures written { OnOk result (text.new.items ≡ text.old.items ++ (head.now ++ bytes (spell_items (word name.now ∷ word (sort_bytes sort) ∷ trees_before (trees_at arena.now ids.now) (semicolon ∷ numbers from.now))))) }
    ensures in_range { OnOk result (IsName name.now × SortFits sort × All TreeInRange (trees_at arena.now ids.now)) }
{
    put(text, head)?;
    put_with_sort(text, name.as_str().as_bytes(), sort)?;
    put_instance(arena, ids, from, text)?;
    Ok(())
}

fn put_relation(
    text: &mut Vec<u8>,
    rel: Rel,
    sort: Sort,
    first: u128,
    second: u128,
) -> Result<(), Memory>
    ensures written { OnOk result (text.new.items ≡ text.old.items ++ (codes "rel" ++ bytes (spell_items (word (relation_bytes rel) ∷ word (sort_bytes sort) ∷ numbers (first ∷ second ∷ []))))) }
    ensures in_range { OnOk result (SortFits sort) }
{
    put(text, b"rel")?;
    put_with_sort(text, relation_word(rel), sort)?;
    put_numbers(text, &[first, second])?;
    Ok(())
}

fn put_given(arena: &Arena, stmt: Stmt, text: &mut Vec<u8>) -> Result<(), Memory>
    requires { IsStatementIn arena.now stmt }
    ensures written { OnOk result (text.new.items ≡ text.old.items ++ given_bytes (statement_of arena.now stmt)) }
    ensures in_range { OnOk result (StatementInRange (statement_of arena.now stmt)) }
{
    put(text, b"given")?;
    put_with_sort(text, relation_word(stmt.rel), stmt.sort)?;
    put_trees(arena, &[stmt.lhs, stmt.rhs], text)?;
    Ok(())
}

fn put_line(arena: &Arena, line: &Line, text: &mut Vec<u8>) -> Result<(), Memory>
    requires { IsLineIn arena.now line.now }
    ensures written { OnOk result (text.new.items ≡ text.old.items ++ step_bytes (step_of arena.now line.now)) }
    ensures in_range { OnOk result (StepInRange (step_of arena.now line.now)) }
{
    match line {
        Line::Refl(id) => put_refl(arena, *id, text),
        Line::Symm(i) => put_rule(text, b"symm", &[*i]),
        Line::Trans(i, j) => put_rule(text, b"trans", &[*i, *j]),
        Line::Cong(sym, from) => put_cong(text, *sym, from.as_slice()),
        Line::Subst(i, j, k) => put_rule(text, b"subst", &[*i, *j, *k]),
        Line::Law(name, sort, ids, from) => put_row(
            arena,
            b"law",
            name,
            *sort,
            ids.as_slice(),
            from.as_slice(),
            text,
        ),
        Line::Lemma(name, sort, ids, from) => put_row(
            arena,
            b"lemma",
            name,
            *sort,
            ids.as_slice(),
            from.as_slice(),
            text,
        ),
        Line::Hyp(n) => put_rule(text, b"hyp", &[*n]),
        Line::Rest => put(text, b"rest"),
        Line::LitAdd(sort, m, n) => put_literals(text, b"add", *sort, *m, *n),
        Line::LitMul(sort, m, n) => put_literals(text, b"mul", *sort, *m, *n),
        Line::LitRel(rel, sort, m, n) => put_relation(text, *rel, *sort, *m, *n),
        Line::Bridge(kind, n, id) => put_bridge(arena, *kind, *n, *id, text),
        Line::Compute(head, sort, xs) => put_compute(text, *head, *sort, xs.as_slice()),
    }
}

/// Adds the text of a proof line, without its line feed. Its name, its literals and the numbers of its sorts, symbols
/// and variables are as certificates have them. Beyond that, they have only numbers up to 2^127 - 1, at least one
/// argument in a node and one item behind `cong` and `compute`. After Memory `out` is as it was.
pub fn write_line(arena: &Arena, line: &Line, out: &mut Vec<u8>) -> Result<(), Memory>
    requires { IsLineIn arena.now line.now }
    ensures written { OnOk result (out.new.items ≡ out.old.items ++ step_bytes (step_of arena.now line.now)) }
    ensures in_range { OnOk result (StepInRange (step_of arena.now line.now)) }
    ensures memory { OnErr result (out.new.items ≡ out.old.items) }
{
    let mut text = Vec::new(arena.alloc());
    put_line(arena, line, &mut text)?;
    out.extend_from_slice(&text)?;
    Ok(())
}

/// Adds the text of a given statement's line, without its line feed. After Memory `out` is as it was.
pub fn write_given(arena: &Arena, s: Stmt, out: &mut Vec<u8>) -> Result<(), Memory>
    requires { IsStatementIn arena.now s }
    ensures written { OnOk result (out.new.items ≡ out.old.items ++ given_bytes (statement_of arena.now s)) }
    ensures in_range { OnOk result (StatementInRange (statement_of arena.now s)) }
    ensures memory { OnErr result (out.new.items ≡ out.old.items) }
{
    let mut text = Vec::new(arena.alloc());
    put_given(arena, s, &mut text)?;
    out.extend_from_slice(&text)?;
    Ok(())
}

/// Adds the text of the line that begins an entry, without its line feed: the number is from 1 to 2^127 - 1. After
/// Memory `out` is as it was.
pub fn write_goal(number: u128, out: &mut Vec<u8>) -> Result<(), Memory>
    requires positive { 1 ≤ number }
    requires in_range { number ≤ max_number }
    ensures written { OnOk result (out.new.items ≡ out.old.items ++ goal_bytes number) }
    ensures memory { OnErr result (out.new.items ≡ out.old.items) }
{
    let mut buffer = Buffer::new();
    let digits = buffer.format(number).as_bytes();
    let before = out.len();
    out.extend_from_slice(b"goal ")?;
    match out.extend_from_slice(digits) {
        Ok(()) => Ok(()),
        Err(_) => {
            out.truncate(before);
            Err(Memory)
        }
    }
}
