ghost use Rattle.std.specs.Prelude.{◌≡◌, ◌++◌, ◌∷◌, true, codes, decimal, OnOk};
ghost use Rattle.alg_terms.specs.Symbols.{is_built_in};
ghost use Rattle.alg_certificate.specs.Words.{sort_bytes, symbol_bytes, relation_bytes, bridge_bytes, head_bytes, numeral_bytes};
ghost use Rattle.alg_certificate.specs.Spelling.{bytes, spell_items, numbers, numerals, IsInRange, SortFits, SymbolFits, HeadFits};

use alg_expr::{Memory, Rel, Sort, Sym};
use alg_proof::{BridgeKind, ComputeHead};
use itoa::Buffer;

pub(crate) fn put(text: &mut Vec<u8>, piece: &[u8]) -> Result<(), Memory>
    ensures { OnOk result (text.new.items ≡ text.old.items ++ piece.now) }
{
    text.extend_from_slice(piece)?;
    Ok(())
}

pub(crate) fn put_number(text: &mut Vec<u8>, number: u128) -> Result<(), Memory>
    ensures { OnOk result (text.new.items ≡ text.old.items ++ decimal number) }
{
    let mut buffer = Buffer::new();
    put(text, buffer.format(number).as_bytes())
}

// The number of a sort, a symbol or a variable.
pub(crate) fn put_index(text: &mut Vec<u8>, index: u32) -> Result<(), Memory>
    ensures written { OnOk result (text.new.items ≡ text.old.items ++ decimal index) }
    ensures in_range { OnOk result (IsInRange index) }
{
    put_number(text, index as u128)
}

fn put_numeral(text: &mut Vec<u8>, numeral: i128) -> Result<(), Memory>
    ensures { OnOk result (text.new.items ≡ text.old.items ++ numeral_bytes numeral) }
{
    let mut buffer = Buffer::new();
    put(text, buffer.format(numeral).as_bytes())
}

pub(crate) fn put_sort(text: &mut Vec<u8>, sort: Sort) -> Result<(), Memory>
    ensures written { OnOk result (text.new.items ≡ text.old.items ++ sort_bytes sort) }
    ensures in_range { OnOk result (SortFits sort) }
{
    match sort {
        Sort::Nat => put(text, b"N"),
        Sort::Int => put(text, b"Z"),
        Sort::Rat => put(text, b"Q"),
        Sort::Decl(k) => {
            put(text, b"t")?;
            put_index(text, k)
        }
    }
}

fn built_in_word(sym: Sym) -> &'static [u8]
    ensures { is_built_in sym ≡ true → result.now ≡ symbol_bytes sym }
{
    match sym {
        Sym::Add => b"add",
        Sym::Mul => b"mul",
        Sym::Neg => b"neg",
        Sym::Sub => b"sub",
        Sym::Inv => b"inv",
        Sym::Div => b"div",
        Sym::Npow => b"npow",
        Sym::Zpow => b"zpow",
        Sym::Nsmul => b"nsmul",
        Sym::Zsmul => b"zsmul",
        Sym::Abs => b"abs",
        Sym::Min => b"min",
        Sym::Max => b"max",
        Sym::NatSub => b"natsub",
        Sym::IDiv => b"idiv",
        Sym::Mod => b"mod",
        Sym::Gcd => b"gcd",
        Sym::Lcm => b"lcm",
        Sym::Fact => b"fact",
        Sym::Choose => b"choose",
        Sym::Fib => b"fib",
        Sym::Apply(_) => b"",
    }
}

fn put_built_in(text: &mut Vec<u8>, sym: Sym) -> Result<(), Memory>
    requires { is_built_in sym ≡ true }
    ensures written { OnOk result (text.new.items ≡ text.old.items ++ symbol_bytes sym) }
    ensures in_range { OnOk result (SymbolFits sym) }
{
    put(text, built_in_word(sym))
}

pub(crate) fn put_symbol(text: &mut Vec<u8>, sym: Sym) -> Result<(), Memory>
    ensures written { OnOk result (text.new.items ≡ text.old.items ++ symbol_bytes sym) }
    ensures in_range { OnOk result (SymbolFits sym) }
{
    match sym {
        Sym::Apply(k) => {
            put(text, b"@")?;
            put_index(text, k)
        }
        _ => put_built_in(text, sym),
    }
}

pub(crate) fn relation_word(rel: Rel) -> &'static [u8]
    ensures { result.now ≡ relation_bytes rel }
{
    match rel {
        Rel::Eq => b"eq",
        Rel::Ne => b"ne",
        Rel::Lt => b"lt",
        Rel::Le => b"le",
        Rel::Dvd => b"dvd",
    }
}

pub(crate) fn bridge_word(kind: BridgeKind) -> &'static [u8]
    ensures { result.now ≡ bridge_bytes kind }
{
    match kind {
        BridgeKind::Smul => b"smul",
        BridgeKind::Zsmul => b"zsmul",
        BridgeKind::Zpow => b"zpow",
    }
}

pub(crate) fn put_head(text: &mut Vec<u8>, head: ComputeHead) -> Result<(), Memory>
    ensures written { OnOk result (text.new.items ≡ text.old.items ++ head_bytes head) }
    ensures in_range { OnOk result (HeadFits head) }
{
    match head {
        ComputeHead::Named(sym) => put_symbol(text, sym),
        ComputeHead::Dvd => put(text, b"dvd"),
    }
}

// The numbers, each behind a blank.
pub(crate) fn put_numbers(text: &mut Vec<u8>, ns: &[u128]) -> Result<(), Memory>
    ensures { OnOk result (text.new.items ≡ text.old.items ++ bytes (spell_items (numbers ns.now))) }
{
    let mut left = ns;
    'numbers: while let Some((number, rest)) = left.split_first() {
        put(text, b" ")?;
        put_number(text, *number)?;
        left = rest;
    }
    Ok(())
}

// The numerals, each behind a blank.
pub(crate) fn put_numerals(text: &mut Vec<u8>, xs: &[i128]) -> Result<(), Memory>
    ensures { OnOk result (text.new.items ≡ text.old.items ++ bytes (spell_items (numerals xs.now))) }
{
    let mut left = xs;
    'numerals: while let Some((numeral, rest)) = left.split_first() {
        put(text, b" ")?;
        put_numeral(text, *numeral)?;
        left = rest;
    }
    Ok(())
}
