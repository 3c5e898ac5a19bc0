ghost use Rattle.std.specs.Prelude.{◌≡◌, Some};
ghost use Rattle.alg_terms.specs.declared.symbols.Sym.{Sym as Symbols};
ghost use Rattle.alg_proof.specs.declared.lines.ComputeHead.{ComputeHead as Heads};
ghost use Rattle.alg_certificate.specs.Words.{symbol_bytes, head_bytes};
ghost use Rattle.alg_certificate.specs.Spelling.{SymbolFits, HeadFits};
ghost use Rattle.alg_certificate_lines.specs.Words.{sum_symbol, power_symbol, order_symbol, rounding_symbol, counting_symbol, declared_symbol, symbol_named, head_named};
ghost use Rattle.alg_certificate_lines.specs.Kept.{kept_symbol, kept_head};

use crate::words::number_behind;
use alg_certificate::words::is_word_of;
use alg_expr::Sym;
use alg_proof::ComputeHead;

fn sum_symbol(word: &[u8]) -> Option<Sym>
    ensures { result ≡ sum_symbol word.now }
{
    if is_word_of(b"add", word) {
        return Some(Sym::Add);
    }
    if is_word_of(b"mul", word) {
        return Some(Sym::Mul);
    }
    if is_word_of(b"neg", word) {
        return Some(Sym::Neg);
    }
    if is_word_of(b"sub", word) {
        return Some(Sym::Sub);
    }
    if is_word_of(b"inv", word) {
        return Some(Sym::Inv);
    }
    if is_word_of(b"div", word) {
        return Some(Sym::Div);
    }
    None
}

fn power_symbol(word: &[u8]) -> Option<Sym>
    ensures { result ≡ power_symbol word.now }
{
    if is_word_of(b"npow", word) {
        return Some(Sym::Npow);
    }
    if is_word_of(b"zpow", word) {
        return Some(Sym::Zpow);
    }
    if is_word_of(b"nsmul", word) {
        return Some(Sym::Nsmul);
    }
    if is_word_of(b"zsmul", word) {
        return Some(Sym::Zsmul);
    }
    None
}

fn order_symbol(word: &[u8]) -> Option<Sym>
    ensures { result ≡ order_symbol word.now }
{
    if is_word_of(b"abs", word) {
        return Some(Sym::Abs);
    }
    if is_word_of(b"min", word) {
        return Some(Sym::Min);
    }
    if is_word_of(b"max", word) {
        return Some(Sym::Max);
    }
    None
}

fn rounding_symbol(word: &[u8]) -> Option<Sym>
    ensures { result ≡ rounding_symbol word.now }
{
    if is_word_of(b"natsub", word) {
        return Some(Sym::NatSub);
    }
    if is_word_of(b"idiv", word) {
        return Some(Sym::IDiv);
    }
    if is_word_of(b"mod", word) {
        return Some(Sym::Mod);
    }
    if is_word_of(b"gcd", word) {
        return Some(Sym::Gcd);
    }
    if is_word_of(b"lcm", word) {
        return Some(Sym::Lcm);
    }
    None
}

fn counting_symbol(word: &[u8]) -> Option<Sym>
    ensures { result ≡ counting_symbol word.now }
{
    if is_word_of(b"fact", word) {
        return Some(Sym::Fact);
    }
    if is_word_of(b"choose", word) {
        return Some(Sym::Choose);
    }
    if is_word_of(b"fib", word) {
        return Some(Sym::Fib);
    }
    None
}

fn declared_symbol(word: &[u8]) -> Option<Sym>
    ensures { result ≡ declared_symbol word.now }
{
    let number = number_behind(b"@", word)?;
    Some(Sym::Apply(number))
}

fn read_symbol(word: &[u8]) -> Option<Sym>
    ensures { result ≡ symbol_named word.now }
{
    if let Some(sym) = sum_symbol(word) {
        return Some(sym);
    }
    if let Some(sym) = power_symbol(word) {
        return Some(sym);
    }
    if let Some(sym) = order_symbol(word) {
        return Some(sym);
    }
    if let Some(sym) = rounding_symbol(word) {
        return Some(sym);
    }
    if let Some(sym) = counting_symbol(word) {
        return Some(sym);
    }
    declared_symbol(word)
}

/// The symbol that the word names. None where it is the number of no declaration.
#[tactic(auto, using(crate::proofs::Naming::symbol_spelled))]
pub fn symbol_named(word: &[u8]) -> Option<Sym>
    ensures read { result ≡ symbol_named word.now }
    ensures spelled { (f : Symbols) → SymbolFits f → symbol_bytes f ≡ word.now → result ≡ kept_symbol f }
{
    read_symbol(word)
}

fn read_head(word: &[u8]) -> Option<ComputeHead>
    ensures { result ≡ head_named word.now }
{
    if is_word_of(b"dvd", word) {
        return Some(ComputeHead::Dvd);
    }
    let sym = symbol_named(word)?;
    Some(ComputeHead::Named(sym))
}

/// The head of a computation that the word names. None where it is the number of no declaration.
#[tactic(auto, using(crate::proofs::Naming::head_spelled))]
pub fn head_named(word: &[u8]) -> Option<ComputeHead>
    ensures read { result ≡ head_named word.now }
    ensures spelled { (h : Heads) → HeadFits h → head_bytes h ≡ word.now → result ≡ kept_head h }
{
    read_head(word)
}
