ghost use Rattle.std.specs.Prelude.{◌≡◌, ◌≤◌, ℕ, IfSome, Some, codes, decimal};
ghost use Rattle.alg_terms.specs.declared.sorts.Sort.{Sort as Sorts};
ghost use Rattle.alg_terms.specs.declared.relations.Rel.{Rel as Rels};
ghost use Rattle.alg_proof.specs.declared.lines.BridgeKind.{BridgeKind as Kinds};
ghost use Rattle.alg_certificate.specs.Numbers.{max_number};
ghost use Rattle.alg_certificate.specs.Cutting.{after};
ghost use Rattle.alg_certificate.specs.Words.{sort_bytes, relation_bytes, bridge_bytes};
ghost use Rattle.alg_certificate.specs.Spelling.{SortFits};
ghost use Rattle.alg_certificate_lines.specs.Words.{number_named, small, small_number, then_small, sort_named, relation_named, bridge_named, negative, numeral_named};
ghost use Rattle.alg_certificate_lines.specs.Kept.{kept_number, kept_sort};

use alg_certificate::bytes::after;
use alg_certificate::numbers::read_number;
use alg_certificate::words::is_word_of;
use alg_expr::{Rel, Sort};
use alg_proof::BridgeKind;

fn read_whole(word: &[u8]) -> Option<u128>
    ensures read { result ≡ number_named word.now }
    ensures in_range { IfSome result (λ n. n ≤ max_number) }
{
    let (number, rest) = read_number(word)?;
    if rest.is_empty() { Some(number) } else { None }
}

/// The number that the word is.
#[tactic(auto, using(crate::proofs::Naming::number_spelled))]
pub fn number_named(word: &[u8]) -> Option<u128>
    ensures read { result ≡ number_named word.now }
    ensures spelled { (n : ℕ) → n ≤ max_number → decimal n ≡ word.now → result ≡ Some n }
    ensures in_range { IfSome result (λ n. n ≤ max_number) }
{
    read_whole(word)
}

fn negative(number: u128) -> i128
    requires { number ≤ max_number }
    ensures { result ≡ negative number }
{
    0 - number as i128
}

/// The number that the word is, which may have a sign.
pub(crate) fn numeral_named(word: &[u8]) -> Option<i128>
    ensures { result ≡ numeral_named word.now }
{
    match after(b"-", word) {
        Some(rest) => match number_named(rest) {
            Some(number) => Some(negative(number)),
            None => None,
        },
        None => match number_named(word) {
            Some(number) => Some(number as i128),
            None => None,
        },
    }
}

fn read_small(word: &[u8]) -> Option<u32>
    ensures { result ≡ small_number word.now }
{
    let number = number_named(word)?;
    if number < 4_294_967_296 {
        Some(number as u32)
    } else {
        None
    }
}

/// The number that the word is, where a declaration may have it.
#[tactic(auto, using(crate::proofs::Naming::small_spelled))]
pub fn small_number(word: &[u8]) -> Option<u32>
    ensures read { result ≡ small_number word.now }
    ensures spelled { (n : ℕ) → n ≤ max_number → decimal n ≡ word.now → result ≡ kept_number n }
{
    read_small(word)
}

// The number behind the front.
pub(crate) fn number_behind(front: &[u8], word: &[u8]) -> Option<u32>
    ensures { result ≡ then_small (after front.now word.now) }
{
    let rest = after(front, word)?;
    small_number(rest)
}

fn read_sort(word: &[u8]) -> Option<Sort>
    ensures { result ≡ sort_named word.now }
{
    if is_word_of(b"N", word) {
        return Some(Sort::Nat);
    }
    if is_word_of(b"Z", word) {
        return Some(Sort::Int);
    }
    if is_word_of(b"Q", word) {
        return Some(Sort::Rat);
    }
    let number = number_behind(b"t", word)?;
    Some(Sort::Decl(number))
}

/// The sort that the word names. None where it is the number of no declaration.
#[tactic(auto, using(crate::proofs::Naming::sort_spelled))]
pub fn sort_named(word: &[u8]) -> Option<Sort>
    ensures read { result ≡ sort_named word.now }
    ensures spelled { (s : Sorts) → SortFits s → sort_bytes s ≡ word.now → result ≡ kept_sort s }
{
    read_sort(word)
}

/// The relation that the word names.
pub fn relation_named(word: &[u8]) -> Option<Rel>
    ensures read { result ≡ relation_named word.now }
    ensures spelled { (r : Rels) → relation_bytes r ≡ word.now → result ≡ Some r }
{
    if is_word_of(b"eq", word) {
        return Some(Rel::Eq);
    }
    if is_word_of(b"ne", word) {
        return Some(Rel::Ne);
    }
    if is_word_of(b"lt", word) {
        return Some(Rel::Lt);
    }
    if is_word_of(b"le", word) {
        return Some(Rel::Le);
    }
    if is_word_of(b"dvd", word) {
        return Some(Rel::Dvd);
    }
    None
}

/// The bridge that the word names.
pub fn bridge_named(word: &[u8]) -> Option<BridgeKind>
    ensures read { result ≡ bridge_named word.now }
    ensures spelled { (k : Kinds) → bridge_bytes k ≡ word.now → result ≡ Some k }
{
    if is_word_of(b"smul", word) {
        return Some(BridgeKind::Smul);
    }
    if is_word_of(b"zsmul", word) {
        return Some(BridgeKind::Zsmul);
    }
    if is_word_of(b"zpow", word) {
        return Some(BridgeKind::Zpow);
    }
    None
}
