ghost use Rattle.std.specs.Prelude.{◌≡◌, ℕ, List, option_map};
ghost use Rattle.alg_certificate_lines.specs.declared.kinds.Kind.{Kind as Kinds};
ghost use Rattle.alg_certificate_lines.specs.Kinds.{equality_kind, source_kind, literal_kind, kind_named, head_cut};

use alg_certificate::tokens::cut_word;
use alg_certificate::words::is_word_of;

// The kinds of proof lines.
#[derive(Clone, Copy)]
pub(crate) enum Kind {
    Refl,
    Symm,
    Trans,
    Cong,
    Subst,
    Law,
    Lemma,
    Hyp,
    Rest,
    LitAdd,
    LitMul,
    LitRel,
    Bridge,
    Compute,
}

fn equality_kind(word: &[u8]) -> Option<Kind>
    ensures { result ≡ equality_kind word.now }
{
    if is_word_of(b"refl", word) {
        return Some(Kind::Refl);
    }
    if is_word_of(b"symm", word) {
        return Some(Kind::Symm);
    }
    if is_word_of(b"trans", word) {
        return Some(Kind::Trans);
    }
    if is_word_of(b"cong", word) {
        return Some(Kind::Cong);
    }
    if is_word_of(b"subst", word) {
        return Some(Kind::Subst);
    }
    None
}

fn source_kind(word: &[u8]) -> Option<Kind>
    ensures { result ≡ source_kind word.now }
{
    if is_word_of(b"law", word) {
        return Some(Kind::Law);
    }
    if is_word_of(b"lemma", word) {
        return Some(Kind::Lemma);
    }
    if is_word_of(b"hyp", word) {
        return Some(Kind::Hyp);
    }
    if is_word_of(b"rest", word) {
        return Some(Kind::Rest);
    }
    None
}

fn literal_kind(word: &[u8]) -> Option<Kind>
    ensures { result ≡ literal_kind word.now }
{
    if is_word_of(b"add", word) {
        return Some(Kind::LitAdd);
    }
    if is_word_of(b"mul", word) {
        return Some(Kind::LitMul);
    }
    if is_word_of(b"rel", word) {
        return Some(Kind::LitRel);
    }
    if is_word_of(b"bridge", word) {
        return Some(Kind::Bridge);
    }
    if is_word_of(b"compute", word) {
        return Some(Kind::Compute);
    }
    None
}

fn kind_named(word: &[u8]) -> Option<Kind>
    ensures { result ≡ kind_named word.now }
{
    if let Some(kind) = equality_kind(word) {
        return Some(kind);
    }
    if let Some(kind) = source_kind(word) {
        return Some(kind);
    }
    literal_kind(word)
}

// The kind of a line, and what follows its first word.
pub(crate) fn cut_head(text: &[u8]) -> Option<(Kind, &[u8])>
    ensures { option_map {U = Kinds × List ℕ} (λ x. (x.0, x.1.now)) result ≡ head_cut text.now }
{
    let (word, rest) = cut_word(text)?;
    let kind = kind_named(word)?;
    Some((kind, rest))
}
