ghost use Rattle.std.specs.Prelude.{◌≡◌, List, option_map};
ghost use Rattle.alg_certificate.specs.Patterns.{pattern_of, short_pattern, row_pattern, literal_pattern, row_of, given_pattern};
ghost use Rattle.alg_certificate.specs.declared.patterns.Part.{Part};

use crate::words::is_word_of;

// What may stand behind a blank of a line.
#[derive(Clone, Copy)]
pub(crate) enum Slot {
    Tree,
    Number,
    Sort,
    Symbol,
    Relation,
    Comparison,
    Name,
    Bridge,
    Head,
    Numeral,
    Semicolon,
}

// One item, or any number of them.
#[derive(Clone, Copy)]
pub(crate) enum Part {
    One(Slot),
    Many(Slot),
}

fn row_parts() -> &'static [Part]
    ensures { result.now ≡ row_of }
{
    &[
        Part::One(Slot::Name),
        Part::One(Slot::Sort),
        Part::Many(Slot::Tree),
        Part::One(Slot::Semicolon),
        Part::Many(Slot::Number),
    ]
}

// What stands after `given`.
pub(crate) fn given_pattern() -> &'static [Part]
    ensures { result.now ≡ given_pattern }
{
    &[
        Part::One(Slot::Relation),
        Part::One(Slot::Sort),
        Part::One(Slot::Tree),
        Part::One(Slot::Tree),
    ]
}

fn row_pattern(word: &[u8]) -> Option<&'static [Part]>
    ensures { option_map {U = List Part} (λ x. x.now) result ≡ row_pattern word.now }
{
    if is_word_of(b"law", word) {
        return Some(row_parts());
    }
    if is_word_of(b"lemma", word) {
        return Some(row_parts());
    }
    None
}

fn literal_pattern(word: &[u8]) -> Option<&'static [Part]>
    ensures { option_map {U = List Part} (λ x. x.now) result ≡ literal_pattern word.now }
{
    if is_word_of(b"add", word) {
        return Some(&[
            Part::One(Slot::Sort),
            Part::One(Slot::Number),
            Part::One(Slot::Number),
        ]);
    }
    if is_word_of(b"mul", word) {
        return Some(&[
            Part::One(Slot::Sort),
            Part::One(Slot::Number),
            Part::One(Slot::Number),
        ]);
    }
    if is_word_of(b"rel", word) {
        return Some(&[
            Part::One(Slot::Comparison),
            Part::One(Slot::Sort),
            Part::One(Slot::Number),
            Part::One(Slot::Number),
        ]);
    }
    if is_word_of(b"bridge", word) {
        return Some(&[
            Part::One(Slot::Bridge),
            Part::One(Slot::Number),
            Part::One(Slot::Tree),
        ]);
    }
    if is_word_of(b"compute", word) {
        return Some(&[
            Part::One(Slot::Head),
            Part::One(Slot::Sort),
            Part::One(Slot::Numeral),
            Part::Many(Slot::Numeral),
        ]);
    }
    row_pattern(word)
}

fn short_pattern(word: &[u8]) -> Option<&'static [Part]>
    ensures { option_map {U = List Part} (λ x. x.now) result ≡ short_pattern word.now }
{
    if is_word_of(b"refl", word) {
        return Some(&[Part::One(Slot::Tree)]);
    }
    if is_word_of(b"hyp", word) {
        return Some(&[Part::One(Slot::Number)]);
    }
    if is_word_of(b"rest", word) {
        return Some(&[]);
    }
    literal_pattern(word)
}

// What stands after the first word of a proof line; none where no proof line begins with it.
pub(crate) fn pattern_of(word: &[u8]) -> Option<&'static [Part]>
    ensures { option_map {U = List Part} (λ x. x.now) result ≡ pattern_of word.now }
{
    if is_word_of(b"symm", word) {
        return Some(&[Part::One(Slot::Number)]);
    }
    if is_word_of(b"trans", word) {
        return Some(&[Part::One(Slot::Number), Part::One(Slot::Number)]);
    }
    if is_word_of(b"subst", word) {
        return Some(&[
            Part::One(Slot::Number),
            Part::One(Slot::Number),
            Part::One(Slot::Number),
        ]);
    }
    if is_word_of(b"cong", word) {
        return Some(&[
            Part::One(Slot::Symbol),
            Part::One(Slot::Number),
            Part::Many(Slot::Number),
        ]);
    }
    short_pattern(word)
}
