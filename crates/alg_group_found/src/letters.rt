//! The numbers of letters before cancelling, up to the limit.
ghost use Rattle.std.specs.Prelude.{◌≡◌, ◌+◌, ◌*◌, ◌≤◌, ◌^◌, ◌||◌, List, SomeIff, unsigned_abs};
ghost use Rattle.alg_terms.specs.Tree.{Tree};
ghost use Rattle.alg_law.specs.Declarations.{Declaration};
ghost use Rattle.alg_build.specs.Book.{Book};
ghost use Rattle.alg_group_words.specs.Letters.{weight};
ghost use Rattle.alg_group_words.specs.Limits.{is_heavy};
ghost use Rattle.alg_group_stack.specs.declared.syllable.Home.{Home};
ghost use Rattle.alg_group_found.specs.Exponents.{exponent};
ghost use Rattle.alg_group_found.specs.Found.{IsReached, LettersOrOut, is_out};

use crate::found::Reach;

const LIMIT: u128 = 1 << 126;

/// The letters of a tree that is in range.
pub(crate) fn letters(x: &Reach) -> Option<u128>
    ensures { (ds : List Declaration) (b : Book) (h : Home) (t : Tree) → IsReached ds b h t x.now → LettersOrOut result (is_out ds t) (weight (exponent ds) t) }
{
    match x {
        Reach::Out => None,
        Reach::Large(weight) => Some(*weight),
        Reach::Within(w) => Some(w.weight),
    }
}

// the sum, up to the limit
fn total(m: u128, n: u128) -> Option<u128>
    ensures { SomeIff result (m + n ≤ 2 ^ 126) (m + n) }
{
    match m.checked_add(n) {
        Some(all) => {
            if all > LIMIT {
                return None;
            }
            Some(all)
        }
        None => None,
    }
}

// the product, up to the limit
fn product(m: u128, n: u128) -> Option<u128>
    ensures { SomeIff result (m * n ≤ 2 ^ 126) (m * n) }
{
    match m.checked_mul(n) {
        Some(all) => {
            if all > LIMIT {
                return None;
            }
            Some(all)
        }
        None => None,
    }
}

fn size_of(k: &i128) -> u128
    ensures { result ≡ unsigned_abs k.now }
{
    k.unsigned_abs()
}

/// The letters of both together.
pub(crate) fn sum_of_letters(x: &Reach, y: &Reach) -> Option<u128>
    ensures { (ds : List Declaration) (b : Book) (h : Home) (t u : Tree) → IsReached ds b h t x.now → IsReached ds b h u y.now → LettersOrOut result (is_heavy (weight (exponent ds) t + weight (exponent ds) u) || (is_out ds t || is_out ds u)) (weight (exponent ds) t + weight (exponent ds) u) }
{
    match letters(x) {
        Some(m) => match letters(y) {
            Some(n) => total(m, n),
            None => None,
        },
        None => None,
    }
}

/// The letters of a power.
pub(crate) fn letters_of_power(k: &i128, x: &Reach) -> Option<u128>
    ensures { (ds : List Declaration) (b : Book) (h : Home) (t : Tree) → IsReached ds b h t x.now → LettersOrOut result (is_heavy (unsigned_abs k.now * weight (exponent ds) t) || is_out ds t) (unsigned_abs k.now * weight (exponent ds) t) }
{
    match letters(x) {
        Some(n) => product(size_of(k), n),
        None => None,
    }
}
