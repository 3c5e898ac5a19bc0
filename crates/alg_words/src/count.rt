ghost use Rattle.std.specs.Prelude.{◌≡◌, ◌≤◌, IfSome};
ghost use Rattle.std.specs.Option.{option_map};
ghost use Rattle.alg_words.specs.Counts.{at_most, digits_value, is_digit, count_of as counted};

fn is_digit(byte: u8) -> bool
    ensures { result ≡ is_digit byte }
{
    b'0' <= byte && byte <= b'9'
}

// the value of digits, where it is at most 10,000
fn value_of(digits: &[u8]) -> Option<u32>
    ensures value { result ≡ at_most 10000 (digits_value 0 digits.now) }
    ensures within { IfSome result (λ n. n ≤ 10000) }
{
    let mut value: u32 = 0;
    let mut left = digits;
    'digits: while let Some((digit, rest)) = left.split_first() {
        if value > 10_000 {
            return None;
        }
        if !is_digit(*digit) {
            return None;
        }
        value = value * 10 + (*digit - b'0') as u32;
        left = rest;
    }
    if value <= 10_000 { Some(value) } else { None }
}

/// The number of lines that a word says: one to five digits, of a value up to 10,000.
pub(crate) fn count_of(word: &str) -> Option<u32>
    ensures value { result ≡ counted word.now }
    ensures within { IfSome result (λ n. n ≤ 10000) }
{
    let digits = word.as_bytes();
    if digits.is_empty() || digits.len() > 5 {
        return None;
    }
    value_of(digits)
}
