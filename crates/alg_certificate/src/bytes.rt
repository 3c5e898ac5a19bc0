ghost use Rattle.std.specs.Prelude.{◌≡◌, [], ◌∷◌, MatchOption, option_map, ℕ, List, length, ◌+◌};
ghost use Rattle.alg_certificate.specs.Cutting.{after, cut};

// The first byte, and the rest.
#[inline(always)]
pub(crate) fn split(bytes: &[u8]) -> Option<(u8, &[u8])>
    ensures { MatchOption result (bytes.now ≡ []) (λ x. bytes.now ≡ x.0 ∷ x.1.now) }
{
    match bytes.split_first() {
        Some((first, rest)) => Some((*first, rest)),
        None => None,
    }
}

/// What follows a front.
#[inline(always)]
pub fn after<'a>(front: &[u8], bytes: &'a [u8]) -> Option<&'a [u8]>
    ensures { option_map {U = List ℕ} (λ x. x.now) result ≡ after front.now bytes.now }
{
    let mut wanted = front;
    let mut left = bytes;
    'wanted: while let Some((byte, rest)) = split(wanted) {
        let (first, others) = split(left)?;
        if first != byte {
            return None;
        }
        wanted = rest;
        left = others;
    }
    Some(left)
}

// The first line, and what follows its line feed.
pub(crate) fn cut_line(bytes: &[u8]) -> Option<(&[u8], &[u8])>
    ensures { MatchOption result (cut bytes.now ≡ ([], bytes.now)) (λ x. (cut bytes.now ≡ (x.0.now ∷ (cut x.1.now).0, (cut x.1.now).1)) × (length bytes.now ≡ length x.0.now + 1 + length x.1.now)) }
{
    let mut count = 0;
    let mut left = bytes;
    'bytes: while let Some((byte, rest)) = split(left) {
        if byte == b'\n' {
            let (line, _) = bytes.split_at(count);
            return Some((line, rest));
        }
        count += 1;
        left = rest;
    }
    None
}
