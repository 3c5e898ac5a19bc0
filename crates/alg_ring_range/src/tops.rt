//! Whole numbers: the denominator of a closed tree times its fraction. They are exact where the tree is in range.
ghost use Rattle.std.specs.Prelude.{◌≡◌, ◌+◌, ◌*◌, ◌^◌, ◌<◌, ◌≤◌, ◌*ℤ◌, ◌+ℤ◌, neg_ℤ, pos, unsigned_abs, IsTrue, IsFalse};
ghost use Rattle.std.specs.Int.{int_pow};
ghost use Rattle.alg_num.specs.Range.{InRange};
ghost use Rattle.alg_num.specs.Answer.{ReducesIff};
ghost use Rattle.alg_sums.specs.Inverse.{inverse_of};
ghost use Rattle.alg_ring_range.specs.Sizes.{inverse_sizes};

use crate::sizes::Sizes;
use alg_num::{Frac, add, mul, pow};

// whether it has an absolute value of 127 bits
pub(crate) fn in_range(m: i128) -> bool
    ensures yes { IsTrue result → InRange m }
    ensures no { IsFalse result → ¬ InRange m }
{
    m != i128::MIN
}

pub(crate) fn negated(m: i128) -> i128
    ensures { InRange m → result ≡ neg_ℤ m }
{
    if in_range(m) { -m } else { 0 }
}

#[tactic(auto, using(crate::proofs::TopSteps::top_steps))]
pub(crate) fn times(m: i128, n: i128) -> i128
    ensures { unsigned_abs m * unsigned_abs n ≤ 2 ^ 126 → InRange m → InRange n → result ≡ m *ℤ n }
{
    if !in_range(m) {
        return 0;
    }
    if !in_range(n) {
        return 0;
    }
    match mul(m, n) {
        Some(product) => product,
        None => 0,
    }
}

#[tactic(auto, using(crate::proofs::TopSteps::top_steps))]
pub(crate) fn raised(m: i128, c: u128) -> i128
    ensures { unsigned_abs m ^ c ≤ 2 ^ 126 → InRange m → result ≡ int_pow m c }
{
    if !in_range(m) {
        return 0;
    }
    match pow(m, c) {
        Some(power) => power,
        None => 0,
    }
}

#[tactic(auto, using(crate::proofs::TopSteps::top_steps))]
fn scaled(m: i128, s: u128) -> i128
    ensures { unsigned_abs m * s ≤ 2 ^ 126 → 0 < s → result ≡ m *ℤ pos s }
{
    if m == 0 {
        return 0;
    }
    if s >= 1 << 127 {
        return 0;
    }
    if !in_range(m) {
        return 0;
    }
    match mul(m, s as i128) {
        Some(product) => product,
        None => 0,
    }
}

#[tactic(auto, using(crate::proofs::TopSteps::top_steps))]
fn plus(m: i128, n: i128) -> i128
    ensures { unsigned_abs m + unsigned_abs n ≤ 2 ^ 126 → result ≡ m +ℤ n }
{
    if !in_range(m) {
        return 0;
    }
    if !in_range(n) {
        return 0;
    }
    match add(m, n) {
        Some(sum) => sum,
        None => 0,
    }
}

#[tactic(auto, using(crate::proofs::TopSteps::top_steps))]
pub(crate) fn scaled_sum(m: i128, s: u128, n: i128, t: u128) -> i128
    ensures { unsigned_abs m * s + unsigned_abs n * t ≤ 2 ^ 126 → 0 < s → 0 < t → result ≡ m *ℤ pos s +ℤ n *ℤ pos t }
{
    let left = scaled(m, s);
    let right = scaled(n, t);
    plus(left, right)
}

// a fraction in lowest terms
pub(crate) fn reduced(top: i128, den: u128) -> Option<Frac>
    ensures { ReducesIff result ((InRange top) × (0 < den) × (den < 2 ^ 127)) (record { numerator = top; denominator = den }) }
{
    if !in_range(top) {
        return None;
    }
    Frac::new(top, den)
}

// the sizes of the inverse, and the denominator times its fraction
pub(crate) fn turned(f: &Frac) -> (Sizes, i128)
    ensures sizes { result.0 ≡ inverse_sizes f.now }
    ensures top { result.1 ≡ (inverse_of f.now).numerator }
    ensures small { InRange result.1 }
{
    let num = f.num();
    let den = f.den();
    if num == 0 {
        return (zero_sizes(), 0);
    }
    let sizes = Sizes {
        denominator: num.unsigned_abs(),
        weight: den,
        degree: 0,
    };
    if num < 0 {
        (sizes, -(den as i128))
    } else {
        (sizes, den as i128)
    }
}

fn zero_sizes() -> Sizes
    ensures { result ≡ inverse_sizes (record { numerator = pos 0; denominator = 1 }) }
{
    Sizes {
        denominator: 1,
        weight: 0,
        degree: 0,
    }
}
