ghost use Rattle.std.specs.Prelude.{◌≡◌, ◌<ℤ◌, ◌≤ℤ◌, pos, true, false};
ghost use Rattle.alg_fraction_products.specs.Sizes.{IsSizeOf};

use alg_num::Frac;

/// The numbers of a fraction without its sign.
#[derive(Clone, Copy, Debug, Drop)]
pub struct Size {
    pub top: u128,
    pub bottom: u128,
}

/// The size of a fraction.
#[tactic(auto, using(crate::proofs::SignNumbers::readings))]
pub fn size_of_fraction(x: &Frac) -> Size
    ensures { IsSizeOf x.now result }
{
    let top = x.num().unsigned_abs();
    Size {
        top,
        bottom: x.den(),
    }
}

/// Whether a fraction is below 0.
#[tactic(auto, using(crate::proofs::SignNumbers::readings))]
pub fn is_below(x: &Frac) -> bool
    ensures yes { result ≡ true → x.now.numerator <ℤ pos 0 }
    ensures no { result ≡ false → pos 0 ≤ℤ x.now.numerator }
{
    x.num() < 0
}

/// Whether both fractions are whole.
pub fn are_whole(x: &Frac, y: &Frac) -> bool
    ensures yes { result ≡ true → (x.now.denominator ≡ 1) × (y.now.denominator ≡ 1) }
    ensures no { result ≡ false → x.now.denominator ≡ 1 → y.now.denominator ≡ 1 → ⊥ }
{
    x.den() == 1 && y.den() == 1
}
