ghost use Rattle.std.specs.Prelude.{◌≡◌, IsTrue, ◌↔◌};

use alg_num::Frac;

/// Whether both fractions are whole numbers.
pub fn are_whole(x: &Frac, y: &Frac) -> bool
    ensures { IsTrue result ↔ (x.now.denominator ≡ 1) × (y.now.denominator ≡ 1) }
{
    x.den() == 1 && y.den() == 1
}
