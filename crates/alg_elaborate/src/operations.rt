ghost use Rattle.std.specs.Prelude.{◌≡◌};
ghost use Rattle.alg_law.specs.Combinations as combinations;
ghost use Rattle.alg_elaborate.specs.Operations as spec;

use alg_expr::{Sort, Sym};

/// The symbol of `-`: on ℕ it stops at 0.
pub fn difference_of(sort: Sort) -> Sym
    ensures { result ≡ combinations.difference_of sort }
{
    match sort {
        Sort::Nat => Sym::NatSub,
        _ => Sym::Sub,
    }
}

/// The symbol of `/`: on ℕ and ℤ it rounds.
pub fn quotient_of(sort: Sort) -> Sym
    ensures { result ≡ combinations.quotient_of sort }
{
    match sort {
        Sort::Nat => Sym::IDiv,
        Sort::Int => Sym::IDiv,
        _ => Sym::Div,
    }
}

/// The symbol of `^`, by the sort of the exponent.
pub fn power_of(exponent: Sort) -> Sym
    ensures { result ≡ spec.power_of exponent }
{
    match exponent {
        Sort::Nat => Sym::Npow,
        _ => Sym::Zpow,
    }
}

/// The symbol of `•`, by the sort of the left part.
pub fn multiple_of(left: Sort) -> Sym
    ensures { result ≡ spec.multiple_of left }
{
    match left {
        Sort::Nat => Sym::Nsmul,
        _ => Sym::Zsmul,
    }
}
