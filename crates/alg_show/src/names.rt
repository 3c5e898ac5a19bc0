ghost use Rattle.std.specs.Prelude.{◌≡◌};
ghost use Rattle.alg_show.specs.Names.{name_at, sort_name, function_name};

use alg_expr::{Sort, Sym};
use alg_law::{Base, Declared};

// the name of declaration k
pub(crate) fn name_at(base: &Base, k: u32) -> &str
    ensures { result.now ≡ name_at base.now k }
{
    match base.declaration(k as usize) {
        Some(lent) => match lent.declared {
            Declared::Carrier { name } => name.as_str(),
            Declared::Variable { name, .. } => name.as_str(),
            Declared::Function { name, .. } => name.as_str(),
            Declared::Hypothesis { name, .. } => name.as_str(),
            Declared::Instance { .. } => "",
        },
        None => "",
    }
}

pub(crate) fn sort_name(base: &Base, sort: Sort) -> &str
    ensures { result.now ≡ sort_name base.now sort }
{
    match sort {
        Sort::Nat => "\u{2115}",
        Sort::Int => "\u{2124}",
        Sort::Rat => "\u{211A}",
        Sort::Decl(k) => name_at(base, k),
    }
}

pub(crate) fn function_name(base: &Base, sym: Sym) -> &str
    ensures { result.now ≡ function_name base.now sym }
{
    match sym {
        Sym::Abs => "abs",
        Sym::Min => "min",
        Sym::Max => "max",
        Sym::Gcd => "Nat.gcd",
        Sym::Lcm => "Nat.lcm",
        Sym::Fact => "Nat.factorial",
        Sym::Choose => "Nat.choose",
        Sym::Fib => "Nat.fib",
        Sym::Apply(k) => name_at(base, k),
        _ => "",
    }
}
