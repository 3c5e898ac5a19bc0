ghost use Rattle.std.specs.Prelude.{◌≡◌, ◌++◌, [], ◌∷◌, None, IfOk, OnOk};
ghost use Rattle.alg_names.specs.BuiltIn.{built_in, sorts, shared};
ghost use Rattle.alg_names.specs.BuiltIn as spec;
ghost use Rattle.alg_names.specs.Found.{found};

use crate::meanings::Meaning;
use crate::names::Names;
use alg_expr::{Items, Memory, Sort, Sym};
use std::alloc::Global;

/// The names that are in force from the start.
pub fn built_in_names(alloc: Global) -> Result<Names, Memory>
    ensures { IfOk result (λ n. n ≡ built_in) }
{
    let mut names = Names::new(alloc);
    add_sorts(alloc, &mut names)?;
    add_shared(alloc, &mut names)?;
    add_naturals(alloc, &mut names)?;
    Ok(names)
}

fn add_sorts(alloc: Global, names: &mut Names) -> Result<(), Memory>
    requires { names.old ≡ [] }
    ensures { OnOk result (names.new ≡ sorts) }
{
    add(alloc, names, "ℕ", Meaning::SortName(Sort::Nat))?;
    add(alloc, names, "Nat", Meaning::SortName(Sort::Nat))?;
    add(alloc, names, "ℤ", Meaning::SortName(Sort::Int))?;
    add(alloc, names, "Int", Meaning::SortName(Sort::Int))?;
    add(alloc, names, "ℚ", Meaning::SortName(Sort::Rat))?;
    add(alloc, names, "Rat", Meaning::SortName(Sort::Rat))
}

fn add_shared(alloc: Global, names: &mut Names) -> Result<(), Memory>
    requires { names.old ≡ sorts }
    ensures { OnOk result (names.new ≡ sorts ++ shared) }
{
    add(alloc, names, "abs", Meaning::Shared(Sym::Abs, 1))?;
    add(alloc, names, "min", Meaning::Shared(Sym::Min, 2))?;
    add(alloc, names, "max", Meaning::Shared(Sym::Max, 2))
}

fn add_naturals(alloc: Global, names: &mut Names) -> Result<(), Memory>
    requires { names.old ≡ sorts ++ shared }
    ensures { OnOk result (names.new ≡ built_in) }
{
    add(
        alloc,
        names,
        "Nat.gcd",
        Meaning::Function(Sym::Gcd, two(alloc)?, Sort::Nat),
    )?;
    add(
        alloc,
        names,
        "Nat.lcm",
        Meaning::Function(Sym::Lcm, two(alloc)?, Sort::Nat),
    )?;
    add(
        alloc,
        names,
        "Nat.factorial",
        Meaning::Function(Sym::Fact, one(alloc)?, Sort::Nat),
    )?;
    add(
        alloc,
        names,
        "Nat.choose",
        Meaning::Function(Sym::Choose, two(alloc)?, Sort::Nat),
    )?;
    add(
        alloc,
        names,
        "Nat.fib",
        Meaning::Function(Sym::Fib, one(alloc)?, Sort::Nat),
    )
}

fn one(alloc: Global) -> Result<Items<Sort>, Memory>
    ensures { IfOk result (λ ss. ss ≡ spec.one) }
{
    let mut sorts = Vec::new(alloc);
    sorts.push(Sort::Nat)?;
    Ok(Items::of(sorts))
}

fn two(alloc: Global) -> Result<Items<Sort>, Memory>
    ensures { IfOk result (λ ss. ss ≡ spec.two) }
{
    let mut sorts = Vec::new(alloc);
    sorts.push(Sort::Nat)?;
    sorts.push(Sort::Nat)?;
    Ok(Items::of(sorts))
}

fn add(alloc: Global, names: &mut Names, text: &str, stands_for: Meaning) -> Result<(), Memory>
    requires { found names.old text.now ≡ None }
    ensures { OnOk result (names.new ≡ names.old ++ (text.now, stands_for) ∷ []) }
{
    names.declare(String::from_str(alloc, text)?, stands_for)
}
