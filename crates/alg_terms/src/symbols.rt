ghost use Rattle.std.specs.Prelude.{◌≡◌, List, [], ◌∷◌, length, drop};
ghost use Rattle.alg_terms.specs.Keys.{sym_key};
ghost use Rattle.alg_terms.specs.Order.{sym_cmp};
ghost use Rattle.alg_terms.specs.Symbols.{places, serves, place_fits, places_fit, arguments_fit, is_built_in};

use crate::sorts::Sort;
use std::cmp::Ordering;

/// The head of a compound tree. The symbols stand in their order.
#[derive(Clone, Copy, Debug, PartialEq, Eq, PartialOrd, Ord, Hash)]
pub enum Sym {
    /// `a + b`
    Add,
    /// `a * b`
    Mul,
    /// `-a`
    Neg,
    /// `a - b` in an additive group
    Sub,
    /// `a⁻¹`, with `0⁻¹ = 0` in a field
    Inv,
    /// `a / b` in a group or field
    Div,
    /// `a ^ n`, n natural
    Npow,
    /// `a ^ i`, i an integer
    Zpow,
    /// `n • a`, n natural
    Nsmul,
    /// `i • a`, i an integer
    Zsmul,
    /// `abs a`
    Abs,
    /// `min a b`
    Min,
    /// `max a b`
    Max,
    /// `a - b` on ℕ, which is 0 where b is greater
    NatSub,
    /// `a / b` on ℕ and ℤ, rounded as Lean's `Nat.div` and `Int.ediv`
    IDiv,
    /// `a % b` on ℕ and ℤ, Lean's `Nat.mod` and `Int.emod`
    Mod,
    /// `Nat.gcd a b`
    Gcd,
    /// `Nat.lcm a b`
    Lcm,
    /// `Nat.factorial a`
    Fact,
    /// `Nat.choose a b`
    Choose,
    /// `Nat.fib a`
    Fib,
    /// A declared function, by the number of its declaration from 0.
    Apply(u32),
}

/// A place for an argument, by the sort that the argument must have.
#[derive(Clone, Copy, Debug)]
pub enum Place {
    /// The sort of the value.
    Same,
    /// ℕ
    OfNat,
    /// ℤ
    OfInt,
}

impl Sym {
    /// The order of symbols: the built-in ones as they stand above, then the declared ones by number.
    pub fn compare(self, other: Sym) -> Ordering
        ensures { result ≡ sym_cmp self other }
    {
        self.number().cmp(&other.number())
    }

    /// Whether this isn't a declared function.
    pub fn is_built_in(self) -> bool
        ensures { result ≡ is_built_in self }
    {
        match self {
            Sym::Apply(_) => false,
            _ => true,
        }
    }

    /// The arguments of a built-in symbol, each with the sort that it must have. A declared function has none here.
    pub fn places(self) -> &'static [Place]
        ensures { result.now ≡ places self }
    {
        match self {
            Sym::Add => &[Place::Same, Place::Same],
            Sym::Mul => &[Place::Same, Place::Same],
            Sym::Neg => &[Place::Same],
            Sym::Sub => &[Place::Same, Place::Same],
            Sym::Inv => &[Place::Same],
            Sym::Div => &[Place::Same, Place::Same],
            Sym::Npow => &[Place::Same, Place::OfNat],
            Sym::Zpow => &[Place::Same, Place::OfInt],
            Sym::Nsmul => &[Place::OfNat, Place::Same],
            Sym::Zsmul => &[Place::OfInt, Place::Same],
            Sym::Abs => &[Place::Same],
            Sym::Min => &[Place::Same, Place::Same],
            Sym::Max => &[Place::Same, Place::Same],
            Sym::NatSub => &[Place::Same, Place::Same],
            Sym::IDiv => &[Place::Same, Place::Same],
            Sym::Mod => &[Place::Same, Place::Same],
            Sym::Gcd => &[Place::Same, Place::Same],
            Sym::Lcm => &[Place::Same, Place::Same],
            Sym::Fact => &[Place::Same],
            Sym::Choose => &[Place::Same, Place::Same],
            Sym::Fib => &[Place::Same],
            Sym::Apply(_) => &[],
        }
    }

    /// Whether the symbol may have a value of this sort, classes aside.
    pub fn serves(self, sort: Sort) -> bool
        ensures { result ≡ serves self sort }
    {
        match self {
            Sym::NatSub | Sym::Gcd | Sym::Lcm | Sym::Fact | Sym::Choose | Sym::Fib => sort.is(
                Sort::Nat,
            ),
            Sym::IDiv | Sym::Mod => sort.is_integral(),
            _ => true,
        }
    }

    /// Whether a built-in symbol takes arguments of these sorts, as many as it has places, to a value of this sort.
    pub fn takes(self, sort: Sort, arguments: &[Sort]) -> bool
        requires { length (places self) ≡ length arguments.now }
        ensures { result ≡ arguments_fit self sort arguments.now }
    {
        places_take(self.places(), sort, arguments) && self.serves(sort)
    }

    // its place in the order
    fn number(self) -> u64
        ensures { result ≡ sym_key self }
    {
        match self {
            Sym::Add => 1,
            Sym::Mul => 2,
            Sym::Neg => 3,
            Sym::Sub => 4,
            Sym::Inv => 5,
            Sym::Div => 6,
            Sym::Npow => 7,
            Sym::Zpow => 8,
            Sym::Nsmul => 9,
            Sym::Zsmul => 10,
            Sym::Abs => 11,
            Sym::Min => 12,
            Sym::Max => 13,
            Sym::NatSub => 14,
            Sym::IDiv => 15,
            Sym::Mod => 16,
            Sym::Gcd => 17,
            Sym::Lcm => 18,
            Sym::Fact => 19,
            Sym::Choose => 20,
            Sym::Fib => 21,
            Sym::Apply(k) => k as u64 + 22,
        }
    }
}

impl Place {
    /// Whether an argument of this sort may stand here, where the value has the sort `value`.
    pub fn takes(self, value: Sort, argument: Sort) -> bool
        ensures { result ≡ place_fits self value argument }
    {
        match self {
            Place::Same => argument.is(value),
            Place::OfNat => argument.is(Sort::Nat),
            Place::OfInt => argument.is(Sort::Int),
        }
    }
}

// whether each argument may stand at its place
fn places_take(places: &[Place], sort: Sort, arguments: &[Sort]) -> bool
    requires { length places.now ≡ length arguments.now }
    ensures { result ≡ places_fit places.now sort arguments.now }
{
    let mut i: usize = 0;
    while i < places.len() {
        if !places[i].takes(sort, arguments[i]) {
            return false;
        }
        i += 1;
    }
    true
}
