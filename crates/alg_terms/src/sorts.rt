ghost use Rattle.std.specs.Prelude.{◌≡◌};
ghost use Rattle.alg_terms.specs.Keys.{sort_key};
ghost use Rattle.alg_terms.specs.Order.{sort_cmp, sort_same};
ghost use Rattle.alg_terms.specs.Symbols.{is_integral};

use std::cmp::Ordering;

/// What a tree ranges over.
#[derive(Clone, Copy, Debug, Default, PartialEq, Eq, PartialOrd, Ord, Hash)]
pub enum Sort {
    /// The natural numbers ℕ, from 0.
    #[default]
    Nat,
    /// The integers ℤ.
    Int,
    /// The rational numbers ℚ.
    Rat,
    /// A declared type variable, by the number of its declaration from 0.
    Decl(u32),
}

impl Sort {
    /// The order of sorts: ℕ, ℤ, ℚ, then the declared ones by number.
    pub fn compare(self, other: Sort) -> Ordering
        ensures { result ≡ sort_cmp self other }
    {
        self.number().cmp(&other.number())
    }

    /// Whether this is that sort.
    pub fn is(self, other: Sort) -> bool
        ensures { result ≡ sort_same self other }
    {
        self.compare(other).is_eq()
    }

    /// Whether this is ℕ or ℤ.
    pub fn is_integral(self) -> bool
        ensures { result ≡ is_integral self }
    {
        match self {
            Sort::Nat => true,
            Sort::Int => true,
            Sort::Rat => false,
            Sort::Decl(_) => false,
        }
    }

    // its place in the order
    fn number(self) -> u64
        ensures { result ≡ sort_key self }
    {
        match self {
            Sort::Nat => 0,
            Sort::Int => 1,
            Sort::Rat => 2,
            Sort::Decl(k) => k as u64 + 3,
        }
    }
}
