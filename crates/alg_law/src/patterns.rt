use alg_terms::{Rel, Sym};

/// The sort of a part of a law: that of the instance, ℕ or ℤ.
#[derive(Clone, Copy, Debug)]
pub enum PatSort {
    S,
    Nat,
    Int,
}

/// A node of a pattern in prefix form.
#[derive(Clone, Copy, Debug)]
pub enum Pat {
    /// A letter by its number: 0 to 3 stand for trees of the instance's sort, 4 and 5 for trees of ℕ, 6 and 7 for trees of ℤ.
    Letter(u8),
    /// A literal.
    Lit { sort: PatSort, value: u8 },
    /// A symbol, whose arguments are the patterns that follow it.
    App { sym: Sym, sort: PatSort },
}

/// A relation between two patterns of a sort.
#[derive(Clone, Copy, Debug)]
pub struct PatStmt {
    pub rel: Rel,
    pub sort: PatSort,
    /// The nodes of the left side, then those of the right side.
    pub nodes: &'static [Pat],
}
