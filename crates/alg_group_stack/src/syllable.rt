use alg_expr::{ExprId, Sort};

/// The sort of a goal, which is a group, and its literal 1.
#[derive(Clone, Copy, Debug, Drop)]
pub struct Home {
    pub sort: Sort,
    pub one: ExprId,
}

/// A power in a word that is written as `1 * a ^ i * b ^ j * ..`, with numerals of ℤ.
#[derive(Clone, Copy, Debug, Drop)]
pub struct Syllable {
    pub atom: ExprId,
    pub exponent: i128,
    /// The power itself.
    pub power: ExprId,
    /// The word up to it and with it.
    pub whole: ExprId,
}
