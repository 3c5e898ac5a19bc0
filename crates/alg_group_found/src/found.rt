//! What is found of a tree of the goal's sort, and of an exponent.
use alg_build::Rewriting;
use alg_expr::ExprId;
use alg_group_spelling::Spelled;

/// The word of a tree that is in range and not too large.
#[derive(Debug, Drop)]
pub struct Within {
    /// The number of letters before cancelling.
    pub weight: u128,
    /// The syllables of the tree and of all its parts.
    pub count: usize,
    pub spelled: Spelled,
}

/// Whether a tree is in range, and not too large: then it has a word.
#[derive(Debug, Drop)]
pub enum Reach {
    /// An exponent is past the range, or there are more than 2^126 letters.
    Out,
    /// A word has too many syllables, or they have too many together. So many letters there are.
    Large(u128),
    Within(Within),
}

/// What is found of a tree.
#[derive(Debug, Drop)]
pub struct Found {
    /// The atoms, each once.
    pub atoms: Vec<ExprId>,
    pub reach: Reach,
}

/// The number of an exponent, where it has one, and what leads to its numeral.
#[derive(Clone, Copy, Debug, Drop)]
pub struct Exponent {
    pub value: Option<i128>,
    pub past: bool,
    pub by: Rewriting,
}
