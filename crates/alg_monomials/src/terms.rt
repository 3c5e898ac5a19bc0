use alg_expr::ExprId;
use alg_num::Frac;

/// A monomial by its place in a table, with a coefficient.
#[derive(Clone, Copy, Debug)]
pub struct Term {
    pub monomial: usize,
    pub value: Frac,
    /// the tree of the term
    pub tree: ExprId,
    /// the tree of the sum through this term
    pub sum: ExprId,
}
