use alg_build::Rewriting;
use alg_expr::ExprId;
use alg_num::Frac;

/// What is found of a tree.
#[derive(Clone, Copy, Debug, Drop)]
pub struct Found {
    pub expr: ExprId,
    pub kind: Kind,
    /// The value where there is one, else 0.
    pub value: Frac,
    /// Leads to the numeral of the value, with the sign outside, where there is a value.
    pub by: Rewriting,
    /// Leads to the tree in which every largest part that has a value is a numeral.
    pub shown: Rewriting,
    /// Whether some node of the tree is past the range.
    pub past: bool,
}

/// Whether a tree has a value, is past the range, or has none.
#[derive(Clone, Copy, Debug, PartialEq, Eq, Drop)]
pub enum Kind {
    Num,
    Past,
    Without,
}
