use alg_expr::{ExprId, Items};

/// A combination of hypotheses, as `linear_combination` takes it. A hypothesis stands for both sides of its equation,
/// an expression twice for itself, and an operation acts on each of the two.
///
/// It is written in postfix order: what an operation acts on stands before it. So it has no depth, and nothing that
/// walks or drops it recurses.
#[derive(Drop)]
pub struct Combo {
    pub steps: Items<ComboStep>,
}

/// A part of a combination.
#[derive(Clone, Copy)]
pub enum ComboStep {
    /// The hypothesis of a base with this number, from 1.
    Hyp(u32),
    /// A largest part without hypotheses.
    Expr(ExprId),
    /// The negation of the combination before it.
    Neg,
    /// The sum of the two combinations before it, and so on.
    Add,
    Sub,
    Mul,
    Div,
}
