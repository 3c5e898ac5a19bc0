use alg_expr::{ExprId, Sort, Sym};

/// A tree, its symbol and its sort.
#[derive(Clone, Copy, Debug, Drop)]
pub struct Head {
    pub expr: ExprId,
    pub sym: Sym,
    pub sort: Sort,
}
