use crate::ids::ExprId;
use alg_terms::{Sort, Sym};
use smallvec::SmallVec;

/// One level of a tree, as an arena keeps it.
#[derive(Debug, PartialEq, Eq, Hash, Drop)]
pub(crate) enum Node {
    Lit {
        sort: Sort,
        value: u128,
    },
    Var {
        decl: u32,
        sort: Sort,
    },
    App {
        sym: Sym,
        sort: Sort,
        // one or two stand in place
        args: SmallVec<ExprId, 2>,
    },
}
