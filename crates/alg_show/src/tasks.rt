use alg_expr::{ExprId, Rel};
use alg_syntax::signs::Operator;

/// Where a part stands: its level has to be this at least, or it stands in a negation.
#[derive(Clone, Copy)]
pub(crate) enum Place {
    Least(u8),
    Negated,
}

/// What is still to be written. The flags say whether the first literal of the part's region is written with its
/// sort.
#[derive(Clone, Copy)]
pub(crate) enum Task {
    Close,
    Inverse,
    Zero,
    Operator(Operator),
    Relation(Rel),
    Part(Place, bool, ExprId),
    /// The arguments of a tree from this number on.
    Arguments(bool, ExprId, usize),
}
