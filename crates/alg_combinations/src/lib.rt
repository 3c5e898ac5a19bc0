//! What the expression of a linear combination says: hypotheses, largest parts without hypotheses, and the operations on
//! them.
#![tactic(auto)]

mod combining;

pub use combining::build_combination;
