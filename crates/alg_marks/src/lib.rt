//! Which trees of a builder stand in a goal, so that a walk over their ids, parts before wholes, visits them alone.
#![tactic(auto)]

pub mod marks;

pub use marks::marked;
