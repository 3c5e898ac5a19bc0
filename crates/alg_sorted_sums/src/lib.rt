//! Sorted sums, their sum by merging, and the lines that say so. How a term is written, and how two terms of one monomial
//! are put together, is given by a `Summand`.
#![tactic(auto)]

pub mod joining;
pub mod merging;
pub mod rows;
pub mod stepping;
pub mod summand;
pub mod taking;

pub use merging::merge;
pub use stepping::Merging;
pub use summand::{Collected, Summand};
