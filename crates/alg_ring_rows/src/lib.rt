//! The rows of polynomials, each as a function: its contract is what the row says, over trees.
#![tactic(auto)]

pub mod combinations;
pub mod factors;
pub mod monomials;
pub mod negations;
pub mod nodes;
pub mod splits;
pub mod terms;
