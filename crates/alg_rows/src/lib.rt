//! The rows that procedures share, each as a function: its contract is what the row says, over trees.
#![tactic(auto)]

pub mod comparisons;
pub mod fractions;
pub mod inequations;
pub mod inverses;
pub mod powers;
pub mod products;
pub mod quotients;
pub mod sums;
