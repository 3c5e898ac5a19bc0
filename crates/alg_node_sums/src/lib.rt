//! Sums of polynomials with lines, over trees alone: what each case of a sum of Horner forms adds to its parts. A node is
//! `p * x ^ i + q`.
#![tactic(auto)]

pub mod beside;
pub mod combining;
pub mod exponents;
pub mod fronts;
pub mod lines;
pub mod nodes;
pub mod pairs;

pub use lines::{Derived, Pair, with_line};
