//! Products, powers and negations of polynomials with lines, over trees alone: what each case of an operation of Horner
//! forms adds to its parts.
#![tactic(auto)]

pub mod factors;
pub mod negatives;
pub mod raised;
