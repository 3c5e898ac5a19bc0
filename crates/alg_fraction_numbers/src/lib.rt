//! The numbers that lines on fractions are about: two fractions over a common denominator, and results in lowest terms.
#![tactic(auto)]

pub mod common;

pub use common::{Common, over_common, scaled};
