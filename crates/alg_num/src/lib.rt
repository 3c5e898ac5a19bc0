//! Whole numbers and fractions up to 2^127 - 1, with exact answers. No call takes memory.
#![tactic(auto)]

mod fractions;
mod integers;

pub use fractions::Frac;
pub use integers::{add, gcd, mul, pow, sub};
