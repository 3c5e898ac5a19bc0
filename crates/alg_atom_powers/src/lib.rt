//! Products and powers of the powers of one atom, with lines: what sums and products of Horner forms need where the
//! exponents of their first atom differ.
#![tactic(auto)]

pub mod exponents;
pub mod raising;

pub use exponents::{power_raised, powers_multiplied};
