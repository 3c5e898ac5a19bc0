//! Powers of fractions by natural numbers and integers, with the lines that compute them.
#![tactic(auto)]

pub mod integer_powers;
pub mod powers;

pub use integer_powers::{integer_power_of_fraction, negative_power_of_fraction};
pub use powers::power_of_fraction;
