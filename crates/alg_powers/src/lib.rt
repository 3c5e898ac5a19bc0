//! The powers of whole numbers, with the lines that compute them.
#![tactic(auto)]

pub mod powers;

pub use powers::power_of_integer;
