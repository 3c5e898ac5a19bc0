//! The numerals of fractions: their trees, and the lines between the forms of one fraction.
#![tactic(auto)]

pub mod cancelling;
pub mod showing;
pub mod signed;
pub mod sizes;

pub use showing::{hidden, shown};
pub use signed::{negation_of_fraction, numeral_of_fraction};
