//! Monomials over numbered atoms, their order, and which of two sorted sums gives the next term.
#![tactic(auto)]

pub mod monomials;
pub mod prefixes;
pub mod sides;
pub mod terms;

pub use monomials::{Factor, Monomial, compare};
pub use prefixes::leading;
pub use sides::{Side, next_side};
pub use terms::Term;
