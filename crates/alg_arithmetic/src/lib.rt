//! One operation on numerals, with the lines that compute it. The calls fail for want of memory alone.
#![tactic(auto)]

mod dispatch;
pub mod evaluating;
mod multiples;
mod powers;
mod products;
mod sums;
mod whole_numbers;

pub use evaluating::{evaluated, hidden, shown};
