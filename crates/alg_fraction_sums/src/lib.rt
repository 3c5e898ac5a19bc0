//! Sums and differences of fractions, and how they compare, with the lines that show it.
#![tactic(auto)]

pub mod cancelled;
pub mod differences;
pub mod rearranging;
pub mod relations;
pub mod scaling;
pub mod sums;
pub mod wholes;

pub use differences::difference_of_fractions;
pub use relations::relation_of_fractions;
pub use sums::sum_of_fractions;
