//! The words of trees in a group, with lines, from those of their parts: inverses and powers, and the normal trees of words.
#![tactic(auto)]

pub mod normal;
mod raising;
pub mod spelled;
pub mod spelling;

pub use normal::normalised;
pub use spelled::Spelled;
