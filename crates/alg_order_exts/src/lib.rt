//! The extensions that find the values of `abs`, `min` and `max`, of every sort whose order is that of a ring.
#![tactic(auto)]

pub mod absolutes;
pub mod extremes;
mod operands;
mod rows;

pub use absolutes::AbsExt;
pub use extremes::MinMaxExt;
