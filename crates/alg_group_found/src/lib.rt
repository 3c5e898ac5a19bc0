//! What is found of the trees of a goal of the procedure group, from what is found of their parts: whether they are in range
//! and not too large, their atoms and their words.
#![tactic(auto)]

mod atoms;
pub mod found;
mod letters;
pub mod parts;
pub mod powers;
pub mod shape;
mod words;

pub use atoms::atoms_together;
pub use found::{Exponent, Found, Reach, Within};
pub use shape::{Shape, shape_of};
