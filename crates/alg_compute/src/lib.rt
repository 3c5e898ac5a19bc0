//! The values of Lean's functions on natural numbers and integers up to 2^127 - 1. No call takes memory.
#![tactic(auto)]

mod choices;
mod integers;
mod naturals;
mod sequences;

pub use integers::integer;
pub use naturals::{divides, natural};
