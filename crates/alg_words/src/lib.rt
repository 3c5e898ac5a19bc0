//! What the words of the command line ask for.
#![tactic(auto)]

mod command;
mod count;
pub mod job;

pub use alg_expr::Memory;
pub use job::{Job, read_words};
