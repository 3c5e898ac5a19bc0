//! The procedure norm_num: it evaluates numerical expressions, and decides a goal whose sides have values.
#![tactic(auto)]

pub mod deciding;
pub mod lines;
pub mod procedure;

pub use alg_build::{Outcome, TacFault};
pub use procedure::norm_num;
