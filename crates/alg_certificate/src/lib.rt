//! Certificates: how their lines are spelled, and how they are read and written.
#![tactic(auto)]

pub mod bytes;
pub mod numbers;
mod patterns;
pub mod reader;
pub mod tokens;
mod trees;
mod walks;
pub mod words;
mod writer;
mod writing;

pub use reader::{CertFault, CertLine, CertReader};
pub use writer::{write_given, write_goal, write_line};
