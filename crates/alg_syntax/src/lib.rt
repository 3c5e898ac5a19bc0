//! The concrete syntax of the notation, and its reader from tokens.
#![tactic(auto)]

pub mod binders;
pub mod commands;
pub mod expressions;
pub mod front;
pub mod limits;
pub mod nodes;
pub mod scripts;
pub mod signs;
pub mod statements;
#[cfg(test)]
mod tests;
