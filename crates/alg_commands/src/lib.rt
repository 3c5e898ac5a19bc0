//! A file's commands, one at a time: each is cut out of the file's tokens and read, or answers its first cause.
#![tactic(auto)]

pub mod files;
mod items;
mod pieces;
pub mod readings;
#[cfg(test)]
mod tests;
