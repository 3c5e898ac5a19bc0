//! Statements as text, which reads back.
#![tactic(auto)]

mod knowing;
mod names;
mod notation;
mod printing;
mod statements;
mod tasks;

pub use statements::show;
