//! A table of procedures for the trials of a run: it leaves goals, prints notes and fails, as a script asks.
#![tactic(auto)]

pub mod table;

pub use table::Trial;
