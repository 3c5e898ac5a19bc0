//! The table of the procedures: what each answers, and which call runs it.
#![tactic(auto)]

pub mod table;

pub use table::Table;
