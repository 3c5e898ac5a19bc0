//! A run of the program over any host and any table of procedures.
#![tactic(auto)]

pub mod checking;
pub mod commands;
pub mod demonstration;
pub mod events;
pub mod files;
pub mod program;
pub mod status;

pub use program::run_by;
pub use status::Status;
