//! What binders and commands that are read declare under the names in force, and their first fault.
#![tactic(auto)]

mod adding;
mod binders;
mod class_names;
mod domains;
mod goals;
mod procedures;
mod taken;

pub use adding::add_names;
pub use binders::{add_binder, add_binders};
pub use class_names::class_named;
pub use domains::{Said, elaborate_domain};
pub use goals::{Stated, elaborate_goal};
pub use procedures::{Procedure, procedure_named};
pub use taken::taken_fault;
