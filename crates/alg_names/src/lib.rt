//! The names that are in force while a file is read, what each stands for, and the classes of its type variables.
#![tactic(auto)]

mod built_in;
mod grants;
mod meanings;
mod names;
mod scope;

pub use grants::{Granted, Grants};
pub use meanings::Meaning;
pub use names::Names;
pub use scope::{Checkpoint, Scope};
