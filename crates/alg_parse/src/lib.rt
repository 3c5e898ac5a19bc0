//! The reader of a file: its commands, with the declarations and goals that they are, or their first causes.
#![tactic(auto)]

mod causes;
mod commands;
mod file_trees;
mod goals;
mod labels;
mod procedures;
mod reader;
mod scripts;
mod used_names;

pub use alg_binders::Procedure;
pub use alg_elaborate::Cause;
pub use causes::cause_of;
pub use commands::{Elaborated, elaborate_command};
pub use file_trees::{Command, FileTree, read_file};
pub use goals::build_procedures;
pub use labels::unnamed;
pub use procedures::Proc;
pub use scripts::build_script;
pub use used_names::UsedNames;

#[cfg(test)]
mod tests;
