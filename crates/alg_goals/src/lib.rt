//! The bases of the goals of a file that was read: a statement that is shown over one reads back.
#![tactic(auto)]

mod bases;
mod files;

pub use bases::{base_of, show_goal, show_over};
pub use files::read_goals;
