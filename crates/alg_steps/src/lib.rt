//! What a procedure of a script answers, and what a table of procedures has to keep.
#![tactic(auto)]

pub mod answers;
pub mod notes;
pub mod procedures;

pub use alg_exts::Exts;
pub use alg_parse::Proc;
pub use answers::{Made, StepFault, answered};
pub use notes::Note;
pub use procedures::Procedures;
