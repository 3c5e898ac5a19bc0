//! The trusted checker: a list of proof lines is accepted exactly where it is valid and ends in the goal.
#![tactic(auto)]

pub mod answers;
mod bridges;
mod computations;
pub mod conclusions;
mod congruence;
mod filling;
mod grounds;
mod hypotheses;
mod instances;
mod judging;
pub mod kernel;
mod letters;
pub mod proved;
mod relations;
mod rules;

pub use alg_terms::BadCause;
pub use answers::{Checked, Refusal};
pub use conclusions::{conclusion, row_conclusion};
pub use kernel::{Kernel, accept};
pub use proved::{Proved, ProvedStmt};
