//! What written expressions and statements mean under the names in force: their sorts, their first fault, their typed
//! trees.
#![tactic(auto)]

mod building;
mod causes;
mod combinations;
mod faults;
mod meanings;
mod node_faults;
mod operations;
mod regions;
mod settings;
mod spines;
mod statements;

pub use building::build;
pub use causes::Cause;
pub use combinations::{combines, find_proofs, is_proof};
pub use faults::first_fault;
pub use meanings::type_of;
pub use statements::{elaborate_statement, statement_sort};
