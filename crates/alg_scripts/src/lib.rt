//! The script of one goal, whatever the procedures are: run over one builder, and its proof checked by the kernel.
#![tactic(auto)]

pub mod combinations;
pub mod entries;
pub mod fates;
pub mod finishing;
pub mod proving;
pub mod running;
pub mod steps;

pub use alg_report::FailCause;
pub use entries::Proof;
pub use fates::{End, Fate};
pub use proving::prove_goal;
