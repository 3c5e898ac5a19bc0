//! Values of trees, with lines: what is found of every tree that stands in a goal, by one walk over their ids.
#![tactic(auto)]

pub mod found;
pub mod gathering;
pub mod head;
pub mod leaves;
pub mod naming;
pub mod nodes;
pub mod reading;
pub mod valuing;
pub mod walk;

pub use alg_exts::{NumFault, Valued};
pub use found::{Found, Kind};
pub use reading::found_of;
pub use valuing::value;
pub use walk::{all_found, all_found_alone};
