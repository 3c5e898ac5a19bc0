//! Polynomials with the ids of their trees, and how they are taken apart; and how their constants are written.
//!
//! Neither the trees of the atoms nor the number of a form's first atom are arguments: powers and parts are read from the
//! trees. They stand in the clauses alone, for all trees of atoms.
#![tactic(auto)]

pub mod constants;
pub mod shown;

pub use constants::Constants;
pub use shown::{Number, Opened, Shown, Told, open};
