//! When trees of commutative rings are too great to expand: range, by the text alone, costs, and the number of
//! atoms.
#![tactic(auto)]

mod atoms;
mod capped;
mod marks;
mod numerals;
mod rows;
mod sizes;
mod tops;
mod walk;
pub mod work;
mod work_walk;

pub use atoms::have_many_atoms;
pub use rows::Found;
pub use sizes::Sizes;
pub use walk::are_out_of_range;
pub use work::Work;
pub use work_walk::are_too_costly;
