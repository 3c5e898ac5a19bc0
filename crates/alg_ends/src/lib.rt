//! How a procedure ends that puts new sides in the place of a goal's: the goal is closed, isn't changed, would be too
//! large, or is left.
#![tactic(auto)]

pub mod ending;

pub use ending::end_with;
