//! What numerals are worth: the value of a tree, the ranges, numeral trees, and what two values say of a relation. The
//! code computes one operation at a time, and takes no memory.
#![tactic(auto)]

pub mod functions;
pub mod operations;
pub mod relations;
pub mod value;

pub use functions::{is_named, named};
pub use operations::arithmetic;
pub use relations::{decided, is_in_range};
pub use value::Value;
