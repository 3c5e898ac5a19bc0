//! Extensions: what finds the values of named functions and the signs of heads, how a list of them is asked, and which
//! of them a LIST of names leaves on.
#![tactic(auto)]

pub mod asking;
pub mod lists;
pub mod num_ext;
pub mod sign_ext;
pub mod tables;

pub use alg_expr::Memory;
pub use asking::{sign_by, value_by};
pub use lists::{ListFault, Switches, left_on};
pub use num_ext::{NumExt, NumFault, Valued};
pub use sign_ext::{SignExt, SignKind, Signed};
pub use tables::Exts;
