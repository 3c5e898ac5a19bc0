//! The words in which everything else is said: sorts, symbols, relations, typed trees and
//! statements, the order of trees, and the causes for which a proof line is bad.
#![tactic(auto)]

mod causes;
mod literals;
mod relations;
mod sorts;
mod symbols;

pub use causes::BadCause;
pub use literals::GREATEST_LITERAL;
pub use relations::Rel;
pub use sorts::Sort;
pub use symbols::{Place, Sym};
