//! Proof lines under construction: a builder adds good lines alone, so that the kernel accepts what it hands out.
#![tactic(auto)]

pub mod backs;
pub mod builder;
pub mod by_rows;
pub mod closing;
pub mod combining;
mod congruence;
pub mod equations;
pub mod leaving;
pub mod line_rules;
pub mod literals;
pub mod operations;
pub mod outcome;
pub mod over_parts;
pub mod rewriting;
pub mod rows;
pub mod trees;

pub use alg_expr::Memory;
pub use alg_proof::Line;
pub use builder::{Builder, Mark, Parts};
pub use by_rows::{by_law, by_law_row, by_lemma, by_row};
pub use closing::{close, close_by, line_back};
pub use combining::{back, by_line, keep, line_of, then};
pub use leaving::leave;
pub use literals::{product_of_literals, sum_of_literals};
pub use operations::{plus, times};
pub use outcome::{Back, Outcome, TacFault};
pub use over_parts::{under, under_one, under_two};
pub use rewriting::Rewriting;
