//! Proof lines, what each concludes, and which lists of lines are valid; rows of lemmas, and the table that holds them.
#![tactic(auto)]

pub mod citing;
pub mod lemma_rows;
pub mod lemma_table;
pub mod lines;
pub mod row_names;
pub mod value_sorts;

pub use citing::{law_line, lemma_line};
pub use lemma_rows::{LemmaRow, LemmaStep};
pub use lemma_table::Lemmas;
pub use lines::{BridgeKind, ComputeHead, Line};
pub use row_names::RowName;
pub use value_sorts::value_sort;
