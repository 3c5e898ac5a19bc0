//! What a run is to do: the report on a file, its certificate, and the order of the events, for any table of procedures.
//! Of code there are only the words of the report that don't depend on a goal.
#![tactic(auto)]

pub mod causes;
pub mod tally;

pub use causes::{FailCause, text_of_cause, text_of_note};
pub use tally::Tally;
