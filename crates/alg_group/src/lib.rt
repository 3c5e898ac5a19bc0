//! The procedure group: equations in groups, by the reduced words of their sides.
#![tactic(auto)]

pub mod syllable_rows;
pub mod word_rows;
