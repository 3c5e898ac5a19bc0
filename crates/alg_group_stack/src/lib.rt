//! Words of groups as stacks of syllables, with lines: powers of one tree, one more syllable, and the products of words and
//! of a word and the inverse of one.
#![tactic(auto)]

pub mod joining;
pub mod powers;
pub mod stack;
pub mod syllable;

pub use syllable::{Home, Syllable};
