//! The lemmas: rows that follow from the laws, each with the lines that prove it, and the table of them.
#![tactic(auto)]

pub mod combinations;
pub mod commuting;
pub mod comparisons;
pub mod exponents;
pub mod factors;
pub mod first_rows;
pub mod fraction_powers;
pub mod fraction_products;
pub mod fractions;
pub mod inequations;
pub mod integer_powers;
pub mod inverses;
pub mod joined_inequalities;
pub mod merges;
pub mod multiple_sums;
pub mod multiples;
pub mod negations;
pub mod node_pairs;
pub mod node_products;
pub mod node_sums;
pub mod positive_parts;
pub mod quotients;
pub mod rearrangements;
pub mod rests;
pub mod signs;
mod tables;
pub mod word_rows;
pub mod written_terms;

pub use alg_proof::Lemmas;
pub use tables::{lemmas, library};
