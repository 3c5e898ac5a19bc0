//! The numerals of whole numbers of both signs, and the lines that compute with them.
#![tactic(auto)]

pub mod combined;
pub mod comparisons;
pub mod differences;
pub mod integers;
pub mod literals;
pub mod naturals;
pub mod negatives;
pub mod relations;

pub use combined::Combined;
pub use comparisons::relation_of_integers;
pub use differences::difference_of_integers;
pub use integers::{negation_of_integer, numeral_of_integer, product_of_integers, sum_of_integers};
pub use relations::relation_of_literals;
