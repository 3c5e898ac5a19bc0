//! Products, inverses, quotients and multiples of fractions, with the lines that compute them.
#![tactic(auto)]

pub mod inverses;
pub mod multiples;
pub mod parts;
pub mod products;
pub mod quotients;
pub mod signed_products;

pub use inverses::inverse_of_fraction;
pub use multiples::{
    integer_multiple_of_fraction, multiple_of_fraction, negative_multiple_of_fraction,
};
pub use quotients::quotient_of_fractions;
pub use signed_products::product_of_fractions;
