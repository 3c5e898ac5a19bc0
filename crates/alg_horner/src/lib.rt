//! Polynomials as sparse Horner forms, after Grégoire and Mahboubi, "Proving Equalities in a Commutative Ring Done
//! Right in Coq" (2005). Two forms of one polynomial are one form, whatever the coefficients are, so whether two
//! polynomials are equal is a walk over both.
//!
//! How deep a form is: each node on a path has a term of its own beside it, but for a skip and a `P * x^i + 0`, and of
//! these there is at most one each for every atom. So a form of t terms in k atoms is at most t + 2 * k + 1 nodes deep:
//! at most 4,609 for 4,096 terms in 256 atoms, which is what a goal within its limits can make, and
//! (1 + x)(1 + x^2)(1 + x^4)..(1 + x^2048) is one chain of 4,096 terms. The calls recurse over forms; `add` and `mul` as
//! deep as both forms together. On a stack of 8 MiB forms of 32,000 levels were added and multiplied.
//!
//! Calls that make a form answer `AllocError` where there is no memory, and then drop the forms that were handed in.
#![tactic(auto)]

mod add;
mod coeff;
mod form;
mod fractions;
mod mul;
mod neg;
mod pow;
mod whole;

pub use coeff::Coeff;
pub use form::{Horner, Split};
