//! Sums of polynomials with lines: cases of a sum of Horner forms, each a call that doesn't recurse.
#![tactic(auto)]

pub mod arms;
