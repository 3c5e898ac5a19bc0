//! The trees of Horner forms, in which everything is written: a node `p * x ^ i + q` has its exponent also where it is 1,
//! and its rest also where it is 0. So a form has one tree, and what a step does to a form it does to its tree.
#![tactic(auto)]
