//! What is read without a fault is well sorted, and what binders without a fault declare may follow what is declared.
//! The crate is lemmas alone: the contracts of the reader above rest on them.
#![tactic(auto)]
