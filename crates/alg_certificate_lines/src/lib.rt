//! What the words of certificate lines name: the way back from their spelling.
#![tactic(auto)]

pub mod building;
mod classes;
pub mod faults;
mod functions;
pub mod given;
mod heads;
mod items;
mod kinds;
pub mod known;
pub mod lines;
mod lists;
mod numbers;
mod one_tree;
mod rows;
pub mod symbols;
pub mod words;
