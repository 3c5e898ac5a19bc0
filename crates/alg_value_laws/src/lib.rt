//! Laws of values: the value of a tree has a numeral in the tree's sort.
#![tactic(auto)]
