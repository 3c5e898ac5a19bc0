//! Formal sums, monomials, the order of trees, and fractions in lowest terms as a ring. Definitions and lemmas alone.
#![tactic(auto)]
