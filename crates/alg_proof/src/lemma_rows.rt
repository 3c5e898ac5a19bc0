use crate::lines::{BridgeKind, ComputeHead};
use alg_law::{Law, Pat, PatSort};
use alg_terms::{Rel, Sym};

/// A line of the proof of a lemma, over patterns in place of trees.
#[derive(Clone, Copy, Debug)]
pub enum LemmaStep {
    Refl(&'static [Pat]),
    Symm(u128),
    Trans(u128, u128),
    Cong(Sym, &'static [u128]),
    Subst(u128, u128, u128),
    Law(&'static str, PatSort, &'static [&'static [Pat]], &'static [u128]),
    Lemma(&'static str, PatSort, &'static [&'static [Pat]], &'static [u128]),
    LitAdd(PatSort, u128, u128),
    LitMul(PatSort, u128, u128),
    LitRel(Rel, PatSort, u128, u128),
    Bridge(BridgeKind, u128, &'static [Pat]),
    Compute(ComputeHead, PatSort, &'static [i128]),
}

/// A lemma: a row as that of a law, and the lines that prove its conclusion. The premises are its first lines.
#[derive(Clone, Copy, Debug)]
pub struct LemmaRow {
    pub row: Law,
    pub proof: &'static [LemmaStep],
}
