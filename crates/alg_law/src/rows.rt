use crate::classes::Class;
use crate::patterns::PatStmt;

/// What a law asks of the sort of an instance.
#[derive(Clone, Copy, Debug)]
pub enum Need {
    /// The sort has the class.
    Class(Class),
    /// The sort is ℕ.
    IsNat,
}

/// A law: a sort that meets the needs, trees for the letters and proofs of the premises give the conclusion.
#[derive(Clone, Copy, Debug)]
pub struct Law {
    pub name: &'static str,
    pub needs: &'static [Need],
    pub premises: &'static [PatStmt],
    pub conclusion: PatStmt,
}
