use alg_binders::Procedure;
use alg_law::Combo;

/// A procedure of a script: one that is its name alone, or a combination of hypotheses.
#[derive(Drop)]
pub enum Proc {
    Named(Procedure),
    LinearCombination(Combo),
}
