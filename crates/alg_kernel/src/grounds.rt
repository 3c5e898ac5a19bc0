use alg_expr::Stmt;
use alg_law::Base;
use alg_proof::Lemmas;

/// What a proof may rest on: the lemmas of a table, the laws and hypotheses of a base, and a statement, where one is
/// given.
#[derive(Clone, Copy)]
pub(crate) struct Grounds<'a> {
    pub lemmas: &'a Lemmas,
    pub base: &'a Base,
    pub given: Option<Stmt>,
}
