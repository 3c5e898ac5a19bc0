use alg_names::Scope;
use alg_syntax::nodes::Nodes;

/// Where an expression is checked: the nodes, the names in force, and whether hypotheses are combined. Where they are,
/// `proofs` says of each node whether it is a proof; else nothing asks it.
#[derive(Clone, Copy)]
pub struct Setting<'s, 'a> {
    pub nodes: &'s Nodes<'a>,
    pub scope: &'s Scope,
    pub proofs: &'s [bool],
    pub combining: bool,
}
