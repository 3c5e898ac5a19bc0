ghost use Rattle.std.specs.Prelude.{◌≡◌, ◌<◌, ◌≤◌, length, take, IfOk};
ghost use Rattle.alg_syntax.specs.Nodes.{tree_at};
ghost use Rattle.alg_elaborate.specs.Combinations as spec;
ghost use Rattle.alg_elaborate.specs.Raw.{meant, arguments, none};
ghost use Rattle.alg_elaborate.specs.Tasks.{proofs_in};

use crate::meanings::is_hypothesis;
use alg_expr::Memory;
use alg_names::Scope;
use alg_syntax::nodes::{Node, Nodes};
use alg_syntax::signs::Operator;
use std::alloc::Global;

/// Whether an operation on parts of which these are proofs is a proof.
pub fn combines(operator: Operator, left: bool, right: bool) -> bool
    ensures { result ≡ spec.combines operator left right }
{
    match operator {
        Operator::Add => left || right,
        Operator::Sub => left || right,
        Operator::Mul => if left { !right } else { right },
        Operator::Div => left && !right,
        _ => false,
    }
}

// Whether an earlier expression is a proof.
fn part<'a>(nodes: &Nodes<'a>, scope: &Scope, proofs: &[bool], id: usize) -> bool
    requires below { id < length proofs.now }
    requires within { length proofs.now ≤ length nodes.now }
    requires same { proofs.now ≡ proofs_in scope.now (take (length proofs.now) nodes.now) }
    ensures { result ≡ spec.is_proof scope.now (meant (tree_at nodes.now id)) }
{
    proofs[id]
}

// Whether the next expression is a proof.
#[tactic(auto, using(crate::proofs::ProofTables::not_applied))]
fn next<'a>(nodes: &Nodes<'a>, scope: &Scope, proofs: &[bool]) -> bool
    requires within { length proofs.now < length nodes.now }
    requires same { proofs.now ≡ proofs_in scope.now (take (length proofs.now) nodes.now) }
    ensures { result ≡ spec.is_proof scope.now (meant (tree_at nodes.now (length proofs.now))) }
{
    match nodes.get(proofs.len()) {
        Node::Name(name) => is_hypothesis(scope.meaning(name.text())),
        Node::Group(_, a) => part(nodes, scope, proofs, *a),
        Node::Minus(a) => part(nodes, scope, proofs, *a),
        Node::Binary(operator, a, b) => {
            let left = part(nodes, scope, proofs, *a);
            let right = part(nodes, scope, proofs, *b);
            combines(*operator, left, right)
        }
        _ => false,
    }
}

/// Which expressions are proofs, by their numbers.
pub fn find_proofs<'a>(alloc: Global, nodes: &Nodes<'a>, scope: &Scope) -> Result<Vec<bool>, Memory>
    ensures { IfOk result (λ proofs. proofs.items ≡ proofs_in scope.now nodes.now) }
{
    let count = nodes.len();
    let mut proofs: Vec<bool> = Vec::new(alloc);
    'finding: while proofs.len() < count {
        let proof = next(nodes, scope, proofs.as_slice());
        proofs.push(proof)?;
    }
    Ok(proofs)
}

/// Whether an expression is a proof, by the table of all.
pub fn is_proof<'a>(nodes: &Nodes<'a>, scope: &Scope, proofs: &[bool], id: usize) -> bool
    requires here { id < length nodes.now }
    requires found { proofs.now ≡ proofs_in scope.now nodes.now }
    ensures { result ≡ spec.is_proof scope.now (meant (tree_at nodes.now id)) }
{
    proofs[id]
}

/// Whether an argument of an application is a proof.
pub fn any_argument_is_proof<'a>(
    nodes: &Nodes<'a>,
    scope: &Scope,
    proofs: &[bool],
    id: usize,
) -> bool
    requires here { id < length nodes.now }
    requires found { proofs.now ≡ proofs_in scope.now nodes.now }
    ensures { result ≡ spec.any_proof scope.now (arguments (tree_at nodes.now id) none) }
{
    let mut at = id;
    'down: loop {
        match nodes.get(at) {
            Node::Apply(a, b) => {
                if is_proof(nodes, scope, proofs, *b) {
                    return true;
                }
                at = *a;
            }
            _ => return false,
        }
    }
}
