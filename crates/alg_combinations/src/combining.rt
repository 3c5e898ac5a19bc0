ghost use Rattle.std.specs.Prelude.{◌≡◌, ◌+◌, ◌*◌, ◌<◌, ◌++◌, length, All, reverse, IfOk, option_map};
ghost use Rattle.alg_expr.specs.Arena.{Extends};
ghost use Rattle.alg_terms.specs.declared.sorts.Sort as sorts;
ghost use Rattle.alg_syntax.specs.Nodes.{tree_at};
ghost use Rattle.alg_names.specs.declared.scope.Scope as declared;
ghost use Rattle.alg_elaborate.specs.Raw.{Raw, meant, size};
ghost use Rattle.alg_elaborate.specs.Tasks.{proofs_in};
ghost use Rattle.alg_elaborate.specs.TypedTrees.{typed};
ghost use Rattle.alg_law.specs.Combinations.{part_of, parts_of, IsStepIn};
ghost use Rattle.alg_combinations.specs.Combined.{named_part, combined};
ghost use Rattle.alg_combinations.specs.Combining as steps;
ghost use Rattle.alg_combinations.specs.Combining.{left_of, JobsIn, jobs_size, leaf_of, with_leaf};

use alg_elaborate::{build, combines, is_proof};
use alg_expr::{Arena, Items, Memory, Sort};
use alg_law::{Combo, ComboStep};
use alg_names::{Meaning, Scope};
use alg_syntax::nodes::{Node, Nodes};
use alg_syntax::signs::Operator;
use std::alloc::Global;

// What is left to do: an expression, the negation of the newest combination, or an operation on the newest two.
#[derive(Clone, Copy)]
enum Job {
    Down(usize),
    Negate,
    Join(Operator),
}

#[derive(Clone, Copy)]
enum Leaf {
    Hypothesis(u32),
    Expression,
}

// The step of an operation; only these four combine.
fn step_of(operator: Operator) -> ComboStep
    ensures { result ≡ steps.step_of operator }
{
    match operator {
        Operator::Sub => ComboStep::Sub,
        Operator::Mul => ComboStep::Mul,
        Operator::Div => ComboStep::Div,
        _ => ComboStep::Add,
    }
}

// A hypothesis, where the name stands for one.
fn name_leaf(meaning: Option<&Meaning>) -> Leaf
    ensures { (s : declared.Scope) (k : sorts.Sort) (r : Raw) → leaf_of s k r result ≡ named_part (typed s k r) (option_map (λ m. m.now) meaning.entry) }
{
    match meaning {
        Some(Meaning::Hypothesis(number, _, _)) => Leaf::Hypothesis(*number),
        _ => Leaf::Expression,
    }
}

// Looks at an expression's root: a leaf that is to be built now, or what is to be combined.
#[tactic(auto, using(crate::proofs::CombinedLaws::not_applied))]
fn plan<'a>(
    nodes: &Nodes<'a>,
    scope: &Scope,
    proofs: &[bool],
    jobs: &mut Vec<Job>,
    sort: Sort,
    id: usize,
) -> Result<Option<Leaf>, Memory>
    requires here { id < length nodes.now }
    requires jobs { JobsIn (length nodes.now) (reverse jobs.old.items) }
    requires found { proofs.now ≡ proofs_in scope.now nodes.now }
    ensures exact { IfOk result (λ o. combined scope.now sort (meant (tree_at nodes.now id)) ++ left_of scope.now sort nodes.now (reverse jobs.old.items) ≡ with_leaf scope.now sort (meant (tree_at nodes.now id)) o (left_of scope.now sort nodes.now (reverse jobs.new.items))) }
    ensures within { IfOk result (λ _. JobsIn (length nodes.now) (reverse jobs.new.items)) }
    ensures smaller { IfOk result (λ _. jobs_size nodes.now (reverse jobs.new.items) < 2 * size (tree_at nodes.now id) + jobs_size nodes.now (reverse jobs.old.items)) }
{
    match nodes.get(id) {
        Node::Name(name) => Ok(Some(name_leaf(scope.meaning(name.text())))),
        Node::Group(_, a) => {
            jobs.push(Job::Down(*a))?;
            Ok(None)
        }
        Node::Minus(a) => {
            if !is_proof(nodes, scope, proofs, *a) {
                return Ok(Some(Leaf::Expression));
            }
            jobs.push(Job::Negate)?;
            jobs.push(Job::Down(*a))?;
            Ok(None)
        }
        Node::Binary(operator, a, b) => {
            let left = is_proof(nodes, scope, proofs, *a);
            let right = is_proof(nodes, scope, proofs, *b);
            if !combines(*operator, left, right) {
                return Ok(Some(Leaf::Expression));
            }
            jobs.push(Job::Join(*operator))?;
            jobs.push(Job::Down(*b))?;
            jobs.push(Job::Down(*a))?;
            Ok(None)
        }
        _ => Ok(Some(Leaf::Expression)),
    }
}

// The step of a leaf of an expression.
#[tactic(auto, using(crate::proofs::CombinedLaws::extends_self))]
fn leaf_step<'a>(
    alloc: Global,
    arena: &mut Arena,
    nodes: &Nodes<'a>,
    scope: &Scope,
    sort: Sort,
    id: usize,
    leaf: Leaf,
) -> Result<ComboStep, Memory>
    requires { id < length nodes.now }
    ensures kept { Extends arena.old arena.new }
    ensures here { IfOk result (IsStepIn arena.new) }
    ensures told { IfOk result (λ c. part_of arena.new c ≡ leaf_of scope.now sort (meant (tree_at nodes.now id)) leaf) }
{
    match leaf {
        Leaf::Hypothesis(number) => Ok(ComboStep::Hyp(number)),
        Leaf::Expression => Ok(ComboStep::Expr(build(alloc, arena, nodes, scope, sort, id)?)),
    }
}

/// What an expression of the given sort says as a combination of hypotheses. `proofs` says which expressions are
/// proofs. Without a fault its largest parts without hypotheses are its only expressions.
pub fn build_combination<'a>(
    alloc: Global,
    arena: &mut Arena,
    nodes: &Nodes<'a>,
    scope: &Scope,
    proofs: &[bool],
    sort: Sort,
    id: usize,
) -> Result<Combo, Memory>
    requires here { id < length nodes.now }
    requires found { proofs.now ≡ proofs_in scope.now nodes.now }
    ensures kept { Extends arena.old arena.new }
    ensures here { IfOk result (λ c. All (IsStepIn arena.new) c.steps) }
    ensures told { IfOk result (λ c. parts_of arena.new c ≡ combined scope.now sort (meant (tree_at nodes.now id))) }
{
    let mut jobs: Vec<Job> = Vec::new(alloc);
    let mut steps: Vec<ComboStep> = Vec::new(alloc);
    jobs.push(Job::Down(id))?;
    'combining: while let Some(job) = jobs.pop() {
        match job {
            Job::Down(id) => {
                if let Some(leaf) = plan(nodes, scope, proofs, &mut jobs, sort, id)? {
                    let step = leaf_step(alloc, arena, nodes, scope, sort, id, leaf)?;
                    steps.push(step)?;
                }
            }
            Job::Negate => steps.push(ComboStep::Neg)?,
            Job::Join(operator) => steps.push(step_of(operator))?,
        }
    }
    Ok(Combo {
        steps: Items::of(steps),
    })
}
