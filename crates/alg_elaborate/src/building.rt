ghost use Rattle.std.specs.Prelude.{◌≡◌, ◌+◌, ◌*◌, ◌<◌, ◌++◌, suc, List, length, [], ◌∷◌, reverse, All, IfOk, IfSome, OnErr, ℕ, nat_lt, ◌^◌, option_map};
ghost use Rattle.alg_terms.specs.Tree as terms;
ghost use Rattle.alg_expr.specs.Arena.{Extends, Imports};
ghost use Rattle.alg_expr.specs.Ids.{IsIn, trees_at};
ghost use Rattle.alg_syntax.specs.Nodes.{tree_at};
ghost use Rattle.alg_elaborate.specs.declared.building.Job.TheVariants as job;
ghost use Rattle.alg_elaborate.specs.Raw.{meant, size, operation, IsApply};
ghost use Rattle.alg_elaborate.specs.TypedTrees.{compound, typed, typed_name, tree_where};
ghost use Rattle.alg_elaborate.specs.Jobs.{done, Enough, JobIn, JobsIn, jobs_size, IsSmall, leaf_tree, with_leaf, leaves_in};

use crate::meanings::{argument_sort, arity, symbol_of, type_of};
use crate::operations::{difference_of, multiple_of, power_of, quotient_of};
use crate::regions::{exponent_sort, sort_or};
use crate::spines::{head, meaning_at};
use alg_expr::{Arena, ExprFault, ExprId, Memory, Sort, Sym};
use alg_names::{Meaning, Scope};
use alg_syntax::nodes::{Node, Nodes};
use alg_syntax::signs::Operator;
use alg_terms::GREATEST_LITERAL;
use std::alloc::Global;

// What is left to build: an expression in a region of a sort, a symbol over the trees from a number on, or arguments of
// an application by the sort of its value, the number of its name, how many they are, and where the last stands.
#[derive(Clone, Copy)]
enum Job {
    Down(Sort, usize),
    Up(Sym, Sort, usize),
    Arguments(Sort, usize, usize, usize),
}

// What trees are built from: the nodes and the names in force.
#[derive(Clone, Copy)]
struct Source<'s, 'a> {
    nodes: &'s Nodes<'a>,
    scope: &'s Scope,
}

#[derive(Clone, Copy)]
enum Leaf {
    Literal(u128),
    Variable(u32),
}

// A compound tree, where its arguments fit.
#[tactic(auto, using(crate::proofs::Compounds::made_app, crate::proofs::Compounds::made_arity, crate::proofs::Compounds::made_sorts))]
fn compound(arena: &mut Arena, sym: Sym, sort: Sort, args: &[ExprId]) -> Result<ExprId, Memory>
    requires { All (IsIn arena.old) args.now }
    ensures made { IfOk result (λ e. Imports arena.old arena.new e (compound sym sort (trees_at arena.old args.now))) }
    ensures failed { OnErr result (arena.new ≡ arena.old) }
{
    match arena.app(sym, sort, args) {
        Ok(id) => Ok(id),
        Err(ExprFault::Memory) => Err(Memory),
        Err(ExprFault::BadArity) => arena.lit(sort, 0),
        Err(ExprFault::BadSort) => arena.lit(sort, 0),
    }
}

#[tactic(auto, using(crate::proofs::Compounds::imports))]
fn add_leaf(arena: &mut Arena, sort: Sort, leaf: Leaf) -> Result<ExprId, Memory>
    requires { IsSmall leaf }
    ensures made { IfOk result (λ e. Imports arena.old arena.new e (leaf_tree sort leaf)) }
    ensures failed { OnErr result (arena.new ≡ arena.old) }
{
    match leaf {
        Leaf::Literal(value) => arena.lit(sort, value),
        Leaf::Variable(decl) => arena.var(decl, sort),
    }
}

// Jobs for a symbol over one part.
fn over_one(
    jobs: &mut Vec<Job>,
    sym: Sym,
    sort: Sort,
    start: usize,
    part: (Sort, usize),
) -> Result<(), Memory>
    ensures { IfOk result (λ _. reverse jobs.new.items ≡ job.Down part.0 part.1 ∷ job.Up sym sort start ∷ reverse jobs.old.items) }
{
    jobs.push(Job::Up(sym, sort, start))?;
    jobs.push(Job::Down(part.0, part.1))?;
    Ok(())
}

// Jobs for a symbol over two parts.
fn over_two(
    jobs: &mut Vec<Job>,
    sym: Sym,
    sort: Sort,
    start: usize,
    left: (Sort, usize),
    right: (Sort, usize),
) -> Result<(), Memory>
    ensures { IfOk result (λ _. reverse jobs.new.items ≡ job.Down left.0 left.1 ∷ job.Down right.0 right.1 ∷ job.Up sym sort start ∷ reverse jobs.old.items) }
{
    jobs.push(Job::Up(sym, sort, start))?;
    jobs.push(Job::Down(right.0, right.1))?;
    jobs.push(Job::Down(left.0, left.1))?;
    Ok(())
}

// An operation.
#[tactic(auto, using(crate::proofs::Ups::up_two))]
fn plan_operation<'a>(
    alloc: Global,
    source: &Source<'_, 'a>,
    jobs: &mut Vec<Job>,
    start: usize,
    sort: Sort,
    operator: Operator,
    parts: (usize, usize),
) -> Result<(), Memory>
    requires here { (parts.0 < length source.now.nodes.now) × (parts.1 < length source.now.nodes.now) }
    requires jobs { JobsIn source.now.scope.now source.now.nodes.now (reverse jobs.old.items) }
    requires enough { Enough (reverse jobs.old.items) (suc start) }
    ensures exact { IfOk result (λ _. (vs : List terms.Tree) → length vs ≡ start → done source.now.scope.now source.now.nodes.now (reverse jobs.old.items) (vs ++ typed source.now.scope.now sort (operation operator (meant (tree_at source.now.nodes.now parts.0)) (meant (tree_at source.now.nodes.now parts.1))) ∷ []) ≡ done source.now.scope.now source.now.nodes.now (reverse jobs.new.items) vs) }
    ensures within { IfOk result (λ _. JobsIn source.now.scope.now source.now.nodes.now (reverse jobs.new.items)) }
    ensures enough { IfOk result (λ _. Enough (reverse jobs.new.items) start) }
    ensures smaller { IfOk result (λ _. jobs_size source.now.nodes.now (reverse jobs.new.items) < 4 * (size (tree_at source.now.nodes.now parts.0) + size (tree_at source.now.nodes.now parts.1) + 1) + 2 + jobs_size source.now.nodes.now (reverse jobs.old.items)) }
{
    let (a, b) = parts;
    match operator {
        Operator::Add => over_two(jobs, Sym::Add, sort, start, (sort, a), (sort, b)),
        Operator::Sub => over_two(jobs, difference_of(sort), sort, start, (sort, a), (sort, b)),
        Operator::Mul => over_two(jobs, Sym::Mul, sort, start, (sort, a), (sort, b)),
        Operator::Div => over_two(jobs, quotient_of(sort), sort, start, (sort, a), (sort, b)),
        Operator::Mod => over_two(jobs, Sym::Mod, sort, start, (sort, a), (sort, b)),
        Operator::Smul => {
            let left = exponent_sort(alloc, source.nodes, source.scope, a)?;
            over_two(jobs, multiple_of(left), sort, start, (left, a), (sort, b))
        }
        Operator::Pow => {
            let exponent = exponent_sort(alloc, source.nodes, source.scope, b)?;
            over_two(
                jobs,
                power_of(exponent),
                sort,
                start,
                (sort, a),
                (exponent, b),
            )
        }
    }
}

// An application.
#[tactic(auto, using(crate::proofs::Ups::up_all, crate::proofs::Ups::typed_whole, crate::proofs::Ups::typed_partial, crate::proofs::Ups::typed_headless))]
fn plan_applied<'a>(
    source: &Source<'_, 'a>,
    jobs: &mut Vec<Job>,
    start: usize,
    sort: Sort,
    id: usize,
) -> Result<Option<Leaf>, Memory>
    requires here { (id < length source.now.nodes.now) × IsApply (tree_at source.now.nodes.now id) }
    requires jobs { JobsIn source.now.scope.now source.now.nodes.now (reverse jobs.old.items) }
    requires enough { Enough (reverse jobs.old.items) (suc start) }
    ensures exact { IfOk result (λ o. (vs : List terms.Tree) → length vs ≡ start → done source.now.scope.now source.now.nodes.now (reverse jobs.old.items) (vs ++ typed source.now.scope.now sort (meant (tree_at source.now.nodes.now id)) ∷ []) ≡ done source.now.scope.now source.now.nodes.now (reverse jobs.new.items) (with_leaf sort o vs)) }
    ensures within { IfOk result (λ _. JobsIn source.now.scope.now source.now.nodes.now (reverse jobs.new.items)) }
    ensures enough { IfOk result (λ o. Enough (reverse jobs.new.items) (start + leaves_in o)) }
    ensures small { IfOk result (λ o. IfSome o IsSmall) }
    ensures smaller { IfOk result (λ _. jobs_size source.now.nodes.now (reverse jobs.new.items) < 4 * size (tree_at source.now.nodes.now id) + 2 + jobs_size source.now.nodes.now (reverse jobs.old.items)) }
{
    let (name, count) = head(source.nodes, id);
    let Some(name) = name else {
        return Ok(Some(Leaf::Literal(0)));
    };
    let stands_for = meaning_at(source.scope, source.nodes, name);
    if count != arity(stands_for, sort) {
        return Ok(Some(Leaf::Literal(0)));
    }
    jobs.push(Job::Up(symbol_of(stands_for), sort, start))?;
    jobs.push(Job::Arguments(sort, name, count, id))?;
    Ok(None)
}

// A variable, where the name stands for one.
fn name_leaf(sort: Sort, meaning: Option<&Meaning>) -> Leaf
    ensures tree { leaf_tree sort result ≡ typed_name sort (option_map (λ m. m.now) meaning.entry) }
    ensures small { IsSmall result }
{
    match meaning {
        Some(Meaning::Variable(decl, _)) => Leaf::Variable(*decl),
        _ => Leaf::Literal(0),
    }
}

fn literal_leaf(sort: Sort, value: u128) -> Leaf
    ensures tree { leaf_tree sort result ≡ tree_where (nat_lt value (2 ^ 127)) (terms.Lit sort value) sort }
    ensures small { IsSmall result }
{
    if value <= GREATEST_LITERAL {
        Leaf::Literal(value)
    } else {
        Leaf::Literal(0)
    }
}

// Looks at an expression's root: a leaf that is to be built now, or what is to be built for it.
#[tactic(auto, using(crate::proofs::Ups::up_one))]
fn plan<'a>(
    alloc: Global,
    source: &Source<'_, 'a>,
    jobs: &mut Vec<Job>,
    start: usize,
    sort: Sort,
    id: usize,
) -> Result<Option<Leaf>, Memory>
    requires here { id < length source.now.nodes.now }
    requires jobs { JobsIn source.now.scope.now source.now.nodes.now (reverse jobs.old.items) }
    requires enough { Enough (reverse jobs.old.items) (suc start) }
    ensures exact { IfOk result (λ o. (vs : List terms.Tree) → length vs ≡ start → done source.now.scope.now source.now.nodes.now (reverse jobs.old.items) (vs ++ typed source.now.scope.now sort (meant (tree_at source.now.nodes.now id)) ∷ []) ≡ done source.now.scope.now source.now.nodes.now (reverse jobs.new.items) (with_leaf sort o vs)) }
    ensures within { IfOk result (λ _. JobsIn source.now.scope.now source.now.nodes.now (reverse jobs.new.items)) }
    ensures enough { IfOk result (λ o. Enough (reverse jobs.new.items) (start + leaves_in o)) }
    ensures small { IfOk result (λ o. IfSome o IsSmall) }
    ensures smaller { IfOk result (λ _. jobs_size source.now.nodes.now (reverse jobs.new.items) < 4 * size (tree_at source.now.nodes.now id) + 2 + jobs_size source.now.nodes.now (reverse jobs.old.items)) }
{
    match source.nodes.get(id) {
        Node::Number(_, value) => Ok(Some(literal_leaf(sort, *value))),
        Node::Name(name) => Ok(Some(name_leaf(sort, source.scope.meaning(name.text())))),
        Node::Group(_, a) => {
            jobs.push(Job::Down(sort, *a))?;
            Ok(None)
        }
        Node::Ascribed(_, a, name) => {
            let inside = sort_or(sort, type_of(source.scope.meaning(name.text())));
            jobs.push(Job::Down(inside, *a))?;
            Ok(None)
        }
        Node::Minus(a) => {
            over_one(jobs, Sym::Neg, sort, start, (sort, *a))?;
            Ok(None)
        }
        Node::Inverse(a) => {
            over_one(jobs, Sym::Inv, sort, start, (sort, *a))?;
            Ok(None)
        }
        Node::Binary(operator, a, b) => {
            plan_operation(alloc, source, jobs, start, sort, *operator, (*a, *b))?;
            Ok(None)
        }
        Node::Apply(_, _) => plan_applied(source, jobs, start, sort, id),
    }
}

// Puts the last argument behind the others.
fn last_argument<'a>(
    source: &Source<'_, 'a>,
    jobs: &mut Vec<Job>,
    sort: Sort,
    name: usize,
    count: usize,
    id: usize,
) -> Result<(), Memory>
    requires jobs { JobsIn source.now.scope.now source.now.nodes.now (reverse jobs.old.items) }
    requires job { JobIn source.now.scope.now source.now.nodes.now (job.Arguments sort name count id) }
    ensures same { IfOk result (λ _. (vs : List terms.Tree) → done source.now.scope.now source.now.nodes.now (reverse jobs.new.items) vs ≡ done source.now.scope.now source.now.nodes.now (job.Arguments sort name count id ∷ reverse jobs.old.items) vs) }
    ensures within { IfOk result (λ _. JobsIn source.now.scope.now source.now.nodes.now (reverse jobs.new.items)) }
    ensures enough { IfOk result (λ _. (m : ℕ) → Enough (job.Arguments sort name count id ∷ reverse jobs.old.items) m → Enough (reverse jobs.new.items) m) }
    ensures smaller { IfOk result (λ _. jobs_size source.now.nodes.now (reverse jobs.new.items) < 4 * size (tree_at source.now.nodes.now id) + jobs_size source.now.nodes.now (reverse jobs.old.items)) }
{
    if let Node::Apply(a, b) = source.nodes.get(id) {
        let last = count - 1;
        let stands_for = meaning_at(source.scope, source.nodes, name);
        let Some(argument) = argument_sort(stands_for, sort, last) else {
            return Ok(());
        };
        jobs.push(Job::Down(argument, *b))?;
        jobs.push(Job::Arguments(sort, name, last, *a))?;
    }
    Ok(())
}

/// Builds the typed tree of an expression in a region of the given sort.
pub fn build<'a>(
    alloc: Global,
    arena: &mut Arena,
    nodes: &Nodes<'a>,
    scope: &Scope,
    sort: Sort,
    id: usize,
) -> Result<ExprId, Memory>
    requires { id < length nodes.now }
    ensures kept { Extends arena.old arena.new }
    ensures built { IfOk result (λ e. Imports arena.old arena.new e (typed scope.now sort (meant (tree_at nodes.now id)))) }
{
    let source = Source { nodes, scope };
    let mut jobs: Vec<Job> = Vec::new(alloc);
    let mut values: Vec<ExprId> = Vec::new(alloc);
    jobs.push(Job::Down(sort, id))?;
    'building: while let Some(job) = jobs.pop() {
        match job {
            Job::Down(sort, id) => {
                let start = values.len();
                if let Some(leaf) = plan(alloc, &source, &mut jobs, start, sort, id)? {
                    let made = add_leaf(arena, sort, leaf)?;
                    values.push(made)?;
                }
            }
            Job::Up(sym, sort, start) => {
                let made = compound(arena, sym, sort, &values[start..])?;
                values.truncate(start);
                values.push(made)?;
            }
            Job::Arguments(sort, name, count, id) => last_argument(
                &source, &mut jobs, sort, name, count, id,
            )?,
        }
    }
    Ok(values[0])
}
