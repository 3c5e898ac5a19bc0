ghost use Rattle.std.specs.Prelude.{◌≡◌, ◌+◌, ◌*◌, ◌<◌, ◌++◌, length, true, reverse, IfOk};
ghost use Rattle.alg_syntax.specs.declared.signs.Operator.TheVariants as operator;
ghost use Rattle.alg_syntax.specs.Nodes.{tree_at};
ghost use Rattle.alg_elaborate.specs.declared.faults.Task.TheVariants as task;
ghost use Rattle.alg_elaborate.specs.Raw.{meant, size, negation, operation, reciprocal, of_sort, IsApply};
ghost use Rattle.alg_elaborate.specs.Faults.{first, faults, lacks, miscombines};
ghost use Rattle.alg_elaborate.specs.Tasks.{task_faults, faults_of_all, TaskIn, TasksIn, tasks_size, first_or, proofs_in};

use crate::causes::Cause;
use crate::meanings::{argument_sort, type_of};
use crate::node_faults::{
    applied_fault, argument_misused, lacks, lacks_by, literal_fault, miscombined, misused,
    name_fault, not_integral, sort_name_fault,
};
use crate::operations::{difference_of, multiple_of, power_of, quotient_of};
use crate::regions::{exponent_sort, sort_or};
use crate::settings::Setting;
use crate::spines::{head, meaning_at};
use alg_expr::{Memory, Sort, Sym};
use alg_names::Scope;
use alg_syntax::nodes::{Node, Nodes};
use alg_syntax::signs::{Name, Operator};
use std::alloc::Global;

// What is left to check: an expression in a region of a sort, an exponent of a sort, or arguments of an application by
// the sort of its value, the number of its name, how many they are, and where the last stands.
#[derive(Clone, Copy)]
enum Task {
    Expression(Sort, usize),
    Exponent(Sort, usize),
    Arguments(Sort, usize, usize, usize),
}

// A name with its sort.
fn check_ascribed<'a>(
    setting: &Setting<'_, 'a>,
    todo: &mut Vec<Task>,
    sort: Sort,
    part: usize,
    name: &Name<'a>,
) -> Result<Option<Cause>, Memory>
    requires here { part < length setting.now.nodes.now }
    requires todo { TasksIn setting.now.scope.now setting.now.nodes.now (reverse todo.old.items) }
    requires found { setting.now.combining ≡ true → setting.now.proofs.now ≡ proofs_in setting.now.scope.now setting.now.nodes.now }
    ensures exact { IfOk result (λ o. first (faults setting.now.scope.now setting.now.combining sort (of_sort (meant (tree_at setting.now.nodes.now part)) name.now.text) ++ faults_of_all setting.now.scope.now setting.now.combining setting.now.nodes.now (reverse todo.old.items)) ≡ first_or o (faults_of_all setting.now.scope.now setting.now.combining setting.now.nodes.now (reverse todo.new.items))) }
    ensures within { TasksIn setting.now.scope.now setting.now.nodes.now (reverse todo.new.items) }
    ensures smaller { tasks_size setting.now.nodes.now (reverse todo.new.items) < 3 * (size (tree_at setting.now.nodes.now part) + 1) + 1 + tasks_size setting.now.nodes.now (reverse todo.old.items) }
{
    let stands_for = setting.scope.meaning(name.text());
    if let Some(cause) = sort_name_fault(sort, stands_for) {
        return Ok(Some(cause));
    }
    if let Some(cause) = misused(setting, part) {
        return Ok(Some(cause));
    }
    todo.push(Task::Expression(sort_or(sort, type_of(stands_for)), part))?;
    Ok(None)
}

// A negation.
fn check_negation<'a>(
    setting: &Setting<'_, 'a>,
    todo: &mut Vec<Task>,
    sort: Sort,
    part: usize,
) -> Result<Option<Cause>, Memory>
    requires here { part < length setting.now.nodes.now }
    requires todo { TasksIn setting.now.scope.now setting.now.nodes.now (reverse todo.old.items) }
    requires found { setting.now.combining ≡ true → setting.now.proofs.now ≡ proofs_in setting.now.scope.now setting.now.nodes.now }
    ensures exact { IfOk result (λ o. first (faults setting.now.scope.now setting.now.combining sort (negation (meant (tree_at setting.now.nodes.now part))) ++ faults_of_all setting.now.scope.now setting.now.combining setting.now.nodes.now (reverse todo.old.items)) ≡ first_or o (faults_of_all setting.now.scope.now setting.now.combining setting.now.nodes.now (reverse todo.new.items))) }
    ensures within { TasksIn setting.now.scope.now setting.now.nodes.now (reverse todo.new.items) }
    ensures smaller { tasks_size setting.now.nodes.now (reverse todo.new.items) < 3 * (size (tree_at setting.now.nodes.now part) + 1) + 1 + tasks_size setting.now.nodes.now (reverse todo.old.items) }
{
    if let Some(cause) = lacks(setting.scope, Sym::Neg, sort) {
        return Ok(Some(cause));
    }
    todo.push(Task::Expression(sort, part))?;
    Ok(None)
}

// An inverse.
fn check_inverse<'a>(
    setting: &Setting<'_, 'a>,
    todo: &mut Vec<Task>,
    sort: Sort,
    part: usize,
) -> Result<Option<Cause>, Memory>
    requires here { part < length setting.now.nodes.now }
    requires todo { TasksIn setting.now.scope.now setting.now.nodes.now (reverse todo.old.items) }
    requires found { setting.now.combining ≡ true → setting.now.proofs.now ≡ proofs_in setting.now.scope.now setting.now.nodes.now }
    ensures exact { IfOk result (λ o. first (faults setting.now.scope.now setting.now.combining sort (reciprocal (meant (tree_at setting.now.nodes.now part))) ++ faults_of_all setting.now.scope.now setting.now.combining setting.now.nodes.now (reverse todo.old.items)) ≡ first_or o (faults_of_all setting.now.scope.now setting.now.combining setting.now.nodes.now (reverse todo.new.items))) }
    ensures within { TasksIn setting.now.scope.now setting.now.nodes.now (reverse todo.new.items) }
    ensures smaller { tasks_size setting.now.nodes.now (reverse todo.new.items) < 3 * (size (tree_at setting.now.nodes.now part) + 1) + 1 + tasks_size setting.now.nodes.now (reverse todo.old.items) }
{
    if let Some(cause) = lacks(setting.scope, Sym::Inv, sort) {
        return Ok(Some(cause));
    }
    if let Some(cause) = misused(setting, part) {
        return Ok(Some(cause));
    }
    todo.push(Task::Expression(sort, part))?;
    Ok(None)
}

// An operation whose parts are of one region.
fn check_pair<'a>(
    setting: &Setting<'_, 'a>,
    todo: &mut Vec<Task>,
    sort: Sort,
    sym: Sym,
    operator: Operator,
    parts: (usize, usize),
) -> Result<Option<Cause>, Memory>
    requires here { (parts.0 < length setting.now.nodes.now) × (parts.1 < length setting.now.nodes.now) }
    requires todo { TasksIn setting.now.scope.now setting.now.nodes.now (reverse todo.old.items) }
    requires found { setting.now.combining ≡ true → setting.now.proofs.now ≡ proofs_in setting.now.scope.now setting.now.nodes.now }
    ensures exact { IfOk result (λ o. first ((lacks setting.now.scope.now sym sort ++ (miscombines setting.now.scope.now setting.now.combining (operation operator (meant (tree_at setting.now.nodes.now parts.0)) (meant (tree_at setting.now.nodes.now parts.1))) ++ (faults setting.now.scope.now setting.now.combining sort (meant (tree_at setting.now.nodes.now parts.0)) ++ faults setting.now.scope.now setting.now.combining sort (meant (tree_at setting.now.nodes.now parts.1))))) ++ faults_of_all setting.now.scope.now setting.now.combining setting.now.nodes.now (reverse todo.old.items)) ≡ first_or o (faults_of_all setting.now.scope.now setting.now.combining setting.now.nodes.now (reverse todo.new.items))) }
    ensures within { TasksIn setting.now.scope.now setting.now.nodes.now (reverse todo.new.items) }
    ensures smaller { tasks_size setting.now.nodes.now (reverse todo.new.items) < 3 * (size (tree_at setting.now.nodes.now parts.0) + size (tree_at setting.now.nodes.now parts.1) + 1) + 1 + tasks_size setting.now.nodes.now (reverse todo.old.items) }
{
    if let Some(cause) = lacks(setting.scope, sym, sort) {
        return Ok(Some(cause));
    }
    if let Some(cause) = miscombined(setting, operator, parts) {
        return Ok(Some(cause));
    }
    todo.push(Task::Expression(sort, parts.1))?;
    todo.push(Task::Expression(sort, parts.0))?;
    Ok(None)
}

// A multiple.
fn check_multiple<'a>(
    alloc: Global,
    setting: &Setting<'_, 'a>,
    todo: &mut Vec<Task>,
    sort: Sort,
    parts: (usize, usize),
) -> Result<Option<Cause>, Memory>
    requires here { (parts.0 < length setting.now.nodes.now) × (parts.1 < length setting.now.nodes.now) }
    requires todo { TasksIn setting.now.scope.now setting.now.nodes.now (reverse todo.old.items) }
    requires found { setting.now.combining ≡ true → setting.now.proofs.now ≡ proofs_in setting.now.scope.now setting.now.nodes.now }
    ensures exact { IfOk result (λ o. first (faults setting.now.scope.now setting.now.combining sort (operation operator.Smul (meant (tree_at setting.now.nodes.now parts.0)) (meant (tree_at setting.now.nodes.now parts.1))) ++ faults_of_all setting.now.scope.now setting.now.combining setting.now.nodes.now (reverse todo.old.items)) ≡ first_or o (faults_of_all setting.now.scope.now setting.now.combining setting.now.nodes.now (reverse todo.new.items))) }
    ensures within { TasksIn setting.now.scope.now setting.now.nodes.now (reverse todo.new.items) }
    ensures smaller { tasks_size setting.now.nodes.now (reverse todo.new.items) < 3 * (size (tree_at setting.now.nodes.now parts.0) + size (tree_at setting.now.nodes.now parts.1) + 1) + 1 + tasks_size setting.now.nodes.now (reverse todo.old.items) }
{
    let left = exponent_sort(alloc, setting.nodes, setting.scope, parts.0)?;
    if let Some(cause) = lacks_by(setting.scope, left, multiple_of(left), sort) {
        return Ok(Some(cause));
    }
    if let Some(cause) = miscombined(setting, Operator::Smul, parts) {
        return Ok(Some(cause));
    }
    todo.push(Task::Expression(sort, parts.1))?;
    todo.push(Task::Exponent(left, parts.0))?;
    Ok(None)
}

// A power.
fn check_power<'a>(
    alloc: Global,
    setting: &Setting<'_, 'a>,
    todo: &mut Vec<Task>,
    sort: Sort,
    parts: (usize, usize),
) -> Result<Option<Cause>, Memory>
    requires here { (parts.0 < length setting.now.nodes.now) × (parts.1 < length setting.now.nodes.now) }
    requires todo { TasksIn setting.now.scope.now setting.now.nodes.now (reverse todo.old.items) }
    requires found { setting.now.combining ≡ true → setting.now.proofs.now ≡ proofs_in setting.now.scope.now setting.now.nodes.now }
    ensures exact { IfOk result (λ o. first (faults setting.now.scope.now setting.now.combining sort (operation operator.Pow (meant (tree_at setting.now.nodes.now parts.0)) (meant (tree_at setting.now.nodes.now parts.1))) ++ faults_of_all setting.now.scope.now setting.now.combining setting.now.nodes.now (reverse todo.old.items)) ≡ first_or o (faults_of_all setting.now.scope.now setting.now.combining setting.now.nodes.now (reverse todo.new.items))) }
    ensures within { TasksIn setting.now.scope.now setting.now.nodes.now (reverse todo.new.items) }
    ensures smaller { tasks_size setting.now.nodes.now (reverse todo.new.items) < 3 * (size (tree_at setting.now.nodes.now parts.0) + size (tree_at setting.now.nodes.now parts.1) + 1) + 1 + tasks_size setting.now.nodes.now (reverse todo.old.items) }
{
    let exponent = exponent_sort(alloc, setting.nodes, setting.scope, parts.1)?;
    if let Some(cause) = lacks_by(setting.scope, exponent, power_of(exponent), sort) {
        return Ok(Some(cause));
    }
    if let Some(cause) = miscombined(setting, Operator::Pow, parts) {
        return Ok(Some(cause));
    }
    todo.push(Task::Exponent(exponent, parts.1))?;
    todo.push(Task::Expression(sort, parts.0))?;
    Ok(None)
}

// An operation.
fn check_operation<'a>(
    alloc: Global,
    setting: &Setting<'_, 'a>,
    todo: &mut Vec<Task>,
    sort: Sort,
    operator: Operator,
    parts: (usize, usize),
) -> Result<Option<Cause>, Memory>
    requires here { (parts.0 < length setting.now.nodes.now) × (parts.1 < length setting.now.nodes.now) }
    requires todo { TasksIn setting.now.scope.now setting.now.nodes.now (reverse todo.old.items) }
    requires found { setting.now.combining ≡ true → setting.now.proofs.now ≡ proofs_in setting.now.scope.now setting.now.nodes.now }
    ensures exact { IfOk result (λ o. first (faults setting.now.scope.now setting.now.combining sort (operation operator (meant (tree_at setting.now.nodes.now parts.0)) (meant (tree_at setting.now.nodes.now parts.1))) ++ faults_of_all setting.now.scope.now setting.now.combining setting.now.nodes.now (reverse todo.old.items)) ≡ first_or o (faults_of_all setting.now.scope.now setting.now.combining setting.now.nodes.now (reverse todo.new.items))) }
    ensures within { TasksIn setting.now.scope.now setting.now.nodes.now (reverse todo.new.items) }
    ensures smaller { tasks_size setting.now.nodes.now (reverse todo.new.items) < 3 * (size (tree_at setting.now.nodes.now parts.0) + size (tree_at setting.now.nodes.now parts.1) + 1) + 1 + tasks_size setting.now.nodes.now (reverse todo.old.items) }
{
    match operator {
        Operator::Add => check_pair(setting, todo, sort, Sym::Add, operator, parts),
        Operator::Sub => check_pair(setting, todo, sort, difference_of(sort), operator, parts),
        Operator::Mul => check_pair(setting, todo, sort, Sym::Mul, operator, parts),
        Operator::Div => check_pair(setting, todo, sort, quotient_of(sort), operator, parts),
        Operator::Mod => check_pair(setting, todo, sort, Sym::Mod, operator, parts),
        Operator::Smul => check_multiple(alloc, setting, todo, sort, parts),
        Operator::Pow => check_power(alloc, setting, todo, sort, parts),
    }
}

// An application.
#[tactic(auto, using(crate::proofs::Applications::applied_name, crate::proofs::Applications::applied_nothing))]
fn check_applied<'a>(
    setting: &Setting<'_, 'a>,
    todo: &mut Vec<Task>,
    sort: Sort,
    id: usize,
) -> Result<Option<Cause>, Memory>
    requires here { (id < length setting.now.nodes.now) × IsApply (tree_at setting.now.nodes.now id) }
    requires todo { TasksIn setting.now.scope.now setting.now.nodes.now (reverse todo.old.items) }
    requires found { setting.now.combining ≡ true → setting.now.proofs.now ≡ proofs_in setting.now.scope.now setting.now.nodes.now }
    ensures exact { IfOk result (λ o. first (faults setting.now.scope.now setting.now.combining sort (meant (tree_at setting.now.nodes.now id)) ++ faults_of_all setting.now.scope.now setting.now.combining setting.now.nodes.now (reverse todo.old.items)) ≡ first_or o (faults_of_all setting.now.scope.now setting.now.combining setting.now.nodes.now (reverse todo.new.items))) }
    ensures within { TasksIn setting.now.scope.now setting.now.nodes.now (reverse todo.new.items) }
    ensures smaller { tasks_size setting.now.nodes.now (reverse todo.new.items) < 3 * size (tree_at setting.now.nodes.now id) + 1 + tasks_size setting.now.nodes.now (reverse todo.old.items) }
{
    let (name, count) = head(setting.nodes, id);
    let Some(name) = name else {
        return Ok(literal_fault(setting.scope, sort, 0));
    };
    let stands_for = meaning_at(setting.scope, setting.nodes, name);
    if let Some(cause) = applied_fault(setting.scope, sort, stands_for, count) {
        return Ok(Some(cause));
    }
    if let Some(cause) = argument_misused(setting, id) {
        return Ok(Some(cause));
    }
    todo.push(Task::Arguments(sort, name, count, id))?;
    Ok(None)
}

// Checks an expression's root: what is wrong with it, and what is left to check.
fn check_root<'a>(
    alloc: Global,
    setting: &Setting<'_, 'a>,
    todo: &mut Vec<Task>,
    sort: Sort,
    id: usize,
) -> Result<Option<Cause>, Memory>
    requires here { id < length setting.now.nodes.now }
    requires todo { TasksIn setting.now.scope.now setting.now.nodes.now (reverse todo.old.items) }
    requires found { setting.now.combining ≡ true → setting.now.proofs.now ≡ proofs_in setting.now.scope.now setting.now.nodes.now }
    ensures exact { IfOk result (λ o. first (faults setting.now.scope.now setting.now.combining sort (meant (tree_at setting.now.nodes.now id)) ++ faults_of_all setting.now.scope.now setting.now.combining setting.now.nodes.now (reverse todo.old.items)) ≡ first_or o (faults_of_all setting.now.scope.now setting.now.combining setting.now.nodes.now (reverse todo.new.items))) }
    ensures within { TasksIn setting.now.scope.now setting.now.nodes.now (reverse todo.new.items) }
    ensures smaller { tasks_size setting.now.nodes.now (reverse todo.new.items) < 3 * size (tree_at setting.now.nodes.now id) + 1 + tasks_size setting.now.nodes.now (reverse todo.old.items) }
{
    match setting.nodes.get(id) {
        Node::Number(_, value) => Ok(literal_fault(setting.scope, sort, *value)),
        Node::Name(name) => Ok(name_fault(
            setting.combining,
            sort,
            setting.scope.meaning(name.text()),
        )),
        Node::Group(_, a) => {
            todo.push(Task::Expression(sort, *a))?;
            Ok(None)
        }
        Node::Ascribed(_, a, name) => check_ascribed(setting, todo, sort, *a, name),
        Node::Minus(a) => check_negation(setting, todo, sort, *a),
        Node::Inverse(a) => check_inverse(setting, todo, sort, *a),
        Node::Binary(operator, a, b) => check_operation(
            alloc,
            setting,
            todo,
            sort,
            *operator,
            (*a, *b),
        ),
        Node::Apply(_, _) => check_applied(setting, todo, sort, id),
    }
}

// Puts the last argument behind the others.
fn last_argument<'a>(
    setting: &Setting<'_, 'a>,
    todo: &mut Vec<Task>,
    sort: Sort,
    name: usize,
    count: usize,
    id: usize,
) -> Result<(), Memory>
    requires todo { TasksIn setting.now.scope.now setting.now.nodes.now (reverse todo.old.items) }
    requires task { TaskIn setting.now.scope.now setting.now.nodes.now (task.Arguments sort name count id) }
    ensures same { IfOk result (λ _. faults_of_all setting.now.scope.now setting.now.combining setting.now.nodes.now (reverse todo.new.items) ≡ task_faults setting.now.scope.now setting.now.combining setting.now.nodes.now (task.Arguments sort name count id) ++ faults_of_all setting.now.scope.now setting.now.combining setting.now.nodes.now (reverse todo.old.items)) }
    ensures within { TasksIn setting.now.scope.now setting.now.nodes.now (reverse todo.new.items) }
    ensures smaller { tasks_size setting.now.nodes.now (reverse todo.new.items) < 3 * size (tree_at setting.now.nodes.now id) + tasks_size setting.now.nodes.now (reverse todo.old.items) }
{
    if let Node::Apply(a, b) = setting.nodes.get(id) {
        let last = count - 1;
        let stands_for = meaning_at(setting.scope, setting.nodes, name);
        let Some(argument) = argument_sort(stands_for, sort, last) else {
            return Ok(());
        };
        todo.push(Task::Expression(argument, *b))?;
        todo.push(Task::Arguments(sort, name, last, *a))?;
    }
    Ok(())
}

/// The first fault of an expression in a region of the given sort. Where hypotheses are combined, `proofs` says which
/// expressions are proofs.
pub fn first_fault<'a>(
    alloc: Global,
    nodes: &Nodes<'a>,
    scope: &Scope,
    proofs: &[bool],
    combining: bool,
    sort: Sort,
    id: usize,
) -> Result<Option<Cause>, Memory>
    requires here { id < length nodes.now }
    requires found { combining ≡ true → proofs.now ≡ proofs_in scope.now nodes.now }
    ensures { IfOk result (λ o. o ≡ first (faults scope.now combining sort (meant (tree_at nodes.now id)))) }
{
    let setting = Setting {
        nodes,
        scope,
        proofs,
        combining,
    };
    let mut todo: Vec<Task> = Vec::new(alloc);
    todo.push(Task::Expression(sort, id))?;
    'checking: while let Some(task) = todo.pop() {
        match task {
            Task::Expression(sort, id) => {
                if let Some(cause) = check_root(alloc, &setting, &mut todo, sort, id)? {
                    return Ok(Some(cause));
                }
            }
            Task::Exponent(sort, id) => {
                if let Some(cause) = not_integral(sort) {
                    return Ok(Some(cause));
                }
                todo.push(Task::Expression(sort, id))?;
            }
            Task::Arguments(sort, name, count, id) => last_argument(
                &setting, &mut todo, sort, name, count, id,
            )?,
        }
    }
    Ok(None)
}
