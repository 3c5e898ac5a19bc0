ghost use Rattle.std.specs.Prelude.{◌≡◌, ◌++◌, ◌∷◌, [], ℕ, List, Bool, IfOk, IfSome, string_bytes};
ghost use Rattle.alg_expr.specs.Ids.{tree_of, statement_of, IsIn, IsStatementIn};
ghost use Rattle.alg_law.specs.Declarations.{Declaration};
ghost use Rattle.alg_law.specs.WellSorted.{IsStatement};
ghost use Rattle.alg_syntax.specs.Expressions.{level};
ghost use Rattle.alg_show.specs.declared.notation.Notation.TheVariants.{Infix};
ghost use Rattle.alg_show.specs.declared.tasks.Task.TheVariants.{Part, Arguments};
ghost use Rattle.alg_show.specs.Names.{function_name};
ghost use Rattle.alg_show.specs.Goals.{IsWithinLimits, IsReadAsGoal};
ghost use Rattle.alg_show.specs.Groups.{HasFewestGroups};
ghost use Rattle.alg_show.specs.ReadingBack.{AreDeclarable, ReadsBack};
ghost use Rattle.alg_show.specs.Shown.{is_minus, shown};
ghost use Rattle.alg_show.specs.Shows.{IsWritten, IsSymbol};
ghost use Rattle.alg_show.specs.Tasks.{parts_of, arguments_level, notation_level, is_minus_sign, is_grouped, left_task, right_task, TaskInside, AllInside, TurnOf, Performs, Wrote};
ghost use Rattle.alg_show.specs.Text.{text, shown_text};
ghost use Rattle.alg_show.specs.Unparenthesized.{raw, number_raw};

use crate::knowing::{asks_left, asks_right, sides_ask};
use crate::names::{function_name, name_at, sort_name};
use crate::notation::{
    Notation, left_least, notation_of, operation_level, operator_text, relation_text, right_least,
};
use crate::printing::{add, argument, part, write, write_number};
use crate::tasks::{Place, Task};
use alg_expr::{Arena, ExprId, Memory, Sort, Stmt, Sym, View};
use alg_law::Base;
use alg_syntax::signs::Operator;
use std::alloc::Global;

fn arguments_level(arena: &Arena, id: ExprId) -> u8
    requires { IsIn arena.now id }
    ensures { result ≡ arguments_level (parts_of (tree_of arena.now id)) }
{
    match argument(arena, id, 0) {
        Some(_) => 76,
        None => 100,
    }
}

// the level of what is written for a compound
fn compound_level(arena: &Arena, id: ExprId, notation: Notation) -> u8
    requires { IsIn arena.now id }
    ensures { result ≡ notation_level notation (parts_of (tree_of arena.now id)) }
{
    match notation {
        Notation::Negation => 75,
        Notation::Inverse => 100,
        Notation::Infix(operator) => operation_level(operator),
        Notation::Shared => arguments_level(arena, id),
        Notation::Own => arguments_level(arena, id),
    }
}

fn level_of(arena: &Arena, id: ExprId) -> u8
    requires { IsIn arena.now id }
    ensures { (ds : List Declaration) (ask : Bool) → result ≡ level (shown (raw ds ask (tree_of arena.now id))) }
{
    match arena.view(id) {
        View::Lit { .. } => 100,
        View::Var { .. } => 100,
        View::App { sym, .. } => compound_level(arena, id, notation_of(sym)),
    }
}

fn is_minus_sign(notation: Notation) -> bool
    ensures { result ≡ is_minus_sign notation }
{
    match notation {
        Notation::Negation => true,
        _ => false,
    }
}

fn is_negation(arena: &Arena, id: ExprId) -> bool
    requires { IsIn arena.now id }
    ensures { (ds : List Declaration) (ask : Bool) → result ≡ is_minus (shown (raw ds ask (tree_of arena.now id))) }
{
    match arena.view(id) {
        View::Lit { .. } => false,
        View::Var { .. } => false,
        View::App { sym, .. } => is_minus_sign(notation_of(sym)),
    }
}

// whether a tree is written in parentheses at this place
fn is_grouped(arena: &Arena, place: Place, id: ExprId) -> bool
    requires { IsIn arena.now id }
    ensures { (ds : List Declaration) (ask : Bool) → result ≡ is_grouped place (shown (raw ds ask (tree_of arena.now id))) }
{
    match place {
        Place::Least(least) => level_of(arena, id) < least,
        Place::Negated => is_negation(arena, id) || level_of(arena, id) < 75,
    }
}

fn show_number(
    base: &Base,
    ask: bool,
    sort: Sort,
    number: u128,
    out: &mut String,
) -> Result<(), Memory>
    ensures { IfOk result (λ u. string_bytes out.new ≡ string_bytes out.old ++ text (shown (number_raw base.now ask sort number))) }
{
    if ask {
        write(out, "(")?;
        write_number(out, number)?;
        write(out, " : ")?;
        write(out, sort_name(base, sort))?;
        write(out, ")")?;
    } else {
        write_number(out, number)?;
    }
    Ok(())
}

// the left part of an operation
fn left_task(
    alloc: Global,
    arena: &Arena,
    operator: Operator,
    ask: bool,
    id: Option<ExprId>,
) -> Result<Task, Memory>
    requires { IfSome id (IsIn arena.now) }
    ensures { IfOk result (λ t. t ≡ left_task arena.now operator ask id) }
{
    match id {
        Some(id) => {
            let asks = asks_left(alloc, arena, operator, ask, id)?;
            Ok(Task::Part(Place::Least(left_least(operator)), asks, id))
        }
        None => Ok(Task::Zero),
    }
}

// the right part of an operation
fn right_task(
    alloc: Global,
    arena: &Arena,
    operator: Operator,
    ask: bool,
    id: Option<ExprId>,
) -> Result<Task, Memory>
    requires { IfSome id (IsIn arena.now) }
    ensures { IfOk result (λ t. t ≡ right_task arena.now operator ask id) }
{
    match id {
        Some(id) => {
            let asks = asks_right(alloc, arena, operator, ask, id)?;
            Ok(Task::Part(Place::Least(right_least(operator)), asks, id))
        }
        None => Ok(Task::Zero),
    }
}

// the parts of an operation are left for later, with the operator between them
fn show_operation(
    alloc: Global,
    arena: &Arena,
    ask: bool,
    id: ExprId,
    operator: Operator,
    tasks: &mut Vec<Task>,
) -> Result<(), Memory>
    requires here { IsIn arena.now id }
    requires written { IsWritten (tree_of arena.now id) (Infix operator) }
    ensures { IfOk result (λ u. (ds : List Declaration) (bytes : List ℕ) → TurnOf ds arena.now tasks.old.items tasks.new.items bytes bytes ask id) }
{
    let left = left_task(alloc, arena, operator, ask, argument(arena, id, 0))?;
    let right = right_task(alloc, arena, operator, ask, argument(arena, id, 1))?;
    add(tasks, right)?;
    add(tasks, Task::Operator(operator))?;
    add(tasks, left)?;
    Ok(())
}

fn show_function(
    base: &Base,
    sym: Sym,
    ask: bool,
    id: ExprId,
    tasks: &mut Vec<Task>,
    out: &mut String,
) -> Result<(), Memory>
    ensures { IfOk result (λ u. (tasks.new.items ≡ tasks.old.items ++ Arguments ask id 0 ∷ []) × (string_bytes out.new ≡ string_bytes out.old ++ function_name base.now sym)) }
{
    write(out, function_name(base, sym))?;
    add(tasks, Task::Arguments(ask, id, 0))?;
    Ok(())
}

fn show_compound(
    alloc: Global,
    base: &Base,
    arena: &Arena,
    ask: bool,
    id: ExprId,
    sym: Sym,
    tasks: &mut Vec<Task>,
    out: &mut String,
) -> Result<(), Memory>
    requires here { IsIn arena.now id }
    requires symbol { IsSymbol (tree_of arena.now id) sym }
    ensures { IfOk result (λ u. TurnOf base.now arena.now tasks.old.items tasks.new.items (string_bytes out.old) (string_bytes out.new) ask id) }
{
    match notation_of(sym) {
        Notation::Negation => {
            write(out, "-")?;
            add(tasks, part(Place::Negated, ask, argument(arena, id, 0)))?;
        }
        Notation::Inverse => {
            add(tasks, Task::Inverse)?;
            add(tasks, part(Place::Least(100), ask, argument(arena, id, 0)))?;
        }
        Notation::Infix(operator) => show_operation(alloc, arena, ask, id, operator, tasks)?,
        Notation::Shared => show_function(base, sym, ask, id, tasks, out)?,
        Notation::Own => show_function(base, sym, false, id, tasks, out)?,
    }
    Ok(())
}

fn show_tree(
    alloc: Global,
    base: &Base,
    arena: &Arena,
    ask: bool,
    id: ExprId,
    tasks: &mut Vec<Task>,
    out: &mut String,
) -> Result<(), Memory>
    requires { IsIn arena.now id }
    ensures { IfOk result (λ u. TurnOf base.now arena.now tasks.old.items tasks.new.items (string_bytes out.old) (string_bytes out.new) ask id) }
{
    match arena.view(id) {
        View::Lit { sort, value } => show_number(base, ask, sort, value, out)?,
        View::Var { decl, .. } => write(out, name_at(base, decl))?,
        View::App { sym, .. } => show_compound(alloc, base, arena, ask, id, sym, tasks, out)?,
    }
    Ok(())
}

fn show_part(
    alloc: Global,
    base: &Base,
    arena: &Arena,
    place: Place,
    ask: bool,
    id: ExprId,
    tasks: &mut Vec<Task>,
    out: &mut String,
) -> Result<(), Memory>
    requires { IsIn arena.now id }
    ensures { IfOk result (λ u. Performs base.now arena.now tasks.old.items tasks.new.items (string_bytes out.old) (string_bytes out.new) (Part place ask id)) }
{
    if is_grouped(arena, place, id) {
        write(out, "(")?;
        add(tasks, Task::Close)?;
        show_tree(alloc, base, arena, ask, id, tasks, out)?;
    } else {
        show_tree(alloc, base, arena, ask, id, tasks, out)?;
    }
    Ok(())
}

// one argument, and the others are left for later
fn show_arguments(
    arena: &Arena,
    ask: bool,
    id: ExprId,
    number: usize,
    tasks: &mut Vec<Task>,
    out: &mut String,
) -> Result<(), Memory>
    requires { IsIn arena.now id }
    ensures { IfOk result (λ u. (ds : List Declaration) → Performs ds arena.now tasks.old.items tasks.new.items (string_bytes out.old) (string_bytes out.new) (Arguments ask id number)) }
{
    match argument(arena, id, number) {
        Some(a) => {
            write(out, " ")?;
            add(tasks, Task::Arguments(false, id, number + 1))?;
            add(tasks, Task::Part(Place::Least(100), ask, a))?;
        }
        None => {}
    }
    Ok(())
}

// writes one task, or its beginning
fn step(
    alloc: Global,
    base: &Base,
    arena: &Arena,
    task: Task,
    tasks: &mut Vec<Task>,
    out: &mut String,
) -> Result<(), Memory>
    requires { TaskInside arena.now task }
    ensures { IfOk result (λ u. Performs base.now arena.now tasks.old.items tasks.new.items (string_bytes out.old) (string_bytes out.new) task) }
{
    match task {
        Task::Close => write(out, ")")?,
        Task::Inverse => write(out, "\u{207B}\u{B9}")?,
        Task::Zero => write_number(out, 0)?,
        Task::Operator(operator) => write(out, operator_text(operator))?,
        Task::Relation(rel) => write(out, relation_text(rel))?,
        Task::Part(place, ask, id) => {
            show_part(alloc, base, arena, place, ask, id, tasks, out)?;
        }
        Task::Arguments(ask, id, number) => show_arguments(arena, ask, id, number, tasks, out)?,
    }
    Ok(())
}

// writes all tasks
fn run(
    alloc: Global,
    base: &Base,
    arena: &Arena,
    tasks: &mut Vec<Task>,
    out: &mut String,
) -> Result<(), Memory>
    requires { AllInside arena.now tasks.old.items }
    ensures { IfOk result (λ u. Wrote base.now arena.now tasks.old.items (string_bytes out.old) (string_bytes out.new)) }
{
    while let Some(task) = tasks.pop() {
        step(alloc, base, arena, task, tasks, out)?;
    }
    Ok(())
}

/// The text of a statement: with the fewest parentheses, and with a literal's sort where its region would be read at
/// another one.
pub fn show(alloc: Global, base: &Base, arena: &Arena, s: Stmt) -> Result<String, Memory>
    requires here { IsStatementIn arena.now s }
    requires sorted { IsStatement base.now (statement_of arena.now s) }
    ensures text { IfOk result (λ t. string_bytes t ≡ shown_text base.now (statement_of arena.now s)) }
    ensures fewest { IfOk result (λ t. HasFewestGroups base.now (statement_of arena.now s)) }
    ensures reads_back { IfOk result (λ t. AreDeclarable base.now → ReadsBack base.now (statement_of arena.now s) (string_bytes t)) }
    ensures read { IfOk result (λ t. AreDeclarable base.now → IsWithinLimits base.now (statement_of arena.now s) → IsReadAsGoal base.now (statement_of arena.now s) (string_bytes t)) }
{
    // the clauses of `len` say that the declarations are well formed
    let _declared = base.len();
    let mut out = String::new(alloc);
    let mut tasks: Vec<Task> = Vec::new(alloc);
    let ask = sides_ask(alloc, arena, s.sort, s.lhs, s.rhs)?;
    add(&mut tasks, Task::Part(Place::Least(0), false, s.rhs))?;
    add(&mut tasks, Task::Relation(s.rel))?;
    add(&mut tasks, Task::Part(Place::Least(0), ask, s.lhs))?;
    run(alloc, base, arena, &mut tasks, &mut out)?;
    Ok(out)
}
