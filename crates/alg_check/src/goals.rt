ghost use Rattle.std.specs.Prelude.{◌≡◌, ◌++◌, map, All, IfOk, OnOk, IfSome, Contains};
ghost use Rattle.std.specs.Option.{option_map};
ghost use Rattle.alg_parse.specs.FileTrees.{IsCommandIn, IsGoalIn};
ghost use Rattle.alg_check.specs.Goals.{goals_in, goals_seen, goal_for};
ghost use Rattle.alg_check.specs.Opened.{IsOpenGoal, goal_seen};

use alg_expr::{Items, Memory, Stmt, Text};
use alg_law::Declared;
use alg_parse::{Command, FileTree};
use std::alloc::Global;

/// A goal of a file.
#[derive(Clone, Copy)]
pub(crate) struct Goal<'a> {
    pub label: &'a Text,
    /// How many of the file's shared declarations are in force.
    pub prefix: usize,
    pub local: &'a Items<Declared>,
    pub stmt: Stmt,
}

// Adds the goal that a command states, if it states one.
fn add_goal<'a>(
    file: &FileTree,
    command: &'a Command,
    goals: &mut Vec<Goal<'a>>,
) -> Result<(), Memory>
    requires command { IsCommandIn file.now.arena file.now.shared command.now }
    requires open { All (IsOpenGoal file.now) goals.old.items }
    ensures seen { OnOk result (map (goal_seen file.now) goals.new.items ≡ map (goal_seen file.now) goals.old.items ++ goals_in file.now.arena file.now.shared command.now) }
    ensures open { OnOk result (All (IsOpenGoal file.now) goals.new.items) }
{
    match command {
        Command::Goal {
            label,
            prefix,
            local,
            stmt,
            ..
        } => {
            goals.push(Goal {
                label,
                prefix: *prefix,
                local,
                stmt: *stmt,
            })?;
        }
        _ => {}
    }
    Ok(())
}

/// The goals of a file, in order.
pub(crate) fn goals_of(alloc: Global, file: &FileTree) -> Result<Vec<Goal<'_>>, Memory>
    requires { All (IsCommandIn file.now.arena file.now.shared) file.now.commands }
    ensures seen { IfOk result (λ gs. map (goal_seen file.now) gs.items ≡ goals_seen file.now) }
    ensures open { IfOk result (λ gs. All (IsOpenGoal file.now) gs.items) }
{
    let mut goals = Vec::new(alloc);
    for command in file.commands.as_slice() {
        add_goal(file, command, &mut goals)?;
    }
    Ok(goals)
}

/// The goal of an entry behind one with the number `before`.
pub(crate) fn goal_for<'a>(
    _file: &FileTree,
    goals: &[Goal<'a>],
    before: u128,
    number: u128,
) -> Option<Goal<'a>>
    requires { All (IsOpenGoal _file.now) goals.now }
    ensures seen { option_map (goal_seen _file.now) result ≡ goal_for (map (goal_seen _file.now) goals.now) before number }
    ensures open { IfSome result (IsOpenGoal _file.now) }
{
    if number <= before || number > goals.len() as u128 {
        return None;
    }
    Some(goals[number as usize - 1])
}
