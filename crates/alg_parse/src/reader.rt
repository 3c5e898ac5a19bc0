ghost use Rattle.std.specs.Prelude.{◌≡◌, ◌<◌, ◌+◌, ◌^◌, List, [], ◌∷◌, ◌++◌, false, Ok, None, ◌↔◌, All, OnOk, IfOk, IsTrue};
ghost use Rattle.alg_expr.specs.Ids.{IsStatementIn};
ghost use Rattle.alg_law.specs.Declarations.{declarations_of, IsDeclaredIn};
ghost use Rattle.alg_law.specs.Following.{AllMayFollow};
ghost use Rattle.alg_binders.specs.Binders.{is_among};
ghost use Rattle.alg_binders.specs.CommandFaults.{command_faults};
ghost use Rattle.alg_binders.specs.Stated.{IsStated};
ghost use Rattle.alg_syntax.specs.declared.commands.Command.TheVariants as written;
ghost use Rattle.alg_parse.specs.Elaborated.{IsElaborated, IsElaboratedIn};
ghost use Rattle.alg_parse.specs.declared.commands.Elaborated.TheVariants as elaborated;
ghost use Rattle.alg_parse.specs.Told.{Told, faulty};
ghost use Rattle.alg_parse.specs.Files.{Known, nothing, known_after, known_where, told_of, goal_told, command_told};
ghost use Rattle.alg_parse.specs.Progress.{Stands, Reads};
ghost use Rattle.alg_parse.specs.declared.file_trees.Command.TheVariants as command;

use crate::causes::cause_of;
use crate::commands::{Elaborated, elaborate_command};
use crate::file_trees::{Command, FileTree};
use crate::goals::build_procedures;
use crate::labels::unnamed;
use crate::used_names::UsedNames;
use alg_binders::Stated;
use alg_commands::readings::Reading;
use alg_elaborate::Cause;
use alg_expr::{Arena, Items, Memory, Text};
use alg_law::{Declared, Growing, Shared};
use alg_names::Scope;
use alg_syntax::commands;
use alg_syntax::signs::Name;
use std::alloc::Global;

/// A file while it is read.
#[derive(Drop)]
pub struct Reader {
    pub arena: Arena,
    /// What is in force behind the commands so far.
    pub scope: Scope,
    pub shared: Growing,
    /// The names of the theorems so far.
    pub used: UsedNames,
    pub commands: Vec<Command>,
}

// Whether a list of declarations has room for so many declarations.
fn has_room(before: usize, more: usize) -> bool
    ensures { IsTrue result ↔ before + more < 2 ^ 32 }
{
    match before.checked_add(more) {
        Some(count) => count <= u32::MAX as usize,
        None => false,
    }
}

impl Reader {
    /// Nothing is read yet.
    #[tactic(auto, using(crate::proofs::ProgressLaws::at_start))]
    pub fn new(alloc: Global) -> Result<Reader, Memory>
        ensures { IfOk result (λ r. Stands nothing [] r) }
    {
        Ok(Reader {
            arena: Arena::new(alloc)?,
            scope: Scope::new(alloc)?,
            shared: Growing::new(alloc)?,
            used: UsedNames::new(alloc),
            commands: Vec::new(alloc),
        })
    }

    // A faulty command.
    fn add_fault(&mut self, line: u32, cause: Cause) -> Result<(), Memory>
        ensures { OnOk result ((k : Known) (told : List Told) → Stands k told self.old → Stands k (told ++ faulty line cause ∷ []) self.new) }
    {
        self.commands.push(Command::Fault { line, cause })?;
        Ok(())
    }

    // Declarations for the commands behind them. They are in force already.
    fn add_shared(&mut self, declared: &[Declared]) -> Result<(), Memory>
        requires here { All (IsDeclaredIn self.old.arena) declared.now }
        requires fit { AllMayFollow self.old.shared (declarations_of self.old.arena declared.now) }
        ensures arena { self.new.arena ≡ self.old.arena }
        ensures scope { self.new.scope ≡ self.old.scope }
        ensures shared { OnOk result (self.new.shared ≡ self.old.shared ++ declarations_of self.old.arena declared.now) }
        ensures used { self.new.used ≡ self.old.used }
        ensures commands { OnOk result (self.new.commands.items ≡ self.old.commands.items ++ command.Declares ∷ []) }
    {
        if !has_room(self.shared.len(), declared.len()) {
            return Err(Memory);
        }
        self.shared.push_all(&self.arena, declared)?;
        self.commands.push(Command::Declares)?;
        Ok(())
    }

    // A goal without a fault.
    fn add_goal<'a>(
        &mut self,
        alloc: Global,
        label: Text,
        line: u32,
        goal: &commands::Goal<'a>,
        stated: Stated,
    ) -> Result<(), Memory>
        requires here { All (IsDeclaredIn self.old.arena) stated.local × IsStatementIn self.old.arena stated.stmt }
        requires good { IsStated self.old.scope goal.now self.old.arena stated }
        ensures { OnOk result ((k : Known) (told : List Told) → Stands k told self.old → Stands k (told ++ goal_told k label line goal.now ∷ []) self.new) }
    {
        let prefix = self.shared.len();
        if !has_room(prefix, stated.local.as_slice().len()) {
            return Err(Memory);
        }
        let script = build_procedures(
            alloc,
            &mut self.arena,
            &mut self.scope,
            stated.stmt.sort,
            goal,
        )?;
        self.commands.push(Command::Goal {
            label,
            line,
            prefix,
            local: stated.local,
            stmt: stated.stmt,
            script,
        })?;
        Ok(())
    }

    // The goal of a theorem without a fault, whose name is new.
    fn add_theorem<'a>(
        &mut self,
        alloc: Global,
        line: u32,
        name: &Name<'a>,
        goal: &commands::Goal<'a>,
        stated: Stated,
    ) -> Result<(), Memory>
        requires fresh { is_among self.old.used name.now.text ≡ false }
        requires here { All (IsDeclaredIn self.old.arena) stated.local × IsStatementIn self.old.arena stated.stmt }
        requires good { IsStated self.old.scope goal.now self.old.arena stated }
        ensures { OnOk result ((k : Known) (told : List Told) → Stands k told self.old → Stands (known_where None k (written.Theorem name.now goal.now)) (told ++ command_told k line (written.Theorem name.now goal.now) ∷ []) self.new) }
    {
        self.used.add(String::from_str(alloc, name.text())?, line)?;
        let label = Text::of(String::from_str(alloc, name.text())?);
        self.add_goal(alloc, label, line, goal, stated)
    }

    // The goal of an example without a fault.
    fn add_example<'a>(
        &mut self,
        alloc: Global,
        line: u32,
        goal: &commands::Goal<'a>,
        stated: Stated,
    ) -> Result<(), Memory>
        requires here { All (IsDeclaredIn self.old.arena) stated.local × IsStatementIn self.old.arena stated.stmt }
        requires good { IsStated self.old.scope goal.now self.old.arena stated }
        ensures { OnOk result ((k : Known) (told : List Told) → Stands k told self.old → Stands (known_where None k (written.Example goal.now)) (told ++ command_told k line (written.Example goal.now) ∷ []) self.new) }
    {
        let label = unnamed(alloc, line)?;
        self.add_goal(alloc, label, line, goal, stated)
    }

    // The goal of a command without a fault.
    fn add_stated<'a>(
        &mut self,
        alloc: Global,
        line: u32,
        command: &commands::Command<'a>,
        stated: Stated,
    ) -> Result<(), Memory>
        requires faultless { command_faults self.old.scope self.old.used command.now ≡ [] }
        requires here { IsElaboratedIn self.old.arena (elaborated.States stated) }
        requires good { IsElaborated self.old.scope self.old.arena command.now (elaborated.States stated) }
        ensures { OnOk result ((k : Known) (told : List Told) → Stands k told self.old → Stands (known_where None k command.now) (told ++ command_told k line command.now ∷ []) self.new) }
    {
        match command {
            commands::Command::Theorem(name, goal) => {
                self.add_theorem(alloc, line, name, goal, stated)
            }
            commands::Command::Example(goal) => self.add_example(alloc, line, goal, stated),
            // These state nothing.
            commands::Command::Import(_) => Ok(()),
            commands::Command::Variable(_) => Ok(()),
        }
    }

    // A command that was read.
    fn take_command<'a>(
        &mut self,
        alloc: Global,
        line: u32,
        command: &commands::Command<'a>,
    ) -> Result<(), Memory>
        requires { Reads self.old }
        ensures { OnOk result ((k : Known) (told : List Told) → Stands k told self.old → Stands (known_after k (Ok command.now)) (told ++ told_of k line (Ok command.now) ∷ []) self.new) }
    {
        match elaborate_command(alloc, &mut self.arena, &mut self.scope, &self.used, command)? {
            Ok(Elaborated::Declares(declared)) => self.add_shared(declared.as_slice()),
            Ok(Elaborated::States(stated)) => self.add_stated(alloc, line, command, stated),
            Err(cause) => self.add_fault(line, cause),
        }
    }

    /// One command more.
    pub fn take<'a>(&mut self, alloc: Global, reading: &Reading<'a>) -> Result<(), Memory>
        requires { Reads self.old }
        ensures { OnOk result ((k : Known) (told : List Told) → Stands k told self.old → Stands (known_after k reading.now.command) (told ++ told_of k reading.now.line reading.now.command ∷ []) self.new) }
    {
        match &reading.command {
            Ok(command) => self.take_command(alloc, reading.line, command),
            Err(why) => self.add_fault(reading.line, cause_of(*why)),
        }
    }

    /// The file that was read.
    pub fn finish(self, alloc: Global) -> Result<FileTree, Memory>
        ensures arena { IfOk result (λ f. f.arena ≡ self.arena) }
        ensures shared { IfOk result (λ f. f.shared ≡ self.shared) }
        ensures commands { IfOk result (λ f. f.commands ≡ self.commands.items) }
    {
        let Reader {
            arena,
            scope: _,
            shared,
            used: _,
            commands,
        } = self;
        Ok(FileTree {
            arena,
            shared: Shared::of(alloc, shared)?,
            commands: Items::of(commands),
        })
    }
}
