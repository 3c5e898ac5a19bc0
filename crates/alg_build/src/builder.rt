ghost use Rattle.std.specs.Prelude.{◌≡◌, ℕ, ◌<◌, ◌≤◌, ◌^◌, [], ◌∷◌, ◌++◌, length, All, map, take, IfOk, OnOk, OnErr, IfSome, Some, None, Ok, true, slice_get, option_map};
ghost use Rattle.alg_terms.specs.Tree.{Lit, App, Statement, of_list};
ghost use Rattle.alg_expr.specs.Ids.{tree_of, trees_at, IsIn, statement_of, IsStatementIn};
ghost use Rattle.alg_expr.specs.Applying.{sorts_at, arity_fits, sorts_fit};
ghost use Rattle.alg_law.specs.LawRows.{row_of};
ghost use Rattle.alg_law.specs.WellSorted.{IsStatement};
ghost use Rattle.alg_proof.specs.Admissible.{IsFine};
ghost use Rattle.alg_proof.specs.Causes.{line_at};
ghost use Rattle.alg_proof.specs.Citing.{conclusion_of};
ghost use Rattle.alg_proof.specs.Lines.{step_of, steps_of, IsLineIn};
ghost use Rattle.alg_proof.specs.Valid.{IsValid};
ghost use Rattle.alg_build.specs.Atoms.{with_atom, number_of};
ghost use Rattle.alg_build.specs.Book.{fact, IsThere, KeepsLines, Adds, Rests, Makes};
ghost use Rattle.alg_build.specs.Good.{AreGood, IsGood, MayConclude};
ghost use Rattle.alg_build.specs.Inside.{theory_over};

use alg_expr::{Arena, ExprId, Memory, Sort, Stmt, Sym};
use alg_kernel::{conclusion, row_conclusion};
use alg_law::{Base, Law};
use alg_proof::{Lemmas, Line};
use indexmap::IndexSet;
use std::alloc::Global;
use std::marker::Model;
use std::rc::Rc;

/// Declarations, trees, and good lines over them. Lines are numbered from 1.
#[derive(Drop)]
pub struct Builder {
    base: Base,
    lemmas: Rc<Lemmas>,
    arena: Arena,
    lines: Vec<Line>,
    // what the lines conclude
    done: Vec<Stmt>,
    atoms: IndexSet<ExprId>,
    given: Option<Stmt>,
}

impl Model for Builder {
    ghost use Rattle.alg_build.specs.Book.{Book};
    ghost use Rattle.alg_build.specs.Codes.{book_code};

    ghost Value = { Book };

    ghost coded = { book_code };

    ghost use Rattle.alg_build.specs.Inside.{book_of, IsSound};

    ghost view = { λ b. book_of (record { declarations = b.base; lemmas = b.lemmas.value; trees = b.arena; lines = b.lines.items; done = b.done.items; atoms = b.atoms.keys; given = b.given }) };

    ghost invariant = { λ b. IsSound (record { declarations = b.base; lemmas = b.lemmas.value; trees = b.arena; lines = b.lines.items; done = b.done.items; atoms = b.atoms.keys; given = b.given }) };
}

/// What a finished builder hands out, for the kernel.
#[derive(Drop)]
pub struct Parts {
    pub base: Base,
    pub lemmas: Rc<Lemmas>,
    pub arena: Arena,
    pub lines: Vec<Line>,
    pub given: Option<Stmt>,
}

impl Builder {
    /// A builder without lines, over these declarations and lemmas.
    pub fn new(alloc: Global, base: Base, lemmas: Rc<Lemmas>) -> Result<Builder, Memory>
        ensures { IfOk result (λ b. b ≡ record { theory = theory_over base lemmas.value; trees = []; steps = []; done = []; atoms = [] }) }
    {
        let _declarations = base.len();
        let _rows = lemmas.len();
        Ok(Builder {
            base,
            lemmas,
            arena: Arena::new(alloc)?,
            lines: Vec::new(alloc),
            done: Vec::new(alloc),
            atoms: IndexSet::new(alloc),
            given: None,
        })
    }

    /// The allocator that the builder keeps.
    pub fn alloc(&self) -> Global {
        self.arena.alloc()
    }

    pub fn base(&self) -> &Base
        ensures { result.now ≡ self.now.theory.declarations }
    {
        &self.base
    }

    pub fn arena(&self) -> &Arena
        ensures { result.now ≡ self.now.trees }
    {
        &self.arena
    }

    pub fn lines(&self) -> &[Line]
        ensures { steps_of self.now.trees result.now ≡ self.now.steps }
    {
        &self.lines
    }

    /// The trees that have numbers, in the order of these.
    pub fn atoms(&self) -> &[ExprId]
        ensures here { All (IsIn self.now.trees) result.now }
        ensures trees { trees_at self.now.trees result.now ≡ self.now.atoms }
    {
        self.atoms.as_slice()
    }

    /// The statement that the lines may rest on, or none where none was given.
    pub fn given(&self) -> Option<Stmt>
        ensures here { IfSome result (IsStatementIn self.now.trees) }
        ensures statement { option_map (statement_of self.now.trees) result ≡ self.now.theory.given }
    {
        self.given
    }

    /// What line i concludes, which is well sorted and derivable.
    pub fn concluded(&self, i: usize) -> Stmt
        requires { IsThere self.now i }
        ensures here { IsStatementIn self.now.trees result }
        ensures statement { statement_of self.now.trees result ≡ fact self.now i }
        ensures fine { IsFine self.now.theory.declarations self.now.theory.given (fact self.now i) }
    {
        self.done[i - 1]
    }

    pub fn lit(&mut self, sort: Sort, value: u128) -> Result<ExprId, Memory>
        requires { value < 2 ^ 127 }
        ensures ok { IfOk result (λ e. Makes self.old self.new e (Lit sort value)) }
        ensures err { OnErr result (self.new ≡ self.old) }
    {
        self.arena.lit(sort, value)
    }

    /// A symbol over these arguments, whose number and sorts fit. A declared function takes any.
    pub fn app(&mut self, sym: Sym, sort: Sort, args: &[ExprId]) -> Result<ExprId, Memory>
        requires here { All (IsIn self.old.trees) args.now }
        requires arity { arity_fits sym (length args.now) ≡ true }
        requires sorts { sorts_fit sym sort (sorts_at self.old.trees args.now) ≡ true }
        ensures ok { IfOk result (λ e. Makes self.old self.new e (App sym sort (of_list (trees_at self.old.trees args.now)))) }
        ensures err { OnErr result (self.new ≡ self.old) }
    {
        match self.arena.app(sym, sort, args) {
            Ok(e) => Ok(e),
            Err(_) => Err(Memory),
        }
    }

    // a copy of a tree of another arena
    pub(crate) fn copy(&mut self, from: &Arena, e: ExprId) -> Result<ExprId, Memory>
        requires { IsIn from.now e }
        ensures ok { IfOk result (λ d. Makes self.old self.new d (tree_of from.now e)) }
        ensures err { OnErr result (self.new ≡ self.old) }
    {
        self.arena.import(from, e)
    }

    /// Copies a statement of another arena.
    pub fn import(&mut self, from: &Arena, s: Stmt) -> Result<Stmt, Memory>
        requires { IsStatementIn from.now s }
        ensures here { IfOk result (λ t. IsStatementIn self.new.trees t) }
        ensures statement { IfOk result (λ t. statement_of self.new.trees t ≡ statement_of from.now s) }
        ensures keeps { KeepsLines self.old self.new }
    {
        self.arena.import_statement(from, s)
    }

    /// The number of the tree among the atoms, from 0 in the order of their first use. Equal trees have equal numbers,
    /// and no others have.
    pub fn atom(&mut self, e: ExprId) -> Result<usize, Memory>
        requires { IsIn self.old.trees e }
        ensures number { IfOk result (λ n. n ≡ number_of self.old.atoms (tree_of self.old.trees e)) }
        ensures stands { IfOk result (λ n. slice_get self.new.atoms n ≡ Some (tree_of self.old.trees e)) }
        ensures atoms { OnOk result (self.new ≡ record self.old { atoms = with_atom self.old.atoms (tree_of self.old.trees e) }) }
        ensures err { OnErr result (self.new ≡ self.old) }
    {
        let _trees = self.arena.len();
        match self.atoms.insert_full(e) {
            Ok(added) => Ok(added.0),
            Err(_) => Err(Memory),
        }
    }

    // the line's number
    pub(crate) fn add(&mut self, line: Line, s: Stmt) -> Result<usize, Memory>
        requires line_in { IsLineIn self.old.trees line }
        requires statement_in { IsStatementIn self.old.trees s }
        requires good { MayConclude self.old (step_of self.old.trees line) (statement_of self.old.trees s) }
        ensures ok { IfOk result (λ n. Adds self.old self.new n (step_of self.old.trees line) (statement_of self.old.trees s)) }
        ensures err { OnErr result (self.new ≡ self.old) }
    {
        let before = self.lines.len();
        self.lines.push(line)?;
        match self.done.push(s) {
            Ok(()) => Ok(self.done.len()),
            Err(_) => {
                self.lines.truncate(before);
                Err(Memory)
            }
        }
    }

    // what a good line concludes
    pub(crate) fn judged(&mut self, line: &Line) -> Result<Stmt, Memory>
        requires line_in { IsLineIn self.old.trees line.now }
        requires good { IsGood self.old (step_of self.old.trees line.now) }
        ensures here { IfOk result (λ s. IsStatementIn self.new.trees s) }
        ensures concludes { IfOk result (λ s. MayConclude self.old (step_of self.old.trees line.now) (statement_of self.new.trees s)) }
        ensures keeps { KeepsLines self.old self.new }
    {
        conclusion(
            &self.lemmas,
            &self.base,
            &mut self.arena,
            self.given,
            &self.done,
            line,
        )
    }

    // what a line concludes that cites a row for these trees, and is good
    pub(crate) fn row_judged(
        &mut self,
        _line: &Line,
        row: &Law,
        sort: Sort,
        with: &[ExprId],
    ) -> Result<Stmt, Memory>
        requires with_in { All (IsIn self.old.trees) with.now }
        requires leads { MayConclude self.old (step_of self.old.trees _line.now) (conclusion_of (row_of row.now) sort (trees_at self.old.trees with.now)) }
        ensures here { IfOk result (λ s. IsStatementIn self.new.trees s) }
        ensures concludes { IfOk result (λ s. MayConclude self.old (step_of self.old.trees _line.now) (statement_of self.new.trees s)) }
        ensures keeps { KeepsLines self.old self.new }
    {
        row_conclusion(&mut self.arena, row, sort, with)
    }

    /// Makes `s` the given statement, and adds the line that concludes it.
    pub fn rest(&mut self, s: Stmt) -> Result<usize, Memory>
        requires nothing { self.old.theory.given ≡ None }
        requires here { IsStatementIn self.old.trees s }
        requires sorted { IsStatement self.old.theory.declarations (statement_of self.old.trees s) }
        ensures gives { IfOk result (λ n. Rests self.old self.new n (statement_of self.old.trees s)) }
        ensures err { OnErr result (self.new ≡ self.old) }
    {
        let before = self.lines.len();
        self.lines.push(Line::Rest)?;
        match self.done.push(s) {
            Ok(()) => {
                self.given = Some(s);
                Ok(self.done.len())
            }
            Err(_) => {
                self.lines.truncate(before);
                Err(Memory)
            }
        }
    }

    pub fn mark(&self) -> Mark
        ensures lines { result ≡ length self.now.steps }
        ensures conclusions { length self.now.done ≡ length self.now.steps }
    {
        self.lines.len()
    }

    /// Drops the lines after the first `mark`, and keeps trees, atoms and the given statement.
    pub fn back_to(&mut self, mark: Mark)
        requires { mark ≤ length self.old.done }
        ensures lines { self.new ≡ record self.old { steps = take mark self.old.steps; done = take mark self.old.done } }
        // the line of that number is then the last
        ensures last { (s : Statement) → line_at self.old.done mark ≡ Some s → line_at self.new.done (length self.new.done) ≡ Some s }
    {
        self.lines.truncate(mark);
        self.done.truncate(mark);
    }

    /// What the kernel takes. It accepts the lines for what the last of them concludes.
    pub fn into_parts(self) -> Parts
        ensures base { result.base ≡ self.theory.declarations }
        ensures theory { record (theory_over result.base result.lemmas.value) { given = option_map (statement_of result.arena) result.given } ≡ self.theory }
        ensures arena { result.arena ≡ self.trees }
        ensures statement { option_map (statement_of result.arena) result.given ≡ self.theory.given }
        ensures lines { steps_of result.arena result.lines.items ≡ self.steps }
        ensures lines_in { All (IsLineIn result.arena) result.lines.items }
        ensures given { IfSome result.given (λ s. IsStatementIn result.arena s × IsStatement result.base (statement_of result.arena s)) }
        ensures good { AreGood self.theory self.steps self.done }
        ensures valid { (s : Statement) → line_at self.done (length self.done) ≡ Some s → IsValid self.theory self.steps s }
    {
        Parts {
            base: self.base,
            lemmas: self.lemmas,
            arena: self.arena,
            lines: self.lines,
            given: self.given,
        }
    }
}

/// How many lines there were.
pub type Mark = usize;
