ghost use Rattle.std.specs.Prelude.{◌≡◌, All, IfOk, OnErr};
ghost use Rattle.alg_expr.specs.Ids.{tree_of, statement_of, IsIn, IsStatementIn};
ghost use Rattle.alg_expr.specs.Arena.{Extends, Imports};
ghost use Rattle.alg_expr.specs.Copies.{AreCopies, Copies, HasParts, next_of};

use crate::arena::Arena;
use crate::ids::{ExprId, Stmt, View};
use crate::memory::Memory;
use indexmap::IndexMap;

/// What came of a try to copy a node: its copy, or a part that is to be copied first.
enum Copied {
    Made(ExprId),
    Missing(ExprId),
}

/// The copies of a list of trees, or the first tree that has none.
#[derive(Drop)]
enum Parts {
    All(Vec<ExprId>),
    Missing(ExprId),
}

impl Arena {
    /// The id of the tree that `id` is in `from`, whose parts are copied where they are missing.
    /// The walk keeps its place in memory, so that a deep tree needs no deep stack.
    pub fn import(&mut self, from: &Arena, id: ExprId) -> Result<ExprId, Memory>
        requires { IsIn from.now id }
        ensures ok { IfOk result (λ e. Imports self.old self.new e (tree_of from.now id)) }
        ensures err { OnErr result (self.new ≡ self.old) }
    {
        let len = self.len();
        match self.copy_in(from, id) {
            Ok(copy) => Ok(copy),
            Err(fault) => {
                self.cut_back(len);
                Err(fault)
            }
        }
    }

    /// The statement in this arena, whose sides are copied where they are missing. After `Memory` the left side may have
    /// been copied alone.
    pub fn import_statement(&mut self, from: &Arena, s: Stmt) -> Result<Stmt, Memory>
        requires { IsStatementIn from.now s }
        ensures keeps { Extends self.old self.new }
        ensures here { IfOk result (λ q. IsStatementIn self.new q) }
        ensures same { IfOk result (λ q. statement_of self.new q ≡ statement_of from.now s) }
    {
        let lhs = self.import(from, s.lhs)?;
        let rhs = self.import(from, s.rhs)?;
        Ok(Stmt {
            rel: s.rel,
            sort: s.sort,
            lhs,
            rhs,
        })
    }

    // copies the tree part by part; after an error some parts may have been copied
    fn copy_in(&mut self, from: &Arena, id: ExprId) -> Result<ExprId, Memory>
        requires { IsIn from.now id }
        ensures grown { Extends self.old self.new }
        ensures ok { IfOk result (λ e. Imports self.old self.new e (tree_of from.now id)) }
    {
        let alloc = self.alloc();
        let mut done: IndexMap<usize, ExprId> = IndexMap::new(alloc);
        let mut pending: Vec<ExprId> = Vec::new(alloc);
        'copy: loop {
            let next = last_or(&pending, id);
            match done.get(&next.index) {
                Some(copy) => {
                    let copy = *copy;
                    if pending.len() == 0 {
                        return Ok(copy);
                    }
                    pending.pop();
                }
                None => match self.copy_node(from, next, &done)? {
                    Copied::Made(copy) => {
                        done.insert(next.index, copy)?;
                    }
                    Copied::Missing(part) => pending.push(part)?,
                },
            }
        }
    }

    // the copy of the tree where its parts are copied, and else a part that is not
    fn copy_node(
        &mut self,
        from: &Arena,
        id: ExprId,
        done: &IndexMap<usize, ExprId>,
    ) -> Result<Copied, Memory>
        requires here { IsIn from.now id }
        requires done { AreCopies from.now self.old done.now }
        ensures ok { IfOk result (Copies from.now self.old self.new done.now id) }
        ensures err { OnErr result (self.new ≡ self.old) }
    {
        match from.view(id) {
            View::Lit { sort, value } => Ok(Copied::Made(self.lit(sort, value)?)),
            View::Var { decl, sort } => Ok(Copied::Made(self.var(decl, sort)?)),
            View::App { sym, sort, args } => match self.parts(from, args, done)? {
                Parts::All(parts) => Ok(Copied::Made(self.apply(sym, sort, &parts)?)),
                Parts::Missing(part) => Ok(Copied::Missing(part)),
            },
        }
    }

    // the copies of these trees, or the first that has none
    fn parts(
        &self,
        from: &Arena,
        args: &[ExprId],
        done: &IndexMap<usize, ExprId>,
    ) -> Result<Parts, Memory>
        requires done { AreCopies from.now self.now done.now }
        ensures { IfOk result (HasParts from.now self.now done.now args.now) }
    {
        let mut copies: Vec<ExprId> = Vec::new(self.alloc());
        for arg in args {
            match done.get(&arg.index) {
                Some(copy) => copies.push(*copy)?,
                None => return Ok(Parts::Missing(*arg)),
            }
        }
        Ok(Parts::All(copies))
    }
}

// the last id, or another where there is none
fn last_or(ids: &[ExprId], id: ExprId) -> ExprId
    ensures { result ≡ next_of ids.now id }
{
    match ids.last() {
        Some(part) => *part,
        None => id,
    }
}
