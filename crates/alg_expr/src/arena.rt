ghost use Rattle.std.specs.Prelude.{◌≡◌, ◌<◌, ◌≤◌, ◌^◌, [], length, take, All, OnErr, IfOk};
ghost use Rattle.alg_terms.specs.Symbols.{places, arguments_fit};
ghost use Rattle.alg_terms.specs.Tree.{Lit, Var, App, of_list, sort_of_tree};
ghost use Rattle.alg_expr.specs.Applying.{Builds, sorts_at};
ghost use Rattle.alg_expr.specs.Arena.{GrowsBy, Shows, ShowsSmall};
ghost use Rattle.alg_expr.specs.Distinct.{AreDistinct};
ghost use Rattle.alg_expr.specs.Ids.{tree_of, trees_at, IsIn};
ghost use Rattle.alg_expr.specs.Nodes.{IsBelow, IsSmall, tree_at};
ghost use Rattle.alg_expr.specs.Sizes.{size_of, sizes_of};

use crate::ids::{ExprId, View};
use crate::memory::Memory;
use crate::nodes::Node;
use alg_terms::{Sort, Sym};
use indexmap::IndexMap;
use smallvec::SmallVec;
use std::alloc::Global;
use std::marker::Model;
use thiserror::Error;

/// Why a compound tree wasn't made.
#[derive(Clone, Copy, Debug, Drop, Error)]
pub enum ExprFault {
    /// A built-in symbol has another number of arguments.
    #[error("wrong number of arguments")]
    BadArity,
    /// The sorts of a built-in symbol's arguments and value don't fit.
    #[error("sorts do not fit")]
    BadSort,
    /// Want of memory.
    #[error("out of memory")]
    Memory,
}

impl From<Memory> for ExprFault {
    ghost use Rattle.alg_expr.specs.declared.arena.ExprFault.TheVariants as fault;

    ghost from_gives = { λ _ f. f ≡ fault.Memory };

    fn from(_: Memory) -> ExprFault {
        ExprFault::Memory
    }
}

/// Typed trees, numbered from 0 in the order in which they came. Contracts see their list.
///
/// No tree stands twice, and the parts of a tree come before it. A tree that is made again gets the id that it has.
/// An arena only grows, and each call takes its memory first: after a fault the arena is as it was.
#[derive(Drop)]
pub struct Arena {
    alloc: Global,
    // each node with the size of its tree
    nodes: IndexMap<Node, u64>,
}

impl Model for Arena {
    ghost use Rattle.std.specs.Prelude.{List};
    ghost use Rattle.std.specs.Coded.{coded_list};
    ghost use Rattle.alg_terms.specs.Code.{tree_code};
    ghost use Rattle.alg_terms.specs.Tree.{Tree};

    ghost Value = { List Tree };

    ghost coded = { coded_list tree_code };

    ghost use Rattle.indexmap.specs.IndexMap.{keys};
    ghost use Rattle.alg_expr.specs.Nodes.{trees_of, IsSound};

    ghost view = { λ a. trees_of (keys a.nodes) };

    ghost invariant = { λ a. IsSound a.nodes.entries };
}

impl Arena {
    /// An arena without trees.
    pub fn new(alloc: Global) -> Result<Arena, Memory>
        ensures { IfOk result (λ a. a ≡ []) }
    {
        Ok(Arena {
            alloc,
            nodes: IndexMap::new(alloc),
        })
    }

    /// The allocator that the arena keeps.
    pub fn alloc(&self) -> Global {
        self.alloc
    }

    /// How many different trees there are.
    pub fn len(&self) -> usize
        ensures len { result ≡ length self.now }
        ensures distinct { AreDistinct self.now }
    {
        self.nodes.len()
    }

    /// The id of the tree with this number.
    pub fn id(&self, number: usize) -> ExprId
        requires { number < length self.now }
        ensures { result.index ≡ number }
    {
        ExprId { index: number }
    }

    /// A number literal. Whether the sort has literals is the base's matter.
    pub fn lit(&mut self, sort: Sort, value: u128) -> Result<ExprId, Memory>
        requires { value < 2 ^ 127 }
        ensures ok { IfOk result (λ e. GrowsBy self.old self.new e (Lit sort value)) }
        ensures err { OnErr result (self.new ≡ self.old) }
    {
        self.add(Node::Lit { sort, value }, 1)
    }

    /// A variable, by the number of its declaration from 0. Whether that declaration is there is the base's matter.
    pub fn var(&mut self, decl: u32, sort: Sort) -> Result<ExprId, Memory>
        ensures ok { IfOk result (λ e. GrowsBy self.old self.new e (Var decl sort)) }
        ensures err { OnErr result (self.new ≡ self.old) }
    {
        self.add(Node::Var { decl, sort }, 1)
    }

    /// A symbol over these arguments, with a value of this sort.
    ///
    /// `BadArity` comes exactly where a built-in symbol has another number of arguments, `BadSort` exactly where it
    /// has that number and the sorts don't fit. For a declared function both are the base's matter, and so are the
    /// classes that a symbol needs.
    pub fn app(&mut self, sym: Sym, sort: Sort, args: &[ExprId]) -> Result<ExprId, ExprFault>
        requires { All (IsIn self.old) args.now }
        ensures ok { IfOk result (λ e. GrowsBy self.old self.new e (App sym sort (of_list (trees_at self.old args.now)))) }
        ensures err { OnErr result (self.new ≡ self.old) }
        ensures cause { Builds sym sort (sorts_at self.old args.now) result }
    {
        if sym.is_built_in() {
            if args.len() != sym.places().len() {
                return Err(ExprFault::BadArity);
            }
            if !self.are_taken(sym, sort, args) {
                return Err(ExprFault::BadSort);
            }
        }
        Ok(self.apply(sym, sort, args)?)
    }

    // whether a built-in symbol takes these arguments, whose number is right
    fn are_taken(&self, sym: Sym, sort: Sort, args: &[ExprId]) -> bool
        requires here { All (IsIn self.now) args.now }
        requires arity { length (places sym) ≡ length args.now }
        ensures { result ≡ arguments_fit sym sort (sorts_at self.now args.now) }
    {
        let places = sym.places();
        let mut i: usize = 0;
        while i < args.len() {
            if !places[i].takes(sort, self.sort_of(args[i])) {
                return false;
            }
            i += 1;
        }
        sym.serves(sort)
    }

    // a symbol over these arguments, whether or not they fit
    pub(crate) fn apply(&mut self, sym: Sym, sort: Sort, args: &[ExprId]) -> Result<ExprId, Memory>
        requires { All (IsIn self.old) args.now }
        ensures ok { IfOk result (λ e. GrowsBy self.old self.new e (App sym sort (of_list (trees_at self.old args.now)))) }
        ensures err { OnErr result (self.new ≡ self.old) }
    {
        let size = self.sizes(args).saturating_add(1);
        let args = SmallVec::from_slice(self.alloc, args)?;
        self.add(Node::App { sym, sort, args }, size)
    }

    // the id of the node's tree, which is added where it isn't there
    fn add(&mut self, node: Node, size: u64) -> Result<ExprId, Memory>
        requires below { IsBelow (length self.old) node }
        requires size { size ≡ size_of (tree_at self.old node) }
        requires small { IsSmall node }
        ensures ok { IfOk result (λ e. GrowsBy self.old self.new e (tree_at self.old node)) }
        ensures err { OnErr result (self.new ≡ self.old) }
    {
        // a node that is there gets the size that it has
        let added = self.nodes.insert_full(node, size)?;
        Ok(ExprId { index: added.0 })
    }

    // drops the trees from this number on, and takes no memory
    pub(crate) fn cut_back(&mut self, len: usize)
        requires { len ≤ length self.old }
        ensures { self.new ≡ take len self.old }
    {
        self.nodes.truncate(len);
    }

    /// One level of the tree. The ids of its parts are less than its own.
    pub fn view(&self, id: ExprId) -> View<'_>
        requires { IsIn self.now id }
        ensures shows { Shows self.now id result }
        ensures small { ShowsSmall result }
        ensures distinct { AreDistinct self.now }
    {
        match self.nodes.get_index(id.index).unwrap().0 {
            Node::Lit { sort, value } => View::Lit {
                sort: *sort,
                value: *value,
            },
            Node::Var { decl, sort } => View::Var {
                decl: *decl,
                sort: *sort,
            },
            Node::App { sym, sort, args } => View::App {
                sym: *sym,
                sort: *sort,
                args: args.as_slice(),
            },
        }
    }

    /// The sort of the tree's value.
    pub fn sort_of(&self, id: ExprId) -> Sort
        requires { IsIn self.now id }
        ensures { result ≡ sort_of_tree (tree_of self.now id) }
    {
        match self.view(id) {
            View::Lit { sort, .. } => sort,
            View::Var { sort, .. } => sort,
            View::App { sort, .. } => sort,
        }
    }

    /// The number of nodes of the tree written out, or 2^64 - 1 where it has more.
    pub fn size(&self, id: ExprId) -> u64
        requires { IsIn self.now id }
        ensures { result ≡ size_of (tree_of self.now id) }
    {
        self.nodes[id.index]
    }

    // the sizes of these trees together
    fn sizes(&self, ids: &[ExprId]) -> u64
        requires { All (IsIn self.now) ids.now }
        ensures { result ≡ sizes_of (of_list (trees_at self.now ids.now)) }
    {
        let mut total: u64 = 0;
        for id in ids {
            total = total.saturating_add(self.size(*id));
        }
        total
    }
}
