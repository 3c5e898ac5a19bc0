ghost use Rattle.std.specs.Prelude.{◌≡◌};

use alg_terms::{Rel, Sort, Sym};

/// Stands for a tree of an arena. Two ids of one arena are equal exactly where their trees are.
///
/// The default has the number 0: lists that keep room for ids, such as `SmallVec`, fill it with this one.
#[derive(Clone, Copy, Debug, Default, PartialEq, Eq, Hash)]
pub struct ExprId {
    pub(crate) index: usize,
}

impl ExprId {
    /// The number of the tree in its arena, from 0. The parts of a tree have lower numbers.
    pub fn number(self) -> usize
        ensures { result ≡ self.index }
    {
        self.index
    }
}

/// A relation between two trees of an arena, which are of the sort that stands beside it.
///
/// As with ids, lists that keep room for statements fill it with the default.
#[derive(Clone, Copy, Debug, Default)]
pub struct Stmt {
    pub rel: Rel,
    pub sort: Sort,
    pub lhs: ExprId,
    pub rhs: ExprId,
}

/// One level of a tree, lent by its arena.
#[derive(Clone, Copy, Debug)]
pub enum View<'a> {
    /// A number literal, at most 2^127 - 1.
    Lit {
        sort: Sort,
        value: u128,
    },
    /// A declared variable, by the number of its declaration from 0.
    Var {
        decl: u32,
        sort: Sort,
    },
    /// A symbol with its arguments, and the sort of its value.
    App {
        sym: Sym,
        sort: Sort,
        args: &'a [ExprId],
    },
}
