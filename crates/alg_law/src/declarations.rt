use crate::classes::Class;
use alg_expr::{Items, Sort, Stmt, Text};

/// A declaration of a base. Declarations are numbered from 0 in their order.
#[derive(Drop)]
pub enum Declared {
    /// A type variable.
    Carrier {
        name: Text,
    },
    /// A class of the type variable that is declaration `sort`.
    Instance {
        sort: u32,
        class: Class,
    },
    /// A variable of a sort.
    Variable {
        name: Text,
        sort: Sort,
    },
    /// A function with the sorts of its arguments and of its value.
    Function {
        name: Text,
        args: Items<Sort>,
        result: Sort,
    },
    /// A statement that is taken to hold.
    Hypothesis {
        name: Text,
        stmt: Stmt,
    },
}
