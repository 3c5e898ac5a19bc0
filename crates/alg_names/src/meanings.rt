use alg_expr::{Items, Rel, Sort, Sym};

/// What a name stands for.
#[derive(Drop)]
pub enum Meaning {
    /// A sort: a built-in one, or a type variable.
    SortName(Sort),
    /// A variable, by the number of its declaration from 0, with its sort.
    Variable(u32, Sort),
    /// A function with the sorts of its arguments and of its value.
    Function(Sym, Items<Sort>, Sort),
    /// A function whose arguments and value share one sort, whichever: `abs`, `min` or `max`, with the number of its
    /// arguments.
    Shared(Sym, usize),
    /// A hypothesis, by its number among the hypotheses from 1, with its relation and sort.
    Hypothesis(u32, Rel, Sort),
}
