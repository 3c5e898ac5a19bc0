/// Why a command of a file has no meaning: the first cause, in the order in which they are looked for.
#[derive(Clone, Copy, Debug)]
pub enum Cause {
    /// The tokens spell no command.
    Syntax,
    /// A name isn't in force, or a class or a sort is unknown.
    UnknownName,
    /// A binder's name is in force already, or a theorem's name was used.
    NameTaken,
    /// A name is used as what it isn't, or in a region of another sort.
    SortMismatch,
    /// A sort lacks the class that a symbol, a relation, a literal or a class needs, or has what a class gives.
    NoInstance,
    /// No procedure has this name.
    UnknownProcedure,
    /// Hypotheses are combined to what is no proof.
    BadCombination,
    /// More than 4,096 tokens, or more than 256 open parentheses, braces and brackets.
    TooDeep,
    /// A character that begins no token.
    BadChar,
    /// A comment without an end.
    OpenComment,
    /// A literal above 2^127 - 1.
    LiteralTooWide,
}
