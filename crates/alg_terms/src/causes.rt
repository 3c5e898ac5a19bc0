/// Why a proof line is bad. The causes are looked for in this order.
#[derive(Clone, Copy, Debug, PartialEq, Eq)]
pub enum BadCause {
    /// A line number that is 0 or not earlier, a hypothesis that isn't there, or the given statement where none is.
    Reference,
    /// An unknown law or lemma, or a number of a variable, function or type that the base hasn't.
    Name,
    /// A tree whose arities or sorts don't fit, or a wrong number or sort of arguments, letters or premises.
    Sort,
    /// A class is missing that the line, or a symbol or literal of its trees, needs.
    NoInstance,
    /// A literal or result above 2^127 - 1, a relation that doesn't hold, or a computation without a value.
    Literal,
    /// A premise that isn't what the rule asks.
    Shape,
}
