ghost use Rattle.std.specs.Prelude.{◌≡◌};
ghost use Rattle.alg_show.specs.Notation.{notation_of, leads, follows, operation_level, left_least, right_least, operator_text, relation_text, blanked};

use alg_expr::{Rel, Sym};
use alg_syntax::signs::Operator;

/// How a symbol is written.
#[derive(Clone, Copy)]
pub(crate) enum Notation {
    /// A minus before its argument.
    Negation,
    /// `⁻¹` behind its argument.
    Inverse,
    /// An operator between two arguments.
    Infix(Operator),
    /// A name before arguments that have the sort of the value.
    Shared,
    /// A name before arguments that have sorts of their own.
    Own,
}

pub(crate) fn notation_of(sym: Sym) -> Notation
    ensures { result ≡ notation_of sym }
{
    match sym {
        Sym::Add => Notation::Infix(Operator::Add),
        Sym::Mul => Notation::Infix(Operator::Mul),
        Sym::Neg => Notation::Negation,
        Sym::Sub | Sym::NatSub => Notation::Infix(Operator::Sub),
        Sym::Inv => Notation::Inverse,
        Sym::Div | Sym::IDiv => Notation::Infix(Operator::Div),
        Sym::Npow | Sym::Zpow => Notation::Infix(Operator::Pow),
        Sym::Nsmul | Sym::Zsmul => Notation::Infix(Operator::Smul),
        Sym::Abs | Sym::Min | Sym::Max => Notation::Shared,
        Sym::Mod => Notation::Infix(Operator::Mod),
        Sym::Gcd | Sym::Lcm | Sym::Fact | Sym::Choose | Sym::Fib => Notation::Own,
        Sym::Apply(_) => Notation::Own,
    }
}

// whether the left part belongs to the region of the operation
pub(crate) fn leads(operator: Operator) -> bool
    ensures { result ≡ leads operator }
{
    match operator {
        Operator::Smul => false,
        _ => true,
    }
}

// whether the right part does
pub(crate) fn follows(operator: Operator) -> bool
    ensures { result ≡ follows operator }
{
    match operator {
        Operator::Pow => false,
        _ => true,
    }
}

// the level of an operation
pub(crate) fn operation_level(operator: Operator) -> u8
    ensures { result ≡ operation_level operator }
{
    match operator {
        Operator::Add | Operator::Sub => 65,
        Operator::Mul | Operator::Div | Operator::Mod => 70,
        Operator::Smul => 73,
        Operator::Pow => 75,
    }
}

// the least level of its left part
pub(crate) fn left_least(operator: Operator) -> u8
    ensures { result ≡ left_least operator }
{
    match operator {
        Operator::Add | Operator::Sub => 65,
        Operator::Mul | Operator::Div | Operator::Mod => 70,
        Operator::Smul => 75,
        Operator::Pow => 76,
    }
}

// the least level of its right part
pub(crate) fn right_least(operator: Operator) -> u8
    ensures { result ≡ right_least operator }
{
    match operator {
        Operator::Add | Operator::Sub => 70,
        Operator::Mul | Operator::Div | Operator::Mod => 73,
        Operator::Smul => 73,
        Operator::Pow => 75,
    }
}

pub(crate) fn operator_text(operator: Operator) -> &'static str
    ensures { result.now ≡ blanked (operator_text operator) }
{
    match operator {
        Operator::Add => " + ",
        Operator::Sub => " - ",
        Operator::Mul => " * ",
        Operator::Div => " / ",
        Operator::Mod => " % ",
        Operator::Smul => " \u{2022} ",
        Operator::Pow => " ^ ",
    }
}

pub(crate) fn relation_text(rel: Rel) -> &'static str
    ensures { result.now ≡ blanked (relation_text rel) }
{
    match rel {
        Rel::Eq => " = ",
        Rel::Ne => " \u{2260} ",
        Rel::Lt => " < ",
        Rel::Le => " \u{2264} ",
        Rel::Dvd => " \u{2223} ",
    }
}
