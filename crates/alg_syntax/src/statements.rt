ghost use Rattle.std.specs.Prelude.{◌≡◌, IfOk, option_map};
ghost use Rattle.alg_syntax.specs.Reading.{relation_first, read_statement};

use crate::expressions::{Expression, read_expression};
use crate::front::Tokens;
use crate::signs::{Relation, Sign};
use alg_expr::Memory;
use std::alloc::Global;

/// A relation between two expressions, in the order of the text.
#[derive(Drop)]
pub struct Statement<'a> {
    pub relation: Relation,
    pub lhs: Expression<'a>,
    pub rhs: Expression<'a>,
}

fn take_relation<'a>(left: &mut Tokens<'_, 'a>) -> Option<Relation>
    ensures { option_map (λ r. (r, left.new)) result ≡ relation_first left.old }
{
    match left.next() {
        Some(Sign::Relation(relation)) => Some(relation),
        _ => None,
    }
}

/// Reads a statement.
pub fn read_statement<'a>(
    alloc: Global,
    left: &mut Tokens<'_, 'a>,
) -> Result<Option<Statement<'a>>, Memory>
    ensures { IfOk result (λ o. option_map (λ s. (s, left.new)) o ≡ read_statement left.old) }
{
    let Some(lhs) = read_expression(alloc, left)? else {
        return Ok(None);
    };
    let Some(relation) = take_relation(left) else {
        return Ok(None);
    };
    let Some(rhs) = read_expression(alloc, left)? else {
        return Ok(None);
    };
    Ok(Some(Statement { relation, lhs, rhs }))
}
