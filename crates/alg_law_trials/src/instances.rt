use crate::values::{remainder_of, value_of};
use alg_law::{Law, Pat, PatStmt};
use alg_terms::Rel;
use std::alloc::{AllocError, Global};

const INTEGERS: [i64; 5] = [-2, -1, 0, 1, 2];

const NATURALS: [i64; 5] = [0, 1, 2, 3, 4];

// Some remainders by 7, which are a field, and some of those that are not 0, which are a group of products.
const REMAINDERS: [i64; 5] = [0, 1, 2, 3, 6];

const UNITS: [i64; 5] = [1, 2, 3, 5, 6];

/// What the trees of the sort are read as.
#[derive(Clone, Copy)]
pub enum Reading {
    Integers,
    Naturals,
    Remainders,
    Units,
}

/// What was seen of a law at all choices of small numbers for its letters.
#[derive(Clone, Copy)]
pub struct Seen {
    /// Each instance has a value.
    pub is_read: bool,
    /// The premises of one hold.
    pub is_met: bool,
    /// The premises of one hold, and its conclusion does not.
    pub is_false: bool,
}

pub fn look(alloc: Global, law: &Law, reading: Reading) -> Result<Seen, AllocError> {
    let (values, by_seven) = match reading {
        Reading::Integers => (INTEGERS, false),
        Reading::Naturals => (NATURALS, false),
        Reading::Remainders => (REMAINDERS, true),
        Reading::Units => (UNITS, true),
    };
    let mut seen = Seen {
        is_read: true,
        is_met: false,
        is_false: false,
    };
    for choice in 0..625 {
        let letters = letters_at(choice, &values);
        match (
            premises_hold(alloc, law, &letters, by_seven)?,
            holds(alloc, &law.conclusion, &letters, by_seven)?,
        ) {
            (Some(true), Some(true)) => seen.is_met = true,
            (Some(true), Some(false)) => seen.is_false = true,
            (Some(false), Some(_)) => {}
            _ => seen.is_read = false,
        }
    }
    Ok(seen)
}

// The numbers for a, b, c, d, m, n, i and j. No law has c or d beside m, n, i or j, so these share their choices.
fn letters_at(choice: u16, values: &[i64; 5]) -> [i64; 8] {
    let third = (choice / 25 % 5) as usize;
    let fourth = (choice / 125 % 5) as usize;
    [
        values[(choice % 5) as usize],
        values[(choice / 5 % 5) as usize],
        values[third],
        values[fourth],
        NATURALS[third],
        NATURALS[fourth],
        INTEGERS[third],
        INTEGERS[fourth],
    ]
}

fn premises_hold(
    alloc: Global,
    law: &Law,
    letters: &[i64; 8],
    by_seven: bool,
) -> Result<Option<bool>, AllocError> {
    let mut hold = true;
    for premise in law.premises {
        match holds(alloc, premise, letters, by_seven)? {
            Some(holds) => hold = hold && holds,
            None => return Ok(None),
        }
    }
    Ok(Some(hold))
}

fn holds(
    alloc: Global,
    statement: &PatStmt,
    letters: &[i64; 8],
    by_seven: bool,
) -> Result<Option<bool>, AllocError> {
    let Some((left, right)) = sides(alloc, statement.nodes, letters, by_seven)? else {
        return Ok(None);
    };
    Ok(match statement.rel {
        Rel::Eq => Some(left == right),
        Rel::Ne => Some(left != right),
        Rel::Lt => Some(left < right),
        Rel::Le => Some(left <= right),
        Rel::Dvd => None,
    })
}

// The values of both sides, by a stack of what follows a node.
fn sides(
    alloc: Global,
    nodes: &[Pat],
    letters: &[i64; 8],
    by_seven: bool,
) -> Result<Option<(i64, i64)>, AllocError> {
    let mut stack = Vec::new(alloc);
    for node in nodes.iter().rev() {
        let found = if by_seven {
            remainder_of(node, letters, &mut stack)
        } else {
            value_of(node, letters, &mut stack)
        };
        let Some(value) = found else {
            return Ok(None);
        };
        stack.push(value)?;
    }
    Ok(match (stack.pop(), stack.pop(), stack.pop()) {
        (Some(left), Some(right), None) => Some((left, right)),
        _ => None,
    })
}
