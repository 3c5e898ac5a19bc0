use alg_law::{Pat, PatSort};
use alg_terms::Sym;

/// The value of a node of integers, whose arguments are on the stack.
pub fn value_of(node: &Pat, letters: &[i64; 8], stack: &mut Vec<i64>) -> Option<i64> {
    match *node {
        Pat::Letter(number) => letters.get(number as usize).copied(),
        Pat::Lit { value, .. } => Some(value as i64),
        Pat::App { sym: Sym::Neg, .. } => stack.pop()?.checked_neg(),
        Pat::App { sym: Sym::Abs, .. } => stack.pop()?.checked_abs(),
        Pat::App { sym: Sym::Fact, .. } => factorial(stack.pop()?),
        Pat::App { sym, .. } => {
            let left = stack.pop()?;
            let right = stack.pop()?;
            binary(sym, left, right)
        }
    }
}

fn factorial(number: i64) -> Option<i64> {
    match number {
        0 => Some(1),
        1 => Some(1),
        2 => Some(2),
        3 => Some(6),
        4 => Some(24),
        _ => None,
    }
}

fn binary(sym: Sym, left: i64, right: i64) -> Option<i64> {
    match sym {
        Sym::Add => left.checked_add(right),
        Sym::Sub => left.checked_sub(right),
        Sym::Mul | Sym::Nsmul | Sym::Zsmul => left.checked_mul(right),
        Sym::Npow => left.checked_pow(u32::try_from(right).ok()?),
        Sym::Min => Some(left.min(right)),
        Sym::Max => Some(left.max(right)),
        _ => None,
    }
}

/// The value of a node of remainders by 7, whose arguments are on the stack.
pub fn remainder_of(node: &Pat, letters: &[i64; 8], stack: &mut Vec<i64>) -> Option<i64> {
    let value = match *node {
        Pat::App { sym: Sym::Inv, .. } => inverse(stack.pop()?)?,
        Pat::App { sym: Sym::Div, .. } => {
            let left = stack.pop()?;
            left.checked_mul(inverse(stack.pop()?)?)?
        }
        Pat::App { sym: Sym::Zpow, .. } => {
            let base = stack.pop()?;
            integer_power(base, stack.pop()?)?
        }
        _ => value_of(node, letters, stack)?,
    };
    match *node {
        Pat::App {
            sort: PatSort::S,
            ..
        } => value.checked_rem_euclid(7),
        _ => Some(value),
    }
}

// The inverse of a remainder by 7, and 0 for 0.
fn inverse(remainder: i64) -> Option<i64> {
    [0, 1, 4, 5, 2, 3, 6]
        .get(usize::try_from(remainder).ok()?)
        .copied()
}

fn integer_power(base: i64, exponent: i64) -> Option<i64> {
    let times = u32::try_from(exponent.unsigned_abs()).ok()?;
    if exponent < 0 {
        inverse(base)?.checked_pow(times)
    } else {
        base.checked_pow(times)
    }
}
