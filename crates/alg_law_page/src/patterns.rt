use alg_law::{Pat, PatStmt};
use alg_terms::{Rel, Sym};
use std::alloc::{AllocError, Global};

// how strongly an expression holds together
const SUM: u8 = 65;

const PRODUCT: u8 = 70;

const MULTIPLE: u8 = 73;

const POWER: u8 = 75;

const CALL: u8 = 76;

const WHOLE: u8 = 100;

/// The text of a pattern, and how strongly it holds together.
#[derive(Drop)]
struct Part {
    text: String,
    level: u8,
}

/// The text of a statement over patterns.
pub(crate) fn statement(alloc: Global, s: &PatStmt) -> Result<String, AllocError> {
    let mut parts = parts(alloc, s.nodes)?;
    let left = next(alloc, &mut parts);
    let right = next(alloc, &mut parts);
    infix(alloc, &left, relation(s.rel), &right, 0, 0)
}

fn relation(rel: Rel) -> &'static str {
    match rel {
        Rel::Eq => "=",
        Rel::Ne => "≠",
        Rel::Lt => "<",
        Rel::Le => "≤",
        Rel::Dvd => "∣",
    }
}

// the patterns that these nodes are, the first one last
fn parts(alloc: Global, nodes: &[Pat]) -> Result<Vec<Part>, AllocError> {
    let mut parts = Vec::new(alloc);
    for node in nodes.iter().rev() {
        let part = node_over(alloc, node, &mut parts)?;
        parts.push(part)?;
    }
    Ok(parts)
}

// a node over the patterns that follow it
fn node_over(alloc: Global, node: &Pat, parts: &mut Vec<Part>) -> Result<Part, AllocError> {
    match node {
        Pat::Letter(k) => Ok(Part {
            text: String::from_str(alloc, letter(*k))?,
            level: WHOLE,
        }),
        Pat::Lit { value, .. } => Ok(Part {
            text: format!(in alloc; "{value}")?,
            level: WHOLE,
        }),
        Pat::App { sym, .. } => applied(alloc, *sym, parts),
    }
}

fn letter(k: u8) -> &'static str {
    match k {
        0 => "a",
        1 => "b",
        2 => "c",
        3 => "d",
        4 => "m",
        5 => "n",
        6 => "i",
        7 => "j",
        _ => "?",
    }
}

fn applied(alloc: Global, sym: Sym, parts: &mut Vec<Part>) -> Result<Part, AllocError> {
    let first = next(alloc, parts);
    match sym {
        Sym::Neg => around(alloc, "-", &first, "", POWER, POWER),
        Sym::Inv => around(alloc, "", &first, "⁻¹", WHOLE, WHOLE),
        Sym::Abs => around(alloc, "abs ", &first, "", WHOLE, CALL),
        Sym::Fact => around(alloc, "Nat.factorial ", &first, "", WHOLE, CALL),
        _ => {
            let second = next(alloc, parts);
            joined(alloc, sym, &first, &second)
        }
    }
}

// a symbol of two arguments
fn joined(alloc: Global, sym: Sym, first: &Part, second: &Part) -> Result<Part, AllocError> {
    let (name, left, right, level) = match sym {
        Sym::Add => ("+", SUM, PRODUCT, SUM),
        Sym::Sub => ("-", SUM, PRODUCT, SUM),
        Sym::Mul => ("*", PRODUCT, MULTIPLE, PRODUCT),
        Sym::Div => ("/", PRODUCT, MULTIPLE, PRODUCT),
        Sym::Nsmul | Sym::Zsmul => ("•", CALL, MULTIPLE, MULTIPLE),
        Sym::Npow | Sym::Zpow => ("^", CALL, CALL, POWER),
        Sym::Min => return call(alloc, "min", first, second),
        Sym::Max => return call(alloc, "max", first, second),
        _ => return call(alloc, "?", first, second),
    };
    Ok(Part {
        text: infix(alloc, first, name, second, left, right)?,
        level,
    })
}

// the next pattern, or an empty one where there is none
fn next(alloc: Global, parts: &mut Vec<Part>) -> Part {
    match parts.pop() {
        Some(part) => part,
        None => Part {
            text: String::new(alloc),
            level: WHOLE,
        },
    }
}

fn call(alloc: Global, name: &str, first: &Part, second: &Part) -> Result<Part, AllocError> {
    let first = grouped(alloc, first, WHOLE)?;
    let second = grouped(alloc, second, WHOLE)?;
    Ok(Part {
        text: format!(in alloc; "{name} {first} {second}")?,
        level: CALL,
    })
}

fn around(
    alloc: Global,
    before: &str,
    part: &Part,
    behind: &str,
    needed: u8,
    level: u8,
) -> Result<Part, AllocError> {
    let inner = grouped(alloc, part, needed)?;
    Ok(Part {
        text: format!(in alloc; "{before}{inner}{behind}")?,
        level,
    })
}

fn infix(
    alloc: Global,
    first: &Part,
    name: &str,
    second: &Part,
    left: u8,
    right: u8,
) -> Result<String, AllocError> {
    let first = grouped(alloc, first, left)?;
    let second = grouped(alloc, second, right)?;
    format!(in alloc; "{first} {name} {second}")
}

// the text, in parentheses where it doesn't hold together as strongly as needed
fn grouped(alloc: Global, part: &Part, needed: u8) -> Result<String, AllocError> {
    let text = part.text.as_str();
    if part.level >= needed {
        format!(in alloc; "{text}")
    } else {
        format!(in alloc; "({text})")
    }
}
