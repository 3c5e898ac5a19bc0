use crate::patterns::statement;
use alg_law::{Law, Need, PatStmt};
use std::alloc::{AllocError, Global};

/// The line of a law in its table.
pub(crate) fn row(alloc: Global, law: &Law) -> Result<String, AllocError> {
    let name = law.name;
    let sort = needs(alloc, law.needs)?;
    let premises = premises(alloc, law.premises)?;
    let conclusion = statement(alloc, &law.conclusion)?;
    format!(in alloc; "| {name} | {sort} | {premises} | `{conclusion}` |")
}

// what the law asks of the sort
fn needs(alloc: Global, needs: &[Need]) -> Result<String, AllocError> {
    let mut text = String::new(alloc);
    for need in needs {
        if !text.is_empty() {
            text.push_str(" and ")?;
        }
        match need {
            Need::Class(class) => text.push_str(format!(in alloc; "{class:?}")?.as_str())?,
            Need::IsNat => text.push_str("ℕ")?,
        }
    }
    if text.is_empty() {
        text.push_str("any")?;
    }
    Ok(text)
}

fn premises(alloc: Global, premises: &[PatStmt]) -> Result<String, AllocError> {
    let mut text = String::new(alloc);
    for premise in premises {
        if !text.is_empty() {
            text.push_str(", ")?;
        }
        let premise = statement(alloc, premise)?;
        text.push_str(format!(in alloc; "`{premise}`")?.as_str())?;
    }
    Ok(text)
}
