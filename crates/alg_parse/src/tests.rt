use crate::{Command, FileTree, read_file};
use std::alloc::Global;
use std::process::Abort;
use std::test::Fail;

// A command as it was read: a goal's label, its declarations in force, its own and its procedures, or a fault's line
// and cause.
fn outline(alloc: Global, command: &Command) -> Result<String, Fail> {
    match command {
        Command::Declares => Ok(String::from_str(alloc, "declares; ")?),
        Command::Goal {
            label,
            line,
            prefix,
            local,
            stmt: _,
            script,
        } => {
            let label = label.as_str();
            let local = local.as_slice().len();
            let steps = script.as_slice().len();
            Ok(format!(in alloc; "{label} {line} {prefix}+{local} {steps}; ")?)
        }
        Command::Fault { line, cause } => Ok(format!(in alloc; "{line} {cause:?}; ")?),
    }
}

fn outlines(alloc: Global, file: &FileTree) -> Result<String, Fail> {
    let mut out = String::new(alloc);
    for command in file.commands.as_slice() {
        let one = outline(alloc, command)?;
        out.push_str(one.as_str())?;
    }
    Ok(out)
}

fn push_times(text: &mut String, piece: &str, times: usize) -> Result<(), Fail> {
    for _ in 0..times {
        text.push_str(piece)?;
    }
    Ok(())
}

// Each command has as many tokens or open marks as it may have.
#[test]
fn deepest_commands(rt: HostRuntime) -> Result<(), Fail> {
    let alloc = rt.alloc();
    let combination = "example (x : ℤ) (h : x = x) : x = x := by linear_combination ";
    let rows = [
        (
            "example : ",
            "- ",
            4084,
            "(1 : ℤ)",
            "",
            0,
            " = 1 := by ring",
        ),
        ("example : ", "2 ^ ", 2044, "2", "", 0, " = 1 := by ring"),
        ("example : 2", " + 2", 2044, "", "", 0, " = 1 := by ring"),
        ("example : ", "(", 256, "2", ")", 256, " = 1 := by ring"),
        (combination, "- ", 4075, "h", "", 0, ""),
        (combination, "(", 256, "h", ")", 256, ""),
        (combination, "h + ", 2037, "h", "", 0, ""),
    ];
    for (begin, piece, times, middle, closing, closings, end) in rows {
        let mut text = String::from_str(alloc, begin)?;
        push_times(&mut text, piece, times)?;
        text.push_str(middle)?;
        push_times(&mut text, closing, closings)?;
        text.push_str(end)?;
        assert!(rt; text.len() <= 1 << 24);
        let file = read_file(alloc, text.as_str())?;
        let found = outlines(alloc, &file)?;
        assert!(rt;
            found.as_str().starts_with("example@1 "),
            "{times} times {piece} gave {found}"
        );
    }
    Ok(())
}
