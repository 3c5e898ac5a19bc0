use crate::files::Commands;
use crate::readings::{Reading, Unreadable};
use alg_syntax::commands::Command;
use std::alloc::Global;
use std::process::Abort;
use std::test::Fail;

fn outcome(reading: &Reading<'_>) -> &'static str {
    match &reading.command {
        Ok(Command::Import(_)) => "import",
        Ok(Command::Variable(_)) => "variable",
        Ok(Command::Theorem(_, _)) => "theorem",
        Ok(Command::Example(_)) => "example",
        Err(Unreadable::Fault(_)) => "fault",
        Err(Unreadable::TooDeep) => "too deep",
        Err(Unreadable::Syntax) => "syntax",
    }
}

// The line of each command, with what came of it.
fn report(rt: &impl Abort, alloc: Global, text: &str) -> Result<String, Fail> {
    assert!(rt; text.len() <= 1 << 24);
    let mut commands = Commands::new(alloc, text);
    let mut out = String::new(alloc);
    for _ in 0..100 {
        let Some(reading) = commands.next()? else {
            return Ok(out);
        };
        out.push_str(&format!(in alloc; "{} {}; ", reading.line, outcome(&reading))?)?;
    }
    Ok(out)
}

#[test]
fn cuts(rt: HostRuntime) -> Result<(), Fail> {
    let alloc = rt.alloc();
    let table = [
        ("", ""),
        ("\n-- nothing\n", ""),
        (
            "import A\nvariable (a : ℤ)\ntheorem t : a = a := by ring\nexample : a = a := by ring\n",
            "1 import; 2 variable; 3 theorem; 4 example; ",
        ),
        (
            "a\nimport A import B\n\nlemma",
            "1 syntax; 2 import; 2 import; 4 syntax; ",
        ),
        ("\n?\n a import A", "2 fault; 3 import; "),
        ("import A ?\nimport B", "1 fault; 2 import; "),
        ("import A\n? import B", "1 fault; 2 import; "),
        ("import\nA\n/- open", "1 fault; "),
        ("example : a = b by ring ) ? import", "1 fault; 1 syntax; "),
        ("by Type import Type", "1 syntax; 1 syntax; "),
    ];
    for (text, want) in table {
        let found = report(&rt, alloc, text)?;
        assert!(rt; found.as_str() == want, "{text} gave {found}");
    }
    Ok(())
}

fn repeated(
    alloc: Global,
    begin: &str,
    piece: &str,
    times: usize,
    end: &str,
) -> Result<String, Fail> {
    let mut out = String::new(alloc);
    out.push_str(begin)?;
    for _ in 0..times {
        out.push_str(piece)?;
    }
    out.push_str(end)?;
    Ok(out)
}

#[test]
fn limits(rt: HostRuntime) -> Result<(), Fail> {
    let alloc = rt.alloc();
    let table = [
        ("variable (", "a ", 4091, ": ℤ)", "1 variable; "),
        ("variable (", "a ", 4092, ": ℤ)", "1 too deep; "),
        (
            "variable (",
            "a ",
            9000,
            ": ℤ) import A",
            "1 too deep; 1 import; ",
        ),
        ("import ", "a ", 9000, "?", "1 fault; "),
        ("import ", "(", 257, "?\nimport A", "1 fault; 2 import; "),
        ("import ", "(", 257, "\nimport A", "1 too deep; 2 import; "),
        ("import ", "(", 256, "\nimport A", "1 syntax; 2 import; "),
    ];
    for (begin, piece, times, end, want) in table {
        let text = repeated(alloc, begin, piece, times, end)?;
        let found = report(&rt, alloc, text.as_str())?;
        assert!(rt;
            found.as_str() == want,
            "{times} times {piece} gave {found}"
        );
    }
    Ok(())
}
