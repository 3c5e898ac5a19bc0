use super::*;
use std::process::Abort;

type Seen<'a> = Result<Token<'a>, LexFault>;

fn placed<'a>(kind: Kind, text: &'a str, at: usize, line: u32, after_newline: bool) -> Seen<'a> {
    Ok(Token {
        kind,
        text,
        at,
        line,
        after_newline,
    })
}

fn mark<'a>(text: &'a str, at: usize) -> Seen<'a> {
    placed(Kind::Mark, text, at, 1, false)
}

fn name<'a>(text: &'a str, at: usize) -> Seen<'a> {
    placed(Kind::Name, text, at, 1, false)
}

fn number<'a>(value: u128, text: &'a str, at: usize) -> Seen<'a> {
    placed(Kind::Literal { value }, text, at, 1, false)
}

fn bad<'a>(line: u32) -> Seen<'a> {
    Err(LexFault::BadChar { line })
}

// Asserts that the text gives just these items, and then `None` again and again.
fn gives<'a>(rt: &impl Abort, text: &'a str, want: &[Seen<'a>]) {
    assert!(rt; text.len() <= 1 << 24);
    let mut lexer = Lexer::new(text);
    for item in want {
        let expected = match item {
            Ok(token) => Ok(Some(*token)),
            Err(fault) => Err(*fault),
        };
        let found = lexer.next();
        assert!(rt; found == expected, "in {text}: {found:?} for {expected:?}");
    }
    for _ in 0..2 {
        let found = lexer.next();
        assert!(rt; found == Ok(None), "at the end of {text}: {found:?}");
    }
}

// Names, and literals at the limit 2^127-1 = 170141183460469231731687303715884105727.
#[test]
fn names_and_literals(rt: HostRuntime) {
    gives(
        &rt,
        "R₁.x' ℕ ℤ.ℚ _a.b.c bye by.x Types a·b",
        &[
            name("R₁.x'", 0),
            name("ℕ", 8),
            name("ℤ.ℚ", 12),
            name("_a.b.c", 20),
            name("bye", 27),
            name("by.x", 31),
            name("Types", 36),
            name("a·b", 42),
        ],
    );
    gives(
        &rt,
        "a. b..c 1x é𝒜0.9",
        &[
            name("a", 0),
            bad(1),
            name("b", 3),
            bad(1),
            bad(1),
            name("c", 6),
            number(1, "1", 8),
            name("x", 9),
            name("é𝒜0", 11),
            bad(1),
            number(9, "9", 19),
        ],
    );
    gives(
        &rt,
        "0 007 170141183460469231731687303715884105727",
        &[
            number(0, "0", 0),
            number(7, "007", 2),
            number(
                170141183460469231731687303715884105727,
                "170141183460469231731687303715884105727",
                6,
            ),
        ],
    );
    gives(
        &rt,
        "170141183460469231731687303715884105728 000000000000000000000000000000000000000000002 340282366920938463463374607431768211456x",
        &[
            Err(LexFault::LiteralTooWide { line: 1 }),
            number(2, "000000000000000000000000000000000000000000002", 40),
            Err(LexFault::LiteralTooWide { line: 1 }),
            name("x", 125),
        ],
    );
}

// Comments of each kind, the three faults, lines, and line feeds before tokens.
#[test]
fn comments_faults_and_lines(rt: HostRuntime) {
    gives(
        &rt,
        "a--/- b\r\n\tb/-/-/c-/--\n-/d/-\n-/e",
        &[
            name("a", 0),
            placed(Kind::Name, "b", 10, 2, true),
            placed(Kind::Name, "d", 24, 3, true),
            placed(Kind::Name, "e", 30, 4, true),
        ],
    );
    gives(
        &rt,
        "/-/ x -/y /- -/-1 /- /-/ -/ -/z",
        &[
            name("y", 8),
            mark("-", 15),
            number(1, "1", 16),
            name("z", 30),
        ],
    );
    gives(
        &rt,
        "\n⁻¹ ⁻\n¹ \u{FEFF}?\u{1F600}a",
        &[
            placed(Kind::Mark, "⁻¹", 1, 2, true),
            bad(2),
            bad(3),
            bad(3),
            bad(3),
            bad(3),
            placed(Kind::Name, "a", 22, 3, true),
        ],
    );
    gives(
        &rt,
        "a /- /- \n",
        &[name("a", 0), Err(LexFault::OpenComment { line: 1 })],
    );
    gives(&rt, "", &[]);
    gives(&rt, " -- a", &[]);
}
