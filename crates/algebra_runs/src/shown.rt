//! Statements that are read and shown, and what is shown is read and shown again.
use crate::words::print;
use alg_cli::RealHost;
use alg_expr::Memory;
use alg_goals::show_goal;
use alg_parse::{Command, read_file};
use std::alloc::Global;

const DECLARED: &'static str = "variable (a b : ℚ) (i j : ℤ) (m n : ℕ) (f : ℚ → ℚ) (g : ℕ → ℕ → ℚ)";

static STATEMENTS: [&'static str; 34] = [
    "a + b + a = a + (b + a)",
    "a - b - a = a - (b - a)",
    "((m)) - n = (m - n)",
    "a * b * a = a * (b * a)",
    "(a + b) * a = a + b * a",
    "a / b / a = a / (b / a)",
    "i / j = i % j",
    "-a = -(-a)",
    "a - -b = -a + b",
    "(-a) ^ 2 = -(a ^ 2)",
    "-(a * b) = (-a) * b",
    "a⁻¹ ^ 2 = (a ^ 2)⁻¹",
    "(a)⁻¹⁻¹ = (-a)⁻¹",
    "(a ^ 2) ^ 3 = a ^ (2 ^ 3)",
    "a ^ (-2) = a ^ i",
    "a ^ (m + n) = a ^ m * a ^ n",
    "2 • a = (2 : ℤ) • a",
    "(m • a) * 2 = m • (a * 2)",
    "m • n • a = (m * n) • a",
    "(-i) • a = i ^ m • a",
    "abs (a + b) ≤ abs a + abs b",
    "min a b < max a⁻¹ (-b)",
    "(f a)⁻¹ = f a⁻¹",
    "f (f a) ≠ f 2",
    "g m (n + 1) * (a) = b / 2",
    "(abs a) ^ 2 = abs (a ^ 2)",
    "Nat.gcd m (n + 1) = Nat.lcm 2 n",
    "Nat.factorial m = Nat.choose m n * Nat.fib n",
    "(m : ℕ) ∣ n",
    "a > b",
    "1 + 1 = 2",
    "1 + 1 = (2 : ℚ)",
    "-1 = (1 : ℤ)",
    "a ^ (1 - (2 : ℤ)) = min 1 a",
];

pub fn print_shown(alloc: Global, out: &mut RealHost) -> Result<(), Memory> {
    for statement in statements() {
        let first = shown(alloc, statement)?;
        let second = shown(alloc, &first)?;
        let text = format!(in alloc; "{statement}\n  {first}\n  {second}\n")?;
        print(out, text.as_bytes());
    }
    Ok(())
}

fn statements() -> &'static [&'static str] {
    &STATEMENTS
}

// The text of the statement that this one is read as, which is the file's second command.
fn shown(alloc: Global, statement: &str) -> Result<String, Memory> {
    let text = format!(in alloc; "{DECLARED}\nexample : {statement} := by ring")?;
    if text.len() > 1 << 24 {
        return Ok(String::new(alloc));
    }
    let file = read_file(alloc, &text)?;
    match file.commands.as_slice().get(1) {
        Some(
            Command::Goal {
                prefix,
                local,
                stmt,
                ..
            },
        ) => show_goal(alloc, &file, *prefix, local.as_slice(), *stmt),
        _ => Ok(String::new(alloc)),
    }
}
