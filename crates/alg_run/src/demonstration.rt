ghost use Rattle.std.specs.Prelude.{◌≡◌, ◌≤◌, ◌++◌, ◌^◌, length, IfOk, string_bytes};
ghost use Rattle.alg_run.specs.Demonstration.{line_text, demonstration_text, ring_line, ring_one_line, norm_num_line, combination_line};

use std::alloc::{AllocError, Global};

fn ring_line(alloc: Global, p: u32) -> Result<String, AllocError>
    requires { p ≤ 10 }
    ensures { IfOk result (λ t. string_bytes t ≡ ring_line p) }
{
    let twice = p * 2;
    let square = p * p;
    format!(in alloc;
        "example : (a + {p} * b) ^ 2 = a ^ 2 + {twice} * (a * b) + {square} * b ^ 2 := by ring\n"
    )
}

fn ring_one_line(alloc: Global, p: u32) -> Result<String, AllocError>
    ensures { IfOk result (λ t. string_bytes t ≡ ring_one_line p) }
{
    format!(in alloc; "example : {p} * (a + b) - {p} * b = {p} * a := by ring1\n")
}

fn norm_num_line(alloc: Global, i: u32) -> Result<String, AllocError>
    ensures { IfOk result (λ t. string_bytes t ≡ norm_num_line i) }
{
    format!(in alloc; "example : {i} % 9 < 5 := by norm_num\n")
}

fn combination_line(alloc: Global, q: u32) -> Result<String, AllocError>
    ensures { IfOk result (λ t. string_bytes t ≡ combination_line q) }
{
    format!(in alloc;
        "example (h : a = b) : {q} * a + c = {q} * b + c := by linear_combination {q} * h\n"
    )
}

// the line with this number
fn line_of(alloc: Global, i: u32) -> Result<String, AllocError>
    ensures { IfOk result (λ t. string_bytes t ≡ line_text i) }
{
    let remainder = i % 4;
    if remainder == 0 {
        return ring_line(alloc, i % 9 + 1);
    }
    if remainder == 1 {
        return ring_one_line(alloc, i % 9 + 1);
    }
    if remainder == 2 {
        return norm_num_line(alloc, i);
    }
    combination_line(alloc, i % 5 + 2)
}

/// The text of the demonstration with so many lines.
pub fn text_of_demonstration(alloc: Global, count: u32) -> Result<String, AllocError>
    requires { count ≤ 10000 }
    ensures text { IfOk result (λ t. string_bytes t ≡ demonstration_text count) }
{
    let mut out = String::new(alloc);
    out.push_str("variable {R : Type*} [CommRing R] (a b c : R)\n")?;
    for i in 0..count {
        let line = line_of(alloc, i + 1)?;
        out.push_str(&line)?;
    }
    Ok(out)
}
