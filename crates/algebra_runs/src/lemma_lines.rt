//! Lines that the builder makes by a lemma. The certificate of the refusals has the same ones, for the kernel.
ghost use Rattle.std.specs.Prelude.{IfOk, All};
ghost use Rattle.alg_proof.specs.Lines.{IsLineIn};
ghost use Rattle.alg_lemma.specs.Library.{HoldsLibrary};

use crate::words::print;
use alg_build::{Builder, Parts, Rewriting, by_lemma};
use alg_certificate::write_line;
use alg_cli::RealHost;
use alg_expr::{Arena, Memory, Sort};
use alg_law::Base;
use alg_lemma::library;
use alg_lemma::node_sums::ADD_TAIL;
use alg_proof::Line;
use std::alloc::Global;
use std::rc::Rc;

pub fn print_lemma_lines(alloc: Global, out: &mut RealHost) -> Result<(), Memory> {
    let parts = zeros_alone(alloc)?;
    print_both(out, &parts.arena, &parts.lines)
}

fn print_both(out: &mut RealHost, arena: &Arena, lines: &[Line]) -> Result<(), Memory>
    requires { All (IsLineIn arena.now) lines.now }
{
    if let [first, second] = lines {
        print_line(out, arena, first)?;
        print_line(out, arena, second)?;
    }
    Ok(())
}

fn print_line(out: &mut RealHost, arena: &Arena, line: &Line) -> Result<(), Memory>
    requires { IsLineIn arena.now line.now }
{
    let mut text = Vec::new(arena.alloc());
    write_line(arena, line, &mut text)?;
    text.push(b'\n')?;
    print(out, &text);
    Ok(())
}

fn zeros_alone(alloc: Global) -> Result<Parts, Memory>
    ensures lines_in { IfOk result (λ p. All (IsLineIn p.arena) p.lines.items) }
{
    let lemmas = Rc::new(alloc, library(alloc)?)?;
    let mut cx = Builder::new(alloc, Base::new(alloc)?, lemmas)?;
    zeros(&mut cx)?;
    Ok(cx.into_parts())
}

// `0 + 0 + 0 = 0 + 0`, from `0 + 0 = 0`
#[tactic(auto, using(crate::proofs::LemmaLines::lemma_lines))]
fn zeros(cx: &mut Builder) -> Result<Rewriting, Memory>
    requires { HoldsLibrary cx.old.theory.lemmas }
{
    let zero = cx.lit(Sort::Nat, 0)?;
    let line = cx.lit_add(Sort::Nat, 0, 0)?;
    by_lemma(cx, &ADD_TAIL, Sort::Nat, &[zero, zero, zero, zero], &[line])
}
