//! Prints the page on the laws and lemmas, docs/LAWS.md, from the tables of the code.
#![tactic(auto)]

mod patterns;
mod rows;
mod texts;

use alg_law::{Law, laws};
use alg_lemma::lemmas;
use alg_proof::LemmaRow;
use rows::row;
use std::alloc::Global;
use std::io;
use std::io::Print;
use texts::{GROUPS, HEAD, LEMMA_GROUPS, LEMMAS_HEAD, TAIL};

fn main(rt: HostRuntime) -> io::Result<()> {
    print_lines(&rt, &HEAD)?;
    let groups = laws();
    for i in 0..groups.len() {
        print_group(&rt, rt.alloc(), GROUPS[i], groups[i])?;
    }
    print_lines(&rt, &TAIL)?;
    print_lemmas(&rt, rt.alloc())
}

fn print_lemmas(rt: &impl Print, alloc: Global) -> io::Result<()> {
    print_lines(rt, &LEMMAS_HEAD)?;
    let groups = lemmas();
    for i in 0..groups.len() {
        print_lemma_group(rt, alloc, LEMMA_GROUPS[i], groups[i])?;
    }
    Ok(())
}

fn print_lines(rt: &impl Print, lines: &[&str]) -> io::Result<()> {
    for line in lines {
        println!(rt; "{line}")?;
    }
    Ok(())
}

// the heading and the table of a group of laws
fn print_group(rt: &impl Print, alloc: Global, title: &str, laws: &[Law]) -> io::Result<()> {
    println!(rt; "## {title}\n\n| Name | Sort | Premises | Conclusion |\n|---|---|---|---|")?;
    for law in laws {
        let text = row(alloc, law)?;
        println!(rt; "{text}")?;
    }
    println!(rt; "")
}

// the heading and the table of a group of lemmas
fn print_lemma_group(
    rt: &impl Print,
    alloc: Global,
    title: &str,
    lemmas: &[LemmaRow],
) -> io::Result<()> {
    println!(rt; "\n## {title}\n\n| Name | Sort | Premises | Conclusion |\n|---|---|---|---|")?;
    for lemma in lemmas {
        let text = row(alloc, &lemma.row)?;
        println!(rt; "{text}")?;
    }
    Ok(())
}
