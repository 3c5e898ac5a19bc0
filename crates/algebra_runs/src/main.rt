//! Runs of the program `algebra`, one after the other. Behind each its words and its exit status are printed.
#![tactic(auto)]

mod deep_trees;
mod entries;
mod in_memory;
mod lemma_lines;
mod shown;
mod words;

use alg_cli::RealHost;
use alg_expr::Memory;
use deep_trees::print_deep_trees;
use entries::run_entries;
use in_memory::run_in_memory;
use lemma_lines::print_lemma_lines;
use shown::print_shown;
use std::alloc::Global;
use std::process::ExitCode;
use words::{print, run_words};

const RUNS: [&'static str; 30] = [
    "algebra prove notation.alg --cert written.cert",
    "algebra check notation.alg written.cert",
    "algebra check notation.alg notation.cert",
    "algebra check refusals.alg refusals.cert",
    "algebra check refusals.alg notation.cert",
    "algebra check first.alg unended.cert",
    "algebra check first.alg first.alg",
    "algebra check computations.alg computations.cert",
    "algebra check lemmas.alg lemmas.cert",
    "algebra prove notation_rows.alg",
    "algebra prove faults.alg",
    "algebra prove first.alg",
    "algebra prove empty.alg --cert written.cert",
    "algebra check empty.alg written.cert",
    "algebra prove not_utf8.alg",
    "algebra prove missing.alg",
    "algebra prove first.alg --cert no/such/file",
    "algebra check first.alg missing.cert",
    "algebra demo 0",
    "algebra demo 6",
    "algebra demo 10001",
    "algebra prove first.alg --without=",
    "algebra prove norm_num.alg --cert written.cert",
    "algebra check norm_num.alg written.cert",
    "algebra prove numbers.alg --cert written.cert",
    "algebra check numbers.alg written.cert",
    "algebra prove without.alg --without gcd,div,gcd",
    "algebra prove without.alg --without gdc",
    "algebra prove tactics.alg",
    "algebra prove reading.alg",
];

/// The status where memory runs out before a run.
const OUT_OF_MEMORY: u8 = 4;

fn main(rt: HostRuntime) -> ExitCode {
    let alloc = rt.alloc();
    let mut host = RealHost::new(rt);
    match run_all(alloc, &mut host) {
        Ok(()) => ExitCode::from(0),
        Err(Memory) => ExitCode::from(OUT_OF_MEMORY),
    }
}

fn run_all(alloc: Global, host: &mut RealHost) -> Result<(), Memory> {
    for line in RUNS {
        run_line(alloc, line, host)?;
    }
    run_in_memory(alloc, host)?;
    run_entries(alloc, host)?;
    print_deep_trees(alloc, host)?;
    print_lemma_lines(alloc, host)?;
    print_shown(alloc, host)
}

// The run of the words of a line.
fn run_line(alloc: Global, line: &str, host: &mut RealHost) -> Result<(), Memory> {
    let code = run_words(alloc, line, host)?;
    let text = format!(in alloc; "{line}: {code}\n")?;
    print(host, text.as_bytes());
    Ok(())
}
