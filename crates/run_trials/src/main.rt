//! Runs over hosts in memory, by procedures that show what a run does with their answers: statements that are left, notes,
//! and scripts of several steps. What a run created, said and complained is printed before its words and its status.
#![tactic(auto)]

use alg_expr::Memory;
use alg_host::{Host, MemoryHost, RealHost};
use alg_run::run_by;
use std::alloc::Global;
use std::collections::BTreeMap;
use std::process::ExitCode;
use trial_procedures::Trial;

const ROOM: usize = 10_000;

// `ring1` closes a goal whose sides are one tree, `ring` does so with a note, `ring_nf` puts `0 +` before the left side,
// `abel` does so with a note, and the others aren't built.
const FILE: &'static str =
    "example : 1 = 1 := by ring1\nexample : 1 = 1 := by ring\nexample (a b : ℕ) : a = b := by ring_nf\nexample (a b : ℕ) : a ≤ b := by ring_nf; abel; ring_nf\nexample (a : ℕ) : a = 0 + (0 + a) := by abel; ring_nf\nexample (a : ℕ) : a = 0 + (0 + a) := by abel; abel; ring1\nexample (a b : ℕ) : a = b := by abel; ring\nexample (a b : ℕ) : a = b := by ring_nf; group\n";

// The words of runs, and the number of the call that fails, from 1, or 0 where none does. A run goes on from the
// certificate of the one before it.
static RUNS: [(&'static str, u64); 8] = [
    ("algebra prove FILE", 0),
    ("algebra prove FILE --cert OUT", 0),
    ("algebra check FILE CERT", 0),
    ("algebra prove FILE --cert OUT", 4),
    ("algebra prove FILE --cert OUT", 5),
    ("algebra demo 0", 0),
    ("algebra demo 6", 0),
    ("algebra demo 10001", 0),
];

/// The status where memory runs out before a run.
const OUT_OF_MEMORY: u8 = 4;

fn main(rt: HostRuntime) -> ExitCode {
    let alloc = rt.alloc();
    let mut out = RealHost::new(rt);
    match run_all(alloc, &mut out) {
        Ok(()) => ExitCode::from(0),
        Err(Memory) => ExitCode::from(OUT_OF_MEMORY),
    }
}

fn all_runs() -> &'static [(&'static str, u64)] {
    &RUNS
}

fn run_all(alloc: Global, out: &mut RealHost) -> Result<(), Memory> {
    let mut certificate: Vec<u8> = Vec::new(alloc);
    for (line, failing) in all_runs() {
        let files = files(alloc, &certificate)?;
        certificate = run_over(alloc, files, line, *failing, out)?;
    }
    Ok(())
}

fn files(alloc: Global, certificate: &[u8]) -> Result<BTreeMap<String, Vec<u8>>, Memory> {
    let mut files = BTreeMap::new(alloc);
    files.insert(
        String::from_str(alloc, "FILE")?,
        FILE.as_bytes().to_vec(alloc)?,
    )?;
    files.insert(String::from_str(alloc, "CERT")?, certificate.to_vec(alloc)?)?;
    Ok(files)
}

// The bytes that a run appended.
fn run_over(
    alloc: Global,
    files: BTreeMap<String, Vec<u8>>,
    line: &str,
    failing: u64,
    out: &mut RealHost,
) -> Result<Vec<u8>, Memory> {
    let mut host = MemoryHost::new(alloc, files, vec![in alloc; failing]?, ROOM)?;
    let code = run_words(alloc, line, &mut host)?;
    print_part(out, "created:\n", host.created());
    print_part(out, "said:\n", host.said());
    print_part(out, "complained:\n", host.complained());
    print_end(alloc, line, failing, code, host.goals().len(), out)?;
    Ok(host.created().to_vec(alloc)?)
}

// The exit status of a run of the words of a line, without any extension.
fn run_words(alloc: Global, line: &str, host: &mut MemoryHost) -> Result<u8, Memory> {
    let mut words = Vec::new(alloc);
    for word in line.split(' ') {
        words.push(String::from_str(alloc, word)?)?;
    }
    Ok(run_by::<MemoryHost, Trial>(alloc, &words, host, &[], &[]).code())
}

fn print(out: &mut RealHost, bytes: &[u8]) {
    let _ = out.say(bytes);
}

fn print_part(out: &mut RealHost, name: &str, bytes: &[u8]) {
    if bytes.len() > 0 {
        print(out, name.as_bytes());
        print(out, bytes);
    }
}

fn print_end(
    alloc: Global,
    line: &str,
    failing: u64,
    code: u8,
    goals: usize,
    out: &mut RealHost,
) -> Result<(), Memory> {
    let text = if failing == 0 {
        format!(in alloc; "{line}: {code}, {goals} handed over\n")?
    } else {
        format!(in alloc; "{line}, call {failing} fails: {code}, {goals} handed over\n")?
    };
    print(out, text.as_bytes());
    Ok(())
}
