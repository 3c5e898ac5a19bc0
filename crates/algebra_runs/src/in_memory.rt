//! Runs over hosts in memory, of whose calls one can be made to fail. What a run created, said and complained is
//! printed before its words and its status.

use crate::words::{print, run_words};
use alg_cli::{MemoryHost, RealHost};
use alg_expr::Memory;
use std::alloc::Global;
use std::collections::BTreeMap;

const ROOM: usize = 10_000;

const FILE: &'static str =
    "x\nexample : 1 = 1 := by norm_num\nexample : 1 = 2 := by norm_num\nexample : 2 + 1 = 3 := by norm_num\n";

const CERTIFICATE: &'static str =
    "algebra-cert 1\ngoal 1\nrefl #N:1\nend\ngoal 3\nadd N 2 1\nend\n";

// More than the bytes that are read of a file.
const TOO_MANY: usize = 16_777_217;

// The words of runs, and the number of the call that fails, from 1, or 0 where none does.
static RUNS: [(&'static str, u64); 47] = [
    ("algebra", 0),
    ("algebra --help", 0),
    ("algebra prove", 0),
    ("algebra prove -FILE", 0),
    ("algebra prove FILE MORE", 0),
    ("algebra prove FILE --cert OUT --cert OUT", 0),
    ("algebra prove FILE --without gcd", 0),
    ("algebra check FILE", 0),
    ("algebra check FILE CERT --cert OUT", 0),
    ("algebra demo 3", 0),
    ("algebra prove OTHER", 0),
    ("algebra check OTHER CERT", 0),
    ("algebra check FILE OTHER", 0),
    ("algebra prove BYTES", 0),
    ("algebra prove BYTES --cert OUT", 0),
    ("algebra check BYTES CERT", 0),
    ("algebra prove FILE", 0),
    ("algebra prove FILE --cert OUT", 0),
    ("algebra --cert=OUT prove -- FILE", 0),
    ("algebra check FILE CERT", 0),
    ("algebra prove FILE --cert OUT", 1),
    ("algebra prove FILE --cert OUT", 2),
    ("algebra prove FILE --cert OUT", 3),
    ("algebra prove FILE --cert OUT", 4),
    ("algebra prove FILE --cert OUT", 5),
    ("algebra prove FILE --cert OUT", 6),
    ("algebra prove FILE --cert OUT", 7),
    ("algebra prove FILE --cert OUT", 8),
    ("algebra prove FILE --cert OUT", 9),
    ("algebra prove FILE --cert OUT", 10),
    ("algebra prove FILE", 1),
    ("algebra prove FILE", 2),
    ("algebra prove FILE", 3),
    ("algebra prove FILE", 4),
    ("algebra prove FILE", 5),
    ("algebra prove FILE", 6),
    ("algebra check FILE CERT", 1),
    ("algebra check FILE CERT", 2),
    ("algebra check FILE CERT", 3),
    ("algebra check FILE CERT", 4),
    ("algebra check FILE CERT", 5),
    ("algebra", 1),
    ("algebra prove OTHER", 2),
    ("algebra prove BYTES", 2),
    ("algebra check OTHER CERT", 2),
    ("algebra check FILE OTHER", 3),
    ("algebra check BYTES CERT", 3),
];

const LONG_RUNS: [&'static str; 2] = ["algebra prove LONG --cert OUT", "algebra check LONG CERT"];

pub fn run_in_memory(alloc: Global, out: &mut RealHost) -> Result<(), Memory> {
    for (line, failing) in all_runs() {
        let files = files(alloc)?;
        run_over(alloc, files, line, *failing, out)?;
    }
    for line in LONG_RUNS {
        let mut files = files(alloc)?;
        files.insert(
            String::from_str(alloc, "LONG")?,
            vec![in alloc; b' '; TOO_MANY]?,
        )?;
        run_over(alloc, files, line, 0, out)?;
    }
    Ok(())
}

fn all_runs() -> &'static [(&'static str, u64)] {
    &RUNS
}

// Two files, and one that is no text.
fn files(alloc: Global) -> Result<BTreeMap<String, Vec<u8>>, Memory> {
    let mut files = BTreeMap::new(alloc);
    files.insert(
        String::from_str(alloc, "FILE")?,
        FILE.as_bytes().to_vec(alloc)?,
    )?;
    files.insert(
        String::from_str(alloc, "CERT")?,
        CERTIFICATE.as_bytes().to_vec(alloc)?,
    )?;
    files.insert(String::from_str(alloc, "BYTES")?, b"\xff".to_vec(alloc)?)?;
    Ok(files)
}

fn run_over(
    alloc: Global,
    files: BTreeMap<String, Vec<u8>>,
    line: &str,
    failing: u64,
    out: &mut RealHost,
) -> Result<(), Memory> {
    let mut host = MemoryHost::new(alloc, files, vec![in alloc; failing]?, ROOM)?;
    let code = run_words(alloc, line, &mut host)?;
    print_part(out, "created:\n", host.created());
    print_part(out, "said:\n", host.said());
    print_part(out, "complained:\n", host.complained());
    print_end(alloc, line, failing, code, host.goals().len(), out)
}

fn print_part(out: &mut RealHost, name: &str, bytes: &[u8]) {
    if bytes.len() > 0 {
        print(out, name.as_bytes());
        print(out, bytes);
    }
}

fn print_end(
    alloc: Global,
    line: &str,
    failing: u64,
    code: u8,
    goals: usize,
    out: &mut RealHost,
) -> Result<(), Memory> {
    let text = if failing == 0 {
        format!(in alloc; "{line}: {code}, {goals} handed over\n")?
    } else {
        format!(in alloc; "{line}, call {failing} fails: {code}, {goals} handed over\n")?
    };
    print(out, text.as_bytes());
    Ok(())
}
