//! Certificates for a file with one goal. What is said of each is printed before what tells it.

use crate::words::{print, run_words};
use alg_cli::{MemoryHost, RealHost};
use alg_expr::Memory;
use std::alloc::Global;
use std::collections::BTreeMap;

const ROOM: usize = 10_000;

const FILE: &'static str = "example : 1 = 1 := by norm_num\n";

const DEPTH: usize = 100_000;

// Lines that the grammar of certificates does not have, and lines that are bad.
static LINES: [&'static str; 37] = [
    "",
    "refl",
    "refl ",
    "refl  $0",
    "refl $0 ",
    "refl (add)",
    "refl (add )",
    "refl (plus $0)",
    "refl (add $0",
    "refl (add $0))",
    "refl #M:1",
    "refl #N:01",
    "symm 01",
    "symm 1 2",
    "trans 1",
    "cong add",
    "law A N ;",
    "law a N",
    "law a N 1 ;",
    "rest 1",
    "rel eq N 1 2",
    "compute dvd Z",
    "compute add Z -0",
    "bridge pow 1 $0",
    "symm 170141183460469231731687303715884105728",
    "Rest",
    "goal 1",
    "compute inv N 2 3",
    "compute @0 N 2",
    "cong @0 1",
    "add t0 1 2",
    "law add_comm t4294967296 (neg #N:1) ;",
    "law add_comm N (neg #N:1) $0 ; 1",
    "law add_comm N (neg #N:1) (add #N:1) ; 1",
    "law add_comm N (neg #N:1) ; 1",
    "bridge smul 3 (add #N:1 #Z:1)",
    "refl (inv #N:1)",
];

// Certificates that end too early, or go on where they may not.
static CERTIFICATES: [&'static str; 11] = [
    "",
    "algebra-cert 1",
    "algebra-cert 2\n",
    "algebra-cert 1\n",
    "algebra-cert 1\nend\n",
    "algebra-cert 1\ngoal 0\nend\n",
    "algebra-cert 1\ngoal 1\n",
    "algebra-cert 1\ngoal 1\nend",
    "algebra-cert 1\ngoal 1\nend\n",
    "algebra-cert 1\ngoal 1\nrest\ngiven eq N $0 $0\nend\n",
    "algebra-cert 1\ngoal 2\nend\ngoal 1\nend\n\n",
];

pub fn run_entries(alloc: Global, out: &mut RealHost) -> Result<(), Memory> {
    for line in lines() {
        let certificate = format!(in alloc; "algebra-cert 1\ngoal 1\n{line}\nend\n")?;
        check(alloc, &certificate, out)?;
        let text = format!(in alloc; "{line}\n")?;
        print(out, text.as_bytes());
    }
    for certificate in certificates() {
        check(alloc, certificate, out)?;
        let text = format!(in alloc; "{} bytes\n", certificate.len())?;
        print(out, text.as_bytes());
    }
    check_deep(alloc, out)
}

fn lines() -> &'static [&'static str] {
    &LINES
}

fn certificates() -> &'static [&'static str] {
    &CERTIFICATES
}

// A line with a tree that is deeper than any stack of calls.
fn check_deep(alloc: Global, out: &mut RealHost) -> Result<(), Memory> {
    let open = "(neg ".repeat(alloc, DEPTH)?;
    let close = ")".repeat(alloc, DEPTH)?;
    let certificate = format!(in alloc; "algebra-cert 1\ngoal 1\nrefl {open}#Z:1{close}\nend\n")?;
    check(alloc, &certificate, out)?;
    let text = format!(in alloc; "{DEPTH} marks\n")?;
    print(out, text.as_bytes());
    Ok(())
}

fn check(alloc: Global, certificate: &str, out: &mut RealHost) -> Result<(), Memory> {
    let mut files = BTreeMap::new(alloc);
    files.insert(
        String::from_str(alloc, "FILE")?,
        FILE.as_bytes().to_vec(alloc)?,
    )?;
    files.insert(
        String::from_str(alloc, "CERT")?,
        certificate.as_bytes().to_vec(alloc)?,
    )?;
    let mut host = MemoryHost::new(alloc, files, Vec::new(alloc), ROOM)?;
    run_words(alloc, "algebra check FILE CERT", &mut host)?;
    print(out, host.said());
    Ok(())
}
