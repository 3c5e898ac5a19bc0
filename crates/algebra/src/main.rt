//! The program `algebra`: it makes the host over the real files and outputs, and runs.
#![tactic(auto)]

use alg_cli::{Extensions, Host, Memory, RealHost, run};
use alg_exts::NumExt;
use alg_normext::{ChooseExt, DivExt, FactExt, FibExt, GcdExt, ModExt, NatSubExt};
use alg_order_exts::{AbsExt, MinMaxExt};
use std::alloc::Global;
use std::io::ErrorKind;
use std::process::ExitCode;

/// The status where no memory is found before the run begins, and the line that is then written.
const OUT_OF_MEMORY: u8 = 4;

const OUT_OF_MEMORY_LINE: &'static str = "algebra: out of memory\n";

fn main(rt: HostRuntime) -> ExitCode {
    let alloc = rt.alloc();
    let words = words(&rt);
    let mut host = RealHost::new(rt);
    let code = match words {
        Ok(words) => run_extended(alloc, &words, &mut host),
        Err(Memory) => Err(Memory),
    };
    match code {
        Ok(code) => ExitCode::from(code),
        Err(Memory) => {
            let _ = host.complain(OUT_OF_MEMORY_LINE.as_bytes());
            ExitCode::from(OUT_OF_MEMORY)
        }
    }
}

// The exit status of a run with all extensions.
fn run_extended(alloc: Global, words: &[String], host: &mut RealHost) -> Result<u8, Memory> {
    let mut num: Vec<Box<dyn NumExt>> = Vec::new(alloc);
    num.push(Box::new(alloc, GcdExt)?)?;
    num.push(Box::new(alloc, DivExt)?)?;
    num.push(Box::new(alloc, ModExt)?)?;
    num.push(Box::new(alloc, FactExt)?)?;
    num.push(Box::new(alloc, ChooseExt)?)?;
    num.push(Box::new(alloc, FibExt)?)?;
    num.push(Box::new(alloc, AbsExt)?)?;
    num.push(Box::new(alloc, MinMaxExt)?)?;
    num.push(Box::new(alloc, NatSubExt)?)?;
    let exts = Extensions {
        num,
        sign: Vec::new(alloc),
    };
    Ok(run(alloc, words, host, &exts).code())
}

// The words that the program was called with, its own name first. Words that are no text ask for nothing, as no words do.
fn words(rt: &HostRuntime) -> Result<Vec<String>, Memory> {
    match std::env::args(rt) {
        Ok(args) => match args.collect(rt.alloc()) {
            Ok(words) => Ok(words),
            Err(_) => Err(Memory),
        },
        Err(error) => {
            if error.kind() == ErrorKind::OutOfMemory {
                Err(Memory)
            } else {
                Ok(Vec::new(rt.alloc()))
            }
        }
    }
}
