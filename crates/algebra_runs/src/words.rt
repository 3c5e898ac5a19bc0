use alg_cli::{Extensions, Host, RealHost, run};
use alg_expr::Memory;
use alg_exts::NumExt;
use alg_normext::{ChooseExt, DivExt, FactExt, FibExt, GcdExt, ModExt, NatSubExt};
use alg_order_exts::{AbsExt, MinMaxExt};
use std::alloc::Global;

/// The exit status of a run of the words of a line, with all extensions.
pub fn run_words<H: Host>(alloc: Global, line: &str, host: &mut H) -> Result<u8, Memory> {
    let mut words = Vec::new(alloc);
    for word in line.split(' ') {
        words.push(String::from_str(alloc, word)?)?;
    }
    let mut num: Vec<Box<dyn NumExt>> = Vec::new(alloc);
    num.push(Box::new(alloc, GcdExt)?)?;
    num.push(Box::new(alloc, DivExt)?)?;
    num.push(Box::new(alloc, ModExt)?)?;
    num.push(Box::new(alloc, FactExt)?)?;
    num.push(Box::new(alloc, ChooseExt)?)?;
    num.push(Box::new(alloc, FibExt)?)?;
    num.push(Box::new(alloc, AbsExt)?)?;
    num.push(Box::new(alloc, MinMaxExt)?)?;
    num.push(Box::new(alloc, NatSubExt)?)?;
    let exts = Extensions {
        num,
        sign: Vec::new(alloc),
    };
    Ok(run(alloc, &words, host, &exts).code())
}

/// Prints bytes, where it can.
pub fn print(out: &mut RealHost, bytes: &[u8]) {
    let _ = out.say(bytes);
}
