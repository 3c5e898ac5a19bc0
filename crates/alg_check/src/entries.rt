ghost use Rattle.std.specs.Prelude.{◌≡◌, IfOk, OnOk};
ghost use Rattle.alg_certificate.specs.Reader.{seen_line};
ghost use Rattle.alg_check.specs.Written.{begun, is_end, with_line, seen_entry, Gives};

use alg_certificate::{CertFault, CertLine, CertReader};
use alg_expr::Memory;
use std::alloc::Global;

/// An entry as it is written. Its texts are slices of the certificate.
#[derive(Drop)]
pub(crate) struct Written<'a> {
    pub number: u128,
    pub given: Option<&'a [u8]>,
    pub proof: Vec<&'a [u8]>,
}

/// What comes next in a certificate.
#[derive(Drop)]
pub(crate) enum Next<'a> {
    Entry(Written<'a>),
    /// There are no more entries.
    Over,
    /// No line begins there that may.
    Bad(CertFault),
}

impl<'a> Written<'a> {
    // An entry of which nothing else was read.
    fn begun(alloc: Global, number: u128) -> Written<'a>
        ensures { seen_entry result ≡ begun number }
    {
        Written {
            number,
            given: None,
            proof: Vec::new(alloc),
        }
    }

    // One line more, and whether the entry ends there.
    fn add(&mut self, alloc: Global, line: CertLine<'a>) -> Result<bool, Memory>
        ensures entry { OnOk result (seen_entry self.new ≡ with_line (seen_line line.entry) (seen_entry self.old)) }
        ensures end { IfOk result (λ ends. ends ≡ is_end (seen_line line.entry)) }
    {
        match line {
            CertLine::Goal { number } => *self = Written::begun(alloc, number),
            CertLine::Given { text } => self.given = Some(text),
            CertLine::Proof { text } => self.proof.push(text)?,
            CertLine::End => return Ok(true),
        }
        Ok(false)
    }
}

/// The next entry that ends, whole.
pub(crate) fn next_entry<'a>(alloc: Global, reader: &mut CertReader<'a>) -> Result<Next<'a>, Memory>
    ensures { IfOk result (Gives reader.old reader.new) }
{
    let mut entry = Written::begun(alloc, 0);
    'lines: loop {
        match reader.next() {
            Err(fault) => return Ok(Next::Bad(fault)),
            Ok(None) => return Ok(Next::Over),
            Ok(Some(line)) => {
                if entry.add(alloc, line)? {
                    return Ok(Next::Entry(entry));
                }
            }
        }
    }
}
