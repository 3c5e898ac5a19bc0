ghost use Rattle.std.specs.Prelude.{◌≡◌, ◌≢◌, ◌≤◌, ◌^◌, ◌⊎◌, length};
ghost use Rattle.alg_check.specs.Faults.{CountsFaults};
ghost use Rattle.alg_run.specs.Checked.{DidCheck};
ghost use Rattle.alg_run.specs.Run.{Works, Checks};

use crate::events::Stop;
use crate::status::Ending;
use alg_check::check_certificate;
use alg_host::{Host, LoadFault};
use alg_lemma::library;
use alg_parse::read_file;
use std::alloc::Global;

const MOST_BYTES: u64 = 1 << 24;

const MOST_CERTIFICATE_BYTES: u64 = 1 << 30;

// Checks a certificate against the text of a file, and answers whether nothing is refused.
fn check_text<H: Host>(
    alloc: Global,
    text: &str,
    certificate: &[u8],
    host: &mut H,
) -> Result<bool, Stop>
    requires { length text.now ≤ 2 ^ 24 }
    ensures done { DidCheck text.now certificate.now (H.told host.old) (H.told host.new) result ⊎ ((result ≡ Err Stop.Memory) × (H.told host.new ≡ H.told host.old)) }
    ensures faults { CountsFaults (Err Stop.HostFailed) result (H.faults host.old) (H.faults host.new) (H.complaint_faults host.old) (H.complaint_faults host.new) }
{
    let lemmas = match library(alloc) {
        Ok(lemmas) => lemmas,
        Err(_) => return Err(Stop::Memory),
    };
    let file = match read_file(alloc, text) {
        Ok(file) => file,
        Err(_) => return Err(Stop::Memory),
    };
    match check_certificate(alloc, &lemmas, &file, certificate, host) {
        Ok(tally) => Ok(tally.all_accepted()),
        Err(alg_check::Stop::HostFailed) => Err(Stop::HostFailed),
        Err(alg_check::Stop::Memory) => Err(Stop::Memory),
    }
}

/// Loads a file and a certificate, and checks the certificate against the goals of the file.
pub fn check<H: Host>(alloc: Global, file: &str, cert: &str, host: &mut H) -> Ending
    ensures answers { Works (H.told host.old) (H.told host.new) (Checks file.now cert.now result) }
    ensures no_usage { result ≢ Ending.Usage }
    ensures faults { CountsFaults Ending.HostFailed result (H.faults host.old) (H.faults host.new) (H.complaint_faults host.old) (H.complaint_faults host.new) }
{
    let bytes = match host.load(alloc, file, MOST_BYTES) {
        Ok(bytes) => bytes,
        Err(LoadFault::Failed) => return Ending::HostFailed,
        Err(LoadFault::TooLong) => return Ending::TooLong,
        Err(LoadFault::Memory) => return Ending::Memory,
    };
    let certificate = match host.load(alloc, cert, MOST_CERTIFICATE_BYTES) {
        Ok(certificate) => certificate,
        Err(LoadFault::Failed) => return Ending::HostFailed,
        Err(LoadFault::TooLong) => return Ending::TooLong,
        Err(LoadFault::Memory) => return Ending::Memory,
    };
    let text = match str::from_utf8(&bytes) {
        Ok(text) => text,
        Err(_) => return Ending::NotText,
    };
    match check_text(alloc, text, &certificate, host) {
        Ok(all_closed) => Ending::Done { all_closed },
        Err(Stop::HostFailed) => Ending::HostFailed,
        Err(Stop::Memory) => Ending::Memory,
    }
}
