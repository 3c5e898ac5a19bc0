ghost use Rattle.std.specs.Prelude.{◌≡◌, [], ◌∷◌, ◌++◌, OnOk, IfErr, IsTrue};
ghost use Rattle.alg_certificate.specs.Grammar.{header};
ghost use Rattle.alg_check.specs.Faults.{CountsFaults};
ghost use Rattle.alg_report.specs.Plan.{Did, Starts, Appends, HandsOver, Says, certifies, proof_events, said_if};
ghost use Rattle.alg_scripts.specs.Fates.{IsEntryFor};
ghost use Rattle.alg_run.specs.Events.{MayAppend, HasEntry, claim_in};

use alg_host::{CreateFault, Failed, Host, Proved};
use alg_scripts::{End, Proof};
use std::alloc::Global;

/// Why the work on a file ends early.
#[derive(Clone, Copy, Debug, PartialEq, Eq)]
pub enum Stop {
    HostFailed,
    Memory,
}

/// Says a text.
pub fn say<H: Host>(host: &mut H, bytes: &[u8]) -> Result<(), Stop>
    ensures told { Did (H.told host.old) (H.told host.new) (Says bytes.now ∷ []) result }
    ensures faults { CountsFaults (Err Stop.HostFailed) result (H.faults host.old) (H.faults host.new) (H.complaint_faults host.old) (H.complaint_faults host.new) }
    ensures stop { IfErr result (λ e. e ≡ Stop.HostFailed) }
    ensures made { H.made host.new ≡ H.made host.old }
{
    match host.say(bytes) {
        Ok(()) => Ok(()),
        Err(Failed) => Err(Stop::HostFailed),
    }
}

/// Says a text, where it is to be said.
pub fn say_if<H: Host>(aloud: bool, host: &mut H, bytes: &[u8]) -> Result<(), Stop>
    ensures told { Did (H.told host.old) (H.told host.new) (said_if aloud bytes.now) result }
    ensures faults { CountsFaults (Err Stop.HostFailed) result (H.faults host.old) (H.faults host.new) (H.complaint_faults host.old) (H.complaint_faults host.new) }
    ensures made { H.made host.new ≡ H.made host.old }
{
    match aloud {
        true => say(host, bytes),
        false => Ok(()),
    }
}

fn append<H: Host>(host: &mut H, bytes: &[u8]) -> Result<(), Stop>
    requires { IsTrue (H.made host.old) }
    ensures told { Did (H.told host.old) (H.told host.new) (Appends bytes.now ∷ []) result }
    ensures faults { CountsFaults (Err Stop.HostFailed) result (H.faults host.old) (H.faults host.new) (H.complaint_faults host.old) (H.complaint_faults host.new) }
    ensures stop { IfErr result (λ e. e ≡ Stop.HostFailed) }
    ensures made { H.made host.new ≡ H.made host.old }
{
    match host.append(bytes) {
        Ok(()) => Ok(()),
        Err(Failed) => Err(Stop::HostFailed),
    }
}

fn create<H: Host>(alloc: Global, path: &str, host: &mut H) -> Result<(), Stop>
    ensures told { Did (H.told host.old) (H.told host.new) (Starts path.now ∷ []) result }
    ensures made { OnOk result (IsTrue (H.made host.new)) }
    ensures faults { CountsFaults (Err Stop.HostFailed) result (H.faults host.old) (H.faults host.new) (H.complaint_faults host.old) (H.complaint_faults host.new) }
{
    match host.create(alloc, path) {
        Ok(()) => Ok(()),
        Err(CreateFault::Failed) => Err(Stop::HostFailed),
        Err(CreateFault::Memory) => Err(Stop::Memory),
    }
}

/// Creates the file for a certificate, and appends its first line.
pub fn start_file<H: Host>(alloc: Global, path: &str, host: &mut H) -> Result<(), Stop>
    ensures told { Did (H.told host.old) (H.told host.new) (Starts path.now ∷ Appends header ∷ []) result }
    ensures made { OnOk result (IsTrue (H.made host.new)) }
    ensures faults { CountsFaults (Err Stop.HostFailed) result (H.faults host.old) (H.faults host.new) (H.complaint_faults host.old) (H.complaint_faults host.new) }
{
    create(alloc, path, host)?;
    append(host, b"algebra-cert 1\n")
}

// Hands over a checked goal, which is derivable.
fn hand_over<H: Host>(alloc: Global, proved: Proved, host: &mut H) -> Result<(), Stop>
    ensures told { Did (H.told host.old) (H.told host.new) (HandsOver proved ∷ []) result }
    ensures faults { H.faults host.new ≡ H.faults host.old }
    ensures stop { IfErr result (λ e. e ≡ Stop.Memory) }
    ensures complaint_faults { H.complaint_faults host.new ≡ H.complaint_faults host.old }
    ensures made { H.made host.new ≡ H.made host.old }
{
    proved.follows();
    match host.proved(alloc, proved) {
        Ok(()) => Ok(()),
        Err(_) => Err(Stop::Memory),
    }
}

// Appends the entry of a proof, where a certificate is written.
fn certify<H: Host>(number: Option<u128>, proof: &Proof, host: &mut H) -> Result<(), Stop>
    requires entry { IsEntryFor number proof.now.proved proof.now.entry }
    requires made { MayAppend number (H.made host.old) }
    ensures told { Did (H.told host.old) (H.told host.new) (certifies number proof.now.proved) result }
    ensures faults { CountsFaults (Err Stop.HostFailed) result (H.faults host.old) (H.faults host.new) (H.complaint_faults host.old) (H.complaint_faults host.new) }
    ensures made { H.made host.new ≡ H.made host.old }
{
    match number {
        None => Ok(()),
        Some(_) => match &proof.entry {
            Some(bytes) => append(host, bytes),
            None => unreachable!(),
        },
    }
}

fn settle<H: Host>(
    alloc: Global,
    number: Option<u128>,
    proof: Proof,
    host: &mut H,
) -> Result<(), Stop>
    requires entry { IsEntryFor number proof.proved proof.entry }
    requires made { MayAppend number (H.made host.old) }
    ensures told { Did (H.told host.old) (H.told host.new) (proof_events number (Some proof.proved)) result }
    ensures faults { CountsFaults (Err Stop.HostFailed) result (H.faults host.old) (H.faults host.new) (H.complaint_faults host.old) (H.complaint_faults host.new) }
    ensures made { H.made host.new ≡ H.made host.old }
{
    certify(number, &proof, host)?;
    hand_over(alloc, proof.proved, host)
}

/// Certifies what a script proved of its goal, where a certificate is written, and hands it over.
pub fn settle_end<H: Host>(
    alloc: Global,
    number: Option<u128>,
    end: End,
    host: &mut H,
) -> Result<(), Stop>
    requires entry { HasEntry number end }
    requires made { MayAppend number (H.made host.old) }
    ensures told { Did (H.told host.old) (H.told host.new) (proof_events number (claim_in end)) result }
    ensures faults { CountsFaults (Err Stop.HostFailed) result (H.faults host.old) (H.faults host.new) (H.complaint_faults host.old) (H.complaint_faults host.new) }
    ensures made { H.made host.new ≡ H.made host.old }
{
    match end {
        End::Closed(proof) => settle(alloc, number, proof, host),
        End::Open { proof, .. } => settle(alloc, number, proof, host),
        End::Failed { .. } => Ok(()),
    }
}
