ghost use Rattle.std.specs.Prelude.{◌≡◌, ◌<◌, ◌^◌, ◌++◌, [], ◌∷◌, All, IfOk, OnOk, IsTrue, string_bytes};
ghost use Rattle.alg_proof.specs.LemmaRows.{rows_of};
ghost use Rattle.alg_lemma.specs.Lemmas.{lemma_table};
ghost use Rattle.alg_check.specs.Faults.{CountsFaults};
ghost use Rattle.alg_exts.specs.Covers.{IsEven};
ghost use Rattle.alg_steps.specs.Calling.{cover_of};
ghost use Rattle.alg_report.specs.Seen.{told_seen, seen_of, MayRun};
ghost use Rattle.alg_report.specs.Report.{findings_at, findings_of, tally_of};
ghost use Rattle.alg_report.specs.Tallies.{tally_text, total_of, with_error, plus, next_goal};
ghost use Rattle.alg_report.specs.Texts.{error_text};
ghost use Rattle.alg_report.specs.Plan.{Did, Says, numbered, proof_events, said_if, events_from};
ghost use Rattle.alg_scripts.specs.Fates.{MayNumber, fate_text};
ghost use Rattle.alg_run.specs.Events.{MayAppend, HasEntry, claim_in, with_end};

use crate::events::{Stop, say, say_if, settle_end};
use alg_exts::{Exts, NumExt, SignExt};
use alg_host::Host;
use alg_parse::{Cause, Command, FileTree};
use alg_proof::Lemmas;
use alg_report::{Tally, text_of_cause};
use alg_scripts::{End, Fate, prove_goal};
use alg_steps::Procedures;
use std::alloc::{AllocError, Global};
use std::rc::Rc;

// the entry of a faulty command
fn text_of_error(alloc: Global, line: u32, cause: Cause) -> Result<String, AllocError>
    ensures { IfOk result (λ text. string_bytes text ≡ error_text line cause) }
{
    let text = text_of_cause(cause);
    format!(in alloc; "line {line}: error: {text}\n")
}

fn count(tally: &mut Tally, fate: &Fate)
    requires { total_of tally.old < 2 ^ 63 }
    ensures { tally.new ≡ with_end tally.old fate.now.end }
{
    match &fate.end {
        End::Closed(_) => tally.add_closed(),
        End::Open { .. } => tally.add_open(),
        End::Failed { .. } => tally.add_failed(),
    }
}

// What a goal's fate asks for: its entry in the certificate, its proof handed over, its entry in the report.
fn do_goal<H: Host>(
    alloc: Global,
    number: Option<u128>,
    aloud: bool,
    label: &str,
    fate: Fate,
    tally: &mut Tally,
    host: &mut H,
) -> Result<(), Stop>
    requires small { total_of tally.old < 2 ^ 63 }
    requires entry { HasEntry number fate.end }
    requires made { MayAppend number (H.made host.old) }
    ensures told { Did (H.told host.old) (H.told host.new) (proof_events number (claim_in fate.end) ++ said_if aloud (fate_text label.now fate)) result }
    ensures tally { OnOk result (tally.new ≡ with_end tally.old fate.end) }
    ensures faults { CountsFaults (Err Stop.HostFailed) result (H.faults host.old) (H.faults host.new) (H.complaint_faults host.old) (H.complaint_faults host.new) }
    ensures made { H.made host.new ≡ H.made host.old }
{
    let text = match fate.text(alloc, label) {
        Ok(text) => text,
        Err(_) => return Err(Stop::Memory),
    };
    count(tally, &fate);
    settle_end(alloc, number, fate.end, host)?;
    say_if(aloud, host, text.as_bytes())
}

fn say_fault<H: Host>(
    alloc: Global,
    aloud: bool,
    line: u32,
    cause: Cause,
    tally: &mut Tally,
    host: &mut H,
) -> Result<(), Stop>
    requires { total_of tally.old < 2 ^ 63 }
    ensures told { Did (H.told host.old) (H.told host.new) (said_if aloud (error_text line cause)) result }
    ensures tally { OnOk result (tally.new ≡ with_error tally.old) }
    ensures faults { CountsFaults (Err Stop.HostFailed) result (H.faults host.old) (H.faults host.new) (H.complaint_faults host.old) (H.complaint_faults host.new) }
    ensures made { H.made host.new ≡ H.made host.old }
{
    let text = match text_of_error(alloc, line, cause) {
        Ok(text) => text,
        Err(_) => return Err(Stop::Memory),
    };
    say_if(aloud, host, text.as_bytes())?;
    tally.add_error();
    Ok(())
}

/// Says the last line of the report.
pub fn say_last<H: Host>(alloc: Global, tally: &Tally, host: &mut H) -> Result<(), Stop>
    ensures told { Did (H.told host.old) (H.told host.new) (Says (tally_text tally.now) ∷ []) result }
    ensures faults { CountsFaults (Err Stop.HostFailed) result (H.faults host.old) (H.faults host.new) (H.complaint_faults host.old) (H.complaint_faults host.new) }
{
    match tally.text(alloc) {
        Ok(text) => say(host, text.as_bytes()),
        Err(_) => Err(Stop::Memory),
    }
}

// the number of the next goal, where a certificate is written
fn number_for(certified: bool, tally: &Tally) -> Option<u128>
    requires { total_of tally.now < 2 ^ 63 }
    ensures number { result ≡ numbered certified (next_goal tally.now) }
    ensures may { MayNumber result }
{
    if certified {
        Some(tally.next_goal())
    } else {
        None
    }
}

// The work on one command.
fn do_command<H: Host, P: Procedures>(
    alloc: Global,
    lemmas: &Rc<Lemmas>,
    file: &FileTree,
    exts: &Exts<'_>,
    certified: bool,
    aloud: bool,
    command: &Command,
    tally: &mut Tally,
    host: &mut H,
) -> Result<(), Stop>
    requires command { MayRun file.now.arena file.now.shared command.now }
    requires lemmas { rows_of lemmas.now.value ≡ lemma_table }
    requires even { IsEven exts.now.num.now exts.now.num_on.now exts.now.sign.now exts.now.sign_on.now }
    requires small { total_of tally.old < 2 ^ 63 }
    requires made { IsTrue certified → IsTrue (H.made host.old) }
    ensures told { Did (H.told host.old) (H.told host.new) (events_from (record { certified = certified; aloud = aloud }) file.now.shared (next_goal tally.old) (findings_at (P.step (cover_of (λ x f. (⟦<dyn NumExt as NumExt>⟧ x.vtable).covered x.value f) (λ x f. (⟦<dyn SignExt as SignExt>⟧ x.vtable).handled x.value f) exts.now.num.now exts.now.num_on.now exts.now.sign.now exts.now.sign_on.now)) file.now.shared (told_seen file.now.arena command.now))) result }
    ensures tally { OnOk result (tally.new ≡ plus tally.old (tally_of (findings_at (P.step (cover_of (λ x f. (⟦<dyn NumExt as NumExt>⟧ x.vtable).covered x.value f) (λ x f. (⟦<dyn SignExt as SignExt>⟧ x.vtable).handled x.value f) exts.now.num.now exts.now.num_on.now exts.now.sign.now exts.now.sign_on.now)) file.now.shared (told_seen file.now.arena command.now)))) }
    ensures faults { CountsFaults (Err Stop.HostFailed) result (H.faults host.old) (H.faults host.new) (H.complaint_faults host.old) (H.complaint_faults host.new) }
    ensures made { H.made host.new ≡ H.made host.old }
{
    match command {
        Command::Declares => Ok(()),
        Command::Goal {
            label,
            prefix,
            local,
            stmt,
            script,
            ..
        } => {
            let number = number_for(certified, tally);
            match prove_goal::<P>(
                alloc,
                lemmas,
                file,
                *prefix,
                local.as_slice(),
                *stmt,
                script.as_slice(),
                exts,
                number,
            ) {
                Ok(fate) => do_goal(alloc, number, aloud, label.as_str(), fate, tally, host),
                Err(_) => Err(Stop::Memory),
            }
        }
        Command::Fault { line, cause } => say_fault(alloc, aloud, *line, *cause, tally, host),
    }
}

/// The work on all commands, without the last line of the report.
pub fn do_commands<H: Host, P: Procedures>(
    alloc: Global,
    lemmas: &Rc<Lemmas>,
    file: &FileTree,
    exts: &Exts<'_>,
    certified: bool,
    aloud: bool,
    host: &mut H,
) -> Result<Tally, Stop>
    requires commands { All (MayRun file.now.arena file.now.shared) file.now.commands }
    requires lemmas { rows_of lemmas.now.value ≡ lemma_table }
    requires even { IsEven exts.now.num.now exts.now.num_on.now exts.now.sign.now exts.now.sign_on.now }
    requires made { IsTrue certified → IsTrue (H.made host.old) }
    ensures told { Did (H.told host.old) (H.told host.new) (events_from (record { certified = certified; aloud = aloud }) file.now.shared 1 (findings_of (P.step (cover_of (λ x f. (⟦<dyn NumExt as NumExt>⟧ x.vtable).covered x.value f) (λ x f. (⟦<dyn SignExt as SignExt>⟧ x.vtable).handled x.value f) exts.now.num.now exts.now.num_on.now exts.now.sign.now exts.now.sign_on.now)) file.now.shared (seen_of file.now))) result }
    ensures tally { IfOk result (λ tally. tally ≡ tally_of (findings_of (P.step (cover_of (λ x f. (⟦<dyn NumExt as NumExt>⟧ x.vtable).covered x.value f) (λ x f. (⟦<dyn SignExt as SignExt>⟧ x.vtable).handled x.value f) exts.now.num.now exts.now.num_on.now exts.now.sign.now exts.now.sign_on.now)) file.now.shared (seen_of file.now))) }
    ensures faults { CountsFaults (Err Stop.HostFailed) result (H.faults host.old) (H.faults host.new) (H.complaint_faults host.old) (H.complaint_faults host.new) }
{
    let mut tally = Tally::new();
    let commands = file.commands.as_slice();
    for command in commands {
        do_command::<H, P>(
            alloc, lemmas, file, exts, certified, aloud, command, &mut tally, host,
        )?;
    }
    Ok(tally)
}
