ghost use Rattle.std.specs.Prelude.{◌≡◌, ◌≤◌, ◌^◌, ◌↔◌, length, All, is_some, IfOk, OnOk, IsTrue};
ghost use Rattle.alg_proof.specs.LemmaRows.{rows_of};
ghost use Rattle.alg_lemma.specs.Lemmas.{lemma_table};
ghost use Rattle.alg_check.specs.Faults.{CountsFaults};
ghost use Rattle.alg_words.specs.Words.{text_in};
ghost use Rattle.alg_exts.specs.Covers.{IsEven};
ghost use Rattle.alg_steps.specs.Calling.{cover_of};
ghost use Rattle.alg_report.specs.Seen.{seen_of, MayRun};
ghost use Rattle.alg_report.specs.Report.{findings_of, IsAllClosed};
ghost use Rattle.alg_report.specs.Plan.{Did, start_of, plan_over};
ghost use Rattle.alg_run.specs.Work.{DidText};

use crate::commands::{do_commands, say_last};
use crate::events::{Stop, start_file};
use alg_expr::Memory;
use alg_exts::{Exts, NumExt, SignExt};
use alg_goals::read_goals;
use alg_host::Host;
use alg_lemma::library;
use alg_parse::FileTree;
use alg_proof::Lemmas;
use alg_steps::Procedures;
use std::alloc::Global;
use std::rc::Rc;

// Begins a certificate, where one is wanted.
fn start<H: Host>(alloc: Global, cert: Option<&str>, host: &mut H) -> Result<(), Stop>
    ensures told { Did (H.told host.old) (H.told host.new) (start_of (text_in cert.entry)) result }
    ensures made { OnOk result (IsTrue (is_some cert.entry) → IsTrue (H.made host.new)) }
    ensures faults { CountsFaults (Err Stop.HostFailed) result (H.faults host.old) (H.faults host.new) (H.complaint_faults host.old) (H.complaint_faults host.new) }
{
    match cert {
        Some(path) => start_file(alloc, path, host),
        None => Ok(()),
    }
}

// The report on a file that was read, and whether all its goals are closed.
fn do_file<H: Host, P: Procedures>(
    alloc: Global,
    lemmas: &Rc<Lemmas>,
    file: &FileTree,
    exts: &Exts<'_>,
    cert: Option<&str>,
    aloud: bool,
    host: &mut H,
) -> Result<bool, Stop>
    requires commands { All (MayRun file.now.arena file.now.shared) file.now.commands }
    requires lemmas { rows_of lemmas.now.value ≡ lemma_table }
    requires even { IsEven exts.now.num.now exts.now.num_on.now exts.now.sign.now exts.now.sign_on.now }
    ensures told { Did (H.told host.old) (H.told host.new) (plan_over (text_in cert.entry) aloud file.now.shared (findings_of (P.step (cover_of (λ x f. (⟦<dyn NumExt as NumExt>⟧ x.vtable).covered x.value f) (λ x f. (⟦<dyn SignExt as SignExt>⟧ x.vtable).handled x.value f) exts.now.num.now exts.now.num_on.now exts.now.sign.now exts.now.sign_on.now)) file.now.shared (seen_of file.now))) result }
    ensures all_closed { IfOk result (λ all. IsTrue all ↔ IsAllClosed (findings_of (P.step (cover_of (λ x f. (⟦<dyn NumExt as NumExt>⟧ x.vtable).covered x.value f) (λ x f. (⟦<dyn SignExt as SignExt>⟧ x.vtable).handled x.value f) exts.now.num.now exts.now.num_on.now exts.now.sign.now exts.now.sign_on.now)) file.now.shared (seen_of file.now))) }
    ensures faults { CountsFaults (Err Stop.HostFailed) result (H.faults host.old) (H.faults host.new) (H.complaint_faults host.old) (H.complaint_faults host.new) }
{
    start(alloc, cert, host)?;
    let tally = do_commands::<H, P>(alloc, lemmas, file, exts, cert.is_some(), aloud, host)?;
    say_last(alloc, &tally, host)?;
    Ok(tally.all_closed())
}

// the lemmas that proofs may cite
fn shared_library(alloc: Global) -> Result<Rc<Lemmas>, Memory>
    ensures { IfOk result (λ lemmas. rows_of lemmas.value ≡ lemma_table) }
{
    let lemmas = library(alloc)?;
    Ok(Rc::new(alloc, lemmas)?)
}

/// Reads a text, runs the scripts of its goals, and answers whether all its goals are closed. What is said is the report,
/// or its last line alone where it isn't to be said aloud. Where a path is given, a certificate is written there.
pub fn do_text<H: Host, P: Procedures>(
    alloc: Global,
    text: &str,
    exts: &Exts<'_>,
    cert: Option<&str>,
    aloud: bool,
    host: &mut H,
) -> Result<bool, Stop>
    requires short { length text.now ≤ 2 ^ 24 }
    requires even { IsEven exts.now.num.now exts.now.num_on.now exts.now.sign.now exts.now.sign_on.now }
    ensures done { DidText (P.step (cover_of (λ x f. (⟦<dyn NumExt as NumExt>⟧ x.vtable).covered x.value f) (λ x f. (⟦<dyn SignExt as SignExt>⟧ x.vtable).handled x.value f) exts.now.num.now exts.now.num_on.now exts.now.sign.now exts.now.sign_on.now)) (text_in cert.entry) aloud text.now (H.told host.old) (H.told host.new) result }
    ensures faults { CountsFaults (Err Stop.HostFailed) result (H.faults host.old) (H.faults host.new) (H.complaint_faults host.old) (H.complaint_faults host.new) }
{
    let lemmas = match shared_library(alloc) {
        Ok(lemmas) => lemmas,
        Err(_) => return Err(Stop::Memory),
    };
    match read_goals(alloc, text) {
        Ok(file) => do_file::<H, P>(alloc, &lemmas, &file, exts, cert, aloud, host),
        Err(_) => Err(Stop::Memory),
    }
}
