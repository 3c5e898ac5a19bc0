ghost use Rattle.std.specs.Prelude.{◌≡◌, ◌+◌, ◌<◌, ◌^◌, [], map, length, All, IfOk, OnOk, string_bytes};
ghost use Rattle.alg_host.specs.Host.{Adds, adds_said};
ghost use Rattle.alg_parse.specs.FileTrees.{IsCommandIn};
ghost use Rattle.alg_proof.specs.LemmaRows.{rows_of};
ghost use Rattle.alg_certificate.specs.Reader.{coming_of};
ghost use Rattle.alg_check.specs.Checking.{Checks, SaysOnly};
ghost use Rattle.alg_check.specs.Entries.{Entry, EntryHasSpelling};
ghost use Rattle.alg_check.specs.Entries.{SomeEntries};
ghost use Rattle.alg_check.specs.Faults.{CountsFaults};
ghost use Rattle.alg_check.specs.Findings.{finding_of, is_accepted};
ghost use Rattle.alg_check.specs.Found.{seen_finding, counted};
ghost use Rattle.alg_check.specs.Goals.{goals_seen};
ghost use Rattle.alg_check.specs.Opened.{IsOpenGoal, goal_seen};
ghost use Rattle.alg_check.specs.Text.{finding_text, bad_text, last_text, lines_text, whole_text};
ghost use Rattle.alg_check.specs.Written.{seen_entry, texts_of};

use crate::answers::{Answer, text_of_fault, text_of_no_goal};
use crate::entries::{Next, Written, next_entry};
use crate::goals::{Goal, goal_for, goals_of};
use crate::judging::judge;
use crate::stops::{Stop, say};
use crate::tallies::Tally;
use alg_certificate::{CertFault, CertReader};
use alg_expr::{Memory, Text};
use alg_host::Host;
use alg_parse::FileTree;
use alg_proof::Lemmas;
use std::alloc::{AllocError, Global};

/// What is found of an entry.
#[derive(Drop)]
enum Finding<'a> {
    NoGoal(u128),
    OfGoal(&'a Text, Answer),
}

impl<'a> Finding<'a> {
    fn text(&self, alloc: Global) -> Result<String, AllocError>
        ensures { IfOk result (λ text. string_bytes text ≡ finding_text (seen_finding self.now)) }
    {
        match self {
            Finding::NoGoal(number) => text_of_no_goal(alloc, *number),
            Finding::OfGoal(label, answer) => answer.text(alloc, label.as_str()),
        }
    }

    fn is_accepted(&self) -> bool
        ensures { result ≡ is_accepted (seen_finding self.now) }
    {
        match self {
            Finding::NoGoal(_) => false,
            Finding::OfGoal(_, answer) => answer.accepts(),
        }
    }

    fn count(&self, tally: &mut Tally)
        requires { tally.old.accepted + tally.old.refused < 2 ^ 63 }
        ensures { tally.new ≡ counted (seen_finding self.now) tally.old }
    {
        if self.is_accepted() {
            tally.accept();
        } else {
            tally.refuse();
        }
    }
}

// What is found of an entry behind one with the number `before`.
fn find<'a>(
    alloc: Global,
    lemmas: &Lemmas,
    file: &FileTree,
    goals: &[Goal<'a>],
    before: u128,
    entry: &Written<'_>,
) -> Result<Finding<'a>, Memory>
    requires { All (IsOpenGoal file.now) goals.now }
    ensures { (e : Entry) → EntryHasSpelling e → seen_entry entry.now ≡ texts_of e → IfOk result (λ f. seen_finding f ≡ finding_of (rows_of lemmas.now) (map (goal_seen file.now) goals.now) before e) }
{
    match goal_for(file, goals, before, entry.number) {
        None => Ok(Finding::NoGoal(entry.number)),
        Some(goal) => {
            let answer = judge(alloc, lemmas, file, goal, entry)?;
            Ok(Finding::OfGoal(goal.label, answer))
        }
    }
}

fn say_finding<H: Host>(
    alloc: Global,
    finding: &Finding<'_>,
    tally: &mut Tally,
    host: &mut H,
) -> Result<(), Stop>
    requires { tally.old.accepted + tally.old.refused < 2 ^ 63 }
    ensures told { Adds adds_said (finding_text (seen_finding finding.now)) result (H.told host.old) (H.told host.new) }
    ensures tally { OnOk result (tally.new ≡ counted (seen_finding finding.now) tally.old) }
    ensures faults { CountsFaults (Err Stop.HostFailed) result (H.faults host.old) (H.faults host.new) (H.complaint_faults host.old) (H.complaint_faults host.new) }
{
    let text = match finding.text(alloc) {
        Ok(text) => text,
        Err(_) => return Err(Stop::Memory),
    };
    say(host, text.as_bytes())?;
    finding.count(tally);
    Ok(())
}

// The check of one entry.
fn check_entry<H: Host>(
    alloc: Global,
    lemmas: &Lemmas,
    file: &FileTree,
    goals: &[Goal<'_>],
    before: u128,
    entry: &Written<'_>,
    tally: &mut Tally,
    host: &mut H,
) -> Result<(), Stop>
    requires open { All (IsOpenGoal file.now) goals.now }
    requires small { tally.old.accepted + tally.old.refused < 2 ^ 63 }
    ensures told { (e : Entry) → EntryHasSpelling e → seen_entry entry.now ≡ texts_of e → Adds adds_said (finding_text (finding_of (rows_of lemmas.now) (map (goal_seen file.now) goals.now) before e)) result (H.told host.old) (H.told host.new) }
    ensures tally { (e : Entry) → EntryHasSpelling e → seen_entry entry.now ≡ texts_of e → OnOk result (tally.new ≡ counted (finding_of (rows_of lemmas.now) (map (goal_seen file.now) goals.now) before e) tally.old) }
    ensures count { OnOk result (tally.new.accepted + tally.new.refused ≡ tally.old.accepted + tally.old.refused + 1) }
    ensures faults { CountsFaults (Err Stop.HostFailed) result (H.faults host.old) (H.faults host.new) (H.complaint_faults host.old) (H.complaint_faults host.new) }
    ensures says { SaysOnly (H.told host.old) (H.told host.new) }
{
    let finding = find(alloc, lemmas, file, goals, before, entry)?;
    say_finding(alloc, &finding, tally, host)
}

fn say_fault<H: Host>(
    alloc: Global,
    fault: CertFault,
    tally: &mut Tally,
    host: &mut H,
) -> Result<(), Stop>
    requires { tally.old.accepted + tally.old.refused < 2 ^ 63 }
    ensures told { Adds adds_said (bad_text fault.offset) result (H.told host.old) (H.told host.new) }
    ensures tally { OnOk result (tally.new ≡ record tally.old { refused = tally.old.refused + 1 }) }
    ensures faults { CountsFaults (Err Stop.HostFailed) result (H.faults host.old) (H.faults host.new) (H.complaint_faults host.old) (H.complaint_faults host.new) }
{
    let text = match text_of_fault(alloc, fault.offset) {
        Ok(text) => text,
        Err(_) => return Err(Stop::Memory),
    };
    say(host, text.as_bytes())?;
    tally.refuse();
    Ok(())
}

fn say_last<H: Host>(alloc: Global, tally: &Tally, host: &mut H) -> Result<(), Stop>
    ensures told { Adds adds_said (last_text tally.now) result (H.told host.old) (H.told host.new) }
    ensures faults { CountsFaults (Err Stop.HostFailed) result (H.faults host.old) (H.faults host.new) (H.complaint_faults host.old) (H.complaint_faults host.new) }
{
    match tally.text(alloc) {
        Ok(text) => say(host, text.as_bytes()),
        Err(_) => Err(Stop::Memory),
    }
}

// The check of all entries, without the last line.
fn check_entries<H: Host>(
    alloc: Global,
    lemmas: &Lemmas,
    file: &FileTree,
    goals: &[Goal<'_>],
    reader: &mut CertReader<'_>,
    host: &mut H,
) -> Result<Tally, Stop>
    requires open { All (IsOpenGoal file.now) goals.now }
    requires small { length reader.old.lines < 2 ^ 63 }
    ensures checks { Checks lines_text (rows_of lemmas.now) (map (goal_seen file.now) goals.now) reader.old (H.told host.old) (H.told host.new) result }
    ensures faults { CountsFaults (Err Stop.HostFailed) result (H.faults host.old) (H.faults host.new) (H.complaint_faults host.old) (H.complaint_faults host.new) }
    ensures says { SaysOnly (H.told host.old) (H.told host.new) }
{
    let mut tally = Tally::new();
    let mut before: u128 = 0;
    'entries: loop {
        match next_entry(alloc, reader)? {
            Next::Over => return Ok(tally),
            Next::Bad(fault) => {
                say_fault(alloc, fault, &mut tally, host)?;
                return Ok(tally);
            }
            Next::Entry(entry) => {
                check_entry(alloc, lemmas, file, goals, before, &entry, &mut tally, host)?;
                before = entry.number;
            }
        }
    }
}

/// Checks a certificate against the goals of a file that was read, entry by entry, and says a line for each at its end,
/// and the last line.
///
/// An entry is checked over an arena of its own; memory is taken for one entry at a time. The lines of every certificate
/// are those of some entries.
pub fn check_certificate<H: Host>(
    alloc: Global,
    lemmas: &Lemmas,
    file: &FileTree,
    bytes: &[u8],
    host: &mut H,
) -> Result<Tally, Stop>
    requires { All (IsCommandIn file.now.arena file.now.shared) file.now.commands }
    ensures entries { SomeEntries (coming_of bytes.now).lines }
    ensures checks { Checks whole_text (rows_of lemmas.now) (goals_seen file.now) (coming_of bytes.now) (H.told host.old) (H.told host.new) result }
    ensures faults { CountsFaults (Err Stop.HostFailed) result (H.faults host.old) (H.faults host.new) (H.complaint_faults host.old) (H.complaint_faults host.new) }
    ensures says { SaysOnly (H.told host.old) (H.told host.new) }
{
    let mut reader = CertReader::new(bytes);
    let goals = goals_of(alloc, file)?;
    let tally = check_entries(alloc, lemmas, file, &goals, &mut reader, host)?;
    say_last(alloc, &tally, host)?;
    Ok(tally)
}
