ghost use Rattle.std.specs.Prelude.{◌≡◌, ◌++◌, OnOk, IfOk, string_bytes, codes};
ghost use Rattle.alg_report.specs.Texts.{note_text, notes_text, open_text, failed_text};
ghost use Rattle.alg_scripts.specs.Fates.{end_text, fate_text};

use crate::entries::Proof;
use alg_report::{FailCause, text_of_note};
use alg_steps::Note;
use std::alloc::{AllocError, Global};

/// How a script ended.
#[derive(Drop)]
pub enum End {
    /// The goal is closed, with its checked proof.
    Closed(Proof),
    /// A statement is left: the checked proof of the goal from it, and its text.
    Open { proof: Proof, text: String },
    /// The procedure of this number, from 1, failed.
    Failed { step: u64, cause: FailCause },
}

/// What became of a goal: the notes of the procedures before the end, and the end.
#[derive(Drop)]
pub struct Fate {
    pub notes: Vec<Note>,
    pub end: End,
}

fn note_line(alloc: Global, label: &str, note: Note) -> Result<String, AllocError>
    ensures { IfOk result (λ text. string_bytes text ≡ label.now ++ (codes ": Try this: " ++ (note_text note ++ codes "\n"))) }
{
    let name = text_of_note(note);
    format!(in alloc; "{label}: Try this: {name}\n")
}

// a line for each note
fn note_lines(
    alloc: Global,
    label: &str,
    notes: &[Note],
    out: &mut String,
) -> Result<(), AllocError>
    ensures { OnOk result (string_bytes out.new ≡ string_bytes out.old ++ notes_text label.now notes.now) }
{
    let mut left = notes;
    'notes: while let Some((note, rest)) = left.split_first() {
        let line = note_line(alloc, label, *note)?;
        out.push_str(&line)?;
        left = rest;
    }
    Ok(())
}

fn text_of_failure(
    alloc: Global,
    label: &str,
    step: u64,
    cause: FailCause,
) -> Result<String, AllocError>
    ensures { IfOk result (λ text. string_bytes text ≡ failed_text label.now step cause) }
{
    let why = cause.text();
    format!(in alloc; "{label}: failed at step {step}: {why}\n")
}

fn text_of_rest(alloc: Global, label: &str, rest: &str) -> Result<String, AllocError>
    ensures { IfOk result (λ text. string_bytes text ≡ open_text label.now rest.now) }
{
    format!(in alloc; "{label}: open\n  ⊢ {rest}\n")
}

impl End {
    fn text(&self, alloc: Global, label: &str) -> Result<String, AllocError>
        ensures { IfOk result (λ text. string_bytes text ≡ end_text label.now self.now) }
    {
        match self {
            End::Closed(_) => format!(in alloc; "{label}: closed\n"),
            End::Open { text, .. } => text_of_rest(alloc, label, text.as_str()),
            End::Failed { step, cause } => text_of_failure(alloc, label, *step, *cause),
        }
    }
}

impl Fate {
    /// The entry of the goal with this label.
    pub fn text(&self, alloc: Global, label: &str) -> Result<String, AllocError>
        ensures { IfOk result (λ text. string_bytes text ≡ fate_text label.now self.now) }
    {
        let mut out = String::new(alloc);
        note_lines(alloc, label, &self.notes, &mut out)?;
        let last = self.end.text(alloc, label)?;
        out.push_str(&last)?;
        Ok(out)
    }
}
