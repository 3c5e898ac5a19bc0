ghost use Rattle.std.specs.Prelude.{◌≡◌, IfOk, IsErrOf, map, string_bytes, codes, [], List, ℕ, false};
ghost use Rattle.clap.specs.Words.{app_of, fault_of, rule_of};
ghost use Rattle.alg_words.specs.Words.{algebra, value_at, text_in, IsRefused, needed, positional, option};

use clap::error::ErrorKind;
use clap::{Arg, ArgAction, Command, Error};
use std::alloc::{AllocError, Global};

/// The values that the words give.
#[derive(Clone, Copy, Debug)]
pub(crate) struct Values<'a> {
    pub mode: Option<&'a str>,
    pub first: Option<&'a str>,
    pub second: Option<&'a str>,
    pub cert: Option<&'a str>,
    pub without: Option<&'a str>,
}

/// Why the words give no values.
#[derive(Clone, Copy, Debug, PartialEq, Eq)]
pub(crate) enum WordsFault {
    Refused,
    Memory,
}

fn needed<'a>(alloc: Global, id: &'a str) -> Arg<'a>
    ensures rule { rule_of result ≡ needed id.entry.now }
    ensures local { result.global ≡ false }
{
    Arg::new(alloc, id).required(true).action(ArgAction::Set)
}

fn positional<'a>(alloc: Global, id: &'a str) -> Arg<'a>
    ensures rule { rule_of result ≡ positional id.entry.now }
    ensures local { result.global ≡ false }
{
    Arg::new(alloc, id).action(ArgAction::Set)
}

fn option<'a>(alloc: Global, id: &'a str) -> Arg<'a>
    ensures rule { rule_of result ≡ option id.entry.now }
    ensures local { result.global ≡ false }
{
    Arg::new(alloc, id).long(id).action(ArgAction::Set)
}

fn command<'a>(alloc: Global) -> Result<Command<'a>, AllocError>
    ensures { IfOk result (λ command. app_of command ≡ algebra) }
{
    let mode = needed(alloc, "mode");
    let first = needed(alloc, "first");
    let second = positional(alloc, "second");
    let cert = option(alloc, "cert");
    let without = option(alloc, "without");
    Command::new(alloc, "algebra")
        .arg(mode)?
        .arg(first)?
        .arg(second)?
        .arg(cert)?
        .arg(without)
}

/// The values of the words, or that the command refuses them.
pub(crate) fn values_of<'a>(alloc: Global, words: &'a [String]) -> Result<Values<'a>, WordsFault>
    ensures accepted { IfOk result (λ values. fault_of algebra (map (λ w. string_bytes w) words.entry.now) ≡ []) }
    ensures mode { IfOk result (λ values. text_in values.mode ≡ value_at (codes "mode") (map (λ w. string_bytes w) words.entry.now)) }
    ensures first { IfOk result (λ values. text_in values.first ≡ value_at (codes "first") (map (λ w. string_bytes w) words.entry.now)) }
    ensures second { IfOk result (λ values. text_in values.second ≡ value_at (codes "second") (map (λ w. string_bytes w) words.entry.now)) }
    ensures cert { IfOk result (λ values. text_in values.cert ≡ value_at (codes "cert") (map (λ w. string_bytes w) words.entry.now)) }
    ensures without { IfOk result (λ values. text_in values.without ≡ value_at (codes "without") (map (λ w. string_bytes w) words.entry.now)) }
    ensures refused { IsErrOf result WordsFault.Refused → IsRefused (map (λ w. string_bytes w) words.entry.now) }
{
    let command = match command(alloc) {
        Ok(command) => command,
        Err(_) => return Err(WordsFault::Memory),
    };
    match command.try_get_matches_from(words) {
        Ok(matches) => Ok(Values {
            mode: matches.get_str("mode"),
            first: matches.get_str("first"),
            second: matches.get_str("second"),
            cert: matches.get_str("cert"),
            without: matches.get_str("without"),
        }),
        Err(error) => {
            if error.kind() == ErrorKind::OutOfMemory {
                Err(WordsFault::Memory)
            } else {
                Err(WordsFault::Refused)
            }
        }
    }
}
