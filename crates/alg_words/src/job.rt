ghost use Rattle.std.specs.Prelude.{◌≡◌, IfOk, map, string_bytes, List, ℕ};
ghost use Rattle.alg_words.specs.Words.{text_in};
ghost use Rattle.alg_words.specs.Jobs.{job_of, job_seen, IsShort, job_with, job_in_mode, prove_job, check_job, demo_job};

use crate::command::{Values, WordsFault, values_of};
use crate::count::count_of;
use alg_expr::Memory;
use std::alloc::Global;

/// What the program is asked to do.
#[derive(Clone, Copy, Debug, PartialEq, Eq)]
pub enum Job<'a> {
    /// The words ask for nothing that there is.
    Usage,
    /// To prove the goals of a file, and to write a certificate where a path for it is given; without the extensions that a
    /// list names, where there is one.
    Prove {
        file: &'a str,
        cert: Option<&'a str>,
        without: Option<&'a str>,
    },
    /// To check a certificate for a file.
    Check {
        file: &'a str,
        cert: &'a str,
    },
    /// To prove the goals of the demonstration with so many lines, at most 10,000.
    Demo {
        count: u32,
        without: Option<&'a str>,
    },
}

fn job_to_prove<'a>(
    file: &'a str,
    second: Option<&'a str>,
    cert: Option<&'a str>,
    without: Option<&'a str>,
) -> Job<'a>
    ensures job { job_seen result ≡ prove_job file.entry.now (text_in second.entry) (text_in cert.entry) (text_in without.entry) }
    ensures short { IsShort result }
{
    match second {
        None => Job::Prove {
            file,
            cert,
            without,
        },
        Some(_) => Job::Usage,
    }
}

fn job_to_check<'a>(
    file: &'a str,
    second: Option<&'a str>,
    cert: Option<&'a str>,
    without: Option<&'a str>,
) -> Job<'a>
    ensures job { job_seen result ≡ check_job file.entry.now (text_in second.entry) (text_in cert.entry) (text_in without.entry) }
    ensures short { IsShort result }
{
    if cert.is_some() {
        return Job::Usage;
    }
    if without.is_some() {
        return Job::Usage;
    }
    match second {
        Some(second) => Job::Check { file, cert: second },
        None => Job::Usage,
    }
}

fn job_to_demonstrate<'a>(
    first: &str,
    second: Option<&'a str>,
    cert: Option<&'a str>,
    without: Option<&'a str>,
) -> Job<'a>
    ensures job { job_seen result ≡ demo_job first.now (text_in second.entry) (text_in cert.entry) (text_in without.entry) }
    ensures short { IsShort result }
{
    if second.is_some() {
        return Job::Usage;
    }
    if cert.is_some() {
        return Job::Usage;
    }
    match count_of(first) {
        Some(count) => Job::Demo { count, without },
        None => Job::Usage,
    }
}

fn job_in_mode<'a>(
    mode: &'a str,
    first: &'a str,
    second: Option<&'a str>,
    cert: Option<&'a str>,
    without: Option<&'a str>,
) -> Job<'a>
    ensures job { job_seen result ≡ job_in_mode mode.entry.now first.entry.now (text_in second.entry) (text_in cert.entry) (text_in without.entry) }
    ensures short { IsShort result }
{
    if mode == "prove" {
        return job_to_prove(first, second, cert, without);
    }
    if mode == "check" {
        return job_to_check(first, second, cert, without);
    }
    if mode == "demo" {
        return job_to_demonstrate(first, second, cert, without);
    }
    Job::Usage
}

fn job_with<'a>(values: Values<'a>) -> Job<'a>
    ensures job { job_seen result ≡ job_with (text_in values.entry.mode) (text_in values.entry.first) (text_in values.entry.second) (text_in values.entry.cert) (text_in values.entry.without) }
    ensures short { IsShort result }
{
    match values.mode {
        Some(mode) => match values.first {
            Some(first) => job_in_mode(mode, first, values.second, values.cert, values.without),
            None => Job::Usage,
        },
        None => Job::Usage,
    }
}

/// What the words ask for. They begin with the program's name.
pub fn read_words<'a>(alloc: Global, words: &'a [String]) -> Result<Job<'a>, Memory>
    ensures job { IfOk result (λ job. job_seen job ≡ job_of (map (λ w. string_bytes w) words.entry.now)) }
    ensures short { IfOk result IsShort }
{
    match values_of(alloc, words) {
        Ok(values) => Ok(job_with(values)),
        Err(WordsFault::Refused) => Ok(Job::Usage),
        Err(WordsFault::Memory) => Err(Memory),
    }
}
