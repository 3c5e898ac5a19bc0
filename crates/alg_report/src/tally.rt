ghost use Rattle.std.specs.Prelude.{◌≡◌, ◌+◌, ◌<◌, ◌^◌, ◌↔◌, IfOk, IsTrue, string_bytes};

use std::alloc::{AllocError, Global};

/// How many entries of each kind there are.
#[derive(Clone, Copy, Debug, PartialEq, Eq)]
pub struct Tally {
    pub closed: u64,
    pub left: u64,
    pub failed: u64,
    pub errors: u64,
}

impl Tally {
    ghost use Rattle.alg_report.specs.Tallies.{tally_text, total_of, next_goal, IsClear};

    pub fn new() -> Tally
        ensures { total_of result ≡ 0 }
    {
        Tally {
            closed: 0,
            left: 0,
            failed: 0,
            errors: 0,
        }
    }

    pub fn add_closed(&mut self)
        requires { total_of self.old < 2 ^ 63 }
        ensures { self.new ≡ record self.old { closed = self.old.closed + 1 } }
    {
        self.closed += 1;
    }

    pub fn add_open(&mut self)
        requires { total_of self.old < 2 ^ 63 }
        ensures { self.new ≡ record self.old { left = self.old.left + 1 } }
    {
        self.left += 1;
    }

    pub fn add_failed(&mut self)
        requires { total_of self.old < 2 ^ 63 }
        ensures { self.new ≡ record self.old { failed = self.old.failed + 1 } }
    {
        self.failed += 1;
    }

    pub fn add_error(&mut self)
        requires { total_of self.old < 2 ^ 63 }
        ensures { self.new ≡ record self.old { errors = self.old.errors + 1 } }
    {
        self.errors += 1;
    }

    /// The number of the next goal.
    pub fn next_goal(&self) -> u128
        ensures { result ≡ next_goal self.now }
    {
        self.closed as u128 + self.left as u128 + self.failed as u128 + 1
    }

    /// Whether there are closed goals alone.
    pub fn all_closed(&self) -> bool
        ensures { IsTrue result ↔ IsClear self.now }
    {
        self.left == 0 && self.failed == 0 && self.errors == 0
    }

    /// The last line of the report.
    pub fn text(&self, alloc: Global) -> Result<String, AllocError>
        ensures { IfOk result (λ text. string_bytes text ≡ tally_text self.now) }
    {
        let Tally {
            closed,
            left,
            failed,
            errors,
        } = *self;
        format!(in alloc; "closed {closed}, open {left}, failed {failed}, errors {errors}\n")
    }
}
