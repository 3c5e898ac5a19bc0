ghost use Rattle.std.specs.Prelude.{◌≡◌, ◌+◌, ◌<◌, ◌^◌, ◌↔◌, IfOk, IsTrue, string_bytes};

use std::alloc::{AllocError, Global};

/// How many entries are accepted, and how many refused. A place where no line begins counts as one refused.
#[derive(Clone, Copy, Debug, PartialEq, Eq)]
pub struct Tally {
    pub accepted: u64,
    pub refused: u64,
}

impl Tally {
    ghost use Rattle.alg_check.specs.Text.{last_text};

    pub(crate) fn new() -> Tally
        ensures accepted { result.accepted ≡ 0 }
        ensures refused { result.refused ≡ 0 }
    {
        Tally {
            accepted: 0,
            refused: 0,
        }
    }

    pub(crate) fn accept(&mut self)
        requires { self.old.accepted + self.old.refused < 2 ^ 63 }
        ensures { self.new ≡ record self.old { accepted = self.old.accepted + 1 } }
    {
        self.accepted += 1;
    }

    pub(crate) fn refuse(&mut self)
        requires { self.old.accepted + self.old.refused < 2 ^ 63 }
        ensures { self.new ≡ record self.old { refused = self.old.refused + 1 } }
    {
        self.refused += 1;
    }

    /// Whether nothing was refused.
    pub fn all_accepted(&self) -> bool
        ensures { IsTrue result ↔ self.now.refused ≡ 0 }
    {
        self.refused == 0
    }

    /// The last line.
    pub(crate) fn text(&self, alloc: Global) -> Result<String, AllocError>
        ensures { IfOk result (λ text. string_bytes text ≡ last_text self.now) }
    {
        let Tally { accepted, refused } = *self;
        format!(in alloc; "accepted {accepted}, refused {refused}\n")
    }
}
