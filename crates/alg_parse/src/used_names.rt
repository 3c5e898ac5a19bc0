ghost use Rattle.std.specs.Prelude.{◌≡◌, ◌++◌, [], ◌∷◌, false, OnOk, OnErr};
ghost use Rattle.std.specs.String.{string_bytes};
ghost use Rattle.alg_binders.specs.Binders.{is_among};

use alg_expr::Memory;
use indexmap::IndexMap;
use std::alloc::Global;
use std::marker::Model;

/// The names of theorems that were used, in order. Contracts see the list of them.
#[derive(Drop)]
pub struct UsedNames {
    // each with its line
    table: IndexMap<String, u32>,
}

impl Model for UsedNames {
    ghost use Rattle.std.specs.Prelude.{List, ℕ, map};
    ghost use Rattle.std.specs.String.{string_bytes};

    ghost Value = { List (List ℕ) };

    ghost view = { λ n. map (λ e. string_bytes e.0) n.table.entries };
}

impl UsedNames {
    pub fn new(alloc: Global) -> UsedNames
        ensures { result ≡ [] }
    {
        UsedNames {
            table: IndexMap::new(alloc),
        }
    }

    /// Whether a theorem has the name.
    pub fn has(&self, name: &str) -> bool
        ensures { result ≡ is_among self.now name.now }
    {
        self.table.get(name).is_some()
    }

    /// Uses a name, that of the theorem on this line.
    pub fn add(&mut self, name: String, line: u32) -> Result<(), Memory>
        requires { is_among self.old (string_bytes name) ≡ false }
        ensures added { OnOk result (self.new ≡ self.old ++ string_bytes name ∷ []) }
        ensures failed { OnErr result (self.new ≡ self.old) }
    {
        self.table.insert(name, line)?;
        Ok(())
    }
}
