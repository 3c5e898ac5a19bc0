ghost use Rattle.std.specs.Prelude.{◌≡◌, ◌++◌, length, [], ◌∷◌, take, None, OnOk, OnErr, option_map};
ghost use Rattle.std.specs.String.{string_bytes};
ghost use Rattle.alg_names.specs.Found.{found};

use crate::meanings::Meaning;
use alg_expr::Memory;
use indexmap::IndexMap;
use std::alloc::Global;
use std::marker::Model;

/// Names with what they stand for, in the order in which they came into force. Contracts see the list of them.
#[derive(Drop)]
pub struct Names {
    table: IndexMap<String, Meaning>,
}

impl Model for Names {
    ghost use Rattle.std.specs.Prelude.{List, ℕ, map};
    ghost use Rattle.std.specs.String.{string_bytes};
    ghost use Rattle.alg_names.specs.declared.meanings.Meaning.{Meaning};

    ghost Value = { List (List ℕ × Meaning) };

    ghost view = { λ n. map (λ e. (string_bytes e.0, e.1)) n.table.entries };
}

impl Names {
    /// No names.
    pub fn new(alloc: Global) -> Names
        ensures { result ≡ [] }
    {
        Names {
            table: IndexMap::new(alloc),
        }
    }

    /// How many names there are.
    pub fn len(&self) -> usize
        ensures { result ≡ length self.now }
    {
        self.table.len()
    }

    /// What a name stands for, or none where it isn't in force.
    pub fn lookup(&self, name: &str) -> Option<&Meaning>
        ensures { option_map (λ m. m.now) result ≡ found self.now name.now }
    {
        self.table.get(name)
    }

    /// Puts a name in force that isn't.
    pub fn declare(&mut self, name: String, meaning: Meaning) -> Result<(), Memory>
        requires { found self.old (string_bytes name) ≡ None }
        ensures declared { OnOk result (self.new ≡ self.old ++ (string_bytes name, meaning) ∷ []) }
        ensures failed { OnErr result (self.new ≡ self.old) }
    {
        self.table.insert(name, meaning)?;
        Ok(())
    }

    /// Takes out of force what came after so many names.
    pub fn leave(&mut self, len: usize)
        ensures { self.new ≡ take len self.old }
    {
        self.table.truncate(len);
    }
}
