ghost use Rattle.std.specs.Prelude.{◌≡◌, IfOk};
ghost use Rattle.alg_proof.specs.Names.{IsName};

use alg_expr::{Memory, Text};
use std::alloc::Global;
use std::marker::Model;

// how a name is kept: where it stands in a table, or as a copy
#[derive(Debug, Drop)]
enum KeptName {
    Known(&'static str),
    Copied(Text),
}

/// The name of a law or lemma: small letters, digits and `_`, at least one.
#[derive(Debug, Drop)]
pub struct RowName {
    kept: KeptName,
}

impl Model for RowName {
    ghost use Rattle.std.specs.Prelude.{ℕ, List};
    ghost use Rattle.std.specs.Coded.{coded_list, coded_ℕ};
    ghost use Rattle.alg_proof.specs.Names.{IsName};
    ghost use Rattle.alg_proof.specs.KeptNames.{kept_bytes};

    ghost Value = { List ℕ };

    ghost coded = { coded_list coded_ℕ };

    ghost view = { λ n. kept_bytes n.kept };

    ghost invariant = { λ n. IsName (kept_bytes n.kept) };
}

impl RowName {
    /// A copy of this name.
    pub fn new(alloc: Global, name: &str) -> Result<RowName, Memory>
        requires { IsName name.now }
        ensures { IfOk result (λ n. n ≡ name.now) }
    {
        let text = Text::of(String::from_str(alloc, name)?);
        Ok(RowName {
            kept: KeptName::Copied(text),
        })
    }

    /// The name of a row that stands in the program. It takes no memory.
    pub fn known(name: &'static str) -> RowName
        requires { IsName name.now }
        ensures { result ≡ name.now }
    {
        RowName {
            kept: KeptName::Known(name),
        }
    }

    /// The name as text.
    pub fn as_str(&self) -> &str
        ensures text { result.now ≡ self.now }
        ensures name { IsName self.now }
    {
        match &self.kept {
            KeptName::Known(name) => name,
            KeptName::Copied(text) => text.as_str(),
        }
    }
}
