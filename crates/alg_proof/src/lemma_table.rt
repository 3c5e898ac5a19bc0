ghost use Rattle.std.specs.Prelude.{◌≡◌, [], ◌∷◌, ◌++◌, length, map, All, None, IfOk, OnOk, OnErr, option_map};
ghost use Rattle.alg_law.specs.LawRows.{row_of};
ghost use Rattle.alg_law.specs.Laws.{law_table, row_named};
ghost use Rattle.alg_proof.specs.LemmaRows.{lemma_row_of, rows_of};
ghost use Rattle.alg_proof.specs.Following.{IsAdmissible};

use crate::lemma_rows::LemmaRow;
use crate::row_names::RowName;
use alg_expr::Memory;
use alg_law::{Law, LawIndex};
use indexmap::IndexMap;
use std::alloc::Global;
use std::marker::Model;

/// A table of lemmas, each of which follows from the laws. It only grows. Contracts see the list of its rows. Beside them
/// it finds the laws.
#[derive(Drop)]
pub struct Lemmas {
    // each under its name, in the order in which they came
    rows: IndexMap<&'static str, &'static LemmaRow>,
    laws: LawIndex,
}

impl Model for Lemmas {
    ghost use Rattle.std.specs.Prelude.{◌≡◌, List, map, All};
    ghost use Rattle.alg_proof.specs.declared.lemma_rows.LemmaRow.{LemmaRow};
    ghost use Rattle.alg_proof.specs.LemmaRows.{lemma_row_of, rows_of};
    ghost use Rattle.alg_proof.specs.Following.{IsAdmissible};

    ghost Value = { List LemmaRow };

    ghost view = { λ t. map (λ e. e.1.now) t.rows.entries };

    ghost use Rattle.alg_law.specs.LawIndexing.{Indexes};
    ghost use Rattle.alg_law.specs.Laws.{law_table};

    ghost invariant = { λ t. All IsAdmissible (rows_of (map (λ e. e.1.now) t.rows.entries)) × ((map (λ e. e.0.now) t.rows.entries ≡ map (λ e. e.1.now.row.name.now) t.rows.entries) × Indexes t.laws.table law_table) };
}

impl Lemmas {
    /// The table without lemmas.
    pub fn new(alloc: Global) -> Result<Lemmas, Memory>
        ensures { IfOk result (λ t. t ≡ []) }
    {
        Ok(Lemmas {
            rows: IndexMap::new(alloc),
            laws: LawIndex::new(alloc)?,
        })
    }

    /// Adds a lemma that follows from the laws, under a name that is new.
    pub fn push(&mut self, row: &'static LemmaRow) -> Result<(), Memory>
        requires admissible { IsAdmissible (lemma_row_of row.now) }
        requires new { row_named (rows_of self.old) row.now.row.name.now ≡ None }
        ensures ok { OnOk result (self.new ≡ self.old ++ row.now ∷ []) }
        ensures err { OnErr result (self.new ≡ self.old) }
    {
        self.rows.insert(row.row.name, row)?;
        Ok(())
    }

    /// The lemma with this name, or none where none was added under it.
    pub fn get(&self, name: &RowName) -> Option<&'static LemmaRow>
        ensures row { option_map (λ r. lemma_row_of r.now) result ≡ row_named (rows_of self.now) name.now }
    {
        match self.rows.get(name.as_str()) {
            Some(row) => Some(*row),
            None => None,
        }
    }

    /// The law with this name.
    pub fn law(&self, name: &RowName) -> Option<&'static Law>
        ensures row { option_map (λ l. row_of l.now) result ≡ row_named law_table name.now }
    {
        self.laws.get(name.as_str())
    }

    /// How many lemmas there are. Each follows from the laws.
    pub fn len(&self) -> usize
        ensures len { result ≡ length self.now }
        ensures admissible { All IsAdmissible (rows_of self.now) }
    {
        self.rows.len()
    }
}
