ghost use Rattle.std.specs.Prelude.{◌≡◌, ℕ, List, map, option_map, IfOk, OnOk};
ghost use Rattle.alg_law.specs.LawIndexing.{Indexes, IsOneLater, AreLater};
ghost use Rattle.alg_law.specs.LawRows.{row_of};
ghost use Rattle.alg_law.specs.Laws.{law_table, row_named};
ghost use Rattle.alg_law.specs.RowNames.{IsLawNamed};

use crate::law_table::laws;
use crate::rows::Law;
use alg_expr::Memory;
use indexmap::IndexMap;
use std::alloc::Global;

/// The laws by their names. `Indexes` says of a table that it has for each name the first law with it, so that an index
/// of any other laws is of no use to `get`.
#[derive(Drop)]
pub struct LawIndex {
    table: IndexMap<&'static str, &'static Law>,
}

impl LawIndex {
    /// The index of all laws.
    pub fn new(alloc: Global) -> Result<LawIndex, Memory>
        ensures { IfOk result (λ x. Indexes x.table law_table) }
    {
        let mut table: IndexMap<&'static str, &'static Law> = IndexMap::new(alloc);
        let groups = laws();
        for group in groups {
            add_group(&mut table, group)?;
        }
        Ok(LawIndex { table })
    }

    /// The law with this name, or none where no law has it.
    pub fn get(&self, name: &str) -> Option<&'static Law>
        requires { Indexes self.now.table law_table }
        ensures exact { IsLawNamed name.now (option_map (λ l. row_of l.now) result) }
        ensures first { option_map (λ l. row_of l.now) result ≡ row_named law_table name.now }
    {
        self.first(name)
    }

    // the first law with this name
    fn first(&self, name: &str) -> Option<&'static Law>
        requires { Indexes self.now.table law_table }
        ensures { option_map (λ l. row_of l.now) result ≡ row_named law_table name.now }
    {
        self.table.get(name).copied()
    }
}

// adds the laws of a group whose names aren't there
fn add_group(
    table: &mut IndexMap<&'static str, &'static Law>,
    group: &'static [Law],
) -> Result<(), Memory>
    ensures { OnOk result (AreLater table.old table.new (map row_of group.now)) }
{
    for law in group {
        add(table, law)?;
    }
    Ok(())
}

// adds a law whose name isn't there
fn add(table: &mut IndexMap<&'static str, &'static Law>, law: &'static Law) -> Result<(), Memory>
    ensures { OnOk result (IsOneLater table.old table.new (row_of law.now)) }
{
    match table.get(law.name) {
        Some(_) => Ok(()),
        None => {
            table.insert(law.name, law)?;
            Ok(())
        }
    }
}
