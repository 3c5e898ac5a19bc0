ghost use Rattle.std.specs.Prelude.{◌≡◌, List, Ok};
ghost use Rattle.alg_terms.specs.Tree.{Tree, Statement};
ghost use Rattle.alg_expr.specs.Ids.{trees_at};
ghost use Rattle.alg_law.specs.LawRows.{row_of};
ghost use Rattle.alg_law.specs.Laws.{law_table};
ghost use Rattle.alg_proof.specs.declared.lines.Line.TheVariants as line;
ghost use Rattle.alg_proof.specs.Citing.{Cites, conclusion_of};
ghost use Rattle.alg_proof.specs.LemmaRows.{lemma_row_of};
ghost use Rattle.alg_proof.specs.Lines.{step_of};
ghost use Rattle.alg_proof.specs.Names.{IsName};
ghost use Rattle.alg_proof.specs.Steps.{Theory, conclude};

use crate::lemma_rows::LemmaRow;
use crate::lines::Line;
use crate::row_names::RowName;
use alg_expr::{ExprId, Items, Sort};
use alg_law::Law;

/// The line that cites a law at a sort, for these trees in the order of its letters, from these lines.
///
/// Where the trees may fill the law, and the lines conclude its premises, the line is good and has the law's conclusion.
pub fn law_line(row: &Law, sort: Sort, with: Items<ExprId>, from: Items<u128>) -> Line
    requires { IsName row.now.name.now }
    ensures line { result ≡ line.Law row.now.name.now sort with from }
    ensures leads { (ts : List Tree) (th : Theory) (done : List Statement) → Cites th.declarations law_table done (row_of row.now) sort (trees_at ts with) from → conclude th done (step_of ts result) ≡ Ok (conclusion_of (row_of row.now) sort (trees_at ts with)) }
{
    Line::Law(RowName::known(row.name), sort, with, from)
}

/// The same of a lemma, where the table has it under its name.
pub fn lemma_line(row: &LemmaRow, sort: Sort, with: Items<ExprId>, from: Items<u128>) -> Line
    requires { IsName row.now.row.name.now }
    ensures line { result ≡ line.Lemma row.now.row.name.now sort with from }
    ensures leads { (ts : List Tree) (th : Theory) (done : List Statement) → Cites th.declarations th.lemmas done (lemma_row_of row.now) sort (trees_at ts with) from → conclude th done (step_of ts result) ≡ Ok (conclusion_of (lemma_row_of row.now) sort (trees_at ts with)) }
{
    Line::Lemma(RowName::known(row.row.name), sort, with, from)
}
