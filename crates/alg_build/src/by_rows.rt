ghost use Rattle.std.specs.Prelude.{◌≡◌, IfOk, All, Some};
ghost use Rattle.alg_terms.specs.Tree.{equal};
ghost use Rattle.alg_expr.specs.Ids.{trees_at, IsIn};
ghost use Rattle.alg_law.specs.Laws.{law_table, row_named};
ghost use Rattle.alg_law.specs.LawRows.{row_of};
ghost use Rattle.alg_law.specs.Rows.{MayFill};
ghost use Rattle.alg_proof.specs.Causes.{statements_at};
ghost use Rattle.alg_proof.specs.LemmaRows.{lemma_row_of};
ghost use Rattle.alg_proof.specs.Names.{IsName};
ghost use Rattle.alg_build.specs.Book.{Concludes, Grows};
ghost use Rattle.alg_proof.specs.Citing.{premises_of, conclusion_of};
ghost use Rattle.alg_build.specs.Rewriting.{Turns};

use crate::builder::Builder;
use crate::rewriting::Rewriting;
use alg_expr::{ExprId, Memory, Sort};
use alg_law::Law;
use alg_proof::LemmaRow;

/// `t = u`, which a law concludes.
#[tactic(auto, using(crate::proofs::Rewritings::rewritings))]
pub fn by_law(
    cx: &mut Builder,
    row: &Law,
    sort: Sort,
    with: &[ExprId],
    from: &[usize],
) -> Result<Rewriting, Memory>
    requires here { All (IsIn cx.old.trees) with.now }
    requires named { row_named law_table row.now.name.now ≡ Some (row_of row.now) }
    requires fills { MayFill cx.old.theory.declarations (row_of row.now) sort (trees_at cx.old.trees with.now) }
    requires premises { statements_at cx.old.done from.now ≡ Some (premises_of (row_of row.now) sort (trees_at cx.old.trees with.now)) }
    requires equation { (conclusion_of (row_of row.now) sort (trees_at cx.old.trees with.now)) ≡ equal (conclusion_of (row_of row.now) sort (trees_at cx.old.trees with.now)).lhs (conclusion_of (row_of row.now) sort (trees_at cx.old.trees with.now)).rhs }
    ensures turns { IfOk result (λ q. Turns cx.new (conclusion_of (row_of row.now) sort (trees_at cx.old.trees with.now)).sort q (conclusion_of (row_of row.now) sort (trees_at cx.old.trees with.now)).lhs (conclusion_of (row_of row.now) sort (trees_at cx.old.trees with.now)).rhs) }
    ensures grows { Grows cx.old cx.new }
{
    let line = cx.law(row, sort, with, from)?;
    let to = cx.concluded(line).rhs;
    Ok(Rewriting {
        to,
        line: Some(line),
    })
}

/// `t = u`, which a lemma of the builder's table concludes.
#[tactic(auto, using(crate::proofs::Rewritings::rewritings))]
pub fn by_lemma(
    cx: &mut Builder,
    row: &LemmaRow,
    sort: Sort,
    with: &[ExprId],
    from: &[usize],
) -> Result<Rewriting, Memory>
    requires name { IsName row.now.row.name.now }
    requires here { All (IsIn cx.old.trees) with.now }
    requires named { row_named cx.old.theory.lemmas row.now.row.name.now ≡ Some (lemma_row_of row.now) }
    requires fills { MayFill cx.old.theory.declarations (lemma_row_of row.now) sort (trees_at cx.old.trees with.now) }
    requires premises { statements_at cx.old.done from.now ≡ Some (premises_of (lemma_row_of row.now) sort (trees_at cx.old.trees with.now)) }
    requires equation { (conclusion_of (lemma_row_of row.now) sort (trees_at cx.old.trees with.now)) ≡ equal (conclusion_of (lemma_row_of row.now) sort (trees_at cx.old.trees with.now)).lhs (conclusion_of (lemma_row_of row.now) sort (trees_at cx.old.trees with.now)).rhs }
    ensures turns { IfOk result (λ q. Turns cx.new (conclusion_of (lemma_row_of row.now) sort (trees_at cx.old.trees with.now)).sort q (conclusion_of (lemma_row_of row.now) sort (trees_at cx.old.trees with.now)).lhs (conclusion_of (lemma_row_of row.now) sort (trees_at cx.old.trees with.now)).rhs) }
    ensures grows { Grows cx.old cx.new }
{
    let line = cx.lemma(row, sort, with, from)?;
    let to = cx.concluded(line).rhs;
    Ok(Rewriting {
        to,
        line: Some(line),
    })
}

/// The line of a law, of any relation.
#[tactic(auto, using(crate::proofs::Rewritings::rewritings))]
pub fn by_law_row(
    cx: &mut Builder,
    row: &Law,
    sort: Sort,
    with: &[ExprId],
    from: &[usize],
) -> Result<usize, Memory>
    requires here { All (IsIn cx.old.trees) with.now }
    requires named { row_named law_table row.now.name.now ≡ Some (row_of row.now) }
    requires fills { MayFill cx.old.theory.declarations (row_of row.now) sort (trees_at cx.old.trees with.now) }
    requires premises { statements_at cx.old.done from.now ≡ Some (premises_of (row_of row.now) sort (trees_at cx.old.trees with.now)) }
    ensures concludes { IfOk result (λ n. Concludes cx.new n (conclusion_of (row_of row.now) sort (trees_at cx.old.trees with.now))) }
    ensures grows { Grows cx.old cx.new }
{
    let line = cx.law(row, sort, with, from)?;
    Ok(line)
}

/// The line of a lemma of the builder's table, of any relation.
#[tactic(auto, using(crate::proofs::Rewritings::rewritings))]
pub fn by_row(
    cx: &mut Builder,
    row: &LemmaRow,
    sort: Sort,
    with: &[ExprId],
    from: &[usize],
) -> Result<usize, Memory>
    requires name { IsName row.now.row.name.now }
    requires here { All (IsIn cx.old.trees) with.now }
    requires named { row_named cx.old.theory.lemmas row.now.row.name.now ≡ Some (lemma_row_of row.now) }
    requires fills { MayFill cx.old.theory.declarations (lemma_row_of row.now) sort (trees_at cx.old.trees with.now) }
    requires premises { statements_at cx.old.done from.now ≡ Some (premises_of (lemma_row_of row.now) sort (trees_at cx.old.trees with.now)) }
    ensures concludes { IfOk result (λ n. Concludes cx.new n (conclusion_of (lemma_row_of row.now) sort (trees_at cx.old.trees with.now))) }
    ensures grows { Grows cx.old cx.new }
{
    let line = cx.lemma(row, sort, with, from)?;
    Ok(line)
}
