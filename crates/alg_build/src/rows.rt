ghost use Rattle.std.specs.Prelude.{◌≡◌, ◌≤◌, All, IfOk, OnErr, Some, take};
ghost use Rattle.alg_terms.specs.declared.sorts.Sort.{Sort as SortKind};
ghost use Rattle.alg_terms.specs.Tree.{App, Statement, equal};
ghost use Rattle.alg_expr.specs.Ids.{trees_at, IsIn};
ghost use Rattle.alg_law.specs.declared.marks.Mark.TheVariants.{Good};
ghost use Rattle.alg_law.specs.Laws.{law_table, row_named};
ghost use Rattle.alg_law.specs.LawRows.{row_of};
ghost use Rattle.alg_law.specs.Rows.{MayFill};
ghost use Rattle.alg_law.specs.WellSorted.{head_mark, sorts_of};
ghost use Rattle.alg_proof.specs.Causes.{statements_at};
ghost use Rattle.alg_proof.specs.LemmaRows.{lemma_row_of};
ghost use Rattle.alg_proof.specs.Names.{IsName};
ghost use Rattle.alg_proof.specs.Lines.{step_of, IsLineIn};
ghost use Rattle.alg_proof.specs.Steps.{Cong, Law as LawStep, Lemma as LemmaStep};
ghost use Rattle.alg_build.specs.Book.{lefts_at, rights_at, IsEquation, Grows, KeepsLines, Adds};
ghost use Rattle.alg_proof.specs.Citing.{premises_of, conclusion_of};
ghost use Rattle.alg_build.specs.Good.{IsGood, MayConclude};

use crate::builder::Builder;
use alg_expr::{ExprId, Items, Memory, Sort, Sym};
use alg_law::Law;
use alg_proof::{LemmaRow, Line, RowName};
use std::alloc::Global;

impl Builder {
    /// Adds a line of any kind, which is good.
    #[tactic(auto, using(crate::proofs::Lines::lines))]
    pub fn line(&mut self, l: Line) -> Result<usize, Memory>
        requires line_in { IsLineIn self.old.trees l }
        requires good { IsGood self.old (step_of self.old.trees l) }
        ensures adds { IfOk result (λ n. (s : Statement) → MayConclude self.old (step_of self.old.trees l) s → Adds self.old self.new n (step_of self.old.trees l) s) }
        ensures grows { Grows self.old self.new }
        ensures err { OnErr result (KeepsLines self.old self.new) }
    {
        let s = self.judged(&l)?;
        self.add(l, s)
    }

    // adds a good line that cites a row for these trees
    #[tactic(auto, using(crate::proofs::Lines::lines))]
    fn row_line(&mut self, l: Line, row: &Law, sort: Sort, with: &[ExprId]) -> Result<usize, Memory>
        requires line_in { IsLineIn self.old.trees l }
        requires with_in { All (IsIn self.old.trees) with.now }
        requires leads { MayConclude self.old (step_of self.old.trees l) (conclusion_of (row_of row.now) sort (trees_at self.old.trees with.now)) }
        ensures adds { IfOk result (λ n. Adds self.old self.new n (step_of self.old.trees l) (conclusion_of (row_of row.now) sort (trees_at self.old.trees with.now))) }
        ensures grows { Grows self.old self.new }
        ensures err { OnErr result (KeepsLines self.old self.new) }
    {
        let s = self.row_judged(&l, row, sort, with)?;
        self.add(l, s)
    }

    /// `f(a..) = f(b..)`, where the lines of these numbers conclude `a = b` for each argument.
    #[tactic(auto, using(crate::proofs::Lines::lines))]
    pub fn cong(&mut self, sym: Sym, parts: &[usize]) -> Result<usize, Memory>
        requires equations { All (IsEquation self.old) parts.now }
        // the left side is well sorted at its head
        requires fits { (sort : SortKind) × (head_mark self.old.theory.declarations sym sort (sorts_of (lefts_at self.old parts.now)) ≡ Good) }
        ensures adds { IfOk result (λ n. (sort : SortKind) → head_mark self.old.theory.declarations sym sort (sorts_of (lefts_at self.old parts.now)) ≡ Good → Adds self.old self.new n (Cong sym parts.now) (equal (App sym sort (lefts_at self.old parts.now)) (App sym sort (rights_at self.old parts.now)))) }
        ensures grows { Grows self.old self.new }
        ensures err { OnErr result (KeepsLines self.old self.new) }
    {
        let numbers = numbers_of(self.alloc(), parts)?;
        let s = self.over_sides(sym, parts)?;
        self.add(Line::Cong(sym, numbers), s)
    }

    /// The conclusion of a law at a sort, for these trees in the order of its letters, from lines that are its
    /// premises.
    #[tactic(auto, using(crate::proofs::RowLines::row_lines))]
    pub fn law(
        &mut self,
        row: &Law,
        sort: Sort,
        with: &[ExprId],
        from: &[usize],
    ) -> Result<usize, Memory>
        requires here { All (IsIn self.old.trees) with.now }
        requires named { row_named law_table row.now.name.now ≡ Some (row_of row.now) }
        requires fills { MayFill self.old.theory.declarations (row_of row.now) sort (trees_at self.old.trees with.now) }
        requires premises { statements_at self.old.done from.now ≡ Some (premises_of (row_of row.now) sort (trees_at self.old.trees with.now)) }
        ensures adds { IfOk result (λ n. Adds self.old self.new n (LawStep row.now.name.now sort (trees_at self.old.trees with.now) from.now) (conclusion_of (row_of row.now) sort (trees_at self.old.trees with.now))) }
        ensures grows { Grows self.old self.new }
        ensures err { OnErr result (KeepsLines self.old self.new) }
    {
        let name = RowName::known(row.name);
        let letters = copies_of(self.alloc(), with)?;
        let numbers = numbers_of(self.alloc(), from)?;
        self.row_line(Line::Law(name, sort, letters, numbers), row, sort, with)
    }

    /// The same of a lemma of the builder's table.
    #[tactic(auto, using(crate::proofs::RowLines::row_lines))]
    pub fn lemma(
        &mut self,
        row: &LemmaRow,
        sort: Sort,
        with: &[ExprId],
        from: &[usize],
    ) -> Result<usize, Memory>
        requires name { IsName row.now.row.name.now }
        requires here { All (IsIn self.old.trees) with.now }
        requires named { row_named self.old.theory.lemmas row.now.row.name.now ≡ Some (lemma_row_of row.now) }
        requires fills { MayFill self.old.theory.declarations (lemma_row_of row.now) sort (trees_at self.old.trees with.now) }
        requires premises { statements_at self.old.done from.now ≡ Some (premises_of (lemma_row_of row.now) sort (trees_at self.old.trees with.now)) }
        ensures adds { IfOk result (λ n. Adds self.old self.new n (LemmaStep row.now.row.name.now sort (trees_at self.old.trees with.now) from.now) (conclusion_of (lemma_row_of row.now) sort (trees_at self.old.trees with.now))) }
        ensures grows { Grows self.old self.new }
        ensures err { OnErr result (KeepsLines self.old self.new) }
    {
        let name = RowName::known(row.row.name);
        let letters = copies_of(self.alloc(), with)?;
        let numbers = numbers_of(self.alloc(), from)?;
        self.row_line(
            Line::Lemma(name, sort, letters, numbers),
            &row.row,
            sort,
            with,
        )
    }
}

fn copies_of(alloc: Global, with: &[ExprId]) -> Result<Items<ExprId>, Memory>
    ensures { IfOk result (λ es. es ≡ with.now) }
{
    Ok(Items::of(with.to_vec(alloc)?))
}

// these numbers as a list of a line
fn numbers_of(alloc: Global, parts: &[usize]) -> Result<Items<u128>, Memory>
    ensures { IfOk result (λ ns. ns ≡ parts.now) }
{
    let mut numbers: Vec<u128> = Vec::with_capacity(alloc, parts.len())?;
    for i in parts {
        numbers.push(*i as u128)?;
    }
    Ok(Items::of(numbers))
}
