ghost use Rattle.std.specs.Prelude.{◌≡◌, All, IfOk};
ghost use Rattle.alg_terms.specs.declared.sorts.Sort.{Sort as SortKind};
ghost use Rattle.alg_terms.specs.Tree.{App, of_list, equal};
ghost use Rattle.alg_expr.specs.Applying.{sorts_at};
ghost use Rattle.alg_expr.specs.Ids.{trees_at, IsIn, statement_of, IsStatementIn};
ghost use Rattle.alg_law.specs.declared.marks.Mark.TheVariants.{Good};
ghost use Rattle.alg_law.specs.WellSorted.{head_mark, sorts_of};
ghost use Rattle.alg_build.specs.Book.{lefts_at, rights_at, IsEquation, KeepsLines};
ghost use Rattle.alg_build.specs.Sides.{AreSides};

use crate::builder::Builder;
use alg_expr::{ExprId, Memory, Sort, Stmt, Sym};
use alg_proof::value_sort;
use smallvec::SmallVec;

// the left sides and the right sides of lines: of a short list in place
#[derive(Drop)]
struct Sides {
    lefts: SmallVec<ExprId, 4>,
    rights: SmallVec<ExprId, 4>,
}

impl Builder {
    // the symbol over the left sides of these lines equals the symbol over their right sides
    pub(crate) fn over_sides(&mut self, sym: Sym, parts: &[usize]) -> Result<Stmt, Memory>
        requires equations { All (IsEquation self.old) parts.now }
        requires fits { (sort : SortKind) × (head_mark self.old.theory.declarations sym sort (sorts_of (lefts_at self.old parts.now)) ≡ Good) }
        ensures here { IfOk result (λ s. IsStatementIn self.new.trees s) }
        ensures statement { IfOk result (λ s. (sort : SortKind) → head_mark self.old.theory.declarations sym sort (sorts_of (lefts_at self.old parts.now)) ≡ Good → statement_of self.new.trees s ≡ equal (App sym sort (lefts_at self.old parts.now)) (App sym sort (rights_at self.old parts.now))) }
        ensures keeps { KeepsLines self.old self.new }
    {
        let sides = self.sides_of(parts)?;
        let lefts = sides.lefts.as_slice();
        let rights = sides.rights.as_slice();
        let sort = self.sort_over(sym, lefts);
        self.over_both(sym, sort, lefts, rights)
    }

    fn sides_of(&self, parts: &[usize]) -> Result<Sides, Memory>
        requires { All (IsEquation self.now) parts.now }
        ensures { IfOk result (λ s. AreSides self.now parts.now s.lefts.items s.rights.items) }
    {
        let mut lefts: SmallVec<ExprId, 4> = SmallVec::with_capacity(self.alloc(), parts.len())?;
        let mut rights: SmallVec<ExprId, 4> = SmallVec::with_capacity(self.alloc(), parts.len())?;
        for i in parts {
            let s = self.concluded(*i);
            lefts.push(s.lhs)?;
            rights.push(s.rhs)?;
        }
        Ok(Sides { lefts, rights })
    }

    // the only sort of the symbol over these arguments
    fn sort_over(&self, sym: Sym, args: &[ExprId]) -> Sort
        requires here { All (IsIn self.now.trees) args.now }
        requires fits { (sort : SortKind) × (head_mark self.now.theory.declarations sym sort (sorts_at self.now.trees args.now) ≡ Good) }
        ensures { (sort : SortKind) → head_mark self.now.theory.declarations sym sort (sorts_at self.now.trees args.now) ≡ Good → result ≡ sort }
    {
        match value_sort(self.base(), self.arena(), sym, args) {
            Some(sort) => sort,
            None => unreachable!(),
        }
    }

    // the symbol over the first trees equals the symbol over the others, of the same sorts
    fn over_both(
        &mut self,
        sym: Sym,
        sort: Sort,
        lefts: &[ExprId],
        rights: &[ExprId],
    ) -> Result<Stmt, Memory>
        requires left_in { All (IsIn self.old.trees) lefts.now }
        requires right_in { All (IsIn self.old.trees) rights.now }
        requires fits { head_mark self.old.theory.declarations sym sort (sorts_at self.old.trees lefts.now) ≡ Good }
        requires even { sorts_at self.old.trees rights.now ≡ sorts_at self.old.trees lefts.now }
        ensures here { IfOk result (λ s. IsStatementIn self.new.trees s) }
        ensures statement { IfOk result (λ s. statement_of self.new.trees s ≡ equal (App sym sort (of_list (trees_at self.old.trees lefts.now))) (App sym sort (of_list (trees_at self.old.trees rights.now)))) }
        ensures keeps { KeepsLines self.old self.new }
    {
        let lhs = self.app(sym, sort, lefts)?;
        let rhs = self.app(sym, sort, rights)?;
        Ok(self.equation(lhs, rhs))
    }
}
