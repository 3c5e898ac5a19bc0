ghost use Rattle.std.specs.Prelude.{IfOk, OnErr};
ghost use Rattle.alg_terms.specs.declared.sorts.Sort.{Sort as SortKind};
ghost use Rattle.alg_terms.specs.Tree.{Tree, Statement, product_tree};
ghost use Rattle.alg_expr.specs.Ids.{tree_of};
ghost use Rattle.alg_build.specs.Backs.{Rewrites, Scales, LeadsBack, LeadAllBack, MayScale, inverse_tree};
ghost use Rattle.alg_build.specs.Book.{Concludes, Proves, Grows, LeavesLines};

use crate::builder::Builder;
use crate::outcome::Back;
use alg_expr::{ExprId, Memory, Sym};

impl Builder {
    /// Lines that lead from line `last`, which concludes the last goal, to one for the first, whose number it answers.
    /// Each back leads to the new goal of the one before it. Without backs it answers `last`.
    pub fn conclude(&mut self, backs: &[Back], last: usize) -> Result<usize, Memory>
        requires { (first : Statement) × (goal : Statement) × LeadAllBack self.old backs.now first goal × Concludes self.old last goal }
        ensures concludes { IfOk result (λ n. (first goal : Statement) → LeadAllBack self.old backs.now first goal → Concludes self.old last goal → Concludes self.new n first) }
        ensures grows { Grows self.old self.new }
        ensures err { OnErr result (LeavesLines self.old self.new) }
    {
        let mark = self.mark();
        match self.lead_all(backs, last) {
            Ok(line) => Ok(line),
            Err(fault) => {
                self.back_to(mark);
                Err(fault)
            }
        }
    }

    fn lead_all(&mut self, backs: &[Back], last: usize) -> Result<usize, Memory>
        requires { (first : Statement) × (goal : Statement) × LeadAllBack self.old backs.now first goal × Concludes self.old last goal }
        ensures concludes { IfOk result (λ n. (first goal : Statement) → LeadAllBack self.old backs.now first goal → Concludes self.old last goal → Concludes self.new n first) }
        ensures grows { Grows self.old self.new }
    {
        let mut line = last;
        let mut i = backs.len();
        while i > 0 {
            i -= 1;
            line = self.lead(backs[i], line)?;
        }
        Ok(line)
    }

    // from a line for the new goal to one for the old
    fn lead(&mut self, back: Back, line: usize) -> Result<usize, Memory>
        requires { (old : Statement) × (new : Statement) × LeadsBack self.old back old new × Concludes self.old line new }
        ensures concludes { IfOk result (λ n. (old new : Statement) → LeadsBack self.old back old new → Concludes self.old line new → Concludes self.new n old) }
        ensures grows { Grows self.old self.new }
    {
        match back {
            Back::Rewrite { left, right } => self.rewritten(left, right, line),
            Back::Scale {
                by,
                left,
                right,
                back_left,
                back_right,
            } => self.scaled(by, left, right, back_left, back_right, line),
        }
    }

    // l R r from l = l', r = r' and l' R r'
    fn rewritten(&mut self, left: usize, right: usize, line: usize) -> Result<usize, Memory>
        requires { (old : Statement) × (new : Statement) × Rewrites self.old left right old new × Concludes self.old line new }
        ensures concludes { IfOk result (λ n. (old new : Statement) → Rewrites self.old left right old new → Concludes self.old line new → Concludes self.new n old) }
        ensures grows { Grows self.old self.new }
    {
        let to_left = self.symm(left)?;
        let to_right = self.symm(right)?;
        self.subst(line, to_left, to_right)
    }
    // l = r from l * m = l', r * m = r', l' = r', l * m * m⁻¹ = l and r * m * m⁻¹ = r
    fn scaled(
        &mut self,
        by: ExprId,
        left: usize,
        right: usize,
        back_left: usize,
        back_right: usize,
        line: usize,
    ) -> Result<usize, Memory>
        requires { (old : Statement) × (new : Statement) × Scales self.old by left right back_left back_right old new × Concludes self.old line new }
        ensures concludes { IfOk result (λ n. (old new : Statement) → Scales self.old by left right back_left back_right old new → Concludes self.old line new → Concludes self.new n old) }
        ensures grows { Grows self.old self.new }
    {
        let _back = self.concluded(back_left);
        let products = self.rewritten(left, right, line)?;
        let times = self.times_inverse(products, by)?;
        self.subst(times, back_left, back_right)
    }

    // x * m⁻¹ = y * m⁻¹ from x = y
    fn times_inverse(&mut self, line: usize, by: ExprId) -> Result<usize, Memory>
        requires { (s : SortKind) × (x : Tree) × (y : Tree) × MayScale self.old line by s x y }
        ensures proves { IfOk result (λ n. (s : SortKind) (x y : Tree) → MayScale self.old line by s x y → Proves self.new n (product_tree s x (inverse_tree s (tree_of self.old.trees by))) (product_tree s y (inverse_tree s (tree_of self.old.trees by)))) }
        ensures grows { Grows self.old self.new }
    {
        let sort = self.concluded(line).sort;
        let inverse = self.app(Sym::Inv, sort, &[by])?;
        let same = self.refl(inverse)?;
        self.cong(Sym::Mul, &[line, same])
    }
}
