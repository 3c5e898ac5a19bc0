ghost use Rattle.std.specs.Prelude.{◌≡◌, All, IfOk};
ghost use Rattle.alg_build.specs.Book.{KeepsLines};
ghost use Rattle.alg_law.specs.Combinations.{part_of, parts_at, IsStepIn};

use crate::builder::Builder;
use alg_expr::{Arena, Items, Memory};
use alg_law::{Combo, ComboStep};

impl Builder {
    /// Copies a combination with its expressions, which are of another arena.
    pub fn import_combo(&mut self, from: &Arena, c: &Combo) -> Result<Combo, Memory>
        requires { All (IsStepIn from.now) c.now.steps }
        ensures here { IfOk result (λ d. All (IsStepIn self.new.trees) d.steps) }
        ensures parts { IfOk result (λ d. parts_at self.new.trees d.steps ≡ parts_at from.now c.now.steps) }
        ensures keeps { KeepsLines self.old self.new }
    {
        let steps = self.copy_parts(from, c.steps.as_slice())?;
        Ok(Combo {
            steps: Items::of(steps),
        })
    }

    fn copy_parts(&mut self, from: &Arena, steps: &[ComboStep]) -> Result<Vec<ComboStep>, Memory>
        requires { All (IsStepIn from.now) steps.now }
        ensures here { IfOk result (λ v. All (IsStepIn self.new.trees) v.items) }
        ensures parts { IfOk result (λ v. parts_at self.new.trees v.items ≡ parts_at from.now steps.now) }
        ensures keeps { KeepsLines self.old self.new }
    {
        let mut copies: Vec<ComboStep> = Vec::new(self.alloc());
        for step in steps {
            let copy = self.copy_part(from, *step)?;
            copies.push(copy)?;
        }
        Ok(copies)
    }

    fn copy_part(&mut self, from: &Arena, step: ComboStep) -> Result<ComboStep, Memory>
        requires { IsStepIn from.now step }
        ensures here { IfOk result (λ d. IsStepIn self.new.trees d) }
        ensures part { IfOk result (λ d. part_of self.new.trees d ≡ part_of from.now step) }
        ensures keeps { KeepsLines self.old self.new }
    {
        match step {
            ComboStep::Expr(e) => Ok(ComboStep::Expr(self.copy(from, e)?)),
            other => Ok(other),
        }
    }
}
