ghost use Rattle.std.specs.Prelude.{◌≡◌, ◌<◌, ◌^◌, ◌∷◌, [], ℤ, IfOk, OnErr, Some, true};
ghost use Rattle.alg_terms.specs.Tree.{App, Lit, Statement, equal, of_list, sort_of_tree};
ghost use Rattle.alg_terms.specs.declared.relations.Rel.TheVariants.{Dvd};
ghost use Rattle.alg_expr.specs.Ids.{tree_of, IsIn};
ghost use Rattle.alg_law.specs.declared.marks.Mark.TheVariants.{Good};
ghost use Rattle.alg_law.specs.Declarations.{hypotheses};
ghost use Rattle.alg_law.specs.WellSorted.{IsWellSorted, sort_mark};
ghost use Rattle.alg_law.specs.Derivations.{related};
ghost use Rattle.alg_proof.specs.Causes.{line_at};
ghost use Rattle.alg_proof.specs.Computations.{numeral_at, numerals_at, value_at};
ghost use Rattle.alg_proof.specs.LiteralLines.{bridge_class, bridge_from, bridge_to, has_literal, relation_class, relation_holds};
ghost use Rattle.alg_proof.specs.Steps.{Bridge, Compute, Hyp as HypStep, LitRel};
ghost use Rattle.alg_proof.specs.declared.lines.ComputeHead.TheVariants as head;
ghost use Rattle.alg_build.specs.Book.{Adds, Grows, KeepsLines};
ghost use Rattle.alg_build.specs.Computing.{Computes, Divides};

use crate::builder::Builder;
use alg_expr::{ExprId, Items, Memory, Rel, Sort, Sym};
use alg_proof::{BridgeKind, ComputeHead, Line};
use std::alloc::Global;

impl Builder {
    /// `m ≠ n`, `m < n` or `m ≤ n` for literals of the sort, where it holds.
    #[tactic(auto, using(crate::proofs::LineRules::line_rules))]
    pub fn lit_rel(&mut self, rel: Rel, sort: Sort, m: u128, n: u128) -> Result<usize, Memory>
        requires known { sort_mark self.old.theory.declarations sort ≡ Good }
        requires class { relation_class self.old.theory.declarations rel sort ≡ true }
        requires first { has_literal self.old.theory.declarations sort m ≡ true }
        requires second { has_literal self.old.theory.declarations sort n ≡ true }
        requires first_small { m < 2 ^ 127 }
        requires second_small { n < 2 ^ 127 }
        requires holds { relation_holds rel m n ≡ true }
        ensures adds { IfOk result (λ k. Adds self.old self.new k (LitRel rel sort m n) (related rel sort (Lit sort m) (Lit sort n))) }
        ensures grows { Grows self.old self.new }
        ensures err { OnErr result (KeepsLines self.old self.new) }
    {
        self.line(Line::LitRel(rel, sort, m, n))
    }

    /// `n • a = n * a`, or a multiple or power over ℤ as one over ℕ.
    #[tactic(auto, using(crate::proofs::LineRules::line_rules))]
    pub fn bridge(&mut self, kind: BridgeKind, n: u128, e: ExprId) -> Result<usize, Memory>
        requires here { IsIn self.old.trees e }
        requires sorted { IsWellSorted self.old.theory.declarations (tree_of self.old.trees e) }
        requires class { bridge_class self.old.theory.declarations kind (sort_of_tree (tree_of self.old.trees e)) ≡ true }
        requires small { n < 2 ^ 127 }
        ensures adds { IfOk result (λ k. Adds self.old self.new k (Bridge kind n (tree_of self.old.trees e)) (equal (bridge_from kind n (tree_of self.old.trees e)) (bridge_to kind n (tree_of self.old.trees e)))) }
        ensures grows { Grows self.old self.new }
        ensures err { OnErr result (KeepsLines self.old self.new) }
    {
        self.line(Line::Bridge(kind, n, e))
    }

    /// `f(x..) = v` for numerals of ℕ or ℤ, by the value.
    #[tactic(auto, using(crate::proofs::LineRules::line_rules))]
    pub fn compute(&mut self, sym: Sym, sort: Sort, numbers: &[i128]) -> Result<usize, Memory>
        requires { Computes self.old sym sort numbers.now }
        ensures adds { IfOk result (λ k. (v : ℤ) → value_at sort sym numbers.now ≡ Some v → Adds self.old self.new k (Compute (head.Named sym) sort numbers.now) (equal (App sym sort (of_list (numerals_at sort numbers.now))) (numeral_at sort v))) }
        ensures grows { Grows self.old self.new }
        ensures err { OnErr result (KeepsLines self.old self.new) }
    {
        let items = integers_of(self.alloc(), numbers)?;
        self.line(Line::Compute(ComputeHead::Named(sym), sort, items))
    }

    /// `x ∣ y` for numerals of ℕ or ℤ, where it holds.
    #[tactic(auto, using(crate::proofs::LineRules::line_rules))]
    pub fn divides(&mut self, sort: Sort, x: &i128, y: &i128) -> Result<usize, Memory>
        requires { Divides self.old sort x.now y.now }
        ensures adds { IfOk result (λ k. Adds self.old self.new k (Compute head.Dvd sort (x.now ∷ y.now ∷ [])) (related Dvd sort (numeral_at sort x.now) (numeral_at sort y.now))) }
        ensures grows { Grows self.old self.new }
        ensures err { OnErr result (KeepsLines self.old self.new) }
    {
        let numbers: [i128; 2] = [*x, *y];
        let items = Items::of(numbers.to_vec(self.alloc())?);
        self.line(Line::Compute(ComputeHead::Dvd, sort, items))
    }

    /// The hypothesis of this number, from 1.
    #[tactic(auto, using(crate::proofs::LineRules::line_rules))]
    pub fn hyp(&mut self, number: usize) -> Result<usize, Memory>
        requires { (s : Statement) × (line_at (hypotheses self.old.theory.declarations) number ≡ Some s) }
        ensures adds { IfOk result (λ k. (s : Statement) → line_at (hypotheses self.old.theory.declarations) number ≡ Some s → Adds self.old self.new k (HypStep number) s) }
        ensures grows { Grows self.old self.new }
        ensures err { OnErr result (KeepsLines self.old self.new) }
    {
        self.line(Line::Hyp(number as u128))
    }
}

fn integers_of(alloc: Global, numbers: &[i128]) -> Result<Items<i128>, Memory>
    ensures { IfOk result (λ ns. ns ≡ numbers.now) }
{
    Ok(Items::of(numbers.to_vec(alloc)?))
}
