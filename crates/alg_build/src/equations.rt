ghost use Rattle.std.specs.Prelude.{◌≡◌, ◌+◌, ◌*◌, ◌<◌, ◌^◌, ◌∷◌, [], All, IfOk, OnErr, true};
ghost use Rattle.alg_terms.specs.Tree.{Lit, App, Cons, Nil, equal, sum_tree, product_tree};
ghost use Rattle.alg_expr.specs.Ids.{tree_of, IsIn, statement_of, IsStatementIn};
ghost use Rattle.alg_expr.specs.Applying.{arity_fits, sorts_fit};
ghost use Rattle.alg_law.specs.declared.classes.Class.TheVariants.{Semiring};
ghost use Rattle.alg_law.specs.declared.marks.Mark.TheVariants.{Good};
ghost use Rattle.alg_law.specs.Having.{has_class};
ghost use Rattle.alg_law.specs.WellSorted.{IsWellSorted, sort_mark};
ghost use Rattle.alg_law.specs.Derivations.{related};
ghost use Rattle.alg_proof.specs.Steps.{Refl, Symm, Trans, Subst, LitAdd, LitMul};
ghost use Rattle.alg_build.specs.Book.{fact, left_at, right_at, IsThere, IsEquation, KeepsLines, Adds, Makes};

use crate::builder::Builder;
use alg_expr::{ExprId, Memory, Rel, Sort, Stmt, Sym};
use alg_proof::Line;

impl Builder {
    pub(crate) fn equation(&self, lhs: ExprId, rhs: ExprId) -> Stmt
        requires left { IsIn self.now.trees lhs }
        requires right { IsIn self.now.trees rhs }
        ensures here { IsStatementIn self.now.trees result }
        ensures statement { statement_of self.now.trees result ≡ equal (tree_of self.now.trees lhs) (tree_of self.now.trees rhs) }
    {
        Stmt {
            rel: Rel::Eq,
            sort: self.arena().sort_of(lhs),
            lhs,
            rhs,
        }
    }

    /// `e = e`
    pub fn refl(&mut self, e: ExprId) -> Result<usize, Memory>
        requires here { IsIn self.old.trees e }
        requires sorted { IsWellSorted self.old.theory.declarations (tree_of self.old.trees e) }
        ensures adds { IfOk result (λ n. Adds self.old self.new n (Refl (tree_of self.old.trees e)) (equal (tree_of self.old.trees e) (tree_of self.old.trees e))) }
        ensures err { OnErr result (self.new ≡ self.old) }
    {
        let s = self.equation(e, e);
        self.add(Line::Refl(e), s)
    }

    /// `b = a`, where line i concludes `a = b`.
    pub fn symm(&mut self, i: usize) -> Result<usize, Memory>
        requires { IsEquation self.old i }
        ensures adds { IfOk result (λ n. Adds self.old self.new n (Symm i) (equal (right_at self.old i) (left_at self.old i))) }
        ensures err { OnErr result (self.new ≡ self.old) }
    {
        let a = self.concluded(i);
        let s = self.equation(a.rhs, a.lhs);
        self.add(Line::Symm(i as u128), s)
    }

    /// `a = c`, where line i concludes `a = b` and line j `b = c`.
    pub fn trans(&mut self, i: usize, j: usize) -> Result<usize, Memory>
        requires first { IsEquation self.old i }
        requires second { IsEquation self.old j }
        requires middle { right_at self.old i ≡ left_at self.old j }
        ensures adds { IfOk result (λ n. Adds self.old self.new n (Trans i j) (equal (left_at self.old i) (right_at self.old j))) }
        ensures err { OnErr result (self.new ≡ self.old) }
    {
        let a = self.concluded(i);
        let b = self.concluded(j);
        let s = self.equation(a.lhs, b.rhs);
        self.add(Line::Trans(i as u128, j as u128), s)
    }

    /// `c R d`, where line i concludes `a R b`, line j `a = c` and line k `b = d`.
    pub fn subst(&mut self, i: usize, j: usize, k: usize) -> Result<usize, Memory>
        requires there { IsThere self.old i }
        requires second { IsEquation self.old j }
        requires third { IsEquation self.old k }
        requires left { left_at self.old j ≡ left_at self.old i }
        requires right { left_at self.old k ≡ right_at self.old i }
        ensures adds { IfOk result (λ n. Adds self.old self.new n (Subst i j k) (related (fact self.old i).rel (fact self.old i).sort (right_at self.old j) (right_at self.old k))) }
        ensures err { OnErr result (self.new ≡ self.old) }
    {
        let a = self.concluded(i);
        let b = self.concluded(j);
        let c = self.concluded(k);
        let s = Stmt {
            rel: a.rel,
            sort: a.sort,
            lhs: b.rhs,
            rhs: c.rhs,
        };
        self.add(Line::Subst(i as u128, j as u128, k as u128), s)
    }

    /// `m + n = r` for literals of the sort.
    pub fn lit_add(&mut self, sort: Sort, m: u128, n: u128) -> Result<usize, Memory>
        requires known { sort_mark self.old.theory.declarations sort ≡ Good }
        requires class { has_class self.old.theory.declarations sort Semiring ≡ true }
        requires small { m + n < 2 ^ 127 }
        ensures adds { IfOk result (λ k. Adds self.old self.new k (LitAdd sort m n) (equal (sum_tree sort (Lit sort m) (Lit sort n)) (Lit sort (m + n)))) }
        ensures err { OnErr result (KeepsLines self.old self.new) }
    {
        let s = self.literals(Sym::Add, sort, m, n, m + n)?;
        self.add(Line::LitAdd(sort, m, n), s)
    }

    /// `m * n = r` for literals of the sort.
    pub fn lit_mul(&mut self, sort: Sort, m: u128, n: u128) -> Result<usize, Memory>
        requires known { sort_mark self.old.theory.declarations sort ≡ Good }
        requires class { has_class self.old.theory.declarations sort Semiring ≡ true }
        requires first { m < 2 ^ 127 }
        requires second { n < 2 ^ 127 }
        requires small { m * n < 2 ^ 127 }
        ensures adds { IfOk result (λ k. Adds self.old self.new k (LitMul sort m n) (equal (product_tree sort (Lit sort m) (Lit sort n)) (Lit sort (m * n)))) }
        ensures err { OnErr result (KeepsLines self.old self.new) }
    {
        let s = self.literals(Sym::Mul, sort, m, n, m * n)?;
        self.add(Line::LitMul(sort, m, n), s)
    }

    // the symbol over the literals m and n equals the literal r
    fn literals(&mut self, sym: Sym, sort: Sort, m: u128, n: u128, r: u128) -> Result<Stmt, Memory>
        requires arity { arity_fits sym 2 ≡ true }
        requires sorts { sorts_fit sym sort (sort ∷ sort ∷ []) ≡ true }
        requires first { m < 2 ^ 127 }
        requires second { n < 2 ^ 127 }
        requires small { r < 2 ^ 127 }
        ensures here { IfOk result (λ s. IsStatementIn self.new.trees s) }
        ensures statement { IfOk result (λ s. statement_of self.new.trees s ≡ equal (App sym sort (Cons (Lit sort m) (Cons (Lit sort n) Nil))) (Lit sort r)) }
        ensures keeps { KeepsLines self.old self.new }
    {
        let left = self.operation(sym, sort, m, n)?;
        let right = self.lit(sort, r)?;
        Ok(self.equation(left, right))
    }

    // the symbol over the literals m and n
    fn operation(&mut self, sym: Sym, sort: Sort, m: u128, n: u128) -> Result<ExprId, Memory>
        requires arity { arity_fits sym 2 ≡ true }
        requires sorts { sorts_fit sym sort (sort ∷ sort ∷ []) ≡ true }
        requires first { m < 2 ^ 127 }
        requires second { n < 2 ^ 127 }
        ensures ok { IfOk result (λ e. Makes self.old self.new e (App sym sort (Cons (Lit sort m) (Cons (Lit sort n) Nil)))) }
        ensures err { OnErr result (KeepsLines self.old self.new) }
    {
        let a = self.lit(sort, m)?;
        let b = self.lit(sort, n)?;
        self.app(sym, sort, &[a, b])
    }
}
