ghost use Rattle.std.specs.Prelude.{◌≡◌, All, IfOk, IsTrue, List, None, map, [], ◌∷◌};
ghost use Rattle.alg_terms.specs.declared.sorts.Sort.{Sort as SortKind};
ghost use Rattle.alg_terms.specs.Tree.{Tree, App, Cons, Nil, of_list, sort_of_tree};
ghost use Rattle.alg_build.specs.Book.{Grows, Proves};
ghost use Rattle.alg_build.specs.Rewriting.{AllProve, AllTurn, CanStand, Heads, IsRewriting, PartsTurn, Stands, StandsOver, StandsOverOne, Turns, over};
ghost use Rattle.alg_build.specs.declared.rewriting.Rewriting.{Rewriting as Rewritten};

use crate::builder::Builder;
use crate::combining::line_of;
use crate::rewriting::Rewriting;
use alg_expr::{ExprId, Memory, Sort, Sym};

/// A line for each part, new where there was none.
#[tactic(auto, using(crate::proofs::ListLemmas::list_facts))]
pub fn lines_of(cx: &mut Builder, parts: &[Rewriting]) -> Result<Vec<usize>, Memory>
    requires { All (IsRewriting cx.old) parts.now }
    ensures prove { IfOk result (λ v. (ss : List SortKind) → (xs ys : List Tree) → AllTurn cx.old ss parts.now xs ys → AllProve cx.new v.items xs ys) }
    ensures grows { Grows cx.old cx.new }
{
    let mut lines: Vec<usize> = Vec::new(cx.alloc());
    for part in parts {
        let line = line_of(cx, *part)?;
        lines.push(line)?;
    }
    Ok(lines)
}

/// `f(a..) = f(b..)`, from lines for `a = b` of each part.
#[tactic(auto, using(crate::proofs::ListLemmas::list_facts))]
pub fn over_all(cx: &mut Builder, sym: Sym, lines: &[usize]) -> Result<Rewriting, Memory>
    requires { CanStand cx.old sym lines.now }
    ensures turns { IfOk result (λ q. (sort : SortKind) → (xs ys : List Tree) → AllProve cx.old lines.now xs ys → Heads cx.old sym sort (map sort_of_tree xs) → Turns cx.new sort q (App sym sort (of_list xs)) (App sym sort (of_list ys))) }
    ensures grows { Grows cx.old cx.new }
{
    let line = cx.cong(sym, lines)?;
    let to = cx.concluded(line).rhs;
    Ok(Rewriting {
        to,
        line: Some(line),
    })
}

// whether no part has a line
fn are_kept(parts: &[Rewriting]) -> bool
    ensures { IsTrue result → All (λ (r : Rewritten). r.line ≡ None) parts.now }
{
    for part in parts {
        if part.line.is_some() {
            return false;
        }
    }
    true
}

/// `f(a..) = f(b..)`, from `a = b` for each part of the tree e, which is `f(a..)`.
pub fn under(
    cx: &mut Builder,
    e: ExprId,
    sym: Sym,
    parts: &[Rewriting],
) -> Result<Rewriting, Memory>
    requires { PartsTurn cx.old e sym parts.now }
    ensures turns { IfOk result (λ q. (sort : SortKind) → (ss : List SortKind) → (xs ys : List Tree) → Stands cx.old sort e (App sym sort (of_list xs)) → AllTurn cx.old ss parts.now xs ys → Heads cx.old sym sort ss → Turns cx.new sort q (App sym sort (of_list xs)) (App sym sort (of_list ys))) }
    ensures grows { Grows cx.old cx.new }
{
    if are_kept(parts) {
        return Ok(Rewriting { to: e, line: None });
    }
    let lines = lines_of(cx, parts)?;
    over_all(cx, sym, &lines)
}

/// `f(a, c) = f(b, d)`, from lines for `a = b` and `c = d`.
pub fn over_two(cx: &mut Builder, sym: Sym, i: usize, j: usize) -> Result<Rewriting, Memory>
    requires { (sort : SortKind) × (a : Tree) × (b : Tree) × (c : Tree) × (d : Tree) × Proves cx.old i a b × Proves cx.old j c d × Heads cx.old sym sort (sort_of_tree a ∷ sort_of_tree c ∷ []) }
    ensures turns { IfOk result (λ q. (sort : SortKind) → (a b c d : Tree) → Proves cx.old i a b → Proves cx.old j c d → Heads cx.old sym sort (sort_of_tree a ∷ sort_of_tree c ∷ []) → Turns cx.new sort q (over sym sort a c) (over sym sort b d)) }
    ensures grows { Grows cx.old cx.new }
{
    let line = cx.cong(sym, &[i, j])?;
    let to = cx.concluded(line).rhs;
    Ok(Rewriting {
        to,
        line: Some(line),
    })
}

/// `f(a, c) = f(b, d)`, from `a = b` and `c = d`.
#[tactic(auto, using(crate::proofs::Rewritings::rewritings))]
pub fn under_two(
    cx: &mut Builder,
    sym: Sym,
    sort: Sort,
    r: Rewriting,
    s: Rewriting,
) -> Result<Rewriting, Memory>
    requires { StandsOver cx.old sym sort r s }
    ensures turns { IfOk result (λ q. (t u : SortKind) → (a b c d : Tree) → Turns cx.old t r a b → Turns cx.old u s c d → Heads cx.old sym sort (t ∷ u ∷ []) → Turns cx.new sort q (over sym sort a c) (over sym sort b d)) }
    ensures grows { Grows cx.old cx.new }
{
    if r.line.is_none() && s.line.is_none() {
        return kept_two(cx, sym, sort, r, s);
    }
    let i = line_of(cx, r)?;
    let j = line_of(cx, s)?;
    over_two(cx, sym, i, j)
}

// `f(a, c)` itself, where no part has a line
#[tactic(auto, using(crate::proofs::Rewritings::rewritings))]
fn kept_two(
    cx: &mut Builder,
    sym: Sym,
    sort: Sort,
    r: Rewriting,
    s: Rewriting,
) -> Result<Rewriting, Memory>
    requires none { (r.line ≡ None) × (s.line ≡ None) }
    requires parts { StandsOver cx.old sym sort r s }
    ensures turns { IfOk result (λ q. (t u : SortKind) → (a b c d : Tree) → Turns cx.old t r a b → Turns cx.old u s c d → Heads cx.old sym sort (t ∷ u ∷ []) → Turns cx.new sort q (over sym sort a c) (over sym sort b d)) }
    ensures grows { Grows cx.old cx.new }
{
    let to = cx.app(sym, sort, &[r.to, s.to])?;
    Ok(Rewriting { to, line: None })
}

/// `f(a) = f(b)`, from `a = b`.
#[tactic(auto, using(crate::proofs::ListLemmas::list_facts))]
pub fn under_one(cx: &mut Builder, sym: Sym, sort: Sort, r: Rewriting) -> Result<Rewriting, Memory>
    requires { StandsOverOne cx.old sym sort r }
    ensures turns { IfOk result (λ q. (t : SortKind) → (a b : Tree) → Turns cx.old t r a b → Heads cx.old sym sort (t ∷ []) → Turns cx.new sort q (App sym sort (Cons a Nil)) (App sym sort (Cons b Nil))) }
    ensures grows { Grows cx.old cx.new }
{
    if r.line.is_none() {
        return kept_one(cx, sym, sort, r);
    }
    let i = line_of(cx, r)?;
    let q = over_all(cx, sym, &[i])?;
    Ok(q)
}

// `f(a)` itself, where the part has no line
#[tactic(auto, using(crate::proofs::Rewritings::rewritings))]
fn kept_one(cx: &mut Builder, sym: Sym, sort: Sort, r: Rewriting) -> Result<Rewriting, Memory>
    requires none { r.line ≡ None }
    requires part { StandsOverOne cx.old sym sort r }
    ensures turns { IfOk result (λ q. (t : SortKind) → (a b : Tree) → Turns cx.old t r a b → Heads cx.old sym sort (t ∷ []) → Turns cx.new sort q (App sym sort (Cons a Nil)) (App sym sort (Cons b Nil))) }
    ensures grows { Grows cx.old cx.new }
{
    let to = cx.app(sym, sort, &[r.to])?;
    Ok(Rewriting { to, line: None })
}
