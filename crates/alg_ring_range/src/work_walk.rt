//! The work of the trees of a goal, each found once, parts before wholes.
ghost use Rattle.std.specs.List.{list_any};
ghost use Rattle.std.specs.Prelude.{◌≡◌, ◌||◌, ◌<◌, ◌≤◌, [], ◌∷◌, ◌++◌, IfOk, All, List, length, get_or, true, false};
ghost use Rattle.alg_terms.specs.declared.sorts.Sort.{Sort as SortKind};
ghost use Rattle.alg_terms.specs.declared.sorts.Sort.TheVariants.{Nat};
ghost use Rattle.alg_terms.specs.Tree.{Tree, Lit, App, Cons, Nil};
ghost use Rattle.alg_expr.specs.Ids.{tree_of, trees_at, IsIn};
ghost use Rattle.alg_sums.specs.Rational.{rational};
ghost use Rattle.alg_expansions.specs.Setting.{Setting, setting_of};
ghost use Rattle.alg_expansions.specs.Cost.{cost_too_much, has_large_steps};
ghost use Rattle.alg_ring_range.specs.Numbers.{Numbers};
ghost use Rattle.alg_ring_range.specs.Found.{IsFound, AreFound, HasParts};
ghost use Rattle.alg_ring_range.specs.Marks.{AreWanted};
ghost use Rattle.alg_ring_range.specs.Work.{Counts, IsWork, AreCounts, AreWorks, HasWorks, no_work, work, work_over, works_of, are_too_costly, counts_of};

use crate::marks::marked;
use crate::rows::Found;
use crate::walk::{all_found, one, two};
use crate::work::{
    Work, inverse, is_too_much, leaf, nothing, one_more, power, product, quotient, sum, together,
};
use alg_expr::{Arena, ExprId, Memory, View};
use alg_law::Base;
use alg_terms::{Sort, Sym};

fn over_one(sym: Sym, found: &Found, a: &Work) -> Work
    ensures { (o : Counts) (s : SortKind) (t : Tree) (x : Numbers) (w : Work) → IsFound found.now x → IsWork a.now w → IsWork result (work_over o sym s (Cons t Nil) (x ∷ []) (w ∷ [])) }
{
    match sym {
        Sym::Neg => one_more(a),
        Sym::Inv => inverse(found.closed, a),
        _ => leaf(),
    }
}

fn over_two(
    sym: Sym,
    sort: Sort,
    m: u128,
    n: u128,
    steps: &Work,
    found: &Found,
    a: &Work,
    b: &Work,
) -> Work
    ensures { (o : Counts) (t u : Tree) (x y : Numbers) (v w : Work) → m ≡ o.terms t → n ≡ o.terms u → IsWork steps.now (o.steps (App sym sort (Cons t (Cons u Nil)))) → IsFound found.now y → IsWork a.now v → IsWork b.now w → IsWork result (work_over o sym sort (Cons t (Cons u Nil)) (x ∷ y ∷ []) (v ∷ w ∷ [])) }
{
    match sym {
        Sym::Add => sum(m, n, a, b),
        Sym::Sub => sum(m, n, a, b),
        Sym::Mul => product(m, n, a, b),
        Sym::Npow => power(found.numeral.is_some(), steps, a, b),
        Sym::Div => quotient(found.closed, m, a, b),
        _ => leaf(),
    }
}

// the work of one node, whose parts are found
#[tactic(auto, using(crate::proofs::WalkLemmas::below))]
fn node(
    base: &Base,
    arena: &Arena,
    counts: &[u128],
    steps: &[Work],
    found: &[Found],
    works: &[Work],
    e: ExprId,
) -> Work
    requires here { IsIn arena.now e }
    requires counts { length counts.now ≡ length arena.now }
    requires steps { length steps.now ≡ length arena.now }
    requires found { e.index ≤ length found.now }
    requires works { e.index ≤ length works.now }
    requires parts { HasParts (setting_of base.now) arena.now found.now e }
    ensures { (o : Counts) → AreCounts o arena.now counts.now steps.now → HasWorks o (setting_of base.now) arena.now works.now e → IsWork result (work o (setting_of base.now) (tree_of arena.now e)) }
{
    match arena.view(e) {
        View::Lit { .. } => leaf(),
        View::Var { .. } => leaf(),
        View::App { sym, sort, args } => match one(args) {
            Some(a) => over_one(sym, &found[a.number()], &works[a.number()]),
            None => match two(args) {
                Some((a, b)) => over_two(
                    sym,
                    sort,
                    counts[a.number()],
                    counts[b.number()],
                    &steps[e.number()],
                    &found[b.number()],
                    &works[a.number()],
                    &works[b.number()],
                ),
                None => leaf(),
            },
        },
    }
}

fn push(works: &mut Vec<Work>, w: Work) -> Result<(), Memory>
    ensures { IfOk result (λ _. works.new.items ≡ works.old.items ++ w ∷ []) }
{
    match works.push(w) {
        Ok(()) => Ok(()),
        Err(_) => Err(Memory),
    }
}

// the work of the next tree, if it is wanted
fn next(
    base: &Base,
    arena: &Arena,
    counts: &[u128],
    steps: &[Work],
    wanted: &[bool],
    found: &[Found],
    works: &[Work],
) -> Work
    requires counts { length counts.now ≡ length arena.now }
    requires steps { length steps.now ≡ length arena.now }
    requires wanted { AreWanted arena.now wanted.now }
    requires all { length found.now ≡ length arena.now }
    requires found { AreFound (setting_of base.now) arena.now wanted.now found.now }
    requires room { length works.now < length arena.now }
    ensures { (o : Counts) → AreCounts o arena.now counts.now steps.now → AreWorks o (setting_of base.now) arena.now wanted.now works.now → get_or wanted.now (length works.now) false ≡ true → IsWork result (work o (setting_of base.now) (get_or arena.now (length works.now) (Lit Nat 0))) }
{
    let number = works.len();
    if wanted[number] {
        node(base, arena, counts, steps, found, works, arena.id(number))
    } else {
        leaf()
    }
}

fn all_works(
    base: &Base,
    arena: &Arena,
    counts: &[u128],
    steps: &[Work],
    wanted: &[bool],
    found: &[Found],
) -> Result<Vec<Work>, Memory>
    requires counts { length counts.now ≡ length arena.now }
    requires steps { length steps.now ≡ length arena.now }
    requires wanted { AreWanted arena.now wanted.now }
    requires all { length found.now ≡ length arena.now }
    requires found { AreFound (setting_of base.now) arena.now wanted.now found.now }
    ensures works { IfOk result (λ v. (o : Counts) → AreCounts o arena.now counts.now steps.now → AreWorks o (setting_of base.now) arena.now wanted.now v.items) }
    ensures all { IfOk result (λ v. length v.items ≡ length arena.now) }
{
    let mut works: Vec<Work> = Vec::new(arena.alloc());
    for _ in 0..wanted.len() {
        let w = next(base, arena, counts, steps, wanted, found, works.as_slice());
        push(&mut works, w)?;
    }
    Ok(works)
}

// the work of several trees
fn all_together(works: &[Work], roots: &[ExprId]) -> Work
    requires { All (λ e. e.index < length works.now) roots.now }
    ensures { (o : Counts) (k : Setting) (trees : List Tree) → All (λ e. IsWork (get_or works.now e.index no_work) (work o k (tree_of trees e))) roots.now → IsWork result (works_of o k (trees_at trees roots.now)) }
{
    let mut total = nothing();
    let mut i = roots.len();
    'trees: while i > 0 {
        i -= 1;
        let e = roots[i];
        total = together(&works[e.number()], &total);
    }
    total
}

/// Whether expanding these trees is too much: a visited step is too large, or their costs sum above 2^18. It is told of
/// each tree of the arena how many terms it has, and of each power what its steps cost.
pub fn are_too_costly(
    base: &Base,
    arena: &Arena,
    counts: &[u128],
    steps: &[Work],
    roots: &[ExprId],
) -> Result<bool, Memory>
    requires here { All (IsIn arena.now) roots.now }
    requires counts { length counts.now ≡ length arena.now }
    requires steps { length steps.now ≡ length arena.now }
    ensures told { IfOk result (λ b. (o : Counts) → AreCounts o arena.now counts.now steps.now → b ≡ are_too_costly o (setting_of base.now) (trees_at arena.now roots.now)) }
    ensures exact { IfOk result (λ b. AreCounts (counts_of (setting_of base.now)) arena.now counts.now steps.now → b ≡ (cost_too_much rational (setting_of base.now) (trees_at arena.now roots.now) || list_any (has_large_steps rational (setting_of base.now)) (trees_at arena.now roots.now))) }
{
    let wanted = marked(arena, roots)?;
    let found = all_found(base, arena, wanted.as_slice())?;
    let works = all_works(
        base,
        arena,
        counts,
        steps,
        wanted.as_slice(),
        found.as_slice(),
    )?;
    let total = all_together(works.as_slice(), roots);
    let answer = is_too_much(&total);
    Ok(answer)
}
