ghost use Rattle.std.specs.Prelude.{◌≡◌, ◌∷◌, [], List, All, IfOk, IfSome, length, take, drop};
ghost use mathlib.Core.List.{reverse};
ghost use Rattle.alg_terms.specs.Symbols.{places};
ghost use Rattle.alg_terms.specs.Tree.{Tree, App, Nil, Cons, of_list};
ghost use Rattle.alg_expr.specs.Ids.{tree_of, trees_at, IsIn};
ghost use Rattle.alg_expr.specs.Arena.{Extends, GrowsBy};
ghost use Rattle.alg_law.specs.Declarations.{Declaration};
ghost use Rattle.alg_law.specs.LawRows.{pattern_of};
ghost use Rattle.alg_law.specs.Patterns.{sort_for, index_in, fill_statement};
ghost use Rattle.alg_kernel.specs.Filling.{Stands, AllStand, IsEntryIn, IsFilled, put_tree, filled};
ghost use Rattle.std.specs.Prelude.{get_or};
ghost use Rattle.alg_terms.specs.Tree.{Lit};
ghost use Rattle.alg_terms.specs.declared.sorts.Sort.TheVariants.{Nat};

use alg_expr::{Arena, ExprFault, ExprId, Memory, Sort, Stmt, Sym};
use alg_law::{Pat, PatSort, PatStmt};
use smallvec::SmallVec;

// the trees of the patterns read so far, the first on top: those of most rows stand in place
type Stack = SmallVec<Option<ExprId>, 8>;

/// The sort of a part of a row at a sort.
pub(crate) fn sort_at(sort: Sort, part: PatSort) -> Sort
    ensures { result ≡ sort_for sort part }
{
    match part {
        PatSort::S => sort,
        PatSort::Nat => Sort::Nat,
        PatSort::Int => Sort::Int,
    }
}

/// The statement of a pattern with these trees for the letters, or none where it isn't well sorted.
pub(crate) fn fill(
    arena: &mut Arena,
    pattern: &PatStmt,
    letters: &[u8],
    sort: Sort,
    with: &[ExprId],
) -> Result<Option<Stmt>, Memory>
    requires with_in { All (IsIn arena.old) with.now }
    ensures keeps { Extends arena.old arena.new }
    ensures filled { IfOk result (λ o. (ds : List Declaration) → IsFilled ds arena.new o (fill_statement letters.now sort (trees_at arena.old with.now) (pattern_of pattern.now))) }
{
    let mut stack = build_all(arena, pattern.nodes, letters, sort, with)?;
    let lhs = take_top(arena, &mut stack)?;
    let rhs = take_top(arena, &mut stack)?;
    Ok(joined(arena, pattern, sort, lhs, rhs))
}

// the statement of two sides, if both are there
fn joined(
    _arena: &Arena,
    pattern: &PatStmt,
    sort: Sort,
    lhs: Option<ExprId>,
    rhs: Option<ExprId>,
) -> Option<Stmt>
    ensures { (ds : List Declaration) (l r : Tree) → Stands ds _arena.now lhs l → Stands ds _arena.now rhs r → IsFilled ds _arena.now result (record { rel = pattern.now.rel; sort = sort_for sort pattern.now.sort; lhs = l; rhs = r }) }
{
    match lhs {
        None => None,
        Some(l) => match rhs {
            None => None,
            Some(r) => Some(Stmt {
                rel: pattern.rel,
                sort: sort_at(sort, pattern.sort),
                lhs: l,
                rhs: r,
            }),
        },
    }
}

// the trees of the patterns that the nodes spell, the first on top
fn build_all(
    arena: &mut Arena,
    nodes: &[Pat],
    letters: &[u8],
    sort: Sort,
    with: &[ExprId],
) -> Result<Stack, Memory>
    requires with_in { All (IsIn arena.old) with.now }
    ensures keeps { Extends arena.old arena.new }
    ensures here { IfOk result (λ v. All (IsEntryIn arena.new) v.items) }
    ensures built { IfOk result (λ v. (ds : List Declaration) → AllStand ds arena.new (reverse v.items) (filled letters.now sort (trees_at arena.old with.now) nodes.now)) }
{
    let mut stack: Stack = SmallVec::new(arena.alloc());
    let mut i = nodes.len();
    while i > 0 {
        i -= 1;
        place(arena, &mut stack, nodes[i], letters, sort, with)?;
    }
    Ok(stack)
}

// takes the tree on top; where there is none, the literal 0 of ℕ
fn take_top(arena: &mut Arena, stack: &mut Stack) -> Result<Option<ExprId>, Memory>
    requires stack_in { All (IsEntryIn arena.old) stack.old.items }
    ensures keeps { Extends arena.old arena.new }
    ensures stack_in { IfOk result (λ _. All (IsEntryIn arena.new) stack.new.items) }
    ensures top { IfOk result (λ o. IsEntryIn arena.new o) }
    ensures taken { IfOk result (λ o. (ds : List Declaration) (ts : List Tree) → AllStand ds arena.old (reverse stack.old.items) ts → Stands ds arena.new o (get_or ts 0 (Lit Nat 0)) × AllStand ds arena.new (reverse stack.new.items) (drop 1 ts)) }
{
    match stack.pop() {
        Some(o) => Ok(o),
        None => Ok(Some(arena.lit(Sort::Nat, 0)?)),
    }
}

// puts the tree of a node over those of the nodes after it
fn place(
    arena: &mut Arena,
    stack: &mut Stack,
    node: Pat,
    letters: &[u8],
    sort: Sort,
    with: &[ExprId],
) -> Result<(), Memory>
    requires with_in { All (IsIn arena.old) with.now }
    requires stack_in { All (IsEntryIn arena.old) stack.old.items }
    ensures keeps { Extends arena.old arena.new }
    ensures stack_in { IfOk result (λ _. All (IsEntryIn arena.new) stack.new.items) }
    ensures put { IfOk result (λ _. (ds : List Declaration) (ts : List Tree) → AllStand ds arena.old (reverse stack.old.items) ts → AllStand ds arena.new (reverse stack.new.items) (put_tree letters.now sort (trees_at arena.old with.now) node ts)) }
{
    match node {
        Pat::Letter(k) => {
            let e = letter(arena, letters, with, k)?;
            stack.push(Some(e))?;
        }
        Pat::Lit { sort: part, value } => {
            let e = arena.lit(sort_at(sort, part), value as u128)?;
            stack.push(Some(e))?;
        }
        Pat::App { sym, sort: part } => {
            let o = over_top(arena, stack, sym, sort_at(sort, part))?;
            stack.push(o)?;
        }
    }
    Ok(())
}

// the tree for a letter
fn letter(arena: &mut Arena, letters: &[u8], with: &[ExprId], letter: u8) -> Result<ExprId, Memory>
    requires with_in { All (IsIn arena.old) with.now }
    ensures keeps { Extends arena.old arena.new }
    ensures here { IfOk result (λ e. IsIn arena.new e) }
    ensures tree { IfOk result (λ e. tree_of arena.new e ≡ get_or (trees_at arena.old with.now) (index_in letters.now letter) (Lit Nat 0)) }
{
    match with.get(place_of(letters, letter)) {
        Some(e) => Ok(*e),
        None => arena.lit(Sort::Nat, 0),
    }
}

// the place of a letter among these
fn place_of(letters: &[u8], letter: u8) -> usize
    ensures { result ≡ index_in letters.now letter }
{
    let mut i: usize = 0;
    while i < letters.len() {
        if letters[i] == letter {
            return i;
        }
        i += 1;
    }
    i
}

// takes as many trees from the top as the symbol has places, and gives the symbol over them
fn over_top(
    arena: &mut Arena,
    stack: &mut Stack,
    sym: Sym,
    sort: Sort,
) -> Result<Option<ExprId>, Memory>
    requires stack_in { All (IsEntryIn arena.old) stack.old.items }
    ensures keeps { Extends arena.old arena.new }
    ensures stack_in { IfOk result (λ _. All (IsEntryIn arena.new) stack.new.items) }
    ensures top { IfOk result (λ o. IsEntryIn arena.new o) }
    ensures put { IfOk result (λ o. (ds : List Declaration) (ts : List Tree) → AllStand ds arena.old (reverse stack.old.items) ts → Stands ds arena.new o (App sym sort (of_list (take (length (places sym)) ts))) × AllStand ds arena.new (reverse stack.new.items) (drop (length (places sym)) ts)) }
{
    match sym.places().len() {
        0 => {
            let none = apply(arena, sym, sort, &[])?;
            Ok(none)
        }
        1 => over_first(arena, stack, sym, sort),
        _ => over_both(arena, stack, sym, sort),
    }
}

// the symbol over the tree on top
fn over_first(
    arena: &mut Arena,
    stack: &mut Stack,
    sym: Sym,
    sort: Sort,
) -> Result<Option<ExprId>, Memory>
    requires stack_in { All (IsEntryIn arena.old) stack.old.items }
    ensures keeps { Extends arena.old arena.new }
    ensures stack_in { IfOk result (λ _. All (IsEntryIn arena.new) stack.new.items) }
    ensures top { IfOk result (λ o. IsEntryIn arena.new o) }
    ensures put { IfOk result (λ o. (ds : List Declaration) (ts : List Tree) → AllStand ds arena.old (reverse stack.old.items) ts → Stands ds arena.new o (App sym sort (of_list (take 1 ts))) × AllStand ds arena.new (reverse stack.new.items) (drop 1 ts)) }
{
    match stack.pop() {
        None => {
            let none = apply(arena, sym, sort, &[])?;
            Ok(none)
        }
        Some(a) => {
            let one = over_one(arena, sym, sort, a)?;
            Ok(one)
        }
    }
}

// the symbol over the two trees on top
fn over_both(
    arena: &mut Arena,
    stack: &mut Stack,
    sym: Sym,
    sort: Sort,
) -> Result<Option<ExprId>, Memory>
    requires stack_in { All (IsEntryIn arena.old) stack.old.items }
    ensures keeps { Extends arena.old arena.new }
    ensures stack_in { IfOk result (λ _. All (IsEntryIn arena.new) stack.new.items) }
    ensures top { IfOk result (λ o. IsEntryIn arena.new o) }
    ensures put { IfOk result (λ o. (ds : List Declaration) (ts : List Tree) → AllStand ds arena.old (reverse stack.old.items) ts → Stands ds arena.new o (App sym sort (of_list (take 2 ts))) × AllStand ds arena.new (reverse stack.new.items) (drop 2 ts)) }
{
    match stack.pop() {
        None => {
            let none = apply(arena, sym, sort, &[])?;
            Ok(none)
        }
        Some(a) => match stack.pop() {
            None => {
                let one = over_one(arena, sym, sort, a)?;
                Ok(one)
            }
            Some(b) => {
                let two = over_two(arena, sym, sort, a, b)?;
                Ok(two)
            }
        },
    }
}

fn over_one(
    arena: &mut Arena,
    sym: Sym,
    sort: Sort,
    a: Option<ExprId>,
) -> Result<Option<ExprId>, Memory>
    requires here { IsEntryIn arena.old a }
    ensures keeps { Extends arena.old arena.new }
    ensures top { IfOk result (λ o. IsEntryIn arena.new o) }
    ensures made { IfOk result (λ o. (ds : List Declaration) (t : Tree) → Stands ds arena.old a t → Stands ds arena.new o (App sym sort (Cons t Nil))) }
{
    match a {
        None => Ok(None),
        Some(x) => apply(arena, sym, sort, &[x]),
    }
}

fn over_two(
    arena: &mut Arena,
    sym: Sym,
    sort: Sort,
    a: Option<ExprId>,
    b: Option<ExprId>,
) -> Result<Option<ExprId>, Memory>
    requires left { IsEntryIn arena.old a }
    requires right { IsEntryIn arena.old b }
    ensures keeps { Extends arena.old arena.new }
    ensures top { IfOk result (λ o. IsEntryIn arena.new o) }
    ensures made { IfOk result (λ o. (ds : List Declaration) (t u : Tree) → Stands ds arena.old a t → Stands ds arena.old b u → Stands ds arena.new o (App sym sort (Cons t (Cons u Nil)))) }
{
    match a {
        None => Ok(None),
        Some(x) => match b {
            None => Ok(None),
            Some(y) => apply(arena, sym, sort, &[x, y]),
        },
    }
}

// the symbol over these trees, or none where arity or sorts don't fit
fn apply(arena: &mut Arena, sym: Sym, sort: Sort, args: &[ExprId]) -> Result<Option<ExprId>, Memory>
    requires { All (IsIn arena.old) args.now }
    ensures keeps { Extends arena.old arena.new }
    ensures top { IfOk result (λ o. IsEntryIn arena.new o) }
    ensures made { IfOk result (λ o. (ds : List Declaration) → Stands ds arena.new o (App sym sort (of_list (trees_at arena.old args.now)))) }
{
    match arena.app(sym, sort, args) {
        Ok(e) => Ok(Some(e)),
        Err(ExprFault::Memory) => Err(Memory),
        Err(ExprFault::BadArity) => Ok(None),
        Err(ExprFault::BadSort) => Ok(None),
    }
}
