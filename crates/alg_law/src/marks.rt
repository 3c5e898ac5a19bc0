ghost use Rattle.std.specs.Prelude.{Some, ◌||◌, ◌&&◌, ◌≡◌, List, [], length, map, drop, IfOk, All};
ghost use Rattle.alg_terms.specs.Symbols.{places, arguments_fit, is_built_in};
ghost use Rattle.alg_expr.specs.Applying.{sorts_at};
ghost use Rattle.alg_expr.specs.Ids.{IsStatementIn, statement_of};
ghost use Rattle.alg_terms.specs.Tree.{of_list};
ghost use Rattle.alg_expr.specs.Ids.{tree_of, trees_at, IsIn};
ghost use Rattle.alg_law.specs.Marks.{HasMarks};
ghost use Rattle.alg_law.specs.WellSorted.{worse, sort_mark, literal_class, class_mark, same_mark, literal_mark, of_sort, variable_mark, sorts_same, sorts_agree, of_function, has_classes, built_in_mark, symbol_mark, head_mark, mark_of, has_relation};

use crate::base::{Base, has};
use crate::classes::Class;
use alg_expr::{Arena, ExprId, Memory, Rel, Sort, Sym, View};

/// The first cause for which a tree isn't well sorted under a base. A cause is looked for at all nodes before the
/// next one, the last of these first.
#[derive(Clone, Copy, Debug)]
pub enum Mark {
    /// The tree is well sorted.
    Good,
    /// A class is missing that a symbol or a literal needs.
    NoInstance,
    /// Arities or sorts don't fit the symbols or their declarations.
    BadSort,
    /// A number of a variable, function or type that the base hasn't.
    BadName,
}

/// The mark of a tree. `marks` are those of the first trees of the arena; it grows so that each tree is looked at
/// once, and may be kept while the arena grows. After `Memory` its marks are still right.
pub fn mark_for(
    marks: &mut Vec<Mark>,
    base: &Base,
    arena: &Arena,
    id: ExprId,
) -> Result<Mark, Memory>
    requires here { IsIn arena.now id }
    requires marked { HasMarks base.now arena.now marks.old.items }
    ensures ok { IfOk result (λ m. m ≡ mark_of base.now (tree_of arena.now id)) }
    ensures marked { HasMarks base.now arena.now marks.new.items }
{
    while marks.len() <= id.number() {
        let next = arena.id(marks.len());
        let m = mark_next(marks.as_slice(), base, arena, next);
        marks.push(m)?;
    }
    Ok(marks[id.number()])
}

/// The mark of a symbol over these arguments, whose value has the sort `sort`; the arguments' own marks aside.
pub fn mark_for_head(base: &Base, arena: &Arena, sym: Sym, sort: Sort, args: &[ExprId]) -> Mark
    requires { All (IsIn arena.now) args.now }
    ensures { result ≡ head_mark base.now sym sort (sorts_at arena.now args.now) }
{
    worse_of(
        mark_for_sort(base, sort),
        symbol(base, arena, sym, sort, args),
    )
}

/// Good where the sort is built in or declared, else a bad name.
pub fn mark_for_sort(base: &Base, sort: Sort) -> Mark
    ensures { result ≡ sort_mark base.now sort }
{
    match sort {
        Sort::Decl(k) => if base.is_type(k) {
            Mark::Good
        } else {
            Mark::BadName
        },
        _ => Mark::Good,
    }
}

/// Whether the sort has the relation: `<` and `≤` need a linear order, `∣` is on ℕ and ℤ.
pub fn relates(base: &Base, rel: Rel, sort: Sort) -> bool
    ensures { result ≡ has_relation base.now rel sort }
{
    match rel {
        Rel::Eq => true,
        Rel::Ne => true,
        Rel::Lt => has(base, sort, Class::LinearOrder),
        Rel::Le => has(base, sort, Class::LinearOrder),
        Rel::Dvd => sort.is_integral(),
    }
}

/// The class that a literal needs.
pub fn literal_class(value: u128) -> Class
    ensures { result ≡ literal_class value }
{
    if value == 0 {
        Class::AddMonoid
    } else if value == 1 {
        Class::Monoid
    } else {
        Class::Semiring
    }
}

/// The one of two causes that is looked for first.
pub fn worse_of(a: Mark, b: Mark) -> Mark
    ensures { result ≡ worse a b }
{
    match a {
        Mark::Good => b,
        Mark::NoInstance => match b {
            Mark::Good => a,
            _ => b,
        },
        Mark::BadSort => match b {
            Mark::BadName => b,
            _ => a,
        },
        Mark::BadName => a,
    }
}

// the mark of the tree after those that have theirs
fn mark_next(marks: &[Mark], base: &Base, arena: &Arena, id: ExprId) -> Mark
    requires here { IsIn arena.now id }
    requires next { id.index ≡ length marks.now }
    requires marked { HasMarks base.now arena.now marks.now }
    ensures { result ≡ mark_of base.now (tree_of arena.now id) }
{
    match arena.view(id) {
        View::Lit { sort, value } => literal(base, sort, value),
        View::Var { decl, sort } => variable(base, decl, sort),
        View::App { sym, sort, args } => {
            let mut m = mark_for_head(base, arena, sym, sort, args);
            for part in args {
                m = worse_of(m, marks[part.number()]);
            }
            m
        }
    }
}

fn literal(base: &Base, sort: Sort, value: u128) -> Mark
    ensures { result ≡ literal_mark base.now sort value }
{
    worse_of(
        mark_for_sort(base, sort),
        class_needed(has(base, sort, literal_class(value))),
    )
}

fn class_needed(there: bool) -> Mark
    ensures { result ≡ class_mark there }
{
    if there { Mark::Good } else { Mark::NoInstance }
}

fn same_needed(fits: bool) -> Mark
    ensures { result ≡ same_mark fits }
{
    if fits { Mark::Good } else { Mark::BadSort }
}

fn variable(base: &Base, decl: u32, sort: Sort) -> Mark
    ensures { result ≡ variable_mark base.now decl sort }
{
    worse_of(
        mark_for_sort(base, sort),
        sort_needed(base.variable(decl), sort),
    )
}

fn sort_needed(declared: Option<Sort>, sort: Sort) -> Mark
    ensures { result ≡ of_sort declared sort }
{
    match declared {
        None => Mark::BadName,
        Some(t) => same_needed(t.is(sort)),
    }
}

fn symbol(base: &Base, arena: &Arena, sym: Sym, sort: Sort, args: &[ExprId]) -> Mark
    requires { All (IsIn arena.now) args.now }
    ensures { result ≡ symbol_mark base.now sym sort (sorts_at arena.now args.now) }
{
    match sym {
        Sym::Apply(k) => match base.function(k) {
            None => Mark::BadName,
            Some(f) => function(arena, f.args, f.result, sort, args),
        },
        _ => built_in(base, arena, sym, sort, args),
    }
}

// a declared function with arguments of the sorts `sorts` and a value of the sort `value`
fn function(arena: &Arena, sorts: &[Sort], value: Sort, sort: Sort, args: &[ExprId]) -> Mark
    requires { All (IsIn arena.now) args.now }
    ensures { result ≡ of_function (Some (sorts.now, value)) sort (sorts_at arena.now args.now) }
{
    same_needed(have_sorts(arena, sorts, args) && value.is(sort))
}

// whether these trees have these sorts
fn have_sorts(arena: &Arena, sorts: &[Sort], args: &[ExprId]) -> bool
    requires { All (IsIn arena.now) args.now }
    ensures { result ≡ sorts_same sorts.now (sorts_at arena.now args.now) }
{
    sorts.len() == args.len() && agree(arena, sorts, args)
}

fn agree(arena: &Arena, sorts: &[Sort], args: &[ExprId]) -> bool
    requires here { All (IsIn arena.now) args.now }
    requires same { length sorts.now ≡ length args.now }
    ensures { result ≡ sorts_agree sorts.now (sorts_at arena.now args.now) }
{
    let mut i: usize = 0;
    while i < args.len() {
        if !sorts[i].is(arena.sort_of(args[i])) {
            return false;
        }
        i += 1;
    }
    true
}

fn built_in(base: &Base, arena: &Arena, sym: Sym, sort: Sort, args: &[ExprId]) -> Mark
    requires { All (IsIn arena.now) args.now }
    ensures { result ≡ built_in_mark base.now sym sort (sorts_at arena.now args.now) }
{
    if sym.places().len() != args.len() {
        return Mark::BadSort;
    }
    if !are_taken(arena, sym, sort, args) {
        return Mark::BadSort;
    }
    class_needed(classes_serve(base, sym, sort))
}

// whether a built-in symbol takes these arguments, whose number is right
fn are_taken(arena: &Arena, sym: Sym, sort: Sort, args: &[ExprId]) -> bool
    requires here { All (IsIn arena.now) args.now }
    requires arity { length (places sym) ≡ length args.now }
    ensures { result ≡ arguments_fit sym sort (sorts_at arena.now args.now) }
{
    let places = sym.places();
    let mut i: usize = 0;
    while i < args.len() {
        if !places[i].takes(sort, arena.sort_of(args[i])) {
            return false;
        }
        i += 1;
    }
    sym.serves(sort)
}

fn classes_serve(base: &Base, sym: Sym, sort: Sort) -> bool
    ensures { result ≡ has_classes base.now sym sort }
{
    match sym {
        Sym::Add | Sym::Nsmul => has(base, sort, Class::AddMonoid),
        Sym::Mul => has(base, sort, Class::Semigroup),
        Sym::Neg | Sym::Sub | Sym::Zsmul => has(base, sort, Class::AddGroup),
        Sym::Inv | Sym::Div | Sym::Zpow => has(base, sort, Class::Group)
            || has(base, sort, Class::Field),
        Sym::Npow => has(base, sort, Class::Monoid),
        Sym::Abs => has(base, sort, Class::Ring) && has(base, sort, Class::IsStrictOrderedRing),
        Sym::Min | Sym::Max => has(base, sort, Class::LinearOrder),
        _ => true,
    }
}
