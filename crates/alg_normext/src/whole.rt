//! The value of a function of whole numbers, by one computation.
ghost use Rattle.std.specs.Prelude.{◌≡◌, ◌∷◌, [], List, map, IfOk, true};
ghost use Rattle.alg_terms.specs.Symbols.{is_integral};
ghost use Rattle.alg_terms.specs.Tree.{Tree, App, of_list, sort_of_tree};
ghost use Rattle.alg_expr.specs.Ids.{tree_of};
ghost use Rattle.alg_law.specs.Having.{has_class};
ghost use Rattle.alg_lemma.specs.Library.{HoldsLibrary};
ghost use Rattle.alg_proof.specs.Computations.{numerals_at};
ghost use Rattle.alg_build.specs.Book.{Grows, Proves};
ghost use Rattle.alg_build.specs.Computing.{Computes};
ghost use Rattle.alg_build.specs.Rewriting.{AllProve, Heads, Turns};
ghost use Rattle.alg_values.specs.Functions.{named_of};
ghost use Rattle.alg_values.specs.Numerals.{numeral_tree};
ghost use Rattle.alg_exts.specs.Valuing.{IsCalled, IsValued, GivesValue, value_over, trees_of, fractions_of};
ghost use Rattle.alg_normext.specs.Functions.{is_whole_function};
ghost use Rattle.alg_normext.specs.Wholes.{IsWhole, HasWholeValue, IsReady, IsWorth};

use crate::heads::{Head, head_of};
use alg_build::over_parts::over_all;
use alg_build::{Builder, Memory, Rewriting, by_line, line_of, then};
use alg_expr::{ExprId, Sort};
use alg_exts::{NumFault, Valued};
use alg_law::Base;
use alg_num::Frac;
use alg_values::{Value, named};

fn value_at(base: &Base, head: Head, args: &[Valued]) -> Value
    ensures { result ≡ named_of (has_class base.now) head.sym head.sort (fractions_of args.now) }
{
    match args {
        [a] => named(base, head.sym, head.sort, &[a.value]),
        [a, b] => named(base, head.sym, head.sort, &[a.value, b.value]),
        _ => Value::Without,
    }
}

// the whole number that a tree of ℕ or ℤ is worth
fn number(cx: &Builder, sort: Sort, v: &Valued) -> i128
    requires valued { IsValued cx.now v.now }
    requires sort { sort_of_tree (tree_of cx.now.trees v.now.expr) ≡ sort }
    requires integral { is_integral sort ≡ true }
    ensures number { result ≡ v.now.value.numerator }
    ensures whole { IsWhole cx.now sort v.now }
{
    // says that the numeral is well sorted
    let _numeral = cx.concluded(v.line);
    v.value.num()
}

// the function of these numerals equals its value
fn computed(
    cx: &mut Builder,
    head: Head,
    numbers: &[i128],
    value: Frac,
) -> Result<Rewriting, Memory>
    requires computes { Computes cx.old head.sym head.sort numbers.now }
    requires value { HasWholeValue head numbers.now value }
    ensures turns { IfOk result (λ q. Turns cx.new head.sort q (App head.sym head.sort (of_list (numerals_at head.sort numbers.now))) (numeral_tree head.sort value)) }
    ensures grows { Grows cx.old cx.new }
{
    let line = cx.compute(head.sym, head.sort, numbers)?;
    Ok(by_line(cx, line))
}

// the function of trees equals its value, where the lines say which numerals the trees equal
fn line_from(
    cx: &mut Builder,
    head: Head,
    lines: &[usize],
    numbers: &[i128],
    value: Frac,
) -> Result<usize, Memory>
    requires { IsReady cx.old head lines.now numbers.now value }
    ensures proves { IfOk result (λ n. (ts : List Tree) → AllProve cx.old lines.now ts (numerals_at head.sort numbers.now) → Heads cx.old head.sym head.sort (map sort_of_tree ts) → Proves cx.new n (App head.sym head.sort (of_list ts)) (numeral_tree head.sort value)) }
    ensures grows { Grows cx.old cx.new }
{
    let r = over_all(cx, head.sym, lines)?;
    let s = computed(cx, head, numbers, value)?;
    let q = then(cx, r, s)?;
    let line = line_of(cx, q)?;
    Ok(line)
}

fn line_over_one(cx: &mut Builder, head: Head, a: &Valued, value: Frac) -> Result<usize, Memory>
    requires { IsWorth cx.old head (a.now ∷ []) value }
    ensures proves { IfOk result (λ n. Proves cx.new n (App head.sym head.sort (of_list (trees_of cx.old (a.now ∷ [])))) (numeral_tree head.sort value)) }
    ensures grows { Grows cx.old cx.new }
{
    let x = number(cx, head.sort, a);
    let line = line_from(cx, head, &[a.line], &[x], value)?;
    Ok(line)
}

fn line_over_two(
    cx: &mut Builder,
    head: Head,
    a: &Valued,
    b: &Valued,
    value: Frac,
) -> Result<usize, Memory>
    requires { IsWorth cx.old head (a.now ∷ b.now ∷ []) value }
    ensures proves { IfOk result (λ n. Proves cx.new n (App head.sym head.sort (of_list (trees_of cx.old (a.now ∷ b.now ∷ [])))) (numeral_tree head.sort value)) }
    ensures grows { Grows cx.old cx.new }
{
    let x = number(cx, head.sort, a);
    let y = number(cx, head.sort, b);
    let line = line_from(cx, head, &[a.line, b.line], &[x, y], value)?;
    Ok(line)
}

// a line for the function over evaluated parts
fn line_over(cx: &mut Builder, head: Head, args: &[Valued], value: Frac) -> Result<usize, Memory>
    requires { IsWorth cx.old head args.now value }
    ensures proves { IfOk result (λ n. Proves cx.new n (App head.sym head.sort (of_list (trees_of cx.old args.now))) (numeral_tree head.sort value)) }
    ensures grows { Grows cx.old cx.new }
{
    match args {
        [a] => line_over_one(cx, head, a, value),
        [a, b] => line_over_two(cx, head, a, b, value),
        _ => unreachable!(),
    }
}

/// The value of a function of whole numbers over evaluated parts, with three lines: the parts become numerals, then the
/// function over these becomes its value.
#[tactic(auto, using(crate::proofs::Wholes::wholes))]
pub(crate) fn whole_value(
    cx: &mut Builder,
    e: ExprId,
    args: &[Valued],
) -> Result<Option<Valued>, NumFault>
    requires called { IsCalled cx.old is_whole_function e args.now }
    requires lemmas { HoldsLibrary cx.old.theory.lemmas }
    ensures gives { GivesValue cx.new e result (value_over (has_class cx.old.theory.declarations) (tree_of cx.old.trees e) (fractions_of args.now)) }
    ensures grows { Grows cx.old cx.new }
{
    let head = head_of(cx, e);
    match value_at(cx.base(), head, args) {
        Value::Num(value) => {
            let line = line_over(cx, head, args, value)?;
            Ok(Some(Valued {
                expr: e,
                value,
                line,
            }))
        }
        Value::Past => Err(NumFault::Range),
        Value::Without => Ok(None),
    }
}
