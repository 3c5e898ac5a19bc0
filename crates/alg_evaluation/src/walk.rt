ghost use Rattle.std.specs.Prelude.{◌≡◌, ◌<◌, [], ◌∷◌, ◌++◌, IfOk, get_or, length, false, true};
ghost use Rattle.alg_terms.specs.Tree.{sort_of_tree};
ghost use Rattle.alg_expr.specs.Ids.{tree_of, IsIn};
ghost use Rattle.alg_lemma.specs.Library.{HoldsLibrary};
ghost use Rattle.alg_build.specs.Book.{Grows, nothing};
ghost use Rattle.alg_build.specs.Rewriting.{Stands};
ghost use Rattle.alg_marks.specs.Marks.{AreWanted};
ghost use Rattle.alg_marks.specs.Walks.{HasPartsAt};
ghost use Rattle.alg_values.specs.Setting.{nothing_covered};
ghost use Rattle.alg_exts.specs.Covers.{covered_by};
ghost use Rattle.alg_evaluation.specs.Found.{AreFound, IsFound, absent};

use crate::found::Found;
use crate::gathering::gathered;
use crate::head::Head;
use crate::leaves::{literal, valueless};
use crate::nodes::applied;
use alg_build::Builder;
use alg_expr::{ExprId, Memory, View};
use alg_exts::NumExt;

// what is found of a tree, of whose parts it is found
fn node(
    cx: &mut Builder,
    found: &[Found],
    e: ExprId,
    exts: &[Box<dyn NumExt>],
    on: &[bool],
) -> Result<Found, Memory>
    requires even { length on.now ≡ length exts.now }
    requires stands { Stands cx.old (sort_of_tree (tree_of cx.old.trees e)) e (tree_of cx.old.trees e) }
    requires lemmas { HoldsLibrary cx.old.theory.lemmas }
    requires parts { HasPartsAt (IsFound (covered_by (λ x f. covered x f) exts.now on.now)) absent cx.old found.now e }
    ensures found { IfOk result (λ f. IsFound (covered_by (λ x f. covered x f) exts.now on.now) cx.new (tree_of cx.old.trees e) f) }
    ensures grows { Grows cx.old cx.new }
{
    let alloc = cx.alloc();
    match cx.arena().view(e) {
        View::Lit { sort, value } => Ok(literal(cx, e, sort, value)),
        View::Var { .. } => Ok(valueless(e)),
        View::App { sym, sort, args } => {
            let parts = gathered(alloc, found, args)?;
            let head = Head { expr: e, sym, sort };
            applied(cx, head, parts.as_slice(), exts, on)
        }
    }
}

// what is found of the next tree, if it is wanted
fn next(
    cx: &mut Builder,
    wanted: &[bool],
    found: &[Found],
    exts: &[Box<dyn NumExt>],
    on: &[bool],
) -> Result<Found, Memory>
    requires even { length on.now ≡ length exts.now }
    requires wanted { AreWanted cx.old wanted.now }
    requires lemmas { HoldsLibrary cx.old.theory.lemmas }
    requires found { AreFound (covered_by (λ x f. covered x f) exts.now on.now) cx.old wanted.now found.now }
    requires room { length found.now < length wanted.now }
    ensures found { IfOk result (λ f. get_or wanted.now (length found.now) false ≡ true → IsFound (covered_by (λ x f. covered x f) exts.now on.now) cx.new (get_or cx.old.trees (length found.now) nothing) f) }
    ensures grows { Grows cx.old cx.new }
{
    let number = found.len();
    let e = cx.arena().id(number);
    if !wanted[number] {
        return Ok(valueless(e));
    }
    let f = node(cx, found, e, exts, on)?;
    Ok(f)
}

fn push(found: &mut Vec<Found>, f: Found) -> Result<(), Memory>
    ensures { IfOk result (λ _. found.new.items ≡ found.old.items ++ f ∷ []) }
{
    match found.push(f) {
        Ok(()) => Ok(()),
        Err(_) => Err(Memory),
    }
}

/// What is found of the wanted trees, by the numbers of their ids: their values by the extensions that are on. The others
/// have an entry too, of which nothing is said. Lines and atoms may be new, also after a fault.
pub fn all_found(
    cx: &mut Builder,
    wanted: &[bool],
    exts: &[Box<dyn NumExt>],
    on: &[bool],
) -> Result<Vec<Found>, Memory>
    requires even { length on.now ≡ length exts.now }
    requires wanted { AreWanted cx.old wanted.now }
    requires lemmas { HoldsLibrary cx.old.theory.lemmas }
    ensures found { IfOk result (λ v. AreFound (covered_by (λ x f. covered x f) exts.now on.now) cx.new wanted.now v.items) }
    ensures all { IfOk result (λ v. length v.items ≡ length wanted.now) }
    ensures grows { Grows cx.old cx.new }
{
    let mut found: Vec<Found> = Vec::new(cx.alloc());
    for _ in 0..wanted.len() {
        let f = next(cx, wanted, found.as_slice(), exts, on)?;
        push(&mut found, f)?;
    }
    Ok(found)
}

/// What is found of the wanted trees where no named function is covered.
pub fn all_found_alone(cx: &mut Builder, wanted: &[bool]) -> Result<Vec<Found>, Memory>
    requires wanted { AreWanted cx.old wanted.now }
    requires lemmas { HoldsLibrary cx.old.theory.lemmas }
    ensures found { IfOk result (λ v. AreFound nothing_covered cx.new wanted.now v.items) }
    ensures all { IfOk result (λ v. length v.items ≡ length wanted.now) }
    ensures grows { Grows cx.old cx.new }
{
    let found = all_found(cx, wanted, &[], &[])?;
    Ok(found)
}
