ghost use Rattle.std.specs.Prelude.{◌≡◌, ◌++◌, ◌<◌, All, OnOk, length, MatchOption, [], ◌∷◌};
ghost use Rattle.alg_terms.specs.Tree.{of_list};
ghost use Rattle.alg_expr.specs.Ids.{IsIn, tree_of, trees_at};
ghost use Rattle.alg_certificate.specs.Spelling.{bytes, spell, spell_items, trees_before};
ghost use Rattle.alg_certificate.specs.InRange.{TreeInRange, TreesInRange};
ghost use Rattle.alg_certificate.specs.Pending.{pending, rest_of_node, AreInside, AreInRange};

use crate::writing::{put, put_index, put_number, put_sort, put_symbol};
use alg_expr::{Arena, ExprId, Memory, View};

// Writes a tree up to its first argument, and opens it where it has arguments to come.
fn begin_tree<'a>(
    arena: &'a Arena,
    id: ExprId,
    nodes: &mut Vec<&'a [ExprId]>,
    text: &mut Vec<u8>,
) -> Result<(), Memory>
    requires inside { IsIn arena.now id }
    requires nodes_inside { AreInside arena.now nodes.old.items }
    ensures written { OnOk result (text.new.items ++ pending arena.now nodes.new.items ≡ text.old.items ++ (bytes (spell (tree_of arena.now id)) ++ pending arena.now nodes.old.items)) }
    ensures grown { OnOk result (length text.old.items < length text.new.items) }
    ensures new_inside { OnOk result (AreInside arena.now nodes.new.items) }
    ensures in_range { OnOk result (AreInRange arena.now nodes.new.items → TreeInRange (tree_of arena.now id) × AreInRange arena.now nodes.old.items) }
{
    match arena.view(id) {
        View::Lit { sort, value } => {
            put(text, b"#")?;
            put_sort(text, sort)?;
            put(text, b":")?;
            put_number(text, value)?;
            Ok(())
        }
        View::Var { decl, .. } => {
            put(text, b"$")?;
            put_index(text, decl)?;
            Ok(())
        }
        View::App { sym, args, .. } => {
            put(text, b"(")?;
            put_symbol(text, sym)?;
            nodes.push(args)?;
            Ok(())
        }
    }
}

// The first id, and the rest.
fn split_ids(ids: &[ExprId]) -> Option<(ExprId, &[ExprId])>
    ensures { MatchOption result (ids.now ≡ []) (λ x. ids.now ≡ x.0 ∷ x.1.now) }
{
    match ids.split_first() {
        Some((first, rest)) => Some((*first, rest)),
        None => None,
    }
}

// Writes a node's next argument, or its end.
fn go_on<'a>(
    arena: &'a Arena,
    left: &'a [ExprId],
    nodes: &mut Vec<&'a [ExprId]>,
    text: &mut Vec<u8>,
) -> Result<(), Memory>
    requires inside { All (IsIn arena.now) left.now }
    requires nodes_inside { AreInside arena.now nodes.old.items }
    ensures written { OnOk result (text.new.items ++ pending arena.now nodes.new.items ≡ text.old.items ++ (rest_of_node arena.now left.now ++ pending arena.now nodes.old.items)) }
    ensures grown { OnOk result (length text.old.items < length text.new.items) }
    ensures new_inside { OnOk result (AreInside arena.now nodes.new.items) }
    ensures in_range { OnOk result (AreInRange arena.now nodes.new.items → TreesInRange (of_list (trees_at arena.now left.now)) × AreInRange arena.now nodes.old.items) }
{
    match split_ids(left) {
        None => put(text, b")"),
        Some((id, rest)) => {
            nodes.push(rest)?;
            put(text, b" ")?;
            begin_tree(arena, id, nodes, text)?;
            Ok(())
        }
    }
}

// The tree's text.
pub(crate) fn put_tree(arena: &Arena, id: ExprId, text: &mut Vec<u8>) -> Result<(), Memory>
    requires { IsIn arena.now id }
    ensures written { OnOk result (text.new.items ≡ text.old.items ++ bytes (spell (tree_of arena.now id))) }
    ensures in_range { OnOk result (TreeInRange (tree_of arena.now id)) }
{
    let mut nodes: Vec<&[ExprId]> = Vec::new(arena.alloc());
    begin_tree(arena, id, &mut nodes, text)?;
    'steps: while let Some(left) = nodes.pop() {
        go_on(arena, left, &mut nodes, text)?;
    }
    Ok(())
}

// The trees' texts, each behind a blank.
pub(crate) fn put_trees(arena: &Arena, ids: &[ExprId], text: &mut Vec<u8>) -> Result<(), Memory>
    requires { All (IsIn arena.now) ids.now }
    ensures written { OnOk result (text.new.items ≡ text.old.items ++ bytes (spell_items (trees_before (trees_at arena.now ids.now) []))) }
    ensures in_range { OnOk result (All TreeInRange (trees_at arena.now ids.now)) }
{
    let mut left = ids;
    'ids: while let Some((id, rest)) = split_ids(left) {
        put(text, b" ")?;
        put_tree(arena, id, text)?;
        left = rest;
    }
    Ok(())
}
