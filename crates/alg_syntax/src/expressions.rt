ghost use Rattle.std.specs.Prelude.{◌≡◌, ℕ, ◌+◌, ◌*◌, ◌≤◌, ◌<◌, List, ◌∷◌, length, true, not, nat_le, ◌&&◌, IfOk, IfSome};
ghost use Rattle.std.specs.Prelude.{reverse, option_map, option_and_then};
ghost use Rattle.alg_syntax.specs.declared.expressions.Turn.TheVariants as turn;
ghost use Rattle.alg_syntax.specs.Expressions.{Tree, is_head};
ghost use Rattle.alg_syntax.specs.Nodes.{tree_at, tree_of, IsBelow, Grows};
ghost use Rattle.alg_syntax.specs.Machine.{Run, takes, first_at, longer_at, whole_at, sort_first, wrapped, read_expression};
ghost use Rattle.alg_syntax.specs.Frames.{frame_of, frames_of, mode_of, FrameIn, FramesIn, TurnIn, turns_left};

use crate::front::Tokens;
use crate::nodes::{Node, Nodes, left_of, level_of, right_of};
use crate::signs::{Fixed, Name, Operator, Sign};
use alg_expr::Memory;
use std::alloc::Global;
use std::marker::Model;

// A part that waits for a further part, and at which level.
#[derive(Clone, Copy)]
enum Waiting {
    Minus(u8),
    Right(u8, usize, Operator),
    Argument(u8, usize),
    Group(u8, bool),
}

// To read a part of a level, or to go on with one.
#[derive(Clone, Copy)]
enum Turn {
    Begin(u8),
    Go(u8, usize),
}

fn may_be_argument<'a>(nodes: &Nodes<'a>, at_least: u8, head: usize, begins_line: bool) -> bool
    requires { head < length nodes.now }
    ensures { result ≡ (nat_le at_least 76 && (is_head (tree_at nodes.now head) && not begins_line)) }
{
    at_least <= 76 && (nodes.is_head(head) && !begins_line)
}

// Whether the expression goes on with the next token.
fn takes<'a>(nodes: &Nodes<'a>, at_least: u8, lhs: usize, left: &Tokens<'_, 'a>) -> bool
    requires { lhs < length nodes.now }
    ensures { result ≡ takes at_least (tree_at nodes.now lhs) left.now }
{
    match left.first() {
        Some(Sign::Number(begins_line, _)) => may_be_argument(nodes, at_least, lhs, begins_line),
        Some(Sign::Name(name)) => may_be_argument(nodes, at_least, lhs, name.begins_line()),
        Some(Sign::Open(begins_line)) => may_be_argument(nodes, at_least, lhs, begins_line),
        Some(Sign::Operator(o)) => at_least <= level_of(o) && left_of(o) <= nodes.level(lhs),
        Some(Sign::Inverse) => 100 <= nodes.level(lhs),
        _ => false,
    }
}

// Adds a part, where others wait.
fn add<'a>(nodes: &mut Nodes<'a>, waiting: &[Waiting], node: Node<'a>) -> Result<usize, Memory>
    requires node { IsBelow (length nodes.old) node }
    requires frames { FramesIn (length nodes.old) (reverse waiting.now) }
    ensures tree { IfOk result (λ id. tree_at nodes.new id ≡ tree_of nodes.old node.entry) }
    ensures frames { IfOk result (λ id. frames_of nodes.new (reverse waiting.now) ≡ frames_of nodes.old (reverse waiting.now)) }
    ensures within { IfOk result (λ id. (id < length nodes.new) × FramesIn (length nodes.new) (reverse waiting.now)) }
    ensures grows { Grows nodes.old nodes.new }
{
    nodes.push(node)
}

// What a part's first token asks for.
fn begin<'a>(
    nodes: &mut Nodes<'a>,
    waiting: &mut Vec<Waiting>,
    at_least: u8,
    left: &mut Tokens<'_, 'a>,
) -> Result<Option<Turn>, Memory>
    requires { FramesIn (length nodes.old) (reverse waiting.old.items) }
    ensures exact { IfOk result (λ o. (k : Run) → first_at k at_least (frames_of nodes.old (reverse waiting.old.items)) left.old ≡ option_and_then (λ x. k (mode_of nodes.new x) (frames_of nodes.new (reverse waiting.new.items)) left.new) o) }
    ensures grows { Grows nodes.old nodes.new }
    ensures within { IfOk result (λ o. IfSome o (λ x. TurnIn (length nodes.new) x × FramesIn (length nodes.new) (reverse waiting.new.items))) }
    ensures smaller { IfOk result (λ o. IfSome o (λ x. turns_left x waiting.new.items left.new < turns_left (turn.Begin at_least) waiting.old.items left.old)) }
{
    let Some(sign) = left.next() else {
        return Ok(None);
    };
    match sign {
        Sign::Number(begins_line, value) => {
            let id = add(nodes, waiting, Node::Number(begins_line, value))?;
            Ok(Some(Turn::Go(at_least, id)))
        }
        Sign::Name(name) => {
            let id = add(nodes, waiting, Node::Name(name))?;
            Ok(Some(Turn::Go(at_least, id)))
        }
        Sign::Open(begins_line) => {
            waiting.push(Waiting::Group(at_least, begins_line))?;
            Ok(Some(Turn::Begin(65)))
        }
        Sign::Operator(Operator::Sub) => {
            if at_least > 75 {
                return Ok(None);
            }
            waiting.push(Waiting::Minus(at_least))?;
            Ok(Some(Turn::Begin(75)))
        }
        _ => Ok(None),
    }
}

// Goes on with a part by the next token.
fn longer<'a>(
    nodes: &mut Nodes<'a>,
    waiting: &mut Vec<Waiting>,
    at_least: u8,
    lhs: usize,
    left: &mut Tokens<'_, 'a>,
) -> Result<Option<Turn>, Memory>
    requires frames { FramesIn (length nodes.old) (reverse waiting.old.items) }
    requires lhs { lhs < length nodes.old }
    requires takes { takes at_least (tree_at nodes.old lhs) left.old ≡ true }
    ensures exact { IfOk result (λ o. (k : Run) → longer_at k at_least (tree_at nodes.old lhs) (frames_of nodes.old (reverse waiting.old.items)) left.old ≡ option_and_then (λ x. k (mode_of nodes.new x) (frames_of nodes.new (reverse waiting.new.items)) left.new) o) }
    ensures grows { Grows nodes.old nodes.new }
    ensures within { IfOk result (λ o. IfSome o (λ x. TurnIn (length nodes.new) x × FramesIn (length nodes.new) (reverse waiting.new.items))) }
    ensures smaller { IfOk result (λ o. IfSome o (λ x. turns_left x waiting.new.items left.new < turns_left (turn.Go at_least lhs) waiting.old.items left.old)) }
{
    match left.first() {
        Some(Sign::Operator(operator)) => {
            left.skip();
            waiting.push(Waiting::Right(at_least, lhs, operator))?;
            Ok(Some(Turn::Begin(right_of(operator))))
        }
        Some(Sign::Inverse) => {
            left.skip();
            let id = add(nodes, waiting, Node::Inverse(lhs))?;
            Ok(Some(Turn::Go(at_least, id)))
        }
        _ => {
            waiting.push(Waiting::Argument(at_least, lhs))?;
            Ok(Some(Turn::Begin(100)))
        }
    }
}

// `: Name )`
fn sort_first<'a>(left: &mut Tokens<'_, 'a>) -> Option<Name<'a>>
    ensures { option_map (λ n. (n, left.new)) result ≡ sort_first left.old }
{
    if !left.skip_fixed(Fixed::Colon) {
        return None;
    }
    let sort = left.take_name()?;
    if !left.skip_close() {
        return None;
    }
    Some(sort)
}

// What a parenthesis before the part makes with what follows it.
fn wrap<'a>(begins_line: bool, part: usize, left: &mut Tokens<'_, 'a>) -> Option<Node<'a>>
    ensures exact { (ts : List Tree) → option_map (λ n. (tree_of ts n, left.new)) result ≡ wrapped begins_line (tree_at ts part) left.old }
    ensures below { IfSome result (λ n. (k : ℕ) → part < k → IsBelow k n) }
    ensures smaller { IfSome result (λ n. length left.new < length left.old) }
{
    match left.first() {
        Some(Sign::Close) => {
            left.skip();
            Some(Node::Group(begins_line, part))
        }
        Some(Sign::Fixed(_)) => match sort_first(left) {
            Some(sort) => Some(Node::Ascribed(begins_line, part, sort)),
            None => None,
        },
        _ => None,
    }
}

// Gives a whole part to what waited for it.
fn close<'a>(
    nodes: &mut Nodes<'a>,
    waiting: &[Waiting],
    last: Waiting,
    part: usize,
    left: &mut Tokens<'_, 'a>,
) -> Result<Option<Turn>, Memory>
    requires frames { FramesIn (length nodes.old) (reverse waiting.now) }
    requires last { FrameIn (length nodes.old) last }
    requires part { part < length nodes.old }
    ensures exact { IfOk result (λ o. (k : Run) → whole_at k (tree_at nodes.old part) (frame_of nodes.old last ∷ frames_of nodes.old (reverse waiting.now)) left.old ≡ option_and_then (λ x. k (mode_of nodes.new x) (frames_of nodes.new (reverse waiting.now)) left.new) o) }
    ensures grows { Grows nodes.old nodes.new }
    ensures within { IfOk result (λ o. IfSome o (λ x. TurnIn (length nodes.new) x × FramesIn (length nodes.new) (reverse waiting.now))) }
    ensures smaller { IfOk result (λ o. IfSome o (λ x. turns_left x waiting.now left.new ≤ 3 * length left.old + length waiting.now + 2)) }
{
    match last {
        Waiting::Minus(m) => {
            let id = add(nodes, waiting, Node::Minus(part))?;
            Ok(Some(Turn::Go(m, id)))
        }
        Waiting::Right(m, lhs, operator) => {
            let id = add(nodes, waiting, Node::Binary(operator, lhs, part))?;
            Ok(Some(Turn::Go(m, id)))
        }
        Waiting::Argument(m, head) => {
            let id = add(nodes, waiting, Node::Apply(head, part))?;
            Ok(Some(Turn::Go(m, id)))
        }
        Waiting::Group(m, begins_line) => {
            let Some(node) = wrap(begins_line, part, left) else {
                return Ok(None);
            };
            let id = add(nodes, waiting, node)?;
            Ok(Some(Turn::Go(m, id)))
        }
    }
}

// Reads the longest expression at the front of the tokens, and answers its number.
fn read_nodes<'a>(
    alloc: Global,
    nodes: &mut Nodes<'a>,
    left: &mut Tokens<'_, 'a>,
) -> Result<Option<usize>, Memory>
    ensures exact { IfOk result (λ o. option_map (λ id. (tree_at nodes.new id, left.new)) o ≡ read_expression left.old) }
    ensures within { IfOk result (λ o. IfSome o (λ id. id < length nodes.new)) }
{
    let mut waiting: Vec<Waiting> = Vec::new(alloc);
    let mut turn = Turn::Begin(65);
    'reading: loop {
        match turn {
            Turn::Begin(at_least) => {
                let Some(then) = begin(nodes, &mut waiting, at_least, left)? else {
                    return Ok(None);
                };
                turn = then;
            }
            Turn::Go(at_least, part) => {
                if takes(nodes, at_least, part, left) {
                    let Some(then) = longer(nodes, &mut waiting, at_least, part, left)? else {
                        return Ok(None);
                    };
                    turn = then;
                } else {
                    let Some(last) = waiting.pop() else {
                        return Ok(Some(part));
                    };
                    let Some(then) = close(nodes, &waiting, last, part, left)? else {
                        return Ok(None);
                    };
                    turn = then;
                }
            }
        }
    }
}

/// An expression as it is written. Contracts see its tree.
#[derive(Drop)]
pub struct Expression<'a> {
    nodes: Nodes<'a>,
    root: usize,
}

impl<'a> Model for Expression<'a> {
    ghost use Rattle.alg_syntax.specs.Expressions.{Tree};
    ghost use Rattle.alg_syntax.specs.TreeCode.{tree_code};

    ghost Value = { Tree };

    ghost coded = { tree_code };

    ghost use Rattle.std.specs.Prelude.{◌<◌, length};
    ghost use Rattle.alg_syntax.specs.Nodes.{tree_at};

    ghost view = { λ e. tree_at e.nodes e.root };

    ghost invariant = { λ e. e.root < length e.nodes };
}

impl<'a> Expression<'a> {
    /// The root, and the parts by number, each behind its own parts.
    pub fn nodes(&self) -> (usize, &Nodes<'a>)
        ensures root { result.0 < length result.1.now }
        ensures tree { tree_at result.1.now result.0 ≡ self.now }
    {
        (self.root, &self.nodes)
    }
}

/// Reads the longest expression at the front of the tokens.
pub fn read_expression<'a>(
    alloc: Global,
    left: &mut Tokens<'_, 'a>,
) -> Result<Option<Expression<'a>>, Memory>
    ensures { IfOk result (λ o. option_map (λ e. (e, left.new)) o ≡ read_expression left.old) }
{
    let mut nodes = Nodes::new(alloc);
    match read_nodes(alloc, &mut nodes, left)? {
        Some(root) => Ok(Some(Expression { nodes, root })),
        None => Ok(None),
    }
}
