ghost use Rattle.std.specs.Prelude.{◌≡◌, ◌<◌, ◌++◌, [], ◌∷◌, length, IfOk, OnErr};
ghost use Rattle.alg_syntax.specs.Expressions.{level, is_head};
ghost use Rattle.alg_syntax.specs.Expressions as expressions;
ghost use Rattle.alg_syntax.specs.Nodes.{tree_at, tree_of, IsBelow};

use crate::signs::{Name, Operator};
use alg_expr::Memory;
use std::alloc::Global;
use std::marker::Model;

/// An expression's root, with the numbers of its parts.
#[derive(Drop)]
pub enum Node<'a> {
    Number(bool, u128),
    Name(Name<'a>),
    Group(bool, usize),
    /// An expression in parentheses with its sort.
    Ascribed(bool, usize, Name<'a>),
    Minus(usize),
    Inverse(usize),
    Binary(Operator, usize, usize),
    /// A name with arguments, the last of them apart.
    Apply(usize, usize),
}

/// Expressions by number, each behind its parts. Contracts see the list of them.
#[derive(Drop)]
pub struct Nodes<'a> {
    items: Vec<Node<'a>>,
}

impl<'a> Model for Nodes<'a> {
    ghost use Rattle.std.specs.Prelude.{List};
    ghost use Rattle.std.specs.Coded.{coded_list};
    ghost use Rattle.alg_syntax.specs.Expressions.{Tree};
    ghost use Rattle.alg_syntax.specs.TreeCode.{tree_code};

    ghost Value = { List Tree };

    ghost coded = { coded_list tree_code };

    ghost use Rattle.alg_syntax.specs.Nodes.{trees_of, AllBelow};

    ghost view = { λ n. trees_of n.items.items };

    ghost invariant = { λ n. AllBelow n.items.items };
}

impl<'a> Nodes<'a> {
    pub fn new(alloc: Global) -> Nodes<'a>
        ensures { result ≡ [] }
    {
        Nodes {
            items: Vec::new(alloc),
        }
    }

    pub fn len(&self) -> usize
        ensures { result ≡ length self.now }
    {
        self.items.len()
    }

    /// The root of an expression.
    pub fn get(&self, id: usize) -> &Node<'a>
        requires { id < length self.now }
        ensures tree { tree_at self.now id ≡ tree_of self.now result.now }
        ensures parts { IsBelow id result.now }
    {
        &self.items[id]
    }

    /// Adds an expression of parts that are there.
    pub fn push(&mut self, node: Node<'a>) -> Result<usize, Memory>
        requires { IsBelow (length self.old) node }
        ensures pushed { IfOk result (λ id. (id ≡ length self.old) × (self.new ≡ self.old ++ tree_of self.old node.entry ∷ [])) }
        ensures failed { OnErr result (self.new ≡ self.old) }
    {
        let id = self.items.len();
        self.items.push(node)?;
        Ok(id)
    }

    pub fn level(&self, id: usize) -> u8
        requires { id < length self.now }
        ensures { result ≡ expressions.level (tree_at self.now id) }
    {
        match self.get(id) {
            Node::Number(_, _) => 100,
            Node::Name(_) => 100,
            Node::Group(_, _) => 100,
            Node::Ascribed(_, _, _) => 100,
            Node::Minus(_) => 75,
            Node::Inverse(_) => 100,
            Node::Binary(operator, _, _) => level_of(*operator),
            Node::Apply(_, _) => 76,
        }
    }

    /// Whether the expression may have a further argument.
    pub fn is_head(&self, id: usize) -> bool
        requires { id < length self.now }
        ensures { result ≡ expressions.is_head (tree_at self.now id) }
    {
        match self.get(id) {
            Node::Number(_, _) => false,
            Node::Name(_) => true,
            Node::Group(_, _) => false,
            Node::Ascribed(_, _, _) => false,
            Node::Minus(_) => false,
            Node::Inverse(_) => false,
            Node::Binary(_, _, _) => false,
            Node::Apply(_, _) => true,
        }
    }
}

pub fn level_of(operator: Operator) -> u8
    ensures { result ≡ expressions.level_of (expressions.tier operator) }
{
    match operator {
        Operator::Add => 65,
        Operator::Sub => 65,
        Operator::Mul => 70,
        Operator::Div => 70,
        Operator::Mod => 70,
        Operator::Smul => 73,
        Operator::Pow => 75,
    }
}

/// The least level of the left part.
pub fn left_of(operator: Operator) -> u8
    ensures { result ≡ expressions.left_of (expressions.tier operator) }
{
    match operator {
        Operator::Add => 65,
        Operator::Sub => 65,
        Operator::Mul => 70,
        Operator::Div => 70,
        Operator::Mod => 70,
        Operator::Smul => 75,
        Operator::Pow => 76,
    }
}

/// The least level of the right part.
pub fn right_of(operator: Operator) -> u8
    ensures { result ≡ expressions.right_of (expressions.tier operator) }
{
    match operator {
        Operator::Add => 70,
        Operator::Sub => 70,
        Operator::Mul => 73,
        Operator::Div => 73,
        Operator::Mod => 73,
        Operator::Smul => 73,
        Operator::Pow => 75,
    }
}
