use crate::expressions::{Expression, read_expression};
use crate::front::Tokens;
use crate::nodes::Node;
use crate::signs::Operator;
use alg_lex::{Lexer, Token};
use std::alloc::Global;
use std::process::Abort;
use std::test::Fail;

fn tokens<'a>(rt: &impl Abort, alloc: Global, text: &'a str) -> Result<Vec<Token<'a>>, Fail> {
    assert!(rt; text.len() <= 1 << 24);
    let mut lexer = Lexer::new(text);
    let mut found = Vec::new(alloc);
    for _ in 0..5000 {
        match lexer.next() {
            Ok(Some(token)) => found.push(token)?,
            Ok(None) => return Ok(found),
            Err(_) => assert!(rt; false, "a fault in {text}"),
        }
    }
    Ok(found)
}

fn written_operator(operator: Operator) -> &'static str {
    match operator {
        Operator::Add => "+",
        Operator::Sub => "-",
        Operator::Mul => "*",
        Operator::Div => "/",
        Operator::Mod => "%",
        Operator::Smul => "•",
        Operator::Pow => "^",
    }
}

// The nodes in order: each operator behind its parts.
fn postfix<'a>(alloc: Global, expression: &Expression<'a>) -> Result<String, Fail> {
    let (_, nodes) = expression.nodes();
    let mut out = String::new(alloc);
    for id in 0..nodes.len() {
        match nodes.get(id) {
            Node::Number(_, value) => out.push_str(&format!(in alloc; "{value}")?)?,
            Node::Name(name) => out.push_str(name.text())?,
            Node::Group(_, _) => out.push_str("()")?,
            Node::Ascribed(_, _, sort) => {
                out.push_str(":")?;
                out.push_str(sort.text())?;
            }
            Node::Minus(_) => out.push_str("neg")?,
            Node::Inverse(_) => out.push_str("⁻¹")?,
            Node::Binary(operator, _, _) => out.push_str(written_operator(*operator))?,
            Node::Apply(_, _) => out.push_str("@")?,
        }
        out.push_str(" ")?;
    }
    Ok(out)
}

fn read<'a>(
    rt: &impl Abort,
    alloc: Global,
    tokens: &[Token<'a>],
    text: &str,
) -> Result<Expression<'a>, Fail> {
    let mut left = Tokens::of(tokens);
    let found = read_expression(alloc, &mut left)?;
    assert!(rt; left.first().is_none(), "not all of {text} was read");
    Ok(found.ok_or("no expression")?)
}

#[test]
fn precedences(rt: HostRuntime) -> Result<(), Fail> {
    let alloc = rt.alloc();
    let table = [
        ("a - b - c", "a b - c - "),
        ("a * b % c + d / e", "a b * c % d e / + "),
        ("-a ^ 2", "a 2 ^ neg "),
        ("(-a) ^ 2", "a neg () 2 ^ "),
        ("a ^ b ^ c", "a b c ^ ^ "),
        ("a ^ -b", "a b neg ^ "),
        ("2 • a ^ 2⁻¹", "2 a 2 ⁻¹ ^ • "),
        ("n • m • a * b", "n m a • • b * "),
        ("-n • a", "n neg a • "),
        ("f x y⁻¹", "f x @ y ⁻¹ @ "),
        ("f (a) b", "f a () @ b @ "),
        ("f -x", "f x - "),
        ("(a + 1 : ℤ)⁻¹", "a 1 + :ℤ ⁻¹ "),
    ];
    for (text, want) in table {
        let tokens = tokens(&rt, alloc, text)?;
        let expression = read(&rt, alloc, &tokens, text)?;
        let found = postfix(alloc, &expression)?;
        assert!(rt; found.as_str() == want, "{text} was read as {found}");
    }
    Ok(())
}
