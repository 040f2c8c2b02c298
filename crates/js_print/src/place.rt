//! Where an expression stands, and whether it needs parentheses there.

ghost use Rattle.std.specs.Prelude.{◌≡◌};
ghost use Rattle.js_print.specs.Places.{is_simple, is_in_test, is_braced, begins_as_statement, is_bare};

use js_core::{BinaryOp, Expr, ExprNode};

/// Where an expression stands.
#[derive(Clone, Copy, PartialEq, Eq)]
pub enum Place {
    /// An operand, a callee or a target.
    Operand,
    /// The object of a property.
    Base,
    /// The callee of `new`.
    Constructor,
    /// One of several in a list, a value that is assigned, or a name of a property.
    Part,
    /// The whole of a header, or what `return` or `throw` hands on.
    Whole,
    /// An expression statement.
    Statement,
}

/// Whether an expression stands in this place without parentheses.
pub fn is_bare(place: Place, expression: &Expr) -> bool
    ensures { result ≡ is_bare place expression.now }
{
    match place {
        Place::Operand => is_simple(expression),
        Place::Base => is_simple(expression) && !matches!(&expression.node, ExprNode::Num(_)),
        Place::Constructor => matches!(&expression.node, ExprNode::Name(_)),
        Place::Part => !is_in_test(expression) && !matches!(&expression.node, ExprNode::Comma(_)),
        Place::Whole => !is_in_test(expression),
        Place::Statement => !is_in_test(expression) && !begins_as_statement(expression),
    }
}

fn is_simple(expression: &Expr) -> bool
    ensures { result ≡ is_simple expression.now }
{
    match &expression.node {
        ExprNode::Name(_)
        | ExprNode::Num(_)
        | ExprNode::Text(_)
        | ExprNode::Bool(_)
        | ExprNode::Null
        | ExprNode::This
        | ExprNode::List(_)
        | ExprNode::Member(_, _)
        | ExprNode::Index(_, _)
        | ExprNode::Call(_, _) => true,
        _ => false,
    }
}

fn is_in_test(expression: &Expr) -> bool
    ensures { result ≡ is_in_test expression.now }
{
    matches!(&expression.node, ExprNode::Binary(BinaryOp::Within, _, _))
}

fn begins_as_statement(expression: &Expr) -> bool
    ensures { result ≡ begins_as_statement expression.now }
{
    match &expression.node {
        ExprNode::Comma(parts) => match parts.as_slice() {
            [first, ..] => is_braced(first),
            [] => false,
        },
        _ => is_braced(expression),
    }
}

fn is_braced(expression: &Expr) -> bool
    ensures { result ≡ is_braced expression.now }
{
    matches!(&expression.node, ExprNode::Literal(_) | ExprNode::Func(_))
}
