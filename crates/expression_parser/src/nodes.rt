//! Builders of expressions. Each refuses a tree that is higher than the limit.

ghost use Rattle.std.specs.Prelude.{◌≡◌};
ghost use Rattle.js_core.specs.Tree as tree;
ghost use Rattle.js_core.specs.Tree.{exprs_of, holes_of, fields_of, stmts_of, code};
ghost use Rattle.js_grammar.specs.Operators as operators;
ghost use Rattle.expression_parser.specs.Inside.{Builds};

use crate::fault::ParseFault;
use crate::height::check_height;
use js_core::{
    BinaryOp, Code, Expr, ExprNode, Stmt, UnaryOp, Units, exprs_height, fields_height, holes_height,
};
use js_grammar::{Infix, Prefix};
use std::alloc::Global;
use std::rc::Rc;

/// An array literal; `None` is an absent element.
pub fn list(elements: Vec<Option<Expr>>) -> Result<Expr, ParseFault>
    ensures { Builds (tree.list (holes_of elements.items)) result }
{
    check_height(holes_height(elements.as_slice()) + 1)?;
    Ok(Expr::new(ExprNode::List(elements)))
}

/// An object literal.
pub fn literal(fields: Vec<(Units, Expr)>) -> Result<Expr, ParseFault>
    ensures { Builds (tree.literal (fields_of fields.items)) result }
{
    check_height(fields_height(fields.as_slice()) + 1)?;
    Ok(Expr::new(ExprNode::Literal(fields)))
}

/// A function's name, formals and body.
pub fn procedure(name: Option<Units>, formals: Vec<Units>, body: Vec<Stmt>) -> Code
    ensures { result ≡ code name formals.items (stmts_of body.items) }
{
    Code::new(name, formals, body)
}

/// A function expression.
pub fn function(alloc: Global, code: Code) -> Result<Expr, ParseFault>
    ensures { Builds (tree.func code) result }
{
    check_height(code.height() + 1)?;
    Ok(Expr::new(ExprNode::Func(Rc::new(alloc, code)?)))
}

/// A property named by a word.
pub fn member(alloc: Global, left: Expr, name: Units) -> Result<Expr, ParseFault>
    ensures { Builds (tree.member left name) result }
{
    check_height(left.height() + 1)?;
    Ok(Expr::new(ExprNode::Member(Box::new(alloc, left)?, name)))
}

/// A property named by an expression.
pub fn index(alloc: Global, left: Expr, name: Expr) -> Result<Expr, ParseFault>
    ensures { Builds (tree.index left name) result }
{
    check_height(left.height().max(name.height()) + 1)?;
    Ok(Expr::new(ExprNode::Index(Box::new(alloc, left)?, Box::new(alloc, name)?)))
}

/// A call.
pub fn call(alloc: Global, callee: Expr, arguments: Vec<Expr>) -> Result<Expr, ParseFault>
    ensures { Builds (tree.call callee (exprs_of arguments.items)) result }
{
    check_height(callee.height().max(exprs_height(arguments.as_slice())) + 1)?;
    Ok(Expr::new(ExprNode::Call(Box::new(alloc, callee)?, arguments)))
}

/// A `new`.
pub fn construct(alloc: Global, callee: Expr, arguments: Vec<Expr>) -> Result<Expr, ParseFault>
    ensures { Builds (tree.construct callee (exprs_of arguments.items)) result }
{
    check_height(callee.height().max(exprs_height(arguments.as_slice())) + 1)?;
    Ok(Expr::new(ExprNode::New(Box::new(alloc, callee)?, arguments)))
}

/// An operator before its operand.
pub fn prefixed(alloc: Global, prefix: Prefix, operand: Expr) -> Result<Expr, ParseFault>
    ensures { Builds (operators.prefixed prefix operand) result }
{
    match prefix {
        Prefix::Operator(op) => unary(alloc, op, operand),
        Prefix::Step(up) => update(alloc, up, true, operand),
    }
}

fn unary(alloc: Global, op: UnaryOp, operand: Expr) -> Result<Expr, ParseFault>
    ensures { Builds (tree.unary op operand) result }
{
    check_height(operand.height() + 1)?;
    Ok(Expr::new(ExprNode::Unary(op, Box::new(alloc, operand)?)))
}

/// `++` where `up`, else `--`, before its target where `prefix`, else after it.
pub fn update(alloc: Global, up: bool, prefix: bool, target: Expr) -> Result<Expr, ParseFault>
    ensures { Builds (tree.update up prefix target) result }
{
    check_height(target.height() + 1)?;
    Ok(Expr::new(ExprNode::Update {
        up,
        prefix,
        target: Box::new(alloc, target)?,
    }))
}

/// An operator between two operands.
pub fn combined(alloc: Global, operator: Infix, left: Expr, right: Expr) -> Result<Expr, ParseFault>
    ensures { Builds (operators.combined operator left right) result }
{
    match operator {
        Infix::Either => either(alloc, left, right),
        Infix::Both => both(alloc, left, right),
        Infix::Operation(op) => binary(alloc, op, left, right),
    }
}

fn either(alloc: Global, left: Expr, right: Expr) -> Result<Expr, ParseFault>
    ensures { Builds (tree.logical_or left right) result }
{
    check_height(left.height().max(right.height()) + 1)?;
    Ok(Expr::new(ExprNode::Or(Box::new(alloc, left)?, Box::new(alloc, right)?)))
}

fn both(alloc: Global, left: Expr, right: Expr) -> Result<Expr, ParseFault>
    ensures { Builds (tree.logical_and left right) result }
{
    check_height(left.height().max(right.height()) + 1)?;
    Ok(Expr::new(ExprNode::And(Box::new(alloc, left)?, Box::new(alloc, right)?)))
}

fn binary(alloc: Global, op: BinaryOp, left: Expr, right: Expr) -> Result<Expr, ParseFault>
    ensures { Builds (tree.binary op left right) result }
{
    check_height(left.height().max(right.height()) + 1)?;
    Ok(Expr::new(ExprNode::Binary(op, Box::new(alloc, left)?, Box::new(alloc, right)?)))
}

/// A `? :`.
pub fn conditional(alloc: Global, test: Expr, left: Expr, right: Expr) -> Result<Expr, ParseFault>
    ensures { Builds (tree.conditional test left right) result }
{
    check_height(test.height().max(left.height().max(right.height())) + 1)?;
    Ok(Expr::new(ExprNode::Cond(
        Box::new(alloc, test)?,
        Box::new(alloc, left)?,
        Box::new(alloc, right)?,
    )))
}

/// An assignment: `None` is `=`, an operator its compound assignment.
pub fn assign(
    alloc: Global,
    op: Option<BinaryOp>,
    target: Expr,
    value: Expr,
) -> Result<Expr, ParseFault>
    ensures { Builds (tree.assign op target value) result }
{
    check_height(target.height().max(value.height()) + 1)?;
    Ok(Expr::new(ExprNode::Assign(op, Box::new(alloc, target)?, Box::new(alloc, value)?)))
}

/// Expressions with commas between them.
pub fn comma(parts: Vec<Expr>) -> Result<Expr, ParseFault>
    ensures { Builds (tree.comma (exprs_of parts.items)) result }
{
    check_height(exprs_height(parts.as_slice()) + 1)?;
    Ok(Expr::new(ExprNode::Comma(parts)))
}
