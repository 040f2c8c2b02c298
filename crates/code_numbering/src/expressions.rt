//! How expressions are numbered, each after its parts, in a recursion that is as deep as the tree is high, at most 1,000. A list is
//! gone over in a loop.

ghost use Rattle.std.specs.Prelude.{◌≡◌, OnOk, true, false};
ghost use Rattle.js_core.specs.Tree.{exprs_of, maybe_expr, holes_of, fields_of};
ghost use Rattle.code_table.specs.Node as node;
ghost use Rattle.code_table.specs.Rows.{with_parts, with_numbers};

use crate::rows::Rows;
use crate::shallow::{expr_kind, is_property, takes_place};
use js_core::{Expr, ExprNode, OutOfMemory, UnaryOp, Units};
use std::alloc::Global;

/// The number of a part that is absent.
pub const ABSENT: u32 = u32::MAX;

/// Numbers an expression, as a part.
#[cycle(expressions)]
pub fn push_expr(
    alloc: Global,
    rows: &mut Rows,
    parts: &mut Vec<u32>,
    e: &Expr,
) -> Result<(), OutOfMemory>
    ensures rows { OnOk result (rows.new ≡ with_parts rows.old
        (node.part (node.expr_node e.now) (node.expr_parts e.now))) }
    ensures parts { OnOk result (parts.new.items
        ≡ with_numbers rows.old parts.old.items
        (node.part (node.expr_node e.now) (node.expr_parts e.now))) }
{
    let mut inside = Vec::new(alloc);
    push_expr_parts(alloc, rows, &mut inside, e)?;
    let kind = expr_kind(alloc, e)?;
    rows.push_part(kind, inside, parts)
}

// Numbers the parts of an expression.
#[cycle(expressions)]
fn push_expr_parts(
    alloc: Global,
    rows: &mut Rows,
    parts: &mut Vec<u32>,
    e: &Expr,
) -> Result<(), OutOfMemory>
    ensures rows { OnOk result (rows.new ≡ with_parts rows.old (node.expr_parts e.now)) }
    ensures parts { OnOk result (parts.new.items
        ≡ with_numbers rows.old parts.old.items (node.expr_parts e.now)) }
{
    match &e.node {
        ExprNode::Name(_)
        | ExprNode::Num(_)
        | ExprNode::Text(_)
        | ExprNode::Bool(_)
        | ExprNode::Null
        | ExprNode::This
        | ExprNode::Func(_) => Ok(()),
        ExprNode::List(es) => push_holes(alloc, rows, parts, es.as_slice()),
        ExprNode::Literal(fs) => push_fields(alloc, rows, parts, fs.as_slice()),
        ExprNode::Member(a, _) => push_expr(alloc, rows, parts, a),
        ExprNode::Index(a, b) => push_two(alloc, rows, parts, a, b),
        ExprNode::Call(f, es) => push_call(alloc, rows, parts, f, es.as_slice()),
        ExprNode::New(f, es) => push_new(alloc, rows, parts, f, es.as_slice()),
        ExprNode::Unary(op, a) => push_operand(alloc, rows, parts, *op, a),
        ExprNode::Update {
            up: _,
            prefix: _,
            target,
        } => push_expr_parts(alloc, rows, parts, target),
        ExprNode::Binary(_, a, b) => push_two(alloc, rows, parts, a, b),
        ExprNode::And(a, b) => push_two(alloc, rows, parts, a, b),
        ExprNode::Or(a, b) => push_two(alloc, rows, parts, a, b),
        ExprNode::Cond(a, b, c) => push_three(alloc, rows, parts, a, b, c),
        ExprNode::Assign(_, a, b) => push_assign(alloc, rows, parts, a, b),
        ExprNode::Comma(es) => push_exprs(alloc, rows, parts, es.as_slice()),
    }
}

// Numbers two expressions.
#[cycle(expressions)]
fn push_two(
    alloc: Global,
    rows: &mut Rows,
    parts: &mut Vec<u32>,
    a: &Expr,
    b: &Expr,
) -> Result<(), OutOfMemory>
    ensures rows { OnOk result (rows.new ≡ with_parts rows.old
        (node.join (node.part (node.expr_node a.now) (node.expr_parts a.now))
        (node.part (node.expr_node b.now) (node.expr_parts b.now)))) }
    ensures parts { OnOk result (parts.new.items
        ≡ with_numbers rows.old parts.old.items
        (node.join (node.part (node.expr_node a.now) (node.expr_parts a.now))
        (node.part (node.expr_node b.now) (node.expr_parts b.now)))) }
{
    push_expr(alloc, rows, parts, a)?;
    push_expr(alloc, rows, parts, b)
}

// Numbers three expressions.
#[cycle(expressions)]
fn push_three(
    alloc: Global,
    rows: &mut Rows,
    parts: &mut Vec<u32>,
    a: &Expr,
    b: &Expr,
    c: &Expr,
) -> Result<(), OutOfMemory>
    ensures rows { OnOk result (rows.new ≡ with_parts rows.old
        (node.join (node.part (node.expr_node a.now) (node.expr_parts a.now))
        (node.join (node.part (node.expr_node b.now) (node.expr_parts b.now))
        (node.part (node.expr_node c.now) (node.expr_parts c.now))))) }
    ensures parts { OnOk result (parts.new.items
        ≡ with_numbers rows.old parts.old.items
        (node.join (node.part (node.expr_node a.now) (node.expr_parts a.now))
        (node.join (node.part (node.expr_node b.now) (node.expr_parts b.now))
        (node.part (node.expr_node c.now) (node.expr_parts c.now))))) }
{
    push_expr(alloc, rows, parts, a)?;
    push_two(alloc, rows, parts, b, c)
}

// Numbers a constructor and its arguments.
#[cycle(expressions)]
fn push_new(
    alloc: Global,
    rows: &mut Rows,
    parts: &mut Vec<u32>,
    f: &Expr,
    es: &[Expr],
) -> Result<(), OutOfMemory>
    ensures rows { OnOk result (rows.new ≡ with_parts rows.old
        (node.join (node.part (node.expr_node f.now) (node.expr_parts f.now))
        (node.exprs_parts (exprs_of es.now)))) }
    ensures parts { OnOk result (parts.new.items
        ≡ with_numbers rows.old parts.old.items
        (node.join (node.part (node.expr_node f.now) (node.expr_parts f.now))
        (node.exprs_parts (exprs_of es.now)))) }
{
    push_expr(alloc, rows, parts, f)?;
    push_exprs(alloc, rows, parts, es)
}

// Numbers a callee and its arguments.
#[cycle(expressions)]
#[tactic(auto, using(crate::proofs::Joins::parts_join, crate::proofs::Joins::numbers_join))]
fn push_call(
    alloc: Global,
    rows: &mut Rows,
    parts: &mut Vec<u32>,
    f: &Expr,
    es: &[Expr],
) -> Result<(), OutOfMemory>
    ensures rows { OnOk result (rows.new ≡ with_parts rows.old
        (node.join (node.of_place (node.is_property f.now) f.now (node.expr_parts f.now))
        (node.exprs_parts (exprs_of es.now)))) }
    ensures parts { OnOk result (parts.new.items
        ≡ with_numbers rows.old parts.old.items
        (node.join (node.of_place (node.is_property f.now) f.now (node.expr_parts f.now))
        (node.exprs_parts (exprs_of es.now)))) }
{
    let in_place = is_property(f);
    push_place(alloc, rows, parts, in_place, f)?;
    push_exprs(alloc, rows, parts, es)
}

// Numbers what finds the place of an expression, or the expression.
#[cycle(expressions)]
fn push_place(
    alloc: Global,
    rows: &mut Rows,
    parts: &mut Vec<u32>,
    in_place: bool,
    e: &Expr,
) -> Result<(), OutOfMemory>
    ensures rows { OnOk result (rows.new ≡ with_parts rows.old
        (node.of_place in_place e.now (node.expr_parts e.now))) }
    ensures parts { OnOk result (parts.new.items
        ≡ with_numbers rows.old parts.old.items
        (node.of_place in_place e.now (node.expr_parts e.now))) }
{
    if in_place {
        push_expr_parts(alloc, rows, parts, e)
    } else {
        push_expr(alloc, rows, parts, e)
    }
}

// Numbers the operand of a unary operator.
#[cycle(expressions)]
fn push_operand(
    alloc: Global,
    rows: &mut Rows,
    parts: &mut Vec<u32>,
    op: UnaryOp,
    e: &Expr,
) -> Result<(), OutOfMemory>
    ensures rows { OnOk result (rows.new ≡ with_parts rows.old
        (node.of_place (node.takes_place op e.now) e.now (node.expr_parts e.now))) }
    ensures parts { OnOk result (parts.new.items
        ≡ with_numbers rows.old parts.old.items
        (node.of_place (node.takes_place op e.now) e.now (node.expr_parts e.now))) }
{
    let in_place = takes_place(op, e);
    push_place(alloc, rows, parts, in_place, e)
}

// Numbers what finds a target, and the right side.
#[cycle(expressions)]
#[tactic(auto, using(crate::proofs::Joins::parts_join, crate::proofs::Joins::numbers_join))]
fn push_assign(
    alloc: Global,
    rows: &mut Rows,
    parts: &mut Vec<u32>,
    a: &Expr,
    b: &Expr,
) -> Result<(), OutOfMemory>
    ensures rows { OnOk result (rows.new ≡ with_parts rows.old
        (node.join (node.expr_parts a.now) (node.part (node.expr_node b.now)
        (node.expr_parts b.now)))) }
    ensures parts { OnOk result (parts.new.items
        ≡ with_numbers rows.old parts.old.items
        (node.join (node.expr_parts a.now) (node.part (node.expr_node b.now)
        (node.expr_parts b.now)))) }
{
    push_expr_parts(alloc, rows, parts, a)?;
    push_expr(alloc, rows, parts, b)
}

// Numbers expressions.
#[cycle(expressions)]
fn push_exprs(
    alloc: Global,
    rows: &mut Rows,
    parts: &mut Vec<u32>,
    es: &[Expr],
) -> Result<(), OutOfMemory>
    ensures rows { OnOk result (rows.new ≡ with_parts rows.old
        (node.exprs_parts (exprs_of es.now))) }
    ensures parts { OnOk result (parts.new.items
        ≡ with_numbers rows.old parts.old.items (node.exprs_parts (exprs_of es.now))) }
{
    let mut rest = es;
    while let [e, after @ ..] = rest {
        push_expr(alloc, rows, parts, e)?;
        rest = after;
    }
    Ok(())
}

/// Numbers an expression that may be absent.
#[cycle(expressions)]
pub fn push_maybe_expr(
    alloc: Global,
    rows: &mut Rows,
    parts: &mut Vec<u32>,
    e: &Option<Expr>,
) -> Result<(), OutOfMemory>
    ensures rows { OnOk result (rows.new ≡ with_parts rows.old
        (node.maybe_expr_parts (maybe_expr e.now))) }
    ensures parts { OnOk result (parts.new.items
        ≡ with_numbers rows.old parts.old.items (node.maybe_expr_parts (maybe_expr e.now))) }
{
    match e {
        None => {
            parts.push(ABSENT)?;
            Ok(())
        }
        Some(e) => push_expr(alloc, rows, parts, e),
    }
}

// Numbers the elements of an array literal.
#[cycle(expressions)]
#[tactic(auto, using(crate::proofs::Joins::parts_join, crate::proofs::Joins::numbers_join))]
fn push_holes(
    alloc: Global,
    rows: &mut Rows,
    parts: &mut Vec<u32>,
    es: &[Option<Expr>],
) -> Result<(), OutOfMemory>
    ensures rows { OnOk result (rows.new ≡ with_parts rows.old
        (node.holes_parts (holes_of es.now))) }
    ensures parts { OnOk result (parts.new.items
        ≡ with_numbers rows.old parts.old.items (node.holes_parts (holes_of es.now))) }
{
    let mut rest = es;
    while let [e, after @ ..] = rest {
        push_maybe_expr(alloc, rows, parts, e)?;
        rest = after;
    }
    Ok(())
}

// Numbers the values of an object literal.
#[cycle(expressions)]
fn push_fields(
    alloc: Global,
    rows: &mut Rows,
    parts: &mut Vec<u32>,
    fs: &[(Units, Expr)],
) -> Result<(), OutOfMemory>
    ensures rows { OnOk result (rows.new ≡ with_parts rows.old
        (node.fields_parts (fields_of fs.now))) }
    ensures parts { OnOk result (parts.new.items
        ≡ with_numbers rows.old parts.old.items (node.fields_parts (fields_of fs.now))) }
{
    let mut rest = fs;
    while let [(_, e), after @ ..] = rest {
        push_expr(alloc, rows, parts, e)?;
        rest = after;
    }
    Ok(())
}
