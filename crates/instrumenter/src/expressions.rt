//! Expressions with opened scopes.

ghost use Rattle.std.specs.Prelude.{◌≡◌, ◌≤◌, ◌+◌, ℕ, Some, None, IfOk, OnOk, map, option_map};
ghost use Rattle.std.specs.Rc.{rc_value};
ghost use Rattle.js_core.specs.Height.{expr_height, exprs_height, fields_height, holes_height, maybe_expr_height};
ghost use Rattle.js_core.specs.Tree as tree;
ghost use Rattle.js_core.specs.Tree.{exprs_of, fields_of, holes_of, maybe_expr};
ghost use Rattle.early_rules.specs.Limits.{plain_height_limit};
ghost use Rattle.instrumenter.specs.Around as around;
ghost use Rattle.instrumenter.specs.Counting.{
  expr_scopes,
  exprs_scopes,
  fields_scopes,
  holes_scopes,
  maybe_expr_scopes,
};
ghost use Rattle.instrumenter.specs.Levels.{around_of, called_field};
ghost use Rattle.instrumenter.specs.Opening as spec;

use crate::functions::open_function_expression;
use crate::levels::{Level, field_of};
use crate::pieces::{field_or_name, without_this};
use js_core::{BinaryOp, Expr, ExprNode, OutOfMemory, UnaryOp, Units};
use std::alloc::Global;
use std::rc::Rc;

/// The expression in these scopes, opened. `next` is the number of the next scope's object, and then that of the one behind the
/// expression.
#[cycle(opening)]
pub fn open_expression(
    alloc: Global,
    levels: &[Rc<Level>],
    next: &mut u64,
    expression: &Expr,
) -> Result<Expr, OutOfMemory>
    requires { expr_height expression.now ≤ plain_height_limit }
    ensures opened { IfOk result (λ e. e
        ≡ spec.open_expr (around_of (map rc_value levels.now)) next.old expression.now) }
    ensures counted { OnOk result (next.new ≡ next.old + expr_scopes expression.now) }
{
    match &expression.node {
        ExprNode::Name(name) => field_or_name(alloc, field_of(levels, name), name),
        ExprNode::Num(value) => Ok(Expr::new(ExprNode::Num(*value))),
        ExprNode::Text(text) => Ok(Expr::new(ExprNode::Text(text.clone()?))),
        ExprNode::Bool(value) => Ok(Expr::new(ExprNode::Bool(*value))),
        ExprNode::Null => Ok(Expr::new(ExprNode::Null)),
        ExprNode::This => Ok(Expr::new(ExprNode::This)),
        ExprNode::List(elements) => open_list(alloc, levels, next, elements.as_slice()),
        ExprNode::Literal(fields) => open_literal(alloc, levels, next, fields.as_slice()),
        ExprNode::Func(code) => open_function_expression(alloc, levels, next, code),
        ExprNode::Member(object, name) => open_member(alloc, levels, next, object, name),
        ExprNode::Index(object, index) => open_index(alloc, levels, next, object, index),
        ExprNode::Call(callee, values) => open_call(alloc, levels, next, callee, values.as_slice()),
        ExprNode::New(callee, values) => open_new(alloc, levels, next, callee, values.as_slice()),
        ExprNode::Unary(op, operand) => open_unary(alloc, levels, next, *op, operand),
        ExprNode::Update { up, prefix, target } => {
            open_update(alloc, levels, next, *up, *prefix, target)
        }
        ExprNode::Binary(op, left, right) => open_binary(alloc, levels, next, *op, left, right),
        ExprNode::And(left, right) => open_and(alloc, levels, next, left, right),
        ExprNode::Or(left, right) => open_or(alloc, levels, next, left, right),
        ExprNode::Cond(test, first, second) => {
            open_conditional(alloc, levels, next, test, first, second)
        }
        ExprNode::Assign(op, target, value) => open_assign(alloc, levels, next, *op, target, value),
        ExprNode::Comma(parts) => open_comma(alloc, levels, next, parts.as_slice()),
    }
}

#[cycle(opening)]
#[tactic(auto, using(crate::proofs::Low::holes_low))]
fn open_list(
    alloc: Global,
    levels: &[Rc<Level>],
    next: &mut u64,
    elements: &[Option<Expr>],
) -> Result<Expr, OutOfMemory>
    requires { expr_height (tree.list (holes_of elements.now)) ≤ plain_height_limit }
    ensures opened { IfOk result (λ e. e
        ≡ spec.open_expr (around_of (map rc_value levels.now)) next.old
        (tree.list (holes_of elements.now))) }
    ensures counted { OnOk result (next.new ≡ next.old + expr_scopes
        (tree.list (holes_of elements.now))) }
{
    let elements = open_elements(alloc, levels, next, elements)?;
    Ok(Expr::new(ExprNode::List(elements)))
}

#[cycle(opening)]
#[tactic(auto, using(crate::proofs::Low::fields_low))]
fn open_literal(
    alloc: Global,
    levels: &[Rc<Level>],
    next: &mut u64,
    fields: &[(Units, Expr)],
) -> Result<Expr, OutOfMemory>
    requires { expr_height (tree.literal (fields_of fields.now)) ≤ plain_height_limit }
    ensures opened { IfOk result (λ e. e
        ≡ spec.open_expr (around_of (map rc_value levels.now)) next.old
        (tree.literal (fields_of fields.now))) }
    ensures counted { OnOk result (next.new ≡ next.old + expr_scopes
        (tree.literal (fields_of fields.now))) }
{
    let fields = open_fields(alloc, levels, next, fields)?;
    Ok(Expr::new(ExprNode::Literal(fields)))
}

#[cycle(opening)]
#[tactic(auto, using(crate::proofs::Low::expr_low))]
fn open_member(
    alloc: Global,
    levels: &[Rc<Level>],
    next: &mut u64,
    object: &Expr,
    name: &Units,
) -> Result<Expr, OutOfMemory>
    requires { expr_height (tree.member object.now name.now) ≤ plain_height_limit }
    ensures opened { IfOk result (λ e. e
        ≡ spec.open_expr (around_of (map rc_value levels.now)) next.old
        (tree.member object.now name.now)) }
    ensures counted { OnOk result (next.new ≡ next.old + expr_scopes
        (tree.member object.now name.now)) }
{
    let object = open_expression(alloc, levels, next, object)?;
    Ok(Expr::new(ExprNode::Member(Box::new(alloc, object)?, name.clone()?)))
}

#[cycle(opening)]
#[tactic(auto, using(crate::proofs::Low::expr_low))]
fn open_unary(
    alloc: Global,
    levels: &[Rc<Level>],
    next: &mut u64,
    op: UnaryOp,
    operand: &Expr,
) -> Result<Expr, OutOfMemory>
    requires { expr_height (tree.unary op operand.now) ≤ plain_height_limit }
    ensures opened { IfOk result (λ e. e
        ≡ spec.open_expr (around_of (map rc_value levels.now)) next.old
        (tree.unary op operand.now)) }
    ensures counted { OnOk result (next.new ≡ next.old + expr_scopes (tree.unary op operand.now)) }
{
    let operand = open_expression(alloc, levels, next, operand)?;
    Ok(Expr::new(ExprNode::Unary(op, Box::new(alloc, operand)?)))
}

#[cycle(opening)]
#[tactic(auto, using(crate::proofs::Low::expr_low))]
fn open_update(
    alloc: Global,
    levels: &[Rc<Level>],
    next: &mut u64,
    up: bool,
    prefix: bool,
    target: &Expr,
) -> Result<Expr, OutOfMemory>
    requires { expr_height (tree.update up prefix target.now) ≤ plain_height_limit }
    ensures opened { IfOk result (λ e. e
        ≡ spec.open_expr (around_of (map rc_value levels.now)) next.old
        (tree.update up prefix target.now)) }
    ensures counted { OnOk result (next.new ≡ next.old + expr_scopes
        (tree.update up prefix target.now)) }
{
    let target = open_expression(alloc, levels, next, target)?;
    Ok(Expr::new(ExprNode::Update {
        up,
        prefix,
        target: Box::new(alloc, target)?,
    }))
}

// Two parts of an expression, opened one after the other.
#[cycle(opening)]
fn open_both(
    alloc: Global,
    levels: &[Rc<Level>],
    next: &mut u64,
    left: &Expr,
    right: &Expr,
) -> Result<(Box<Expr>, Box<Expr>), OutOfMemory>
    requires left { expr_height left.now ≤ plain_height_limit }
    requires right { expr_height right.now ≤ plain_height_limit }
    ensures left { IfOk result (λ both. both.0.value
        ≡ spec.open_expr (around_of (map rc_value levels.now)) next.old left.now) }
    ensures right { IfOk result (λ both. both.1.value
        ≡ spec.open_expr (around_of (map rc_value levels.now)) (next.old + expr_scopes left.now)
        right.now) }
    ensures counted { OnOk result (next.new
        ≡ next.old + (expr_scopes left.now + expr_scopes right.now)) }
{
    let left = open_expression(alloc, levels, next, left)?;
    let right = open_expression(alloc, levels, next, right)?;
    Ok((Box::new(alloc, left)?, Box::new(alloc, right)?))
}

#[cycle(opening)]
#[tactic(auto, using(crate::proofs::Low::expr_low))]
fn open_index(
    alloc: Global,
    levels: &[Rc<Level>],
    next: &mut u64,
    left: &Expr,
    right: &Expr,
) -> Result<Expr, OutOfMemory>
    requires { expr_height (tree.index left.now right.now) ≤ plain_height_limit }
    ensures opened { IfOk result (λ e. e
        ≡ spec.open_expr (around_of (map rc_value levels.now)) next.old
        (tree.index left.now right.now)) }
    ensures counted { OnOk result (next.new ≡ next.old + expr_scopes
        (tree.index left.now right.now)) }
{
    let (left, right) = open_both(alloc, levels, next, left, right)?;
    Ok(Expr::new(ExprNode::Index(left, right)))
}

#[cycle(opening)]
#[tactic(auto, using(crate::proofs::Low::expr_low))]
fn open_binary(
    alloc: Global,
    levels: &[Rc<Level>],
    next: &mut u64,
    op: BinaryOp,
    left: &Expr,
    right: &Expr,
) -> Result<Expr, OutOfMemory>
    requires { expr_height (tree.binary op left.now right.now) ≤ plain_height_limit }
    ensures opened { IfOk result (λ e. e
        ≡ spec.open_expr (around_of (map rc_value levels.now)) next.old
        (tree.binary op left.now right.now)) }
    ensures counted { OnOk result (next.new ≡ next.old + expr_scopes
        (tree.binary op left.now right.now)) }
{
    let (left, right) = open_both(alloc, levels, next, left, right)?;
    Ok(Expr::new(ExprNode::Binary(op, left, right)))
}

#[cycle(opening)]
#[tactic(auto, using(crate::proofs::Low::expr_low))]
fn open_and(
    alloc: Global,
    levels: &[Rc<Level>],
    next: &mut u64,
    left: &Expr,
    right: &Expr,
) -> Result<Expr, OutOfMemory>
    requires { expr_height (tree.logical_and left.now right.now) ≤ plain_height_limit }
    ensures opened { IfOk result (λ e. e
        ≡ spec.open_expr (around_of (map rc_value levels.now)) next.old
        (tree.logical_and left.now right.now)) }
    ensures counted { OnOk result (next.new ≡ next.old + expr_scopes
        (tree.logical_and left.now right.now)) }
{
    let (left, right) = open_both(alloc, levels, next, left, right)?;
    Ok(Expr::new(ExprNode::And(left, right)))
}

#[cycle(opening)]
#[tactic(auto, using(crate::proofs::Low::expr_low))]
fn open_or(
    alloc: Global,
    levels: &[Rc<Level>],
    next: &mut u64,
    left: &Expr,
    right: &Expr,
) -> Result<Expr, OutOfMemory>
    requires { expr_height (tree.logical_or left.now right.now) ≤ plain_height_limit }
    ensures opened { IfOk result (λ e. e
        ≡ spec.open_expr (around_of (map rc_value levels.now)) next.old
        (tree.logical_or left.now right.now)) }
    ensures counted { OnOk result (next.new ≡ next.old + expr_scopes
        (tree.logical_or left.now right.now)) }
{
    let (left, right) = open_both(alloc, levels, next, left, right)?;
    Ok(Expr::new(ExprNode::Or(left, right)))
}

#[cycle(opening)]
#[tactic(auto, using(crate::proofs::Low::expr_low))]
fn open_assign(
    alloc: Global,
    levels: &[Rc<Level>],
    next: &mut u64,
    op: Option<BinaryOp>,
    left: &Expr,
    right: &Expr,
) -> Result<Expr, OutOfMemory>
    requires { expr_height (tree.assign op left.now right.now) ≤ plain_height_limit }
    ensures opened { IfOk result (λ e. e
        ≡ spec.open_expr (around_of (map rc_value levels.now)) next.old
        (tree.assign op left.now right.now)) }
    ensures counted { OnOk result (next.new ≡ next.old + expr_scopes
        (tree.assign op left.now right.now)) }
{
    let (left, right) = open_both(alloc, levels, next, left, right)?;
    Ok(Expr::new(ExprNode::Assign(op, left, right)))
}

#[cycle(opening)]
#[tactic(auto, using(crate::proofs::Low::expr_low))]
fn open_conditional(
    alloc: Global,
    levels: &[Rc<Level>],
    next: &mut u64,
    test: &Expr,
    first: &Expr,
    second: &Expr,
) -> Result<Expr, OutOfMemory>
    requires { expr_height (tree.conditional test.now first.now second.now) ≤ plain_height_limit }
    ensures opened { IfOk result (λ e. e
        ≡ spec.open_expr (around_of (map rc_value levels.now)) next.old
        (tree.conditional test.now first.now second.now)) }
    ensures counted { OnOk result (next.new ≡ next.old + expr_scopes
        (tree.conditional test.now first.now second.now)) }
{
    let test = open_expression(alloc, levels, next, test)?;
    let first = open_expression(alloc, levels, next, first)?;
    let second = open_expression(alloc, levels, next, second)?;
    Ok(Expr::new(ExprNode::Cond(
        Box::new(alloc, test)?,
        Box::new(alloc, first)?,
        Box::new(alloc, second)?,
    )))
}

#[cycle(opening)]
#[tactic(auto, using(crate::proofs::Low::expr_low, crate::proofs::Low::exprs_low))]
fn open_call(
    alloc: Global,
    levels: &[Rc<Level>],
    next: &mut u64,
    callee: &Expr,
    values: &[Expr],
) -> Result<Expr, OutOfMemory>
    requires { expr_height (tree.call callee.now (exprs_of values.now)) ≤ plain_height_limit }
    ensures opened { IfOk result (λ e. e
        ≡ spec.open_expr (around_of (map rc_value levels.now)) next.old
        (tree.call callee.now (exprs_of values.now))) }
    ensures counted { OnOk result (next.new ≡ next.old + expr_scopes
        (tree.call callee.now (exprs_of values.now))) }
{
    let opened = open_expression(alloc, levels, next, callee)?;
    let values = open_expressions(alloc, levels, next, values)?;
    let called = without_this(alloc, called_field(levels, callee), opened)?;
    Ok(Expr::new(ExprNode::Call(Box::new(alloc, called)?, values)))
}

#[cycle(opening)]
#[tactic(auto, using(crate::proofs::Low::expr_low, crate::proofs::Low::exprs_low))]
fn open_new(
    alloc: Global,
    levels: &[Rc<Level>],
    next: &mut u64,
    callee: &Expr,
    values: &[Expr],
) -> Result<Expr, OutOfMemory>
    requires { expr_height (tree.construct callee.now (exprs_of values.now)) ≤ plain_height_limit }
    ensures opened { IfOk result (λ e. e
        ≡ spec.open_expr (around_of (map rc_value levels.now)) next.old
        (tree.construct callee.now (exprs_of values.now))) }
    ensures counted { OnOk result (next.new ≡ next.old + expr_scopes
        (tree.construct callee.now (exprs_of values.now))) }
{
    let callee = open_expression(alloc, levels, next, callee)?;
    let values = open_expressions(alloc, levels, next, values)?;
    Ok(Expr::new(ExprNode::New(Box::new(alloc, callee)?, values)))
}

#[cycle(opening)]
#[tactic(auto, using(crate::proofs::Low::exprs_low))]
fn open_comma(
    alloc: Global,
    levels: &[Rc<Level>],
    next: &mut u64,
    parts: &[Expr],
) -> Result<Expr, OutOfMemory>
    requires { expr_height (tree.comma (exprs_of parts.now)) ≤ plain_height_limit }
    ensures opened { IfOk result (λ e. e
        ≡ spec.open_expr (around_of (map rc_value levels.now)) next.old
        (tree.comma (exprs_of parts.now))) }
    ensures counted { OnOk result (next.new ≡ next.old + expr_scopes
        (tree.comma (exprs_of parts.now))) }
{
    let parts = open_expressions(alloc, levels, next, parts)?;
    Ok(Expr::new(ExprNode::Comma(parts)))
}

// The object of which the callee is a field.
fn called_field(levels: &[Rc<Level>], callee: &Expr) -> Option<u64>
    ensures { result ≡ called_field (map rc_value levels.now) callee.now }
{
    match &callee.node {
        ExprNode::Name(name) => field_of(levels, name),
        _ => None,
    }
}

#[cycle(opening)]
fn open_expressions(
    alloc: Global,
    levels: &[Rc<Level>],
    next: &mut u64,
    expressions: &[Expr],
) -> Result<Vec<Expr>, OutOfMemory>
    requires { exprs_height (exprs_of expressions.now) ≤ plain_height_limit }
    ensures opened { IfOk result (λ v. exprs_of v.items
        ≡ spec.open_exprs (around_of (map rc_value levels.now)) next.old
        (exprs_of expressions.now)) }
    ensures counted { OnOk result (next.new ≡ next.old + exprs_scopes (exprs_of expressions.now)) }
{
    let mut opened = Vec::new(alloc);
    let mut rest = expressions;
    while let [expression, after @ ..] = rest {
        opened.push(open_expression(alloc, levels, next, expression)?)?;
        rest = after;
    }
    Ok(opened)
}

#[cycle(opening)]
fn open_elements(
    alloc: Global,
    levels: &[Rc<Level>],
    next: &mut u64,
    elements: &[Option<Expr>],
) -> Result<Vec<Option<Expr>>, OutOfMemory>
    requires { holes_height (holes_of elements.now) ≤ plain_height_limit }
    ensures opened { IfOk result (λ v. holes_of v.items
        ≡ spec.open_holes (around_of (map rc_value levels.now)) next.old (holes_of elements.now)) }
    ensures counted { OnOk result (next.new ≡ next.old + holes_scopes (holes_of elements.now)) }
{
    let mut opened = Vec::new(alloc);
    let mut rest = elements;
    while let [element, after @ ..] = rest {
        opened.push(open_maybe_expression(alloc, levels, next, element)?)?;
        rest = after;
    }
    Ok(opened)
}

#[cycle(opening)]
fn open_fields(
    alloc: Global,
    levels: &[Rc<Level>],
    next: &mut u64,
    fields: &[(Units, Expr)],
) -> Result<Vec<(Units, Expr)>, OutOfMemory>
    requires { fields_height (fields_of fields.now) ≤ plain_height_limit }
    ensures opened { IfOk result (λ v. fields_of v.items
        ≡ spec.open_fields (around_of (map rc_value levels.now)) next.old (fields_of fields.now)) }
    ensures counted { OnOk result (next.new ≡ next.old + fields_scopes (fields_of fields.now)) }
{
    let mut opened = Vec::new(alloc);
    let mut rest = fields;
    while let [(name, value), after @ ..] = rest {
        opened.push((name.clone()?, open_expression(alloc, levels, next, value)?))?;
        rest = after;
    }
    Ok(opened)
}

/// The expression that may be there.
#[cycle(opening)]
pub fn open_maybe_expression(
    alloc: Global,
    levels: &[Rc<Level>],
    next: &mut u64,
    expression: &Option<Expr>,
) -> Result<Option<Expr>, OutOfMemory>
    requires { maybe_expr_height (maybe_expr expression.now) ≤ plain_height_limit }
    ensures exact { IfOk result (λ e. e
        ≡ option_map (spec.open_expr (around_of (map rc_value levels.now)) next.old)
        expression.now) }
    ensures opened { IfOk result (λ e. maybe_expr e
        ≡ spec.open_maybe (around_of (map rc_value levels.now)) next.old
        (maybe_expr expression.now)) }
    ensures counted { OnOk result (next.new
        ≡ next.old + maybe_expr_scopes (maybe_expr expression.now)) }
{
    match expression {
        None => Ok(None),
        Some(expression) => Ok(Some(open_expression(alloc, levels, next, expression)?)),
    }
}
