//! Whether a node of a tree passes a test.
//!
//! What is nested is recursed into, which is bounded by the height of trees. A list is gone over in a loop.

ghost use Rattle.std.specs.Prelude.{◌≡◌, ◌||◌, false, option_map, IfOk};
ghost use Rattle.js_core.specs.Tree.{exprs_of, maybe_expr, holes_of, fields_of, stmts_of, maybe_stmts};
ghost use Rattle.js_core.specs.Views.{declarators_of, init_of, catch_of, cases_of};
ghost use Rattle.early_rules.specs.NodeTests.{passes};
ghost use Rattle.scope_analysis.specs.Nodes as spec;

use crate::node_test::NodeTest;
use crate::node_tests::{clause_passes, expression_passes, statement_passes};
use js_core::{
    Case, Catch, Code, Declarator, Expr, ExprNode, ForInit, OutOfMemory, Script, Stmt, StmtNode,
    Units,
};
use std::alloc::Global;

/// Whether a node of the script passes the test.
pub fn any_in_script(alloc: Global, test: NodeTest, script: &Script) -> Result<bool, OutOfMemory>
    ensures { IfOk result (λ found. found ≡ spec.stmts_any (passes test) script.now) }
{
    any_in_statements(alloc, test, script.body.as_slice())
}

/// Whether a node of the function's body does.
#[cycle(visiting)]
pub fn any_in_code(alloc: Global, test: NodeTest, code: &Code) -> Result<bool, OutOfMemory>
    ensures { IfOk result (λ found. found ≡ spec.code_any (passes test) code.now) }
{
    any_in_statements(alloc, test, code.body.as_slice())
}

/// Whether the statement or a node in it does.
#[cycle(visiting)]
pub fn any_in_statement(
    alloc: Global,
    test: NodeTest,
    statement: &Stmt,
) -> Result<bool, OutOfMemory>
    ensures { IfOk result (λ found. found ≡ spec.stmt_any (passes test) statement.now) }
{
    if statement_passes(alloc, test, statement)? {
        return Ok(true);
    }
    match &statement.node {
        StmtNode::Empty | StmtNode::Continue | StmtNode::Break => Ok(false),
        StmtNode::Var(declarators) => any_in_declarators(alloc, test, declarators.as_slice()),
        StmtNode::Function(code) => any_in_code(alloc, test, code),
        StmtNode::Expr(value) | StmtNode::Throw(value) => any_in_expression(
            alloc, test, false, value,
        ),
        StmtNode::Block(body) => any_in_statements(alloc, test, body.as_slice()),
        StmtNode::If(parts) => {
            Ok(
                any_in_expression(alloc, test, false, &parts.test)?
                    || any_in_statements(alloc, test, parts.first.as_slice())?
                    || any_in_maybe_body(alloc, test, &parts.second)?,
            )
        }
        StmtNode::Do(body, value) => {
            Ok(
                any_in_statements(alloc, test, body.as_slice())?
                    || any_in_expression(alloc, test, false, value)?,
            )
        }
        StmtNode::While(value, body) => {
            Ok(
                any_in_expression(alloc, test, false, value)?
                    || any_in_statements(alloc, test, body.as_slice())?,
            )
        }
        StmtNode::For(parts) => {
            Ok(
                any_in_init(alloc, test, &parts.init)?
                    || any_in_maybe_expression(alloc, test, &parts.test)?
                    || any_in_maybe_expression(alloc, test, &parts.step)?
                    || any_in_statements(alloc, test, parts.body.as_slice())?,
            )
        }
        StmtNode::ForIn {
            declared: _,
            target,
            object,
            body,
        } => {
            Ok(
                any_in_expression(alloc, test, false, target)?
                    || any_in_expression(alloc, test, false, object)?
                    || any_in_statements(alloc, test, body.as_slice())?,
            )
        }
        StmtNode::Return(value) => any_in_maybe_expression(alloc, test, value),
        StmtNode::Try(parts) => {
            Ok(
                any_in_statements(alloc, test, parts.block.as_slice())?
                    || any_in_catch(alloc, test, &parts.catch)?
                    || any_in_maybe_body(alloc, test, &parts.last)?,
            )
        }
        StmtNode::Switch(value, cases) => {
            Ok(
                any_in_expression(alloc, test, false, value)?
                    || any_in_cases(alloc, test, cases.as_slice())?,
            )
        }
    }
}

/// Whether a node of the statements does.
#[cycle(visiting)]
pub fn any_in_statements(
    alloc: Global,
    test: NodeTest,
    statements: &[Stmt],
) -> Result<bool, OutOfMemory>
    ensures { IfOk result (λ found. found ≡ spec.stmts_any (passes test)
        (stmts_of statements.now)) }
{
    let mut rest = statements;
    while let [statement, after @ ..] = rest {
        if any_in_statement(alloc, test, statement)? {
            return Ok(true);
        }
        rest = after;
    }
    Ok(false)
}

#[cycle(visiting)]
fn any_in_maybe_body(
    alloc: Global,
    test: NodeTest,
    body: &Option<Vec<Stmt>>,
) -> Result<bool, OutOfMemory>
    ensures { IfOk result (λ found. found ≡ spec.maybe_stmts_any (passes test)
        (maybe_stmts (option_map (λ v. v.items) body.now))) }
{
    match body {
        None => Ok(false),
        Some(body) => any_in_statements(alloc, test, body.as_slice()),
    }
}

#[cycle(visiting)]
fn any_in_catch(alloc: Global, test: NodeTest, catch: &Option<Catch>) -> Result<bool, OutOfMemory>
    ensures { IfOk result (λ found. found ≡ spec.catch_any (passes test) (catch_of catch.now)) }
{
    match catch {
        None => Ok(false),
        Some(catch) => {
            Ok(clause_passes(test, catch) || any_in_statements(alloc, test, catch.body.as_slice())?)
        }
    }
}

#[cycle(visiting)]
fn any_in_cases(alloc: Global, test: NodeTest, cases: &[Case]) -> Result<bool, OutOfMemory>
    ensures { IfOk result (λ found. found ≡ spec.cases_any (passes test) (cases_of cases.now)) }
{
    let mut rest = cases;
    while let [case, after @ ..] = rest {
        if any_in_maybe_expression(alloc, test, &case.test)?
            || any_in_statements(alloc, test, case.body.as_slice())?
        {
            return Ok(true);
        }
        rest = after;
    }
    Ok(false)
}

#[cycle(visiting)]
fn any_in_declarators(
    alloc: Global,
    test: NodeTest,
    declarators: &[Declarator],
) -> Result<bool, OutOfMemory>
    ensures { IfOk result (λ found. found ≡ spec.declarators_any (passes test)
        (declarators_of declarators.now)) }
{
    let mut rest = declarators;
    while let [declarator, after @ ..] = rest {
        if any_in_maybe_expression(alloc, test, &declarator.value)? {
            return Ok(true);
        }
        rest = after;
    }
    Ok(false)
}

#[cycle(visiting)]
fn any_in_init(alloc: Global, test: NodeTest, init: &ForInit) -> Result<bool, OutOfMemory>
    ensures { IfOk result (λ found. found ≡ spec.init_any (passes test) (init_of init.now)) }
{
    match init {
        ForInit::Nothing => Ok(false),
        ForInit::Var(declarators) => any_in_declarators(alloc, test, declarators.as_slice()),
        ForInit::Expr(value) => any_in_expression(alloc, test, false, value),
    }
}

#[cycle(visiting)]
fn any_in_expression(
    alloc: Global,
    test: NodeTest,
    is_callee: bool,
    expression: &Expr,
) -> Result<bool, OutOfMemory>
    ensures { IfOk result (λ found. found ≡ spec.expr_any (passes test) is_callee expression.now) }
{
    if expression_passes(alloc, test, is_callee, expression)? {
        return Ok(true);
    }
    match &expression.node {
        ExprNode::Name(_)
        | ExprNode::Num(_)
        | ExprNode::Text(_)
        | ExprNode::Bool(_)
        | ExprNode::Null
        | ExprNode::This => Ok(false),
        ExprNode::List(elements) => any_in_elements(alloc, test, elements.as_slice()),
        ExprNode::Literal(fields) => any_in_fields(alloc, test, fields.as_slice()),
        ExprNode::Func(code) => any_in_code(alloc, test, code),
        ExprNode::Member(operand, _) | ExprNode::Unary(_, operand) => {
            any_in_expression(alloc, test, false, operand)
        }
        ExprNode::Update {
            up: _,
            prefix: _,
            target,
        } => any_in_expression(alloc, test, false, target),
        ExprNode::Index(left, right)
        | ExprNode::Binary(_, left, right)
        | ExprNode::And(left, right)
        | ExprNode::Or(left, right)
        | ExprNode::Assign(_, left, right) => {
            Ok(
                any_in_expression(alloc, test, false, left)?
                    || any_in_expression(alloc, test, false, right)?,
            )
        }
        ExprNode::Call(callee, arguments) => {
            Ok(
                any_in_expression(alloc, test, true, callee)?
                    || any_in_expressions(alloc, test, arguments.as_slice())?,
            )
        }
        ExprNode::New(callee, arguments) => {
            Ok(
                any_in_expression(alloc, test, false, callee)?
                    || any_in_expressions(alloc, test, arguments.as_slice())?,
            )
        }
        ExprNode::Cond(condition, first, second) => {
            Ok(
                any_in_expression(alloc, test, false, condition)?
                    || any_in_expression(alloc, test, false, first)?
                    || any_in_expression(alloc, test, false, second)?,
            )
        }
        ExprNode::Comma(parts) => any_in_expressions(alloc, test, parts.as_slice()),
    }
}

#[cycle(visiting)]
fn any_in_expressions(
    alloc: Global,
    test: NodeTest,
    expressions: &[Expr],
) -> Result<bool, OutOfMemory>
    ensures { IfOk result (λ found. found ≡ spec.exprs_any (passes test)
        (exprs_of expressions.now)) }
{
    let mut rest = expressions;
    while let [expression, after @ ..] = rest {
        if any_in_expression(alloc, test, false, expression)? {
            return Ok(true);
        }
        rest = after;
    }
    Ok(false)
}

#[cycle(visiting)]
fn any_in_maybe_expression(
    alloc: Global,
    test: NodeTest,
    expression: &Option<Expr>,
) -> Result<bool, OutOfMemory>
    ensures { IfOk result (λ found. found ≡ spec.maybe_expr_any (passes test)
        (maybe_expr expression.now)) }
{
    match expression {
        None => Ok(false),
        Some(expression) => any_in_expression(alloc, test, false, expression),
    }
}

#[cycle(visiting)]
fn any_in_elements(
    alloc: Global,
    test: NodeTest,
    elements: &[Option<Expr>],
) -> Result<bool, OutOfMemory>
    ensures { IfOk result (λ found. found ≡ spec.holes_any (passes test) (holes_of elements.now)) }
{
    let mut rest = elements;
    while let [element, after @ ..] = rest {
        if any_in_maybe_expression(alloc, test, element)? {
            return Ok(true);
        }
        rest = after;
    }
    Ok(false)
}

#[cycle(visiting)]
fn any_in_fields(
    alloc: Global,
    test: NodeTest,
    fields: &[(Units, Expr)],
) -> Result<bool, OutOfMemory>
    ensures { IfOk result (λ found. found ≡ spec.fields_any (passes test) (fields_of fields.now)) }
{
    let mut rest = fields;
    while let [(_, value), after @ ..] = rest {
        if any_in_expression(alloc, test, false, value)? {
            return Ok(true);
        }
        rest = after;
    }
    Ok(false)
}
