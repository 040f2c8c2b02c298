//! How the nodes of a tree do in their tests. The parts of a node are not looked at, but for the statements of a function
//! that jump.

ghost use Rattle.std.specs.Prelude.{◌≡◌, false, ◌&&◌, ◌++◌, nat_lt, ◌+◌, IfOk, OnOk};
ghost use Rattle.std.specs.List.{list_all};
ghost use Rattle.js_core.specs.Height.{code_height};
ghost use Rattle.js_core.specs.Tree.{fields_of, stmts_of};
ghost use Rattle.early_rules.specs.EarlyRules as rules;
ghost use Rattle.early_rules.specs.FormNodes as form;
ghost use Rattle.scope_analysis.specs.Identifiers.{is_reserved};
ghost use Rattle.early_rules.specs.Limits.{function_height_limit};
ghost use Rattle.scope_analysis.specs.Nodes as nodes;
ghost use Rattle.early_rules.specs.NodeTests.{passes};

use crate::jumps::strays;
use crate::node_test::NodeTest;
use js_core::{
    Catch, Code, Expr, ExprNode, FUNCTION_HEIGHT_LIMIT, OutOfMemory, Stmt, StmtNode, UnaryOp, Units,
};
use scope_analysis::{
    NameTest, expression_fits, fits, has_repeat, is_reserved, push_name, statement_fits,
};
use std::alloc::Global;

/// Whether the expression passes the test.
pub fn expression_passes(
    alloc: Global,
    test: NodeTest,
    is_callee: bool,
    expression: &Expr,
) -> Result<bool, OutOfMemory>
    ensures { IfOk result (λ found. found ≡ passes test
        (nodes.expression is_callee expression.now)) }
{
    match test {
        NodeTest::RepeatsFormal => has_repeated_formal(alloc, expression),
        NodeTest::RepeatsField => has_repeated_field(alloc, expression),
        NodeTest::DeletesName => Ok(deletes_name(expression)),
        NodeTest::HasRestrictedName => Ok(expression_fits(NameTest::IsRestricted, expression)),
        NodeTest::HasStrayJump => Ok(has_stray_jump(expression)),
        NodeTest::HasBadTarget => Ok(assigns_badly(expression)),
        NodeTest::IsDeclaration => Ok(false),
        NodeTest::HasReservedName => Ok(expression_fits(NameTest::IsReserved, expression)),
        NodeTest::IsHighFunction => Ok(is_high_function(is_callee, expression)),
    }
}

/// Whether the statement passes the test.
pub fn statement_passes(
    alloc: Global,
    test: NodeTest,
    statement: &Stmt,
) -> Result<bool, OutOfMemory>
    ensures { IfOk result (λ found. found ≡ passes test (nodes.statement statement.now)) }
{
    match test {
        NodeTest::RepeatsFormal => declares_repeated_formal(alloc, statement),
        NodeTest::RepeatsField | NodeTest::DeletesName => Ok(false),
        NodeTest::HasRestrictedName => Ok(statement_fits(NameTest::IsRestricted, statement)),
        NodeTest::HasStrayJump => Ok(declares_stray_jump(statement)),
        NodeTest::HasBadTarget => Ok(has_bad_target(statement)),
        NodeTest::IsDeclaration => Ok(is_declaration(statement)),
        NodeTest::HasReservedName => Ok(statement_fits(NameTest::IsReserved, statement)),
        NodeTest::IsHighFunction => Ok(declares_high_function(statement)),
    }
}

/// Whether the catch clause passes the test.
pub fn clause_passes(test: NodeTest, clause: &Catch) -> bool
    ensures { result ≡ passes test (nodes.clause clause.now.name (stmts_of clause.now.body.items)) }
{
    match test {
        NodeTest::RepeatsFormal
        | NodeTest::RepeatsField
        | NodeTest::DeletesName
        | NodeTest::HasStrayJump
        | NodeTest::HasBadTarget
        | NodeTest::IsDeclaration
        | NodeTest::IsHighFunction => false,
        NodeTest::HasRestrictedName => fits(NameTest::IsRestricted, &clause.name),
        NodeTest::HasReservedName => fits(NameTest::IsReserved, &clause.name),
    }
}

fn has_repeated_formal(alloc: Global, expression: &Expr) -> Result<bool, OutOfMemory>
    ensures { IfOk result (λ found. found ≡ rules.repeats_formal
        (nodes.expression false expression.now)) }
{
    match &expression.node {
        ExprNode::Func(code) => has_repeat(alloc, code.formals.as_slice()),
        _ => Ok(false),
    }
}

fn declares_repeated_formal(alloc: Global, statement: &Stmt) -> Result<bool, OutOfMemory>
    ensures { IfOk result (λ found. found ≡ rules.repeats_formal (nodes.statement statement.now)) }
{
    match &statement.node {
        StmtNode::Function(code) => has_repeat(alloc, code.formals.as_slice()),
        _ => Ok(false),
    }
}

fn has_stray_jump(expression: &Expr) -> bool
    ensures { result ≡ rules.has_stray_jump (nodes.expression false expression.now) }
{
    match &expression.node {
        ExprNode::Func(code) => strays(code.body.as_slice()),
        _ => false,
    }
}

fn declares_stray_jump(statement: &Stmt) -> bool
    ensures { result ≡ rules.has_stray_jump (nodes.statement statement.now) }
{
    match &statement.node {
        StmtNode::Function(code) => strays(code.body.as_slice()),
        _ => false,
    }
}

fn has_repeated_field(alloc: Global, expression: &Expr) -> Result<bool, OutOfMemory>
    ensures { IfOk result (λ found. found ≡ rules.repeats_field
        (nodes.expression false expression.now)) }
{
    match &expression.node {
        ExprNode::Literal(fields) => repeats_name(alloc, fields.as_slice()),
        _ => Ok(false),
    }
}

fn repeats_name(alloc: Global, fields: &[(Units, Expr)]) -> Result<bool, OutOfMemory>
    ensures { IfOk result (λ found. found ≡ rules.repeats_name (fields_of fields.now)) }
{
    let mut names = Vec::new(alloc);
    push_field_names(fields, &mut names)?;
    has_repeat(alloc, names.as_slice())
}

fn push_field_names(fields: &[(Units, Expr)], out: &mut Vec<Units>) -> Result<(), OutOfMemory>
    ensures { OnOk result (out.new.items ≡ out.old.items
        ++ rules.field_names (fields_of fields.now)) }
{
    let mut rest = fields;
    while let [(name, _), after @ ..] = rest {
        push_name(name, out)?;
        rest = after;
    }
    Ok(())
}

fn deletes_name(expression: &Expr) -> bool
    ensures { result ≡ rules.deletes_name (nodes.expression false expression.now) }
{
    match &expression.node {
        ExprNode::Unary(UnaryOp::Delete, operand) => is_name(operand),
        _ => false,
    }
}

fn is_name(expression: &Expr) -> bool
    ensures { result ≡ rules.is_name expression.now }
{
    matches!(&expression.node, ExprNode::Name(_))
}

fn assigns_badly(expression: &Expr) -> bool
    ensures { result ≡ rules.has_bad_target (nodes.expression false expression.now) }
{
    match &expression.node {
        ExprNode::Update {
            up: _,
            prefix: _,
            target,
        }
        | ExprNode::Assign(_, target, _) => !is_target(target),
        _ => false,
    }
}

fn has_bad_target(statement: &Stmt) -> bool
    ensures { result ≡ rules.has_bad_target (nodes.statement statement.now) }
{
    match &statement.node {
        StmtNode::ForIn {
            declared: _,
            target,
            object: _,
            body: _,
        } => !is_target(target),
        _ => false,
    }
}

fn is_target(expression: &Expr) -> bool
    ensures { result ≡ rules.is_target expression.now }
{
    matches!(
        &expression.node,
        ExprNode::Name(_) | ExprNode::Member(_, _) | ExprNode::Index(_, _)
    )
}

/// Whether the statement is a function declaration.
pub fn is_declaration(statement: &Stmt) -> bool
    ensures { result ≡ form.is_declaration (nodes.statement statement.now) }
{
    matches!(&statement.node, StmtNode::Function(_))
}

fn is_high_function(is_callee: bool, expression: &Expr) -> bool
    ensures { result ≡ form.is_high_function (nodes.expression is_callee expression.now) }
{
    match &expression.node {
        ExprNode::Func(code) => !(is_callee && is_factory(code)) && is_high(code),
        _ => false,
    }
}

fn declares_high_function(statement: &Stmt) -> bool
    ensures { result ≡ form.is_high_function (nodes.statement statement.now) }
{
    match &statement.node {
        StmtNode::Function(code) => is_high(code),
        _ => false,
    }
}

fn is_high(code: &Code) -> bool
    ensures { result ≡ nat_lt function_height_limit (code_height code.now + 1) }
{
    code.height() + 1 > FUNCTION_HEIGHT_LIMIT
}

fn is_factory(code: &Code) -> bool
    ensures { result ≡ form.is_factory code.now }
{
    match &code.name {
        None => are_reserved(code.formals.as_slice()) && returns_function(code.body.as_slice()),
        Some(_) => false,
    }
}

fn are_reserved(names: &[Units]) -> bool
    ensures { result ≡ list_all is_reserved names.now }
{
    names.iter().all(|name| is_reserved(name))
}

fn returns_function(statements: &[Stmt]) -> bool
    ensures { result ≡ form.returns_function (stmts_of statements.now) }
{
    match statements {
        [] => false,
        [statement, after @ ..] => after.is_empty() && is_return_of_function(statement),
    }
}

fn is_return_of_function(statement: &Stmt) -> bool
    ensures { result ≡ form.is_return_of_function statement.now }
{
    match &statement.node {
        StmtNode::Return(Some(value)) => is_function(value),
        _ => false,
    }
}

fn is_function(expression: &Expr) -> bool
    ensures { result ≡ form.is_function_expression expression.now }
{
    matches!(&expression.node, ExprNode::Func(_))
}
