//! The uses of names in a tree, and whether a function or a catch clause in it passes a test.
//!
//! What is nested is recursed into, which is bounded by the height of trees. A list is gone over in a loop. A use is noted
//! in a table of the innermost function or catch clause round it, where each name stands once; what a body leaves to the
//! scopes round it is noted there name by name. So a use costs the same however many functions stand round it, and a
//! function as much as the names that it needs from round it.
//!
//! Each function notes the uses of a piece and answers whether a node of the piece passes the test.
#![tactic(auto, using(scope_analysis::proofs::Callers::noted_append))]

ghost use Rattle.std.specs.Prelude.{◌≡◌, ◌||◌, ◌++◌, false, OnOk, IfOk, option_map};
ghost use Rattle.js_core.specs.Tree.{exprs_of, maybe_expr, holes_of, fields_of, stmts_of, maybe_stmts};
ghost use Rattle.js_core.specs.Tree as tree;
ghost use Rattle.js_core.specs.Views.{declarators_of, init_of, catch_of, cases_of};
ghost use Rattle.scope_analysis.specs.Nodes as nodes;
ghost use Rattle.script_rules.specs.ScopeTests.{scope_passes, clause_scope};
ghost use Rattle.scope_analysis.specs.UseTables.{noted};
ghost use Rattle.scope_analysis.specs.Uses as spec;

use crate::scope_test::ScopeTest;
use crate::scope_tests::{clause_scope_passes, declaration_scope_passes, expression_scope_passes};
use js_core::{
    Case, Catch, Code, Declarator, Expr, ExprNode, For, ForInit, If, OutOfMemory, Stmt, StmtNode,
    Try, Units,
};
use scope_analysis::{UseTable, note_leaving_clause, note_leaving_function, note_use};

/// Notes the uses of statements that no function or catch clause among them binds, and answers whether a function or catch
/// clause in them passes the test.
#[cycle(using_names)]
pub fn note_statements(
    test: ScopeTest,
    statements: &[Stmt],
    out: &mut UseTable,
) -> Result<bool, OutOfMemory>
    ensures uses { OnOk result (out.new ≡ noted out.old
        (spec.stmts_uses (stmts_of statements.now))) }
    ensures found { IfOk result (λ found. found
        ≡ nodes.stmts_any (scope_passes test) (stmts_of statements.now)) }
{
    let mut found = false;
    let mut rest = statements;
    while let [statement, after @ ..] = rest {
        let here = note_statement(test, statement, out)?;
        found = found || here;
        rest = after;
    }
    Ok(found)
}

#[cycle(using_names)]
fn note_statement(
    test: ScopeTest,
    statement: &Stmt,
    out: &mut UseTable,
) -> Result<bool, OutOfMemory>
    ensures uses { OnOk result (out.new ≡ noted out.old (spec.stmt_uses statement.now)) }
    ensures found { IfOk result (λ found. found
        ≡ nodes.stmt_any (scope_passes test) statement.now) }
{
    match &statement.node {
        StmtNode::Empty | StmtNode::Continue | StmtNode::Break => Ok(false),
        StmtNode::Var(declarators) => note_declarators(test, declarators.as_slice(), out),
        StmtNode::Function(code) => note_declaration(test, code, out),
        StmtNode::Expr(value) | StmtNode::Throw(value) => note_expression(test, value, out),
        StmtNode::Block(body) => note_statements(test, body.as_slice(), out),
        StmtNode::If(parts) => note_if(test, parts, out),
        StmtNode::Do(body, value) => {
            let in_body = note_statements(test, body.as_slice(), out)?;
            let in_value = note_expression(test, value, out)?;
            Ok(in_body || in_value)
        }
        StmtNode::While(value, body) => {
            let in_value = note_expression(test, value, out)?;
            let in_body = note_statements(test, body.as_slice(), out)?;
            Ok(in_value || in_body)
        }
        StmtNode::For(parts) => note_for(test, parts, out),
        StmtNode::ForIn {
            declared: _,
            target,
            object,
            body,
        } => note_for_in(test, target, object, body.as_slice(), out),
        StmtNode::Return(value) => note_maybe_expression(test, value, out),
        StmtNode::Try(parts) => note_try(test, parts, out),
        StmtNode::Switch(value, cases) => {
            let in_subject = note_expression(test, value, out)?;
            let in_cases = note_cases(test, cases.as_slice(), out)?;
            Ok(in_subject || in_cases)
        }
    }
}

#[cycle(using_names)]
fn note_if(test: ScopeTest, parts: &If, out: &mut UseTable) -> Result<bool, OutOfMemory>
    ensures uses { OnOk result (out.new ≡ noted out.old
        (spec.stmt_uses (tree.if_else parts.now.test (stmts_of parts.now.first.items)
        (maybe_stmts (option_map (λ v. v.items) parts.now.second))))) }
    ensures found { IfOk result (λ found. found
        ≡ nodes.stmt_any (scope_passes test) (tree.if_else parts.now.test
        (stmts_of parts.now.first.items)
        (maybe_stmts (option_map (λ v. v.items) parts.now.second)))) }
{
    let in_value = note_expression(test, &parts.test, out)?;
    let in_first = note_statements(test, parts.first.as_slice(), out)?;
    let in_second = note_maybe_body(test, &parts.second, out)?;
    Ok(in_value || in_first || in_second)
}

#[cycle(using_names)]
fn note_for(test: ScopeTest, parts: &For, out: &mut UseTable) -> Result<bool, OutOfMemory>
    ensures uses { OnOk result (out.new ≡ noted out.old
        (spec.stmt_uses (tree.for (init_of parts.now.init) (maybe_expr parts.now.test)
        (maybe_expr parts.now.step) (stmts_of parts.now.body.items)))) }
    ensures found { IfOk result (λ found. found
        ≡ nodes.stmt_any (scope_passes test) (tree.for (init_of parts.now.init)
        (maybe_expr parts.now.test) (maybe_expr parts.now.step)
        (stmts_of parts.now.body.items))) }
{
    let in_init = note_init(test, &parts.init, out)?;
    let in_condition = note_maybe_expression(test, &parts.test, out)?;
    let in_step = note_maybe_expression(test, &parts.step, out)?;
    let in_body = note_statements(test, parts.body.as_slice(), out)?;
    Ok(in_init || in_condition || in_step || in_body)
}

#[cycle(using_names)]
fn note_for_in(
    test: ScopeTest,
    target: &Expr,
    object: &Expr,
    body: &[Stmt],
    out: &mut UseTable,
) -> Result<bool, OutOfMemory>
    ensures uses { OnOk result (out.new ≡ noted out.old
        (spec.stmt_uses (tree.for_in false target.now object.now (stmts_of body.now)))) }
    ensures found { IfOk result (λ found. found
        ≡ nodes.stmt_any (scope_passes test) (tree.for_in false target.now object.now
        (stmts_of body.now))) }
{
    let in_name = note_target(test, target, out)?;
    let in_object = note_expression(test, object, out)?;
    let in_body = note_statements(test, body, out)?;
    Ok(in_name || in_object || in_body)
}

#[cycle(using_names)]
fn note_try(test: ScopeTest, parts: &Try, out: &mut UseTable) -> Result<bool, OutOfMemory>
    ensures uses { OnOk result (out.new ≡ noted out.old
        (spec.stmt_uses (tree.try (stmts_of parts.now.block.items) (catch_of parts.now.catch)
        (maybe_stmts (option_map (λ v. v.items) parts.now.last))))) }
    ensures found { IfOk result (λ found. found
        ≡ nodes.stmt_any (scope_passes test) (tree.try (stmts_of parts.now.block.items)
        (catch_of parts.now.catch) (maybe_stmts (option_map (λ v. v.items) parts.now.last)))) }
{
    let in_block = note_statements(test, parts.block.as_slice(), out)?;
    let in_catch = note_catch(test, &parts.catch, out)?;
    let in_last = note_maybe_body(test, &parts.last, out)?;
    Ok(in_block || in_catch || in_last)
}

#[cycle(using_names)]
fn note_maybe_body(
    test: ScopeTest,
    body: &Option<Vec<Stmt>>,
    out: &mut UseTable,
) -> Result<bool, OutOfMemory>
    ensures uses { OnOk result (out.new ≡ noted out.old
        (spec.maybe_stmts_uses (maybe_stmts (option_map (λ v. v.items) body.now)))) }
    ensures found { IfOk result (λ found. found
        ≡ nodes.maybe_stmts_any (scope_passes test)
        (maybe_stmts (option_map (λ v. v.items) body.now))) }
{
    match body {
        None => Ok(false),
        Some(body) => note_statements(test, body.as_slice(), out),
    }
}

#[cycle(using_names)]
fn note_catch(
    test: ScopeTest,
    catch: &Option<Catch>,
    out: &mut UseTable,
) -> Result<bool, OutOfMemory>
    ensures uses { OnOk result (out.new ≡ noted out.old (spec.catch_uses (catch_of catch.now))) }
    ensures found { IfOk result (λ found. found
        ≡ nodes.catch_any (scope_passes test) (catch_of catch.now)) }
{
    match catch {
        None => Ok(false),
        Some(catch) => note_clause(test, catch, out),
    }
}

#[cycle(using_names)]
fn note_clause(test: ScopeTest, clause: &Catch, out: &mut UseTable) -> Result<bool, OutOfMemory>
    ensures uses { OnOk result (out.new ≡ noted out.old
        (spec.leaving_clause clause.now.name (spec.stmts_uses (stmts_of clause.now.body.items)))) }
    ensures found { IfOk result (λ found. found
        ≡ (clause_scope test clause.now.name (stmts_of clause.now.body.items)
        || nodes.stmts_any (scope_passes test) (stmts_of clause.now.body.items))) }
{
    let mut uses = UseTable::new(out.alloc());
    let inside = note_statements(test, clause.body.as_slice(), &mut uses)?;
    let here = clause_scope_passes(test, clause, &uses);
    note_leaving_clause(&clause.name, &uses, out)?;
    Ok(here || inside)
}

#[cycle(using_names)]
fn note_cases(test: ScopeTest, cases: &[Case], out: &mut UseTable) -> Result<bool, OutOfMemory>
    ensures uses { OnOk result (out.new ≡ noted out.old (spec.cases_uses (cases_of cases.now))) }
    ensures found { IfOk result (λ found. found
        ≡ nodes.cases_any (scope_passes test) (cases_of cases.now)) }
{
    let mut found = false;
    let mut rest = cases;
    while let [case, after @ ..] = rest {
        let in_label = note_maybe_expression(test, &case.test, out)?;
        let in_body = note_statements(test, case.body.as_slice(), out)?;
        found = found || in_label || in_body;
        rest = after;
    }
    Ok(found)
}

#[cycle(using_names)]
fn note_declarators(
    test: ScopeTest,
    declarators: &[Declarator],
    out: &mut UseTable,
) -> Result<bool, OutOfMemory>
    ensures uses { OnOk result (out.new ≡ noted out.old
        (spec.declarators_uses (declarators_of declarators.now))) }
    ensures found { IfOk result (λ found. found
        ≡ nodes.declarators_any (scope_passes test) (declarators_of declarators.now)) }
{
    let mut found = false;
    let mut rest = declarators;
    while let [declarator, after @ ..] = rest {
        let here = note_declarator(test, &declarator.name, &declarator.value, out)?;
        found = found || here;
        rest = after;
    }
    Ok(found)
}

#[cycle(using_names)]
fn note_declarator(
    test: ScopeTest,
    name: &Units,
    value: &Option<Expr>,
    out: &mut UseTable,
) -> Result<bool, OutOfMemory>
    ensures uses { OnOk result (out.new ≡ noted out.old
        (spec.declarator_uses name.now (maybe_expr value.now))) }
    ensures found { IfOk result (λ found. found
        ≡ nodes.maybe_expr_any (scope_passes test) (maybe_expr value.now)) }
{
    match value {
        None => Ok(false),
        Some(value) => {
            note_use(true, name, out)?;
            note_expression(test, value, out)
        }
    }
}

#[cycle(using_names)]
fn note_init(test: ScopeTest, init: &ForInit, out: &mut UseTable) -> Result<bool, OutOfMemory>
    ensures uses { OnOk result (out.new ≡ noted out.old (spec.init_uses (init_of init.now))) }
    ensures found { IfOk result (λ found. found
        ≡ nodes.init_any (scope_passes test) (init_of init.now)) }
{
    match init {
        ForInit::Nothing => Ok(false),
        ForInit::Var(declarators) => note_declarators(test, declarators.as_slice(), out),
        ForInit::Expr(value) => note_expression(test, value, out),
    }
}

#[cycle(using_names)]
fn note_declaration(test: ScopeTest, code: &Code, out: &mut UseTable) -> Result<bool, OutOfMemory>
    ensures uses { OnOk result (out.new ≡ noted out.old (spec.stmt_uses (tree.function code.now))) }
    ensures found { IfOk result (λ found. found
        ≡ nodes.stmt_any (scope_passes test) (tree.function code.now)) }
{
    let mut uses = UseTable::new(out.alloc());
    let inside = note_statements(test, code.body.as_slice(), &mut uses)?;
    let here = declaration_scope_passes(out.alloc(), test, code, &uses)?;
    note_leaving_function(&None, code, &uses, out)?;
    Ok(here || inside)
}

#[cycle(using_names)]
fn note_function(test: ScopeTest, code: &Code, out: &mut UseTable) -> Result<bool, OutOfMemory>
    ensures uses { OnOk result (out.new ≡ noted out.old (spec.expr_uses (tree.func code.now))) }
    ensures found { IfOk result (λ found. found
        ≡ nodes.expr_any (scope_passes test) false (tree.func code.now)) }
{
    let mut uses = UseTable::new(out.alloc());
    let inside = note_statements(test, code.body.as_slice(), &mut uses)?;
    let here = expression_scope_passes(out.alloc(), test, code, &uses)?;
    note_leaving_function(&code.name, code, &uses, out)?;
    Ok(here || inside)
}

#[cycle(using_names)]
fn note_expression(
    test: ScopeTest,
    expression: &Expr,
    out: &mut UseTable,
) -> Result<bool, OutOfMemory>
    ensures uses { OnOk result (out.new ≡ noted out.old (spec.expr_uses expression.now)) }
    ensures found { IfOk result (λ found. found
        ≡ nodes.expr_any (scope_passes test) false expression.now) }
{
    match &expression.node {
        ExprNode::Name(name) => {
            note_use(false, name, out)?;
            Ok(false)
        }
        ExprNode::Num(_)
        | ExprNode::Text(_)
        | ExprNode::Bool(_)
        | ExprNode::Null
        | ExprNode::This => Ok(false),
        ExprNode::List(elements) => note_elements(test, elements.as_slice(), out),
        ExprNode::Literal(fields) => note_fields(test, fields.as_slice(), out),
        ExprNode::Func(code) => note_function(test, code, out),
        ExprNode::Member(operand, _) | ExprNode::Unary(_, operand) => {
            note_expression(test, operand, out)
        }
        ExprNode::Update {
            up: _,
            prefix: _,
            target,
        } => note_target(test, target, out),
        ExprNode::Index(left, right) => note_both(test, left, right, out),
        ExprNode::Binary(_, left, right) => note_both(test, left, right, out),
        ExprNode::And(left, right) => note_both(test, left, right, out),
        ExprNode::Or(left, right) => note_both(test, left, right, out),
        ExprNode::Assign(_, target, value) => {
            let in_target = note_target(test, target, out)?;
            let in_value = note_expression(test, value, out)?;
            Ok(in_target || in_value)
        }
        ExprNode::Call(callee, arguments) => { note_call(test, callee, arguments.as_slice(), out) }
        ExprNode::New(callee, arguments) => {
            let in_callee = note_expression(test, callee, out)?;
            let in_arguments = note_expressions(test, arguments.as_slice(), out)?;
            Ok(in_callee || in_arguments)
        }
        ExprNode::Cond(condition, first, second) => {
            let in_condition = note_expression(test, condition, out)?;
            let in_branches = note_both(test, first, second, out)?;
            Ok(in_condition || in_branches)
        }
        ExprNode::Comma(parts) => note_expressions(test, parts.as_slice(), out),
    }
}

#[cycle(using_names)]
fn note_both(
    test: ScopeTest,
    left: &Expr,
    right: &Expr,
    out: &mut UseTable,
) -> Result<bool, OutOfMemory>
    ensures uses { OnOk result (out.new ≡ noted out.old
        (spec.expr_uses left.now ++ spec.expr_uses right.now)) }
    ensures found { IfOk result (λ found. found
        ≡ (nodes.expr_any (scope_passes test) false left.now
        || nodes.expr_any (scope_passes test) false right.now)) }
{
    let in_left = note_expression(test, left, out)?;
    let in_right = note_expression(test, right, out)?;
    Ok(in_left || in_right)
}

#[cycle(using_names)]
#[tactic(auto, using(crate::proofs::Callees::same_at_callee, scope_analysis::proofs::Callers::noted_append))]
fn note_call(
    test: ScopeTest,
    callee: &Expr,
    arguments: &[Expr],
    out: &mut UseTable,
) -> Result<bool, OutOfMemory>
    ensures uses { OnOk result (out.new ≡ noted out.old
        (spec.expr_uses (tree.call callee.now (exprs_of arguments.now)))) }
    ensures found { IfOk result (λ found. found
        ≡ nodes.expr_any (scope_passes test) false
        (tree.call callee.now (exprs_of arguments.now))) }
{
    let in_callee = note_expression(test, callee, out)?;
    let in_arguments = note_expressions(test, arguments, out)?;
    Ok(in_callee || in_arguments)
}

// The uses of the target of an assignment: a name is assigned to.
#[cycle(using_names)]
fn note_target(test: ScopeTest, target: &Expr, out: &mut UseTable) -> Result<bool, OutOfMemory>
    ensures uses { OnOk result (out.new ≡ noted out.old
        (spec.target_uses target.now (spec.expr_uses target.now))) }
    ensures found { IfOk result (λ found. found
        ≡ nodes.expr_any (scope_passes test) false target.now) }
{
    match &target.node {
        ExprNode::Name(name) => {
            note_use(true, name, out)?;
            Ok(false)
        }
        _ => note_expression(test, target, out),
    }
}

#[cycle(using_names)]
fn note_expressions(
    test: ScopeTest,
    expressions: &[Expr],
    out: &mut UseTable,
) -> Result<bool, OutOfMemory>
    ensures uses { OnOk result (out.new ≡ noted out.old
        (spec.exprs_uses (exprs_of expressions.now))) }
    ensures found { IfOk result (λ found. found
        ≡ nodes.exprs_any (scope_passes test) (exprs_of expressions.now)) }
{
    let mut found = false;
    let mut rest = expressions;
    while let [expression, after @ ..] = rest {
        let here = note_expression(test, expression, out)?;
        found = found || here;
        rest = after;
    }
    Ok(found)
}

#[cycle(using_names)]
fn note_maybe_expression(
    test: ScopeTest,
    expression: &Option<Expr>,
    out: &mut UseTable,
) -> Result<bool, OutOfMemory>
    ensures uses { OnOk result (out.new ≡ noted out.old
        (spec.maybe_expr_uses (maybe_expr expression.now))) }
    ensures found { IfOk result (λ found. found
        ≡ nodes.maybe_expr_any (scope_passes test) (maybe_expr expression.now)) }
{
    match expression {
        None => Ok(false),
        Some(expression) => note_expression(test, expression, out),
    }
}

#[cycle(using_names)]
fn note_elements(
    test: ScopeTest,
    elements: &[Option<Expr>],
    out: &mut UseTable,
) -> Result<bool, OutOfMemory>
    ensures uses { OnOk result (out.new ≡ noted out.old (spec.holes_uses (holes_of elements.now))) }
    ensures found { IfOk result (λ found. found
        ≡ nodes.holes_any (scope_passes test) (holes_of elements.now)) }
{
    let mut found = false;
    let mut rest = elements;
    while let [element, after @ ..] = rest {
        let here = note_maybe_expression(test, element, out)?;
        found = found || here;
        rest = after;
    }
    Ok(found)
}

#[cycle(using_names)]
fn note_fields(
    test: ScopeTest,
    fields: &[(Units, Expr)],
    out: &mut UseTable,
) -> Result<bool, OutOfMemory>
    ensures uses { OnOk result (out.new ≡ noted out.old (spec.fields_uses (fields_of fields.now))) }
    ensures found { IfOk result (λ found. found
        ≡ nodes.fields_any (scope_passes test) (fields_of fields.now)) }
{
    let mut found = false;
    let mut rest = fields;
    while let [(_, value), after @ ..] = rest {
        let here = note_expression(test, value, out)?;
        found = found || here;
        rest = after;
    }
    Ok(found)
}
