//! How functions and catch clauses do in their tests, by the uses inside.

ghost use Rattle.std.specs.Prelude.{◌≡◌, IfOk};
ghost use Rattle.std.specs.List.{list_all};
ghost use Rattle.js_core.specs.Tree.{fields_of, stmts_of, maybe_expr};
ghost use Rattle.js_core.specs.Views.{declarators_of};
ghost use Rattle.early_rules.specs.EarlyRules as rules;
ghost use Rattle.script_rules.specs.Form as spec;
ghost use Rattle.scope_analysis.specs.Names as names;
ghost use Rattle.script_rules.specs.ScopeTests.{expression_scope, declaration_scope, clause_scope};
ghost use Rattle.scope_analysis.specs.Uses.{stmts_uses};
ghost use Rattle.scope_analysis.specs.UseTables.{table_of};
ghost use Rattle.script_rules.specs.Variables.{Tells};

use crate::scope_test::ScopeTest;
use indexmap::IndexSet;
use js_core::{
    Catch, Code, Declarator, Expr, ExprNode, OutOfMemory, Stmt, StmtNode, UnaryOp, Units,
};
use scope_analysis::{
    UseTable, is_among, is_reserved, name_table, own_name, push_bound_names, push_declared_names,
};
use std::alloc::Global;

/// Whether a function expression passes the test, by the uses in its body.
pub fn expression_scope_passes(
    alloc: Global,
    test: ScopeTest,
    code: &Code,
    uses: &UseTable,
) -> Result<bool, OutOfMemory>
    requires { uses.now ≡ table_of (stmts_uses (names.code_body code.now)) }
    ensures { IfOk result (λ found. found ≡ expression_scope test code.now) }
{
    match test {
        ScopeTest::AssignsOwnName => assigns_own(alloc, code, uses),
        ScopeTest::IsOutOfForm => {
            Ok(!(are_variables_in_form(alloc, code, uses)? && is_own_free(alloc, code, uses)?))
        }
    }
}

/// Whether a function declaration does.
pub fn declaration_scope_passes(
    alloc: Global,
    test: ScopeTest,
    code: &Code,
    uses: &UseTable,
) -> Result<bool, OutOfMemory>
    requires { uses.now ≡ table_of (stmts_uses (names.code_body code.now)) }
    ensures { IfOk result (λ found. found ≡ declaration_scope test code.now) }
{
    match test {
        ScopeTest::AssignsOwnName => Ok(false),
        ScopeTest::IsOutOfForm => Ok(!are_variables_in_form(alloc, code, uses)?),
    }
}

/// Whether a catch clause passes the test, by the uses of its block.
pub fn clause_scope_passes(test: ScopeTest, clause: &Catch, uses: &UseTable) -> bool
    requires { uses.now ≡ table_of (stmts_uses (stmts_of clause.now.body.items)) }
    ensures { result ≡ clause_scope test clause.now.name (stmts_of clause.now.body.items) }
{
    match test {
        ScopeTest::AssignsOwnName => false,
        ScopeTest::IsOutOfForm => {
            !is_parameter_in_form(&clause.name, clause.body.as_slice(), uses)
        }
    }
}

fn assigns_own(alloc: Global, code: &Code, uses: &UseTable) -> Result<bool, OutOfMemory>
    requires { uses.now ≡ table_of (stmts_uses (names.code_body code.now)) }
    ensures { IfOk result (λ found. found ≡ rules.assigns_own code.now) }
{
    match own_name(alloc, code)? {
        None => Ok(false),
        Some(own) => Ok(uses.is_assigned(&own)),
    }
}

fn is_own_free(alloc: Global, code: &Code, uses: &UseTable) -> Result<bool, OutOfMemory>
    requires { uses.now ≡ table_of (stmts_uses (names.code_body code.now)) }
    ensures { IfOk result (λ good. good ≡ spec.is_not_captured (names.own_name code.now)
        (stmts_uses (names.code_body code.now))) }
{
    match own_name(alloc, code)? {
        None => Ok(true),
        Some(own) => Ok(!uses.is_captured(&own)),
    }
}

fn are_variables_in_form(alloc: Global, code: &Code, uses: &UseTable) -> Result<bool, OutOfMemory>
    requires { uses.now ≡ table_of (stmts_uses (names.code_body code.now)) }
    ensures { IfOk result (λ good. good ≡ spec.are_variables_in_form code.now
        (stmts_uses (names.code_body code.now))) }
{
    let mut declared = Vec::new(alloc);
    push_declared_names(code.body.as_slice(), &mut declared)?;
    let mut bound = Vec::new(alloc);
    push_bound_names(code, &mut bound)?;
    let variables = Variables {
        formals: name_table(alloc, code.formals.as_slice())?,
        declared: name_table(alloc, declared.as_slice())?,
    };
    Ok(may_all_be_captured(
        &variables,
        code,
        declared.as_slice(),
        uses,
        bound.as_slice(),
    ))
}

// Tables of a function's names, so that what is asked of each of its variables costs a look-up.
#[derive(Drop)]
struct Variables {
    formals: IndexSet<Units>,
    // What the variable statements and function declarations of the body declare.
    declared: IndexSet<Units>,
}

fn may_all_be_captured(
    variables: &Variables,
    code: &Code,
    declared: &[Units],
    uses: &UseTable,
    candidates: &[Units],
) -> bool
    requires tables { Tells variables.now (names.code_formals code.now) declared.now }
    requires uses { uses.now ≡ table_of (stmts_uses (names.code_body code.now)) }
    ensures { result ≡ list_all (spec.may_be_captured (names.code_formals code.now) declared.now
        (names.code_body code.now) (stmts_uses (names.code_body code.now))) candidates.now }
{
    let mut rest = candidates;
    while let [name, after @ ..] = rest {
        if uses.is_captured(name) && !can_be_rebuilt(variables, code, declared, uses, name) {
            return false;
        }
        rest = after;
    }
    true
}

fn can_be_rebuilt(
    variables: &Variables,
    code: &Code,
    declared: &[Units],
    uses: &UseTable,
    name: &Units,
) -> bool
    requires tables { Tells variables.now (names.code_formals code.now) declared.now }
    requires uses { uses.now ≡ table_of (stmts_uses (names.code_body code.now)) }
    ensures { result ≡ spec.can_be_rebuilt (names.code_formals code.now) declared.now
        (names.code_body code.now) (stmts_uses (names.code_body code.now)) name.now }
{
    if !is_reserved(name) {
        return false;
    }
    if variables.formals.contains(name) {
        return !uses.is_assigned(name) && !variables.declared.contains(name);
    }
    is_opened(code.body.as_slice(), declared, uses, name)
}

fn is_opened(body: &[Stmt], declared: &[Units], uses: &UseTable, name: &Units) -> bool
    requires { uses.now ≡ table_of (stmts_uses (stmts_of body.now)) }
    ensures { result ≡ spec.is_opened declared.now (stmts_of body.now)
        (stmts_uses (stmts_of body.now)) name.now }
{
    opens_with(name, body) && is_once(name, declared) && uses.is_assigned_once(name)
}

fn is_parameter_in_form(parameter: &Units, body: &[Stmt], uses: &UseTable) -> bool
    requires { uses.now ≡ table_of (stmts_uses (stmts_of body.now)) }
    ensures { result ≡ spec.is_parameter_in_form parameter.now (stmts_of body.now)
        (stmts_uses (stmts_of body.now)) }
{
    if !uses.is_captured(parameter) {
        return true;
    }
    is_reserved(parameter) && boxes(parameter, body) && uses.is_assigned_once(parameter)
}

fn is_once(name: &Units, names: &[Units]) -> bool
    ensures { result ≡ spec.is_once name.now names.now }
{
    let mut rest = names;
    while let [other, after @ ..] = rest {
        if *name == *other {
            return !is_among(name, after);
        }
        rest = after;
    }
    false
}

fn opens_with(name: &Units, body: &[Stmt]) -> bool
    ensures { result ≡ spec.opens_with name.now (stmts_of body.now) }
{
    match body {
        [] => false,
        [first, _after @ ..] => is_opening(name, first),
    }
}

fn is_opening(name: &Units, statement: &Stmt) -> bool
    ensures { result ≡ spec.is_opening name.now statement.now }
{
    match &statement.node {
        StmtNode::Var(declarators) => is_opening_declarator(name, declarators.as_slice()),
        _ => false,
    }
}

fn is_opening_declarator(name: &Units, declarators: &[Declarator]) -> bool
    ensures { result ≡ spec.is_opening_declarator name.now (declarators_of declarators.now) }
{
    match declarators {
        [] => false,
        [declarator, after @ ..] => {
            after.is_empty() && declarator.name == *name && is_plain_initialiser(&declarator.value)
        }
    }
}

fn is_plain_initialiser(value: &Option<Expr>) -> bool
    ensures { result ≡ spec.is_plain_initialiser (maybe_expr value.now) }
{
    match value {
        None => false,
        Some(value) => is_plain_literal(value),
    }
}

fn is_plain_literal(expression: &Expr) -> bool
    ensures { result ≡ spec.is_plain_literal expression.now }
{
    match &expression.node {
        ExprNode::Literal(fields) => are_plain_fields(fields.as_slice()),
        _ => false,
    }
}

fn are_plain_fields(fields: &[(Units, Expr)]) -> bool
    ensures { result ≡ spec.are_plain_fields (fields_of fields.now) }
{
    let mut rest = fields;
    while let [(_, value), after @ ..] = rest {
        if !is_plain_value(value) {
            return false;
        }
        rest = after;
    }
    true
}

// An identifier, or `void 0`.
fn is_plain_value(expression: &Expr) -> bool
    ensures { result ≡ spec.is_plain_value expression.now }
{
    match &expression.node {
        ExprNode::Name(_) => true,
        ExprNode::Unary(UnaryOp::Void, operand) => is_zero(operand),
        _ => false,
    }
}

fn is_zero(expression: &Expr) -> bool
    ensures { result ≡ spec.is_zero expression.now }
{
    match &expression.node {
        ExprNode::Num(number) => match number.get() {
            None => false,
            Some(value) => value == 0,
        },
        _ => false,
    }
}

fn boxes(name: &Units, body: &[Stmt]) -> bool
    ensures { result ≡ spec.boxes name.now (stmts_of body.now) }
{
    match body {
        [] => false,
        [first, _after @ ..] => is_boxing(name, first),
    }
}

fn is_boxing(name: &Units, statement: &Stmt) -> bool
    ensures { result ≡ spec.is_boxing name.now statement.now }
{
    match &statement.node {
        StmtNode::Expr(expression) => is_boxing_assignment(name, expression),
        _ => false,
    }
}

fn is_boxing_assignment(name: &Units, expression: &Expr) -> bool
    ensures { result ≡ spec.is_boxing_assignment name.now expression.now }
{
    match &expression.node {
        ExprNode::Assign(None, target, value) => is_name(name, target) && is_box(name, value),
        _ => false,
    }
}

fn is_name(name: &Units, expression: &Expr) -> bool
    ensures { result ≡ spec.is_name_of name.now expression.now }
{
    match &expression.node {
        ExprNode::Name(other) => *other == *name,
        _ => false,
    }
}

// An object literal with one field, whose value is the name.
fn is_box(name: &Units, expression: &Expr) -> bool
    ensures { result ≡ spec.is_box_of name.now expression.now }
{
    match &expression.node {
        ExprNode::Literal(fields) => is_field(name, fields.as_slice()),
        _ => false,
    }
}

fn is_field(name: &Units, fields: &[(Units, Expr)]) -> bool
    ensures { result ≡ spec.is_field_of name.now (fields_of fields.now) }
{
    match fields {
        [] => false,
        [(_, value), after @ ..] => after.is_empty() && is_name(name, value),
    }
}
