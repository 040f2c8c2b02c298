//! The identifiers that a node has itself, and the tests on them.

ghost use Rattle.std.specs.Prelude.{◌≡◌};
ghost use Rattle.std.specs.List.{list_any};
ghost use Rattle.js_core.specs.Views.{declarators_of, init_of};
ghost use Rattle.scope_analysis.specs.Identifiers as spec;
ghost use Rattle.scope_analysis.specs.NameTests.{fits};
ghost use Rattle.scope_analysis.specs.Names.{declarator_names, init_names};

use crate::name_test::{NameTest, is_reserved, is_restricted};
use js_core::{Code, Declarator, Expr, ExprNode, ForInit, Stmt, StmtNode, Units};

/// Whether a name passes the test.
pub fn fits(test: NameTest, name: &Units) -> bool
    ensures { result ≡ fits test name.now }
{
    match test {
        NameTest::IsRestricted => is_restricted(name),
        NameTest::IsReserved => is_reserved(name),
    }
}

/// Whether some of the names do.
pub fn any_name_fits(test: NameTest, names: &[Units]) -> bool
    ensures { result ≡ list_any (fits test) names.now }
{
    names.iter().any(|name| fits(test, name))
}

/// Whether an identifier that the expression has itself passes the test.
pub fn expression_fits(test: NameTest, expression: &Expr) -> bool
    ensures { result ≡ list_any (fits test) (spec.expression_identifiers expression.now) }
{
    match &expression.node {
        ExprNode::Name(name) => fits(test, name),
        ExprNode::Func(code) => function_fits(test, code),
        _ => false,
    }
}

/// Whether an identifier that the statement has itself passes the test.
pub fn statement_fits(test: NameTest, statement: &Stmt) -> bool
    ensures { result ≡ list_any (fits test) (spec.statement_identifiers statement.now) }
{
    match &statement.node {
        StmtNode::Var(declarators) => declarators_fit(test, declarators.as_slice()),
        StmtNode::Function(code) => function_fits(test, code),
        StmtNode::For(parts) => init_fits(test, &parts.init),
        _ => false,
    }
}

fn function_fits(test: NameTest, code: &Code) -> bool
    ensures { result ≡ list_any (fits test) (spec.function_identifiers code.now) }
{
    match &code.name {
        None => any_name_fits(test, code.formals.as_slice()),
        Some(name) => fits(test, name) || any_name_fits(test, code.formals.as_slice()),
    }
}

fn init_fits(test: NameTest, init: &ForInit) -> bool
    ensures { result ≡ list_any (fits test) (init_names (init_of init.now)) }
{
    match init {
        ForInit::Nothing | ForInit::Expr(_) => false,
        ForInit::Var(declarators) => declarators_fit(test, declarators.as_slice()),
    }
}

fn declarators_fit(test: NameTest, declarators: &[Declarator]) -> bool
    ensures { result ≡ list_any (fits test) (declarator_names (declarators_of declarators.now)) }
{
    let mut rest = declarators;
    while let [declarator, after @ ..] = rest {
        if fits(test, &declarator.name) {
            return true;
        }
        rest = after;
    }
    false
}
