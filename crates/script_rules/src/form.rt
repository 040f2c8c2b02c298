//! The rule of form, and the other rules on names and heights of form pages.

ghost use Rattle.std.specs.Prelude.{◌≡◌, IfOk};
ghost use Rattle.js_core.specs.Tree.{stmts_of};
ghost use Rattle.script_rules.specs.Form as spec;

use crate::scope_test::ScopeTest;
use crate::uses::note_statements;
use early_rules::{NodeTest, any_in_code, any_in_script, any_in_statement};
use js_core::{OutOfMemory, Script, Stmt, StmtNode, Units};
use scope_analysis::{UseTable, is_reserved, push_declared_names};
use std::alloc::Global;

/// Whether the script is in form: each captured variable is one that a saved page can rebuild, each identifier that begins
/// with `$$` is a variable of a function or catch clause round it, no name that the script declares at its top begins so,
/// and function declarations stand at the top alone.
pub fn in_form(alloc: Global, script: &Script) -> Result<bool, OutOfMemory>
    ensures { IfOk result (λ good. good ≡ spec.in_form script.now) }
{
    are_in_form(alloc, script.body.as_slice())
}

/// Whether the script has an identifier that begins with `$$`: a reference, a variable, a function's name, a formal or a
/// catch parameter. Names of properties are none.
pub fn has_reserved_name(alloc: Global, script: &Script) -> Result<bool, OutOfMemory>
    ensures { IfOk result (λ found. found ≡ spec.has_reserved_name script.now) }
{
    any_in_script(alloc, NodeTest::HasReservedName, script)
}

/// Whether the script has a function that is no factory and that has, as an expression, a height of more than 400. A
/// factory is a function expression without a name that is called where it stands, whose formals all begin with `$$` and
/// whose body is one `return` of a function expression.
pub fn has_high_function(alloc: Global, script: &Script) -> Result<bool, OutOfMemory>
    ensures { IfOk result (λ found. found ≡ spec.has_high_function script.now) }
{
    any_in_script(alloc, NodeTest::IsHighFunction, script)
}

#[tactic(auto, using(scope_analysis::proofs::Callers::any_reserved))]
fn are_in_form(alloc: Global, statements: &[Stmt]) -> Result<bool, OutOfMemory>
    ensures { IfOk result (λ good. good ≡ spec.in_form (stmts_of statements.now)) }
{
    let mut uses = UseTable::new(alloc);
    let is_out = note_statements(ScopeTest::IsOutOfForm, statements, &mut uses)?;
    let mut declared = Vec::new(alloc);
    push_declared_names(statements, &mut declared)?;
    let is_open = uses.has_reserved_name() || any_is_reserved(declared.as_slice());
    let is_inner = has_inner_declaration(alloc, statements)?;
    Ok(!is_open && !is_inner && !is_out)
}

fn any_is_reserved(names: &[Units]) -> bool
    ensures { result ≡ spec.any_is_reserved names.now }
{
    names.iter().any(|name| is_reserved(name))
}

fn has_inner_declaration(alloc: Global, statements: &[Stmt]) -> Result<bool, OutOfMemory>
    ensures { IfOk result (λ found. found ≡ spec.has_inner_declaration (stmts_of statements.now)) }
{
    let mut rest = statements;
    while let [statement, after @ ..] = rest {
        if declares_inside(alloc, statement)? {
            return Ok(true);
        }
        rest = after;
    }
    Ok(false)
}

fn declares_inside(alloc: Global, statement: &Stmt) -> Result<bool, OutOfMemory>
    ensures { IfOk result (λ found. found ≡ spec.declares_inside statement.now) }
{
    match &statement.node {
        StmtNode::Function(code) => any_in_code(alloc, NodeTest::IsDeclaration, code),
        _ => any_in_statement(alloc, NodeTest::IsDeclaration, statement),
    }
}
