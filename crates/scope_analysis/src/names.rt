//! The names that functions declare (ECMA-262 5.1 section 10.5).
//!
//! What is nested is recursed into, which is bounded by the height of trees. A list is gone over in a loop.

ghost use Rattle.std.specs.Prelude.{◌≡◌, ◌++◌, IfOk, OnOk, option_map};
ghost use Rattle.js_core.specs.Tree.{stmts_of, maybe_stmts};
ghost use Rattle.js_core.specs.Views.{declarators_of, init_of, catch_of, cases_of};
ghost use Rattle.scope_analysis.specs.Names as spec;

use indexmap::IndexSet;
use js_core::{
    Case, Catch, Code, Declarator, Expr, ExprNode, ForInit, OutOfMemory, Stmt, StmtNode, Units,
};
use std::alloc::Global;

/// Whether the name is one of these.
pub fn is_among(name: &Units, names: &[Units]) -> bool
    ensures { result ≡ spec.is_among name.now names.now }
{
    names.iter().any(|other| *name == *other)
}

/// Whether a name stands twice among these.
#[tactic(auto, using(crate::proofs::Repeats::repeats_once_more))]
pub fn has_repeat(alloc: Global, names: &[Units]) -> Result<bool, OutOfMemory>
    ensures { IfOk result (λ found. found ≡ spec.has_repeat names.now) }
{
    let mut seen = IndexSet::new(alloc);
    let mut rest = names;
    while let [name, after @ ..] = rest {
        if !seen.insert(name.clone()?)? {
            return Ok(true);
        }
        rest = after;
    }
    Ok(false)
}

/// Appends the names that the variable statements and function declarations among these statements of a function
/// declare, in source order and as often as they do. Functions inside are not entered.
#[cycle(declaring)]
pub fn push_declared_names(statements: &[Stmt], out: &mut Vec<Units>) -> Result<(), OutOfMemory>
    ensures { OnOk result (out.new.items ≡ out.old.items
        ++ spec.declared_names (stmts_of statements.now)) }
{
    let mut rest = statements;
    while let [statement, after @ ..] = rest {
        push_statement_names(statement, out)?;
        rest = after;
    }
    Ok(())
}

#[cycle(declaring)]
fn push_statement_names(statement: &Stmt, out: &mut Vec<Units>) -> Result<(), OutOfMemory>
    ensures { OnOk result (out.new.items ≡ out.old.items ++ spec.stmt_names statement.now) }
{
    match &statement.node {
        StmtNode::Var(declarators) => push_declarator_names(declarators.as_slice(), out),
        StmtNode::Function(code) => push_function_name(code, out),
        StmtNode::Block(body) | StmtNode::Do(body, _) | StmtNode::While(_, body) => {
            push_declared_names(body.as_slice(), out)
        }
        StmtNode::If(parts) => {
            push_declared_names(parts.first.as_slice(), out)?;
            push_maybe_body_names(&parts.second, out)
        }
        StmtNode::For(parts) => {
            push_init_names(&parts.init, out)?;
            push_declared_names(parts.body.as_slice(), out)
        }
        StmtNode::ForIn {
            declared,
            target,
            object: _,
            body,
        } => {
            push_target_name(*declared, target, out)?;
            push_declared_names(body.as_slice(), out)
        }
        StmtNode::Try(parts) => {
            push_declared_names(parts.block.as_slice(), out)?;
            push_catch_names(&parts.catch, out)?;
            push_maybe_body_names(&parts.last, out)
        }
        StmtNode::Switch(_, cases) => push_case_names(cases.as_slice(), out),
        StmtNode::Expr(_)
        | StmtNode::Empty
        | StmtNode::Continue
        | StmtNode::Break
        | StmtNode::Return(_)
        | StmtNode::Throw(_) => Ok(()),
    }
}

#[cycle(declaring)]
fn push_maybe_body_names(body: &Option<Vec<Stmt>>, out: &mut Vec<Units>) -> Result<(), OutOfMemory>
    ensures { OnOk result (out.new.items ≡ out.old.items
        ++ spec.maybe_body_names (maybe_stmts (option_map (λ v. v.items) body.now))) }
{
    match body {
        None => Ok(()),
        Some(body) => push_declared_names(body.as_slice(), out),
    }
}

#[cycle(declaring)]
fn push_catch_names(catch: &Option<Catch>, out: &mut Vec<Units>) -> Result<(), OutOfMemory>
    ensures { OnOk result (out.new.items ≡ out.old.items ++ spec.catch_names (catch_of catch.now)) }
{
    match catch {
        None => Ok(()),
        Some(catch) => push_declared_names(catch.body.as_slice(), out),
    }
}

#[cycle(declaring)]
fn push_case_names(cases: &[Case], out: &mut Vec<Units>) -> Result<(), OutOfMemory>
    ensures { OnOk result (out.new.items ≡ out.old.items ++ spec.case_names (cases_of cases.now)) }
{
    let mut rest = cases;
    while let [case, after @ ..] = rest {
        push_declared_names(case.body.as_slice(), out)?;
        rest = after;
    }
    Ok(())
}

/// Appends the name.
pub fn push_name(name: &Units, out: &mut Vec<Units>) -> Result<(), OutOfMemory>
    ensures { OnOk result (out.new.items ≡ out.old.items ++ spec.maybe_name (Some name.now)) }
{
    out.push(name.clone()?)?;
    Ok(())
}

/// Appends the name that may be there.
pub fn push_maybe_name(name: &Option<Units>, out: &mut Vec<Units>) -> Result<(), OutOfMemory>
    ensures { OnOk result (out.new.items ≡ out.old.items ++ spec.maybe_name name.now) }
{
    match name {
        None => Ok(()),
        Some(name) => push_name(name, out),
    }
}

fn push_function_name(code: &Code, out: &mut Vec<Units>) -> Result<(), OutOfMemory>
    ensures { OnOk result (out.new.items ≡ out.old.items
        ++ spec.maybe_name (spec.code_name code.now)) }
{
    push_maybe_name(&code.name, out)
}

fn push_declarator_names(
    declarators: &[Declarator],
    out: &mut Vec<Units>,
) -> Result<(), OutOfMemory>
    ensures { OnOk result (out.new.items ≡ out.old.items
        ++ spec.declarator_names (declarators_of declarators.now)) }
{
    let mut rest = declarators;
    while let [declarator, after @ ..] = rest {
        push_name(&declarator.name, out)?;
        rest = after;
    }
    Ok(())
}

fn push_init_names(init: &ForInit, out: &mut Vec<Units>) -> Result<(), OutOfMemory>
    ensures { OnOk result (out.new.items ≡ out.old.items ++ spec.init_names (init_of init.now)) }
{
    match init {
        ForInit::Nothing | ForInit::Expr(_) => Ok(()),
        ForInit::Var(declarators) => push_declarator_names(declarators.as_slice(), out),
    }
}

fn push_target_name(declared: bool, target: &Expr, out: &mut Vec<Units>) -> Result<(), OutOfMemory>
    ensures { OnOk result (out.new.items ≡ out.old.items ++ spec.target_names declared target.now) }
{
    match &target.node {
        ExprNode::Name(name) if declared => push_name(name, out),
        _ => Ok(()),
    }
}

/// Appends names.
pub fn push_names(names: &[Units], out: &mut Vec<Units>) -> Result<(), OutOfMemory>
    ensures { OnOk result (out.new.items ≡ out.old.items ++ names.now) }
{
    let mut rest = names;
    while let [name, after @ ..] = rest {
        push_name(name, out)?;
        rest = after;
    }
    Ok(())
}

/// Appends the names of a function's formals, and those that its body declares.
pub fn push_bound_names(code: &Code, out: &mut Vec<Units>) -> Result<(), OutOfMemory>
    ensures { OnOk result (out.new.items ≡ out.old.items ++ spec.bound_names code.now) }
{
    push_names(code.formals.as_slice(), out)?;
    push_declared_names(code.body.as_slice(), out)
}

/// The name of a function expression that is a variable of it: no formal, variable or function in it has that name
/// (section 13).
pub fn own_name(alloc: Global, code: &Code) -> Result<Option<Units>, OutOfMemory>
    ensures { IfOk result (λ own. own ≡ spec.own_name code.now) }
{
    match &code.name {
        None => Ok(None),
        Some(name) => unless_bound(alloc, name, code),
    }
}

fn unless_bound(alloc: Global, name: &Units, code: &Code) -> Result<Option<Units>, OutOfMemory>
    ensures { IfOk result (λ own. own ≡ spec.unless_among (Some name.now)
        (spec.bound_names code.now)) }
{
    let mut bound = Vec::new(alloc);
    push_bound_names(code, &mut bound)?;
    if is_among(name, bound.as_slice()) {
        return Ok(None);
    }
    Ok(Some(name.clone()?))
}
