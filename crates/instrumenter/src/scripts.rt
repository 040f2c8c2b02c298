//! Whole scripts with opened scopes.

ghost use Rattle.std.specs.Prelude.{◌≡◌, ◌≤◌, ◌<◌, ◌+◌, ◌^◌, ℕ, true, All, IfOk, OnOk};
ghost use Rattle.js_core.specs.Height.{stmt_height, stmts_height};
ghost use Rattle.js_core.specs.Tree as tree;
ghost use Rattle.js_core.specs.Tree.{stmts_of};
ghost use Rattle.early_rules.specs.Limits.{plain_height_limit};
ghost use Rattle.instrumenter.specs.Around.{append, top};
ghost use Rattle.instrumenter.specs.Counting.{scripts_scopes, stmt_scopes, stmts_scopes};
ghost use Rattle.instrumenter.specs.Opening as spec;

use crate::functions::{open_declared, same_code, same_name};
use crate::pieces::push_node;
use crate::statements::push_statement;
use js_core::{Code, OutOfMemory, Script, Stmt, StmtNode};
use std::alloc::Global;

/// The scripts of a page, each with opened scopes. Objects are numbered from 1 through all scripts, and all have numbers that fit.
pub fn open_scopes(alloc: Global, scripts: &[Script]) -> Result<Vec<Script>, OutOfMemory>
    requires { All (λ body. stmts_height body ≤ plain_height_limit) scripts.now }
    ensures opened { IfOk result (λ opened. opened.items ≡ spec.open_scripts scripts.now) }
    ensures numbered { OnOk result (1 + scripts_scopes scripts.now < 2 ^ 64) }
{
    let mut opened = Vec::new(alloc);
    let mut next = 1;
    let mut rest = scripts;
    while let [script, after @ ..] = rest {
        opened.push(open_script(alloc, &mut next, script)?)?;
        rest = after;
    }
    number_fits(next);
    Ok(opened)
}

// Each number of the program is below 2^64.
fn number_fits(number: u64)
    ensures { number < 2 ^ 64 }
{}

// The script, where this is the number of the next scope's object.
fn open_script(alloc: Global, next: &mut u64, script: &Script) -> Result<Script, OutOfMemory>
    requires { stmts_height script.now ≤ plain_height_limit }
    ensures opened { IfOk result (λ s. s ≡ spec.open_script next.old script.now) }
    ensures counted { OnOk result (next.new ≡ next.old + stmts_scopes script.now) }
{
    let mut body = Vec::new(alloc);
    push_tops(alloc, next, script.body.as_slice(), &mut body)?;
    Ok(Script { body })
}

// Appends the opened statements of a script. The functions that it declares at its top stay where they are.
fn push_tops(
    alloc: Global,
    next: &mut u64,
    statements: &[Stmt],
    out: &mut Vec<Stmt>,
) -> Result<(), OutOfMemory>
    requires { stmts_height (stmts_of statements.now) ≤ plain_height_limit }
    ensures opened { OnOk result (stmts_of out.new.items ≡ append (stmts_of out.old.items)
        (spec.open_tops (top true) next.old (stmts_of statements.now))) }
    ensures counted { OnOk result (next.new ≡ next.old + stmts_scopes (stmts_of statements.now)) }
{
    let mut rest = statements;
    while let [statement, after @ ..] = rest {
        push_top(alloc, next, statement, out)?;
        rest = after;
    }
    Ok(())
}

fn push_top(
    alloc: Global,
    next: &mut u64,
    statement: &Stmt,
    out: &mut Vec<Stmt>,
) -> Result<(), OutOfMemory>
    requires { stmt_height statement.now ≤ plain_height_limit }
    ensures opened { OnOk result (stmts_of out.new.items ≡ append (stmts_of out.old.items)
        (spec.open_tops (top true) next.old (tree.then_stmt statement.now tree.no_stmts))) }
    ensures counted { OnOk result (next.new ≡ next.old + stmt_scopes statement.now) }
{
    match &statement.node {
        StmtNode::Function(code) => push_function(alloc, next, code, out),
        _ => push_statement(alloc, &[], next, statement, out),
    }
}

fn push_function(
    alloc: Global,
    next: &mut u64,
    code: &Code,
    out: &mut Vec<Stmt>,
) -> Result<(), OutOfMemory>
    requires { stmt_height (tree.function code.now) ≤ plain_height_limit }
    ensures opened { OnOk result (stmts_of out.new.items ≡ append (stmts_of out.old.items)
        (spec.open_tops (top true) next.old
        (tree.then_stmt (tree.function code.now) tree.no_stmts))) }
    ensures counted { OnOk result (next.new ≡ next.old + stmt_scopes (tree.function code.now)) }
{
    let body = open_declared(alloc, &[], next, code)?;
    let opened = same_code(alloc, same_name(&code.name)?, code.formals.as_slice(), body)?;
    push_node(StmtNode::Function(opened), out)
}
