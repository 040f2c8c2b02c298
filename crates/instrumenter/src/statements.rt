//! Statements with opened scopes.

ghost use Rattle.std.specs.Prelude.{◌≡◌, ◌≤◌, ◌+◌, ℕ, Some, None, IfOk, OnOk, map, option_map};
ghost use Rattle.std.specs.Rc.{rc_value};
ghost use Rattle.js_core.specs.Height.{
  cases_height,
  maybe_catch_height,
  maybe_stmts_height,
  stmt_height,
  stmts_height,
};
ghost use Rattle.js_core.specs.Tree as tree;
ghost use Rattle.js_core.specs.Tree.{maybe_expr, maybe_stmts, stmts_of};
ghost use Rattle.js_core.specs.Views.{cases_of, catch_of, declarators_of, init_of};
ghost use Rattle.early_rules.specs.Limits.{plain_height_limit};
ghost use Rattle.instrumenter.specs.Around.{append};
ghost use Rattle.instrumenter.specs.Counting.{
  cases_scopes,
  catch_scopes,
  maybe_stmts_scopes,
  stmt_scopes,
  stmts_scopes,
};
ghost use Rattle.instrumenter.specs.Levels.{around_of};
ghost use Rattle.instrumenter.specs.Opening as spec;

use crate::catches::open_catch;
use crate::expressions::{open_expression, open_maybe_expression};
use crate::functions::open_declared;
use crate::levels::Level;
use crate::loops::{push_do, push_for, push_for_in, push_while};
use crate::pieces::push_node;
use crate::variables::push_variables;
use js_core::{Case, Catch, Code, Expr, If, OutOfMemory, Stmt, StmtNode, Try};
use std::alloc::Global;
use std::rc::Rc;

/// Appends the statements that this one becomes. `next` is the number of the next scope's object, and then that of the one
/// behind the statement.
#[cycle(opening)]
pub fn push_statement(
    alloc: Global,
    levels: &[Rc<Level>],
    next: &mut u64,
    statement: &Stmt,
    out: &mut Vec<Stmt>,
) -> Result<(), OutOfMemory>
    requires { stmt_height statement.now ≤ plain_height_limit }
    ensures opened { OnOk result (stmts_of out.new.items ≡ append (stmts_of out.old.items)
        (spec.open_stmt (around_of (map rc_value levels.now)) next.old statement.now)) }
    ensures counted { OnOk result (next.new ≡ next.old + stmt_scopes statement.now) }
{
    match &statement.node {
        StmtNode::Var(declarators) => {
            push_variables(alloc, levels, next, declarators.as_slice(), out)
        }
        StmtNode::Function(code) => leave_out(alloc, levels, next, code, out),
        StmtNode::Expr(value) => push_expression(alloc, levels, next, value, out),
        StmtNode::Empty => push_node(StmtNode::Empty, out),
        StmtNode::Block(body) => push_block(alloc, levels, next, body.as_slice(), out),
        StmtNode::If(parts) => {
            let first = parts.first.as_slice();
            push_if(alloc, levels, next, &parts.test, first, &parts.second, out)
        }
        StmtNode::Do(body, test) => push_do(alloc, levels, next, body.as_slice(), test, out),
        StmtNode::While(test, body) => push_while(alloc, levels, next, test, body.as_slice(), out),
        StmtNode::For(parts) => push_for(
            alloc,
            levels,
            next,
            &parts.init,
            &parts.test,
            &parts.step,
            parts.body.as_slice(),
            out,
        ),
        StmtNode::ForIn {
            declared,
            target,
            object,
            body,
        } => push_for_in(
            alloc,
            levels,
            next,
            *declared,
            target,
            object,
            body.as_slice(),
            out,
        ),
        StmtNode::Continue => push_node(StmtNode::Continue, out),
        StmtNode::Break => push_node(StmtNode::Break, out),
        StmtNode::Return(value) => push_return(alloc, levels, next, value, out),
        StmtNode::Throw(value) => push_throw(alloc, levels, next, value, out),
        StmtNode::Try(parts) => {
            let block = parts.block.as_slice();
            push_try(alloc, levels, next, block, &parts.catch, &parts.last, out)
        }
        StmtNode::Switch(value, cases) => {
            push_switch(alloc, levels, next, value, cases.as_slice(), out)
        }
    }
}

// A function declaration stands at the start of its function, and not here. The scopes in it are counted.
#[cycle(opening)]
#[tactic(auto, using(crate::proofs::Appended::append_nothing))]
fn leave_out(
    alloc: Global,
    levels: &[Rc<Level>],
    next: &mut u64,
    code: &Code,
    out: &mut Vec<Stmt>,
) -> Result<(), OutOfMemory>
    requires { stmt_height (tree.function code.now) ≤ plain_height_limit }
    ensures opened { OnOk result (stmts_of out.new.items ≡ append (stmts_of out.old.items)
        (spec.open_stmt (around_of (map rc_value levels.now)) next.old (tree.function code.now))) }
    ensures counted { OnOk result (next.new ≡ next.old + stmt_scopes (tree.function code.now)) }
{
    open_declared(alloc, levels, next, code)?;
    Ok(())
}

#[cycle(opening)]
#[tactic(auto, using(crate::proofs::Low::expr_low))]
fn push_expression(
    alloc: Global,
    levels: &[Rc<Level>],
    next: &mut u64,
    value: &Expr,
    out: &mut Vec<Stmt>,
) -> Result<(), OutOfMemory>
    requires { stmt_height (tree.expr value.now) ≤ plain_height_limit }
    ensures opened { OnOk result (stmts_of out.new.items ≡ append (stmts_of out.old.items)
        (spec.open_stmt (around_of (map rc_value levels.now)) next.old (tree.expr value.now))) }
    ensures counted { OnOk result (next.new ≡ next.old + stmt_scopes (tree.expr value.now)) }
{
    let value = open_expression(alloc, levels, next, value)?;
    push_node(StmtNode::Expr(value), out)
}

#[cycle(opening)]
#[tactic(auto, using(crate::proofs::Low::stmts_low))]
fn push_block(
    alloc: Global,
    levels: &[Rc<Level>],
    next: &mut u64,
    body: &[Stmt],
    out: &mut Vec<Stmt>,
) -> Result<(), OutOfMemory>
    requires { stmt_height (tree.block (stmts_of body.now)) ≤ plain_height_limit }
    ensures opened { OnOk result (stmts_of out.new.items ≡ append (stmts_of out.old.items)
        (spec.open_stmt (around_of (map rc_value levels.now)) next.old
        (tree.block (stmts_of body.now)))) }
    ensures counted { OnOk result (next.new ≡ next.old + stmt_scopes
        (tree.block (stmts_of body.now))) }
{
    let body = open_statements(alloc, levels, next, body)?;
    push_node(StmtNode::Block(body), out)
}

#[cycle(opening)]
#[tactic(auto, using(crate::proofs::Low::expr_low, crate::proofs::Low::stmts_low, crate::proofs::Low::maybe_stmts_low))]
fn push_if(
    alloc: Global,
    levels: &[Rc<Level>],
    next: &mut u64,
    test: &Expr,
    first: &[Stmt],
    second: &Option<Vec<Stmt>>,
    out: &mut Vec<Stmt>,
) -> Result<(), OutOfMemory>
    requires { stmt_height (tree.if_else test.now (stmts_of first.now)
        (maybe_stmts (option_map (λ v. v.items) second.now))) ≤ plain_height_limit }
    ensures opened { OnOk result (stmts_of out.new.items ≡ append (stmts_of out.old.items)
        (spec.open_stmt (around_of (map rc_value levels.now)) next.old
        (tree.if_else test.now (stmts_of first.now) (maybe_stmts
        (option_map (λ v. v.items) second.now))))) }
    ensures counted { OnOk result (next.new ≡ next.old + stmt_scopes
        (tree.if_else test.now (stmts_of first.now)
        (maybe_stmts (option_map (λ v. v.items) second.now)))) }
{
    let test = open_expression(alloc, levels, next, test)?;
    let first = open_statements(alloc, levels, next, first)?;
    let second = open_maybe_body(alloc, levels, next, second)?;
    let parts = If {
        test,
        first,
        second,
    };
    push_node(StmtNode::If(Box::new(alloc, parts)?), out)
}

#[cycle(opening)]
#[tactic(auto, using(crate::proofs::Low::maybe_low))]
fn push_return(
    alloc: Global,
    levels: &[Rc<Level>],
    next: &mut u64,
    value: &Option<Expr>,
    out: &mut Vec<Stmt>,
) -> Result<(), OutOfMemory>
    requires { stmt_height (tree.return (maybe_expr value.now)) ≤ plain_height_limit }
    ensures opened { OnOk result (stmts_of out.new.items ≡ append (stmts_of out.old.items)
        (spec.open_stmt (around_of (map rc_value levels.now)) next.old
        (tree.return (maybe_expr value.now)))) }
    ensures counted { OnOk result (next.new ≡ next.old + stmt_scopes
        (tree.return (maybe_expr value.now))) }
{
    let value = open_maybe_expression(alloc, levels, next, value)?;
    push_node(StmtNode::Return(value), out)
}

#[cycle(opening)]
#[tactic(auto, using(crate::proofs::Low::expr_low))]
fn push_throw(
    alloc: Global,
    levels: &[Rc<Level>],
    next: &mut u64,
    value: &Expr,
    out: &mut Vec<Stmt>,
) -> Result<(), OutOfMemory>
    requires { stmt_height (tree.throw value.now) ≤ plain_height_limit }
    ensures opened { OnOk result (stmts_of out.new.items ≡ append (stmts_of out.old.items)
        (spec.open_stmt (around_of (map rc_value levels.now)) next.old (tree.throw value.now))) }
    ensures counted { OnOk result (next.new ≡ next.old + stmt_scopes (tree.throw value.now)) }
{
    let value = open_expression(alloc, levels, next, value)?;
    push_node(StmtNode::Throw(value), out)
}

#[cycle(opening)]
#[tactic(auto, using(crate::proofs::Low::stmts_low, crate::proofs::Low::catch_low, crate::proofs::Low::maybe_stmts_low))]
fn push_try(
    alloc: Global,
    levels: &[Rc<Level>],
    next: &mut u64,
    block: &[Stmt],
    catch: &Option<Catch>,
    last: &Option<Vec<Stmt>>,
    out: &mut Vec<Stmt>,
) -> Result<(), OutOfMemory>
    requires { stmt_height (tree.try (stmts_of block.now) (catch_of catch.now)
        (maybe_stmts (option_map (λ v. v.items) last.now))) ≤ plain_height_limit }
    ensures opened { OnOk result (stmts_of out.new.items ≡ append (stmts_of out.old.items)
        (spec.open_stmt (around_of (map rc_value levels.now)) next.old
        (tree.try (stmts_of block.now) (catch_of catch.now)
        (maybe_stmts (option_map (λ v. v.items) last.now))))) }
    ensures counted { OnOk result (next.new ≡ next.old + stmt_scopes
        (tree.try (stmts_of block.now) (catch_of catch.now)
        (maybe_stmts (option_map (λ v. v.items) last.now)))) }
{
    let block = open_statements(alloc, levels, next, block)?;
    let catch = open_catch(alloc, levels, next, catch)?;
    let last = open_maybe_body(alloc, levels, next, last)?;
    let parts = Try { block, catch, last };
    push_node(StmtNode::Try(Box::new(alloc, parts)?), out)
}

#[cycle(opening)]
#[tactic(auto, using(crate::proofs::Low::expr_low, crate::proofs::Low::cases_low))]
fn push_switch(
    alloc: Global,
    levels: &[Rc<Level>],
    next: &mut u64,
    value: &Expr,
    cases: &[Case],
    out: &mut Vec<Stmt>,
) -> Result<(), OutOfMemory>
    requires { stmt_height (tree.switch value.now (cases_of cases.now)) ≤ plain_height_limit }
    ensures opened { OnOk result (stmts_of out.new.items ≡ append (stmts_of out.old.items)
        (spec.open_stmt (around_of (map rc_value levels.now)) next.old
        (tree.switch value.now (cases_of cases.now)))) }
    ensures counted { OnOk result (next.new ≡ next.old + stmt_scopes
        (tree.switch value.now (cases_of cases.now))) }
{
    let value = open_expression(alloc, levels, next, value)?;
    let cases = open_cases(alloc, levels, next, cases)?;
    push_node(StmtNode::Switch(Box::new(alloc, value)?, cases), out)
}

#[cycle(opening)]
fn open_maybe_body(
    alloc: Global,
    levels: &[Rc<Level>],
    next: &mut u64,
    body: &Option<Vec<Stmt>>,
) -> Result<Option<Vec<Stmt>>, OutOfMemory>
    requires { maybe_stmts_height (maybe_stmts (option_map (λ v. v.items) body.now))
        ≤ plain_height_limit }
    ensures opened { IfOk result (λ opened. maybe_stmts (option_map (λ v. v.items) opened)
        ≡ spec.open_maybe_body (around_of (map rc_value levels.now)) next.old
        (maybe_stmts (option_map (λ v. v.items) body.now))) }
    ensures counted { OnOk result (next.new ≡ next.old
        + maybe_stmts_scopes (maybe_stmts (option_map (λ v. v.items) body.now))) }
{
    match body {
        None => Ok(None),
        Some(body) => Ok(Some(open_statements(alloc, levels, next, body.as_slice())?)),
    }
}

#[cycle(opening)]
fn open_cases(
    alloc: Global,
    levels: &[Rc<Level>],
    next: &mut u64,
    cases: &[Case],
) -> Result<Vec<Case>, OutOfMemory>
    requires { cases_height (cases_of cases.now) ≤ plain_height_limit }
    ensures opened { IfOk result (λ v. cases_of v.items
        ≡ spec.open_cases (around_of (map rc_value levels.now)) next.old (cases_of cases.now)) }
    ensures counted { OnOk result (next.new ≡ next.old + cases_scopes (cases_of cases.now)) }
{
    let mut opened = Vec::new(alloc);
    let mut rest = cases;
    while let [case, after @ ..] = rest {
        let test = open_maybe_expression(alloc, levels, next, &case.test)?;
        let body = open_statements(alloc, levels, next, case.body.as_slice())?;
        opened.push(Case { test, body })?;
        rest = after;
    }
    Ok(opened)
}

/// The statements, opened.
#[cycle(opening)]
pub fn open_statements(
    alloc: Global,
    levels: &[Rc<Level>],
    next: &mut u64,
    statements: &[Stmt],
) -> Result<Vec<Stmt>, OutOfMemory>
    requires { stmts_height (stmts_of statements.now) ≤ plain_height_limit }
    ensures opened { IfOk result (λ v. stmts_of v.items
        ≡ spec.open_stmts (around_of (map rc_value levels.now)) next.old
        (stmts_of statements.now)) }
    ensures counted { OnOk result (next.new ≡ next.old + stmts_scopes (stmts_of statements.now)) }
{
    let mut opened = Vec::new(alloc);
    push_statements(alloc, levels, next, statements, &mut opened)?;
    Ok(opened)
}

/// Appends the opened statements.
#[cycle(opening)]
pub fn push_statements(
    alloc: Global,
    levels: &[Rc<Level>],
    next: &mut u64,
    statements: &[Stmt],
    out: &mut Vec<Stmt>,
) -> Result<(), OutOfMemory>
    requires { stmts_height (stmts_of statements.now) ≤ plain_height_limit }
    ensures opened { OnOk result (stmts_of out.new.items ≡ append (stmts_of out.old.items)
        (spec.open_stmts (around_of (map rc_value levels.now)) next.old
        (stmts_of statements.now))) }
    ensures counted { OnOk result (next.new ≡ next.old + stmts_scopes (stmts_of statements.now)) }
{
    let mut rest = statements;
    while let [statement, after @ ..] = rest {
        push_statement(alloc, levels, next, statement, out)?;
        rest = after;
    }
    Ok(())
}
