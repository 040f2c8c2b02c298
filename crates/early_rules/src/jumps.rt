//! The jumps that leave statements (ECMA-262 5.1 sections 12.7 to 12.9).
//!
//! What is nested is recursed into, which is bounded by the height of trees. A list is gone over in a loop.

ghost use Rattle.std.specs.Prelude.{◌≡◌, option_map};
ghost use Rattle.js_core.specs.Tree.{stmts_of, maybe_stmts};
ghost use Rattle.js_core.specs.Views.{catch_of, cases_of};
ghost use Rattle.early_rules.specs.Jumps as spec;

use crate::jump::Jump;
use js_core::{Case, Catch, Stmt, StmtNode};

/// Whether a `break` stands outside a loop or `switch`, or a `continue` outside a loop, among these statements of a
/// function. Functions inside are not entered.
pub fn strays(statements: &[Stmt]) -> bool
    ensures { result ≡ spec.strays (stmts_of statements.now) }
{
    leaves(Jump::Break, statements) || leaves(Jump::Continue, statements)
}

/// Whether a jump of this kind stands among these statements of a function, and not in a loop or, if it is a `break`,
/// in a `switch` among them. Functions inside are not entered.
#[cycle(leaving)]
pub fn leaves(jump: Jump, statements: &[Stmt]) -> bool
    ensures { result ≡ spec.leaves jump (stmts_of statements.now) }
{
    let mut rest = statements;
    while let [statement, after @ ..] = rest {
        if statement_leaves(jump, statement) {
            return true;
        }
        rest = after;
    }
    false
}

#[cycle(leaving)]
fn statement_leaves(jump: Jump, statement: &Stmt) -> bool
    ensures { result ≡ spec.stmt_leaves jump statement.now }
{
    match &statement.node {
        StmtNode::Var(_)
        | StmtNode::Function(_)
        | StmtNode::Expr(_)
        | StmtNode::Empty
        | StmtNode::Throw(_) => false,
        StmtNode::Block(body) => leaves(jump, body.as_slice()),
        StmtNode::If(parts) => {
            leaves(jump, parts.first.as_slice()) || maybe_body_leaves(jump, &parts.second)
        }
        StmtNode::Do(body, _)
        | StmtNode::While(_, body)
        | StmtNode::ForIn {
            declared: _,
            target: _,
            object: _,
            body,
        } => is_return(jump) && leaves(jump, body.as_slice()),
        StmtNode::For(parts) => is_return(jump) && leaves(jump, parts.body.as_slice()),
        StmtNode::Continue => is_continue(jump),
        StmtNode::Break => is_break(jump),
        StmtNode::Return(_) => is_return(jump),
        StmtNode::Try(parts) => {
            leaves(jump, parts.block.as_slice())
                || catch_leaves(jump, &parts.catch)
                || maybe_body_leaves(jump, &parts.last)
        }
        StmtNode::Switch(_, cases) => {
            (is_return(jump) || is_continue(jump)) && cases_leave(jump, cases.as_slice())
        }
    }
}

#[cycle(leaving)]
fn maybe_body_leaves(jump: Jump, body: &Option<Vec<Stmt>>) -> bool
    ensures { result ≡ spec.maybe_body_leaves jump
        (maybe_stmts (option_map (λ v. v.items) body.now)) }
{
    match body {
        None => false,
        Some(body) => leaves(jump, body.as_slice()),
    }
}

#[cycle(leaving)]
fn catch_leaves(jump: Jump, catch: &Option<Catch>) -> bool
    ensures { result ≡ spec.catch_leaves jump (catch_of catch.now) }
{
    match catch {
        None => false,
        Some(catch) => leaves(jump, catch.body.as_slice()),
    }
}

#[cycle(leaving)]
fn cases_leave(jump: Jump, cases: &[Case]) -> bool
    ensures { result ≡ spec.cases_leave jump (cases_of cases.now) }
{
    let mut rest = cases;
    while let [case, after @ ..] = rest {
        if leaves(jump, case.body.as_slice()) {
            return true;
        }
        rest = after;
    }
    false
}

fn is_return(jump: Jump) -> bool
    ensures { result ≡ spec.is_return jump }
{
    matches!(jump, Jump::Return)
}

fn is_break(jump: Jump) -> bool
    ensures { result ≡ spec.is_break jump }
{
    matches!(jump, Jump::Break)
}

fn is_continue(jump: Jump) -> bool
    ensures { result ≡ spec.is_continue jump }
{
    matches!(jump, Jump::Continue)
}
