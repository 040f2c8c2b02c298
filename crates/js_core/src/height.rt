//! How high a tree is: an expression without parts is 1, and any other node is 1 more than its highest part. A
//! function expression is 1 more than its highest statement, and a function declaration 3 more.
//!
//! Each part keeps its height, so that the time is that of a node's direct parts.

ghost use Rattle.std.specs.Prelude.{◌≡◌, ◌≤◌, ◌<◌, ◌+◌, max, IfOk, option_map};
ghost use Rattle.js_core.specs.Tree.{exprs_of, maybe_expr, holes_of, fields_of, stmts_of, maybe_stmts};
ghost use Rattle.js_core.specs.Views.{declarators_of, init_of, catch_of, cases_of, if_of, for_of, try_of, expr_of, stmt_of};
ghost use Rattle.js_core.specs.Height as spec;

use crate::syntax::{
    Case, Catch, Declarator, Expr, ExprNode, For, ForInit, If, Script, Stmt, StmtNode, Try,
};
use crate::units::Units;

impl Script {
    /// The height of the highest statement, or 0 where there is none. No memory.
    pub fn height(&self) -> u64
        ensures exact { result ≡ spec.stmts_height self.now }
        ensures small { spec.stmts_height self.now ≤ 1000 }
    {
        stmts_height(self.body.as_slice())
    }
}

impl ExprNode {
    /// The height of the expression with this node. No memory.
    pub fn height(&self) -> u64
        ensures exact { result ≡ spec.expr_height (expr_of self.now) }
        ensures small { result ≤ 1001 }
    {
        match self {
            ExprNode::Name(_)
            | ExprNode::Num(_)
            | ExprNode::Text(_)
            | ExprNode::Bool(_)
            | ExprNode::Null
            | ExprNode::This => 1,
            ExprNode::List(es) => holes_height(es.as_slice()) + 1,
            ExprNode::Literal(fs) => fields_height(fs.as_slice()) + 1,
            ExprNode::Func(code) => code.height() + 1,
            ExprNode::Member(e, _) | ExprNode::Unary(_, e) => e.height() + 1,
            ExprNode::Update {
                up: _,
                prefix: _,
                target,
            } => target.height() + 1,
            ExprNode::Index(a, b)
            | ExprNode::Binary(_, a, b)
            | ExprNode::And(a, b)
            | ExprNode::Or(a, b)
            | ExprNode::Assign(_, a, b) => a.height().max(b.height()) + 1,
            ExprNode::Call(f, es) | ExprNode::New(f, es) => {
                f.height().max(exprs_height(es.as_slice())) + 1
            }
            ExprNode::Cond(a, b, c) => a.height().max(b.height().max(c.height())) + 1,
            ExprNode::Comma(es) => exprs_height(es.as_slice()) + 1,
        }
    }
}

impl StmtNode {
    /// The height of the statement with this node. No memory.
    pub fn height(&self) -> u64
        ensures exact { result ≡ spec.stmt_height (stmt_of self.now) }
        ensures small { result ≤ 1003 }
    {
        match self {
            StmtNode::Empty | StmtNode::Continue | StmtNode::Break => 1,
            StmtNode::Var(ds) => declarators_height(ds.as_slice()) + 1,
            StmtNode::Function(code) => code.height() + 3,
            StmtNode::Expr(e) | StmtNode::Throw(e) => e.height() + 1,
            StmtNode::Block(ss) => stmts_height(ss.as_slice()) + 1,
            StmtNode::If(parts) => if_height(parts) + 1,
            StmtNode::Do(body, e) => stmts_height(body.as_slice()).max(e.height()) + 1,
            StmtNode::While(e, body) => e.height().max(stmts_height(body.as_slice())) + 1,
            StmtNode::For(parts) => for_height(parts) + 1,
            StmtNode::ForIn {
                declared: _,
                target,
                object,
                body,
            } => {
                target
                    .height()
                    .max(object.height().max(stmts_height(body.as_slice())))
                    + 1
            }
            StmtNode::Return(e) => maybe_expr_height(e) + 1,
            StmtNode::Try(parts) => try_height(parts) + 1,
            StmtNode::Switch(e, cases) => e.height().max(cases_height(cases.as_slice())) + 1,
        }
    }
}

// The height of the highest part of an `if`.
fn if_height(parts: &If) -> u64
    ensures exact { result + 1 ≡ spec.stmt_height (if_of parts.now) }
    ensures small { result ≤ 1000 }
{
    let branches = stmts_height(parts.first.as_slice()).max(maybe_stmts_height(&parts.second));
    parts.test.height().max(branches)
}

// The height of the highest part of a `for`.
fn for_height(parts: &For) -> u64
    ensures exact { result + 1 ≡ spec.stmt_height (for_of parts.now) }
    ensures small { result ≤ 1001 }
{
    let turn = maybe_expr_height(&parts.step).max(stmts_height(parts.body.as_slice()));
    init_height(&parts.init).max(maybe_expr_height(&parts.test).max(turn))
}

// The height of the highest part of a `try`.
fn try_height(parts: &Try) -> u64
    ensures exact { result + 1 ≡ spec.stmt_height (try_of parts.now) }
    ensures small { result ≤ 1000 }
{
    let handlers = catch_height(&parts.catch).max(maybe_stmts_height(&parts.last));
    stmts_height(parts.block.as_slice()).max(handlers)
}

/// The height of the highest expression, or 0 where there is none.
pub fn exprs_height(es: &[Expr]) -> u64
    ensures exact { result ≡ spec.exprs_height (exprs_of es.now) }
    ensures small { result ≤ 1000 }
{
    let mut highest = 0;
    for e in es {
        highest = highest.max(e.height());
    }
    highest
}

/// The height of the expression, or 0 where there is none.
pub fn maybe_expr_height(e: &Option<Expr>) -> u64
    ensures exact { result ≡ spec.maybe_expr_height (maybe_expr e.now) }
    ensures small { result ≤ 1000 }
{
    match e {
        None => 0,
        Some(e) => e.height(),
    }
}

/// The height of the highest element of an array literal, or 0 where there is none.
pub fn holes_height(es: &[Option<Expr>]) -> u64
    ensures exact { result ≡ spec.holes_height (holes_of es.now) }
    ensures small { result ≤ 1000 }
{
    let mut highest = 0;
    for e in es {
        highest = highest.max(maybe_expr_height(e));
    }
    highest
}

/// The height of the highest value of an object literal, or 0 where there is none.
pub fn fields_height(fs: &[(Units, Expr)]) -> u64
    ensures exact { result ≡ spec.fields_height (fields_of fs.now) }
    ensures small { result ≤ 1000 }
{
    let mut highest = 0;
    for (_, e) in fs {
        highest = highest.max(e.height());
    }
    highest
}

/// The height of the highest statement, or 0 where there is none.
pub fn stmts_height(ss: &[Stmt]) -> u64
    ensures exact { result ≡ spec.stmts_height (stmts_of ss.now) }
    ensures small { result ≤ 1000 }
{
    let mut highest = 0;
    for s in ss {
        highest = highest.max(s.height());
    }
    highest
}

/// The height of the highest statement of a list, or 0 where there is no list.
pub fn maybe_stmts_height(ss: &Option<Vec<Stmt>>) -> u64
    ensures exact { result ≡ spec.maybe_stmts_height
        (maybe_stmts (option_map (λ v. v.items) ss.now)) }
    ensures small { result ≤ 1000 }
{
    match ss {
        None => 0,
        Some(ss) => stmts_height(ss.as_slice()),
    }
}

/// The height of the highest declarator, which is 1 more than its initialiser, or 0 where there is none.
pub fn declarators_height(ds: &[Declarator]) -> u64
    ensures exact { result ≡ spec.declarators_height (declarators_of ds.now) }
    ensures small { result ≤ 1001 }
{
    let mut highest = 0;
    for d in ds {
        highest = highest.max(maybe_expr_height(&d.value) + 1);
    }
    highest
}

/// The height of what stands first in the header of a `for`.
pub fn init_height(init: &ForInit) -> u64
    ensures exact { result ≡ spec.for_init_height (init_of init.now) }
    ensures small { result ≤ 1001 }
{
    match init {
        ForInit::Nothing => 0,
        ForInit::Var(ds) => declarators_height(ds.as_slice()),
        ForInit::Expr(e) => e.height(),
    }
}

/// The height of the highest statement of a catch clause, or 0 where there is none.
pub fn catch_height(catch: &Option<Catch>) -> u64
    ensures exact { result ≡ spec.maybe_catch_height (catch_of catch.now) }
    ensures small { result ≤ 1000 }
{
    match catch {
        None => 0,
        Some(catch) => stmts_height(catch.body.as_slice()),
    }
}

/// The height of the highest test or statement of the cases, or 0 where there is none.
pub fn cases_height(cases: &[Case]) -> u64
    ensures exact { result ≡ spec.cases_height (cases_of cases.now) }
    ensures small { result ≤ 1000 }
{
    let mut highest = 0;
    for case in cases {
        let this = maybe_expr_height(&case.test).max(stmts_height(case.body.as_slice()));
        highest = highest.max(this);
    }
    highest
}
