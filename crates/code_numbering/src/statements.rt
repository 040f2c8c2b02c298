//! How statements are numbered, each after its parts, in a recursion that is as deep as the tree is high, at most 1,000. A list is
//! gone over in a loop.

ghost use Rattle.std.specs.Prelude.{◌≡◌, IfOk, OnOk, length, option_map};
ghost use Rattle.js_core.specs.Tree as tree;
ghost use Rattle.js_core.specs.Tree.{maybe_expr, stmts_of, maybe_stmts};
ghost use Rattle.js_core.specs.Views.{declarators_of, init_of, catch_of, cases_of};
ghost use Rattle.code_table.specs.Node as node;
ghost use Rattle.code_table.specs.Rows.{with_parts, with_numbers};

use crate::expressions::{ABSENT, push_expr, push_maybe_expr};
use crate::rows::{NodeKind, Rows};
use crate::shallow::stmt_kind;
use code_table::Kind;
use js_core::{Case, Catch, Declarator, Expr, ForInit, OutOfMemory, Stmt, StmtNode, Units};
use std::alloc::Global;

// Numbers a statement, as a part.
#[cycle(statements)]
fn push_stmt(
    alloc: Global,
    rows: &mut Rows,
    parts: &mut Vec<u32>,
    s: &Stmt,
) -> Result<(), OutOfMemory>
    ensures rows { OnOk result (rows.new ≡ with_parts rows.old
        (node.part (node.stmt_node s.now) (node.stmt_parts s.now))) }
    ensures parts { OnOk result (parts.new.items
        ≡ with_numbers rows.old parts.old.items
        (node.part (node.stmt_node s.now) (node.stmt_parts s.now))) }
{
    let mut inside = Vec::new(alloc);
    push_stmt_parts(alloc, rows, &mut inside, s)?;
    let kind = stmt_kind(s)?;
    rows.push_part(NodeKind::Known(kind), inside, parts)
}

// Numbers the parts of a statement.
#[cycle(statements)]
fn push_stmt_parts(
    alloc: Global,
    rows: &mut Rows,
    parts: &mut Vec<u32>,
    s: &Stmt,
) -> Result<(), OutOfMemory>
    ensures rows { OnOk result (rows.new ≡ with_parts rows.old (node.stmt_parts s.now)) }
    ensures parts { OnOk result (parts.new.items
        ≡ with_numbers rows.old parts.old.items (node.stmt_parts s.now)) }
{
    match &s.node {
        StmtNode::Function(_) | StmtNode::Empty | StmtNode::Continue | StmtNode::Break => Ok(()),
        StmtNode::Var(ds) => push_declarators(alloc, rows, parts, ds.as_slice()),
        StmtNode::Expr(e) => push_expr(alloc, rows, parts, e),
        StmtNode::Throw(e) => push_expr(alloc, rows, parts, e),
        StmtNode::Block(ss) => push_stmts(alloc, rows, parts, ss.as_slice()),
        StmtNode::If(p) => push_if(alloc, rows, parts, &p.test, p.first.as_slice(), &p.second),
        StmtNode::Do(a, e) => push_do(alloc, rows, parts, a.as_slice(), e),
        StmtNode::While(e, a) => push_while(alloc, rows, parts, e, a.as_slice()),
        StmtNode::For(p) => push_for(
            alloc,
            rows,
            parts,
            &p.init,
            &p.test,
            &p.step,
            p.body.as_slice(),
        ),
        StmtNode::ForIn {
            declared: _,
            target,
            object,
            body,
        } => push_for_in(alloc, rows, parts, target, object, body.as_slice()),
        StmtNode::Return(e) => push_maybe_expr(alloc, rows, parts, e),
        StmtNode::Try(p) => push_try(alloc, rows, parts, p.block.as_slice(), &p.catch, &p.last),
        StmtNode::Switch(e, cases) => push_switch(alloc, rows, parts, e, cases.as_slice()),
    }
}

// Numbers the parts of an `if`.
#[cycle(statements)]
fn push_if(
    alloc: Global,
    rows: &mut Rows,
    parts: &mut Vec<u32>,
    e: &Expr,
    a: &[Stmt],
    b: &Option<Vec<Stmt>>,
) -> Result<(), OutOfMemory>
    ensures rows { OnOk result (rows.new ≡ with_parts rows.old
        (node.join (node.part (node.expr_node e.now) (node.expr_parts e.now))
        (node.join (node.part (node.block_node (stmts_of a.now))
        (node.stmts_parts (stmts_of a.now))) (node.maybe_stmts_parts
        (maybe_stmts (option_map (λ v. v.items) b.now)))))) }
    ensures parts { OnOk result (parts.new.items
        ≡ with_numbers rows.old parts.old.items
        (node.join (node.part (node.expr_node e.now) (node.expr_parts e.now))
        (node.join (node.part (node.block_node (stmts_of a.now))
        (node.stmts_parts (stmts_of a.now))) (node.maybe_stmts_parts
        (maybe_stmts (option_map (λ v. v.items) b.now)))))) }
{
    push_expr(alloc, rows, parts, e)?;
    push_block(alloc, rows, parts, a)?;
    push_maybe_block(alloc, rows, parts, b)
}

// Numbers the parts of a `do`.
#[cycle(statements)]
fn push_do(
    alloc: Global,
    rows: &mut Rows,
    parts: &mut Vec<u32>,
    a: &[Stmt],
    e: &Expr,
) -> Result<(), OutOfMemory>
    ensures rows { OnOk result (rows.new ≡ with_parts rows.old
        (node.join (node.part (node.block_node (stmts_of a.now))
        (node.stmts_parts (stmts_of a.now))) (node.part (node.expr_node e.now)
        (node.expr_parts e.now)))) }
    ensures parts { OnOk result (parts.new.items
        ≡ with_numbers rows.old parts.old.items
        (node.join (node.part (node.block_node (stmts_of a.now))
        (node.stmts_parts (stmts_of a.now))) (node.part (node.expr_node e.now)
        (node.expr_parts e.now)))) }
{
    push_block(alloc, rows, parts, a)?;
    push_expr(alloc, rows, parts, e)
}

// Numbers the parts of a `while`.
#[cycle(statements)]
fn push_while(
    alloc: Global,
    rows: &mut Rows,
    parts: &mut Vec<u32>,
    e: &Expr,
    a: &[Stmt],
) -> Result<(), OutOfMemory>
    ensures rows { OnOk result (rows.new ≡ with_parts rows.old
        (node.join (node.part (node.expr_node e.now) (node.expr_parts e.now))
        (node.part (node.block_node (stmts_of a.now)) (node.stmts_parts (stmts_of a.now))))) }
    ensures parts { OnOk result (parts.new.items
        ≡ with_numbers rows.old parts.old.items
        (node.join (node.part (node.expr_node e.now) (node.expr_parts e.now))
        (node.part (node.block_node (stmts_of a.now)) (node.stmts_parts (stmts_of a.now))))) }
{
    push_expr(alloc, rows, parts, e)?;
    push_block(alloc, rows, parts, a)
}

// Numbers the parts of a `for`.
#[cycle(statements)]
#[tactic(auto, using(crate::proofs::Joins::parts_join, crate::proofs::Joins::numbers_join))]
fn push_for(
    alloc: Global,
    rows: &mut Rows,
    parts: &mut Vec<u32>,
    i: &ForInit,
    t: &Option<Expr>,
    s: &Option<Expr>,
    a: &[Stmt],
) -> Result<(), OutOfMemory>
    ensures rows { OnOk result (rows.new ≡ with_parts rows.old
        (node.join (node.init_parts (init_of i.now))
        (node.join (node.maybe_expr_parts (maybe_expr t.now))
        (node.join (node.maybe_expr_parts (maybe_expr s.now))
        (node.part (node.block_node (stmts_of a.now)) (node.stmts_parts (stmts_of a.now))))))) }
    ensures parts { OnOk result (parts.new.items
        ≡ with_numbers rows.old parts.old.items
        (node.join (node.init_parts (init_of i.now))
        (node.join (node.maybe_expr_parts (maybe_expr t.now))
        (node.join (node.maybe_expr_parts (maybe_expr s.now))
        (node.part (node.block_node (stmts_of a.now)) (node.stmts_parts (stmts_of a.now))))))) }
{
    push_init(alloc, rows, parts, i)?;
    push_for_rest(alloc, rows, parts, t, s, a)
}

// Numbers what follows the first part of the header of a `for`.
#[cycle(statements)]
#[tactic(auto, using(crate::proofs::Joins::parts_join, crate::proofs::Joins::numbers_join))]
fn push_for_rest(
    alloc: Global,
    rows: &mut Rows,
    parts: &mut Vec<u32>,
    t: &Option<Expr>,
    s: &Option<Expr>,
    a: &[Stmt],
) -> Result<(), OutOfMemory>
    ensures rows { OnOk result (rows.new ≡ with_parts rows.old
        (node.join (node.maybe_expr_parts (maybe_expr t.now))
        (node.join (node.maybe_expr_parts (maybe_expr s.now))
        (node.part (node.block_node (stmts_of a.now)) (node.stmts_parts (stmts_of a.now)))))) }
    ensures parts { OnOk result (parts.new.items
        ≡ with_numbers rows.old parts.old.items
        (node.join (node.maybe_expr_parts (maybe_expr t.now))
        (node.join (node.maybe_expr_parts (maybe_expr s.now))
        (node.part (node.block_node (stmts_of a.now)) (node.stmts_parts (stmts_of a.now)))))) }
{
    push_maybe_expr(alloc, rows, parts, t)?;
    push_for_end(alloc, rows, parts, s, a)
}

// Numbers the last part of the header of a `for`, and its body.
#[cycle(statements)]
#[tactic(auto, using(crate::proofs::Joins::parts_join, crate::proofs::Joins::numbers_join))]
fn push_for_end(
    alloc: Global,
    rows: &mut Rows,
    parts: &mut Vec<u32>,
    s: &Option<Expr>,
    a: &[Stmt],
) -> Result<(), OutOfMemory>
    ensures rows { OnOk result (rows.new ≡ with_parts rows.old
        (node.join (node.maybe_expr_parts (maybe_expr s.now))
        (node.part (node.block_node (stmts_of a.now)) (node.stmts_parts (stmts_of a.now))))) }
    ensures parts { OnOk result (parts.new.items
        ≡ with_numbers rows.old parts.old.items
        (node.join (node.maybe_expr_parts (maybe_expr s.now))
        (node.part (node.block_node (stmts_of a.now)) (node.stmts_parts (stmts_of a.now))))) }
{
    push_maybe_expr(alloc, rows, parts, s)?;
    push_block(alloc, rows, parts, a)
}

// Numbers the parts of a for-in.
#[cycle(statements)]
fn push_for_in(
    alloc: Global,
    rows: &mut Rows,
    parts: &mut Vec<u32>,
    t: &Expr,
    e: &Expr,
    a: &[Stmt],
) -> Result<(), OutOfMemory>
    ensures rows { OnOk result (rows.new ≡ with_parts rows.old
        (node.join (node.part (node.expr_node t.now) (node.expr_parts t.now))
        (node.join (node.part (node.expr_node e.now) (node.expr_parts e.now))
        (node.part (node.block_node (stmts_of a.now)) (node.stmts_parts (stmts_of a.now)))))) }
    ensures parts { OnOk result (parts.new.items
        ≡ with_numbers rows.old parts.old.items
        (node.join (node.part (node.expr_node t.now) (node.expr_parts t.now))
        (node.join (node.part (node.expr_node e.now) (node.expr_parts e.now))
        (node.part (node.block_node (stmts_of a.now)) (node.stmts_parts (stmts_of a.now)))))) }
{
    push_expr(alloc, rows, parts, t)?;
    push_expr(alloc, rows, parts, e)?;
    push_block(alloc, rows, parts, a)
}

// Numbers the parts of a `try`.
#[cycle(statements)]
#[tactic(auto, using(crate::proofs::Joins::parts_join, crate::proofs::Joins::numbers_join))]
fn push_try(
    alloc: Global,
    rows: &mut Rows,
    parts: &mut Vec<u32>,
    a: &[Stmt],
    c: &Option<Catch>,
    l: &Option<Vec<Stmt>>,
) -> Result<(), OutOfMemory>
    ensures rows { OnOk result (rows.new ≡ with_parts rows.old
        (node.join (node.part (node.block_node (stmts_of a.now))
        (node.stmts_parts (stmts_of a.now))) (node.join (node.catch_parts (catch_of c.now))
        (node.maybe_stmts_parts (maybe_stmts (option_map (λ v. v.items) l.now)))))) }
    ensures parts { OnOk result (parts.new.items
        ≡ with_numbers rows.old parts.old.items
        (node.join (node.part (node.block_node (stmts_of a.now))
        (node.stmts_parts (stmts_of a.now))) (node.join (node.catch_parts (catch_of c.now))
        (node.maybe_stmts_parts (maybe_stmts (option_map (λ v. v.items) l.now)))))) }
{
    push_block(alloc, rows, parts, a)?;
    push_handlers(alloc, rows, parts, c, l)
}

// Numbers the clauses of a `try`.
#[cycle(statements)]
#[tactic(auto, using(crate::proofs::Joins::parts_join, crate::proofs::Joins::numbers_join))]
fn push_handlers(
    alloc: Global,
    rows: &mut Rows,
    parts: &mut Vec<u32>,
    c: &Option<Catch>,
    l: &Option<Vec<Stmt>>,
) -> Result<(), OutOfMemory>
    ensures rows { OnOk result (rows.new ≡ with_parts rows.old
        (node.join (node.catch_parts (catch_of c.now))
        (node.maybe_stmts_parts (maybe_stmts (option_map (λ v. v.items) l.now))))) }
    ensures parts { OnOk result (parts.new.items
        ≡ with_numbers rows.old parts.old.items
        (node.join (node.catch_parts (catch_of c.now))
        (node.maybe_stmts_parts (maybe_stmts (option_map (λ v. v.items) l.now))))) }
{
    push_catch(alloc, rows, parts, c)?;
    push_maybe_block(alloc, rows, parts, l)
}

// Numbers the parts of a `switch`.
#[cycle(statements)]
fn push_switch(
    alloc: Global,
    rows: &mut Rows,
    parts: &mut Vec<u32>,
    e: &Expr,
    cs: &[Case],
) -> Result<(), OutOfMemory>
    ensures rows { OnOk result (rows.new ≡ with_parts rows.old
        (node.join (node.part (node.expr_node e.now) (node.expr_parts e.now))
        (node.cases_parts (cases_of cs.now)))) }
    ensures parts { OnOk result (parts.new.items
        ≡ with_numbers rows.old parts.old.items
        (node.join (node.part (node.expr_node e.now) (node.expr_parts e.now))
        (node.cases_parts (cases_of cs.now)))) }
{
    push_expr(alloc, rows, parts, e)?;
    push_cases(alloc, rows, parts, cs)
}

// Numbers statements in turn, as one part.
#[cycle(statements)]
fn push_block(
    alloc: Global,
    rows: &mut Rows,
    parts: &mut Vec<u32>,
    ss: &[Stmt],
) -> Result<(), OutOfMemory>
    ensures rows { OnOk result (rows.new ≡ with_parts rows.old
        (node.part (node.block_node (stmts_of ss.now)) (node.stmts_parts (stmts_of ss.now)))) }
    ensures parts { OnOk result (parts.new.items
        ≡ with_numbers rows.old parts.old.items
        (node.part (node.block_node (stmts_of ss.now)) (node.stmts_parts (stmts_of ss.now)))) }
{
    let number = push_body(alloc, rows, ss)?;
    parts.push(number)?;
    Ok(())
}

/// Numbers statements in turn, and gives the number.
#[cycle(statements)]
pub fn push_body(alloc: Global, rows: &mut Rows, ss: &[Stmt]) -> Result<u32, OutOfMemory>
    ensures rows { OnOk result (rows.new ≡ with_parts rows.old
        (node.part (node.block_node (stmts_of ss.now)) (node.stmts_parts (stmts_of ss.now)))) }
    ensures number { IfOk result (λ number. number
        ≡ length (with_parts rows.old (node.stmts_parts (stmts_of ss.now)))) }
{
    let mut inside = Vec::new(alloc);
    push_stmts(alloc, rows, &mut inside, ss)?;
    Ok(rows.push(NodeKind::Known(Kind::Block), inside)?)
}

// Numbers statements.
#[cycle(statements)]
fn push_stmts(
    alloc: Global,
    rows: &mut Rows,
    parts: &mut Vec<u32>,
    ss: &[Stmt],
) -> Result<(), OutOfMemory>
    ensures rows { OnOk result (rows.new ≡ with_parts rows.old
        (node.stmts_parts (stmts_of ss.now))) }
    ensures parts { OnOk result (parts.new.items
        ≡ with_numbers rows.old parts.old.items (node.stmts_parts (stmts_of ss.now))) }
{
    let mut rest = ss;
    while let [s, after @ ..] = rest {
        push_stmt(alloc, rows, parts, s)?;
        rest = after;
    }
    Ok(())
}

// Numbers a body that may be absent.
#[cycle(statements)]
fn push_maybe_block(
    alloc: Global,
    rows: &mut Rows,
    parts: &mut Vec<u32>,
    b: &Option<Vec<Stmt>>,
) -> Result<(), OutOfMemory>
    ensures rows { OnOk result (rows.new ≡ with_parts rows.old
        (node.maybe_stmts_parts (maybe_stmts (option_map (λ v. v.items) b.now)))) }
    ensures parts { OnOk result (parts.new.items
        ≡ with_numbers rows.old parts.old.items
        (node.maybe_stmts_parts (maybe_stmts (option_map (λ v. v.items) b.now)))) }
{
    match b {
        None => {
            parts.push(ABSENT)?;
            Ok(())
        }
        Some(ss) => push_block(alloc, rows, parts, ss.as_slice()),
    }
}

// Numbers the body of a catch clause that may be absent.
#[cycle(statements)]
fn push_catch(
    alloc: Global,
    rows: &mut Rows,
    parts: &mut Vec<u32>,
    c: &Option<Catch>,
) -> Result<(), OutOfMemory>
    ensures rows { OnOk result (rows.new ≡ with_parts rows.old
        (node.catch_parts (catch_of c.now))) }
    ensures parts { OnOk result (parts.new.items
        ≡ with_numbers rows.old parts.old.items (node.catch_parts (catch_of c.now))) }
{
    match c {
        None => {
            parts.push(ABSENT)?;
            Ok(())
        }
        Some(catch) => push_block(alloc, rows, parts, catch.body.as_slice()),
    }
}

// Numbers the declarators that have an initialiser.
#[tactic(auto, using(crate::proofs::Joins::parts_join, crate::proofs::Joins::numbers_join))]
fn push_declarators(
    alloc: Global,
    rows: &mut Rows,
    parts: &mut Vec<u32>,
    ds: &[Declarator],
) -> Result<(), OutOfMemory>
    ensures rows { OnOk result (rows.new ≡ with_parts rows.old
        (node.declarators_parts (declarators_of ds.now))) }
    ensures parts { OnOk result (parts.new.items
        ≡ with_numbers rows.old parts.old.items (node.declarators_parts (declarators_of ds.now))) }
{
    let mut rest = ds;
    while let [d, after @ ..] = rest {
        push_declarator(alloc, rows, parts, &d.name, &d.value)?;
        rest = after;
    }
    Ok(())
}

// Numbers a declarator, if it has an initialiser.
fn push_declarator(
    alloc: Global,
    rows: &mut Rows,
    parts: &mut Vec<u32>,
    x: &Units,
    e: &Option<Expr>,
) -> Result<(), OutOfMemory>
    ensures rows { OnOk result (rows.new ≡ with_parts rows.old
        (node.declarator_parts x.now (maybe_expr e.now))) }
    ensures parts { OnOk result (parts.new.items
        ≡ with_numbers rows.old parts.old.items (node.declarator_parts x.now (maybe_expr e.now))) }
{
    match e {
        None => Ok(()),
        Some(e) => push_initialiser(alloc, rows, parts, x, e),
    }
}

// Numbers a declarator with its initialiser.
fn push_initialiser(
    alloc: Global,
    rows: &mut Rows,
    parts: &mut Vec<u32>,
    x: &Units,
    e: &Expr,
) -> Result<(), OutOfMemory>
    ensures rows { OnOk result (rows.new ≡ with_parts rows.old
        (node.part (node.declarator_node x.now e.now)
        (node.part (node.expr_node e.now) (node.expr_parts e.now)))) }
    ensures parts { OnOk result (parts.new.items
        ≡ with_numbers rows.old parts.old.items
        (node.part (node.declarator_node x.now e.now)
        (node.part (node.expr_node e.now) (node.expr_parts e.now)))) }
{
    let mut inside = Vec::new(alloc);
    push_expr(alloc, rows, &mut inside, e)?;
    rows.push_part(NodeKind::Known(Kind::Declarator(x.clone()?)), inside, parts)
}

// Numbers what stands first in the header of a `for`.
fn push_init(
    alloc: Global,
    rows: &mut Rows,
    parts: &mut Vec<u32>,
    i: &ForInit,
) -> Result<(), OutOfMemory>
    ensures rows { OnOk result (rows.new ≡ with_parts rows.old (node.init_parts (init_of i.now))) }
    ensures parts { OnOk result (parts.new.items
        ≡ with_numbers rows.old parts.old.items (node.init_parts (init_of i.now))) }
{
    match i {
        ForInit::Nothing => {
            parts.push(ABSENT)?;
            Ok(())
        }
        ForInit::Var(ds) => push_var(alloc, rows, parts, ds.as_slice()),
        ForInit::Expr(e) => push_expr(alloc, rows, parts, e),
    }
}

// Numbers a variable statement in the header of a `for`.
fn push_var(
    alloc: Global,
    rows: &mut Rows,
    parts: &mut Vec<u32>,
    ds: &[Declarator],
) -> Result<(), OutOfMemory>
    ensures rows { OnOk result (rows.new ≡ with_parts rows.old
        (node.part (node.stmt_node (tree.var (declarators_of ds.now)))
        (node.declarators_parts (declarators_of ds.now)))) }
    ensures parts { OnOk result (parts.new.items
        ≡ with_numbers rows.old parts.old.items
        (node.part (node.stmt_node (tree.var (declarators_of ds.now)))
        (node.declarators_parts (declarators_of ds.now)))) }
{
    let mut inside = Vec::new(alloc);
    push_declarators(alloc, rows, &mut inside, ds)?;
    rows.push_part(NodeKind::Known(Kind::Var), inside, parts)
}

// Numbers the expressions and the statements of cases.
#[cycle(statements)]
#[tactic(auto, using(crate::proofs::Joins::parts_join, crate::proofs::Joins::numbers_join))]
fn push_cases(
    alloc: Global,
    rows: &mut Rows,
    parts: &mut Vec<u32>,
    cs: &[Case],
) -> Result<(), OutOfMemory>
    ensures rows { OnOk result (rows.new ≡ with_parts rows.old
        (node.cases_parts (cases_of cs.now))) }
    ensures parts { OnOk result (parts.new.items
        ≡ with_numbers rows.old parts.old.items (node.cases_parts (cases_of cs.now))) }
{
    let mut rest = cs;
    while let [case, after @ ..] = rest {
        push_case(alloc, rows, parts, &case.test, case.body.as_slice())?;
        rest = after;
    }
    Ok(())
}

// Numbers the expression and the statements of a case.
#[cycle(statements)]
#[tactic(auto, using(crate::proofs::Joins::parts_join, crate::proofs::Joins::numbers_join))]
fn push_case(
    alloc: Global,
    rows: &mut Rows,
    parts: &mut Vec<u32>,
    e: &Option<Expr>,
    ss: &[Stmt],
) -> Result<(), OutOfMemory>
    ensures rows { OnOk result (rows.new ≡ with_parts rows.old
        (node.join (node.maybe_expr_parts (maybe_expr e.now))
        (node.part (node.block_node (stmts_of ss.now)) (node.stmts_parts (stmts_of ss.now))))) }
    ensures parts { OnOk result (parts.new.items
        ≡ with_numbers rows.old parts.old.items
        (node.join (node.maybe_expr_parts (maybe_expr e.now))
        (node.part (node.block_node (stmts_of ss.now)) (node.stmts_parts (stmts_of ss.now))))) }
{
    push_maybe_expr(alloc, rows, parts, e)?;
    push_block(alloc, rows, parts, ss)
}
