//! Variables with opened scopes.

ghost use Rattle.std.specs.Prelude.{◌≡◌, ◌≤◌, ◌+◌, ℕ, Some, None, IfOk, OnOk, map};
ghost use Rattle.std.specs.Rc.{rc_value};
ghost use Rattle.js_core.specs.Height.{declarators_height, expr_height, exprs_height, maybe_expr_height, stmt_height};
ghost use Rattle.js_core.specs.Tree as tree;
ghost use Rattle.js_core.specs.Tree.{exprs_of, maybe_expr, stmts_of};
ghost use Rattle.js_core.specs.Views.{declarators_of, init_of};
ghost use Rattle.early_rules.specs.Limits.{plain_height_limit};
ghost use Rattle.instrumenter.specs.Around as around;
ghost use Rattle.instrumenter.specs.Around.{append};
ghost use Rattle.instrumenter.specs.Counting.{declarators_scopes, expr_scopes, maybe_expr_scopes, stmt_scopes};
ghost use Rattle.instrumenter.specs.Levels.{around_of, assigned, changes};
ghost use Rattle.instrumenter.specs.Opening as spec;

use crate::expressions::{open_expression, open_maybe_expression};
use crate::levels::{Level, field_of, is_own};
use crate::pieces::{assignment, field_or_name, push_node};
use js_core::{Declarator, Expr, ExprNode, ForInit, OutOfMemory, Stmt, StmtNode, Units};
use std::alloc::Global;
use std::rc::Rc;

/// Whether a name of a `var` is a field, or its initialiser assigns to one.
#[tactic(auto, using(crate::proofs::Appended::changed_more))]
pub fn is_changed(levels: &[Rc<Level>], declarators: &[Declarator]) -> bool
    ensures { result ≡ around.is_changed (around_of (map rc_value levels.now))
        (declarators_of declarators.now) }
{
    let mut rest = declarators;
    while let [declarator, after @ ..] = rest {
        if is_field(levels, &declarator.name, declarator.value.is_some()) {
            return true;
        }
        rest = after;
    }
    false
}

// Whether the variable is a field of the function, or an initialiser assigns to one.
fn is_field(levels: &[Rc<Level>], name: &Units, assigns: bool) -> bool
    ensures { result ≡ changes (around_of (map rc_value levels.now)) name.now assigns }
{
    is_own(levels, name) || (assigns && field_of(levels, name).is_some())
}

/// Appends a `var` of the names that are no fields of the function, where there are any.
pub fn push_plain_names(
    alloc: Global,
    levels: &[Rc<Level>],
    declarators: &[Declarator],
    out: &mut Vec<Stmt>,
) -> Result<(), OutOfMemory>
    ensures { OnOk result (stmts_of out.new.items ≡ append (stmts_of out.old.items)
        (around.var_where_any (around.plain_names (around_of (map rc_value levels.now))
        (declarators_of declarators.now)) tree.no_stmts)) }
{
    let names = plain_names(alloc, levels, declarators)?;
    if names.is_empty() {
        return Ok(());
    }
    push_node(StmtNode::Var(names), out)
}

fn plain_names(
    alloc: Global,
    levels: &[Rc<Level>],
    declarators: &[Declarator],
) -> Result<Vec<Declarator>, OutOfMemory>
    ensures { IfOk result (λ names. declarators_of names.items
        ≡ around.plain_names (around_of (map rc_value levels.now))
        (declarators_of declarators.now)) }
{
    let mut names = Vec::new(alloc);
    let mut rest = declarators;
    while let [declarator, after @ ..] = rest {
        if !is_own(levels, &declarator.name) {
            names.push(Declarator {
                name: declarator.name.clone()?,
                value: None,
            })?;
        }
        rest = after;
    }
    Ok(names)
}

/// Appends what a `var` statement becomes.
#[cycle(opening)]
pub fn push_variables(
    alloc: Global,
    levels: &[Rc<Level>],
    next: &mut u64,
    declarators: &[Declarator],
    out: &mut Vec<Stmt>,
) -> Result<(), OutOfMemory>
    requires { stmt_height (tree.var (declarators_of declarators.now)) ≤ plain_height_limit }
    ensures opened { OnOk result (stmts_of out.new.items ≡ append (stmts_of out.old.items)
        (spec.open_stmt (around_of (map rc_value levels.now)) next.old
        (tree.var (declarators_of declarators.now)))) }
    ensures counted { OnOk result (next.new
        ≡ next.old + stmt_scopes (tree.var (declarators_of declarators.now))) }
{
    if is_changed(levels, declarators) {
        push_plain_names(alloc, levels, declarators, out)?;
        return push_assignments(alloc, levels, next, declarators, out);
    }
    let declarators = open_declarators(alloc, levels, next, declarators)?;
    push_node(StmtNode::Var(declarators), out)
}

// Appends the assignments that the initialisers become.
#[cycle(opening)]
fn push_assignments(
    alloc: Global,
    levels: &[Rc<Level>],
    next: &mut u64,
    declarators: &[Declarator],
    out: &mut Vec<Stmt>,
) -> Result<(), OutOfMemory>
    requires { declarators_height (declarators_of declarators.now) ≤ plain_height_limit }
    ensures opened { OnOk result (stmts_of out.new.items ≡ append (stmts_of out.old.items)
        (around.as_statements (around.assignments (around_of (map rc_value levels.now))
        (spec.open_declarators (around_of (map rc_value levels.now)) next.old
        (declarators_of declarators.now))))) }
    ensures counted { OnOk result (next.new
        ≡ next.old + declarators_scopes (declarators_of declarators.now)) }
{
    let mut rest = declarators;
    while let [declarator, after @ ..] = rest {
        push_initialiser(
            alloc,
            levels,
            next,
            &declarator.name,
            &declarator.value,
            out,
        )?;
        rest = after;
    }
    Ok(())
}

// Appends the assignment that the initialiser becomes, where there is one.
#[cycle(opening)]
#[tactic(auto, using(crate::proofs::Appended::append_nothing))]
fn push_initialiser(
    alloc: Global,
    levels: &[Rc<Level>],
    next: &mut u64,
    name: &Units,
    value: &Option<Expr>,
    out: &mut Vec<Stmt>,
) -> Result<(), OutOfMemory>
    requires { maybe_expr_height (maybe_expr value.now) ≤ plain_height_limit }
    ensures opened { OnOk result (stmts_of out.new.items ≡ append (stmts_of out.old.items)
        (around.as_statements (exprs_of (assigned (around_of (map rc_value levels.now)) next.old
        name.now value.now)))) }
    ensures counted { OnOk result (next.new
        ≡ next.old + maybe_expr_scopes (maybe_expr value.now)) }
{
    match value {
        None => Ok(()),
        Some(value) => {
            let set = open_initialiser(alloc, levels, next, name, value)?;
            push_node(StmtNode::Expr(set), out)
        }
    }
}

// The assignment that an initialiser becomes.
#[cycle(opening)]
#[tactic(auto, using(crate::proofs::Low::expr_low))]
fn open_initialiser(
    alloc: Global,
    levels: &[Rc<Level>],
    next: &mut u64,
    name: &Units,
    value: &Expr,
) -> Result<Expr, OutOfMemory>
    requires { expr_height value.now ≤ plain_height_limit }
    ensures opened { IfOk result (λ e. e ≡ tree.assign None
        (around.field_or_name ((around_of (map rc_value levels.now)).fields name.now) name.now)
        (spec.open_expr (around_of (map rc_value levels.now)) next.old value.now)) }
    ensures low { IfOk result (λ e. expr_height e ≤ 900) }
    ensures counted { OnOk result (next.new ≡ next.old + expr_scopes value.now) }
{
    let target = field_or_name(alloc, field_of(levels, name), name)?;
    let value = open_expression(alloc, levels, next, value)?;
    assignment(alloc, target, value)
}

/// What a `var` in the header of a `for` becomes there.
#[cycle(opening)]
pub fn open_header(
    alloc: Global,
    levels: &[Rc<Level>],
    next: &mut u64,
    declarators: &[Declarator],
) -> Result<ForInit, OutOfMemory>
    requires { declarators_height (declarators_of declarators.now) ≤ plain_height_limit }
    ensures opened { IfOk result (λ i. init_of i
        ≡ spec.open_init (around_of (map rc_value levels.now)) next.old
        (tree.init_var (declarators_of declarators.now))) }
    ensures counted { OnOk result (next.new
        ≡ next.old + declarators_scopes (declarators_of declarators.now)) }
{
    if !is_changed(levels, declarators) {
        return Ok(ForInit::Var(open_declarators(alloc, levels, next, declarators)?));
    }
    let assignments = open_initialisers(alloc, levels, next, declarators)?;
    Ok(as_init(assignments))
}

#[cycle(opening)]
fn open_initialisers(
    alloc: Global,
    levels: &[Rc<Level>],
    next: &mut u64,
    declarators: &[Declarator],
) -> Result<Vec<Expr>, OutOfMemory>
    requires { declarators_height (declarators_of declarators.now) ≤ plain_height_limit }
    ensures opened { IfOk result (λ v. exprs_of v.items
        ≡ around.assignments (around_of (map rc_value levels.now))
        (spec.open_declarators (around_of (map rc_value levels.now)) next.old
        (declarators_of declarators.now))) }
    ensures counted { OnOk result (next.new
        ≡ next.old + declarators_scopes (declarators_of declarators.now)) }
{
    let mut assignments = Vec::new(alloc);
    let mut rest = declarators;
    while let [declarator, after @ ..] = rest {
        if let Some(value) = &declarator.value {
            assignments.push(open_initialiser(alloc, levels, next, &declarator.name, value)?)?;
        }
        rest = after;
    }
    Ok(assignments)
}

// The assignments, joined by commas.
#[tactic(auto, using(crate::proofs::Appended::joined_init))]
fn as_init(mut assignments: Vec<Expr>) -> ForInit
    requires { exprs_height (exprs_of assignments.items) ≤ 900 }
    ensures { init_of result ≡ around.as_init (exprs_of assignments.items) }
{
    if assignments.len() > 1 {
        return ForInit::Expr(Expr::new(ExprNode::Comma(assignments)));
    }
    match assignments.pop() {
        None => ForInit::Nothing,
        Some(only) => ForInit::Expr(only),
    }
}

// The initialisers, opened.
#[cycle(opening)]
fn open_declarators(
    alloc: Global,
    levels: &[Rc<Level>],
    next: &mut u64,
    declarators: &[Declarator],
) -> Result<Vec<Declarator>, OutOfMemory>
    requires { declarators_height (declarators_of declarators.now) ≤ plain_height_limit }
    ensures opened { IfOk result (λ v. declarators_of v.items
        ≡ spec.open_declarators (around_of (map rc_value levels.now)) next.old
        (declarators_of declarators.now)) }
    ensures counted { OnOk result (next.new
        ≡ next.old + declarators_scopes (declarators_of declarators.now)) }
{
    let mut opened = Vec::new(alloc);
    let mut rest = declarators;
    while let [declarator, after @ ..] = rest {
        opened.push(Declarator {
            name: declarator.name.clone()?,
            value: open_maybe_expression(alloc, levels, next, &declarator.value)?,
        })?;
        rest = after;
    }
    Ok(opened)
}
