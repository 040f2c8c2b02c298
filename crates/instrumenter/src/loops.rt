//! Loops with opened scopes.

ghost use Rattle.std.specs.Prelude.{◌≡◌, ◌≤◌, ◌+◌, ℕ, true, not, ◌&&◌, Some, None, IfOk, OnOk, map};
ghost use Rattle.std.specs.Rc.{rc_value};
ghost use Rattle.js_core.specs.Height.{for_init_height, stmt_height};
ghost use Rattle.js_core.specs.Tree as tree;
ghost use Rattle.js_core.specs.Tree.{maybe_expr, stmts_of};
ghost use Rattle.js_core.specs.Views.{declarators_of, init_of};
ghost use Rattle.early_rules.specs.Limits.{plain_height_limit};
ghost use Rattle.instrumenter.specs.Around as around;
ghost use Rattle.instrumenter.specs.Around.{append};
ghost use Rattle.instrumenter.specs.Counting.{init_scopes, stmt_scopes};
ghost use Rattle.instrumenter.specs.Levels.{around_of};
ghost use Rattle.instrumenter.specs.Opening as spec;

use crate::expressions::{open_expression, open_maybe_expression};
use crate::levels::{Level, field_of, is_own};
use crate::pieces::push_node;
use crate::statements::open_statements;
use crate::variables::{is_changed, open_header, push_plain_names};
use js_core::{Declarator, Expr, ExprNode, For, ForInit, OutOfMemory, Stmt, StmtNode, Units};
use std::alloc::Global;
use std::rc::Rc;

#[cycle(opening)]
#[tactic(auto, using(crate::proofs::Low::expr_low, crate::proofs::Low::stmts_low))]
pub fn push_do(
    alloc: Global,
    levels: &[Rc<Level>],
    next: &mut u64,
    body: &[Stmt],
    test: &Expr,
    out: &mut Vec<Stmt>,
) -> Result<(), OutOfMemory>
    requires { stmt_height (tree.do_while (stmts_of body.now) test.now) ≤ plain_height_limit }
    ensures opened { OnOk result (stmts_of out.new.items ≡ append (stmts_of out.old.items)
        (spec.open_stmt (around_of (map rc_value levels.now)) next.old
        (tree.do_while (stmts_of body.now) test.now))) }
    ensures counted { OnOk result (next.new ≡ next.old + stmt_scopes
        (tree.do_while (stmts_of body.now) test.now)) }
{
    let body = open_statements(alloc, levels, next, body)?;
    let test = open_expression(alloc, levels, next, test)?;
    push_node(StmtNode::Do(body, Box::new(alloc, test)?), out)
}

#[cycle(opening)]
#[tactic(auto, using(crate::proofs::Low::expr_low, crate::proofs::Low::stmts_low))]
pub fn push_while(
    alloc: Global,
    levels: &[Rc<Level>],
    next: &mut u64,
    test: &Expr,
    body: &[Stmt],
    out: &mut Vec<Stmt>,
) -> Result<(), OutOfMemory>
    requires { stmt_height (tree.while test.now (stmts_of body.now)) ≤ plain_height_limit }
    ensures opened { OnOk result (stmts_of out.new.items ≡ append (stmts_of out.old.items)
        (spec.open_stmt (around_of (map rc_value levels.now)) next.old
        (tree.while test.now (stmts_of body.now)))) }
    ensures counted { OnOk result (next.new ≡ next.old + stmt_scopes
        (tree.while test.now (stmts_of body.now))) }
{
    let test = open_expression(alloc, levels, next, test)?;
    let body = open_statements(alloc, levels, next, body)?;
    push_node(StmtNode::While(Box::new(alloc, test)?, body), out)
}

#[cycle(opening)]
#[tactic(auto, using(crate::proofs::Low::init_low, crate::proofs::Low::maybe_low, crate::proofs::Low::stmts_low))]
pub fn push_for(
    alloc: Global,
    levels: &[Rc<Level>],
    next: &mut u64,
    init: &ForInit,
    test: &Option<Expr>,
    step: &Option<Expr>,
    body: &[Stmt],
    out: &mut Vec<Stmt>,
) -> Result<(), OutOfMemory>
    requires { stmt_height (tree.for (init_of init.now) (maybe_expr test.now) (maybe_expr step.now)
        (stmts_of body.now)) ≤ plain_height_limit }
    ensures opened { OnOk result (stmts_of out.new.items ≡ append (stmts_of out.old.items)
        (spec.open_stmt (around_of (map rc_value levels.now)) next.old
        (tree.for (init_of init.now) (maybe_expr test.now) (maybe_expr step.now)
        (stmts_of body.now)))) }
    ensures counted { OnOk result (next.new ≡ next.old + stmt_scopes
        (tree.for (init_of init.now) (maybe_expr test.now) (maybe_expr step.now)
        (stmts_of body.now))) }
{
    push_names_before(alloc, levels, init, out)?;
    let init = open_init(alloc, levels, next, init)?;
    let test = open_maybe_expression(alloc, levels, next, test)?;
    let step = open_maybe_expression(alloc, levels, next, step)?;
    let body = open_statements(alloc, levels, next, body)?;
    let parts = For {
        init,
        test,
        step,
        body,
    };
    push_node(StmtNode::For(Box::new(alloc, parts)?), out)
}

#[cycle(opening)]
#[tactic(auto, using(crate::proofs::Low::expr_low, crate::proofs::Low::stmts_low))]
pub fn push_for_in(
    alloc: Global,
    levels: &[Rc<Level>],
    next: &mut u64,
    declared: bool,
    target: &Expr,
    object: &Expr,
    body: &[Stmt],
    out: &mut Vec<Stmt>,
) -> Result<(), OutOfMemory>
    requires { stmt_height (tree.for_in declared target.now object.now (stmts_of body.now))
        ≤ plain_height_limit }
    ensures opened { OnOk result (stmts_of out.new.items ≡ append (stmts_of out.old.items)
        (spec.open_stmt (around_of (map rc_value levels.now)) next.old
        (tree.for_in declared target.now object.now (stmts_of body.now)))) }
    ensures counted { OnOk result (next.new ≡ next.old + stmt_scopes
        (tree.for_in declared target.now object.now (stmts_of body.now))) }
{
    push_name_before(alloc, levels, declared, target, out)?;
    let declared = stays_declared(levels, declared, target);
    let target = open_expression(alloc, levels, next, target)?;
    let object = open_expression(alloc, levels, next, object)?;
    let body = open_statements(alloc, levels, next, body)?;
    push_node(
        StmtNode::ForIn {
            declared,
            target: Box::new(alloc, target)?,
            object: Box::new(alloc, object)?,
            body,
        },
        out,
    )
}

// What goes before a `for`.
#[tactic(auto, using(crate::proofs::Appended::append_nothing))]
fn push_names_before(
    alloc: Global,
    levels: &[Rc<Level>],
    init: &ForInit,
    out: &mut Vec<Stmt>,
) -> Result<(), OutOfMemory>
    ensures { OnOk result (stmts_of out.new.items ≡ append (stmts_of out.old.items)
        (around.before_for (around_of (map rc_value levels.now)) (init_of init.now)
        tree.no_stmts)) }
{
    match init {
        ForInit::Nothing | ForInit::Expr(_) => Ok(()),
        ForInit::Var(declarators) => push_names_of(alloc, levels, declarators.as_slice(), out),
    }
}

#[tactic(auto, using(crate::proofs::Appended::append_nothing))]
fn push_names_of(
    alloc: Global,
    levels: &[Rc<Level>],
    declarators: &[Declarator],
    out: &mut Vec<Stmt>,
) -> Result<(), OutOfMemory>
    ensures { OnOk result (stmts_of out.new.items ≡ append (stmts_of out.old.items)
        (around.before_for (around_of (map rc_value levels.now))
        (tree.init_var (declarators_of declarators.now)) tree.no_stmts)) }
{
    if !is_changed(levels, declarators) {
        return Ok(());
    }
    push_plain_names(alloc, levels, declarators, out)
}

// What stands first in the header of a `for`.
#[cycle(opening)]
fn open_init(
    alloc: Global,
    levels: &[Rc<Level>],
    next: &mut u64,
    init: &ForInit,
) -> Result<ForInit, OutOfMemory>
    requires { for_init_height (init_of init.now) ≤ plain_height_limit }
    ensures opened { IfOk result (λ i. init_of i
        ≡ spec.open_init (around_of (map rc_value levels.now)) next.old (init_of init.now)) }
    ensures counted { OnOk result (next.new ≡ next.old + init_scopes (init_of init.now)) }
{
    match init {
        ForInit::Nothing => Ok(ForInit::Nothing),
        ForInit::Var(declarators) => open_header(alloc, levels, next, declarators.as_slice()),
        ForInit::Expr(value) => Ok(ForInit::Expr(open_expression(alloc, levels, next, value)?)),
    }
}

// What goes before a `for` with `in`: a `var` of a declared target, where the function has no such field.
#[tactic(auto, using(crate::proofs::Appended::append_nothing))]
fn push_name_before(
    alloc: Global,
    levels: &[Rc<Level>],
    declared: bool,
    target: &Expr,
    out: &mut Vec<Stmt>,
) -> Result<(), OutOfMemory>
    ensures { OnOk result (stmts_of out.new.items ≡ append (stmts_of out.old.items)
        (around.before_for_in (around_of (map rc_value levels.now)) declared target.now
        tree.no_stmts)) }
{
    match &target.node {
        ExprNode::Name(name) if declared => push_unless_own(alloc, levels, name, out),
        _ => Ok(()),
    }
}

#[tactic(auto, using(crate::proofs::Appended::append_nothing))]
fn push_unless_own(
    alloc: Global,
    levels: &[Rc<Level>],
    name: &Units,
    out: &mut Vec<Stmt>,
) -> Result<(), OutOfMemory>
    ensures { OnOk result (stmts_of out.new.items ≡ append (stmts_of out.old.items)
        (around.before_for_in (around_of (map rc_value levels.now)) true (tree.name name.now)
        tree.no_stmts)) }
{
    if is_own(levels, name) {
        return Ok(());
    }
    if field_of(levels, name).is_none() {
        return Ok(());
    }
    let mut names = Vec::new(alloc);
    names.push(Declarator {
        name: name.clone()?,
        value: None,
    })?;
    push_node(StmtNode::Var(names), out)
}

// Whether a target that is declared stays so: one that is a field does not.
fn stays_declared(levels: &[Rc<Level>], declared: bool, target: &Expr) -> bool
    ensures { result ≡ (declared && not (around.target_is_field
        (around_of (map rc_value levels.now)) target.now)) }
{
    declared && !is_field(levels, target)
}

// Whether the target is a field.
fn is_field(levels: &[Rc<Level>], target: &Expr) -> bool
    ensures { result ≡ around.target_is_field (around_of (map rc_value levels.now)) target.now }
{
    match &target.node {
        ExprNode::Name(name) => field_of(levels, name).is_some(),
        _ => false,
    }
}
