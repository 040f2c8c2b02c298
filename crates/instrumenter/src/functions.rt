//! Functions with opened scopes. Their declarations stand at their start, as assignments.

ghost use Rattle.std.specs.Prelude.{◌≡◌, ◌≤◌, ◌+◌, ℕ, Some, None, IfOk, OnOk, map};
ghost use Rattle.std.specs.Rc.{rc_value};
ghost use Rattle.js_core.specs.Height.{code_height, expr_height, stmt_height, stmts_height};
ghost use Rattle.js_core.specs.Tree as tree;
ghost use Rattle.js_core.specs.Tree.{code, stmts_of};
ghost use Rattle.early_rules.specs.Limits.{plain_height_limit};
ghost use Rattle.scope_analysis.specs.Names.{code_body, code_formals, code_name, maybe_name};
ghost use Rattle.instrumenter.specs.Around as around;
ghost use Rattle.instrumenter.specs.Counting.{count_of, expr_scopes, stmt_scopes, stmts_scopes};
ghost use Rattle.instrumenter.specs.Fields.{declaration_fields};
ghost use Rattle.instrumenter.specs.Levels.{around_of};
ghost use Rattle.instrumenter.specs.Opening as spec;

use crate::levels::{Level, field_of, in_function, is_own};
use crate::names::{fields_in, next_number};
use crate::pieces::{assignment, field_or_name, push_node, push_scope_object, push_var_of};
use crate::statements::push_statement;
use js_core::{Code, Expr, ExprNode, OutOfMemory, Stmt, StmtNode, Units};
use scope_analysis::{own_name, push_names};
use std::alloc::Global;
use std::rc::Rc;

/// A function expression.
#[cycle(opening)]
pub fn open_function_expression(
    alloc: Global,
    levels: &[Rc<Level>],
    next: &mut u64,
    code: &Code,
) -> Result<Expr, OutOfMemory>
    requires { expr_height (tree.func code.now) ≤ plain_height_limit }
    ensures opened { IfOk result (λ e. e
        ≡ spec.open_expr (around_of (map rc_value levels.now)) next.old (tree.func code.now)) }
    ensures counted { OnOk result (next.new ≡ next.old + expr_scopes (tree.func code.now)) }
{
    let own = own_name(alloc, code)?;
    let fields = fields_in(alloc, &own, code)?;
    let body = open_function(alloc, levels, next, fields.as_slice(), &own, code)?;
    function(alloc, same_name(&code.name)?, code.formals.as_slice(), body)
}

/// The same name, which may be there.
pub fn same_name(name: &Option<Units>) -> Result<Option<Units>, OutOfMemory>
    ensures { IfOk result (λ same. same ≡ name.now) }
{
    match name {
        None => Ok(None),
        Some(name) => Ok(Some(name.clone()?)),
    }
}

fn function(
    alloc: Global,
    name: Option<Units>,
    formals: &[Units],
    body: Vec<Stmt>,
) -> Result<Expr, OutOfMemory>
    requires { stmts_height (stmts_of body.items) ≤ 900 }
    ensures { IfOk result (λ e. e ≡ tree.func (code name formals.now (stmts_of body.items))) }
{
    let function = same_code(alloc, name, formals, body)?;
    Ok(Expr::new(ExprNode::Func(function)))
}

/// A function with this name, these formals and this body.
pub fn same_code(
    alloc: Global,
    name: Option<Units>,
    formals: &[Units],
    body: Vec<Stmt>,
) -> Result<Rc<Code>, OutOfMemory>
    ensures { IfOk result (λ c. rc_value c ≡ code name formals.now (stmts_of body.items)) }
{
    let mut same = Vec::new(alloc);
    push_names(formals, &mut same)?;
    Ok(Rc::new(alloc, Code::new(name, same, body))?)
}

/// The body of a function declaration.
#[cycle(opening)]
pub fn open_declared(
    alloc: Global,
    levels: &[Rc<Level>],
    next: &mut u64,
    code: &Code,
) -> Result<Vec<Stmt>, OutOfMemory>
    requires { code_height code.now ≤ plain_height_limit }
    ensures opened { IfOk result (λ body. stmts_of body.items
        ≡ spec.open_function (around_of (map rc_value levels.now)) next.old
        (declaration_fields code.now) None code.now) }
    ensures counted { OnOk result (next.new ≡ next.old + stmt_scopes (tree.function code.now)) }
{
    let fields = fields_in(alloc, &None, code)?;
    open_function(alloc, levels, next, fields.as_slice(), &None, code)
}

// The body of a function that has these fields and this own name.
#[cycle(opening)]
fn open_function(
    alloc: Global,
    levels: &[Rc<Level>],
    next: &mut u64,
    fields: &[Units],
    own: &Option<Units>,
    code: &Code,
) -> Result<Vec<Stmt>, OutOfMemory>
    requires { code_height code.now ≤ plain_height_limit }
    ensures opened { IfOk result (λ body. stmts_of body.items
        ≡ spec.open_function (around_of (map rc_value levels.now)) next.old
        fields.now own.now code.now) }
    ensures counted { OnOk result (next.new
        ≡ next.old + (count_of fields.now + stmts_scopes (code_body code.now))) }
{
    let number = *next;
    let inner = in_function(alloc, levels, number, fields, own, code)?;
    let mut opened = Vec::new(alloc);
    push_scope_object(alloc, number, own, code, fields, &mut opened)?;
    *next = next_number(fields, number)?;
    let mut others = Vec::new(alloc);
    push_body(
        alloc,
        inner.as_slice(),
        next,
        code.body.as_slice(),
        &mut opened,
        &mut others,
    )?;
    opened.append(&mut others)?;
    Ok(opened)
}

// Appends the opened declarations among the statements, and the other opened statements.
#[cycle(opening)]
fn push_body(
    alloc: Global,
    levels: &[Rc<Level>],
    next: &mut u64,
    body: &[Stmt],
    declared: &mut Vec<Stmt>,
    others: &mut Vec<Stmt>,
) -> Result<(), OutOfMemory>
    requires { stmts_height (stmts_of body.now) ≤ plain_height_limit }
    ensures declared { OnOk result (stmts_of declared.new.items
        ≡ around.append (stmts_of declared.old.items) (spec.open_declarations
        (around_of (map rc_value levels.now)) next.old (stmts_of body.now))) }
    ensures others { OnOk result (stmts_of others.new.items
        ≡ around.append (stmts_of others.old.items) (spec.open_stmts
        (around_of (map rc_value levels.now)) next.old (stmts_of body.now))) }
    ensures counted { OnOk result (next.new ≡ next.old + stmts_scopes (stmts_of body.now)) }
{
    let mut rest = body;
    while let [statement, after @ ..] = rest {
        push_part(alloc, levels, next, statement, declared, others)?;
        rest = after;
    }
    Ok(())
}

#[cycle(opening)]
fn push_part(
    alloc: Global,
    levels: &[Rc<Level>],
    next: &mut u64,
    statement: &Stmt,
    declared: &mut Vec<Stmt>,
    others: &mut Vec<Stmt>,
) -> Result<(), OutOfMemory>
    requires { stmt_height statement.now ≤ plain_height_limit }
    ensures declared { OnOk result (stmts_of declared.new.items
        ≡ around.append (stmts_of declared.old.items) (spec.open_declarations
        (around_of (map rc_value levels.now)) next.old
        (tree.then_stmt statement.now tree.no_stmts))) }
    ensures others { OnOk result (stmts_of others.new.items
        ≡ around.append (stmts_of others.old.items) (spec.open_stmt
        (around_of (map rc_value levels.now)) next.old statement.now)) }
    ensures counted { OnOk result (next.new ≡ next.old + stmt_scopes statement.now) }
{
    match &statement.node {
        StmtNode::Function(code) => push_declaration(alloc, levels, next, code, declared),
        _ => push_statement(alloc, levels, next, statement, others),
    }
}

// Appends the assignment that a function declaration becomes.
#[cycle(opening)]
fn push_declaration(
    alloc: Global,
    levels: &[Rc<Level>],
    next: &mut u64,
    code: &Code,
    out: &mut Vec<Stmt>,
) -> Result<(), OutOfMemory>
    requires { stmt_height (tree.function code.now) ≤ plain_height_limit }
    ensures opened { OnOk result (stmts_of out.new.items
        ≡ around.append (stmts_of out.old.items) (spec.open_declarations
        (around_of (map rc_value levels.now)) next.old
        (tree.then_stmt (tree.function code.now) tree.no_stmts))) }
    ensures counted { OnOk result (next.new ≡ next.old + stmt_scopes (tree.function code.now)) }
{
    let body = open_declared(alloc, levels, next, code)?;
    let value = function(alloc, None, code.formals.as_slice(), body)?;
    push_named_function(alloc, levels, &code.name, value, out)
}

#[tactic(auto, using(crate::proofs::Appended::append_nothing))]
fn push_named_function(
    alloc: Global,
    levels: &[Rc<Level>],
    name: &Option<Units>,
    value: Expr,
    out: &mut Vec<Stmt>,
) -> Result<(), OutOfMemory>
    requires { expr_height value ≤ 900 }
    ensures { OnOk result (stmts_of out.new.items
        ≡ around.append (stmts_of out.old.items) (around.declaration
        (around_of (map rc_value levels.now)) name.now value tree.no_stmts)) }
{
    match name {
        None => Ok(()),
        Some(name) => push_declared_name(alloc, levels, name, value, out),
    }
}

fn push_declared_name(
    alloc: Global,
    levels: &[Rc<Level>],
    name: &Units,
    value: Expr,
    out: &mut Vec<Stmt>,
) -> Result<(), OutOfMemory>
    requires { expr_height value ≤ 900 }
    ensures { OnOk result (stmts_of out.new.items
        ≡ around.append (stmts_of out.old.items) (around.single (around.declared_name
        (around_of (map rc_value levels.now)) name.now value))) }
{
    if !is_own(levels, name) {
        return push_var_of(alloc, name.clone()?, value, out);
    }
    let target = field_or_name(alloc, field_of(levels, name), name)?;
    let set = assignment(alloc, target, value)?;
    push_node(StmtNode::Expr(set), out)
}
