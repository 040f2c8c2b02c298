//! The small pieces that opening puts in.

ghost use Rattle.std.specs.Prelude.{◌≡◌, ◌≤◌, [], ◌∷◌, ◌++◌, pos, Some, None, bytes_eq, map, IfOk, OnOk};
ghost use Rattle.indexmap.specs.IndexSet.{contains};
ghost use Rattle.js_core.specs.Height.{expr_height, stmt_height};
ghost use Rattle.js_core.specs.Tree as tree;
ghost use Rattle.js_core.specs.Tree.{fields_of, stmts_of};
ghost use Rattle.js_core.specs.Views.{stmt_of};
ghost use Rattle.scope_analysis.specs.Names.{code_formals, is_among, maybe_name};
ghost use Rattle.instrumenter.specs.Around as spec;

use crate::names::scope_name;
use indexmap::IndexSet;
use js_core::{
    Code, Declarator, Expr, ExprNode, OutOfMemory, Stmt, StmtNode, UnaryOp, Units, Whole,
};
use scope_analysis::{name_table, push_maybe_name, push_names};
use std::alloc::Global;

/// The name, as an expression.
pub fn named(name: &Units) -> Result<Expr, OutOfMemory>
    ensures { IfOk result (λ e. e ≡ tree.name name.now) }
{
    Ok(Expr::new(ExprNode::Name(name.clone()?)))
}

/// A reference: `$$n.x` where it is the field of this object, or the name as it is.
pub fn field_or_name(alloc: Global, field: Option<u64>, name: &Units) -> Result<Expr, OutOfMemory>
    ensures { IfOk result (λ e. e ≡ spec.field_or_name field name.now) }
{
    match field {
        None => named(name),
        Some(number) => member(alloc, number, name),
    }
}

fn member(alloc: Global, number: u64, name: &Units) -> Result<Expr, OutOfMemory>
    ensures { IfOk result (λ e. e ≡ tree.member (tree.name (spec.scope_name number)) name.now) }
{
    let object = named(&scope_name(alloc, number)?)?;
    Ok(Expr::new(ExprNode::Member(Box::new(alloc, object)?, name.clone()?)))
}

/// The callee `(0,$$n.x)`, since the object is not `this` of the call (11.2.3).
pub fn without_this(alloc: Global, field: Option<u64>, callee: Expr) -> Result<Expr, OutOfMemory>
    requires { expr_height callee ≤ 900 }
    ensures { IfOk result (λ e. e ≡ spec.without_this field callee) }
{
    match field {
        None => Ok(callee),
        Some(_) => behind_zero(alloc, callee),
    }
}

fn behind_zero(alloc: Global, callee: Expr) -> Result<Expr, OutOfMemory>
    requires { expr_height callee ≤ 900 }
    ensures { IfOk result (λ e. e ≡ tree.comma (tree.then_expr (tree.num (Some (pos 0)))
        (tree.then_expr callee tree.no_exprs))) }
{
    let mut parts = Vec::new(alloc);
    parts.push(zero())?;
    parts.push(callee)?;
    Ok(Expr::new(ExprNode::Comma(parts)))
}

fn zero() -> Expr
    ensures { result ≡ tree.num (Some (pos 0)) }
{
    Expr::new(ExprNode::Num(Whole::new(0).unwrap()))
}

fn void_zero(alloc: Global) -> Result<Expr, OutOfMemory>
    ensures { IfOk result (λ e. e ≡ spec.void_zero) }
{
    Ok(Expr::new(ExprNode::Unary(UnaryOp::Void, Box::new(alloc, zero())?)))
}

/// An assignment.
pub fn assignment(alloc: Global, target: Expr, value: Expr) -> Result<Expr, OutOfMemory>
    requires target { expr_height target ≤ 900 }
    requires value { expr_height value ≤ 900 }
    ensures { IfOk result (λ e. e ≡ tree.assign None target value) }
{
    Ok(Expr::new(ExprNode::Assign(None, Box::new(alloc, target)?, Box::new(alloc, value)?)))
}

/// Appends one statement.
#[tactic(auto, using(crate::proofs::Appended::pushed))]
pub fn push_node(node: StmtNode, out: &mut Vec<Stmt>) -> Result<(), OutOfMemory>
    requires { stmt_height (stmt_of node) ≤ 1000 }
    ensures { OnOk result (stmts_of out.new.items
        ≡ spec.append (stmts_of out.old.items) (spec.single (stmt_of node))) }
{
    out.push(Stmt::new(node))?;
    Ok(())
}

/// Appends a `var` of one name.
pub fn push_var_of(
    alloc: Global,
    name: Units,
    value: Expr,
    out: &mut Vec<Stmt>,
) -> Result<(), OutOfMemory>
    requires { expr_height value ≤ 900 }
    ensures { OnOk result (stmts_of out.new.items
        ≡ spec.append (stmts_of out.old.items) (spec.single (spec.var_of name value))) }
{
    let mut declarators = Vec::new(alloc);
    declarators.push(Declarator {
        name,
        value: Some(value),
    })?;
    push_node(StmtNode::Var(declarators), out)
}

/// Appends `var $$n={..};`, where there are fields.
#[tactic(auto, using(crate::proofs::Appended::append_nothing))]
pub fn push_scope_object(
    alloc: Global,
    number: u64,
    own: &Option<Units>,
    code: &Code,
    fields: &[Units],
    out: &mut Vec<Stmt>,
) -> Result<(), OutOfMemory>
    ensures { OnOk result (stmts_of out.new.items
        ≡ spec.append (stmts_of out.old.items) (spec.scope_object number
        (spec.valued_names own.now code.now) fields.now tree.no_stmts)) }
{
    if fields.is_empty() {
        return Ok(());
    }
    let mut valued = Vec::new(alloc);
    push_names(code.formals.as_slice(), &mut valued)?;
    push_maybe_name(own, &mut valued)?;
    let object = scope_object(alloc, valued.as_slice(), fields)?;
    push_var_of(alloc, scope_name(alloc, number)?, object, out)
}

fn scope_object(alloc: Global, valued: &[Units], fields: &[Units]) -> Result<Expr, OutOfMemory>
    ensures opened { IfOk result (λ e. e ≡ tree.literal
        (spec.literal_fields valued.now fields.now)) }
    ensures low { IfOk result (λ e. expr_height e ≤ 900) }
{
    let table = name_table(alloc, valued)?;
    let members = object_fields(alloc, &table, fields)?;
    Ok(Expr::new(ExprNode::Literal(members)))
}

fn object_fields(
    alloc: Global,
    valued: &IndexSet<Units>,
    fields: &[Units],
) -> Result<Vec<(Units, Expr)>, OutOfMemory>
    ensures { IfOk result (λ members. members.items
        ≡ map (λ x. (x, spec.first_value valued.now.keys x)) fields.now) }
{
    let mut members = Vec::new(alloc);
    let mut rest = fields;
    while let [name, after @ ..] = rest {
        members.push((name.clone()?, first_value(alloc, valued, name)?))?;
        rest = after;
    }
    Ok(members)
}

// A formal and the function's own name have a value at its start, the other names have none.
fn first_value(alloc: Global, valued: &IndexSet<Units>, name: &Units) -> Result<Expr, OutOfMemory>
    ensures { IfOk result (λ e. e ≡ spec.first_value valued.now.keys name.now) }
{
    if valued.contains(name) {
        return named(name);
    }
    void_zero(alloc)
}

/// Appends `$$n={"e":$$n};`, where the parameter of a catch clause is a field.
#[tactic(auto, using(crate::proofs::Appended::append_nothing))]
pub fn push_clause_object(
    alloc: Global,
    number: u64,
    fields: &[Units],
    out: &mut Vec<Stmt>,
) -> Result<(), OutOfMemory>
    ensures { OnOk result (stmts_of out.new.items
        ≡ spec.append (stmts_of out.old.items) (spec.clause_object number fields.now
        tree.no_stmts)) }
{
    match fields {
        [] => Ok(()),
        [parameter, ..] => {
            let name = scope_name(alloc, number)?;
            let boxed = assignment(alloc, named(&name)?, boxed(alloc, parameter, &name)?)?;
            push_node(StmtNode::Expr(boxed), out)
        }
    }
}

// `{"e":$$n}`
fn boxed(alloc: Global, parameter: &Units, name: &Units) -> Result<Expr, OutOfMemory>
    ensures { IfOk result (λ e. e ≡ tree.literal
        (tree.then_field parameter.now (tree.name name.now) tree.no_fields)) }
{
    let mut members = Vec::new(alloc);
    members.push((parameter.clone()?, named(name)?))?;
    Ok(Expr::new(ExprNode::Literal(members)))
}
