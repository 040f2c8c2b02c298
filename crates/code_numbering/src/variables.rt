//! The names that a body's variable statements declare (ECMA-262 5.1 section 10.5).

ghost use Rattle.std.specs.Prelude.{◌≡◌, ◌++◌, OnOk, option_map, true};
ghost use Rattle.js_core.specs.Tree as tree;
ghost use Rattle.js_core.specs.Tree.{stmts_of, maybe_stmts};
ghost use Rattle.js_core.specs.Views.{declarators_of, init_of, catch_of, cases_of};
ghost use Rattle.code_table.specs.Declarations as spec;

use js_core::{
    Case, Catch, Declarator, Expr, ExprNode, ForInit, OutOfMemory, Stmt, StmtNode, Units,
};

/// Appends the names that statements declare, in source order.
#[cycle(declaring)]
pub fn push_variables(ss: &[Stmt], out: &mut Vec<Units>) -> Result<(), OutOfMemory>
    ensures { OnOk result (out.new.items ≡ out.old.items ++ spec.variables_of (stmts_of ss.now)) }
{
    let mut rest = ss;
    while let [s, after @ ..] = rest {
        push_stmt_variables(s, out)?;
        rest = after;
    }
    Ok(())
}

#[cycle(declaring)]
fn push_stmt_variables(s: &Stmt, out: &mut Vec<Units>) -> Result<(), OutOfMemory>
    ensures { OnOk result (out.new.items ≡ out.old.items ++ spec.stmt_variables s.now) }
{
    match &s.node {
        StmtNode::Function(_)
        | StmtNode::Expr(_)
        | StmtNode::Empty
        | StmtNode::Continue
        | StmtNode::Break
        | StmtNode::Return(_)
        | StmtNode::Throw(_) => Ok(()),
        StmtNode::Var(ds) => push_declarators(ds.as_slice(), out),
        StmtNode::Block(body) => push_variables(body.as_slice(), out),
        StmtNode::Do(body, _) => push_variables(body.as_slice(), out),
        StmtNode::While(_, body) => push_variables(body.as_slice(), out),
        StmtNode::If(parts) => {
            push_variables(parts.first.as_slice(), out)?;
            push_body_variables(&parts.second, out)
        }
        StmtNode::For(parts) => {
            push_init(&parts.init, out)?;
            push_variables(parts.body.as_slice(), out)
        }
        StmtNode::ForIn {
            declared,
            target,
            object: _,
            body,
        } => {
            push_target(*declared, target, out)?;
            push_variables(body.as_slice(), out)
        }
        StmtNode::Try(parts) => {
            push_variables(parts.block.as_slice(), out)?;
            push_catch_variables(&parts.catch, out)?;
            push_body_variables(&parts.last, out)
        }
        StmtNode::Switch(_, cases) => push_case_variables(cases.as_slice(), out),
    }
}

fn push_declarators(ds: &[Declarator], out: &mut Vec<Units>) -> Result<(), OutOfMemory>
    ensures { OnOk result (out.new.items ≡ out.old.items
        ++ spec.declarator_names (declarators_of ds.now)) }
{
    let mut rest = ds;
    while let [d, after @ ..] = rest {
        out.push(d.name.clone()?)?;
        rest = after;
    }
    Ok(())
}

fn push_init(init: &ForInit, out: &mut Vec<Units>) -> Result<(), OutOfMemory>
    ensures { OnOk result (out.new.items ≡ out.old.items ++ spec.init_names (init_of init.now)) }
{
    match init {
        ForInit::Nothing => Ok(()),
        ForInit::Var(ds) => push_declarators(ds.as_slice(), out),
        ForInit::Expr(_) => Ok(()),
    }
}

fn push_target(declared: bool, target: &Expr, out: &mut Vec<Units>) -> Result<(), OutOfMemory>
    ensures { OnOk result (out.new.items ≡ out.old.items ++ spec.target_names declared target.now) }
{
    if declared {
        push_name(target, out)
    } else {
        Ok(())
    }
}

fn push_name(target: &Expr, out: &mut Vec<Units>) -> Result<(), OutOfMemory>
    ensures { OnOk result (out.new.items ≡ out.old.items ++ spec.target_names true target.now) }
{
    match &target.node {
        ExprNode::Name(x) => {
            out.push(x.clone()?)?;
            Ok(())
        }
        _ => Ok(()),
    }
}

#[cycle(declaring)]
fn push_body_variables(body: &Option<Vec<Stmt>>, out: &mut Vec<Units>) -> Result<(), OutOfMemory>
    ensures { OnOk result (out.new.items ≡ out.old.items
        ++ spec.body_variables (maybe_stmts (option_map (λ v. v.items) body.now))) }
{
    match body {
        None => Ok(()),
        Some(body) => push_variables(body.as_slice(), out),
    }
}

#[cycle(declaring)]
fn push_catch_variables(catch: &Option<Catch>, out: &mut Vec<Units>) -> Result<(), OutOfMemory>
    ensures { OnOk result (out.new.items ≡ out.old.items
        ++ spec.catch_variables (catch_of catch.now)) }
{
    match catch {
        None => Ok(()),
        Some(catch) => push_variables(catch.body.as_slice(), out),
    }
}

#[cycle(declaring)]
fn push_case_variables(cases: &[Case], out: &mut Vec<Units>) -> Result<(), OutOfMemory>
    ensures { OnOk result (out.new.items ≡ out.old.items
        ++ spec.case_variables (cases_of cases.now)) }
{
    let mut rest = cases;
    while let [case, after @ ..] = rest {
        push_variables(case.body.as_slice(), out)?;
        rest = after;
    }
    Ok(())
}
