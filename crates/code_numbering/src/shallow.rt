//! Kinds of expressions and statements.

ghost use Rattle.std.specs.Prelude.{◌≡◌, ◌++◌, IfOk, OnOk, length};
ghost use Rattle.js_core.specs.Tree.{fields_of};
ghost use Rattle.js_core.specs.Views.{catch_of};
ghost use Rattle.code_table.specs.Kind as spec;
ghost use Rattle.code_table.specs.Node as node;
ghost use Rattle.code_numbering.specs.Numbered.{known};

use crate::rows::NodeKind;
use code_table::{Kind, Names};
use js_core::{BinaryOp, Catch, Expr, ExprNode, OutOfMemory, Stmt, StmtNode, UnaryOp, Units};
use std::alloc::Global;

/// Whether it is a property, named by a member expression (ECMA-262 5.1 section 11.2.1).
pub fn is_property(e: &Expr) -> bool
    ensures { result ≡ node.is_property e.now }
{
    match &e.node {
        ExprNode::Member(_, _) => true,
        ExprNode::Index(_, _) => true,
        _ => false,
    }
}

/// Whether it is a name.
pub fn is_name(e: &Expr) -> bool
    ensures { result ≡ node.is_name e.now }
{
    match &e.node {
        ExprNode::Name(_) => true,
        _ => false,
    }
}

/// Whether the operator takes the place that its operand names, and not the value there.
pub fn takes_place(op: UnaryOp, e: &Expr) -> bool
    ensures { result ≡ node.takes_place op e.now }
{
    match op {
        UnaryOp::Delete => is_property(e),
        UnaryOp::Typeof => is_name(e),
        _ => false,
    }
}

/// The kind of a call of this.
pub fn call_kind(f: &Expr) -> Result<Kind, OutOfMemory>
    ensures { IfOk result (λ kind. kind ≡ spec.call_kind f.now) }
{
    match &f.node {
        ExprNode::Member(_, x) => Ok(Kind::CallMember(x.clone()?)),
        ExprNode::Index(_, _) => Ok(Kind::CallIndex),
        _ => Ok(Kind::Call),
    }
}

/// The kind of a unary operator at this.
pub fn unary_kind(op: UnaryOp, e: &Expr) -> Result<Kind, OutOfMemory>
    ensures { IfOk result (λ kind. kind ≡ spec.unary_kind op e.now) }
{
    match op {
        UnaryOp::Delete => delete_kind(e),
        UnaryOp::Typeof => typeof_kind(e),
        _ => Ok(Kind::Unary(op)),
    }
}

fn delete_kind(e: &Expr) -> Result<Kind, OutOfMemory>
    ensures { IfOk result (λ kind. kind ≡ spec.unary_kind UnaryOp.Delete e.now) }
{
    match &e.node {
        ExprNode::Member(_, x) => Ok(Kind::DeleteMember(x.clone()?)),
        ExprNode::Index(_, _) => Ok(Kind::DeleteIndex),
        _ => Ok(Kind::Unary(UnaryOp::Delete)),
    }
}

fn typeof_kind(e: &Expr) -> Result<Kind, OutOfMemory>
    ensures { IfOk result (λ kind. kind ≡ spec.unary_kind UnaryOp.Typeof e.now) }
{
    match &e.node {
        ExprNode::Name(x) => Ok(Kind::TypeofName(x.clone()?)),
        _ => Ok(Kind::Unary(UnaryOp::Typeof)),
    }
}

/// The kind of `++` or `--` at this target.
pub fn update_kind(up: bool, prefix: bool, target: &Expr) -> Result<Kind, OutOfMemory>
    ensures { IfOk result (λ kind. kind ≡ spec.update_kind up prefix target.now) }
{
    match &target.node {
        ExprNode::Name(x) => Ok(Kind::UpdateName(up, prefix, x.clone()?)),
        ExprNode::Member(_, x) => Ok(Kind::UpdateMember(up, prefix, x.clone()?)),
        ExprNode::Index(_, _) => Ok(Kind::UpdateIndex(up, prefix)),
        _ => Ok(Kind::Nothing),
    }
}

/// The kind of an assignment to this target.
pub fn assign_kind(op: Option<BinaryOp>, target: &Expr) -> Result<Kind, OutOfMemory>
    ensures { IfOk result (λ kind. kind ≡ spec.assign_kind op target.now) }
{
    match &target.node {
        ExprNode::Name(x) => Ok(Kind::AssignName(op, x.clone()?)),
        ExprNode::Member(_, x) => Ok(Kind::AssignMember(op, x.clone()?)),
        ExprNode::Index(_, _) => Ok(Kind::AssignIndex(op)),
        _ => Ok(Kind::Nothing),
    }
}

/// The kind of an object literal, which has its names.
pub fn literal_kind(alloc: Global, fs: &[(Units, Expr)]) -> Result<Kind, OutOfMemory>
    ensures { IfOk result (λ kind. kind ≡ Kind.Literal (spec.field_names (fields_of fs.now))) }
{
    let mut names = Vec::new(alloc);
    let mut rest = fs;
    while let [(x, _), after @ ..] = rest {
        names.push(x.clone()?)?;
        rest = after;
    }
    Ok(Kind::Literal(Names::of(names)))
}

/// The kind of an expression, but that a function has no table yet.
pub fn expr_kind(alloc: Global, e: &Expr) -> Result<NodeKind, OutOfMemory>
    ensures { IfOk result (λ kind. known kind ≡ spec.expr_kind e.now) }
{
    let kind = match &e.node {
        ExprNode::Func(code) => return Ok(NodeKind::Function(code.clone()?)),
        ExprNode::Name(x) => Kind::Name(x.clone()?),
        ExprNode::Num(n) => Kind::Num(*n),
        ExprNode::Text(t) => Kind::Text(t.clone()?),
        ExprNode::Bool(b) => Kind::Bool(*b),
        ExprNode::Null => Kind::Null,
        ExprNode::This => Kind::This,
        ExprNode::List(_) => Kind::List,
        ExprNode::Literal(fs) => literal_kind(alloc, fs.as_slice())?,
        ExprNode::Member(_, x) => Kind::Member(x.clone()?),
        ExprNode::Index(_, _) => Kind::Index,
        ExprNode::Call(f, _) => call_kind(f)?,
        ExprNode::New(_, _) => Kind::New,
        ExprNode::Unary(op, a) => unary_kind(*op, a)?,
        ExprNode::Update { up, prefix, target } => update_kind(*up, *prefix, target)?,
        ExprNode::Binary(op, _, _) => Kind::Binary(*op),
        ExprNode::And(_, _) => Kind::And,
        ExprNode::Or(_, _) => Kind::Or,
        ExprNode::Cond(_, _, _) => Kind::Cond,
        ExprNode::Assign(op, target, _) => assign_kind(*op, target)?,
        ExprNode::Comma(_) => Kind::Comma,
    };
    Ok(NodeKind::Known(kind))
}

/// The kind of a statement.
pub fn stmt_kind(s: &Stmt) -> Result<Kind, OutOfMemory>
    ensures { IfOk result (λ kind. kind ≡ spec.stmt_kind s.now) }
{
    match &s.node {
        StmtNode::Var(_) => Ok(Kind::Var),
        StmtNode::Function(_) => Ok(Kind::Empty),
        StmtNode::Expr(_) => Ok(Kind::Discard),
        StmtNode::Empty => Ok(Kind::Empty),
        StmtNode::Block(_) => Ok(Kind::Block),
        StmtNode::If(_) => Ok(Kind::If),
        StmtNode::Do(_, _) => Ok(Kind::Do),
        StmtNode::While(_, _) => Ok(Kind::While),
        StmtNode::For(_) => Ok(Kind::For),
        StmtNode::ForIn {
            declared: _,
            target: _,
            object: _,
            body: _,
        } => Ok(Kind::ForIn),
        StmtNode::Continue => Ok(Kind::Continue),
        StmtNode::Break => Ok(Kind::Break),
        StmtNode::Return(_) => Ok(Kind::Return),
        StmtNode::Throw(_) => Ok(Kind::Throw),
        StmtNode::Try(parts) => try_kind(&parts.catch),
        StmtNode::Switch(_, _) => Ok(Kind::Switch),
    }
}

fn try_kind(catch: &Option<Catch>) -> Result<Kind, OutOfMemory>
    ensures { IfOk result (λ kind. kind ≡ Kind.Try (spec.catch_name (catch_of catch.now))) }
{
    match catch {
        None => Ok(Kind::Try(None)),
        Some(catch) => Ok(Kind::Try(Some(catch.name.clone()?))),
    }
}
