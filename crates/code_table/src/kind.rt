//! Kinds of nodes.

ghost use Rattle.std.specs.Prelude.{◌≡◌};

use crate::code::FunctionCode;
use js_core::{BinaryOp, UnaryOp, Units, Whole};
use std::marker::Model;

/// A node without its parts. A property's name, where the code has it, is part of the kind.
#[cycle(code)]
#[derive(Drop)]
pub enum Kind {
    /// There is no node, or one that no accepted script has.
    Nothing,
    Name(Units),
    Num(Whole),
    Text(Units),
    Bool(bool),
    Null,
    This,
    List,
    /// With its names.
    Literal(Names),
    Func(FunctionCode),
    Member(Units),
    Index,
    CallMember(Units),
    CallIndex,
    /// A call of anything but a property.
    Call,
    New,
    DeleteMember(Units),
    DeleteIndex,
    TypeofName(Units),
    /// Any other use of a unary operator.
    Unary(UnaryOp),
    /// Whether it is `++`, whether it stands before its target, and the target.
    UpdateName(bool, bool, Units),
    UpdateMember(bool, bool, Units),
    UpdateIndex(bool, bool),
    Binary(BinaryOp),
    And,
    Or,
    Cond,
    AssignName(Option<BinaryOp>, Units),
    AssignMember(Option<BinaryOp>, Units),
    AssignIndex(Option<BinaryOp>),
    Comma,
    Var,
    /// A name that a `var` declares, with its initialiser.
    Declarator(Units),
    /// An empty statement or a function declaration.
    Empty,
    /// An expression statement.
    Discard,
    Block,
    If,
    Do,
    While,
    For,
    ForIn,
    Continue,
    Break,
    Return,
    Throw,
    /// With the name that its catch clause binds, if it has one.
    Try(Option<Units>),
    Switch,
}

/// A list of names, which contracts see as the list.
#[derive(Drop)]
pub struct Names {
    names: Vec<Units>,
}

impl Model for Names {
    ghost use Rattle.std.specs.Prelude.{List, ℕ};

    ghost Value = { List (List ℕ) };

    ghost view = { λ n. n.names.items };
}

impl Names {
    /// These names.
    pub fn of(names: Vec<Units>) -> Names
        ensures { result ≡ names.items }
    {
        Names { names }
    }

    /// The names, without memory.
    pub fn as_slice(&self) -> &[Units]
        ensures { result.now ≡ self.now }
    {
        self.names.as_slice()
    }
}
