//! Operators, and how tightly phrases bind.

use js_core::{BinaryOp, UnaryOp};

/// The phrases that stand inside other expressions.
#[derive(Clone, Copy, PartialEq, Eq)]
pub enum Level {
    /// Expression (ECMA-262 5.1 section 11.14).
    Sequence,
    /// AssignmentExpression (section 11.13).
    Assignment,
    /// The binary operators from 1, LogicalORExpression, to 10, MultiplicativeExpression (sections 11.5 to 11.11); 11 is
    /// UnaryExpression (section 11.4).
    Binary(u32),
    /// NewExpression (section 11.2).
    Construction,
    /// MemberExpression (section 11.2).
    Member,
}

/// An operator between two operands, but assignments and commas.
#[derive(Clone, Copy, PartialEq, Eq)]
pub enum Infix {
    /// `||`
    Either,
    /// `&&`
    Both,
    /// Another one.
    Operation(BinaryOp),
}

/// An operator before its operand.
#[derive(Clone, Copy, PartialEq, Eq)]
pub enum Prefix {
    /// One that leaves its operand as it is.
    Operator(UnaryOp),
    /// `++` where `true`, else `--`.
    Step(bool),
}
