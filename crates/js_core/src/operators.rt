//! The operators of expressions.

/// The unary operators (ECMA-262 5.1 section 11.4) but `++` and `--`.
#[derive(Clone, Copy, PartialEq, Eq)]
pub enum UnaryOp {
    Delete,
    Void,
    Typeof,
    Plus,
    Minus,
    BitNot,
    Not,
}

/// The binary operators (ECMA-262 5.1 sections 11.5 to 11.10) but `&&` and `||`.
#[derive(Clone, Copy, PartialEq, Eq)]
pub enum BinaryOp {
    Mul,
    Div,
    Rem,
    Add,
    Sub,
    Shl,
    Shr,
    Ushr,
    Less,
    Greater,
    LessEq,
    GreaterEq,
    InstanceOf,
    /// `in`.
    Within,
    /// `==`.
    Equal,
    /// `!=`.
    Unequal,
    /// `===`.
    Same,
    /// `!==`.
    NotSame,
    BitAnd,
    BitXor,
    BitOr,
}
