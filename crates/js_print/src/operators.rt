//! The lexemes of operators (ECMA-262 5.1 sections 11.3 to 11.14).

ghost use Rattle.std.specs.Prelude.{◌≡◌};
ghost use Rattle.js_print.specs.Operators as spec;

use crate::lexeme::Lexeme;
use js_core::{BinaryOp, Keyword, Punct, UnaryOp};

/// The lexeme of a unary operator.
pub fn unary_lexeme(op: UnaryOp) -> Lexeme
    ensures { result ≡ spec.unary_lexeme op }
{
    match op {
        UnaryOp::Delete => Lexeme::Keyword(Keyword::Delete),
        UnaryOp::Void => Lexeme::Keyword(Keyword::Void),
        UnaryOp::Typeof => Lexeme::Keyword(Keyword::Typeof),
        UnaryOp::Plus => Lexeme::Punct(Punct::PlusSign),
        UnaryOp::Minus => Lexeme::Punct(Punct::MinusSign),
        UnaryOp::BitNot => Lexeme::Punct(Punct::Tilde),
        UnaryOp::Not => Lexeme::Punct(Punct::ExclamationMark),
    }
}

/// `++` where `up`, else `--`.
pub fn update_punct(up: bool) -> Punct
    ensures { result ≡ spec.update_punct up }
{
    if up {
        Punct::PlusPlus
    } else {
        Punct::MinusMinus
    }
}

/// The lexeme of a binary operator.
pub fn binary_lexeme(op: BinaryOp) -> Lexeme
    ensures { result ≡ spec.binary_lexeme op }
{
    match op {
        BinaryOp::Mul => Lexeme::Punct(Punct::Star),
        BinaryOp::Div => Lexeme::Punct(Punct::Slash),
        BinaryOp::Rem => Lexeme::Punct(Punct::Percent),
        BinaryOp::Add => Lexeme::Punct(Punct::PlusSign),
        BinaryOp::Sub => Lexeme::Punct(Punct::MinusSign),
        BinaryOp::Shl => Lexeme::Punct(Punct::ShiftLeft),
        BinaryOp::Shr => Lexeme::Punct(Punct::ShiftRight),
        BinaryOp::Ushr => Lexeme::Punct(Punct::ShiftRightUnsigned),
        BinaryOp::Less => Lexeme::Punct(Punct::LessThan),
        BinaryOp::Greater => Lexeme::Punct(Punct::GreaterThan),
        BinaryOp::LessEq => Lexeme::Punct(Punct::LessThanOrEqual),
        BinaryOp::GreaterEq => Lexeme::Punct(Punct::GreaterThanOrEqual),
        BinaryOp::InstanceOf => Lexeme::Keyword(Keyword::InstanceOf),
        BinaryOp::Within => Lexeme::Keyword(Keyword::In),
        BinaryOp::Equal => Lexeme::Punct(Punct::Equals),
        BinaryOp::Unequal => Lexeme::Punct(Punct::NotEquals),
        BinaryOp::Same => Lexeme::Punct(Punct::StrictEquals),
        BinaryOp::NotSame => Lexeme::Punct(Punct::StrictNotEquals),
        BinaryOp::BitAnd => Lexeme::Punct(Punct::Ampersand),
        BinaryOp::BitXor => Lexeme::Punct(Punct::Caret),
        BinaryOp::BitOr => Lexeme::Punct(Punct::VerticalBar),
    }
}

/// The punctuator of an assignment. An operator that has none gives `=`.
pub fn assign_punct(op: &Option<BinaryOp>) -> Punct
    ensures { result ≡ spec.assign_punct op.now }
{
    match op {
        None => Punct::SimpleAssign,
        Some(op) => compound_punct(*op),
    }
}

fn compound_punct(op: BinaryOp) -> Punct
    ensures { result ≡ spec.compound_punct op }
{
    match op {
        BinaryOp::Mul => Punct::StarAssign,
        BinaryOp::Div => Punct::SlashAssign,
        BinaryOp::Rem => Punct::PercentAssign,
        BinaryOp::Add => Punct::PlusAssign,
        BinaryOp::Sub => Punct::MinusAssign,
        BinaryOp::Shl => Punct::ShiftLeftAssign,
        BinaryOp::Shr => Punct::ShiftRightAssign,
        BinaryOp::Ushr => Punct::ShiftRightUnsignedAssign,
        BinaryOp::BitAnd => Punct::AmpersandAssign,
        BinaryOp::BitXor => Punct::CaretAssign,
        BinaryOp::BitOr => Punct::VerticalBarAssign,
        _ => Punct::SimpleAssign,
    }
}
