//! Which signs are which operators, and how tightly they bind (ECMA-262 5.1 sections 11.3 to 11.13).

ghost use Rattle.std.specs.Prelude.{◌≡◌, ◌≤◌, Bool, Some};
ghost use Rattle.js_grammar.specs.Operators as spec;
ghost use Rattle.js_grammar.specs.declared.sign.Sign.TheVariants.{Mark, Word};

use js_core::{BinaryOp, Keyword, Punct, UnaryOp};
use js_grammar::{Infix, Prefix, Sign};

/// The operator between two operands that the sign is; `in` is one only where it may stand.
pub fn infix_of(inn: bool, sign: Option<Sign>) -> Option<Infix>
    ensures { result ≡ spec.infix_of inn sign }
{
    match sign {
        Some(Sign::Mark(mark)) => infix_of_mark(mark),
        Some(Sign::Word(word)) => infix_of_word(inn, word),
        None => None,
    }
}

fn infix_of_mark(mark: Punct) -> Option<Infix>
    ensures { (inn : Bool) → result ≡ spec.infix_of inn (Some (Mark mark)) }
{
    let op = match mark {
        Punct::DoubleVerticalBar => return Some(Infix::Either),
        Punct::DoubleAmpersand => return Some(Infix::Both),
        Punct::VerticalBar => BinaryOp::BitOr,
        Punct::Caret => BinaryOp::BitXor,
        Punct::Ampersand => BinaryOp::BitAnd,
        Punct::Equals => BinaryOp::Equal,
        Punct::NotEquals => BinaryOp::Unequal,
        Punct::StrictEquals => BinaryOp::Same,
        Punct::StrictNotEquals => BinaryOp::NotSame,
        Punct::LessThan => BinaryOp::Less,
        Punct::GreaterThan => BinaryOp::Greater,
        Punct::LessThanOrEqual => BinaryOp::LessEq,
        Punct::GreaterThanOrEqual => BinaryOp::GreaterEq,
        Punct::ShiftLeft => BinaryOp::Shl,
        Punct::ShiftRight => BinaryOp::Shr,
        Punct::ShiftRightUnsigned => BinaryOp::Ushr,
        Punct::PlusSign => BinaryOp::Add,
        Punct::MinusSign => BinaryOp::Sub,
        Punct::Star => BinaryOp::Mul,
        Punct::Slash => BinaryOp::Div,
        Punct::Percent => BinaryOp::Rem,
        _ => return None,
    };
    Some(Infix::Operation(op))
}

fn infix_of_word(inn: bool, word: Keyword) -> Option<Infix>
    ensures { result ≡ spec.infix_of inn (Some (Word word)) }
{
    match word {
        Keyword::InstanceOf => Some(Infix::Operation(BinaryOp::InstanceOf)),
        Keyword::In => {
            if inn {
                Some(Infix::Operation(BinaryOp::Within))
            } else {
                None
            }
        }
        _ => None,
    }
}

/// How tightly the operator binds: from 1 for `||` to 10 for `*`.
pub fn level_of(operator: Infix) -> u32
    ensures exact { result ≡ spec.level_of operator }
    ensures small { result ≤ 10 }
{
    match operator {
        Infix::Either => 1,
        Infix::Both => 2,
        Infix::Operation(op) => operation_level(op),
    }
}

fn operation_level(op: BinaryOp) -> u32
    ensures exact { result ≡ spec.operation_level op }
    ensures small { result ≤ 10 }
{
    match op {
        BinaryOp::BitOr => 3,
        BinaryOp::BitXor => 4,
        BinaryOp::BitAnd => 5,
        BinaryOp::Equal | BinaryOp::Unequal | BinaryOp::Same | BinaryOp::NotSame => 6,
        BinaryOp::Less
        | BinaryOp::Greater
        | BinaryOp::LessEq
        | BinaryOp::GreaterEq
        | BinaryOp::InstanceOf
        | BinaryOp::Within => 7,
        BinaryOp::Shl | BinaryOp::Shr | BinaryOp::Ushr => 8,
        BinaryOp::Add | BinaryOp::Sub => 9,
        BinaryOp::Mul | BinaryOp::Div | BinaryOp::Rem => 10,
    }
}

/// Whether the sign is an operator of this level or a tighter one.
pub fn climbs(inn: bool, least: u32, sign: Option<Sign>) -> bool
    ensures { result ≡ spec.climbs inn least sign }
{
    match infix_of(inn, sign) {
        Some(operator) => least <= level_of(operator),
        None => false,
    }
}

/// The operator before its operand that the sign is.
pub fn prefix_of(sign: Option<Sign>) -> Option<Prefix>
    ensures { result ≡ spec.prefix_of sign }
{
    match sign {
        Some(Sign::Mark(mark)) => prefix_of_mark(mark),
        Some(Sign::Word(word)) => prefix_of_word(word),
        None => None,
    }
}

fn prefix_of_mark(mark: Punct) -> Option<Prefix>
    ensures { result ≡ spec.prefix_of (Some (Mark mark)) }
{
    match mark {
        Punct::PlusSign => Some(Prefix::Operator(UnaryOp::Plus)),
        Punct::MinusSign => Some(Prefix::Operator(UnaryOp::Minus)),
        Punct::Tilde => Some(Prefix::Operator(UnaryOp::BitNot)),
        Punct::ExclamationMark => Some(Prefix::Operator(UnaryOp::Not)),
        Punct::PlusPlus => Some(Prefix::Step(true)),
        Punct::MinusMinus => Some(Prefix::Step(false)),
        _ => None,
    }
}

fn prefix_of_word(word: Keyword) -> Option<Prefix>
    ensures { result ≡ spec.prefix_of (Some (Word word)) }
{
    match word {
        Keyword::Delete => Some(Prefix::Operator(UnaryOp::Delete)),
        Keyword::Void => Some(Prefix::Operator(UnaryOp::Void)),
        Keyword::Typeof => Some(Prefix::Operator(UnaryOp::Typeof)),
        _ => None,
    }
}

/// The assignment that the sign is: `None` is `=`, an operator its compound assignment.
pub fn assignment_of(sign: Option<Sign>) -> Option<Option<BinaryOp>>
    ensures { result ≡ spec.assignment_of sign }
{
    match sign {
        Some(Sign::Mark(mark)) => assignment_of_mark(mark),
        _ => None,
    }
}

fn assignment_of_mark(mark: Punct) -> Option<Option<BinaryOp>>
    ensures { result ≡ spec.assignment_of (Some (Mark mark)) }
{
    let op = match mark {
        Punct::SimpleAssign => return Some(None),
        Punct::PlusAssign => BinaryOp::Add,
        Punct::MinusAssign => BinaryOp::Sub,
        Punct::StarAssign => BinaryOp::Mul,
        Punct::SlashAssign => BinaryOp::Div,
        Punct::PercentAssign => BinaryOp::Rem,
        Punct::ShiftLeftAssign => BinaryOp::Shl,
        Punct::ShiftRightAssign => BinaryOp::Shr,
        Punct::ShiftRightUnsignedAssign => BinaryOp::Ushr,
        Punct::AmpersandAssign => BinaryOp::BitAnd,
        Punct::VerticalBarAssign => BinaryOp::BitOr,
        Punct::CaretAssign => BinaryOp::BitXor,
        _ => return None,
    };
    Some(Some(op))
}

/// Whether the sign goes on with a left-hand side: a point, an opening bracket, and, where calls may stand, an opening
/// parenthesis.
pub fn is_suffix(calls: bool, sign: Option<Sign>) -> bool
    ensures { result ≡ spec.is_suffix calls sign }
{
    match sign {
        Some(Sign::Mark(Punct::Dot | Punct::LeftBracket)) => true,
        Some(Sign::Mark(Punct::LeftParenthesis)) => calls,
        _ => false,
    }
}
