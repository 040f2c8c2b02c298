//! Tokens.

ghost use Rattle.std.specs.Prelude.{◌≡◌};
ghost use Rattle.js_core.specs.Spelling as spec;

use crate::units::Units;
use crate::whole::Whole;

/// A token of a script (ECMA-262 5.1 section 7.5) and where it stands.
#[derive(PartialEq, Eq, Drop)]
pub struct Token {
    /// What it is.
    pub what: TokenKind,
    /// The place of its first unit in the script's text.
    pub start: u64,
    /// The place after its last unit in the script's text.
    pub end: u64,
    /// Whether a line end stands between it and the token before it.
    pub after_line: bool,
}

/// What a token is.
#[derive(PartialEq, Eq, Drop)]
pub enum TokenKind {
    /// An identifier or a reserved word (section 7.6).
    Word(Units),
    /// A numeric literal's value (section 7.8.3).
    Number(Whole),
    /// A string literal's value (section 7.8.4).
    Text(Units),
    /// A punctuator (section 7.7).
    Punct(Punct),
}

/// A punctuator (section 7.7), each documented by its spelling.
#[derive(Clone, Copy, PartialEq, Eq)]
pub enum Punct {
    /// `{`
    LeftBrace,
    /// `}`
    RightBrace,
    /// `(`
    LeftParenthesis,
    /// `)`
    RightParenthesis,
    /// `[`
    LeftBracket,
    /// `]`
    RightBracket,
    /// `.`
    Dot,
    /// `;`
    Semicolon,
    /// `,`
    Comma,
    /// `<`
    LessThan,
    /// `>`
    GreaterThan,
    /// `<=`
    LessThanOrEqual,
    /// `>=`
    GreaterThanOrEqual,
    /// `==`
    Equals,
    /// `!=`
    NotEquals,
    /// `===`
    StrictEquals,
    /// `!==`
    StrictNotEquals,
    /// `+`
    PlusSign,
    /// `-`
    MinusSign,
    /// `*`
    Star,
    /// `%`
    Percent,
    /// `++`
    PlusPlus,
    /// `--`
    MinusMinus,
    /// `<<`
    ShiftLeft,
    /// `>>`
    ShiftRight,
    /// `>>>`
    ShiftRightUnsigned,
    /// `&`
    Ampersand,
    /// `|`
    VerticalBar,
    /// `^`
    Caret,
    /// `!`
    ExclamationMark,
    /// `~`
    Tilde,
    /// `&&`
    DoubleAmpersand,
    /// `||`
    DoubleVerticalBar,
    /// `?`
    QuestionMark,
    /// `:`
    Colon,
    /// `=`
    SimpleAssign,
    /// `+=`
    PlusAssign,
    /// `-=`
    MinusAssign,
    /// `*=`
    StarAssign,
    /// `%=`
    PercentAssign,
    /// `<<=`
    ShiftLeftAssign,
    /// `>>=`
    ShiftRightAssign,
    /// `>>>=`
    ShiftRightUnsignedAssign,
    /// `&=`
    AmpersandAssign,
    /// `|=`
    VerticalBarAssign,
    /// `^=`
    CaretAssign,
    /// `/`
    Slash,
    /// `/=`
    SlashAssign,
}

impl Punct {
    /// How the punctuator is written.
    pub fn text(self) -> &'static [u8]
        ensures { result.now ≡ spec.punct_text self }
    {
        match self {
            Punct::LeftBrace => b"{",
            Punct::RightBrace => b"}",
            Punct::LeftParenthesis => b"(",
            Punct::RightParenthesis => b")",
            Punct::LeftBracket => b"[",
            Punct::RightBracket => b"]",
            Punct::Dot => b".",
            Punct::Semicolon => b";",
            Punct::Comma => b",",
            Punct::LessThan => b"<",
            Punct::GreaterThan => b">",
            Punct::LessThanOrEqual => b"<=",
            Punct::GreaterThanOrEqual => b">=",
            Punct::Equals => b"==",
            Punct::NotEquals => b"!=",
            Punct::StrictEquals => b"===",
            Punct::StrictNotEquals => b"!==",
            Punct::PlusSign => b"+",
            Punct::MinusSign => b"-",
            Punct::Star => b"*",
            Punct::Percent => b"%",
            Punct::PlusPlus => b"++",
            Punct::MinusMinus => b"--",
            Punct::ShiftLeft => b"<<",
            Punct::ShiftRight => b">>",
            Punct::ShiftRightUnsigned => b">>>",
            Punct::Ampersand => b"&",
            Punct::VerticalBar => b"|",
            Punct::Caret => b"^",
            Punct::ExclamationMark => b"!",
            Punct::Tilde => b"~",
            Punct::DoubleAmpersand => b"&&",
            Punct::DoubleVerticalBar => b"||",
            Punct::QuestionMark => b"?",
            Punct::Colon => b":",
            Punct::SimpleAssign => b"=",
            Punct::PlusAssign => b"+=",
            Punct::MinusAssign => b"-=",
            Punct::StarAssign => b"*=",
            Punct::PercentAssign => b"%=",
            Punct::ShiftLeftAssign => b"<<=",
            Punct::ShiftRightAssign => b">>=",
            Punct::ShiftRightUnsignedAssign => b">>>=",
            Punct::AmpersandAssign => b"&=",
            Punct::VerticalBarAssign => b"|=",
            Punct::CaretAssign => b"^=",
            Punct::Slash => b"/",
            Punct::SlashAssign => b"/=",
        }
    }
}
