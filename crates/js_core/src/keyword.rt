//! Reserved words.

ghost use Rattle.std.specs.Prelude.{◌≡◌};
ghost use Rattle.js_core.specs.Spelling as spec;

use crate::units::Units;

/// A reserved word (ECMA-262 5.1 section 7.6.1) that stands in a form of the language.
#[derive(Clone, Copy, PartialEq, Eq)]
pub enum Keyword {
    Break,
    Case,
    Catch,
    Continue,
    Default,
    Delete,
    Do,
    Else,
    False,
    Finally,
    For,
    Function,
    If,
    In,
    InstanceOf,
    New,
    Null,
    Return,
    Switch,
    This,
    Throw,
    True,
    Try,
    Typeof,
    Var,
    Void,
    While,
}

/// All keywords.
const KEYWORDS: [Keyword; 27] = [
    Keyword::Break,
    Keyword::Case,
    Keyword::Catch,
    Keyword::Continue,
    Keyword::Default,
    Keyword::Delete,
    Keyword::Do,
    Keyword::Else,
    Keyword::False,
    Keyword::Finally,
    Keyword::For,
    Keyword::Function,
    Keyword::If,
    Keyword::In,
    Keyword::InstanceOf,
    Keyword::New,
    Keyword::Null,
    Keyword::Return,
    Keyword::Switch,
    Keyword::This,
    Keyword::Throw,
    Keyword::True,
    Keyword::Try,
    Keyword::Typeof,
    Keyword::Var,
    Keyword::Void,
    Keyword::While,
];

/// The other reserved words of section 7.6.1, those of strict code too.
const UNUSED_WORDS: [&[u8]; 18] = [
    b"debugger",
    b"with",
    b"class",
    b"const",
    b"enum",
    b"export",
    b"extends",
    b"import",
    b"super",
    b"implements",
    b"interface",
    b"let",
    b"package",
    b"private",
    b"protected",
    b"public",
    b"static",
    b"yield",
];

impl Keyword {
    /// How the keyword is written.
    pub fn text(self) -> &'static [u8]
        ensures { result.now ≡ spec.keyword_text self }
    {
        match self {
            Keyword::Break => b"break",
            Keyword::Case => b"case",
            Keyword::Catch => b"catch",
            Keyword::Continue => b"continue",
            Keyword::Default => b"default",
            Keyword::Delete => b"delete",
            Keyword::Do => b"do",
            Keyword::Else => b"else",
            Keyword::False => b"false",
            Keyword::Finally => b"finally",
            Keyword::For => b"for",
            Keyword::Function => b"function",
            Keyword::If => b"if",
            Keyword::In => b"in",
            Keyword::InstanceOf => b"instanceof",
            Keyword::New => b"new",
            Keyword::Null => b"null",
            Keyword::Return => b"return",
            Keyword::Switch => b"switch",
            Keyword::This => b"this",
            Keyword::Throw => b"throw",
            Keyword::True => b"true",
            Keyword::Try => b"try",
            Keyword::Typeof => b"typeof",
            Keyword::Var => b"var",
            Keyword::Void => b"void",
            Keyword::While => b"while",
        }
    }
}

/// The keyword that the word is, if it is one.
pub fn keyword_of(word: &Units) -> Option<Keyword>
    ensures { result ≡ spec.keyword_of word.now }
{
    KEYWORDS
        .iter()
        .copied()
        .find(|keyword| word.spells(keyword.text()))
}

/// Whether the word is reserved without standing in any form of the language, so that no script has it.
pub fn is_unused_word(word: &Units) -> bool
    ensures { result ≡ spec.is_unused_word word.now }
{
    word.is_among(&UNUSED_WORDS)
}
