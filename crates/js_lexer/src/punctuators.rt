//! Punctuators.

ghost use Rattle.std.specs.Prelude.{◌≡◌, ℕ, List, MatchOption};
ghost use Rattle.std.specs.List.{find};
ghost use Rattle.js_core.specs.Spelling.{punct_text};
ghost use Rattle.js_core.specs.declared.token.Punct.{Punct as Punctuator};
ghost use Rattle.js_lexer.specs.Punctuators as spec;
ghost use Rattle.js_lexer.specs.Punctuators.{StandsAt};
ghost use Rattle.js_lexer.specs.Reading.{is_front, punctuators};

use js_core::Punct;

/// All punctuators (ECMA-262 5.1 section 7.7), the longest first.
const PUNCTUATORS: [Punct; 48] = [
    Punct::ShiftRightUnsignedAssign,
    Punct::StrictEquals,
    Punct::StrictNotEquals,
    Punct::ShiftRightUnsigned,
    Punct::ShiftLeftAssign,
    Punct::ShiftRightAssign,
    Punct::LessThanOrEqual,
    Punct::GreaterThanOrEqual,
    Punct::Equals,
    Punct::NotEquals,
    Punct::PlusPlus,
    Punct::MinusMinus,
    Punct::ShiftLeft,
    Punct::ShiftRight,
    Punct::DoubleAmpersand,
    Punct::DoubleVerticalBar,
    Punct::PlusAssign,
    Punct::MinusAssign,
    Punct::StarAssign,
    Punct::PercentAssign,
    Punct::AmpersandAssign,
    Punct::VerticalBarAssign,
    Punct::CaretAssign,
    Punct::SlashAssign,
    Punct::LeftBrace,
    Punct::RightBrace,
    Punct::LeftParenthesis,
    Punct::RightParenthesis,
    Punct::LeftBracket,
    Punct::RightBracket,
    Punct::Dot,
    Punct::Semicolon,
    Punct::Comma,
    Punct::LessThan,
    Punct::GreaterThan,
    Punct::PlusSign,
    Punct::MinusSign,
    Punct::Star,
    Punct::Percent,
    Punct::Ampersand,
    Punct::VerticalBar,
    Punct::Caret,
    Punct::ExclamationMark,
    Punct::Tilde,
    Punct::QuestionMark,
    Punct::Colon,
    Punct::SimpleAssign,
    Punct::Slash,
];

/// Whether the text begins with these codes.
fn begins_with(text: &[u16], codes: &[u8]) -> bool
    ensures { result ≡ is_front codes.now text.now }
{
    let mut text = text;
    let mut codes = codes;
    while let [code, more @ ..] = codes {
        let [unit, behind @ ..] = text else {
            return false;
        };
        if *unit != u16::from(*code) {
            return false;
        }
        text = behind;
        codes = more;
    }
    true
}

/// The first punctuator of the table with which the text begins.
fn first_punctuator(text: &[u16]) -> Option<Punct>
    ensures { result ≡ find (λ punct. is_front (punct_text punct) text.now) punctuators }
{
    PUNCTUATORS
        .iter()
        .copied()
        .find(|punct| begins_with(text, punct.text()))
}

/// The longest punctuator with which the text begins, and what stands behind it. There is none where the text opens a
/// comment.
pub fn punctuator(text: &[u16]) -> Option<(Punct, &[u16])>
    ensures { MatchOption result ((rest : List ℕ) (punct : Punctuator)
        → StandsAt text.now rest punct → ⊥) (λ split. StandsAt text.now split.1.now split.0) }
{
    if opens_comment(text) {
        return None;
    }
    let punct = first_punctuator(text)?;
    let (_, behind) = text.split_at(punct.text().len());
    Some((punct, behind))
}

fn opens_comment(text: &[u16]) -> bool
    ensures { result ≡ spec.opens_comment text.now }
{
    begins_with(text, b"//") || begins_with(text, b"/*")
}
