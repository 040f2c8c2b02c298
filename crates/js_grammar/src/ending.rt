//! How statements end, and what goes on with them.

ghost use Rattle.std.specs.Prelude.{◌≡◌, true};
ghost use Rattle.js_core.specs.declared.token.Punct.TheVariants as p;
ghost use Rattle.js_grammar.specs.declared.sign.Sign.TheVariants.{Mark};
ghost use Rattle.js_grammar.specs.Endings as spec;
ghost use Rattle.js_grammar.specs.Operators as operators;
ghost use Rattle.js_grammar.specs.Symbols.{is_sign};

use crate::sign::Sign;
use js_core::Punct;
use js_lexer::{punct_continues, word_continues};

/// What the last part of a statement is, where a semicolon may be missing (ECMA-262 5.1 section 7.9).
#[derive(Clone, Copy, PartialEq, Eq)]
pub enum Ending {
    /// An expression, and whether it goes on with a `(`, `[` or point, which it does unless its last token is a postfix
    /// `++` or `--`.
    AfterExpression(bool),
    /// The name of a declarator without initialiser.
    AfterName,
    /// A part that nothing goes on with: `break`, `continue`, `return` without operand, the last `)` of a `do`.
    AfterAll,
}

impl Ending {
    /// Whether a semicolon may be missing before the sign, and whether a line end stands before that.
    pub fn ends_before(self, sign: Option<Sign>, after_line: bool) -> bool
        ensures { result ≡ spec.ends_before self sign after_line }
    {
        is_right_brace(sign) || after_line && !(is_semicolon(sign) || self.continues(sign))
    }

    // Whether the sign goes on with the statement.
    fn continues(self, sign: Option<Sign>) -> bool
        ensures { result ≡ spec.continues self sign }
    {
        match self {
            Ending::AfterExpression(grows) => goes_on(sign) && (grows || !is_suffix(sign)),
            Ending::AfterName => {
                matches!(sign, Some(Sign::Mark(Punct::SimpleAssign | Punct::Comma)))
            }
            Ending::AfterAll => false,
        }
    }
}

/// Whether the sign is a `}`, before which a semicolon may always be missing.
pub fn is_right_brace(sign: Option<Sign>) -> bool
    ensures { result ≡ spec.is_right_brace sign }
{
    matches!(sign, Some(Sign::Mark(Punct::RightBrace)))
}

fn is_semicolon(sign: Option<Sign>) -> bool
    ensures { result ≡ is_sign (Mark p.Semicolon) sign }
{
    matches!(sign, Some(Sign::Mark(Punct::Semicolon)))
}

// Whether the sign goes on with an expression, as its token does in a directive prologue.
fn goes_on(sign: Option<Sign>) -> bool
    ensures { result ≡ spec.goes_on sign }
{
    match sign {
        Some(Sign::Mark(mark)) => punct_continues(mark),
        Some(Sign::Word(word)) => word_continues(Some(word)),
        None => false,
    }
}

// Whether the sign is a point or an opening `(` or `[`.
fn is_suffix(sign: Option<Sign>) -> bool
    ensures { result ≡ operators.is_suffix true sign }
{
    matches!(
        sign,
        Some(Sign::Mark(Punct::Dot | Punct::LeftBracket | Punct::LeftParenthesis))
    )
}
