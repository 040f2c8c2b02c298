//! Directive prologues.

ghost use Rattle.std.specs.Prelude.{◌≡◌, ◌↔◌, ◌<◌, ◌≤◌, length, IsTrue, MatchOption, IfSome, None, Some};
ghost use Rattle.js_lexer.specs.Directives as spec;
ghost use Rattle.js_lexer.specs.Directives.{IsStrict};

use js_core::{Keyword, Punct, Token, TokenKind, keyword_of};

/// How many units the strict directive has, with its quotes.
const STRICT_LEN: u64 = 12;

/// Whether the tokens of a script or of a function's body make it strict: its directive prologue (ECMA-262 5.1 section
/// 14.1) has a string with the value `use strict` and a span of 12 units, so without an escape. Needs no memory.
pub fn strict(tokens: &[Token]) -> bool
    ensures { IsTrue result ↔ IsStrict tokens.now }
{
    let mut rest = tokens;
    while let Some((token, behind)) = rest.split_first() {
        if !is_text(token) {
            return false;
        }
        let Some(next) = behind_statement(behind) else {
            return false;
        };
        if is_use_strict(token) {
            return true;
        }
        rest = next;
    }
    false
}

/// What stands behind the semicolon of an expression statement, which may be left out (section 7.9).
#[tactic(auto, unfolding(crate::specs::Directives::behind_statement))]
fn behind_statement(tokens: &[Token]) -> Option<&[Token]>
    ensures read { MatchOption result (spec.behind_statement tokens.now ≡ None)
        (λ behind. spec.behind_statement tokens.now ≡ Some behind.now) }
    ensures within { IfSome result (λ behind. length behind.now ≤ length tokens.now) }
{
    let Some((token, behind)) = tokens.split_first() else {
        return Some(tokens);
    };
    if is_semicolon(token) {
        return Some(behind);
    }
    if is_right_brace(token) || token.after_line && !continues(token) {
        return Some(tokens);
    }
    None
}

fn is_semicolon(token: &Token) -> bool
    ensures { result ≡ spec.is_semicolon token.now.what }
{
    match &token.what {
        TokenKind::Punct(Punct::Semicolon) => true,
        _ => false,
    }
}

fn is_right_brace(token: &Token) -> bool
    ensures { result ≡ spec.is_right_brace token.now.what }
{
    match &token.what {
        TokenKind::Punct(Punct::RightBrace) => true,
        _ => false,
    }
}

/// Whether the token goes on with an expression that stands before it.
fn continues(token: &Token) -> bool
    ensures { result ≡ spec.continues token.now.what }
{
    match &token.what {
        TokenKind::Word(word) => word_continues(keyword_of(word)),
        TokenKind::Punct(punct) => punct_continues(*punct),
        TokenKind::Number(_) | TokenKind::Text(_) => false,
    }
}

/// Whether the word is an operator that takes an expression before it. It is given as the reserved word that it is, if any.
pub fn word_continues(word: Option<Keyword>) -> bool
    ensures { result ≡ spec.word_continues word }
{
    matches!(word, Some(Keyword::In | Keyword::InstanceOf))
}

/// Whether the punctuator is an operator that takes an expression before it, a comma, or `(`, `[` or `.`.
pub fn punct_continues(punct: Punct) -> bool
    ensures { result ≡ spec.punct_continues punct }
{
    !matches!(
        punct,
        Punct::LeftBrace
            | Punct::RightBrace
            | Punct::RightParenthesis
            | Punct::RightBracket
            | Punct::Semicolon
            | Punct::PlusPlus
            | Punct::MinusMinus
            | Punct::ExclamationMark
            | Punct::Tilde
            | Punct::Colon
    )
}

fn is_text(token: &Token) -> bool
    ensures { result ≡ spec.is_text token.now.what }
{
    matches!(&token.what, TokenKind::Text(_))
}

/// Whether the token is the strict directive's.
#[tactic(auto, unfolding(crate::specs::Directives::is_use_strict))]
fn is_use_strict(token: &Token) -> bool
    ensures { result ≡ spec.is_use_strict token.now }
{
    match &token.what {
        TokenKind::Text(text) if text.spells(b"use strict") => {
            token.start <= token.end && token.end - token.start == STRICT_LEN
        }
        _ => false,
    }
}
