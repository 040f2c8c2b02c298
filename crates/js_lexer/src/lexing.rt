//! The tokens of a text.

ghost use Rattle.std.specs.Prelude.{◌≡◌, ◌==◌, ◌<◌, ◌≤◌, [], ℕ, List, true, false, length, IfOk, IfSome, MatchOption};
ghost use Rattle.std.specs.List.{prefix_len};
ghost use Rattle.js_core.specs.Memory.{IfCause};
ghost use Rattle.js_core.specs.declared.token.Token.{Token as PureToken};
ghost use Rattle.js_core.specs.declared.token.TokenKind.{TokenKind as PureKind};
ghost use Rattle.js_lexer.specs.Characters as characters;
ghost use Rattle.js_lexer.specs.Tokens.{TokenAt, Tokens};

use crate::characters::{is_decimal_digit, is_identifier_part, is_identifier_start, is_quote};
use crate::fault::{LexFault, NotTokens};
use crate::numbers::{literal_len, value_of};
use crate::punctuators::punctuator;
use crate::separators::behind_gap;
use crate::strings::string;
use crate::words::Words;
use js_core::{OutOfMemory, Token, TokenKind, Units};
use std::alloc::Global;

/// The tokens of a text, in order (ECMA-262 5.1 section 7): each the longest that stands there, with white space, line
/// ends and comments between them. A regular expression is no token: `/` is always an operator. `NotTokens` where the
/// text has no such reading. The time is linear in the text.
pub fn tokens(alloc: Global, text: &Units) -> Result<Vec<Token>, LexFault>
    ensures read { IfOk result (λ tokens. Tokens text.now tokens.items) }
    ensures refused { IfCause result (λ _. (tokens : List PureToken)
        → Tokens text.now tokens → ⊥) }
{
    tokens_of(alloc, text.as_slice())
}

#[tactic(auto, using(crate::proofs::AllTokens::tokens_refused))]
fn tokens_of(alloc: Global, text: &[u16]) -> Result<Vec<Token>, LexFault>
    ensures read { IfOk result (λ tokens. Tokens text.now tokens.items) }
    ensures refused { IfCause result (λ _. (tokens : List PureToken)
        → Tokens text.now tokens → ⊥) }
{
    let mut tokens = Vec::new(alloc);
    let mut words = Words::new(alloc)?;
    let mut rest = text;
    loop {
        let (after_line, start) = behind_gap(rest);
        if start.is_empty() {
            return Ok(tokens);
        }
        let (what, behind) = token(alloc, &mut words, start)?;
        tokens.push(Token {
            what,
            start: (text.len() - start.len()) as u64,
            end: (text.len() - behind.len()) as u64,
            after_line,
        })?;
        rest = behind;
    }
}

/// The longest token with which the text begins, and what stands behind it.
fn token<'a>(
    alloc: Global,
    words: &mut Words,
    text: &'a [u16],
) -> Result<(TokenKind, &'a [u16]), LexFault>
    ensures read { IfOk result (λ split. TokenAt text.now split.1.now split.0) }
    ensures shorter { IfOk result (λ split. length split.1.now < length text.now) }
    ensures refused { IfCause result (λ _. (rest : List ℕ) (what : PureKind)
        → TokenAt text.now rest what → ⊥) }
{
    let [unit, ..] = text else {
        return Err(LexFault::Cause(NotTokens));
    };
    if is_quote(*unit) {
        return string_token(alloc, text);
    }
    if is_decimal_digit(*unit) {
        return number(text).ok_or(LexFault::Cause(NotTokens));
    }
    if is_identifier_start(*unit) {
        return Ok(word(words, text)?);
    }
    punctuator_token(text).ok_or(LexFault::Cause(NotTokens))
}

/// The string with which the text begins.
#[tactic(auto, using(crate::proofs::OneToken::string_refused))]
fn string_token(alloc: Global, text: &[u16]) -> Result<(TokenKind, &[u16]), LexFault>
    requires { characters.begins_with characters.is_quote text.now ≡ true }
    ensures read { IfOk result (λ split. TokenAt text.now split.1.now split.0) }
    ensures shorter { IfOk result (λ split. length split.1.now < length text.now) }
    ensures refused { IfCause result (λ _. (rest : List ℕ) (what : PureKind)
        → TokenAt text.now rest what → ⊥) }
{
    let [quote, behind @ ..] = text else {
        return Err(LexFault::Cause(NotTokens));
    };
    let (value, rest) = string(alloc, *quote, behind)?;
    Ok((TokenKind::Text(value), rest))
}

/// The word with which the text begins.
fn word<'a>(words: &mut Words, text: &'a [u16]) -> Result<(TokenKind, &'a [u16]), OutOfMemory>
    requires { characters.begins_with characters.is_identifier_start text.now ≡ true }
    ensures read { IfOk result (λ split. TokenAt text.now split.1.now split.0) }
    ensures shorter { IfOk result (λ split. length split.1.now < length text.now) }
{
    let (word, behind) = text.split_at(word_len(text));
    Ok((TokenKind::Word(words.text_of(word)?), behind))
}

/// How many units of the text may stand in an identifier.
fn word_len(text: &[u16]) -> usize
    ensures read { result ≡ prefix_len characters.is_identifier_part text.now }
    ensures within { result ≤ length text.now }
{
    text.iter()
        .take_while(|unit| is_identifier_part(**unit))
        .count()
}

/// The number with which the text begins.
fn number(text: &[u16]) -> Option<(TokenKind, &[u16])>
    requires { characters.begins_with characters.is_decimal_digit text.now ≡ true }
    ensures read { MatchOption result ((rest : List ℕ) (what : PureKind)
        → TokenAt text.now rest what → ⊥) (λ split. TokenAt text.now split.1.now split.0) }
    ensures shorter { IfSome result (λ split. length split.1.now < length text.now) }
{
    let (literal, behind) = text.split_at(literal_len(text));
    let value = value_of(literal)?;
    if begins_with_point(behind) {
        return None;
    }
    Some((TokenKind::Number(value), behind))
}

fn begins_with_point(text: &[u16]) -> bool
    ensures { result ≡ characters.begins_with (λ u. u == 46) text.now }
{
    match text {
        [] => false,
        [unit, ..] => *unit == u16::from(b'.'),
    }
}

/// The punctuator with which the text begins.
fn punctuator_token(text: &[u16]) -> Option<(TokenKind, &[u16])>
    requires quote { characters.begins_with characters.is_quote text.now ≡ false }
    requires digit { characters.begins_with characters.is_decimal_digit text.now ≡ false }
    requires start { characters.begins_with characters.is_identifier_start text.now ≡ false }
    ensures read { MatchOption result ((rest : List ℕ) (what : PureKind)
        → TokenAt text.now rest what → ⊥) (λ split. TokenAt text.now split.1.now split.0) }
    ensures shorter { IfSome result (λ split. length split.1.now < length text.now) }
{
    let (punct, behind) = punctuator(text)?;
    Some((TokenKind::Punct(punct), behind))
}
