//! String literals (ECMA-262 5.1 section 7.8.4).

ghost use Rattle.std.specs.Prelude.{◌≡◌, ◌==◌, ◌&&◌, ◌<◌, ◌≤◌, ◌∷◌, ℕ, List, length, if◌then◌else◌, drop, true, false, not, IfOk, IfSome, MatchOption, None, Some};
ghost use Rattle.js_core.specs.Memory.{IfCause};
ghost use Rattle.js_lexer.specs.Characters as characters;
ghost use Rattle.js_lexer.specs.Strings as spec;
ghost use Rattle.js_lexer.specs.Strings.{Closes};

use crate::characters::{digit_value, is_decimal_digit, is_hex_digit};
use crate::fault::{LexFault, NotTokens};
use js_core::{Units, is_line_end};
use std::alloc::Global;

const CARRIAGE_RETURN: u16 = 0x0d;

const LINE_FEED: u16 = 0x0a;

/// The value of a literal behind its opening quote, and what stands behind its closing one.
pub fn string(alloc: Global, quote: u16, text: &[u16]) -> Result<(Units, &[u16]), LexFault>
    ensures read { IfOk result (λ split. Closes quote text.now split.1.now split.0) }
    ensures within { IfOk result (λ split. length split.1.now ≤ length text.now) }
    ensures refused { IfCause result (λ _. (rest value : List ℕ)
        → Closes quote text.now rest value → ⊥) }
{
    let mut units = Vec::new(alloc);
    let mut rest = text;
    while let Some((unit, behind)) = character(quote, rest) {
        if let Some(unit) = unit {
            units.push(unit)?;
        }
        rest = behind;
    }
    match behind_quote(quote, rest) {
        Some(behind) => Ok((Units::of(alloc, units.as_slice())?, behind)),
        None => Err(LexFault::Cause(NotTokens)),
    }
}

/// What stands behind the quote, if the text begins with it.
fn behind_quote(quote: u16, text: &[u16]) -> Option<&[u16]>
    ensures { MatchOption result ((behind : List ℕ) → text.now ≡ quote ∷ behind → ⊥)
        (λ behind. text.now ≡ quote ∷ behind.now) }
{
    match text {
        [unit, behind @ ..] if *unit == quote => Some(behind),
        _ => None,
    }
}

/// The unit, if any, that the first character of a literal in these quotes stands for, and what stands behind it.
#[tactic(auto, unfolding(crate::specs::Strings::character_of))]
fn character(quote: u16, text: &[u16]) -> Option<(Option<u16>, &[u16])>
    ensures read { MatchOption result (spec.character_of quote text.now ≡ None)
        (λ split. spec.character_of quote text.now ≡ Some (split.0, split.1.now)) }
    ensures shorter { IfSome result (λ split. length split.1.now < length text.now) }
{
    let [unit, behind @ ..] = text else {
        return None;
    };
    if *unit == quote || is_line_end(*unit) {
        return None;
    }
    if *unit == u16::from(b'\\') {
        escape(behind)
    } else {
        Some((Some(*unit), behind))
    }
}

/// The same of a character behind its backslash.
#[tactic(auto, unfolding(crate::specs::Strings::escape_of))]
fn escape(text: &[u16]) -> Option<(Option<u16>, &[u16])>
    ensures read { MatchOption result (spec.escape_of text.now ≡ None)
        (λ split. spec.escape_of text.now ≡ Some (split.0, split.1.now)) }
    ensures shorter { IfSome result (λ split. length split.1.now < length text.now) }
{
    let [unit, behind @ ..] = text else {
        return None;
    };
    if *unit == CARRIAGE_RETURN {
        return Some((None, without_line_feed(behind)));
    }
    if is_line_end(*unit) {
        return Some((None, behind));
    }
    if *unit == u16::from(b'x') {
        return pair_escape(behind);
    }
    if *unit == u16::from(b'u') {
        return quad_escape(behind);
    }
    if is_decimal_digit(*unit) {
        return zero_escape(*unit, behind);
    }
    Some((Some(unit_escaped_by(*unit)), behind))
}

/// The text without the line feed with which it may begin.
fn without_line_feed(text: &[u16]) -> &[u16]
    ensures read { result.now ≡ (if characters.begins_with
        (λ v. v == 10) text.now then drop 1 text.now else text.now) }
    ensures within { length result.now ≤ length text.now }
{
    match text {
        [unit, behind @ ..] if *unit == LINE_FEED => behind,
        _ => text,
    }
}

/// U+0000 for the digit 0 that no digit follows.
fn zero_escape(digit: u16, text: &[u16]) -> Option<(Option<u16>, &[u16])>
    ensures { MatchOption result ((digit == 48)
        && not (characters.begins_with characters.is_decimal_digit text.now) ≡ false)
        (λ split. ((digit == 48) && not (characters.begins_with characters.is_decimal_digit
        text.now) ≡ true) × (split.0 ≡ Some 0) × (split.1.now ≡ text.now)) }
{
    if digit != u16::from(b'0') || begins_with_digit(text) {
        return None;
    }
    Some((Some(0), text))
}

fn begins_with_digit(text: &[u16]) -> bool
    ensures { result ≡ characters.begins_with characters.is_decimal_digit text.now }
{
    match text {
        [] => false,
        [unit, ..] => is_decimal_digit(*unit),
    }
}

/// The unit that two hexadecimal digits write.
fn pair_escape(text: &[u16]) -> Option<(Option<u16>, &[u16])>
    ensures read { MatchOption result (spec.pair_escape (spec.hex_pair text.now) ≡ None)
        (λ split. spec.pair_escape (spec.hex_pair text.now) ≡ Some (split.0, split.1.now)) }
    ensures within { IfSome result (λ split. length split.1.now ≤ length text.now) }
{
    let (unit, behind) = hex_pair(text)?;
    Some((Some(unit), behind))
}

/// The unit that four hexadecimal digits write.
fn quad_escape(text: &[u16]) -> Option<(Option<u16>, &[u16])>
    ensures read { MatchOption result (spec.quad_escape (spec.hex_pair text.now) ≡ None)
        (λ split. spec.quad_escape (spec.hex_pair text.now) ≡ Some (split.0, split.1.now)) }
    ensures within { IfSome result (λ split. length split.1.now ≤ length text.now) }
{
    let (high, text) = hex_pair(text)?;
    let (low, behind) = hex_pair(text)?;
    Some((Some(256 * high + low), behind))
}

/// The number that two hexadecimal digits write.
fn hex_pair(text: &[u16]) -> Option<(u16, &[u16])>
    ensures read { MatchOption result (spec.hex_pair text.now ≡ None)
        (λ split. spec.hex_pair text.now ≡ Some (split.0, split.1.now)) }
    ensures below { IfSome result (λ split. split.0 < 256) }
    ensures within { IfSome result (λ split. length split.1.now ≤ length text.now) }
{
    match text {
        [high, low, behind @ ..] if is_hex_digit(*high) && is_hex_digit(*low) => {
            Some((16 * digit_value(*high) + digit_value(*low), behind))
        }
        _ => None,
    }
}

/// The unit that a backslash and a unit stand for where the unit is no line end, digit, `x` or `u`.
#[tactic(auto, unfolding(crate::specs::Strings::unit_escaped_by))]
fn unit_escaped_by(unit: u16) -> u16
    ensures { result ≡ spec.unit_escaped_by unit }
{
    match unit {
        0x62 => 0x08,
        0x74 => 0x09,
        0x6e => 0x0a,
        0x76 => 0x0b,
        0x66 => 0x0c,
        0x72 => 0x0d,
        other => other,
    }
}
