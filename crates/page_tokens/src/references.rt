//! Character references in text and in values.

ghost use Rattle.std.specs.Prelude.{◌≡◌, ◌<◌, ◌≤◌, ℕ, List, length, IfOk, IfSome, OnOk, MatchOption, None, Some, bytes_eq, true, false, ◌++◌};
ghost use Rattle.std.specs.Char.Escape.{encode_utf16};
ghost use Rattle.std.specs.Str.Parse.{digits_value};
ghost use Rattle.js_core.specs.Memory.{IfCause};
ghost use Rattle.page_tokens.specs.Characters as characters;
ghost use Rattle.page_tokens.specs.References as spec;
ghost use Rattle.page_tokens.specs.References.{Decodes};

use crate::characters::{begins_with, digit_value, digits_len, word_len};
use crate::fault::{NotTokens, TokenFault};
use js_core::Units;
use std::alloc::Global;

/// The largest scalar value.
const LARGEST: u32 = 0x10ffff;

/// What a text with references stands for. `NotTokens` where one of them stands for nothing.
#[tactic(auto, using(crate::proofs::Decoding::decoding_refused))]
pub fn decoded(alloc: Global, text: &[u16]) -> Result<Units, TokenFault>
    ensures read { IfOk result (λ value. Decodes text.now value) }
    ensures refused { IfCause result (λ _. (value : List ℕ)
        → Decodes text.now value → ⊥) }
{
    let mut units = Vec::new(alloc);
    let mut rest = text;
    while !rest.is_empty() {
        rest = push_piece(rest, &mut units)?;
    }
    Ok(Units::of(alloc, units.as_slice())?)
}

/// Appends what the character or reference stands for with which the text begins, and answers what stands behind it.
#[tactic(auto, unfolding(crate::specs::References::piece_of))]
fn push_piece<'a>(text: &'a [u16], units: &mut Vec<u16>) -> Result<&'a [u16], TokenFault>
    requires { 0 < length text.now }
    ensures read { IfOk result (λ rest. (piece : List ℕ)
        × (spec.piece_of text.now ≡ Some (piece, rest.now))
        × (units.new.items ≡ units.old.items ++ piece)) }
    ensures shorter { IfOk result (λ rest. length rest.now < length text.now) }
    ensures refused { IfCause result (λ _. spec.piece_of text.now ≡ None) }
{
    let [unit, behind @ ..] = text else {
        return Err(TokenFault::Cause(NotTokens));
    };
    if *unit != u16::from(b'&') {
        units.push(*unit)?;
        return Ok(behind);
    }
    let Some((character, rest)) = reference(behind) else {
        return Err(TokenFault::Cause(NotTokens));
    };
    push_character(character, units)?;
    Ok(rest)
}

/// Appends the units of a character.
fn push_character(character: char, units: &mut Vec<u16>) -> Result<(), TokenFault>
    ensures ok { OnOk result (units.new.items ≡ units.old.items ++ encode_utf16 character) }
    ensures refused { IfCause result (λ _. ⊥) }
{
    let mut pair = [0; 2];
    units.extend_from_slice(character.encode_utf16(&mut pair))?;
    Ok(())
}

/// The character that stands behind `&`, which is `&` itself where no reference does, and what stands behind it.
#[tactic(auto, unfolding(crate::specs::References::reference_of))]
fn reference(text: &[u16]) -> Option<(char, &[u16])>
    ensures read { MatchOption result (spec.reference_of text.now ≡ None)
        (λ split. spec.reference_of text.now ≡ Some (encode_utf16 split.0, split.1.now)) }
    ensures within { IfSome result (λ split. length split.1.now ≤ length text.now) }
{
    match text {
        [unit, behind @ ..] if *unit == u16::from(b'#') => numeric(behind),
        _ => named(text),
    }
}

/// The character of a reference by name behind `&`, or `&` where there is none.
fn named(text: &[u16]) -> Option<(char, &[u16])>
    ensures read { MatchOption result (spec.named text.now
        (characters.run_of characters.is_letter_or_digit text.now)
        (characters.behind characters.is_letter_or_digit text.now) ≡ None)
        (λ split. spec.named text.now (characters.run_of characters.is_letter_or_digit text.now)
        (characters.behind characters.is_letter_or_digit text.now)
        ≡ Some (encode_utf16 split.0, split.1.now)) }
    ensures within { IfSome result (λ split. length split.1.now ≤ length text.now) }
{
    let (name, behind) = text.split_at(word_len(text));
    if name.is_empty() || !begins_with(u16::from(b';'), behind) {
        return Some(('&', text));
    }
    Some((character_named(name)?, &behind[1..]))
}

/// The character of the name, if it is one.
#[tactic(auto, unfolding(crate::specs::References::character_named))]
fn character_named(name: &[u16]) -> Option<char>
    ensures { result ≡ spec.character_named name.now }
{
    if is_word(b"amp", name) {
        return Some('&');
    }
    if is_word(b"lt", name) {
        return Some('<');
    }
    if is_word(b"gt", name) {
        return Some('>');
    }
    if is_word(b"quot", name) {
        return Some('"');
    }
    if is_word(b"apos", name) {
        return Some('\'');
    }
    if is_word(b"nbsp", name) {
        return Some('\u{a0}');
    }
    None
}

/// Whether the text is this word.
fn is_word(word: &[u8], text: &[u16]) -> bool
    ensures { result ≡ bytes_eq text.now word.now }
{
    let mut text = text;
    let mut word = word;
    while let [code, more @ ..] = word {
        let [unit, behind @ ..] = text else {
            return false;
        };
        if *unit != u16::from(*code) {
            return false;
        }
        text = behind;
        word = more;
    }
    text.is_empty()
}

/// The character of a reference by number behind `&#`.
#[tactic(auto, unfolding(crate::specs::References::numeric_of))]
fn numeric(text: &[u16]) -> Option<(char, &[u16])>
    ensures read { MatchOption result (spec.numeric_of text.now ≡ None)
        (λ split. spec.numeric_of text.now ≡ Some (encode_utf16 split.0, split.1.now)) }
    ensures within { IfSome result (λ split. length split.1.now ≤ length text.now) }
{
    match text {
        [] => None,
        [unit, digits @ ..] if *unit == u16::from(b'x') => number(16, digits),
        _ => number(10, text),
    }
}

/// The character of digits and `;`.
fn number(radix: u32, text: &[u16]) -> Option<(char, &[u16])>
    requires some { 1 ≤ radix }
    requires most { radix ≤ 16 }
    ensures read { MatchOption result (spec.number_of radix text.now ≡ None)
        (λ split. spec.number_of radix text.now ≡ Some (encode_utf16 split.0, split.1.now)) }
    ensures within { IfSome result (λ split. length split.1.now ≤ length text.now) }
{
    let (digits, behind) = text.split_at(digits_len(radix, text));
    if digits.is_empty() || !begins_with(u16::from(b';'), behind) {
        return None;
    }
    Some((character_numbered(value_of(radix, digits))?, &behind[1..]))
}

/// The character with the number, if it is one that has a reference.
fn character_numbered(number: u32) -> Option<char>
    ensures { MatchOption result (spec.has_reference number ≡ false)
        (λ character. (spec.has_reference number ≡ true) × (character ≡ number)) }
{
    if number == 0 || number >= 128 && number < 160 {
        return None;
    }
    char::from_u32(number)
}

/// The number that digits write, or one above all scalar values where it is above them.
fn value_of(radix: u32, digits: &[u16]) -> u32
    requires some { 1 ≤ radix }
    requires most { radix ≤ 16 }
    ensures known { spec.has_reference result
        ≡ spec.has_reference (digits_value radix digits.now) }
    ensures same { spec.has_reference result ≡ true → result ≡ digits_value radix digits.now }
{
    let mut value: u32 = 0;
    for digit in digits {
        value = value * radix + u32::from(digit_value(*digit));
        if value > LARGEST {
            return value;
        }
    }
    value
}
