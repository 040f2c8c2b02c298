//! How long printed texts are, without the texts.

ghost use Rattle.std.specs.Prelude.{◌≡◌, ◌+◌, length, IfOk};
ghost use Rattle.std.specs.List.{list_all};
ghost use Rattle.js_core.specs.LineText.{line_text};
ghost use Rattle.js_print.specs.Printing.{code_text, unnamed};
ghost use Rattle.js_print.specs.Spelling as spec;

use crate::expressions::{push_code, push_unnamed_code};
use crate::lexeme::Lexeme;
use crate::spelling::is_word;
use crate::strings::is_plain;
use itoa::Buffer;
use js_core::{Code, OutOfMemory, Units, Whole};
use std::alloc::Global;

/// How many bytes `print_code` appends.
pub fn code_length(alloc: Global, code: &Code) -> Result<u64, OutOfMemory>
    ensures { IfOk result (λ bytes. bytes ≡ length (code_text code.now)) }
{
    let mut lexemes = Vec::new(alloc);
    push_code(code, &mut lexemes)?;
    lexemes_length(alloc, lexemes.as_slice())
}

/// How many bytes `print_unnamed` appends.
pub fn unnamed_length(alloc: Global, code: &Code) -> Result<u64, OutOfMemory>
    ensures { IfOk result (λ bytes. bytes ≡ length (code_text (unnamed code.now))) }
{
    let mut lexemes = Vec::new(alloc);
    push_unnamed_code(code, &mut lexemes)?;
    lexemes_length(alloc, lexemes.as_slice())
}

// How many bytes the text of lexemes has.
fn lexemes_length(alloc: Global, lexemes: &[Lexeme]) -> Result<u64, OutOfMemory>
    ensures { IfOk result (λ bytes. bytes ≡ length (spec.text_of lexemes.now)) }
{
    let mut bytes = 0;
    let mut after_word = false;
    let mut rest = lexemes;
    while let [lexeme, after @ ..] = rest {
        bytes = longer(bytes, space_length(after_word, is_word(lexeme)))?;
        bytes = longer(bytes, lexeme_length(alloc, lexeme)?)?;
        after_word = is_word(lexeme);
        rest = after;
    }
    Ok(bytes)
}

// A length with more bytes. A sum above 2^64 - 1 is answered as want of memory: no memory holds such a text.
fn longer(bytes: u64, more: u64) -> Result<u64, OutOfMemory>
    ensures { IfOk result (λ sum. sum ≡ bytes + more) }
{
    if more > u64::MAX - bytes {
        return Err(OutOfMemory);
    }
    Ok(bytes + more)
}

fn space_length(after_word: bool, before_word: bool) -> u64
    ensures { result ≡ length (spec.space_between after_word before_word) }
{
    if after_word && before_word { 1 } else { 0 }
}

fn lexeme_length(alloc: Global, lexeme: &Lexeme) -> Result<u64, OutOfMemory>
    ensures { IfOk result (λ bytes. bytes ≡ length (spec.lexeme_text lexeme.now)) }
{
    match lexeme {
        Lexeme::Keyword(keyword) => Ok(keyword.text().len() as u64),
        Lexeme::Name(name) => name_length(alloc, name),
        Lexeme::Number(number) => Ok(number_length(number)),
        Lexeme::Text(text) => string_length(text.as_slice()),
        Lexeme::Punct(punct) => Ok(punct.text().len() as u64),
    }
}

fn number_length(number: &Whole) -> u64
    ensures { result ≡ length (spec.number_text number.now) }
{
    match number.get() {
        Some(value) if value >= 0 => {
            let mut digits = Buffer::new();
            digits.format(value as u64).len() as u64
        }
        _ => 0,
    }
}

// How many bytes a string literal has, with its quotes.
fn string_length(units: &[u16]) -> Result<u64, OutOfMemory>
    ensures { IfOk result (λ bytes. bytes ≡ length (spec.string_text units.now)) }
{
    let mut bytes = 2;
    let mut rest = units;
    while let [unit, after @ ..] = rest {
        bytes = longer(bytes, string_unit_length(*unit))?;
        rest = after;
    }
    Ok(bytes)
}

fn string_unit_length(unit: u16) -> u64
    ensures { result ≡ length (spec.string_unit unit) }
{
    if is_plain(unit) {
        return 1;
    }
    match unit {
        0x22 | 0x5C => 2,
        _ => 6,
    }
}

// How many bytes a name has, as it stands in a line. Nearly all names are plain, and these need no text.
#[tactic(auto, using(crate::proofs::PlainNames::plain_name_length))]
fn name_length(alloc: Global, name: &Units) -> Result<u64, OutOfMemory>
    ensures { IfOk result (λ bytes. bytes ≡ length (line_text name.now)) }
{
    let units = name.as_slice();
    if are_plain(units) {
        return Ok(units.len() as u64);
    }
    let mut text = Vec::new(alloc);
    name.to_line_text(&mut text)?;
    Ok(text.len() as u64)
}

fn are_plain(units: &[u16]) -> bool
    ensures { result ≡ list_all spec.is_plain units.now }
{
    units.iter().all(|unit| is_plain(*unit))
}
