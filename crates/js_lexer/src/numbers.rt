//! Numeric literals (ECMA-262 5.1 section 7.8.3).

ghost use Rattle.std.specs.Prelude.{◌≡◌, ◌≤◌, length, pos};
ghost use Rattle.std.specs.Char.{is_digit as is_digit_in};
ghost use Rattle.std.specs.List.{list_all, prefix_len};
ghost use Rattle.std.specs.Str.Parse.{digits_value};
ghost use Rattle.js_core.specs.Whole.{whole_of};
ghost use Rattle.js_lexer.specs.Numbers as spec;
ghost use Rattle.js_lexer.specs.Reading as reading;

use crate::characters::{digit_value, is_decimal_digit, is_identifier_start};
use js_core::Whole;

/// The largest number of the language.
const LARGEST: u64 = Whole::LARGEST as u64;

/// How many digits and starts of identifiers the text begins with: as long as a literal would be.
pub fn literal_len(text: &[u16]) -> usize
    ensures read { result ≡ prefix_len reading.is_literal_part text.now }
    ensures within { result ≤ length text.now }
{
    text.iter()
        .take_while(|unit| is_decimal_digit(**unit) || is_identifier_start(**unit))
        .count()
}

/// The number of a literal, if it is one and writes a number of the language.
#[tactic(auto, unfolding(crate::specs::Numbers::value_of))]
pub fn value_of(literal: &[u16]) -> Option<Whole>
    ensures { result ≡ reading.whole_from (spec.value_of literal.now) }
{
    match literal {
        [] => None,
        [zero, behind @ ..] if *zero == u16::from(b'0') => value_behind_zero(behind),
        _ => value_in(10, literal),
    }
}

/// The number of a literal that begins with 0.
fn value_behind_zero(behind: &[u16]) -> Option<Whole>
    ensures { result ≡ reading.whole_from (spec.value_behind_zero behind.now) }
{
    match behind {
        [] => Whole::new(0),
        [unit, digits @ ..] if *unit == u16::from(b'x') || *unit == u16::from(b'X') => {
            value_in(16, digits)
        }
        _ => None,
    }
}

/// The number of one digit or more.
fn value_in(radix: u64, digits: &[u16]) -> Option<Whole>
    requires some { 1 ≤ radix }
    requires most { radix ≤ 16 }
    ensures { result ≡ reading.whole_from (spec.value_in radix digits.now) }
{
    match digits {
        [] => None,
        [_, ..] if are_digits(radix, digits) => value_of_digits(radix, digits),
        _ => None,
    }
}

fn are_digits(radix: u64, units: &[u16]) -> bool
    ensures { result ≡ list_all (λ v. is_digit_in v radix) units.now }
{
    units
        .iter()
        .all(|unit| u64::from(digit_value(*unit)) < radix)
}

/// The number that digits write, if it is one of the language.
fn value_of_digits(radix: u64, digits: &[u16]) -> Option<Whole>
    requires some { 1 ≤ radix }
    requires most { radix ≤ 16 }
    ensures { result ≡ whole_of (pos (digits_value radix digits.now)) }
{
    let mut value: u64 = 0;
    for digit in digits {
        value = value * radix + u64::from(digit_value(*digit));
        if value > LARGEST {
            return None;
        }
    }
    Whole::new(value as i64)
}
