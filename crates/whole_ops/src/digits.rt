//! Digits among 16-bit units.

ghost use Rattle.std.specs.Prelude.{◌≡◌, ◌≤◌, length, SomeIff};
ghost use Rattle.std.specs.Char.{digit_value, is_digit};
ghost use Rattle.std.specs.List.{prefix_len, list_all};
ghost use Rattle.std.specs.Str.Parse.{digits_value};
ghost use Rattle.js_core.specs.Whole.{largest};
ghost use Rattle.whole_ops.specs.Numeral as spec;

use crate::arithmetic::LARGEST;

/// The base of decimal digits.
pub(crate) const DECIMAL: u64 = 10;

/// The base of hexadecimal digits.
pub(crate) const HEXADECIMAL: u64 = 16;

/// The number of the digits, or `None` exactly where it is past the largest number.
pub(crate) fn size_in_range(radix: u64, digits: &[u16]) -> Option<u64>
    requires low { 2 ≤ radix }
    requires high { radix ≤ 16 }
    ensures { SomeIff result (digits_value radix digits.now ≤ largest)
        (digits_value radix digits.now) }
{
    let mut size: u64 = 0;
    for digit in digits {
        size = size * radix + value_of_digit(*digit);
        if size > LARGEST {
            return None;
        }
    }
    Some(size)
}

/// Whether the units are one or more digits.
pub(crate) fn are_digits(radix: u64, units: &[u16]) -> bool
    ensures { result ≡ spec.are_digits radix units.now }
{
    match units {
        [] => false,
        _ => all_are_digits(radix, units),
    }
}

fn all_are_digits(radix: u64, units: &[u16]) -> bool
    ensures { result ≡ list_all (λ d. is_digit d radix) units.now }
{
    units.iter().all(|unit| value_of_digit(*unit) < radix)
}

pub(crate) fn begins_with_digit(units: &[u16]) -> bool
    ensures { result ≡ spec.begins_with_digit units.now }
{
    match units {
        [] => false,
        [unit, ..] => value_of_digit(*unit) < DECIMAL,
    }
}

/// What stands behind the decimal digits with which the text begins.
pub(crate) fn behind_digits(units: &[u16]) -> &[u16]
    ensures { result.now ≡ spec.behind_digits units.now }
{
    &units[digits_len(units)..]
}

fn digits_len(units: &[u16]) -> usize
    ensures read { result ≡ prefix_len (λ d. is_digit d 10) units.now }
    ensures within { result ≤ length units.now }
{
    units
        .iter()
        .take_while(|unit| value_of_digit(**unit) < DECIMAL)
        .count()
}

/// The value of a digit or an ASCII letter, as `Z` is 35, and 36 of any other unit.
fn value_of_digit(unit: u16) -> u64
    ensures { result ≡ digit_value unit }
{
    match u8::try_from(unit) {
        Ok(byte @ b'0'..=b'9') => u64::from(byte - b'0'),
        Ok(byte @ b'A'..=b'Z') => u64::from(byte - b'A') + 10,
        Ok(byte @ b'a'..=b'z') => u64::from(byte - b'a') + 10,
        _ => 36,
    }
}
