//! The number with which a text begins (ECMA-262 5.1 section 15.1.2.2).

ghost use Rattle.std.specs.Prelude.{◌≡◌, ◌≤◌, ◌<◌, length, option_copied, IfSome, Some, SomeIff, take_while};
ghost use Rattle.std.specs.Char.{digit_value, is_digit};
ghost use Rattle.std.specs.List.{prefix_len};
ghost use Rattle.std.specs.Str.Parse.{digits_value};
ghost use Rattle.js_core.specs.Whole.{largest};
ghost use Rattle.page_meaning.specs.NumberRows as spec;
ghost use Rattle.whole_ops.specs.Arithmetic.{whole_or_outside as spec_outcome};
ghost use Rattle.whole_ops.specs.Bits.{to_int32 as spec_int32};
ghost use Rattle.whole_ops.specs.Numeral as numeral;
ghost use Rattle.whole_ops.specs.WhiteSpace.{behind, is_str_white_space as spec_white};

use crate::radix::radix_in_range;
use js_core::Whole;
use whole_ops::{OpFault, is_str_white_space, to_uint32};

/// The size of the largest number.
const LARGEST: u64 = Whole::LARGEST as u64;

/// The number with which the units begin, behind white space, by the radix that a number gives: NaN where there is none, and
/// `Outside` where it is out of range.
pub fn parsed(units: &[u16], radix: Whole) -> Result<Whole, OpFault>
    ensures { result ≡ spec.parsed units.now radix }
{
    behind_sign(without_white_space(units), to_int32(radix))
}

/// The number from -2^31 to 2^31 - 1 that the last 32 bits are (section 9.5).
fn to_int32(number: Whole) -> i32
    ensures { result ≡ spec_int32 number }
{
    to_uint32(number).cast_signed()
}

/// What stands behind the white space with which the units begin.
pub fn without_white_space(units: &[u16]) -> &[u16]
    ensures { result.now ≡ behind spec_white units.now }
{
    &units[white_space_len(units)..]
}

fn white_space_len(units: &[u16]) -> usize
    ensures read { result ≡ prefix_len spec_white units.now }
    ensures within { result ≤ length units.now }
{
    units
        .iter()
        .take_while(|unit| is_str_white_space(**unit))
        .count()
}

fn behind_sign(units: &[u16], radix: i32) -> Result<Whole, OpFault>
    ensures { result ≡ spec.behind_sign units.now radix }
{
    by_radix(begins_with_minus(units), without_sign(units), radix)
}

fn begins_with_minus(units: &[u16]) -> bool
    ensures { result ≡ numeral.begins_with_minus units.now }
{
    match units {
        [] => false,
        [unit, ..] => *unit == u16::from(b'-'),
    }
}

fn without_sign(units: &[u16]) -> &[u16]
    ensures { result.now ≡ numeral.without_sign units.now }
{
    match units {
        [unit, rest @ ..] if *unit == u16::from(b'+') || *unit == u16::from(b'-') => rest,
        _ => units,
    }
}

/// The number in the radix; 0 stands for 10, and `0x` goes before no other radix than 16.
fn by_radix(minus: bool, units: &[u16], radix: i32) -> Result<Whole, OpFault>
    ensures { result ≡ spec.by_radix minus units.now radix }
{
    if radix == 0 {
        return by_prefix(minus, 10, units);
    }
    if radix == 16 {
        return by_prefix(minus, 16, units);
    }
    by_given_radix(minus, units, radix)
}

fn by_prefix(minus: bool, radix: u64, units: &[u16]) -> Result<Whole, OpFault>
    requires low { 2 ≤ radix }
    requires high { radix ≤ 36 }
    ensures { result ≡ spec.by_prefix minus radix units.now (numeral.behind_hex_prefix units.now) }
{
    match behind_hex_prefix(units) {
        Some(digits) => number_before(minus, 16, digits),
        None => number_before(minus, radix, units),
    }
}

/// What stands behind `0x` or `0X`, if the units begin so.
fn behind_hex_prefix(units: &[u16]) -> Option<&[u16]>
    ensures { option_copied result ≡ numeral.behind_hex_prefix units.now }
{
    let [zero, mark, rest @ ..] = units else {
        return None;
    };
    let has_mark = *mark == u16::from(b'x') || *mark == u16::from(b'X');
    if *zero == u16::from(b'0') && has_mark {
        Some(rest)
    } else {
        None
    }
}

fn by_given_radix(minus: bool, units: &[u16], radix: i32) -> Result<Whole, OpFault>
    ensures { result ≡ spec.by_given_radix minus units.now (spec.radix_in_range (Some radix)) }
{
    match given_radix(radix) {
        Some(radix) => number_before(minus, radix, units),
        None => Ok(Whole::nan()),
    }
}

fn given_radix(radix: i32) -> Option<u64>
    ensures value { result ≡ spec.radix_in_range (Some radix) }
    ensures low { IfSome result (λ radix. 2 ≤ radix) }
    ensures high { IfSome result (λ radix. radix ≤ 36) }
{
    if radix >= 2 && radix <= 36 {
        Some(radix as u64)
    } else {
        None
    }
}

/// The number of the digits with which the units begin.
fn number_before(minus: bool, radix: u64, units: &[u16]) -> Result<Whole, OpFault>
    requires low { 2 ≤ radix }
    requires high { radix ≤ 36 }
    ensures { result ≡ spec.number_before minus radix units.now }
{
    number_of_digits(minus, radix, front_digits(radix, units))
}

fn front_digits(radix: u64, units: &[u16]) -> &[u16]
    ensures { result.now ≡ take_while (λ u. is_digit u radix) units.now }
{
    &units[..digits_len(radix, units)]
}

fn digits_len(radix: u64, units: &[u16]) -> usize
    ensures read { result ≡ prefix_len (λ u. is_digit u radix) units.now }
    ensures within { result ≤ length units.now }
{
    units
        .iter()
        .take_while(|unit| value_of_digit(**unit) < radix)
        .count()
}

fn number_of_digits(minus: bool, radix: u64, digits: &[u16]) -> Result<Whole, OpFault>
    requires low { 2 ≤ radix }
    requires high { radix ≤ 36 }
    ensures { result ≡ spec.number_of_digits minus radix digits.now }
{
    if digits.is_empty() {
        return Ok(Whole::nan());
    }
    match size_in_range(radix, digits) {
        Some(size) if minus => whole_or_outside(-(size as i64)),
        Some(size) => whole_or_outside(size as i64),
        None => Err(OpFault::Outside),
    }
}

/// The number, where it is in range.
fn whole_or_outside(number: i64) -> Result<Whole, OpFault>
    ensures { result ≡ spec_outcome number }
{
    Whole::new(number).ok_or(OpFault::Outside)
}

/// The number of the digits, or `None` exactly where it is past the largest number.
fn size_in_range(radix: u64, digits: &[u16]) -> Option<u64>
    requires low { 2 ≤ radix }
    requires high { radix ≤ 36 }
    ensures { SomeIff result (digits_value radix digits.now ≤ largest) (digits_value radix
        digits.now) }
{
    let mut size: u64 = 0;
    for digit in digits {
        size = size * radix + value_of_digit(*digit);
        if size > LARGEST {
            return None;
        }
    }
    Some(size)
}

/// The value of a digit or an ASCII letter, as `Z` is 35, and 36 of any other unit.
fn value_of_digit(unit: u16) -> u64
    ensures { result ≡ digit_value unit }
{
    match u8::try_from(unit) {
        Ok(byte @ b'0'..=b'9') => u64::from(byte - b'0'),
        Ok(byte @ b'A'..=b'Z') => u64::from(byte - b'A') + 10,
        Ok(byte @ b'a'..=b'z') => u64::from(byte - b'a') + 10,
        _ => 36,
    }
}
